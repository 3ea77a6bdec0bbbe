//! What the word 'proved' of `margin` promises of the runs of a bus's plans, in the words of reports.
//!
//! All is by the rules of the book, for clocks of one rate each (Bosch CAN 2.0 part B, sections 3.1, 3.2.5, 5 and 10).
#![tactic(auto)]

pub mod beside;
pub mod hearing;
pub mod laws;
pub mod plans;
pub mod silence;
pub mod waits;
