//! Who takes part in a frame: each node that has one ready at its third bit of the intermission, and no node that decides later.
//!
//! All is by the rules of the book, for clocks of one rate each (Bosch CAN 2.0 part B, sections 3.1 and 3.2.5).

pub mod laws;
