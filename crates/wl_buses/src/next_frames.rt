//! Frames one after another on one line, by any number of senders.
//!
//! All is by the rules of the book, for clocks of one rate each (Bosch CAN 2.0 part B, sections 3.2.5 and 10).

pub mod begun;
pub mod laws;
pub mod lines;
pub mod nodes;
pub mod queues;
pub mod runs;
pub mod silence;
