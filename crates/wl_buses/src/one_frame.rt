//! Any number of senders on one line: how far apart their bits begin, and that all sample what all drive.
//!
//! All is by the rules of the book, for clocks of one rate each (Bosch CAN 2.0 part B, sections 3.1 and 10; ISO 11898-1,
//! synchronisation).

pub mod ack;
pub mod before;
pub mod ending;
pub mod joining;
pub mod laws;
pub mod waits;
