//! How long a frame lasts: from its winner's start of frame to the bit after the intermission, at each station.
//!
//! All is by the rules of the book, for clocks of one rate each (Bosch CAN 2.0 part B, sections 3.2, 6 and 10).

pub mod laws;
