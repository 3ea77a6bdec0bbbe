//! The end of a frame on one line, whoever has sent it: all acknowledge it but its sender, and up to the third bit of the intermission
//! all sample the same bits.
//!
//! All is by the rules of the book, for clocks of one rate each (Bosch CAN 2.0 part B, sections 3.1 and 10; ISO 11898-1,
//! synchronisation).

pub mod first;
pub mod laws;
