//! The first frame on a bus on which several nodes may send: which of them begin it, when, and that all sample it as it is on the bus.
//!
//! All is by the rules of the book, for clocks of one rate each (Bosch CAN 2.0 part B, sections 3.2.5 and 10; ISO 11898-1,
//! bus integration and hard synchronisation).

pub mod laws;
