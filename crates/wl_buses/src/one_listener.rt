//! A node that only listens, beside the others: what it samples at the end of a frame.
//!
//! All is by the rules of the book, for clocks of one rate each (ISO 11898-1, bus monitoring; Bosch CAN 2.0 part B, section 10).

pub mod laws;
