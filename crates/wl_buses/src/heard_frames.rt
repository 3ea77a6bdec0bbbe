//! A node that only listens, on the line of others: it finds all frames that go through there.
//!
//! All is by the rules of the book, for clocks of one rate each (ISO 11898-1, bus monitoring; Bosch CAN 2.0 part B, section 10).

pub mod laws;
