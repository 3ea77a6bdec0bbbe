//! What passes a node from one frame to the next: that frame alone, and no error.
//!
//! All is by the rules of the book, for clocks of one rate each (Bosch CAN 2.0 part B, sections 3.2.5, 5 and 8).

pub mod laws;
