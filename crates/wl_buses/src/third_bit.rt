//! The next frame, whose start of frame may reach stations in the third bit of the intermission.
//!
//! All is by the rules of the book, for clocks of one rate each (Bosch CAN 2.0 part B, sections 3.2.5 and 10).

pub mod laws;
