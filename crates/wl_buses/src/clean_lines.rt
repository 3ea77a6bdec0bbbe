//! A line on which any nodes have frames: all get through, one after another, from the power-up of all nodes on, whenever the line ends.
//!
//! All is by the rules of the book, for clocks of one rate each (Bosch CAN 2.0 part B, sections 3.1, 3.2.5, 5 and 10).

pub mod laws;
