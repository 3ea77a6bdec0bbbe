//! What each node has sent and received, as frames follow one another by their queues.
//!
//! All is by the rules of the book, for clocks of one rate each (Bosch CAN 2.0 part B, sections 3.1, 3.2.5 and 5).

pub mod nodes;
pub mod plans;
pub mod winners;
