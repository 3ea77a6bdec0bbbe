//! What `margin` tests of a plan is what the laws on any senders ask.
//!
//! A family's plan gives stations. A bus that leaves room has it for acknowledgements and to rest, and the first frames of a covered plan
//! find all nodes idle.

pub mod laws;
