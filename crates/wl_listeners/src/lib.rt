//! Nodes that only listen change nothing: all others go as they would without them.
#![tactic(auto)]

pub mod bus_parts;
pub mod heard;
pub mod laws;
