//! Why a script was not played to its end.

use std::alloc::{AllocError, Global};

/// Why a script was not played to its end.
#[derive(Drop)]
pub enum Stop {
    /// The script, the grouping or the plan is refused, by this fault.
    Fault(String),
    /// Out of memory.
    Memory,
}

impl From<AllocError> for Stop {
    fn from(_: AllocError) -> Stop {
        Stop::Memory
    }
}

/// Returns the fault of this name.
pub fn fault(alloc: Global, name: &str) -> Stop {
    match String::from_str(alloc, name) {
        Ok(text) => Stop::Fault(text),
        Err(_) => Stop::Memory,
    }
}

/// Returns the fault of a line, which counts from 1: it is no step, a `text` of no group, or a `place` of no group or none of its nodes.
pub fn fault_of_line(alloc: Global, number: u64) -> Stop {
    match format!(in alloc; "Line({number})") {
        Ok(text) => Stop::Fault(text),
        Err(_) => Stop::Memory,
    }
}
