//! Drives groups of the nodes of plans, and writes what they answer.
//!
//! Its text is a plan's. A group of every single node says whether the node may run at once, also after it took the others' first silences.
//! Then a group of all nodes runs: its first advance, all the others, and all again, which is none; what it has emitted, and where each node
//! is in the end. A group of a single node that joins in what these know runs to its end as well. Another group of all nodes runs in rows of
//! quanta. At last the first group of all begins again.
#![tactic(auto)]

mod course;

use std::alloc::{AllocError, Global};
use wl_device::Host;
use wl_setup::read_checked;

/// Returns what the groups of a plan answer. Refused only when out of memory.
pub fn answer_rows(alloc: Global, text: &str) -> Result<String, AllocError> {
    match read_checked(alloc, &mut Host::new(text.as_bytes())) {
        Ok((plan, _)) => course::of_plan(alloc, &plan),
        Err(fault) => format!(in alloc; "fault: {fault}\n"),
    }
}
