//! One node: clock, bit clock, machine and counters over the levels that it sees.
#![tactic(auto)]

mod ahead;
mod go;
mod integration;
mod laws;
mod limits;
mod mark;
mod node;
mod phase_totals;
mod progress;
mod quiet;
mod room;
mod samples;
pub mod setup;
mod staying_go;
mod staying_mark;
mod staying_node;
mod stays;
mod syncs;
mod traffic;
mod unsent;

pub use integration::{integrates, looks_at_head};
pub use laws::{drive_laws, extremes_are_extreme, node_laws, staying_laws};
pub use limits::MOST_QUIET;
pub use mark::Mark;
pub use node::{Node, NodeLists};
pub use phase_totals::PhaseTotals;
pub use samples::{SampleList, Samples};
pub use setup::{NodeSetup, Passed, Queue, QueueOrder, Queued};
pub use unsent::Unsent;
pub use wl_limits::MOST_RUN_QUANTA;
