//! The one-thread engine: the outcome of the tick-by-tick simulation of a plan, computed from quantum to quantum.
#![tactic(auto)]

mod alone;
mod checked;
mod engine;
mod guess;
mod laws;
mod line_at;
mod outcome;
mod quiet_line;
mod recorded;
mod records;
mod running_node;
mod so_far;
mod sources;
mod turn;

pub use engine::{run_serial, run_totals};
pub use laws::{outcome_is_recordable, outcome_node_by_node, records_are_true, records_are_within};
pub use outcome::{
    Changes, Counted, Drives, Frames, NodeOutcome, NodeOutcomes, NodeTotals, Outcome, Phases,
    Totals,
};
pub use recorded::{run_counted, run_drives, run_records};
pub use records::records_of;
pub use so_far::{node_outcome, node_totals};
