//! Records of the changes of nodes: their limits, and when they are true. Their text is `wl_record`'s.
#![tactic(auto)]

mod laws;
mod limits;
mod record;
mod truth;

pub use laws::{
    clash_is_never_true, one_tick_a_slot, table_laws, true_is_within, truth_is_its_test,
    wide_record_limits_hold,
};
pub use limits::{
    MOST_EDGES, MOST_NODES, TEXT_EDGES, TEXT_NODES, TICK_END, record_edges, record_nodes,
};
pub use record::{Record, Slot};
