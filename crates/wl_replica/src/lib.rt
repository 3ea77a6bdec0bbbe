//! What is known of all nodes of a bus, from records in any order.
//!
//! It is kept as slots that records are joined into. Replicas that took the same records are equal,
//! in whatever order and however often they came.
#![tactic(auto)]

mod canonical;
mod dense;
mod known_run;
mod laws;
mod node_row;
mod node_rows;
mod replica;
mod waves;

pub use canonical::RecordSink;
pub use dense::{EdgeRows, PREPARED_SLOTS, PreparedRows, Rows, SilenceRows};
pub use laws::{
    canonical_determines_the_state, canonical_stays_a_text, joining_is_a_join, known_laws,
    merging_is_appending, no_horizon_falls, same_records_same_state, slots_laws, slots_of_states,
    states_join_slot_by_slot, taking_is_joining, waves_agree,
};
pub use replica::{Prepared, Replica, Word};
