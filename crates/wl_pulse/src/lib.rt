//! Pulses: whether something is dominant from a tick on and below another one, as what a node's changes or a plan's disturbances make at a place.
#![tactic(auto)]

mod changes_pulse;
mod disturbed;
mod pulse;

pub use changes_pulse::{change_at, count_until, pulse_of};
pub use disturbed::disturbed_at;
pub use pulse::{Pulse, SILENCE};
