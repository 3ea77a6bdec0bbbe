//! Groups of nodes that run by themselves, each up to what it knows of the others.
#![tactic(auto)]

mod advance;
mod ahead;
mod answer;
mod begin;
mod cell;
mod changes;
mod group;
mod heard;
mod laws;

pub use answer::{Advance, Emission};
pub use begin::first_silence;
pub use group::Group;
pub use laws::{advance_laws, group_laws, led_laws, party_laws, true_replicas_agree, value_laws};
