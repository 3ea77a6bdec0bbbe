//! A trace of a run: what happened to each node, and where in a frame.
#![tactic(auto)]

mod event;
mod laws;
mod notes;
mod replay;
mod rerun;
mod sampled_node;
mod snapshot;
mod staying_rerun;
mod stretch;
mod watched_node;

pub use event::{FlagForm, NodeEvent, Noted};
pub use laws::trace_laws;
pub use replay::node_events;
pub use rerun::Rerun;
pub use sampled_node::SampledNode;
pub use snapshot::{NodeSnapshot, NodeState};
pub use staying_rerun::Stride;
pub use watched_node::WatchedNode;
pub use wl_frame::field::{FrameField, FramePlace};
