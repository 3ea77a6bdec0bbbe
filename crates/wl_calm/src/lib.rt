//! Whether a run has a silence: nobody drives dominant for so long, and all nodes are on the bus and error active.
#![tactic(auto)]

mod calm;
mod fit;
mod pauses;
mod settled;
mod ticks;

pub use calm::{Calm, calm_of};
pub use ticks::silence_ticks;
