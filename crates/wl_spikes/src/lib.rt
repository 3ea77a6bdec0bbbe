//! Sweeps of spikes: a plan run with one more dominant disturbance, at one place in time after another, and what each costs.
//!
//! What is found of a member is by the verdict of `traffic` on the member's plan. What a sweep says is a function of the plan's text and
//! the spike: no clause knows how many threads there are.
#![tactic(auto)]

mod aftermath;
mod asked;
mod runs;
mod spike;
mod tally;
mod text;

pub use aftermath::{Aftermath, Class};
pub use asked::{SpikeFault, read_spike};
pub use spike::{Spike, Spikes, Target};
pub use tally::{ClassTally, SpikeTally};
