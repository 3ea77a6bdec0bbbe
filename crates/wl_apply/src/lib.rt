//! A plan with other settings of its controllers: bit timings in the place of the plan's own, and each time as it was.
#![tactic(auto)]

mod applied;
mod chosen;
mod copies;
mod fault;
mod labels;
mod moves;
mod node;

pub use applied::applied_text;
pub use chosen::{Chosen, QuantumLength};
pub use fault::ApplyFault;
