//! Whether the bus of a plan works, how sure that is, where it is weakest, and which change gives most.
//!
//! It is made of what `traffic` says of the plan's run and `margin` of its bus, and makes no judgement of its own.
#![tactic(auto)]

mod answer;
mod judgement;
mod laws;
mod measure;
mod plan;
mod trial;
mod weakest;

pub use answer::{Answer, Gains, Manner, RunSaid, judge_bus};
pub use judgement::{Judgement, RunState, judgement_of};
pub use laws::a_proved_bus_has_a_proved_margin;
pub use measure::{Found, Measure};
pub use plan::judge_plan;
pub use trial::{Step, Trial};
pub use weakest::{Pair, Weakest};
