//! Plans of a simulation: what they are, which of them can be run, and the one-thread simulation by which all else is judged.
#![tactic(auto)]

mod check;
mod checked;
mod grouping;
mod guess;
mod laws;
mod limits;
mod plan;

pub use check::PlanFault;
pub use checked::CheckedPlan;
pub use grouping::{Grouping, GroupingFault, MOST_GROUPS};
pub use guess::a_consistent_guess_holds;
pub use laws::{
    a_line_at_rest_stays, changes_are_few, checked_is_sound, faultless_is_checked, grouping_laws,
    outcome_is_true, simulation_laws, test_of_truth,
};
pub use limits::{
    FEW_QUEUED, LATEST_END, MOST_DISTURBANCES, MOST_QUANTA, MOST_QUEUED, MOST_SHORT_QUANTA,
};
pub use plan::{Disturbance, Disturbances, Nodes, Plan};
