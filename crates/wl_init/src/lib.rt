//! A plan to begin from: a bus of equal controllers, spread along a cable, as text with a remark on each key.
#![tactic(auto)]

mod bits;
mod draft;
mod fault;
mod run;
mod text;
mod wish;

pub use bits::{BitSetting, CLOCKS, FAR, NEAR, Shape, longest_for, setting_for, shape_quanta};
pub use draft::{Asked, CYCLES, Controller, Draft, draft_of, kind_word};
pub use fault::InitFault;
pub use run::init_run;
pub use text::first_plan;
pub use wish::{LEAST_RATE, MOST_RATE, Wish, cable_said, kind_said, rate_said};
