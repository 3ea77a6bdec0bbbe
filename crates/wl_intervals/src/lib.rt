//! Sets of dominant ticks, as intervals.
#![tactic(auto)]

mod intervals;
mod laws;

pub use intervals::{Intervals, IntervalsFault};
pub use laws::interval_laws;
pub use wl_level::Level;
