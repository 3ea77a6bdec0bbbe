//! The engines of sweeps, over any reader and writer.
//!
//! Each but one reads a plan's text. One runs the members of its family and writes what it finds of them, another a part of them; one writes
//! a member as a plan text. Two run a plan with a spike at one place in time after another, or write such a member. The last joins the texts
//! of parts.
#![tactic(auto)]

mod asked;
mod fault;
mod join;
mod map;
mod part;
mod payload;
mod print;
mod run;
mod spikes;

pub use asked::Asked;
pub use fault::SweepFault;
pub use join::{JoinFault, join_run};
pub use map::map_run;
pub use part::part_run;
pub use print::print_run;
pub use run::sweep_run;
pub use spikes::{spike_print, spikes_run};
pub use wl_parts::PartsFault;
pub use wl_spikes::SpikeFault;
pub use wl_sweep::{Options, RangeFault, Share, Tally, Workers};
