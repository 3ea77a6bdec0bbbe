//! All groups of a line together, over every schedule: the headline.
#![tactic(auto)]

mod begin;
mod events;
mod laws;
mod outcome;
mod settle;
mod steps;
mod world;

pub use events::{Answer, Event, Stopped};
pub use laws::{headline, no_stall, settling_laws, worlds_are_faithful};
pub use world::World;
