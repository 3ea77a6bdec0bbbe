//! The traffic of a run as text: how busy the bus was, how long each message waited, and why a run didn't work.
#![tactic(auto)]

mod bounds;
mod bus;
mod causes;
mod entries;
mod found;
mod healing;
mod late;
mod load;
mod messages;
mod nodes;
mod queues;
mod reason;
mod silence;
mod spans;
mod statistics;
mod text;
mod unequal;
mod verdict;
mod waits;
mod watch;

pub use reason::Reason;
pub use text::{Traffic, traffic_of, traffic_of_bus};
pub use verdict::{Verdict, verdict_of};
