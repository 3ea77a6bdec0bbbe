//! What a node does from sample to sample, and from when to when.
ghost use Rattle.std.specs.Prelude.{◌≡◌};
ghost use Rattle.wl_traffic.specs.States.{there_until};

use wl_machine::Doing;
use wl_node::{MOST_RUN_QUANTA, NodeSetup};

/// What a node does after a sample, and when: up to its next sample, or up to the end.
#[derive(Clone, Copy, Debug)]
pub struct Span {
    /// What it does.
    pub(crate) doing: Doing,
    /// The tick of the sample.
    pub(crate) from: u64,
    /// The tick of the next one, or the end.
    pub(crate) until: u64,
}

/// Returns up to which tick a node is there: up to the end, or up to the quantum with which it leaves the bus.
pub(crate) fn there_until(setup: &NodeSetup, end: u64) -> u64
    ensures { result ≡ there_until setup.now.until setup.now.clock end }
{
    match setup.until {
        Some(until) => {
            if until <= MOST_RUN_QUANTA {
                setup.clock.at(until).min(end)
            } else {
                end
            }
        }
        None => end,
    }
}
