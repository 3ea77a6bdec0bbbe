//! For how long a node's drive is sure to stay.

ghost use Rattle.std.specs.Prelude.{◌≡◌, ◌≤◌, List, []};
ghost use Rattle.wl_level.specs.declared.Level.{Level};
ghost use Rattle.wl_node.specs.History.{staying_history};
ghost use Rattle.wl_node.specs.Kept.{IsProgress};
ghost use Rattle.wl_node.specs.Limits.{most_quiet};
ghost use Rattle.wl_node.specs.Quiet.{floor_by, floor_and_silence, until_ready, quiet_at, quiet_of};

use crate::limits::MOST_QUIET;
use crate::progress::NodeProgress;
use crate::setup::{NodeSetup, Queued};
use wl_machine::Machine;

impl NodeProgress {
    /// Returns for how many quanta more the drive is sure to stay, in a node of this setup.
    pub fn quiet(&self, setup: &NodeSetup) -> u32
        ensures value { (levels : List Level) → IsProgress setup.now self.now levels
            → result ≡ quiet_at setup.now (staying_history setup.now levels) }
        ensures most { result ≤ most_quiet }
    {
        let settled = self.drive.is(self.traffic.pending);
        let place = setup.segments.least_way() as u32;
        let least = floor(self.clock.before_sample(), settled, place);
        let unsent = self.traffic.unsent.frames(setup);
        let handed = longer(least, self.traffic.machine.silence(0 < unsent.len()), place);
        let ready_in = until_ready(unsent, self.quanta);
        if ready_in <= handed as u64 {
            return handed.min(MOST_QUIET);
        }
        let unhanded = longer(least, self.traffic.machine.silence(false), place);
        handed
            .max(ready_in.min(unhanded as u64) as u32)
            .min(MOST_QUIET)
    }
}

impl NodeSetup {
    /// Returns for how many quanta a node of this setup that has run none is sure to drive recessive, as it does before quantum 0: what
    /// [`crate::Node::quiet`] returns of a fresh node.
    pub fn first_quiet(&self) -> u32
        ensures value { result ≡ quiet_of self.now [] }
        ensures most { result ≤ most_quiet }
    {
        wl_sync::the_sample_comes_near();
        let place = self.segments.least_way() as u32;
        let silence = Machine::new().silence(0 < self.queue.len());
        longer(place + 1, silence, place).min(MOST_QUIET)
    }
}

/// Returns the quanta before the one at which the first of these frames is ready.
fn until_ready(unsent: &[Queued], quantum: u64) -> u64
    ensures { result ≡ until_ready unsent.now quantum }
{
    match unsent.first() {
        Some(first) => first.ready.saturating_sub(quantum),
        None => 0,
    }
}

/// Returns the quanta up to the next sample. They go by the way to it, by whether the node drives what its machine wants, and by the least
/// way from a bit's start to a sample.
fn floor(way: Option<u16>, settled: bool, place: u32) -> u32
    requires { place ≤ 385 }
    ensures value { result ≡ floor_by way settled place }
    ensures small { result ≤ 65535 }
{
    match way {
        Some(quanta) => quanta as u32,
        None if settled => place + 1,
        None => 0,
    }
}

/// Returns that number, longer by the samples for which the machine is silent, if the node drives what it wants.
fn longer(least: u32, silence: u16, place: u32) -> u32
    requires few { least ≤ 65535 }
    requires small { place ≤ 385 }
    ensures { result ≡ floor_and_silence least silence place }
{
    if least == 0 {
        0
    } else {
        least + silence as u32 * (place + 1)
    }
}
