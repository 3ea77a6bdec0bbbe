//! For how long a node's drive stays on a recessive line.

ghost use Rattle.std.specs.Prelude.{◌≡◌, ◌≤◌, suc, List};
ghost use Rattle.wl_level.specs.declared.Level.{Level};
ghost use Rattle.wl_node.specs.History.{staying_history};
ghost use Rattle.wl_node.specs.Kept.{IsProgress, KeepsDrive};
ghost use Rattle.wl_node.specs.Limits.{most_run_quanta};
ghost use Rattle.wl_node.specs.Stays.{until_frame, free_stay, stay_at};

use crate::progress::NodeProgress;
use crate::setup::{NodeSetup, Queued};
use wl_level::Level;
use wl_limits::MOST_RUN_QUANTA;

impl NodeProgress {
    /// Returns for how many quanta more the drive stays, in a node of this setup, if each of them is recessive.
    pub fn stays(&self, setup: &NodeSetup) -> u64
        ensures value { (levels : List Level) → IsProgress setup.now self.now levels
            → result ≡ stay_at setup.now (staying_history setup.now levels) }
        ensures stands { KeepsDrive setup.now Level.Recessive (suc result) self.now }
        ensures free { (levels : List Level) → IsProgress setup.now self.now levels
            → free_stay setup.now (staying_history setup.now levels) ≤ result }
        ensures most { result ≤ most_run_quanta }
    {
        crate::laws::staying_laws();
        wl_machine::laws::a_rest_is_kept();
        if self.drive.is_dominant() {
            return 0;
        }
        let Some(rest) = self.traffic.machine.rest() else {
            return 0;
        };
        let first = self.clock.free_quanta(Level::Recessive, true) as u64 + 1;
        let behind = setup.segments.ps2() - 1;
        let samples = first + rest as u64 * setup.segments.bit_quanta() + behind;
        samples.max(until_frame(self.traffic.unsent.frames(setup), self.quanta))
    }
}

/// Returns the quanta up to and including the one at which the first of these frames is ready.
fn until_frame(unsent: &[Queued], quantum: u64) -> u64
    ensures { result ≡ until_frame unsent.now quantum }
{
    match unsent.first() {
        Some(first) => first.ready.saturating_sub(quantum).min(MOST_RUN_QUANTA - 1) + 1,
        None => MOST_RUN_QUANTA,
    }
}
