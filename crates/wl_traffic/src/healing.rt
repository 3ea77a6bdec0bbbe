//! Until when nodes were at error and overload flags, and how long that was after the last disturbance.
ghost use Rattle.std.specs.Prelude.{◌≡◌, ◌++◌, ◌∷◌, [], List, ℕ, OnOk};
ghost use Rattle.wl_clock.specs.Timing.{tick_of};
ghost use Rattle.wl_level.specs.declared.Level.{Level};
ghost use Rattle.wl_node.specs.declared.setup.NodeSetup.{NodeSetup};
ghost use Rattle.wl_report.specs.Lines.{GrowsBy};
ghost use Rattle.wl_traffic.specs.Healing.{HasTrouble, clean_from, disturbed_until, healed_by, healed_line, healed_words, is_off_reason, is_trouble_doing, trouble_by};
ghost use Rattle.wl_traffic.specs.States.{doing_after};

use crate::causes::microseconds_of;
use crate::queues::NodeQueue;
use crate::reason::Reason;
use std::alloc::AllocError;
use wl_machine::Doing;
use wl_plan::{CheckedPlan, Disturbance};
use wl_views::Tick;

/// Until when a node was at flags and their delimiters, sample by sample.
#[derive(Clone, Copy)]
pub(crate) struct Trouble {
    /// Until which tick it was at one, up to its last sample; 0 if it wasn't.
    pub(crate) until: u64,
    /// What it has been doing since its last sample, and the tick of that.
    pub(crate) doing: Option<(Doing, u64)>,
}

/// True if a node that does this is at an error or overload flag, or its delimiter.
fn is_trouble(doing: Doing) -> bool
    ensures { result ≡ is_trouble_doing doing }
{
    matches!(
        &doing,
        Doing::ActiveFlag
            | Doing::PassiveFlag
            | Doing::OverloadFlag
            | Doing::Waiting
            | Doing::Delimiting
    )
}

impl Trouble {
    /// Returns what is known of a node that had no sample yet.
    pub(crate) fn new() -> Trouble
        ensures { (setup : NodeSetup) → HasTrouble setup [] result }
    {
        Trouble {
            until: 0,
            doing: None,
        }
    }

    /// Returns until which tick the node was at a flag or its delimiter, if it goes on up to an end.
    pub(crate) fn by(self, end: u64) -> u64
        ensures { result ≡ trouble_by end self }
    {
        match self.doing {
            None => self.until,
            Some((doing, from)) => {
                if is_trouble(doing) {
                    self.until.max(from.max(end))
                } else {
                    self.until
                }
            }
        }
    }

    /// Returns what is known after one more sample, at this tick, after which the node does this.
    pub(crate) fn with(self, doing: Doing, at: u64) -> Trouble
        ensures { (setup : NodeSetup) (samples : List (ℕ × Level)) (sample : ℕ × Level)
            → HasTrouble setup samples self → at ≡ tick_of setup.clock sample.0
            → doing ≡ doing_after setup (samples ++ sample ∷ [])
            → HasTrouble setup (samples ++ sample ∷ []) result }
    {
        Trouble {
            until: self.by(at),
            doing: Some((doing, at)),
        }
    }
}

/// Returns the end of the last disturbance, or 0 if there is none.
fn disturbed_until(disturbances: &[Disturbance]) -> u64
    ensures { result ≡ disturbed_until disturbances.now }
{
    let mut last = 0u64;
    for disturbance in disturbances {
        last = last.max(disturbance.to);
    }
    last
}

/// Returns from which tick on no node is at a flag or its delimiter, and nothing disturbs.
pub(crate) fn clean_from(disturbed: u64, queues: &[NodeQueue]) -> u64
    ensures { result ≡ clean_from disturbed queues.now }
{
    let mut last = disturbed;
    for queue in queues {
        last = last.max(queue.trouble);
    }
    last
}

/// Adds how long after the last disturbance the bus is clean, and from which tick on.
fn push_words(text: &mut String, tick: Tick, disturbed: u64, clean: u64) -> Result<(), AllocError>
    ensures { OnOk result (GrowsBy text.old text.new (healed_words tick disturbed clean)) }
{
    let time = microseconds_of(tick, clean.saturating_sub(disturbed));
    writeln!(
        text,
        "healed {time} us after the last disturbance, clean from tick {clean} on"
    )
}

/// Adds that line, if something disturbs, no node was bus off, and all is over before the end.
fn push_healed_by(
    text: &mut String,
    tick: Tick,
    end: u64,
    times: (u64, u64),
    off: bool,
) -> Result<(), AllocError>
    ensures { OnOk result (GrowsBy text.old text.new (healed_by tick end times.0 times.1 off)) }
{
    let (disturbed, clean) = times;
    if 0 < disturbed && clean < end && !off {
        return push_words(text, tick, disturbed, clean);
    }
    Ok(())
}

/// True if the run didn't work since some node was bus off.
fn is_off_reason(reason: Reason) -> bool
    ensures { result ≡ is_off_reason reason }
{
    matches!(&reason, Reason::BusOff)
}

/// Adds how long after the last disturbance the bus is clean, if it is.
pub(crate) fn push_healed(
    text: &mut String,
    tick: Tick,
    plan: &CheckedPlan,
    queues: &[NodeQueue],
    reason: Reason,
) -> Result<(), AllocError>
    ensures { OnOk result (GrowsBy text.old text.new (healed_line tick plan.now queues.now reason)) }
{
    let disturbed = disturbed_until(plan.disturbances.as_slice());
    let clean = clean_from(disturbed, queues);
    let off = is_off_reason(reason);
    push_healed_by(text, tick, plan.end, (disturbed, clean), off)
}
