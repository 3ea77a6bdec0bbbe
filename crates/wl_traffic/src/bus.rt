//! When the bus was busy.
ghost use Rattle.std.specs.Prelude.{◌≡◌, ◌<◌, ◌≤◌, ◌||◌, ◌++◌, [], ◌∷◌, List, ℕ, IfOk, OnOk};
ghost use Rattle.wl_clock.specs.Timing.{tick_of};
ghost use Rattle.wl_intervals.specs.Pairs.{covers, has_tick};
ghost use Rattle.wl_level.specs.declared.Level.{Level};
ghost use Rattle.wl_node.specs.declared.setup.NodeSetup.{NodeSetup};
ghost use Rattle.wl_traffic.specs.Bus.{is_busy_doing, is_busy_span, is_off_doing};
ghost use Rattle.wl_traffic.specs.States.{doing_after};
ghost use Rattle.wl_traffic.specs.Watching.{HasFound, finds_up_to, found_so_far};

use crate::load::Load;
use crate::spans::Span;
use std::alloc::{AllocError, Global};
use wl_intervals::{Intervals, IntervalsFault};
use wl_machine::Doing;

/// How busy the bus was, and whether some node was bus off at some time.
#[derive(Clone, Copy, Debug)]
pub struct Bus {
    /// How busy it was.
    pub(crate) load: Load,
    /// Whether some node was bus off.
    pub(crate) off: bool,
}

/// True if a node that does this finds the bus busy.
fn is_busy(doing: Doing) -> bool
    ensures { result ≡ is_busy_doing doing }
{
    !matches!(
        &doing,
        Doing::Idle | Doing::Suspended | Doing::Integrating | Doing::OffBus
    )
}

/// Returns the set of the ticks from `from` up to, and not with, `to`.
fn only(alloc: Global, from: u64, to: u64) -> Result<Intervals, AllocError>
    ensures { IfOk result (λ alone. (t : ℕ) → covers alone t ≡ has_tick (from, to) t) }
{
    let mut alone = Intervals::new(alloc);
    match alone.push(from, to) {
        Err(IntervalsFault::Memory) => Err(AllocError),
        _ => Ok(alone),
    }
}

/// Adds the ticks from `from` up to, and not with, `to` to a set, quickly if they come after all others.
fn add(alloc: Global, busy: &mut Intervals, from: u64, to: u64) -> Result<(), AllocError>
    ensures { OnOk result ((t : ℕ) → covers busy.new t ≡ (covers busy.old t || has_tick (from, to) t)) }
{
    match busy.push(from, to) {
        Ok(()) => Ok(()),
        Err(IntervalsFault::Empty) => Ok(()),
        Err(IntervalsFault::Memory) => Err(AllocError),
        Err(IntervalsFault::NotAfterLast) => {
            let alone = only(alloc, from, to)?;
            busy.join(&alone)
        }
    }
}

/// Returns the run of busy ticks up to the end of a span. If the span doesn't go on with the run that run is added, and a new one begins.
fn run_after(
    alloc: Global,
    busy: &mut Intervals,
    run: (u64, u64),
    span: &Span,
) -> Result<(u64, u64), AllocError>
    requires run { run.0 ≤ run.1 }
    requires span { span.now.from ≤ span.now.until }
    ensures order { IfOk result (λ after. after.0 ≤ after.1) }
    ensures ticks { IfOk result (λ after. (t : ℕ)
        → (covers busy.new t || has_tick after t)
        ≡ ((covers busy.old t || has_tick run t) || is_busy_span t span.now)) }
{
    if !is_busy(span.doing) {
        return Ok(run);
    }
    if run.1 == span.from {
        return Ok((run.0, span.until));
    }
    add(alloc, busy, run.0, run.1)?;
    Ok((span.from, span.until))
}

/// True if a node that does this is bus off.
fn is_off(doing: Doing) -> bool
    ensures { result ≡ is_off_doing doing }
{
    matches!(&doing, Doing::OffBus)
}

/// When a node found the bus busy, sample by sample.
#[derive(Drop)]
pub(crate) struct BusyTicks {
    /// The ticks up to its last sample, but for the running ones.
    pub(crate) busy: Intervals,
    /// The running ticks: from one up to, and not with, another.
    pub(crate) run: (u64, u64),
    /// What it has been doing since its last sample, and the tick of that.
    pub(crate) doing: Option<(Doing, u64)>,
    /// Whether it was bus off after some sample.
    pub(crate) off: bool,
}

impl BusyTicks {
    /// Returns what a node found that had no sample yet.
    pub(crate) fn new(alloc: Global) -> BusyTicks
        ensures { (setup : NodeSetup) → HasFound setup [] result }
    {
        BusyTicks {
            busy: Intervals::new(alloc),
            run: (0, 0),
            doing: None,
            off: false,
        }
    }

    /// Adds what the node has been doing since its last sample, up to a tick.
    fn close(&mut self, alloc: Global, until: u64) -> Result<(), AllocError>
        requires { self.old.run.0 ≤ self.old.run.1 }
        ensures order { OnOk result (self.new.run.0 ≤ self.new.run.1) }
        ensures ticks { OnOk result ((t : ℕ) → found_so_far self.new t ≡ finds_up_to until self.old t) }
        ensures off { OnOk result (self.new.off ≡ self.old.off) }
    {
        match self.doing {
            None => Ok(()),
            Some((doing, from)) => {
                let until = from.max(until);
                let span = Span { doing, from, until };
                self.run = run_after(alloc, &mut self.busy, self.run, &span)?;
                Ok(())
            }
        }
    }

    /// Takes a sample at this tick, after which the node does this.
    pub(crate) fn take(&mut self, alloc: Global, doing: Doing, at: u64) -> Result<(), AllocError>
        requires { self.old.run.0 ≤ self.old.run.1 }
        ensures { (setup : NodeSetup) (samples : List (ℕ × Level)) (sample : ℕ × Level)
            → HasFound setup samples self.old → at ≡ tick_of setup.clock sample.0
            → doing ≡ doing_after setup (samples ++ sample ∷ [])
            → OnOk result (HasFound setup (samples ++ sample ∷ []) self.new) }
    {
        self.close(alloc, at)?;
        self.doing = Some((doing, at));
        self.off = self.off || is_off(doing);
        Ok(())
    }

    /// Returns the ticks at which the node found the bus busy, up to a tick.
    pub(crate) fn all_until(self, alloc: Global, until: u64) -> Result<Intervals, AllocError>
        requires { self.run.0 ≤ self.run.1 }
        ensures { IfOk result (λ found. (t : ℕ) → covers found t ≡ finds_up_to until self t) }
    {
        let mut found = self;
        found.close(alloc, until)?;
        let (from, to) = found.run;
        let mut busy = found.busy;
        add(alloc, &mut busy, from, to)?;
        Ok(busy)
    }
}
