//! Since when a node is on the bus and error active.
ghost use Rattle.std.specs.Prelude.{◌≡◌, ◌<◌, ◌≤◌, ◌++◌, [], ◌∷◌, List, ℕ, fold, length, IfOk, OnOk};
ghost use Rattle.wl_level.specs.declared.Level.{Level as Found};
ghost use Rattle.wl_node.specs.Limits.{most_run_quanta};
ghost use Rattle.wl_plan.specs.PlanLine.{setup_at};
ghost use Rattle.wl_serial.specs.Outcome.{drives_of, outcome_of};
ghost use Rattle.wl_onward.specs.Fits.{fit_since, is_active, is_on, since_with};
ghost use Rattle.wl_calm.specs.Kept.{IsFit};
ghost use Rattle.wl_calm.specs.Modes.{active_after, active_with};

use std::alloc::{AllocError, Global};
use wl_confine::Mode;
use wl_level::Level;
use wl_machine::Doing;
use wl_node::NodeSetup;
use wl_plan::CheckedPlan;
use wl_serial::Drives;
use wl_trace::{NodeEvent, Noted, WatchedNode};
use wl_views::Sampling;

/// A node that runs again, sample by sample.
#[derive(Drop)]
pub(crate) struct Fit {
    pub(crate) node: WatchedNode,
    /// Whether it is error active.
    pub(crate) active: bool,
    /// The tick since which it is on the bus and error active, if it is.
    pub(crate) since: Option<u64>,
}

/// True if a node is error active.
fn is_active(mode: Mode) -> bool
    ensures { result ≡ is_active mode }
{
    match mode {
        Mode::Active => true,
        Mode::Passive | Mode::Off => false,
    }
}

/// True if a node that does this is on the bus.
fn is_on(doing: Doing) -> bool
    ensures { result ≡ is_on doing }
{
    match doing {
        Doing::OffBus => false,
        _ => true,
    }
}

/// True if a node is error active after an event.
fn active_with(active: bool, event: &NodeEvent) -> bool
    ensures { result ≡ active_with active event.now }
{
    match event {
        NodeEvent::ModeChanged(counters) => is_active(counters.mode()),
        _ => active,
    }
}

/// True if a node is error active after these events.
fn active_after(active: bool, events: &[Noted]) -> bool
    ensures { result ≡ active_after active events.now }
{
    let mut after = active;
    for noted in events {
        after = active_with(after, &noted.event);
    }
    after
}

/// Returns since which tick a node is on the bus and error active, after a sample at this tick.
fn since_with(fit: bool, since: Option<u64>, at: u64) -> Option<u64>
    ensures { result ≡ since_with fit since at }
{
    if fit {
        return Some(since.unwrap_or(at));
    }
    None
}

impl Fit {
    /// Returns a node of this setup before its first sample: it is on the bus and error active.
    fn new(alloc: Global, setup: &NodeSetup) -> Result<Fit, AllocError>
        ensures { IfOk result (IsFit setup.now []) }
    {
        Ok(Fit {
            node: WatchedNode::new(alloc, setup)?,
            active: true,
            since: Some(setup.clock.at(0)),
        })
    }

    /// Takes the next sample.
    fn take(
        &mut self,
        alloc: Global,
        setup: &NodeSetup,
        sample: (u64, Level),
    ) -> Result<(), AllocError>
        requires known { sample.0 ≤ most_run_quanta }
        ensures { (samples : List (ℕ × Found)) → IsFit setup.now samples self.old
            → OnOk result (IsFit setup.now (samples ++ sample ∷ []) self.new) }
    {
        let (quantum, level) = sample;
        let events = self.node.take(alloc, setup, quantum, 0, level)?; // no event is asked for its bit
        self.active = active_after(self.active, &events);
        let fit = self.active && is_on(self.node.doing());
        self.since = since_with(fit, self.since, setup.clock.at(quantum));
        Ok(())
    }
}

/// Returns what node `i` is made of.
fn setup_of(plan: &CheckedPlan, i: usize) -> &NodeSetup
    requires { i < length plan.now.nodes }
    ensures { result.now ≡ setup_at plan.now i }
{
    let setups = plan.nodes.as_slice();
    &setups[i]
}

/// Returns the tick since which node `i` is on the bus and error active up to the end of the run. None, if it isn't so at the end.
pub(crate) fn fit_since(
    alloc: Global,
    plan: &CheckedPlan,
    drives: &Drives,
    i: usize,
) -> Result<Option<u64>, AllocError>
    requires drives { drives.now ≡ drives_of (outcome_of plan.now) }
    requires node { i < length plan.now.nodes }
    ensures { IfOk result (λ since. since ≡ fit_since plan.now i) }
{
    let setup = setup_of(plan, i);
    let mut seen = Fit::new(alloc, setup)?;
    let mut samples = Sampling::new(alloc, plan, i)?;
    while let Some(sample) = samples.next(plan, drives, i) {
        seen.take(alloc, setup, sample)?;
    }
    Ok(seen.since)
}
