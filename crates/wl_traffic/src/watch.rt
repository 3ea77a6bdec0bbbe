//! What is seen of the nodes of a run: they run again, sample by sample, and nothing is kept of a sample but what is said of it.
ghost use Rattle.std.specs.Prelude.{◌≡◌, ◌<◌, ◌≤◌, ◌||◌, ◌++◌, [], ◌∷◌, List, ℕ, length, IfOk, OnOk};
ghost use Rattle.wl_intervals.specs.Pairs.{covers};
ghost use Rattle.wl_level.specs.declared.Level.{Level as Found};
ghost use Rattle.wl_node.specs.Limits.{most_run_quanta};
ghost use Rattle.wl_plan.specs.PlanLine.{setup_at};
ghost use Rattle.wl_serial.specs.Outcome.{counted_of, drives_of, node_outcome_of, outcome_of};
ghost use Rattle.wl_traffic.specs.Bus.{bus_found, finds_busy, was_off};
ghost use Rattle.wl_traffic.specs.Entries.{node_queue, node_queues};
ghost use Rattle.wl_traffic.specs.Watching.{HasWatched};

use crate::bus::{Bus, BusyTicks};
use crate::entries::{Entry, note_sample, waiting_entries};
use crate::healing::Trouble;
use crate::load::load_below;
use crate::nodes::{node_at, setup_of};
use crate::queues::{NodeQueue, received_quanta};
use crate::spans::there_until;
use std::alloc::{AllocError, Global};
use wl_delivery::Joining;
use wl_intervals::Intervals;
use wl_level::{Level, Listed};
use wl_node::NodeSetup;
use wl_plan::CheckedPlan;
use wl_serial::{Counted, Drives};
use wl_trace::WatchedNode;
use wl_views::Sampling;

/// What is seen of a run.
#[derive(Drop)]
pub(crate) struct Watched {
    /// The frames of each node, and what became of them.
    pub(crate) queues: Listed<NodeQueue>,
    /// How busy the bus was.
    pub(crate) bus: Bus,
}

/// What was seen of a node so far.
#[derive(Drop)]
pub(crate) struct Watch {
    pub(crate) kept: WatchedNode,
    pub(crate) entries: Vec<Entry>,
    /// When it took part at first.
    pub(crate) joining: Joining,
    /// The quantum of its last sample.
    pub(crate) last: Option<u64>,
    pub(crate) found: BusyTicks,
    pub(crate) trouble: Trouble,
}

impl Watch {
    /// Returns what was seen of a node of this setup before its first sample.
    fn new(alloc: Global, setup: &NodeSetup) -> Result<Watch, AllocError>
        ensures { IfOk result (HasWatched setup.now []) }
    {
        Ok(Watch {
            kept: WatchedNode::new(alloc, setup)?,
            entries: waiting_entries(alloc, setup.queue.as_slice())?,
            joining: Joining::new(),
            last: None,
            found: BusyTicks::new(alloc),
            trouble: Trouble::new(),
        })
    }

    /// Takes the next sample.
    fn take(
        &mut self,
        alloc: Global,
        setup: &NodeSetup,
        sample: (u64, Level),
    ) -> Result<(), AllocError>
        requires known { sample.0 ≤ most_run_quanta }
        requires order { self.old.found.run.0 ≤ self.old.found.run.1 }
        ensures { (samples : List (ℕ × Found)) → HasWatched setup.now samples self.old
            → OnOk result (HasWatched setup.now (samples ++ sample ∷ []) self.new) }
    {
        note_sample(alloc, setup, &mut self.kept, &mut self.entries, sample)?;
        let doing = self.kept.doing();
        let at = setup.clock.at(sample.0);
        self.found.take(alloc, doing, at)?;
        self.trouble = self.trouble.with(doing, at);
        self.joining = self.joining.with(sample);
        self.last = Some(sample.0);
        Ok(())
    }
}

/// Returns what is seen of node `i`.
fn watch_samples(
    alloc: Global,
    plan: &CheckedPlan,
    drives: &Drives,
    i: usize,
) -> Result<Watch, AllocError>
    requires drives { drives.now ≡ drives_of (outcome_of plan.now) }
    requires node { i < length plan.now.nodes }
    ensures { IfOk result (HasWatched (setup_at plan.now i) (node_outcome_of plan.now i).samples) }
{
    let setup = setup_of(plan, i);
    let mut seen = Watch::new(alloc, setup)?;
    let mut samples = Sampling::new(alloc, plan, i)?;
    while let Some(sample) = samples.next(plan, drives, i) {
        seen.take(alloc, setup, sample)?;
    }
    Ok(seen)
}

/// Returns the frames of node `i`, and whether it was bus off, and adds the ticks at which it found the bus busy.
fn watch_node(
    alloc: Global,
    busy: &mut Intervals,
    plan: &CheckedPlan,
    counted: &Counted,
    i: usize,
) -> Result<(NodeQueue, bool), AllocError>
    requires counted { counted.now ≡ counted_of (outcome_of plan.now) }
    requires node { i < length plan.now.nodes }
    ensures queue { IfOk result (λ seen. seen.0 ≡ node_queue plan.now i) }
    ensures off { IfOk result (λ seen. seen.1 ≡ was_off plan.now i) }
    ensures ticks { OnOk result ((t : ℕ) → covers busy.new t ≡ (covers busy.old t || finds_busy plan.now t i)) }
{
    let (setup, node) = node_at(plan, &counted.totals, i);
    let frames = node.frames.clone_in(alloc)?;
    let received = received_quanta(alloc, node.frames.as_slice())?;
    let seen = watch_samples(alloc, plan, &counted.drives, i)?;
    let off = seen.found.off;
    let until = there_until(setup, plan.end);
    let found = seen.found.all_until(alloc, until)?;
    busy.join(&found)?;
    let queue = NodeQueue {
        node: i,
        clock: setup.clock,
        joined: seen.joining.at,
        last: seen.last,
        frames,
        received: Listed::from_vec(received),
        trouble: seen.trouble.by(until),
        entries: Listed::from_vec(seen.entries),
    };
    Ok((queue, off))
}

/// Returns what is seen of a run, in which this was counted.
pub(crate) fn watch_all(
    alloc: Global,
    plan: &CheckedPlan,
    counted: &Counted,
) -> Result<Watched, AllocError>
    requires { counted.now ≡ counted_of (outcome_of plan.now) }
    ensures queues { IfOk result (λ seen. seen.queues ≡ node_queues plan.now) }
    ensures bus { IfOk result (λ seen. seen.bus ≡ bus_found plan.now) }
{
    let mut busy = Intervals::new(alloc);
    let mut off = false;
    let mut queues = Listed::new(alloc);
    for i in 0..plan.nodes.len() {
        let (queue, was_off) = watch_node(alloc, &mut busy, plan, counted, i)?;
        queues.push(queue)?;
        off = off || was_off;
    }
    let load = load_below(&busy, plan.end);
    let bus = Bus { load, off };
    Ok(Watched { queues, bus })
}
