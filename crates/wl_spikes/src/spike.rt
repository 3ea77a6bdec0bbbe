//! A spike, and the plans that have it at one place in time after another.
ghost use Rattle.std.specs.Prelude.{◌≡◌, IfOk, slice_get};
ghost use Rattle.wl_spikes.specs.Members.{disturbance_by, spike_disturbance, spiked_name, place_count, spike_count, spike_from, spike_to, spiked};

use std::alloc::{AllocError, Global};
use wl_setup::{DisturbanceText, NodeText, PlanText, Text};
use wl_sweep::text_same;

/// Where a spike is.
#[derive(Clone, Copy, Debug, PartialEq, Eq)]
pub enum Target {
    /// At the node of this number, and at no other.
    Node(usize),
    /// At this place on the cable, in units of length.
    Place(u32),
}

/// A dominant disturbance that a plan has at one place in time after another.
#[derive(Clone, Copy, Debug, PartialEq, Eq)]
pub struct Spike {
    /// Where it is.
    pub target: Target,
    /// How long it takes, in ticks.
    pub length: u64,
    /// The ticks from one place in time to the next.
    pub step: u64,
}

/// What is swept: a plan's text, and the spike that it has more.
#[derive(Drop)]
pub struct Spikes {
    /// The text of the plan as it is.
    pub text: PlanText,
    /// The spike.
    pub spike: Spike,
}

/// Returns how many places in time there are before an end.
pub(crate) fn place_count(step: u64, end: u64) -> u64
    ensures { result ≡ place_count step end }
{
    end.div_ceil(step.max(1))
}

impl Spike {
    /// Returns the first tick of the spike of member `n`.
    pub(crate) fn first_tick(self, n: u32) -> u64
        ensures { result ≡ spike_from self n }
    {
        self.step.saturating_mul(u64::from(n))
    }

    /// Returns the first tick after the spike of member `n`.
    pub(crate) fn end_tick(self, n: u32) -> u64
        ensures { result ≡ spike_to self n }
    {
        self.first_tick(n).saturating_add(self.length)
    }
}

/// Returns the name of node `i`, if there is one.
fn spiked_name(alloc: Global, nodes: &[NodeText], i: usize) -> Result<Option<Text>, AllocError>
    ensures { IfOk result (λ name. name ≡ spiked_name nodes.now i) }
{
    match nodes.get(i) {
        Some(node) => Ok(Some(Text::new(alloc, node.name.as_str())?)),
        None => Ok(None),
    }
}

/// Returns a disturbance at a target.
fn disturbance_by(
    alloc: Global,
    nodes: &[NodeText],
    target: Target,
    from: u64,
    to: u64,
) -> Result<DisturbanceText, AllocError>
    ensures { IfOk result (λ d. d ≡ disturbance_by nodes.now target from to) }
{
    match target {
        Target::Node(i) => Ok(DisturbanceText {
            node: spiked_name(alloc, nodes, i)?,
            x: 0,
            from,
            to,
        }),
        Target::Place(x) => Ok(DisturbanceText {
            node: None,
            x,
            from,
            to,
        }),
    }
}

impl Spikes {
    /// Returns how many members there are, at most 2^32 - 1.
    pub fn count(&self) -> u32
        ensures { result ≡ spike_count self.now.spike self.now.text }
    {
        place_count(self.spike.step, self.text.end).min(u64::from(u32::MAX)) as u32
    }

    /// Returns the plan of member `n`: the text with the spike after its disturbances.
    pub(crate) fn plan_text(&self, alloc: Global, n: u32) -> Result<PlanText, AllocError>
        ensures { IfOk result (λ text. text ≡ spiked self.now.spike self.now.text n) }
    {
        let (from, to) = (self.spike.first_tick(n), self.spike.end_tick(n));
        let nodes = self.text.node.as_slice();
        let disturbance = disturbance_by(alloc, nodes, self.spike.target, from, to)?;
        let mut text = text_same(alloc, &self.text)?;
        text.disturbance.push(disturbance)?;
        Ok(text)
    }
}
