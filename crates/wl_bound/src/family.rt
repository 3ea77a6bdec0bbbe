//! Families of buses: what of a plan the condition is about.
ghost use Rattle.std.specs.Prelude.{◌≡◌, ◌≢◌, ◌+◌, ◌^◌, ◌<◌, ◌≤◌, ◌++◌, length, IfOk, IfSome, OnOk};
ghost use Rattle.wl_topology.specs.Delays.{propagation_of};
ghost use Rattle.wl_topology.specs.Limits.{longest_delay, most_places};
ghost use Rattle.wl_bound.specs.Conditions.{plain};
ghost use Rattle.wl_bound.specs.Evaluated.{AreRowsOfBus, IsKeptFamily};
ghost use Rattle.wl_bound.specs.Families.{Buses, all_sending, bus_of, changed, family_of, made_of, member_at, member_of, members_of, only_listens, sending, way_between};
ghost use Rattle.wl_bound.specs.Kept.{AreTermsOfBus};

use crate::bus::OneBus;
use crate::condition::PLAIN;
use crate::evaluated::Rows;
use crate::kept::KeptTerms;
use crate::oscillator::Oscillator;
use std::alloc::{AllocError, Global};
use std::marker::Model;
use wl_level::Listed;
use wl_node::NodeSetup;
use wl_plan::CheckedPlan;
use wl_segments::{Segments, SegmentsFault};
use wl_topology::Topology;

/// A node of a family.
#[derive(Clone, Copy, Debug)]
pub struct Member {
    /// Its rates and its tolerance.
    pub oscillator: Oscillator,
    /// The segments of its bits.
    pub segments: Segments,
    /// Whether frames wait at it.
    pub sends: bool,
}

/// Who sends.
#[derive(Clone, Copy, Debug)]
pub enum Source {
    /// Each node with frames.
    Together,
    /// This node alone.
    Alone(u8),
}

/// A change of the segments at every node by one quantum.
#[derive(Clone, Copy, Debug, PartialEq, Eq)]
pub enum Change {
    /// The jump width a quantum wider.
    WiderJump,
    /// A quantum narrower.
    NarrowerJump,
    /// The sample a quantum later: PHASE_SEG1 is longer, PHASE_SEG2 shorter.
    LaterSample,
    /// A quantum earlier.
    EarlierSample,
}

impl Change {
    /// Returns the changed segments, or why they are refused: as `Segments::new` does if it takes the segments as they are, else as
    /// `Segments::of_controller` does.
    pub fn of(self, segments: &Segments) -> Result<Segments, SegmentsFault>
        ensures { result ≡ changed self segments.now }
    {
        let (prop, ps1, ps2, sjw) = (
            segments.prop(),
            segments.ps1(),
            segments.ps2(),
            segments.sjw(),
        );
        let singly = Segments::new(prop, ps1, ps2, sjw).is_ok();
        match self {
            Change::WiderJump => made_of(singly, prop, ps1, ps2, sjw + 1),
            Change::NarrowerJump => made_of(singly, prop, ps1, ps2, sjw - 1),
            Change::LaterSample => made_of(singly, prop, ps1 + 1, ps2 - 1, sjw),
            Change::EarlierSample => made_of(singly, prop, ps1 - 1, ps2 + 1, sjw),
        }
    }
}

/// Returns segments of these lengths; those of a controller, with PROP_SEG and PHASE_SEG1 as one, unless they are set one by one.
fn made_of(singly: bool, prop: u64, ps1: u64, ps2: u64, sjw: u64) -> Result<Segments, SegmentsFault>
    requires { prop + ps1 < 2 ^ 64 }
    ensures { result ≡ made_of singly prop ps1 ps2 sjw }
{
    if singly {
        Segments::new(prop, ps1, ps2, sjw)
    } else {
        Segments::of_controller(prop + ps1, ps2, sjw)
    }
}

/// Which bus of a family is asked about.
#[derive(Clone, Copy, Debug)]
pub struct Setting {
    /// Who sends.
    pub(crate) source: Source,
    /// What is changed at every node, unless the segments there refuse it.
    pub(crate) change: Option<Change>,
    /// By how many ppm each tolerance is wider.
    pub(crate) wider: u32,
    /// The cable takes `length` ticks from end to end, and is asked about with `longer` ticks more.
    pub(crate) length: u32,
    /// In ticks, on top of `length`.
    pub(crate) longer: u32,
}

/// The buses of a plan, whose oscillators may deviate.
#[derive(Debug, Drop)]
pub struct Family {
    members: Listed<Member>,
    cable: Topology,
    /// From which searches take memory for the terms of other buses. They don't need it.
    alloc: Global,
    /// The terms of the plan's own bus: it is asked about each pair of nodes.
    pub(crate) terms: Option<KeptTerms>,
    /// Those of its pairs, if several nodes send.
    pub(crate) plain: Option<Rows>,
}

impl Model for Family {
    ghost Value = { Buses };

    ghost view = { λ f. record { members = f.members; cable = f.cable } };

    ghost invariant = { λ f. IsKeptFamily (record { members = f.members; cable = f.cable }) f.terms f.plain };
}

impl Family {
    /// Returns the family of a plan and of the oscillators of its nodes. Refused only when out of memory.
    pub fn of_plan(
        alloc: Global,
        plan: &CheckedPlan,
        oscillators: &[Oscillator],
    ) -> Result<Family, AllocError>
        requires one_each { length oscillators.now ≡ length plan.now.nodes }
        ensures { IfOk result (λ family. family ≡ family_of plan.now oscillators.now) }
    {
        let mut members = Listed::new(alloc);
        push_members(&mut members, plan.nodes.as_slice(), oscillators)?;
        let mut family = Family {
            members,
            cable: plan.topology,
            alloc,
            terms: None,
            plain: None,
        };
        let terms = family.plain_terms()?;
        family.terms = Some(terms);
        let rows = family.plain_rows()?;
        family.plain = rows;
        Ok(family)
    }

    /// Returns the family of these nodes in which each one sends that doesn't only listen. Refused only when out of memory.
    pub fn all_sending(&self, alloc: Global) -> Result<Family, AllocError>
        requires two { 2 ≤ length self.now.members }
        ensures { IfOk result (λ family. family ≡ all_sending self.now) }
    {
        let mut members = Listed::new(alloc);
        push_sending(&mut members, self.members.as_slice(), &self.cable, 0)?;
        let mut family = Family {
            members,
            cable: self.cable,
            alloc,
            terms: None,
            plain: None,
        };
        let terms = family.plain_terms()?;
        family.terms = Some(terms);
        let rows = family.plain_rows()?;
        family.plain = rows;
        Ok(family)
    }

    /// Returns the terms of the plan's own bus. Refused only when out of memory.
    fn plain_terms(&self) -> Result<KeptTerms, AllocError>
        ensures { IfOk result (AreTermsOfBus (bus_of self.now plain)) }
    {
        OneBus::new(self, PLAIN).all_terms()
    }

    /// Returns those of its pairs, if several nodes send. Refused only when out of memory.
    fn plain_rows(&self) -> Result<Option<Rows>, AllocError>
        ensures { IfOk result (λ rows. IfSome rows (AreRowsOfBus (bus_of self.now plain))) }
    {
        self.plain_bus().rows_if_several()
    }

    /// Returns the plan's own bus, with its terms if it has them.
    pub(crate) fn plain_bus(&self) -> OneBus<'_>
        ensures family { result.family.now ≡ self.now }
        ensures setting { result.setting ≡ plain }
    {
        OneBus {
            family: self,
            setting: PLAIN,
            terms: self.terms.as_ref(),
            chases: None,
        }
    }

    /// Returns from where searches take memory.
    pub(crate) fn alloc(&self) -> Global {
        self.alloc
    }

    /// Returns how many nodes there are: 1 to 64.
    pub fn nodes(&self) -> u8
        ensures value { result ≡ length self.now.members }
        ensures few { result ≤ most_places }
    {
        self.cable.nodes()
    }

    /// Returns node `i`.
    pub fn member(&self, i: u8) -> Member
        requires { i < length self.now.members }
        ensures { result ≡ member_at self.now i }
    {
        let members = self.members.as_slice();
        let place = i as usize;
        members[place]
    }

    /// True if node `i` only listens, so that nothing of what it drives reaches the other node.
    pub(crate) fn listens(&self, i: u8, other: u8) -> bool
        requires one { i < length self.now.members }
        requires beside { other < length self.now.members }
        requires apart { i ≢ other }
        ensures { result ≡ only_listens self.now.cable i }
    {
        only_listens(&self.cable, i, other)
    }

    /// Returns the ticks that a level takes along one unit of length.
    pub(crate) fn per(&self) -> u128
        ensures { result ≡ self.now.cable.per }
    {
        let _nodes = self.cable.nodes();
        let from_end = self.cable.place_delay(0, 0);
        from_end.abs_diff(self.cable.place_delay(1, 0))
    }

    /// Returns how many ticks a level takes along the cable from node `i` to node `j`, without the nodes' own.
    pub(crate) fn way_between(&self, i: u8, j: u8) -> u64
        requires one { i < length self.now.members }
        requires other { j < length self.now.members }
        ensures value { result ≡ way_between self.now.cable i j }
        ensures most { result ≤ longest_delay }
    {
        let there_and_back = self.cable.propagation(i, j) + self.cable.propagation(j, i);
        let own = self.cable.propagation(i, i) + self.cable.propagation(j, j);
        (there_and_back - own) / 2
    }

    /// Returns how many ticks a level takes from node `i` to node `j` on the plan's own cable.
    pub(crate) fn propagation(&self, i: u8, j: u8) -> u64
        requires one { i < length self.now.members }
        requires other { j < length self.now.members }
        ensures value { result ≡ propagation_of self.now.cable i j }
        ensures most { result ≤ longest_delay }
    {
        self.cable.propagation(i, j)
    }
}

/// True if node `i` of a cable only listens: nothing of what it drives reaches the other node (ISO 11898-1, bus monitoring).
pub fn only_listens(cable: &Topology, i: u8, other: u8) -> bool
    requires one { i < length cable.now.places }
    requires beside { other < length cable.now.places }
    requires apart { i ≢ other }
    ensures { result ≡ only_listens cable.now i }
{
    cable.propagation(i, other) < cable.delay(i, other)
}

/// Returns a node and its oscillator.
fn with_oscillator(node: &NodeSetup, oscillator: Oscillator) -> Member
    ensures { result ≡ member_of node.now oscillator }
{
    Member {
        oscillator,
        segments: node.segments,
        sends: !node.queue.is_empty(),
    }
}

/// Adds the nodes with their oscillators, after the members. Refused only when out of memory.
fn push_members(
    members: &mut Listed<Member>,
    nodes: &[NodeSetup],
    oscillators: &[Oscillator],
) -> Result<(), AllocError>
    ensures { OnOk result (members.new ≡ members.old ++ members_of nodes.now oscillators.now) }
{
    match nodes {
        [] => Ok(()),
        [node, later @ ..] => match oscillators {
            [] => Ok(()),
            [oscillator, others @ ..] => {
                members.push(with_oscillator(node, *oscillator))?;
                push_members(members, later, others)
            }
        },
    }
}

/// Adds the nodes of a cable from node `i` on, each of which sends unless it only listens. Refused only when out of memory.
fn push_sending(
    members: &mut Listed<Member>,
    from: &[Member],
    cable: &Topology,
    i: u8,
) -> Result<(), AllocError>
    requires two { 2 ≤ length cable.now.places }
    requires places { i + length from.now ≡ length cable.now.places }
    ensures { OnOk result (members.new ≡ members.old ++ sending (only_listens cable.now) i from.now) }
{
    let _nodes = cable.nodes();
    match from {
        [] => Ok(()),
        [member, later @ ..] => {
            let other = if i == 0 { 1 } else { 0 };
            let sends = !only_listens(cable, i, other);
            members.push(Member { sends, ..*member })?;
            push_sending(members, later, cable, i + 1)
        }
    }
}
