//! Plans from their texts.
ghost use Rattle.std.specs.Prelude.{◌≡◌, ◌≢◌, ◌≤◌, Err, map, min, length, IfOk};
ghost use Rattle.std.specs.List.{enumerate_from};
ghost use Rattle.wl_plan.specs.Checked.{IsChecked};
ghost use Rattle.wl_plan.specs.Limits.{latest_end};
ghost use Rattle.wl_topology.specs.Limits.{most_places};
ghost use Rattle.wl_setup.specs.Names.{names_of};
ghost use Rattle.wl_setup.specs.Plans.{with_fault, each, rate_from, rate_in, clock_in, segments_in, segments_of_node, queued_of, setup_of, queue_in, place_of, cable_of, node_named, disturbance_in, plan_of_text, named_plan_of, GivesPlan, IsAnswer};
ghost use Rattle.wl_setup.specs.Version.{has_traffic};

use crate::fault::SetupFault;
use crate::leaving::{leaves, order_of};
use crate::names::Names;
use crate::plan_text::{
    ClockText, DisturbanceText, FrameText, NodeText, PlanText, RateText, SegmentsText,
};
use crate::read::read_named;
use crate::traffic::in_order;
use crate::version::{has_traffic, limits_in, queued_in};
use std::alloc::{AllocError, Global};
use wl_clock::{Clock, ClockFault, Rate};
use wl_device::Source;
use wl_frame::frame::Frame;
use wl_level::Listed;
use wl_limits::Limits;
use wl_node::{NodeSetup, Queue, Queued};
use wl_plan::{CheckedPlan, Disturbance, Disturbances, LATEST_END, Nodes, Plan};
use wl_segments::{Segments, SegmentsFault, SyncRules};
use wl_topology::{Place, Topology};
use wl_units::fraction_with;

impl FrameText {
    /// Returns the frame, as it waits: the `n`th of node `i`.
    fn queued(&self, i: u64, n: u64) -> Result<Queued, SetupFault>
        ensures { result ≡ queued_of i (n, self.now) }
    {
        let bytes = self.bytes.as_slice();
        let made = if self.extended {
            Frame::extended(self.id, self.remote, self.dlc, bytes)
        } else {
            Frame::base(self.id, self.remote, self.dlc, bytes)
        };
        match made {
            Ok(frame) => Ok(Queued {
                frame,
                ready: self.ready,
            }),
            Err(fault) => Err(SetupFault::NodeFrame(i, n, fault)),
        }
    }
}

/// Returns the frames that are written at node `i`, or the first that is none.
fn queue(alloc: Global, i: u64, frames: &[FrameText]) -> Result<Queue, SetupFault>
    ensures frames { IsAnswer (each (queued_of i) (enumerate_from 0 frames.now)) result }
    ensures each { IfOk result (λ queue. length queue ≡ length frames.now) }
{
    let mut queue = Listed::new(alloc);
    for (n, frame) in frames.iter().enumerate() {
        queue.push(frame.queued(i, n as u64)?)?;
    }
    Ok(queue)
}

impl RateText {
    /// Returns the rate that the keys make, or what refuses it.
    fn rate(&self) -> Result<Rate, ClockFault>
        ensures { result ≡ rate_from self.now.from self.now.clock }
    {
        match self.clock {
            ClockText::Rate { num, den } => Ok(Rate {
                from: self.from,
                num: num as u128,
                den,
            }),
            ClockText::Ppm { quantum, ppm } => Rate::from_ppm(self.from, quantum, ppm),
            ClockText::Fraction { num, den, ppm } => deviating_rate(self.from, num, den, ppm),
        }
    }
}

/// Returns the rate of a fraction of ticks and a deviation in parts per million, in lowest terms.
fn deviating_rate(from: u64, num: u64, den: u64, ppm: i64) -> Result<Rate, ClockFault>
    ensures { result ≡ rate_from from (ClockText.Fraction num den ppm) }
{
    let millionths = match Rate::from_ppm(0, 1, ppm) {
        Ok(rate) => rate.num as u64,
        Err(fault) => return Err(fault),
    };
    let (num, den) = fraction_with(num, den, millionths);
    Ok(Rate { from, num, den })
}

/// Returns the rates of node `i`, or the first that is none.
pub(crate) fn rates(alloc: Global, i: u64, texts: &[RateText]) -> Result<Listed<Rate>, SetupFault>
    ensures { IsAnswer (each (rate_in i) texts.now) result }
{
    let mut rates = Listed::new(alloc);
    for text in texts {
        match text.rate() {
            Ok(rate) => rates.push(rate)?,
            Err(fault) => return Err(SetupFault::NodeClock(i, fault)),
        }
    }
    Ok(rates)
}

impl SegmentsText {
    /// Returns the bit segments that the keys make with this jump width.
    fn segments(self, sjw: u64) -> Result<Segments, SegmentsFault>
        ensures { result ≡ segments_in self sjw }
    {
        match self {
            SegmentsText::Each { prop, ps1, ps2 } => Segments::new(prop, ps1, ps2, sjw),
            SegmentsText::Controller { tseg1, tseg2 } => Segments::of_controller(tseg1, tseg2, sjw),
        }
    }
}

impl NodeText {
    /// Returns the clock of node `i` that the keys `offset` and `rates`, or `offset` and the clock keys, make by these limits: the first rate
    /// that is none, or what refuses all of them together.
    fn make_clock(&self, alloc: Global, limits: Limits, i: u64) -> Result<Clock, SetupFault>
        ensures { IsAnswer (clock_in limits i self.now) result }
    {
        let rates = rates(alloc, i, self.rates.as_slice())?;
        match Clock::within(limits, self.offset, rates.as_slice()) {
            Ok(clock) => Ok(clock),
            Err(fault) => Err(SetupFault::NodeClock(i, fault)),
        }
    }

    /// Returns the bit segments that the keys of the segments and `sjw` make, with SYNC_SEG there in a bit that an edge begins.
    fn make_segments(&self, sync: SyncRules) -> Result<Segments, SegmentsFault>
        ensures { result ≡ segments_of_node sync self.now }
    {
        match self.segments.segments(self.sjw) {
            Ok(segments) => Ok(segments.with_sync(sync)),
            Err(fault) => Err(fault),
        }
    }

    /// Returns what node `i` of a plan is made of: its clock, its segments and its frames, or the first fault of these in order.
    fn setup(&self, alloc: Global, i: u64, plan: &PlanText) -> Result<NodeSetup, SetupFault>
        ensures { IsAnswer (setup_of plan.now (i, self.now)) result }
    {
        let clock = self.make_clock(alloc, limits_in(plan.version), i)?;
        let segments = match self.make_segments(plan.sync) {
            Ok(segments) => segments,
            Err(fault) => return Err(SetupFault::NodeSegments(i, fault)),
        };
        let written = queue(alloc, i, self.frame.as_slice())?;
        let queue = self.waiting(alloc, &clock, plan, written)?;
        Ok(NodeSetup {
            clock,
            segments,
            queue,
            order: order_of(self.queue),
            until: leaves(&clock, self.until),
        })
    }

    /// Returns the frames that wait at the node, of those that are written: from the version of traffic on each of them comes again.
    fn waiting(
        &self,
        alloc: Global,
        clock: &Clock,
        plan: &PlanText,
        written: Queue,
    ) -> Result<Queue, AllocError>
        requires { length written ≡ length self.now.frame }
        ensures { IfOk result (λ queue. queue
            ≡ queue_in (has_traffic plan.now.version) clock.now (min plan.now.end latest_end) self.now.frame written) }
    {
        if has_traffic(plan.version) {
            let end = plan.end.min(LATEST_END);
            in_order(alloc, clock, end, self.frame.as_slice(), written.as_slice())
        } else {
            Ok(written)
        }
    }

    /// Returns where the node sits.
    fn place(&self) -> Place
        ensures { result ≡ place_of self.now }
    {
        Place {
            x: self.x,
            out_delay: self.out_delay,
            in_delay: self.in_delay,
            listens: self.listens,
        }
    }
}

/// Returns what the nodes are made of, or the first fault, node by node.
fn setups(alloc: Global, plan: &PlanText) -> Result<Nodes, SetupFault>
    ensures { IsAnswer (each (setup_of plan.now) (enumerate_from 0 plan.now.node)) result }
{
    let mut setups = Listed::new(alloc);
    for (i, node) in plan.node.as_slice().iter().enumerate() {
        setups.push(node.setup(alloc, i as u64, plan)?)?;
    }
    Ok(setups)
}

/// Returns where the nodes sit.
fn places(alloc: Global, nodes: &[NodeText]) -> Result<Listed<Place>, AllocError>
    ensures { IfOk result (λ places. places ≡ map place_of nodes.now) }
{
    let mut places = Listed::new(alloc);
    for node in nodes {
        places.push(node.place())?;
    }
    Ok(places)
}

/// Returns the number of the node with this name, and if none has it the number of no node.
fn node_named(nodes: &[NodeText], name: &str) -> usize
    ensures number { result ≡ node_named (map (λ node. node.name) nodes.now) name.now }
    ensures few { result ≤ length nodes.now }
{
    for (i, node) in nodes.iter().enumerate() {
        if name == node.name.as_str() {
            return i;
        }
    }
    nodes.len()
}

impl DisturbanceText {
    /// Returns the disturbance that the keys make in a bus of these nodes.
    fn disturbance(&self, nodes: &[NodeText]) -> Disturbance
        requires { length nodes.now ≤ most_places }
        ensures { result ≡ disturbance_in (map (λ node. node.name) nodes.now) self.now }
    {
        let node = match &self.node {
            Some(name) => Some(node_named(nodes, name.as_str()) as u8),
            None => None,
        };
        Disturbance {
            node,
            x: self.x,
            from: self.from,
            to: self.to,
        }
    }
}

fn disturbances(alloc: Global, plan: &PlanText) -> Result<Disturbances, AllocError>
    requires { length plan.now.node ≤ most_places }
    ensures { IfOk result (λ all. all ≡ map (disturbance_in (names_of plan.now)) plan.now.disturbance) }
{
    let mut all = Listed::new(alloc);
    for text in plan.disturbance.as_slice() {
        all.push(text.disturbance(plan.node.as_slice()))?;
    }
    Ok(all)
}

impl PlanText {
    /// Returns the plan that the keys make, which can be run; or the first fault: node by node `NodeClock`, `NodeSegments` and, frame by
    /// frame, `NodeFrame`; then `Topology`; then `Plan`. `Memory` may be returned at any point.
    pub fn plan(&self, alloc: Global) -> Result<CheckedPlan, SetupFault>
        ensures answer { IsAnswer (plan_of_text self.now) result }
    {
        let nodes = setups(alloc, self)?;
        let topology = self.topology(alloc)?;
        let plan = Plan {
            nodes,
            topology,
            disturbances: disturbances(alloc, self)?,
            end: self.end,
        };
        match CheckedPlan::within(plan, limits_in(self.version), queued_in(self.version)) {
            Ok(checked) => Ok(checked),
            Err(fault) => Err(SetupFault::Plan(fault)),
        }
    }

    /// Returns the plan, and with it these names, which are those of its nodes.
    fn named_plan(&self, alloc: Global, names: Names) -> Result<(CheckedPlan, Names), SetupFault>
        requires { names ≡ names_of self.now }
        ensures answer { IsAnswer (named_plan_of self.now) result }
        ensures names { IfOk result (λ r. length r.1 ≡ length r.0.nodes) }
    {
        let plan = self.plan(alloc)?;
        Ok((plan, names))
    }

    /// Returns where the nodes sit on the cable.
    fn topology(&self, alloc: Global) -> Result<Topology, SetupFault>
        ensures { IsAnswer (cable_of self.now) result }
    {
        let places = places(alloc, self.node.as_slice())?;
        match Topology::within(limits_in(self.version), places.as_slice(), self.per) {
            Ok(topology) => Ok(topology),
            Err(fault) => Err(SetupFault::Topology(fault)),
        }
    }
}

/// Reads a plan's text: TOML of at most 1,048,576 bytes, with the tables and keys of a plan.
///
/// Returns a plan that can be run and the names of its nodes, node i's at place i; or the text's first fault: what `read_text` refuses;
/// then node by node the clock (`NodeClock`), the segments (`NodeSegments`) and the frames in order (`NodeFrame`); then `Topology`; then
/// `Plan`. `Memory` may be returned at any point. Nothing is promised of what a reader has left after a fault.
pub fn read_checked<R: Source>(
    alloc: Global,
    reader: &mut R,
) -> Result<(CheckedPlan, Names), SetupFault>
    ensures answer { result ≢ Err SetupFault.Memory → GivesPlan R.gives reader.old result reader.new }
    ensures names { IfOk result (λ r. length r.1 ≡ length r.0.nodes) }
{
    let (text, names) = read_named(alloc, reader)?;
    text.named_plan(alloc, names)
}

/// Reads a plan's text as `read_checked` does, and returns the plan itself.
pub fn read_plan<R: Source>(alloc: Global, reader: &mut R) -> Result<(Plan, Names), SetupFault>
    ensures answer { result ≢ Err SetupFault.Memory → GivesPlan R.gives reader.old result reader.new }
    ensures checked { IfOk result (λ r. IsChecked r.0) }
    ensures names { IfOk result (λ r. length r.1 ≡ length r.0.nodes) }
{
    match read_checked(alloc, reader) {
        Ok((plan, names)) => Ok((plan.into_plan(), names)),
        Err(fault) => Err(fault),
    }
}
