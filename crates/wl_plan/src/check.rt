//! Which plans can be run, and the refusals of the others.
ghost use Rattle.std.specs.Prelude.{◌≡◌, ◌<◌, ◌≤◌, length, nat_lt, position, All, OnOk, IfNone};
ghost use Rattle.std.specs.Result.{result_err};
ghost use Rattle.std.specs.List.{enumerate_from};
ghost use Rattle.wl_clock.specs.Timing.{IsTiming, tick_of};
ghost use Rattle.wl_segments.specs.Lengths.{AreLengths};
ghost use Rattle.wl_topology.specs.Delays.{IsTopology};
ghost use Rattle.wl_plan.specs.Checked.{IsChecked, quanta_limit_of, fault_of, fault_within, has_wrong_nodes, has_many_quanta, has_long_queue, is_refused, is_far, is_far_from};
ghost use Rattle.wl_plan.specs.Limits.{latest_end};
ghost use Rattle.wl_limits.specs.Limits.{end_limit, queue_limit};

use crate::laws::faultless_is_checked;
use crate::limits::FEW_QUEUED;
use crate::plan::{Disturbance, Plan};
use thiserror::Error;
use wl_clock::Clock;
use wl_limits::Limits;
use wl_node::NodeSetup;
use wl_segments::Segments;
use wl_topology::LONGEST_DELAY;

/// Why a plan can't be run: the first that applies, in this order. Numbers of nodes and disturbances count from 0, and the first is named.
#[derive(Clone, Copy, Debug, PartialEq, Eq, Error)]
pub enum PlanFault {
    /// There is no node, there are more than 16 (by the wide limits 64), or the number of places is another.
    #[error("Nodes")]
    Nodes,
    /// The end is above 2^36 ticks (by the wide limits 2^40).
    #[error("End")]
    End,
    /// More than 2^20 quanta (by the wide limits 2^30) of this node begin before the end. If it may sample every third one, since an edge
    /// lies in SYNC_SEG and the sample is at place 3, more than three quarters of that do.
    #[error("Quanta({0})")]
    Quanta(u64),
    /// More frames wait at this node than may.
    #[error("Queue({0})")]
    Queue(u64),
    /// This disturbance takes no tick, ends after the latest end of a plan, or is at a node that isn't there. Or 64 (by the wide limits 256)
    /// or more come before it, or it takes more than 1,048,576 ticks to some node.
    #[error("Disturbance({0})")]
    Disturbance(u64),
}

impl Plan {
    /// Returns the first refusal that applies, if the plan can't be run by the narrow limits. At most 64 frames may wait at a node. It takes
    /// no memory.
    pub fn check(&self) -> Result<(), PlanFault>
        ensures fault { result_err result ≡ fault_of self.now }
        ensures checked { OnOk result (IsChecked self.now) }
    {
        self.check_within(Limits::Narrow, FEW_QUEUED)
    }

    /// Returns the first refusal that applies by these limits, if at most `queued` frames may wait at a node.
    pub fn check_within(&self, limits: Limits, queued: usize) -> Result<(), PlanFault>
        requires { queued ≤ queue_limit limits }
        ensures fault { result_err result ≡ fault_within limits queued self.now }
        ensures checked { OnOk result (IsChecked self.now) }
    {
        faultless_is_checked();
        wl_limits::wide_limits_hold();
        let nodes = self.nodes.as_slice();
        if self.has_wrong_nodes(limits) {
            return Err(PlanFault::Nodes);
        }
        if self.ends_late(limits) {
            return Err(PlanFault::End);
        }
        if let Some(i) = first_with_many_quanta(limits, nodes, self.end) {
            return Err(PlanFault::Quanta(i as u64));
        }
        if let Some(i) = first_with_long_queue(nodes, queued) {
            return Err(PlanFault::Queue(i as u64));
        }
        if let Some(n) = self.first_refused(limits) {
            return Err(PlanFault::Disturbance(n as u64));
        }
        Ok(())
    }

    /// True if there is no node, there are too many, or the number of places is another.
    fn has_wrong_nodes(&self, limits: Limits) -> bool
        ensures wrong { result ≡ has_wrong_nodes limits self.now }
        ensures cable { IsTopology self.now.topology }
    {
        let nodes = self.nodes.len();
        let places = self.topology.nodes() as usize;
        nodes == 0 || nodes > limits.node_limit() || nodes != places
    }

    /// True if the end is later than it may be.
    fn ends_late(&self, limits: Limits) -> bool
        ensures { result ≡ nat_lt (end_limit limits) self.now.end }
    {
        self.end > limits.end_limit()
    }

    /// Returns the number of the first disturbance that is refused.
    fn first_refused(&self, limits: Limits) -> Option<usize>
        requires { length self.now.nodes ≡ length self.now.topology.places }
        ensures { result ≡ position (is_refused limits self.now) (enumerate_from 0 self.now.disturbances) }
    {
        for (n, d) in self.disturbances.as_slice().iter().enumerate() {
            if self.is_refused(limits, n, *d) {
                return Some(n);
            }
        }
        None
    }

    /// True if disturbance `n` takes no tick, ends too late, is one too many, or is far.
    fn is_refused(&self, limits: Limits, n: usize, d: Disturbance) -> bool
        requires { length self.now.nodes ≡ length self.now.topology.places }
        ensures { result ≡ is_refused limits self.now (n, d) }
    {
        d.to <= d.from
            || d.to > limits.end_limit()
            || n >= limits.disturbance_limit()
            || self.is_far(d)
    }

    /// True if the disturbance takes too long to some node, or is at a node that isn't there.
    fn is_far(&self, d: Disturbance) -> bool
        requires { length self.now.nodes ≡ length self.now.topology.places }
        ensures { result ≡ is_far self.now d }
    {
        match d.node {
            Some(n) => n >= self.topology.nodes(),
            None => self.is_far_from(d.x),
        }
    }

    /// True if a place takes too long to some node.
    fn is_far_from(&self, x: u32) -> bool
        requires { length self.now.nodes ≡ length self.now.topology.places }
        ensures { result ≡ is_far_from self.now x }
    {
        for j in 0..self.topology.nodes() {
            if self.topology.place_delay(x, j) > LONGEST_DELAY as u128 {
                return true;
            }
        }
        false
    }
}

/// Returns the most quanta of a node with these segments before the end.
fn most_quanta(limits: Limits, segments: &Segments) -> u64
    ensures most { result ≡ quanta_limit_of limits segments.now }
    ensures lengths { AreLengths segments.now }
{
    if segments.least_way() < 3 {
        limits.short_quanta_limit()
    } else {
        limits.quanta_limit()
    }
}

/// True if more than `most` quanta begin before the end.
fn has_many_quanta(clock: &Clock, most: u64, end: u64) -> bool
    requires { end ≤ latest_end }
    ensures many { result ≡ nat_lt (tick_of clock.now most) end }
    ensures timing { IsTiming clock.now }
{
    wl_clock::ticks_increase();
    clock.first_not_before(end) > most
}

/// Returns the first node with too many quanta before the end.
#[tactic(auto, using(crate::proofs::CheckProofs::position_is))]
fn first_with_many_quanta(limits: Limits, nodes: &[NodeSetup], end: u64) -> Option<usize>
    requires { end ≤ latest_end }
    ensures first { result ≡ position (has_many_quanta limits end) nodes.now }
    ensures clocks { IfNone result (All (λ node. IsTiming node.clock) nodes.now) }
    ensures segments { IfNone result (All (λ node. AreLengths node.segments) nodes.now) }
{
    for (i, node) in nodes.iter().enumerate() {
        if has_many_quanta(&node.clock, most_quanta(limits, &node.segments), end) {
            return Some(i);
        }
    }
    None
}

/// Returns the first node at which too many frames wait.
fn first_with_long_queue(nodes: &[NodeSetup], queued: usize) -> Option<usize>
    ensures { result ≡ position (has_long_queue queued) nodes.now }
{
    nodes.iter().position(|node| node.queue.len() > queued)
}
