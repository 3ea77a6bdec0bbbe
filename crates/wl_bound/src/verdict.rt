//! What is said of a plan.
ghost use Rattle.std.specs.Prelude.{◌≡◌, ◌<◌, ◌≤◌, ◌^◌, IsTrue, length, IfSome};
ghost use Rattle.std.specs.List.{list_any};
ghost use Rattle.wl_level.specs.Places.{first_place};
ghost use Rattle.wl_topology.specs.Driven.{any_below};
ghost use Rattle.wl_bound.specs.Conditions.{first_failure_of, plain};
ghost use Rattle.wl_bound.specs.Families.{only_listens};
ghost use Rattle.wl_bound.specs.Verdicts.{acknowledges, finds_nobody_idle, finds_one_idle, for_any, for_one, has_frames, has_same_field, idle_at, is_after, is_ready_from, is_unacknowledged, listener_sends, of_listeners, outside_for_all, outside_of, pair_in, sends_something, share_field, shares, shares_with, speaks, speaks_alone, verdict_for_all, verdict_of, without_book};
ghost use Rattle.wl_bound.specs.declared.condition.Senders.TheVariants.{Any, One};

use crate::condition::{Failure, Senders};
use crate::family::{Family, only_listens};
use wl_frame::frame::Frame;
use wl_node::NodeSetup;
use wl_plan::CheckedPlan;
use wl_segments::SyncRules;

/// Why the condition says nothing of a plan: the first that applies, in this order.
#[derive(Clone, Copy, Debug, PartialEq, Eq)]
pub enum Outside {
    /// There is one node alone: nobody acknowledges its frames.
    FewNodes,
    /// No frame waits at any node.
    NoFrames,
    /// This node only listens, and frames wait at it. No other node ever hears them.
    ListenerSends(u8),
    /// Frames wait at this node, and every other node only listens: nobody acknowledges them.
    NobodyAcknowledges(u8),
    /// This node's rules of synchronisation are `After`. No such condition is known for them. A node that has decided to send isn't moved
    /// by another's start of frame beyond its jump width, and an edge in the sample's quantum is lost.
    NotByTheBook(u8),
    /// Two frames of these nodes have one identifier, format and RTR bit, so no arbitration parts them.
    SameIdentifier(u8, u8),
    /// The first frame of this node becomes ready before any other node that acknowledges has seen the 11 recessive bits that make it idle: nobody
    /// may be there to acknowledge it.
    NobodyIdle(u8),
}

/// What is said of a plan.
#[derive(Clone, Copy, Debug, PartialEq, Eq)]
pub enum Verdict {
    /// The condition holds for any senders.
    ForAny,
    /// It holds for one sender at a time.
    ForOne,
    /// It doesn't hold for one sender at a time either, by this failure.
    DoesNotHold(Failure),
    /// It says nothing of this plan.
    NoBound(Outside),
}

/// Returns what the condition says of a plan and its family (`Family::of_plan`).
pub fn judge(plan: &CheckedPlan, family: &Family) -> Verdict
    ensures { result ≡ verdict_of plan.now family.now }
{
    match cause_outside(plan) {
        Some(cause) => Verdict::NoBound(cause),
        None => judge_family(family),
    }
}

/// Returns what it says of a plan's nodes and their family, if all of them send that don't only listen (`Family::all_sending`). The plan's
/// frames don't count.
pub fn judge_all(plan: &CheckedPlan, family: &Family) -> Verdict
    ensures { result ≡ verdict_for_all plan.now family.now }
{
    match cause_for_all(plan) {
        Some(cause) => Verdict::NoBound(cause),
        None => judge_family(family),
    }
}

/// Returns what it says of a family.
fn judge_family(family: &Family) -> Verdict
    ensures { result ≡ for_any (first_failure_of family.now plain Any) (for_one (first_failure_of family.now plain One)) }
{
    if family.first_failure(Senders::Any).is_none() {
        return Verdict::ForAny;
    }
    match family.first_failure(Senders::One) {
        None => Verdict::ForOne,
        Some(failure) => Verdict::DoesNotHold(failure),
    }
}

/// Returns why the condition says nothing of a plan's nodes, whatever their frames, if all of them send that don't only listen.
fn cause_for_all(plan: &CheckedPlan) -> Option<Outside>
    ensures { result ≡ outside_for_all plan.now }
{
    if plan.nodes() < 2 {
        return Some(Outside::FewNodes);
    }
    if !any_speaks(plan) {
        return Some(Outside::NoFrames);
    }
    if let Some(i) = first_speaking_alone(plan) {
        return Some(Outside::NobodyAcknowledges(i));
    }
    match first_without_book(plan) {
        Some(i) => Some(Outside::NotByTheBook(i)),
        None => None,
    }
}

/// True if some node doesn't only listen.
fn any_speaks(plan: &CheckedPlan) -> bool
    requires two { 2 ≤ length plan.now.nodes }
    ensures { result ≡ any_below (length plan.now.nodes) (speaks plan.now) }
{
    let mut any = false;
    for i in 0..plan.nodes() {
        any = any || !listens(plan, i);
    }
    any
}

/// Returns the first node that doesn't only listen, while all others do.
fn first_speaking_alone(plan: &CheckedPlan) -> Option<u8>
    requires two { 2 ≤ length plan.now.nodes }
    ensures { result ≡ first_place (speaks_alone plan.now) (length plan.now.nodes) }
{
    let mut first = None;
    for i in 0..plan.nodes() {
        if first.is_none() && !listens(plan, i) && !is_acknowledged(plan, i) {
            first = Some(i);
        }
    }
    first
}

/// Returns why the condition says nothing of a plan, whatever its cable and its clocks; `None` if it does.
///
/// The ticks at which nodes are idle and frames become ready are the plan's own, with its offsets.
pub fn cause_outside(plan: &CheckedPlan) -> Option<Outside>
    ensures { result ≡ outside_of plan.now }
{
    if plan.nodes() < 2 {
        return Some(Outside::FewNodes);
    }
    if !any_frames(plan) {
        return Some(Outside::NoFrames);
    }
    if let Some(cause) = first_of_listeners(plan) {
        return Some(cause);
    }
    if let Some(i) = first_without_book(plan) {
        return Some(Outside::NotByTheBook(i));
    }
    if let Some(cause) = first_shared(plan) {
        return Some(cause);
    }
    match first_unheard(plan) {
        Some(i) => Some(Outside::NobodyIdle(i)),
        None => None,
    }
}

/// Returns what nodes that only listen spoil: frames of such a node, or frames that nobody acknowledges.
fn first_of_listeners(plan: &CheckedPlan) -> Option<Outside>
    requires two { 2 ≤ length plan.now.nodes }
    ensures { result ≡ of_listeners plan.now }
{
    if let Some(i) = first_listener_that_sends(plan) {
        return Some(Outside::ListenerSends(i));
    }
    match first_unacknowledged(plan) {
        Some(i) => Some(Outside::NobodyAcknowledges(i)),
        None => None,
    }
}

/// True if node `i` of a plan only listens.
pub fn listens(plan: &CheckedPlan, i: u8) -> bool
    requires two { 2 ≤ length plan.now.nodes }
    requires node { i < length plan.now.nodes }
    ensures { result ≡ only_listens plan.now.topology i }
{
    let other = if i == 0 { 1 } else { 0 };
    only_listens(&plan.topology, i, other)
}

/// Returns the first node that only listens and at which frames wait.
fn first_listener_that_sends(plan: &CheckedPlan) -> Option<u8>
    requires two { 2 ≤ length plan.now.nodes }
    ensures { result ≡ first_place (listener_sends plan.now) (length plan.now.nodes) }
{
    let mut first = None;
    for i in 0..plan.nodes() {
        if first.is_none() && listens(plan, i) && has_frames(plan.node(i)) {
            first = Some(i);
        }
    }
    first
}

/// True if some other node than `i` doesn't only listen.
fn is_acknowledged(plan: &CheckedPlan, i: u8) -> bool
    requires two { 2 ≤ length plan.now.nodes }
    requires node { i < length plan.now.nodes }
    ensures { result ≡ any_below (length plan.now.nodes) (acknowledges plan.now i) }
{
    let mut is = false;
    for j in 0..plan.nodes() {
        is = is || j != i && !listens(plan, j);
    }
    is
}

/// Returns the first node at which frames wait that nobody acknowledges.
fn first_unacknowledged(plan: &CheckedPlan) -> Option<u8>
    requires two { 2 ≤ length plan.now.nodes }
    ensures { result ≡ first_place (is_unacknowledged plan.now) (length plan.now.nodes) }
{
    let mut first = None;
    for i in 0..plan.nodes() {
        if first.is_none() && has_frames(plan.node(i)) && !is_acknowledged(plan, i) {
            first = Some(i);
        }
    }
    first
}

/// True if some frame waits at some node.
fn any_frames(plan: &CheckedPlan) -> bool
    ensures { result ≡ any_below (length plan.now.nodes) (sends_something plan.now) }
{
    let mut any = false;
    for i in 0..plan.nodes() {
        any = any || has_frames(plan.node(i));
    }
    any
}

/// True if frames wait at a node.
fn has_frames(node: &NodeSetup) -> bool
    ensures { result ≡ has_frames node.now }
{
    node.queue.len() > 0
}

/// Returns the first node whose rules of synchronisation aren't the book's.
pub fn first_without_book(plan: &CheckedPlan) -> Option<u8>
    ensures { result ≡ first_place (without_book plan.now) (length plan.now.nodes) }
{
    let mut first = None;
    for i in 0..plan.nodes() {
        if first.is_none() && is_after(plan.node(i)) {
            first = Some(i);
        }
    }
    first
}

/// True if the rules of a node are `After`.
fn is_after(node: &NodeSetup) -> bool
    ensures { result ≡ is_after node.now.segments.sync }
{
    match node.segments.sync() {
        SyncRules::After => true,
        SyncRules::Book => false,
    }
}

/// True if no arbitration parts two frames.
fn has_same_field(one: &Frame, other: &Frame) -> bool
    ensures { result ≡ has_same_field one.now other.now }
{
    one.id() == other.id()
        && one.is_extended() == other.is_extended()
        && one.remote() == other.remote()
}

/// True if there are two such frames in these queues.
fn share_field(one: &NodeSetup, other: &NodeSetup) -> bool
    ensures { result ≡ share_field one.now other.now }
{
    one.queue
        .as_slice()
        .iter()
        .any(|waiting| has_field_of(other, &waiting.frame))
}

/// True if no arbitration parts some frame of a node from this one.
fn has_field_of(other: &NodeSetup, frame: &Frame) -> bool
    ensures { result ≡ list_any (λ b. has_same_field frame.now b.frame) other.now.queue }
{
    other
        .queue
        .as_slice()
        .iter()
        .any(|waiting| has_same_field(frame, &waiting.frame))
}

/// Returns the first node that shares an identifier with node `i`.
fn first_sharing(plan: &CheckedPlan, i: u8) -> Option<u8>
    requires node { i < length plan.now.nodes }
    ensures { result ≡ first_place (shares_with plan.now i) (length plan.now.nodes) }
{
    let mut first = None;
    for j in 0..plan.nodes() {
        if first.is_none() && i != j && share_field(plan.node(i), plan.node(j)) {
            first = Some(j);
        }
    }
    first
}

/// Returns the first node that shares an identifier with some other.
fn first_sharer(plan: &CheckedPlan) -> Option<u8>
    ensures first { result ≡ first_place (shares plan.now) (length plan.now.nodes) }
    ensures inside { IfSome result (λ i. i < length plan.now.nodes) }
{
    let mut first = None;
    for i in 0..plan.nodes() {
        if first.is_none() && first_sharing(plan, i).is_some() {
            first = Some(i);
        }
    }
    first
}

/// Returns the first pair of nodes that share an identifier.
fn first_shared(plan: &CheckedPlan) -> Option<Outside>
    ensures { result ≡ pair_in plan.now (first_place (shares plan.now) (length plan.now.nodes)) }
{
    let i = match first_sharer(plan) {
        Some(i) => i,
        None => return None,
    };
    match first_sharing(plan, i) {
        Some(j) => Some(Outside::SameIdentifier(i, j)),
        None => None,
    }
}

/// Returns the tick at which a node has counted the 11 bits for which it waits (Bosch CAN 2.0 part B, section 2, wake-up).
pub fn idle_at(node: &NodeSetup) -> u64
    ensures value { result ≡ idle_at node.now }
    ensures soon { result < 2 ^ 40 }
{
    node.clock.at(11 * node.segments.bit_quanta())
}

/// True if no frame of a node becomes ready before tick `t`.
pub fn is_ready_from(node: &NodeSetup, t: u64) -> bool
    requires { t < 2 ^ 48 }
    ensures { result ≡ is_ready_from node.now node.now.queue t }
{
    wl_clock::ticks_increase();
    match node.queue.as_slice() {
        [] => true,
        [first, ..] => node.clock.first_not_before(t) <= first.ready,
    }
}

/// True if some other node that acknowledges is idle when the first frame of node `i` becomes ready.
fn finds_one_idle(plan: &CheckedPlan, i: u8) -> bool
    requires two { 2 ≤ length plan.now.nodes }
    requires node { i < length plan.now.nodes }
    ensures { result ≡ finds_one_idle plan.now i }
{
    let mut finds = false;
    for j in 0..plan.nodes() {
        finds = finds
            || j != i && !listens(plan, j) && is_ready_from(plan.node(i), idle_at(plan.node(j)));
    }
    finds
}

/// Returns the first node whose first frame may find nobody idle.
fn first_unheard(plan: &CheckedPlan) -> Option<u8>
    requires two { 2 ≤ length plan.now.nodes }
    ensures { result ≡ first_place (finds_nobody_idle plan.now) (length plan.now.nodes) }
{
    let mut first = None;
    for i in 0..plan.nodes() {
        if first.is_none() && !finds_one_idle(plan, i) {
            first = Some(i);
        }
    }
    first
}
