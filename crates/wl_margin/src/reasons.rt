//! Why it isn't proved that a bus works.
ghost use Rattle.std.specs.Prelude.{◌≡◌, ◌≤◌, ◌++◌, ◌<◌, ◌^◌, string_bytes, length, IfSome, OnOk};
ghost use Rattle.wl_level.specs.Places.{first_place};
ghost use Rattle.wl_topology.specs.Driven.{any_below};
ghost use Rattle.wl_bound.specs.Covered.{finds_one_busy};
ghost use Rattle.wl_margin.specs.Pieces.{each_below};
ghost use Rattle.wl_margin.specs.Sentences.{amount_words};
ghost use Rattle.wl_margin.specs.Reasons.{any_cause, cause_before, cause_words, chase_words, first_leaver, first_listener, idle_but, idle_quantum, is_kept_by, kept_words, lack_sentence, of_line, one_cause, quantum_words, ready_words, resting_words, astray_line, astray_words, beyond_words, taken_words, waiting_words};

use crate::paces::{Stray, first_turning, least_ticks, most_ticks};
use crate::sentences::{Amount, push_drift, push_late, push_loop};
use crate::units::{Units, units_at};
use std::alloc::AllocError;
use wl_bound::{
    Family, Lack, Oscillator, Shortage, finds_one_busy, idle_at, is_ready_from, leaves, listens,
};
use wl_plan::CheckedPlan;
use wl_setup::{Deviation, Names};

/// Who is asked about.
#[derive(Clone, Copy, Debug, PartialEq, Eq)]
pub enum Asked {
    /// The nodes with frames, on this plan.
    ThisPlan,
    /// All nodes that don't only listen, on any plan of these nodes.
    AllNodes,
}

/// Why it isn't proved that a bus works.
#[derive(Clone, Copy, Debug, PartialEq, Eq)]
pub(crate) enum Cause {
    /// The clock of this node has several rates.
    Turning(u8),
    /// A disturbance is in the plan.
    Disturbed,
    /// This node leaves the bus.
    Leaving(u8),
    /// This node only listens.
    Listening(u8),
    /// The bus has no room.
    Lacking(Lack),
    /// Some first frame becomes ready before another node is idle.
    Waiting,
}

/// Returns the first node that only listens.
fn first_listener(plan: &CheckedPlan) -> Option<u8>
    ensures { result ≡ first_listener plan.now }
{
    if plan.nodes() < 2 {
        return None;
    }
    let mut first = None;
    for i in 0..plan.nodes() {
        if first.is_none() && listens(plan, i) {
            first = Some(i);
        }
    }
    first
}

/// Returns the first node that leaves the bus.
pub fn first_leaver(plan: &CheckedPlan) -> Option<u8>
    ensures { result ≡ first_leaver plan.now }
{
    let mut first = None;
    for i in 0..plan.nodes() {
        if first.is_none() && leaves(plan, i) {
            first = Some(i);
        }
    }
    first
}

/// Returns the first cause that lies in the plan's own line and times, if it alone is asked about, else the other one.
fn of_line(asked: Asked, plan: &CheckedPlan, other: Cause) -> Cause
    ensures { result ≡ of_line asked plan.now other }
{
    if asked == Asked::AllNodes {
        return other;
    }
    if plan.disturbances.len() > 0 {
        return Cause::Disturbed;
    }
    match first_leaver(plan) {
        Some(i) => Cause::Leaving(i),
        None => other,
    }
}

/// Returns the first cause that lies in the plan's nodes and on its line, else the other one.
fn cause_before(asked: Asked, deviations: &[Deviation], plan: &CheckedPlan, other: Cause) -> Cause
    requires deviations { length deviations.now ≡ length plan.now.nodes }
    ensures { result ≡ cause_before asked deviations.now plan.now other }
{
    if let Some(i) = first_turning(deviations, plan) {
        return Cause::Turning(i);
    }
    let listening = match first_listener(plan) {
        Some(i) => Cause::Listening(i),
        None => other,
    };
    of_line(asked, plan, listening)
}

/// Returns why it isn't proved for any senders.
pub(crate) fn any_cause(
    asked: Asked,
    deviations: &[Deviation],
    plan: &CheckedPlan,
    family: &Family,
) -> Cause
    requires deviations { length deviations.now ≡ length plan.now.nodes }
    ensures { result ≡ any_cause asked deviations.now plan.now family.now }
{
    let room = match family.first_lack() {
        Some(lack) => Cause::Lacking(lack),
        None => Cause::Waiting,
    };
    cause_before(asked, deviations, plan, room)
}

/// Returns why it isn't proved for one sender at a time.
pub(crate) fn one_cause(asked: Asked, deviations: &[Deviation], plan: &CheckedPlan) -> Cause
    requires deviations { length deviations.now ≡ length plan.now.nodes }
    ensures { result ≡ one_cause asked deviations.now plan.now }
{
    cause_before(asked, deviations, plan, Cause::Waiting)
}

/// Returns the first node whose first frame becomes ready before another node is idle.
fn first_early(plan: &CheckedPlan) -> Option<u8>
    ensures first { result ≡ first_place (finds_one_busy plan.now) (length plan.now.nodes) }
    ensures inside { IfSome result (λ i. i < length plan.now.nodes) }
{
    let mut first = None;
    for i in 0..plan.nodes() {
        if first.is_none() && finds_one_busy(plan, i) {
            first = Some(i);
        }
    }
    first
}

/// Returns the first node that isn't idle when the first frame of node `i` becomes ready.
fn first_keeper(plan: &CheckedPlan, i: u8) -> Option<u8>
    requires node { i < length plan.now.nodes }
    ensures { result ≡ first_place (is_kept_by plan.now i) (length plan.now.nodes) }
{
    let mut first = None;
    for j in 0..plan.nodes() {
        if first.is_none() && j != i && !is_ready_from(plan.node(i), idle_at(plan.node(j))) {
            first = Some(j);
        }
    }
    first
}

/// Returns the tick from which on all nodes but node `i` are idle.
fn idle_but(plan: &CheckedPlan, i: u8) -> u64
    ensures value { result ≡ idle_but plan.now i }
    ensures soon { result < 2 ^ 40 }
{
    let mut latest = 0;
    for j in 0..plan.nodes() {
        if j != i {
            latest = latest.max(idle_at(plan.node(j)));
        }
    }
    latest
}

/// Returns the first quantum of node `i` that begins when all other nodes are idle.
fn idle_quantum(plan: &CheckedPlan, i: u8) -> u64
    requires node { i < length plan.now.nodes }
    ensures { result ≡ idle_quantum plan.now i }
{
    plan.node(i).clock.first_not_before(idle_but(plan, i))
}

/// Adds a node's name and a quantum of it.
fn push_quantum(text: &mut String, a: &str, quantum: u64) -> Result<(), AllocError>
    ensures { OnOk result (string_bytes text.new ≡ string_bytes text.old ++ quantum_words a.now quantum) }
{
    write!(text, "{a} {quantum}")
}

/// Adds from which quantum on the first frame of node `i` may be ready, after those of the nodes before it, if it is ready too soon.
fn push_ready(
    text: &mut String,
    plan: &CheckedPlan,
    names: &Names,
    i: u8,
    later: bool,
) -> Result<(), AllocError>
    requires node { i < length plan.now.nodes }
    requires later { later ≡ any_below i (finds_one_busy plan.now) }
    ensures { OnOk result (string_bytes text.new ≡ string_bytes text.old ++ ready_words plan.now names.now i) }
{
    if !finds_one_busy(plan, i) {
        return Ok(());
    }
    text.push_str(if later { ", " } else { " " })?;
    push_quantum(text, names.name_of(i as usize), idle_quantum(plan, i))
}

/// Adds these of all nodes.
fn push_all_ready(text: &mut String, plan: &CheckedPlan, names: &Names) -> Result<(), AllocError>
    ensures { OnOk result (string_bytes text.new ≡ string_bytes text.old
        ++ each_below (ready_words plan.now names.now) (length plan.now.nodes)) }
{
    let mut later = false;
    for i in 0..plan.nodes() {
        push_ready(text, plan, names, i, later)?;
        later = later || finds_one_busy(plan, i);
    }
    Ok(())
}

/// Adds the node that isn't idle, and the node whose first frame is ready too soon.
fn push_kept(text: &mut String, a: &str, b: &str) -> Result<(), AllocError>
    ensures { OnOk result (string_bytes text.new ≡ string_bytes text.old ++ kept_words a.now b.now) }
{
    write!(
        text,
        "{b} isn't idle when the first frame of {a} is ready; proved if first frames are ready at these quanta or later:"
    )
}

/// Adds which node isn't idle for which first frame, and from when on the first frames may be ready.
fn push_waiting(text: &mut String, plan: &CheckedPlan, names: &Names) -> Result<(), AllocError>
    ensures { OnOk result (string_bytes text.new ≡ string_bytes text.old ++ waiting_words plan.now names.now) }
{
    let i = match first_early(plan) {
        Some(i) => i,
        None => return text.push_str("a quantum takes too long to be counted"),
    };
    match first_keeper(plan, i) {
        Some(j) => {
            push_kept(text, names.name_of(i as usize), names.name_of(j as usize))?;
            push_all_ready(text, plan, names)
        }
        None => Ok(()),
    }
}

/// Adds the sentence of a node that doesn't catch up with another one.
fn push_chase(
    text: &mut String,
    a: &str,
    b: &str,
    taken: Amount,
    there: Amount,
) -> Result<(), AllocError>
    ensures { OnOk result (string_bytes text.new ≡ string_bytes text.old ++ chase_words a.now b.now
        (amount_words taken.picoseconds taken.quanta) (amount_words there.picoseconds there.quanta)) }
{
    write!(
        text,
        "{a} can be {taken} off the bits of {b}, and its edges put right {there}"
    )
}

/// Adds the sentence of a node that has no room to rest after a frame.
fn push_resting(
    text: &mut String,
    a: &str,
    b: &str,
    taken: Amount,
    there: Amount,
) -> Result<(), AllocError>
    ensures { OnOk result (string_bytes text.new ≡ string_bytes text.old ++ resting_words a.now b.now
        (amount_words taken.picoseconds taken.quanta) (amount_words there.picoseconds there.quanta)) }
{
    write!(
        text,
        "twelve bits after an edge a bit of {b} comes to {a} up to {taken} too early, and its PHASE_SEG2 has {there}"
    )
}

/// Adds what the room lacks.
fn push_lack(text: &mut String, units: Units, names: &Names, lack: Lack) -> Result<(), AllocError>
    ensures { OnOk result (string_bytes text.new ≡ string_bytes text.old ++ lack_sentence units names.now lack) }
{
    let a = names.name_of(lack.node as usize);
    let b = names.name_of(lack.other as usize);
    let taken = Amount::around(units, lack.sides.left);
    let there = Amount::within(units, lack.sides.right);
    match lack.shortage {
        Shortage::OwnBit => push_loop(text, a, taken, there),
        Shortage::CatchingUp => push_chase(text, a, b, taken, there),
        Shortage::DriftInJump => push_drift(text, b, a, taken, there),
        Shortage::WayToSample => push_late(text, a, b, taken, there),
        Shortage::Rest => push_resting(text, a, b, taken, there),
    }
}

/// Adds a cause in words, for ticks of `tick` picoseconds.
pub(crate) fn push_cause(
    text: &mut String,
    family: &Family,
    plan: &CheckedPlan,
    names: &Names,
    tick: u64,
    cause: Cause,
) -> Result<(), AllocError>
    requires { tick < 2 ^ 36 }
    ensures { OnOk result (string_bytes text.new ≡ string_bytes text.old
        ++ cause_words tick family.now plan.now names.now cause) }
{
    match cause {
        Cause::Turning(i) => {
            let a = names.name_of(i as usize);
            write!(text, "the clock of {a} has several rates")
        }
        Cause::Disturbed => text.push_str("the plan has a disturbance"),
        Cause::Leaving(i) => {
            let a = names.name_of(i as usize);
            write!(text, "{a} leaves the bus")
        }
        Cause::Listening(i) => {
            let a = names.name_of(i as usize);
            write!(text, "{a} only listens")
        }
        Cause::Lacking(lack) => push_lack(text, units_at(family, tick, lack.node), names, lack),
        Cause::Waiting => push_waiting(text, plan, names),
    }
}

/// Adds the line of a clock, if it is beyond its tolerance.
pub(crate) fn push_astray(
    text: &mut String,
    a: &str,
    oscillator: &Oscillator,
    stray: Option<Stray>,
) -> Result<(), AllocError>
    ensures { OnOk result (string_bytes text.new ≡ string_bytes text.old ++ astray_line a.now oscillator.now stray) }
{
    match stray {
        Some(stray) => push_stray(text, a, oscillator, stray),
        None => Ok(()),
    }
}

/// Adds the line of a clock beyond its tolerance.
fn push_stray(
    text: &mut String,
    a: &str,
    oscillator: &Oscillator,
    stray: Stray,
) -> Result<(), AllocError>
    ensures { OnOk result (string_bytes text.new ≡ string_bytes text.old ++ astray_words a.now oscillator.now stray) }
{
    push_beyond(text, a, oscillator.tolerance())?;
    let least = least_ticks(oscillator, stray.quanta);
    let most = most_ticks(oscillator, stray.quanta);
    push_taken(text, stray, least, most)
}

/// Adds that the clock of a node is beyond its tolerance.
fn push_beyond(text: &mut String, a: &str, ppm: u32) -> Result<(), AllocError>
    ensures { OnOk result (string_bytes text.new ≡ string_bytes text.old ++ beyond_words a.now ppm) }
{
    write!(
        text,
        "does not hold: the clock of {a} is outside of its tolerance of {ppm} ppm: "
    )
}

/// Adds the ticks of some quanta, and the ticks that are within the tolerance.
fn push_taken(text: &mut String, stray: Stray, least: u128, most: u128) -> Result<(), AllocError>
    ensures { OnOk result (string_bytes text.new ≡ string_bytes text.old ++ taken_words stray least most) }
{
    let Stray { quanta, ticks } = stray;
    writeln!(
        text,
        "{quanta} quanta take {ticks} ticks, and {least} to {most} are within it"
    )
}
