//! What is doubtful of clocks, ways and cables together: the condition for a sound bus, for each pair of nodes.
ghost use Rattle.std.specs.Prelude.{◌≡◌, ◌^◌, ◌<◌, ◌++◌, string_bytes, length, None, OnOk};
ghost use Rattle.wl_plan.specs.PlanLine.{setup_at};
ghost use Rattle.wl_setup.specs.Names.{name_of};
ghost use Rattle.wl_margin.specs.Pieces.{each_below};
ghost use Rattle.wl_explain.specs.Words.{bit_rate, unlike_words};
ghost use Rattle.wl_explain.specs.Condition.{told_failure, are_unlike, fail_line, fail_lines, family_doubts, lines_of, pair_lines, stray_line, stray_of, stray_words, strays, unlike_line};

use crate::doubts::difference;
use crate::words::{GREATEST_DIFFERENCE, bit_rate, push_unlike};
use crate::{MILLIONTHS, quanta_begun};
use std::alloc::AllocError;
use wl_bound::{Failure, Family, Inequality, Oscillator, Senders};
use wl_clock::Clock;
use wl_margin::push_failure_line;
use wl_node::NodeSetup;
use wl_plan::CheckedPlan;
use wl_setup::Names;

/// The picoseconds of a tick, which is taken for a nanosecond.
const NANOSECOND: u64 = 1000;

/// Adds what goes wrong by one inequality for nodes `i` and `j`.
fn push_fail(
    text: &mut String,
    family: &Family,
    names: &Names,
    inequality: Inequality,
    i: u8,
    j: u8,
) -> Result<(), AllocError>
    requires one { i < length family.now.members }
    requires other { j < length family.now.members }
    ensures { OnOk result (string_bytes text.new ≡ string_bytes text.old
        ++ fail_line family.now names.now inequality i j) }
{
    match family.pair_failure(Senders::One, inequality, i, j) {
        Some(failure) => { push_failure_line(text, family, names, NANOSECOND, "doubt: ", failure) }
        None => push_several(
            text,
            family,
            names,
            family.pair_failure(Senders::Any, inequality, i, j),
        ),
    }
}

/// Adds what goes wrong if several nodes send at once.
fn push_several(
    text: &mut String,
    family: &Family,
    names: &Names,
    failure: Option<Failure>,
) -> Result<(), AllocError>
    ensures { OnOk result (string_bytes text.new ≡ string_bytes text.old
        ++ told_failure family.now names.now None failure) }
{
    match failure {
        Some(failure) => push_failure_line(
            text,
            family,
            names,
            NANOSECOND,
            "doubt: if several nodes send at once, ",
            failure,
        ),
        None => Ok(()),
    }
}

/// Adds what goes wrong for nodes `i` and `j`.
fn push_fails(
    text: &mut String,
    family: &Family,
    names: &Names,
    i: u8,
    j: u8,
) -> Result<(), AllocError>
    requires one { i < length family.now.members }
    requires other { j < length family.now.members }
    ensures { OnOk result (string_bytes text.new ≡ string_bytes text.old ++ fail_lines family.now names.now i j) }
{
    push_fail(text, family, names, Inequality::DriftFitsJump, i, j)?;
    push_fail(text, family, names, Inequality::BitIsThereAtSample, i, j)?;
    push_fail(text, family, names, Inequality::NoBitTooEarly, i, j)
}

/// True if two nodes have bit rates that no clocks of one nominal rate can have.
fn are_unlike(end: u64, one: &NodeSetup, other: &NodeSetup) -> bool
    requires { end < 2 ^ 48 }
    ensures { result ≡ are_unlike end one.now other.now }
{
    difference(end, one, other) > GREATEST_DIFFERENCE
}

/// Adds the line of nodes `i` and `j` with unlike bit rates, once for both.
fn push_unlike_line(
    text: &mut String,
    plan: &CheckedPlan,
    names: &Names,
    i: u8,
    j: u8,
) -> Result<(), AllocError>
    requires one { i < length plan.now.nodes }
    requires other { j < length plan.now.nodes }
    ensures { OnOk result (string_bytes text.new ≡ string_bytes text.old ++ unlike_line plan.now names.now i j) }
{
    if i < j {
        push_unlike_pair(text, plan, names, i, j)
    } else {
        Ok(())
    }
}

/// Adds the line of nodes `i` and `j` with unlike bit rates.
fn push_unlike_pair(
    text: &mut String,
    plan: &CheckedPlan,
    names: &Names,
    i: u8,
    j: u8,
) -> Result<(), AllocError>
    requires one { i < length plan.now.nodes }
    requires other { j < length plan.now.nodes }
    ensures { OnOk result (string_bytes text.new ≡ string_bytes text.old
        ++ unlike_words (name_of names.now i) (name_of names.now j)
        (bit_rate plan.now.end (setup_at plan.now i)) (bit_rate plan.now.end (setup_at plan.now j))) }
{
    let (one, other) = (plan.node(i), plan.node(j));
    let (a, b) = (names.name_of(i as usize), names.name_of(j as usize));
    let first = bit_rate(plan.end, one);
    let second = bit_rate(plan.end, other);
    push_unlike(text, a, b, first, second)
}

/// Adds what is doubtful of nodes `i` and `j`.
fn push_pair_lines(
    text: &mut String,
    family: &Family,
    plan: &CheckedPlan,
    names: &Names,
    i: u8,
    j: u8,
) -> Result<(), AllocError>
    requires nodes { length family.now.members ≡ length plan.now.nodes }
    requires one { i < length plan.now.nodes }
    requires other { j < length plan.now.nodes }
    ensures { OnOk result (string_bytes text.new ≡ string_bytes text.old
        ++ pair_lines family.now plan.now names.now i j) }
{
    if are_unlike(plan.end, plan.node(i), plan.node(j)) {
        push_unlike_line(text, plan, names, i, j)
    } else {
        push_fails(text, family, names, i, j)
    }
}

/// Adds what is doubtful of node `i` with each.
fn push_lines_of(
    text: &mut String,
    family: &Family,
    plan: &CheckedPlan,
    names: &Names,
    i: u8,
) -> Result<(), AllocError>
    requires nodes { length family.now.members ≡ length plan.now.nodes }
    requires node { i < length plan.now.nodes }
    ensures { OnOk result (string_bytes text.new ≡ string_bytes text.old ++ lines_of family.now plan.now names.now i) }
{
    for j in 0..family.nodes() {
        push_pair_lines(text, family, plan, names, i, j)?;
    }
    Ok(())
}

/// Adds what is doubtful of all pairs.
fn push_lines(
    text: &mut String,
    family: &Family,
    plan: &CheckedPlan,
    names: &Names,
) -> Result<(), AllocError>
    requires nodes { length family.now.members ≡ length plan.now.nodes }
    ensures { OnOk result (string_bytes text.new ≡ string_bytes text.old
        ++ each_below (lines_of family.now plan.now names.now) (length family.now.members)) }
{
    for i in 0..family.nodes() {
        push_lines_of(text, family, plan, names, i)?;
    }
    Ok(())
}

/// True if the ticks of a clock up to the end are too few or too many for its tolerance. They are told to less than a tick.
fn strays(end: u64, clock: &Clock, oscillator: &Oscillator) -> bool
    requires { end < 2 ^ 48 }
    ensures { result ≡ strays end clock.now oscillator.now }
{
    wl_clock::ticks_increase();
    let quanta = quanta_begun(clock, end);
    let ticks = (clock.at(quanta) - clock.at(0)) as u128;
    let longest = MILLIONTHS * (ticks + 1) / quanta as u128;
    let shortest = MILLIONTHS * ticks.saturating_sub(1) / quanta as u128;
    longest < oscillator.shortest() || oscillator.longest() < shortest
}

/// Adds the line of a clock beyond its tolerance.
fn push_stray_words(text: &mut String, a: &str, ppm: u32) -> Result<(), AllocError>
    ensures { OnOk result (string_bytes text.new ≡ string_bytes text.old ++ stray_words a.now ppm) }
{
    writeln!(
        text,
        "doubt: the clock of {a} deviates by more than its tolerance of {ppm} ppm"
    )
}

/// Adds what is doubtful of a clock's tolerance.
fn push_stray(
    text: &mut String,
    end: u64,
    a: &str,
    clock: &Clock,
    oscillator: &Oscillator,
) -> Result<(), AllocError>
    requires { end < 2 ^ 48 }
    ensures { OnOk result (string_bytes text.new ≡ string_bytes text.old
        ++ stray_line end a.now clock.now oscillator.now) }
{
    if strays(end, clock, oscillator) {
        push_stray_words(text, a, oscillator.tolerance())
    } else {
        Ok(())
    }
}

/// Adds what is doubtful of each tolerance.
fn push_strays(
    text: &mut String,
    family: &Family,
    plan: &CheckedPlan,
    names: &Names,
) -> Result<(), AllocError>
    requires nodes { length family.now.members ≡ length plan.now.nodes }
    ensures { OnOk result (string_bytes text.new ≡ string_bytes text.old
        ++ each_below (stray_of family.now plan.now names.now) (length family.now.members)) }
{
    for i in 0..family.nodes() {
        let a = names.name_of(i as usize);
        let member = family.member(i);
        push_stray(text, plan.end, a, &plan.node(i).clock, &member.oscillator)?;
    }
    Ok(())
}

/// Adds what is doubtful of a bus by the condition.
pub(crate) fn push_family(
    text: &mut String,
    family: &Family,
    plan: &CheckedPlan,
    names: &Names,
) -> Result<(), AllocError>
    requires nodes { length family.now.members ≡ length plan.now.nodes }
    ensures { OnOk result (string_bytes text.new ≡ string_bytes text.old
        ++ family_doubts family.now plan.now names.now) }
{
    push_lines(text, family, plan, names)?;
    push_strays(text, family, plan, names)
}
