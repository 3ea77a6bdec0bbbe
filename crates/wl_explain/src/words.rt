//! The words of an explanation.
ghost use Rattle.std.specs.Prelude.{◌≡◌, ◌≢◌, ◌^◌, ◌<◌, ◌++◌, string_bytes, length, OnOk, IfOk};
ghost use Rattle.wl_setup.specs.Names.{name_of};
ghost use Rattle.wl_explain.specs.Words.{apart_words, bit_rate, cable_figure, cable_words, clocks_line, doubts_with, early_line, figures_line, jump_line, jump_words, late_line, margin_figures, margin_words, node_doubts, pair_doubts, room_doubts, room_line, room_words, timing_figures, timing_words, trip_line, trip_words, unlike_words, way_line};
ghost use Rattle.wl_margin.specs.Pieces.{each_below};

use crate::doubts::{
    borne, difference, first_early, first_late, has_no_room, idle_from, left, longest_round,
    round_trip, wanted_bits,
};
use crate::{Quantum, longest_cable, metres, sample_point, tolerance};
use std::alloc::AllocError;
use wl_bound::only_listens;
use wl_margin::{Hundredths, Thousandths};
use wl_node::NodeSetup;
use wl_plan::CheckedPlan;
use wl_segments::Segments;
use wl_setup::Names;

/// By how many parts per million clocks of one nominal bit rate can differ: each deviates by a tenth at most.
pub(crate) const GREATEST_DIFFERENCE: u128 = 222_222;

/// Returns the mean bit rate of a node up to tick `end`, in bit/s.
pub(crate) fn bit_rate(end: u64, node: &NodeSetup) -> u64
    requires { end < 2 ^ 48 }
    ensures { result ≡ bit_rate end node.now }
{
    Quantum::of_clock(&node.clock, end).bits_per_second(&node.segments)
}

/// Adds the line of two nodes with unlike bit rates.
pub(crate) fn push_unlike(
    text: &mut String,
    a: &str,
    b: &str,
    one: u64,
    other: u64,
) -> Result<(), AllocError>
    ensures { OnOk result (string_bytes text.new ≡ string_bytes text.old ++ unlike_words a.now b.now one other) }
{
    let one = Thousandths(one as u128);
    let other = Thousandths(other as u128);
    writeln!(
        text,
        "doubt: {a} and {b} have unlike bit rates, {one} and {other} kbit/s"
    )
}

/// Adds the line of two nodes whose clocks are too far apart.
fn push_apart(
    text: &mut String,
    a: &str,
    b: &str,
    apart: u128,
    most: u128,
) -> Result<(), AllocError>
    ensures { OnOk result (string_bytes text.new ≡ string_bytes text.old ++ apart_words a.now b.now apart most) }
{
    writeln!(
        text,
        "doubt: the clocks of {a} and {b} are {apart} ppm apart, and their segments bear {most}"
    )
}

/// Adds what is doubtful of the clocks of two nodes.
fn push_clocks(
    text: &mut String,
    end: u64,
    a: &str,
    b: &str,
    one: &NodeSetup,
    other: &NodeSetup,
) -> Result<(), AllocError>
    requires { end < 2 ^ 48 }
    ensures { OnOk result (string_bytes text.new ≡ string_bytes text.old
        ++ clocks_line end a.now b.now one.now other.now) }
{
    let apart = difference(end, one, other);
    let most = borne(one, other);
    if apart > GREATEST_DIFFERENCE {
        push_unlike(text, a, b, bit_rate(end, one), bit_rate(end, other))
    } else if apart > most {
        push_apart(text, a, b, apart, most)
    } else {
        Ok(())
    }
}

/// Adds the line of two nodes between which a level takes too long.
fn push_trip_words(
    text: &mut String,
    a: &str,
    b: &str,
    trip: u64,
    most: u64,
) -> Result<(), AllocError>
    ensures { OnOk result (string_bytes text.new ≡ string_bytes text.old ++ trip_words a.now b.now trip most) }
{
    writeln!(
        text,
        "doubt: {a} to {b} and back takes {trip} ticks, and the earlier sample leaves {most}"
    )
}

/// Adds what is doubtful of the way between two nodes.
fn push_trip(text: &mut String, a: &str, b: &str, trip: u64, most: u64) -> Result<(), AllocError>
    ensures { OnOk result (string_bytes text.new ≡ string_bytes text.old ++ trip_line a.now b.now trip most) }
{
    if trip > most {
        push_trip_words(text, a, b, trip, most)
    } else {
        Ok(())
    }
}

/// Adds what is doubtful of the way from node `i` to node `j` and back: nothing if one of them only listens, since nothing comes back from it.
fn push_way(
    text: &mut String,
    plan: &CheckedPlan,
    names: &Names,
    i: u8,
    j: u8,
) -> Result<(), AllocError>
    requires first { i < length plan.now.nodes }
    requires second { j < length plan.now.nodes }
    requires apart { i ≢ j }
    ensures { OnOk result (string_bytes text.new ≡ string_bytes text.old ++ way_line plan.now names.now i j) }
{
    if only_listens(&plan.topology, i, j) || only_listens(&plan.topology, j, i) {
        return Ok(());
    }
    let (one, other) = (plan.node(i), plan.node(j));
    push_trip(
        text,
        names.name_of(i as usize),
        names.name_of(j as usize),
        round_trip(plan, i, j),
        longest_round(plan.end, one, other),
    )
}

/// Adds what is doubtful of nodes `i` and `j`.
fn push_pair(
    text: &mut String,
    plan: &CheckedPlan,
    names: &Names,
    i: u8,
    j: u8,
) -> Result<(), AllocError>
    requires first { i < length plan.now.nodes }
    requires second { j < length plan.now.nodes }
    requires apart { i ≢ j }
    ensures { OnOk result (string_bytes text.new ≡ string_bytes text.old ++ pair_doubts plan.now names.now i j) }
{
    let (one, other) = (plan.node(i), plan.node(j));
    let (a, b) = (names.name_of(i as usize), names.name_of(j as usize));
    push_clocks(text, plan.end, a, b, one, other)?;
    push_way(text, plan, names, i, j)
}

/// Adds what is doubtful of node `j` with each node before it.
fn push_pairs_of(
    text: &mut String,
    plan: &CheckedPlan,
    names: &Names,
    j: u8,
) -> Result<(), AllocError>
    requires second { j < length plan.now.nodes }
    ensures { OnOk result (string_bytes text.new ≡ string_bytes text.old ++ doubts_with plan.now names.now j) }
{
    for i in 0..j {
        push_pair(text, plan, names, i, j)?;
    }
    Ok(())
}

/// Adds what is doubtful of all pairs of nodes.
pub(crate) fn push_pairs(
    text: &mut String,
    plan: &CheckedPlan,
    names: &Names,
) -> Result<(), AllocError>
    ensures { OnOk result (string_bytes text.new ≡ string_bytes text.old
        ++ each_below (doubts_with plan.now names.now) (length plan.now.nodes)) }
{
    for j in 0..plan.nodes() {
        push_pairs_of(text, plan, names, j)?;
    }
    Ok(())
}

/// Adds the line of a jump width above PHASE_SEG2.
fn push_jump_words(text: &mut String, a: &str, jump: u64, phase: u64) -> Result<(), AllocError>
    ensures { OnOk result (string_bytes text.new ≡ string_bytes text.old ++ jump_words a.now jump phase) }
{
    writeln!(
        text,
        "doubt: {a} has a jump width of {jump} quanta, above its PHASE_SEG2 of {phase}"
    )
}

/// Adds what is doubtful of a node's jump width.
fn push_jump(text: &mut String, a: &str, segments: &Segments) -> Result<(), AllocError>
    ensures { OnOk result (string_bytes text.new ≡ string_bytes text.old ++ jump_line a.now segments.now) }
{
    let jump = segments.sjw();
    let phase = segments.ps2();
    if jump > phase {
        push_jump_words(text, a, jump, phase)
    } else {
        Ok(())
    }
}

/// Adds the line of the first frame that becomes ready too late.
fn push_late(text: &mut String, a: &str, frame: Option<usize>) -> Result<(), AllocError>
    ensures { OnOk result (string_bytes text.new ≡ string_bytes text.old ++ late_line a.now frame) }
{
    match frame {
        Some(n) => writeln!(
            text,
            "doubt: frame {n} of {a} becomes ready at the end or later"
        ),
        None => Ok(()),
    }
}

/// Adds the line of the first frame that becomes ready too early.
fn push_early(text: &mut String, a: &str, idle: u64, frame: Option<usize>) -> Result<(), AllocError>
    ensures { OnOk result (string_bytes text.new ≡ string_bytes text.old ++ early_line a.now idle frame) }
{
    match frame {
        Some(n) => writeln!(
            text,
            "doubt: frame {n} of {a} becomes ready before tick {idle}, from which on all nodes can be idle"
        ),
        None => Ok(()),
    }
}

/// Adds what is doubtful of node `i`.
fn push_node(text: &mut String, plan: &CheckedPlan, names: &Names, i: u8) -> Result<(), AllocError>
    requires node { i < length plan.now.nodes }
    ensures { OnOk result (string_bytes text.new ≡ string_bytes text.old ++ node_doubts plan.now names.now i) }
{
    let (node, name) = (plan.node(i), names.name_of(i as usize));
    let idle = idle_from(plan);
    push_jump(text, name, &node.segments)?;
    push_late(text, name, first_late(plan.end, node))?;
    push_early(text, name, idle, first_early(idle, node))
}

/// Adds what is doubtful of each node.
pub(crate) fn push_nodes(
    text: &mut String,
    plan: &CheckedPlan,
    names: &Names,
) -> Result<(), AllocError>
    ensures { OnOk result (string_bytes text.new ≡ string_bytes text.old
        ++ each_below (node_doubts plan.now names.now) (length plan.now.nodes)) }
{
    for i in 0..plan.nodes() {
        push_node(text, plan, names, i)?;
    }
    Ok(())
}

/// Adds the line of an end that leaves no room for the frames.
fn push_room_words(text: &mut String, a: &str, bits: u128) -> Result<(), AllocError>
    ensures { OnOk result (string_bytes text.new ≡ string_bytes text.old ++ room_words a.now bits) }
{
    writeln!(
        text,
        "doubt: 11 bits and the frames of {a} take at least {bits} bits, beyond the end"
    )
}

/// Adds what is doubtful of the end for a node.
fn push_room_of(text: &mut String, end: u64, a: &str, node: &NodeSetup) -> Result<(), AllocError>
    requires { end < 2 ^ 48 }
    ensures { OnOk result (string_bytes text.new ≡ string_bytes text.old ++ room_line end a.now node.now) }
{
    if has_no_room(end, node) {
        push_room_words(text, a, wanted_bits(node))
    } else {
        Ok(())
    }
}

/// Adds what is doubtful of the end for each node.
pub(crate) fn push_room(
    text: &mut String,
    plan: &CheckedPlan,
    names: &Names,
) -> Result<(), AllocError>
    ensures { OnOk result (string_bytes text.new ≡ string_bytes text.old
        ++ each_below (room_doubts plan.now names.now) (length plan.now.nodes)) }
{
    for i in 0..plan.nodes() {
        push_room_of(text, plan.end, names.name_of(i as usize), plan.node(i))?;
    }
    Ok(())
}

/// Adds the words of a node's bit rate in bit/s, of its sample point in hundredths of a per cent and of its quantum in picoseconds.
fn push_timing_words(
    text: &mut String,
    a: &str,
    rate: u64,
    point: u64,
    quantum: u64,
) -> Result<(), AllocError>
    ensures { OnOk result (string_bytes text.new ≡ string_bytes text.old ++ timing_words a.now rate point quantum) }
{
    let rate = Thousandths(rate as u128);
    let point = Hundredths(point as u128);
    let quantum = Thousandths(quantum as u128);
    write!(
        text,
        "node {a}: {rate} kbit/s, sample point {point} %, quantum {quantum} ns"
    )
}

/// Adds bit rate, sample point and quantum of node `i`.
pub(crate) fn push_timing(
    text: &mut String,
    plan: &CheckedPlan,
    names: &Names,
    i: u8,
) -> Result<(), AllocError>
    requires node { i < length plan.now.nodes }
    ensures { OnOk result (string_bytes text.new ≡ string_bytes text.old ++ timing_figures plan.now names.now i) }
{
    let node = plan.node(i);
    let rate = bit_rate(plan.end, node);
    let point = sample_point(&node.segments);
    let quantum = Quantum::of_clock(&node.clock, plan.end).picoseconds();
    push_timing_words(text, names.name_of(i as usize), rate, point, quantum)
}

/// Adds the words of a tolerance and of what is left of it, in parts per million.
fn push_margin_words(text: &mut String, ppm: u32, rest: u128) -> Result<(), AllocError>
    ensures { OnOk result (string_bytes text.new ≡ string_bytes text.old ++ margin_words ppm rest) }
{
    write!(text, ", tolerance {ppm} ppm, left {rest} ppm")
}

/// Adds the tolerance of node `i`, and what the other clocks leave of it.
fn push_margin(text: &mut String, plan: &CheckedPlan, i: u8) -> Result<(), AllocError>
    requires node { i < length plan.now.nodes }
    ensures { OnOk result (string_bytes text.new ≡ string_bytes text.old ++ margin_figures plan.now i) }
{
    let ppm = tolerance(&plan.node(i).segments);
    push_margin_words(text, ppm, left(plan, i) / 2)
}

/// Adds the words of a cable, by the time that a level takes along it, and ends the line.
fn push_cable_words(text: &mut String, cable: Option<u64>) -> Result<(), AllocError>
    ensures { OnOk result (string_bytes text.new ≡ string_bytes text.old ++ cable_words cable) }
{
    match cable {
        Some(time) => {
            let long = metres(time);
            writeln!(text, ", cable {time} ns, {long} m at 5 ns a metre")
        }
        None => writeln!(text, ", cable none"),
    }
}

/// Adds the longest cable to a node like node `i`.
fn push_cable(text: &mut String, plan: &CheckedPlan, i: u8) -> Result<(), AllocError>
    requires node { i < length plan.now.nodes }
    ensures { OnOk result (string_bytes text.new ≡ string_bytes text.old ++ cable_figure plan.now i) }
{
    let node = plan.node(i);
    let way = Quantum::of_clock(&node.clock, plan.end).furthest_way(&node.segments);
    push_cable_words(text, longest_cable(way, plan.topology.propagation(i, i), 1))
}

/// Adds the figures of node `i`.
fn push_figures(
    text: &mut String,
    plan: &CheckedPlan,
    names: &Names,
    i: u8,
) -> Result<(), AllocError>
    requires node { i < length plan.now.nodes }
    ensures { OnOk result (string_bytes text.new ≡ string_bytes text.old ++ figures_line plan.now names.now i) }
{
    push_timing(text, plan, names, i)?;
    push_margin(text, plan, i)?;
    push_cable(text, plan, i)
}

/// Adds the figures of all nodes.
pub(crate) fn push_all_figures(
    text: &mut String,
    plan: &CheckedPlan,
    names: &Names,
) -> Result<(), AllocError>
    ensures { OnOk result (string_bytes text.new ≡ string_bytes text.old
        ++ each_below (figures_line plan.now names.now) (length plan.now.nodes)) }
{
    for i in 0..plan.nodes() {
        push_figures(text, plan, names, i)?;
    }
    Ok(())
}
