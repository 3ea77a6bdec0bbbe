//! The text of an explanation.
ghost use Rattle.std.specs.Prelude.{◌≡◌, ◌<◌, ◌++◌, string_bytes, length, IfOk, IfSome, OnOk};
ghost use Rattle.wl_margin.specs.Margins.{IsHeadroomFound, bus_family};
ghost use Rattle.wl_explain.specs.Condition.{IsExplanation, TellsFigures, clock_doubts, doubt_lead, doubts_text, outside_line, rest_doubts, timing_line, timing_lines};

use crate::condition::push_family;
use crate::waits::push_waits;
use crate::words::{push_all_figures, push_nodes, push_pairs, push_room, push_timing};
use std::alloc::{AllocError, Global};
use wl_bound::{Family, Outside, cause_outside, first_without_book};
use wl_margin::{Headroom, oscillators, push_headroom, push_reason};
use wl_plan::CheckedPlan;
use wl_respond::waits_of_bus;
use wl_setup::{Bus, Names, PlanText};

/// How many picoseconds a tick takes: it is taken for a nanosecond.
const NANOSECOND: u64 = 1_000;

/// Returns whether a plan outside of the condition is doubtful, or no bound is known for it.
fn doubt_lead(cause: Outside) -> &'static str
    ensures { result.now ≡ doubt_lead cause }
{
    match cause {
        Outside::FewNodes => "doubt: ",
        Outside::NoFrames => "doubt: no bound is known: ",
        Outside::ListenerSends(_) => "doubt: ",
        Outside::NobodyAcknowledges(_) => "doubt: ",
        Outside::NotByTheBook(_) => "doubt: no bound is known: ",
        Outside::SameIdentifier(_, _) => "doubt: ",
        Outside::NobodyIdle(_) => "doubt: ",
    }
}

/// Adds what lies outside of the condition.
fn push_outside(text: &mut String, names: &Names, cause: Option<Outside>) -> Result<(), AllocError>
    ensures { OnOk result (string_bytes text.new ≡ string_bytes text.old ++ outside_line names.now cause) }
{
    match cause {
        Some(cause) => {
            text.push_str(doubt_lead(cause))?;
            push_reason(text, names, cause)
        }
        None => Ok(()),
    }
}

/// Adds what is doubtful of clocks and ways.
fn push_clock_doubts(
    text: &mut String,
    plan: &CheckedPlan,
    names: &Names,
    other: Option<u8>,
    family: &Option<Family>,
) -> Result<(), AllocError>
    requires nodes { IfSome family.now (λ f. length f.members ≡ length plan.now.nodes) }
    ensures { OnOk result (string_bytes text.new ≡ string_bytes text.old
        ++ clock_doubts plan.now names.now other family.now) }
{
    match (other, family) {
        (Some(_), _) => push_pairs(text, plan, names),
        (None, Some(family)) => push_family(text, family, plan, names),
        (None, None) => text.push_str(
            "doubt: no bound is known: without its ppm a quantum takes less than a tick or more than 1,048,576\n",
        ),
    }
}

/// Adds what is doubtful of each node, and of the end for each.
fn push_rest(text: &mut String, plan: &CheckedPlan, names: &Names) -> Result<(), AllocError>
    ensures { OnOk result (string_bytes text.new ≡ string_bytes text.old ++ rest_doubts plan.now names.now) }
{
    push_nodes(text, plan, names)?;
    push_room(text, plan, names)
}

/// Adds all doubts.
fn push_doubts(
    text: &mut String,
    plan: &CheckedPlan,
    names: &Names,
    other: Option<u8>,
    family: &Option<Family>,
) -> Result<(), AllocError>
    requires nodes { IfSome family.now (λ f. length f.members ≡ length plan.now.nodes) }
    ensures { OnOk result (string_bytes text.new ≡ string_bytes text.old
        ++ doubts_text plan.now names.now other family.now) }
{
    push_outside(text, names, cause_outside(plan))?;
    push_clock_doubts(text, plan, names, other, family)?;
    push_rest(text, plan, names)
}

/// Adds bit rate, sample point and quantum of node `i`, a line.
fn push_timing_line(
    text: &mut String,
    plan: &CheckedPlan,
    names: &Names,
    i: u8,
) -> Result<(), AllocError>
    requires node { i < length plan.now.nodes }
    ensures { OnOk result (string_bytes text.new ≡ string_bytes text.old ++ timing_line plan.now names.now i) }
{
    push_timing(text, plan, names, i)?;
    text.push_str("\n")
}

/// Adds those of all nodes.
fn push_timing_lines(text: &mut String, plan: &CheckedPlan, names: &Names) -> Result<(), AllocError>
    ensures { OnOk result (string_bytes text.new ≡ string_bytes text.old ++ timing_lines plan.now names.now) }
{
    for i in 0..plan.nodes() {
        push_timing_line(text, plan, names, i)?;
    }
    Ok(())
}

/// Adds the figures of a bus. How much longer its cable may be and how much wider its tolerances is searched unless it is found already.
fn push_figures_of(
    text: &mut String,
    bus: &Bus,
    other: Option<u8>,
    family: &Option<Family>,
    found: Option<(Headroom, Headroom)>,
) -> Result<(), AllocError>
    requires { IsHeadroomFound found family.now }
    ensures { OnOk result (TellsFigures bus.now.plan bus.now.names other family.now
        (string_bytes text.old) (string_bytes text.new)) }
{
    if other.is_some() {
        return push_all_figures(text, &bus.plan, &bus.names);
    }
    push_timing_lines(text, &bus.plan, &bus.names)?;
    match family {
        Some(family) => {
            if bus.plan.nodes() < 2 {
                return Ok(());
            }
            push_headroom(text, family, found)
        }
        None => Ok(()),
    }
}

/// Returns the family of a bus, if the rates from which its clocks deviate make clocks.
fn family_in(alloc: Global, bus: &Bus) -> Result<Option<Family>, AllocError>
    requires deviations { length bus.now.deviations ≡ length bus.now.plan.nodes }
    ensures family { IfOk result (λ family. family ≡ bus_family bus.now) }
    ensures nodes { IfOk result (λ family. IfSome family (λ f. length f.members ≡ length bus.now.plan.nodes)) }
{
    bus.plan.laws();
    match oscillators(alloc, bus.deviations.as_slice())? {
        Some(all) => Ok(Some(Family::of_plan(alloc, &bus.plan, all.as_slice())?)),
        None => Ok(None),
    }
}

/// The explanation of a plan.
#[derive(Drop)]
pub struct Explained {
    /// What is doubtful of the plan, one a line, and then its figures.
    pub text: String,
    /// Whether anything is doubtful.
    pub doubted: bool,
}

/// Returns the explanation of a plan's text and its bus, which can be run: what is doubtful of it, one a line, and then its figures.
///
/// First comes what lies outside of the condition for a sound bus. If all nodes synchronise by the book, each inequality that fails
/// follows, by node, by the other node and by inequality: for one sender at a time, or if several nodes send at once. Two nodes whose bit
/// rates no clocks of one nominal rate can have come in place of these; then clocks that deviate by more than their tolerance.
///
/// If they don't, no such condition is known, and clocks and ways are doubted by themselves: clocks further apart than the segments of both
/// allow, and a way there and back for which the earlier sample is too early.
///
/// Then come, for each node: a jump width above PHASE_SEG2; its first frame that becomes ready at the end or later; its first that becomes
/// ready before all nodes have counted 11 bits. Then comes, for each node, an end that leaves no room for its frames. Last come messages that
/// may miss their deadlines, or why no wait is bounded: a jitter that leaves nothing of a period, or a bus that may be full.
///
/// The figures of a node are bit rate in kbit/s, sample point in per cent and quantum in nanoseconds. By the book two lines follow, unless
/// there is one node alone: how much longer the cable and how much wider every tolerance may be. Without the book each node has its
/// tolerance in parts per million, and how much of it the other clocks leave to both nodes of a pair. It also has the longest cable, in
/// nanoseconds along it and in metres at 5 ns each. A quantum is the mean of those that the node runs before the end. A tick is taken for a
/// nanosecond. Refused out of memory alone.
pub fn explain_plan(alloc: Global, plain: &PlanText, bus: &Bus) -> Result<Explained, AllocError>
    requires deviations { length bus.now.deviations ≡ length bus.now.plan.nodes }
    ensures { IfOk result (λ e. IsExplanation plain.now bus.now (string_bytes e.text) e.doubted) }
{
    explain_found(alloc, plain, bus, None)
}

/// Returns the same explanation. How much longer the cable may be and how much wider every tolerance isn't searched if a margin of the bus found
/// it (`wl_margin::margin_of`).
pub fn explain_found(
    alloc: Global,
    plain: &PlanText,
    bus: &Bus,
    found: Option<(Headroom, Headroom)>,
) -> Result<Explained, AllocError>
    requires deviations { length bus.now.deviations ≡ length bus.now.plan.nodes }
    requires found { IsHeadroomFound found (bus_family bus.now) }
    ensures { IfOk result (λ e. IsExplanation plain.now bus.now (string_bytes e.text) e.doubted) }
{
    let mut text = String::new(alloc);
    let family = family_in(alloc, bus)?;
    let waits = waits_of_bus(alloc, NANOSECOND, plain, bus)?;
    let other = first_without_book(&bus.plan);
    push_doubts(&mut text, &bus.plan, &bus.names, other, &family)?;
    push_waits(&mut text, &bus.names, &waits)?;
    let doubted = text.len() > 0;
    push_figures_of(&mut text, bus, other, &family, found)?;
    Ok(Explained { text, doubted })
}
