//! How long the messages of a bus may wait, in numbers.
ghost use Rattle.std.specs.Prelude.{◌≡◌, ◌<◌, ◌^◌, false, List, Some, length, IfOk, IfSome};
ghost use Rattle.std.specs.List.{list_any};
ghost use Rattle.wl_bound.specs.Rooms.{plain_bus};
ghost use Rattle.wl_respond.specs.Bounds.{AreDueWaits, AreWaits, AreWaitsFor, AreWaitsOf, AreWaitsOfBus, asked_in, is_due, lines_shown};
ghost use Rattle.wl_respond.specs.Senders.{family_with_text};
ghost use Rattle.wl_respond.specs.Tables.{AreSameButBounds, IsBounded, IsTable};
ghost use Rattle.wl_respond.specs.declared.message.MessageWait.{MessageWait};

use crate::asked::{Asked, all_asked, messages_in};
use crate::inequality::Common;
use crate::message::{MessageWait, pass, rows};
use crate::parts::{Case, Line, lines_of, load_at_most};
use crate::premise::{Lacking, first_lacking};
use crate::search::bounds_of;
use crate::senders::family_with_text;
use crate::table::{ONCE, table_of};
use crate::verdict::first_jittered;
use std::alloc::{AllocError, Global};
use wl_bound::{Family, Oscillator};
use wl_level::Listed;
use wl_margin::oscillators;
use wl_plan::CheckedPlan;
use wl_setup::{Bus, PlanText};

/// How long the messages of a bus may wait, in numbers.
#[derive(Drop)]
pub struct Waits {
    /// The messages, and what the plan's text asks of each.
    pub asked: Listed<Asked>,
    /// What is said of each: its bound, and whether it meets its deadline.
    pub lines: Listed<Line>,
    /// The first premise that lacks. If none does, the bounds are proved.
    pub lacking: Option<Lacking>,
    /// Whether the messages have bounds.
    pub shown: bool,
    /// The first message of whose period its jitter leaves nothing.
    pub jittered: Option<usize>,
    /// How busy the bus is at most, in hundredths of a per cent.
    pub load: u128,
}

/// What is asked of a text: how many picoseconds a tick takes, and whether the messages may have any data.
#[derive(Clone, Copy, Debug, PartialEq, Eq)]
pub struct Question {
    /// Picoseconds of a tick, below 2^36.
    pub tick: u64,
    /// Whether a frame may have any data in the place of its own.
    pub any_data: bool,
}

/// Returns a message with the bounds of another one, if there is one.
fn with_bound(message: &MessageWait, bounded: Option<&MessageWait>) -> MessageWait
    ensures { IsBounded message.now result }
{
    match bounded {
        Some(other) => MessageWait {
            window: other.window,
            wait: other.wait,
            first: other.first,
            ..*message
        },
        None => *message,
    }
}

/// Returns the messages with the windows and waits of others. Refused only when out of memory.
fn with_bounds(
    alloc: Global,
    messages: &[MessageWait],
    bounded: &[MessageWait],
) -> Result<Vec<MessageWait>, AllocError>
    ensures { IfOk result (λ all. AreSameButBounds messages.now all.items) }
{
    let mut all = Vec::new(alloc);
    for e in 0..messages.len() {
        all.push(with_bound(&messages[e], bounded.get(e)))?;
    }
    Ok(all)
}

/// A table of messages with bounds, and the windows of their instances.
#[derive(Drop)]
struct Bounds {
    messages: Vec<MessageWait>,
    windows: Vec<u128>,
}

/// Returns the table of a plan's messages with bounds that were searched: with the bits and the periods of the plan's own frames. Refused only
/// when out of memory.
fn searched(
    alloc: Global,
    family: &Family,
    any: bool,
    text: &PlanText,
    plan: &CheckedPlan,
) -> Result<Bounds, AllocError>
    ensures { IfOk result (λ bounds. IsTable plan.now text.now bounds.messages.items) }
{
    let table = table_of(alloc, plan, text)?;
    let asked = all_asked(alloc, family, any, text, table.as_slice())?;
    let messages = messages_in(alloc, asked.as_slice())?;
    let found = bounds_of(alloc, family, messages.as_slice())?;
    let messages = with_bounds(alloc, table.as_slice(), found.messages.as_slice())?;
    Ok(Bounds {
        messages,
        windows: found.windows,
    })
}

/// What is asked of messages with bounds, and the windows of their instances.
#[derive(Clone, Copy)]
struct Bounded<'a> {
    asked: &'a [Asked],
    windows: &'a [u128],
}

/// Returns what is said of each message, with its bound or without. Refused only when out of memory.
fn all_lines(
    alloc: Global,
    tick: u64,
    family: &Family,
    shown: bool,
    it: &Bounded,
) -> Result<Listed<Line>, AllocError>
    requires { tick < 2 ^ 36 }
    ensures { IfOk result (λ lines. lines ≡ lines_shown tick (plain_bus family.now) it.now.windows.now shown
        it.now.asked.now) }
{
    let messages = messages_in(alloc, it.asked)?;
    let times = family.times();
    let rows = rows(alloc, family, times, messages.as_slice())?;
    let common = Common {
        lead: times.lead,
        wake: times.wake,
    };
    let case = Case {
        tick,
        family,
        times,
        common,
        rows: rows.as_slice(),
        windows: it.windows,
        shown,
    };
    lines_of(alloc, &case, it.asked)
}

/// What is asked of messages with bounds, and the windows of their instances, before their waits are known.
#[derive(Drop)]
struct AskedBounds {
    asked: Listed<Asked>,
    windows: Vec<u128>,
}

/// Returns the waits of a bus whose messages have these bounds.
fn waits_of(
    alloc: Global,
    tick: u64,
    bus: &Bus,
    family: &Family,
    found: AskedBounds,
) -> Result<Waits, AllocError>
    requires tick { tick < 2 ^ 36 }
    requires deviations { length bus.now.deviations ≡ length bus.now.plan.nodes }
    requires members { length family.now.members ≡ length bus.now.plan.nodes }
    ensures waits { IfOk result (AreWaits tick bus.now family.now found.windows.items found.asked) }
    ensures lines { IfOk result (λ w. length w.asked ≡ length w.lines) }
    ensures jittered { IfOk result (λ w. IfSome w.jittered (λ e. e < length w.asked)) }
{
    let AskedBounds { asked, windows } = found;
    let it = Bounded {
        asked: asked.as_slice(),
        windows: windows.as_slice(),
    };
    let messages = messages_in(alloc, it.asked)?;
    let passes = pass(alloc, family, messages.as_slice(), it.windows)?;
    let lacking = first_lacking(
        bus.deviations.as_slice(),
        &bus.plan,
        family,
        messages.as_slice(),
        passes,
    );
    let jittered = first_jittered(it.asked);
    let load = load_at_most(family, messages.as_slice());
    let lines = all_lines(alloc, tick, family, passes, &it)?;
    Ok(Waits {
        asked,
        lines,
        lacking,
        shown: passes,
        jittered,
        load,
    })
}

/// Returns the waits of a bus as a question asks them, with bounds that are searched.
fn waits_searched(
    alloc: Global,
    question: Question,
    plain: &PlanText,
    bus: &Bus,
    family: &Family,
) -> Result<Waits, AllocError>
    requires tick { question.tick < 2 ^ 36 }
    requires deviations { length bus.now.deviations ≡ length bus.now.plan.nodes }
    requires members { length family.now.members ≡ length bus.now.plan.nodes }
    ensures waits { IfOk result (AreWaitsFor question.tick question.any_data plain.now bus.now family.now) }
    ensures lines { IfOk result (λ w. length w.asked ≡ length w.lines) }
    ensures jittered { IfOk result (λ w. IfSome w.jittered (λ e. e < length w.asked)) }
{
    let any = question.any_data;
    let bounds = searched(alloc, family, any, plain, &bus.plan)?;
    let asked = all_asked(alloc, family, any, plain, bounds.messages.as_slice())?;
    let found = AskedBounds {
        asked,
        windows: bounds.windows,
    };
    waits_of(alloc, question.tick, bus, family, found)
}

/// Returns the waits of a bus and the oscillators of its nodes.
fn waits_with(
    alloc: Global,
    question: Question,
    plain: &PlanText,
    bus: &Bus,
    oscillators: &[Oscillator],
) -> Result<Waits, AllocError>
    requires tick { question.tick < 2 ^ 36 }
    requires deviations { length bus.now.deviations ≡ length bus.now.plan.nodes }
    requires oscillators { length oscillators.now ≡ length bus.now.plan.nodes }
    requires members { length (family_with_text bus.now.plan plain.now oscillators.now).members
        ≡ length bus.now.plan.nodes }
    ensures waits { IfOk result (AreWaitsFor question.tick question.any_data plain.now bus.now
        (family_with_text bus.now.plan plain.now oscillators.now)) }
    ensures lines { IfOk result (λ w. length w.asked ≡ length w.lines) }
{
    let family = family_with_text(alloc, &bus.plan, plain, oscillators)?;
    waits_searched(alloc, question, plain, bus, &family)
}

/// Returns how long each message of a bus may wait, as a question asks: all that [`respond_lines`](crate::respond_lines) says. None if the rates of
/// the nodes without `ppm` make no clocks. Refused only when out of memory.
pub(crate) fn waits_asked(
    alloc: Global,
    question: Question,
    plain: &PlanText,
    bus: &Bus,
) -> Result<Option<Waits>, AllocError>
    requires tick { question.tick < 2 ^ 36 }
    requires deviations { length bus.now.deviations ≡ length bus.now.plan.nodes }
    ensures waits { IfOk result (AreWaitsOf question.tick question.any_data plain.now bus.now) }
    ensures lines { IfOk result (λ found. IfSome found (λ w. length w.asked ≡ length w.lines)) }
{
    match oscillators(alloc, bus.deviations.as_slice())? {
        Some(oscillators) => {
            let waits = waits_with(alloc, question, plain, bus, oscillators.as_slice())?;
            Ok(Some(waits))
        }
        None => Ok(None),
    }
}

/// True if a message comes again, or has a deadline.
fn is_due(asked: &Asked) -> bool
    ensures { result ≡ is_due asked.now }
{
    asked.deadline.is_some() || asked.every != ONCE
}

/// True if some message is so.
fn any_due(asked: &[Asked]) -> bool
    ensures { result ≡ list_any is_due asked.now }
{
    asked.iter().any(|one| is_due(one))
}

/// Returns what the plan's text asks of its messages.
fn asked_of_plan(
    alloc: Global,
    plain: &PlanText,
    bus: &Bus,
    family: &Family,
) -> Result<Listed<Asked>, AllocError>
    ensures { IfOk result (λ asked. (table : List MessageWait) × IsTable bus.now.plan plain.now table
        × (asked ≡ asked_in family.now false plain.now table)) }
{
    let table = table_of(alloc, &bus.plan, plain)?;
    all_asked(alloc, family, false, plain, table.as_slice())
}

/// Returns the waits of a bus and the oscillators of its nodes, if some message is due.
fn waits_for(
    alloc: Global,
    tick: u64,
    plain: &PlanText,
    bus: &Bus,
    oscillators: &[Oscillator],
) -> Result<Option<Waits>, AllocError>
    requires tick { tick < 2 ^ 36 }
    requires deviations { length bus.now.deviations ≡ length bus.now.plan.nodes }
    requires oscillators { length oscillators.now ≡ length bus.now.plan.nodes }
    requires members { length (family_with_text bus.now.plan plain.now oscillators.now).members
        ≡ length bus.now.plan.nodes }
    ensures waits { IfOk result (AreDueWaits tick plain.now bus.now
        (family_with_text bus.now.plan plain.now oscillators.now)) }
    ensures lines { IfOk result (λ waits. IfSome waits (λ w. length w.asked ≡ length w.lines)) }
    ensures jittered { IfOk result (λ waits. IfSome waits (λ w. IfSome w.jittered (λ e. e < length w.asked))) }
{
    let family = family_with_text(alloc, &bus.plan, plain, oscillators)?;
    let asked = asked_of_plan(alloc, plain, bus, &family)?;
    if !any_due(asked.as_slice()) {
        return Ok(None);
    }
    let question = Question {
        tick,
        any_data: false,
    };
    let waits = waits_searched(alloc, question, plain, bus, &family)?;
    Ok(Some(waits))
}

/// Returns how long each message of a bus may wait with its own data, for ticks that take that many picoseconds: what `respond_lines` says of
/// the bus, in numbers. None if no message comes again or has a deadline, or if the rates of the nodes without `ppm` make no clocks. Refused
/// only when out of memory.
pub fn waits_of_bus(
    alloc: Global,
    tick: u64,
    plain: &PlanText,
    bus: &Bus,
) -> Result<Option<Waits>, AllocError>
    requires tick { tick < 2 ^ 36 }
    requires deviations { length bus.now.deviations ≡ length bus.now.plan.nodes }
    ensures waits { IfOk result (AreWaitsOfBus tick plain.now bus.now) }
    ensures lines { IfOk result (λ waits. IfSome waits (λ w. length w.asked ≡ length w.lines)) }
    ensures jittered { IfOk result (λ waits. IfSome waits (λ w. IfSome w.jittered (λ e. e < length w.asked))) }
{
    match oscillators(alloc, bus.deviations.as_slice())? {
        Some(oscillators) => waits_for(alloc, tick, plain, bus, oscillators.as_slice()),
        None => Ok(None),
    }
}
