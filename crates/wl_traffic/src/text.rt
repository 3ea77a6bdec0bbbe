//! The traffic of a run as text.
ghost use Rattle.std.specs.Prelude.{◌≡◌, length, string_bytes, IfOk, IfSome, OnOk};
ghost use Rattle.wl_report.specs.Lines.{GrowsBy};
ghost use Rattle.wl_serial.specs.Outcome.{counted_of, outcome_of};
ghost use Rattle.wl_traffic.specs.Reasons.{reason_of};
ghost use Rattle.wl_traffic.specs.Traffic.{IsTrafficOfBus, bus_line, bounded_text, traffic_text, verdict_words};

use crate::bounds::push_bounds;
use crate::causes::{microseconds_of, push_causes};
use crate::found::found_of;
use crate::healing::push_healed;
use crate::load::{Load, share};
use crate::messages::push_messages;
use crate::queues::queues_are_known;
use crate::reason::Reason;
use crate::silence::silence_line;
use crate::unequal::push_unequal;
use crate::watch::watch_all;
use std::alloc::{AllocError, Global};
use wl_margin::Hundredths;
use wl_plan::CheckedPlan;
use wl_respond::{Waits, waits_of_bus};
use wl_serial::Counted;
use wl_setup::{Bus, Names, PlanText};
use wl_views::Tick;

/// The traffic of a run.
#[derive(Drop)]
pub struct Traffic {
    /// The whole text.
    pub text: String,
    /// Why the run didn't work, as the last line has it.
    pub reason: Reason,
}

/// Adds the line of the bus.
fn push_bus(text: &mut String, tick: Tick, end: u64, bus: Load) -> Result<(), AllocError>
    ensures { OnOk result (GrowsBy text.old text.new (bus_line tick end bus)) }
{
    let load = Hundredths(u128::from(share(bus.busy, end)));
    let gap = microseconds_of(tick, bus.gap);
    writeln!(text, "bus load {load} % gap {gap} us")
}

/// Adds the line of the reason.
fn push_reason(text: &mut String, reason: Reason) -> Result<(), AllocError>
    ensures { OnOk result (GrowsBy text.old text.new (verdict_words reason)) }
{
    let word = reason.word();
    writeln!(text, "verdict {word}")
}

/// What the text has beside its run: bounds of waits, and what is proved after a silence.
#[derive(Drop)]
struct Beside {
    waits: Option<Waits>,
    silence: String,
}

/// Returns the traffic of a plan's simulation, with these lines beside it.
fn traffic_with(
    alloc: Global,
    tick: Tick,
    plan: &CheckedPlan,
    names: &Names,
    counted: &Counted,
    beside: &Beside,
) -> Result<Traffic, AllocError>
    requires counted { counted.now ≡ counted_of (outcome_of plan.now) }
    requires lines { IfSome beside.now.waits (λ w. length w.asked ≡ length w.lines) }
    ensures text { IfOk result (λ t. string_bytes t.text ≡ bounded_text tick plan.now names.now beside.now.waits
        (string_bytes beside.now.silence)) }
    ensures reason { IfOk result (λ t. t.reason ≡ reason_of plan.now) }
{
    let seen = watch_all(alloc, plan, counted)?;
    queues_are_known(plan);
    let queues = &seen.queues;
    let found = found_of(alloc, seen.bus, queues.as_slice(), &counted.totals)?;
    let mut text = String::new(alloc);
    push_bus(&mut text, tick, plan.end, found.load)?;
    push_messages(alloc, &mut text, tick, plan, names, queues.as_slice())?;
    push_bounds(&mut text, names, &beside.waits)?;
    push_unequal(&mut text, names, found.unequal.as_slice())?;
    push_healed(&mut text, tick, plan, queues.as_slice(), found.reason)?;
    text.push_str(beside.silence.as_str())?;
    push_causes(&mut text, tick, names, &found, counted.totals.as_slice())?;
    push_reason(&mut text, found.reason)?;
    let reason = found.reason;
    Ok(Traffic { text, reason })
}

/// Returns the traffic of a plan's simulation, in which this was counted, under these names of its nodes. A tick takes as long as `tick` says.
///
/// The first line says for which share of the time the bus was busy, and for how long it wasn't at most. Then follows a line for each
/// identifier of each node. It has how many frames were sent and are left, and how many waited at once at most. It has how many attempts
/// lost the arbitration and broke off at an error, and how long the sent ones waited. Then follows a line for each node that misses frames of a
/// message, or has taken some twice. If something disturbs, a line says how soon the bus is clean again. The last line says why the run didn't work, or that it did. Before it is a line for each message that is
/// late, or for each node that is deaf, if the reason is that. Refused out of memory alone.
pub fn traffic_of(
    alloc: Global,
    tick: Tick,
    plan: &CheckedPlan,
    names: &Names,
    counted: &Counted,
) -> Result<Traffic, AllocError>
    requires counted { counted.now ≡ counted_of (outcome_of plan.now) }
    ensures text { IfOk result (λ t. string_bytes t.text ≡ traffic_text tick plan.now names.now) }
    ensures reason { IfOk result (λ t. t.reason ≡ reason_of plan.now) }
{
    let beside = Beside {
        waits: None,
        silence: String::new(alloc),
    };
    traffic_with(alloc, tick, plan, names, counted, &beside)
}

/// Returns the traffic of the simulation of a bus's plan, in which this was counted. It is the text of [`traffic_of`]. After the lines of messages it
/// has a line for each message that comes again, with the longest time that it waits on any run, if that is proved. If something disturbs, a line
/// says from which tick on it is proved that the bus is clean, whatever comes then, or why it isn't. The bus is that of the plan's text. Refused
/// out of memory alone.
pub fn traffic_of_bus(
    alloc: Global,
    tick: Tick,
    plain: &PlanText,
    bus: &Bus,
    counted: &Counted,
) -> Result<Traffic, AllocError>
    requires deviations { length bus.now.deviations ≡ length bus.now.plan.nodes }
    requires counted { counted.now ≡ counted_of (outcome_of bus.now.plan) }
    ensures text { IfOk result (λ t. IsTrafficOfBus tick plain.now bus.now (string_bytes t.text)) }
    ensures reason { IfOk result (λ t. t.reason ≡ reason_of bus.now.plan) }
{
    let picoseconds = tick.picoseconds();
    let waits = waits_of_bus(alloc, picoseconds, plain, bus)?;
    let silence = silence_line(alloc, picoseconds, bus, &counted.drives)?;
    let beside = Beside { waits, silence };
    traffic_with(alloc, tick, &bus.plan, &bus.names, counted, &beside)
}
