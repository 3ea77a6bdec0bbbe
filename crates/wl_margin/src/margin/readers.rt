//! What the first line of a bus's margin says, for programs.
ghost use Rattle.std.specs.Prelude.{◌≡◌, ℕ, ◌++◌, ◌<◌, ◌^◌, string_bytes, length, OnOk};
ghost use Rattle.wl_margin.specs.Margins.{spare_of};
ghost use Rattle.wl_margin.specs.Standings.{IsInside, standing_by, standing_of, standing_reasons, surety_of};

use crate::margin::{
    Proved, push_any_failure, push_any_reason, push_failure_line, push_one_reason, push_outside,
    spare,
};
use crate::paces::{any_turning, first_stray, stray_at};
use crate::reasons::{Asked, push_astray};
use std::alloc::AllocError;
use wl_bound::{Failure, Family, Inequality, Outside, Senders, Verdict, is_covered, judge};
use wl_plan::CheckedPlan;
use wl_setup::{Bus, Deviation};

/// How sure it is that a bus works for which the condition holds.
#[derive(Clone, Copy, Debug, PartialEq, Eq)]
pub enum Surety {
    /// It is proved for any senders (`any_senders_are_clean`).
    ProvedForAny,
    /// It is proved for one sender at a time (`one_sender_is_clean`).
    ProvedForOne,
    /// It rests on searches.
    Searched,
}

/// What the first line of a bus's margin says.
#[derive(Clone, Copy, Debug, PartialEq, Eq)]
pub enum Standing {
    /// The clock of this node is outside of its tolerance.
    Astray(u8),
    /// The condition holds for any senders.
    AnySenders(Surety),
    /// It holds for one sender at a time.
    OneSender(Surety),
    /// It doesn't hold, by this failure.
    Fails(Failure),
    /// It says nothing of the plan.
    Unbound(Outside),
}

/// Returns how sure it is, by whom it is proved for.
fn surety_of(any: bool, one: bool) -> Surety
    ensures { result ≡ surety_of any one }
{
    if any {
        Surety::ProvedForAny
    } else if one {
        Surety::ProvedForOne
    } else {
        Surety::Searched
    }
}

/// Returns what a verdict says.
fn standing_by(proved: Proved, verdict: Verdict) -> Standing
    ensures standing { result ≡ standing_by proved verdict }
    ensures inside { (n : ℕ) → IsInside n result }
{
    match verdict {
        Verdict::ForAny => Standing::AnySenders(surety_of(proved.any, proved.one)),
        Verdict::ForOne => Standing::OneSender(surety_of(false, proved.one)),
        Verdict::DoesNotHold(failure) => Standing::Fails(failure),
        Verdict::NoBound(cause) => Standing::Unbound(cause),
    }
}

/// Returns what the first line of the margin of a plan's bus says. The family is the plan's, with the oscillators of these deviations.
pub fn bus_standing(plan: &CheckedPlan, deviations: &[Deviation], family: &Family) -> Standing
    requires deviations { length deviations.now ≡ length plan.now.nodes }
    requires members { length family.now.members ≡ length plan.now.nodes }
    ensures standing { result ≡ standing_of deviations.now plan.now family.now }
    ensures inside { IsInside (length plan.now.nodes) result }
{
    if let Some(i) = first_stray(deviations, plan, family) {
        return Standing::Astray(i);
    }
    let is_abiding = !any_turning(deviations, plan) && is_covered(plan);
    let proved = Proved {
        any: is_abiding && family.leaves_room(),
        one: is_abiding && !family.first_failure(Senders::One).is_some(),
    };
    standing_by(proved, judge(plan, family))
}

/// Adds the lines of a bus's margin that say why it isn't more: no line if it is proved for any senders. The standing is the bus's
/// (`bus_standing`), and a tick takes `tick` picoseconds.
pub fn push_standing_reasons(
    text: &mut String,
    bus: &Bus,
    family: &Family,
    tick: u64,
    standing: Standing,
) -> Result<(), AllocError>
    requires tick { tick < 2 ^ 36 }
    requires deviations { length bus.now.deviations ≡ length bus.now.plan.nodes }
    requires members { length family.now.members ≡ length bus.now.plan.nodes }
    requires inside { IsInside (length bus.now.plan.nodes) standing }
    ensures { OnOk result (string_bytes text.new ≡ string_bytes text.old
        ++ standing_reasons tick bus.now.deviations bus.now.plan bus.now.names family.now standing) }
{
    let names = &bus.names;
    match standing {
        Standing::Astray(i) => push_stray_line(text, bus, family, i),
        Standing::AnySenders(_) => push_any_reason(text, Asked::ThisPlan, bus, family, tick),
        Standing::OneSender(_) => {
            push_one_reason(text, Asked::ThisPlan, bus, family, tick)?;
            push_any_failure(text, family, names, tick)
        }
        Standing::Fails(failure) => {
            push_failure_line(text, family, names, tick, "does not hold: ", failure)
        }
        Standing::Unbound(cause) => push_outside(text, names, cause),
    }
}

/// Adds the line of node `i`, whose clock leaves its tolerance.
fn push_stray_line(text: &mut String, bus: &Bus, family: &Family, i: u8) -> Result<(), AllocError>
    requires deviations { length bus.now.deviations ≡ length bus.now.plan.nodes }
    requires members { length family.now.members ≡ length bus.now.plan.nodes }
    requires node { i < length bus.now.plan.nodes }
    ensures { OnOk result (string_bytes text.new ≡ string_bytes text.old
        ++ standing_reasons 0 bus.now.deviations bus.now.plan bus.now.names family.now (Standing.Astray i)) }
{
    let name = bus.names.name_of(i as usize);
    let oscillator = family.member(i).oscillator;
    let stray = stray_at(bus.deviations.as_slice(), &bus.plan, family, i);
    push_astray(text, name, &oscillator, stray)
}

/// Adds what an inequality leaves to nodes `i` and `j`, as the line of this pair has it: `none` if it isn't asked of them.
pub fn push_spare(
    text: &mut String,
    family: &Family,
    tick: u64,
    senders: Senders,
    inequality: Inequality,
    i: u8,
    j: u8,
) -> Result<(), AllocError>
    requires tick { tick < 2 ^ 36 }
    requires one { i < length family.now.members }
    requires other { j < length family.now.members }
    ensures { OnOk result (string_bytes text.new ≡ string_bytes text.old
        ++ spare_of tick family.now senders inequality i j) }
{
    let rest = spare(family, tick, senders, inequality, i, j);
    write!(text, "{rest}")
}
