//! Whether the condition for a sound bus holds, as the first line of a margin says.
ghost use Rattle.std.specs.Prelude.{◌≡◌, IfOk, length};
ghost use Rattle.wl_margin.specs.Margins.{family_asked, verdict_asked};
ghost use Rattle.wl_engines.specs.Holding.{asked_by, holds_by, holds_for, is_held};

use std::alloc::{AllocError, Global};
use wl_bound::{Family, Verdict, judge, judge_all};
use wl_margin::{Asked, first_stray, oscillators};
use wl_plan::CheckedPlan;
use wl_setup::Bus;

/// Returns who is asked about: the plan's senders, or, if `all_send`, all nodes that don't only listen.
pub(crate) fn asked_by(all_send: bool) -> Asked
    ensures { result ≡ asked_by all_send }
{
    if all_send {
        Asked::AllNodes
    } else {
        Asked::ThisPlan
    }
}

/// Returns the family that is asked about.
fn family_asked(alloc: Global, asked: Asked, family: Family) -> Result<Family, AllocError>
    ensures family { IfOk result (λ other. other ≡ family_asked asked family) }
    ensures members { IfOk result (λ other. length other.members ≡ length family.members) }
{
    match asked {
        Asked::ThisPlan => Ok(family),
        Asked::AllNodes => {
            if family.nodes() < 2 {
                return Ok(family);
            }
            family.all_sending(alloc)
        }
    }
}

/// Returns the verdict on those who are asked about.
fn verdict_asked(asked: Asked, plan: &CheckedPlan, family: &Family) -> Verdict
    ensures { result ≡ verdict_asked asked plan.now family.now }
{
    match asked {
        Asked::ThisPlan => judge(plan, family),
        Asked::AllNodes => judge_all(plan, family),
    }
}

/// True if a verdict says that the condition holds.
fn holds_by(verdict: Verdict) -> bool
    ensures { result ≡ holds_by verdict }
{
    match verdict {
        Verdict::ForAny | Verdict::ForOne => true,
        Verdict::DoesNotHold(_) | Verdict::NoBound(_) => false,
    }
}

/// True if each clock keeps to its tolerance, and the condition holds for a family.
fn family_holds(asked: Asked, bus: &Bus, family: &Family) -> bool
    requires deviations { length bus.now.deviations ≡ length bus.now.plan.nodes }
    requires members { length family.now.members ≡ length bus.now.plan.nodes }
    ensures { result ≡ holds_for asked bus.now.deviations bus.now.plan family.now }
{
    match first_stray(bus.deviations.as_slice(), &bus.plan, family) {
        Some(_) => false,
        None => holds_by(verdict_asked(asked, &bus.plan, family)),
    }
}

/// Returns whether the margin of a bus begins with 'holds', for those who are asked about.
pub(crate) fn bus_holds(alloc: Global, asked: Asked, bus: &Bus) -> Result<bool, AllocError>
    requires { length bus.now.deviations ≡ length bus.now.plan.nodes }
    ensures { IfOk result (λ holds. holds ≡ is_held asked bus.now) }
{
    match oscillators(alloc, bus.deviations.as_slice())? {
        Some(oscillators) => {
            let own = Family::of_plan(alloc, &bus.plan, oscillators.as_slice())?;
            let judged = family_asked(alloc, asked, own)?;
            Ok(family_holds(asked, bus, &judged))
        }
        None => Ok(false),
    }
}
