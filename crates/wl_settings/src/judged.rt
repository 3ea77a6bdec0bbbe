//! What the condition for a sound bus says of a setting.
ghost use Rattle.std.specs.Prelude.{◌≡◌, IfOk, IfSome, [], ◌∷◌, length, option_map};
ghost use Rattle.wl_bound.specs.Families.{family_of};
ghost use Rattle.wl_settings.specs.Judged.{AreFigures, IsReach, IsRefusalOf, IsRowOf, all_paces, deviation_by, deviations_of, family_at, margin, part, runnable_plan};
ghost use Rattle.wl_settings.specs.Plans.{setting_plan, setting_quantum};

use crate::asked::{Asked, Controller, Setting};
use crate::plan::{quantum_of, setting_plan};
use std::alloc::{AllocError, Global};
use wl_apply::QuantumLength;
use wl_bound::{Failure, Family, Oscillator, Senders};
use wl_clock::Rate;
use wl_level::Listed;
use wl_margin::oscillators;
use wl_plan::CheckedPlan;
use wl_setup::{Deviation, SetupFault, buses_of_plans};

/// How far a bus may grow; `None` if the condition doesn't hold as it is.
#[derive(Clone, Copy, Debug, PartialEq, Eq)]
pub struct Reach {
    /// By how many units of length the cable may be longer.
    pub longer: Option<u32>,
    /// By how many parts per million the tolerance may be wider.
    pub wider: Option<u32>,
}

/// A setting with which the bus works.
#[derive(Clone, Copy, Debug, PartialEq, Eq)]
pub struct WorkingSetting {
    /// The setting.
    pub setting: Setting,
    /// How far the bus may grow if one node sends at a time.
    pub one: Reach,
    /// And if any nodes send.
    pub any: Reach,
    /// The lesser of the parts, in thousandths of what is asked for, by which cable and tolerance may grow.
    pub margin: u64,
}

/// A setting with which the bus doesn't work.
#[derive(Clone, Copy, Debug, PartialEq, Eq)]
pub struct Refusal {
    /// The setting.
    pub setting: Setting,
    /// The first inequality that fails.
    pub failure: Failure,
    /// By how much it fails, in millionths of a tick.
    pub shortage: u128,
}

/// Returns what the clock of a node may do: it deviates from this quantum by at most the tolerance, in parts per million.
fn deviation(alloc: Global, quantum: QuantumLength, tolerance: u32) -> Result<Deviation, AllocError>
    ensures { IfOk result (λ d. d ≡ deviation_by quantum tolerance) }
{
    let mut rates = Listed::new(alloc);
    rates.push(Rate {
        from: 0,
        num: quantum.num as u128,
        den: quantum.den,
    })?;
    Ok(Deviation { rates, tolerance })
}

/// Returns what the clocks of all nodes may do.
fn deviations(
    alloc: Global,
    asked: &Asked,
    quantum: QuantumLength,
) -> Result<Listed<Deviation>, AllocError>
    ensures { IfOk result (λ all. all ≡ deviations_of asked.now quantum) }
{
    let tolerance = asked.tolerance;
    let mut all = Listed::new(alloc);
    all.push(deviation(alloc, quantum, tolerance)?)?;
    all.push(deviation(alloc, quantum, tolerance)?)?;
    if asked.nodes > 2 {
        all.push(deviation(alloc, quantum, tolerance)?)?;
    }
    if asked.nodes > 3 {
        all.push(deviation(alloc, quantum, tolerance)?)?;
    }
    Ok(all)
}

/// Returns the part, in thousandths of what is asked for, by which something may grow.
fn part(asked: u32, growth: Option<u32>) -> u64
    ensures { result ≡ part asked growth }
{
    match growth {
        None => 0,
        Some(n) => n as u64 * 1000 / (asked as u64).max(1),
    }
}

/// Returns the lesser of the parts by which cable and tolerance may grow.
fn margin(asked: &Asked, one: Reach, any: Reach) -> u64
    ensures { result ≡ margin asked.now one any }
{
    let reach = match asked.senders {
        Senders::One => one,
        Senders::Any => any,
    };
    part(asked.cable, reach.longer).min(part(asked.tolerance, reach.wider))
}

/// Returns how far the buses of a family may grow.
fn reach_of(family: &Family, senders: Senders) -> Reach
    ensures { IsReach family.now senders result }
{
    Reach {
        longer: family.longer_cable(senders),
        wider: family.wider_tolerance(senders),
    }
}

/// Returns the row of a setting and its family.
fn row_of(asked: &Asked, setting: Setting, family: &Family) -> WorkingSetting
    ensures setting { result.setting ≡ setting }
    ensures figures { AreFigures asked.now family.now result }
{
    let one = reach_of(family, Senders::One);
    let any = reach_of(family, Senders::Any);
    WorkingSetting {
        setting,
        one,
        any,
        margin: margin(asked, one, any),
    }
}

/// Returns the plan of a setting, if it can be run.
fn checked_plan(
    alloc: Global,
    asked: &Asked,
    clock: u32,
    setting: Setting,
) -> Result<Option<CheckedPlan>, AllocError>
    ensures { IfOk result (λ plan. plan ≡ runnable_plan (setting_plan asked.now clock setting)) }
{
    let text = setting_plan(alloc, asked, clock, setting)?;
    match text.plan(alloc) {
        Ok(plan) => Ok(Some(plan)),
        Err(SetupFault::Memory) => Err(AllocError),
        Err(_) => Ok(None),
    }
}

/// Returns the family of a setting's plan and of oscillators, if these are some.
fn family_with(
    alloc: Global,
    plan: &CheckedPlan,
    oscillators: Option<Listed<Oscillator>>,
) -> Result<Option<Family>, AllocError>
    requires { IfSome oscillators (λ all. length all ≡ length plan.now.nodes) }
    ensures { IfOk result (λ family. family ≡ option_map (family_of plan.now) oscillators) }
{
    match oscillators {
        Some(all) => Ok(Some(Family::of_plan(alloc, plan, all.as_slice())?)),
        None => Ok(None),
    }
}

/// Returns the oscillators of the nodes of a setting's plan, if the rates make clocks.
fn all_oscillators(
    alloc: Global,
    asked: &Asked,
    clock: u32,
    setting: Setting,
) -> Result<Option<Listed<Oscillator>>, AllocError>
    ensures { IfOk result (λ all. all ≡ all_paces asked.now (setting_quantum asked.now clock setting)) }
{
    let quantum = quantum_of(asked, clock, setting);
    let deviations = deviations(alloc, asked, quantum)?;
    oscillators(alloc, deviations.as_slice())
}

/// Returns the family of the plan of a setting, if the plan can be run and its rates make clocks.
fn family_of_setting(
    alloc: Global,
    asked: &Asked,
    clock: u32,
    setting: Setting,
) -> Result<Option<Family>, AllocError>
    ensures { IfOk result (λ family. family ≡ family_at asked.now clock setting) }
{
    buses_of_plans();
    let Some(plan) = checked_plan(alloc, asked, clock, setting)? else {
        return Ok(None);
    };
    let all = all_oscillators(alloc, asked, clock, setting)?;
    family_with(alloc, &plan, all)
}

/// Returns the row of a setting, if the bus works with it.
pub(crate) fn find_row(
    alloc: Global,
    asked: &Asked,
    controller: &Controller,
    setting: Setting,
) -> Result<Option<WorkingSetting>, AllocError>
    ensures { IfOk result (IsRowOf asked.now controller.now setting) }
{
    let family = match family_of_setting(alloc, asked, controller.clock, setting)? {
        Some(family) => family,
        None => return Ok(None),
    };
    if family.first_failure(asked.senders).is_some() {
        return Ok(None);
    }
    Ok(Some(row_of(asked, setting, &family)))
}

/// Returns what refuses a setting, if its plan can be run and its bus doesn't work.
pub(crate) fn find_refusal(
    alloc: Global,
    asked: &Asked,
    controller: &Controller,
    setting: Setting,
) -> Result<Option<Refusal>, AllocError>
    ensures { IfOk result (IsRefusalOf asked.now controller.now setting) }
{
    let family = match family_of_setting(alloc, asked, controller.clock, setting)? {
        Some(family) => family,
        None => return Ok(None),
    };
    match family.first_failure(asked.senders) {
        None => Ok(None),
        Some(failure) => Ok(Some(Refusal {
            setting,
            failure,
            shortage: failure.sides.left.saturating_sub(failure.sides.right),
        })),
    }
}
