//! How much a bus has to spare, and which change gives most.
ghost use Rattle.std.specs.Prelude.{◌≡◌, ◌<◌, true, length, IfOk, None, Some};
ghost use Rattle.std.specs.Prelude.{IfSome, option_map};
ghost use Rattle.wl_bound.specs.Families.{family_of};
ghost use Rattle.wl_bound.specs.Searches.{IsLongerCable, cable_ticks};
ghost use Rattle.wl_bound.specs.declared.condition.Senders.TheVariants.{Any};
ghost use Rattle.wl_bound.specs.declared.search.Growth.TheVariants.{Longer, Wider};
ghost use Rattle.wl_margin.specs.Margins.{IsProvedGrowth, paces_of};
ghost use Rattle.wl_margin.specs.Standings.{standing_of};
ghost use Rattle.wl_judge.specs.Measures.{AreProvedReserves, AreReserves, AreReservesBy, IsBestOf, IsUnit, IsMeasured, IsMeasureBy, IsMeasureOf, IsTried, best_measure, better_of, is_better, is_more, standing_rank, surety_rank};

use crate::trial::{Trial, changed_plan, tried_deviations};
use std::alloc::{AllocError, Global};
use wl_bound::{Family, Growth, Oscillator, Senders};
use wl_level::Listed;
use wl_margin::{Standing, Surety, bus_standing, oscillators};
use wl_plan::CheckedPlan;
use wl_setup::Deviation;

/// How much a bus has to spare.
#[derive(Clone, Copy, Debug, PartialEq, Eq)]
pub struct Measure {
    /// What the first line of its margin says.
    pub standing: Standing,
    /// By how many units of length the cable may be longer, for the senders for which the condition holds.
    pub longer: Option<u32>,
    /// The ticks of a unit of length, if the cable may be longer; else 0.
    pub per: u32,
    /// By how many ppm every tolerance may be wider.
    pub wider: Option<u32>,
}

/// A change that gives more, and how much the bus has to spare then.
#[derive(Clone, Copy, Debug, PartialEq, Eq)]
pub struct Found {
    /// The change.
    pub trial: Trial,
    /// What the bus has to spare.
    pub measure: Measure,
}

/// Returns how many ticks a level takes along a unit of length of a cable that has a length.
fn unit_ticks(family: &Family) -> u32
    requires length { 0 < cable_ticks family.now }
    ensures { result ≡ family.now.cable.per }
{
    match family.cable_growth() {
        Growth::Longer(_, per) => per,
        Growth::Wider => 0,
    }
}

/// Returns the ticks of a unit of length of a cable that may be longer by this many; 0 if it may not.
fn unit_of(family: &Family, senders: Senders, longer: Option<u32>) -> u32
    requires { IsLongerCable family.now senders longer }
    ensures { IsUnit family.now longer result }
{
    match longer {
        None => 0,
        Some(_) => unit_ticks(family),
    }
}

/// Returns by how much a bus may grow for these senders.
fn reserves(family: &Family, standing: Standing, senders: Senders) -> Measure
    ensures standing { result.standing ≡ standing }
    ensures reserves { AreReserves family.now senders result }
{
    let longer = family.longer_cable(senders);
    Measure {
        standing,
        longer,
        per: unit_of(family, senders, longer),
        wider: family.wider_tolerance(senders),
    }
}

/// Returns how much longer the cable may be and stay proved, up to this many units.
fn proved_longer(family: &Family, most: Option<u32>) -> Option<u32>
    requires { IsLongerCable family.now Any most }
    ensures { IsProvedGrowth true family.now (Longer (cable_ticks family.now) family.now.cable.per) most result }
{
    match most {
        Some(most) => family.roomy_growth(family.cable_growth(), most),
        None => None,
    }
}

/// Returns how much wider every tolerance may be and stay proved, up to this many ppm.
fn proved_wider(family: &Family, most: Option<u32>) -> Option<u32>
    ensures { IsProvedGrowth true family.now Wider most result }
{
    match most {
        Some(most) => family.roomy_growth(Growth::Wider, most),
        None => None,
    }
}

/// Returns by how much a bus may grow that is proved for any senders, and stay proved.
fn proved_reserves(family: &Family, standing: Standing) -> Measure
    ensures standing { result.standing ≡ standing }
    ensures reserves { AreProvedReserves family.now result }
{
    let longer = family.longer_cable(Senders::Any);
    let wider = family.wider_tolerance(Senders::Any);
    Measure {
        standing,
        longer: proved_longer(family, longer),
        per: unit_of(family, Senders::Any, longer),
        wider: proved_wider(family, wider),
    }
}

/// Returns by how much a bus may grow for which the condition holds for any senders.
fn reserves_by(family: &Family, standing: Standing, surety: Surety) -> Measure
    ensures standing { result.standing ≡ standing }
    ensures reserves { AreReservesBy family.now surety result }
{
    match surety {
        Surety::ProvedForAny => proved_reserves(family, standing),
        Surety::ProvedForOne => reserves(family, standing, Senders::Any),
        Surety::Searched => reserves(family, standing, Senders::Any),
    }
}

/// Returns the measure of a bus that isn't asked how much it may grow.
fn no_reserves(standing: Standing) -> Measure
    ensures { result ≡ record { standing = standing; longer = None; per = 0; wider = None } }
{
    Measure {
        standing,
        longer: None,
        per: 0,
        wider: None,
    }
}

/// Returns how much a bus has to spare whose margin says this first.
pub(crate) fn measured(family: &Family, standing: Standing) -> Measure
    ensures { IsMeasured family.now standing result }
{
    match standing {
        Standing::Astray(_) => no_reserves(standing),
        Standing::AnySenders(surety) => reserves_by(family, standing, surety),
        Standing::OneSender(_) => reserves(family, standing, Senders::One),
        Standing::Fails(_) => no_reserves(standing),
        Standing::Unbound(_) => no_reserves(standing),
    }
}

/// Returns how much is said, by how sure it is.
fn surety_rank(surety: Surety) -> u8
    ensures { result ≡ surety_rank surety }
{
    match surety {
        Surety::ProvedForAny => 4,
        Surety::ProvedForOne => 3,
        Surety::Searched => 2,
    }
}

/// Returns how much a margin says of a bus.
fn standing_rank(standing: Standing) -> u8
    ensures { result ≡ standing_rank standing }
{
    match standing {
        Standing::Astray(_) => 0,
        Standing::AnySenders(surety) => surety_rank(surety),
        Standing::OneSender(_) => 1,
        Standing::Fails(_) => 0,
        Standing::Unbound(_) => 0,
    }
}

/// True if a number is greater than another, or equal and then something else holds.
fn is_more(a: u32, b: u32, other: bool) -> bool
    ensures { result ≡ is_more a b other }
{
    b < a || (a == b && other)
}

/// True if a measure is better than another: more is said of the bus; of the same the cable may be longer, and then the tolerances wider.
fn is_better(measure: Measure, other: Measure) -> bool
    ensures { result ≡ is_better measure other }
{
    let wider = other.wider.unwrap_or(0) < measure.wider.unwrap_or(0);
    let longer = is_more(
        measure.longer.unwrap_or(0),
        other.longer.unwrap_or(0),
        wider,
    );
    is_more(
        standing_rank(measure.standing) as u32,
        standing_rank(other.standing) as u32,
        longer,
    )
}

/// Returns the measure that a change has to beat.
fn best_measure(base: Measure, best: Option<Found>) -> Measure
    ensures { result ≡ best_measure base best }
{
    match best {
        None => base,
        Some(found) => found.measure,
    }
}

/// Returns the best change after one more was tried.
fn better_of(
    base: Measure,
    best: Option<Found>,
    trial: Trial,
    found: Option<Measure>,
) -> Option<Found>
    ensures { result ≡ better_of base best trial found }
{
    match found {
        None => best,
        Some(measure) => {
            if is_better(measure, best_measure(base, best)) {
                Some(Found { trial, measure })
            } else {
                best
            }
        }
    }
}

/// Returns the family of a plan with these oscillators of its nodes.
pub(crate) fn family_with(
    alloc: Global,
    plan: &CheckedPlan,
    deviations: &[Deviation],
    all: &[Oscillator],
) -> Result<Family, AllocError>
    requires paces { paces_of deviations.now ≡ Some all.now }
    requires deviations { length deviations.now ≡ length plan.now.nodes }
    ensures family { IfOk result (λ f. f ≡ family_of plan.now all.now) }
    ensures members { IfOk result (λ f. length f.members ≡ length plan.now.nodes) }
{
    Family::of_plan(alloc, plan, all)
}

/// Returns how much the bus of a plan has to spare whose nodes have these oscillators.
fn measure_with(
    alloc: Global,
    all: &[Oscillator],
    deviations: &[Deviation],
    plan: &CheckedPlan,
) -> Result<Measure, AllocError>
    requires paces { paces_of deviations.now ≡ Some all.now }
    requires deviations { length deviations.now ≡ length plan.now.nodes }
    ensures { IfOk result (IsMeasured (family_of plan.now all.now)
        (standing_of deviations.now plan.now (family_of plan.now all.now))) }
{
    let family = family_with(alloc, plan, deviations, all)?;
    let first = bus_standing(plan, deviations, &family);
    Ok(measured(&family, first))
}

/// Returns how much the bus of a plan has to spare, with these oscillators of its nodes, if there are such.
fn measure_by(
    alloc: Global,
    oscillators: Option<Listed<Oscillator>>,
    deviations: &[Deviation],
    plan: &CheckedPlan,
) -> Result<Option<Measure>, AllocError>
    requires paces { oscillators ≡ paces_of deviations.now }
    requires deviations { length deviations.now ≡ length plan.now.nodes }
    ensures { IfOk result (λ found. IsMeasureBy oscillators deviations.now plan.now found) }
{
    match oscillators {
        None => Ok(None),
        Some(all) => Ok(Some(measure_with(alloc, all.as_slice(), deviations, plan)?)),
    }
}

/// Returns how much the bus of a plan has to spare, if there is one.
fn measure_of(
    alloc: Global,
    deviations: &[Deviation],
    plan: Option<&CheckedPlan>,
) -> Result<Option<Measure>, AllocError>
    requires deviations { IfSome plan (λ p. length deviations.now ≡ length p.now.nodes) }
    ensures { IfOk result (λ found. IsMeasureOf deviations.now (option_map (λ p. p.now) plan.entry) found) }
{
    match plan {
        None => Ok(None),
        Some(plan) => measure_by(alloc, oscillators(alloc, deviations)?, deviations, plan),
    }
}

/// Returns how much a bus has to spare after a change, if the change isn't refused.
fn tried(
    alloc: Global,
    deviations: &[Deviation],
    plan: &CheckedPlan,
    trial: Trial,
) -> Result<Option<Measure>, AllocError>
    requires deviations { length deviations.now ≡ length plan.now.nodes }
    ensures { IfOk result (λ found. IsTried deviations.now plan.now trial found) }
{
    if trial.node >= plan.nodes() {
        return Ok(None);
    }
    let changed = tried_deviations(alloc, trial, deviations)?;
    let plan = changed_plan(alloc, trial, deviations, plan)?;
    measure_of(alloc, changed.as_slice(), plan.as_ref())
}

/// Returns the best of some changes, if one gives more than the best so far.
pub(crate) fn best_of(
    alloc: Global,
    deviations: &[Deviation],
    plan: &CheckedPlan,
    base: Measure,
    trials: &[Trial],
    best: Option<Found>,
) -> Result<Option<Found>, AllocError>
    requires deviations { length deviations.now ≡ length plan.now.nodes }
    ensures { IfOk result (λ found. IsBestOf deviations.now plan.now base trials.now best found) }
{
    match trials {
        [] => Ok(best),
        [trial, later @ ..] => {
            let found = tried(alloc, deviations, plan, *trial)?;
            let more = better_of(base, best, *trial, found);
            best_of(alloc, deviations, plan, base, later, more)
        }
    }
}
