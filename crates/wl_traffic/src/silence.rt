//! What is proved of a bus after the silence of its run, or why nothing is.
ghost use Rattle.std.specs.Prelude.{◌≡◌, ◌++◌, ◌<◌, ◌^◌, Some, string_bytes, length, option_map, IfOk, OnOk};
ghost use Rattle.wl_level.specs.Places.{first_place};
ghost use Rattle.wl_bound.specs.Families.{family_of};
ghost use Rattle.wl_margin.specs.Margins.{paces_of};
ghost use Rattle.wl_margin.specs.Paces.{is_turning};
ghost use Rattle.wl_margin.specs.Reasons.{first_leaver};
ghost use Rattle.wl_margin.specs.Standings.{IsInside, standing_of};
ghost use Rattle.wl_report.specs.Lines.{GrowsBy};
ghost use Rattle.wl_serial.specs.Outcome.{drives_of, outcome_of};
ghost use Rattle.wl_calm.specs.declared.calm.Calm.{Calm};
ghost use Rattle.wl_calm.specs.Calms.{IsCalm};
ghost use Rattle.wl_traffic.specs.Silence.{IsFamilyLine, IsSilenceLine, calm_line, clean_line, is_cleaned, is_for_any, is_mended, lack_line, leaver_after, leaver_line, margin_lead, mend_line, silence_end, unfit_line};

use std::alloc::{AllocError, Global};
use wl_bound::{Family, Oscillator, all_speak};
use wl_calm::{Calm, calm_of, silence_ticks};
use wl_level::Listed;
use wl_margin::{
    Asked, Standing, bus_standing, first_leaver, first_turning, oscillators, push_any_failure,
    push_any_reason, push_standing_reasons,
};
use wl_plan::CheckedPlan;
use wl_serial::Drives;
use wl_setup::Bus;

/// Returns the tick by which a silence from this tick on has its 36 bits of each node.
fn silence_end(plan: &CheckedPlan, from: u64) -> u128
    ensures { result ≡ silence_end plan.now from }
{
    u128::from(from) + silence_ticks(plan) + 1
}

/// Adds from which tick on the bus is clean, by the law.
fn push_clean(text: &mut String, from: u64, until: u128) -> Result<(), AllocError>
    ensures { OnOk result (GrowsBy text.old text.new (clean_line from until)) }
{
    writeln!(
        text,
        "clean from tick {until} on, after a silence from tick {from} on, proved: a_silent_run_speaks_for_each_plan"
    )
}

/// Adds which node isn't error active at the end of the run.
fn push_unfit(text: &mut String, a: &str) -> Result<(), AllocError>
    ensures { OnOk result (GrowsBy text.old text.new (unfit_line a.now)) }
{
    writeln!(
        text,
        "not proved clean: {a} is error passive or bus off at the end"
    )
}

/// Adds which node leaves the bus.
fn push_leaver(text: &mut String, a: &str) -> Result<(), AllocError>
    ensures { OnOk result (GrowsBy text.old text.new (leaver_line a.now)) }
{
    writeln!(text, "not proved: {a} leaves the bus")
}

/// True if `margin` says that a bus holds for any senders.
fn is_for_any(standing: Standing) -> bool
    ensures { result ≡ is_for_any standing }
{
    match standing {
        Standing::AnySenders(_) => true,
        Standing::OneSender(_) | Standing::Astray(_) | Standing::Fails(_) | Standing::Unbound(_) =>
            false,
    }
}

/// True if a bus has what the law on a silence asks beside that.
fn is_mended(bus: &Bus, family: &Family) -> bool
    requires deviations { length bus.now.deviations ≡ length bus.now.plan.nodes }
    ensures { result ≡ is_mended bus.now.deviations bus.now.plan family.now }
{
    first_turning(bus.deviations.as_slice(), &bus.plan).is_none()
        && all_speak(&bus.plan)
        && first_leaver(&bus.plan).is_none()
        && family.leaves_room()
}

/// True if the law covers a bus after a silence whose margin says this first.
fn is_cleaned(bus: &Bus, family: &Family, standing: Standing) -> bool
    requires deviations { length bus.now.deviations ≡ length bus.now.plan.nodes }
    requires standing { standing ≡ standing_of bus.now.deviations bus.now.plan family.now }
    ensures { result ≡ is_cleaned bus.now.deviations bus.now.plan family.now }
{
    is_for_any(standing) && is_mended(bus, family)
}

/// Returns the first node that leaves the bus, if no clock with several rates is named before it.
fn leaver_named(bus: &Bus) -> Option<u8>
    requires deviations { length bus.now.deviations ≡ length bus.now.plan.nodes }
    ensures { result ≡ leaver_after (first_place (is_turning bus.now.deviations) (length bus.now.plan.nodes))
        (first_leaver bus.now.plan) }
{
    match first_turning(bus.deviations.as_slice(), &bus.plan) {
        Some(_) => None,
        None => first_leaver(&bus.plan),
    }
}

/// Adds what the law lacks of a bus that holds for any senders.
fn push_mend(text: &mut String, tick: u64, bus: &Bus, family: &Family) -> Result<(), AllocError>
    requires tick { tick < 2 ^ 36 }
    requires deviations { length bus.now.deviations ≡ length bus.now.plan.nodes }
    ensures { OnOk result (GrowsBy text.old text.new (mend_line tick bus.now family.now (leaver_after
        (first_place (is_turning bus.now.deviations) (length bus.now.plan.nodes)) (first_leaver bus.now.plan)))) }
{
    match leaver_named(bus) {
        Some(i) => push_leaver(text, bus.names.name_of(i as usize)),
        None => push_any_reason(text, Asked::AllNodes, bus, family, tick),
    }
}

/// Adds what a bus lacks whose margin says this first.
fn push_lack(
    text: &mut String,
    tick: u64,
    bus: &Bus,
    family: &Family,
    standing: Standing,
) -> Result<(), AllocError>
    requires tick { tick < 2 ^ 36 }
    requires deviations { length bus.now.deviations ≡ length bus.now.plan.nodes }
    requires members { length family.now.members ≡ length bus.now.plan.nodes }
    requires inside { IsInside (length bus.now.plan.nodes) standing }
    ensures { OnOk result (GrowsBy text.old text.new (lack_line tick bus.now family.now standing)) }
{
    match standing {
        Standing::AnySenders(_) => push_mend(text, tick, bus, family),
        Standing::OneSender(_) => push_any_failure(text, family, &bus.names, tick),
        Standing::Astray(_) => push_standing_reasons(text, bus, family, tick, standing),
        Standing::Fails(_) => push_standing_reasons(text, bus, family, tick, standing),
        Standing::Unbound(_) => push_standing_reasons(text, bus, family, tick, standing),
    }
}

/// Adds what the run of a bus shows that the law covers.
fn push_calm(text: &mut String, bus: &Bus, calm: Calm) -> Result<(), AllocError>
    ensures { OnOk result (GrowsBy text.old text.new (calm_line bus.now calm)) }
{
    match calm {
        Calm::Silent(from) => push_clean(text, from, silence_end(&bus.plan, from)),
        Calm::Unfit(i) => push_unfit(text, bus.names.name_of(i)),
        Calm::Busy => text.push_str(
            "not proved clean: no silence of 36 bits follows the disturbances\n",
        ),
    }
}

/// Returns the line of a bus that the law covers.
fn calm_text(alloc: Global, bus: &Bus, drives: &Drives) -> Result<String, AllocError>
    requires drives { drives.now ≡ drives_of (outcome_of bus.now.plan) }
    ensures { IfOk result (λ text. (calm : Calm) × IsCalm bus.now.plan calm
        × (string_bytes text ≡ calm_line bus.now calm)) }
{
    let calm = calm_of(alloc, &bus.plan, drives)?;
    let mut text = String::new(alloc);
    push_calm(&mut text, bus, calm)?;
    Ok(text)
}

/// Returns the line of a bus that the law doesn't cover.
fn lack_text(
    alloc: Global,
    tick: u64,
    bus: &Bus,
    family: &Family,
    standing: Standing,
) -> Result<String, AllocError>
    requires tick { tick < 2 ^ 36 }
    requires deviations { length bus.now.deviations ≡ length bus.now.plan.nodes }
    requires members { length family.now.members ≡ length bus.now.plan.nodes }
    requires inside { IsInside (length bus.now.plan.nodes) standing }
    ensures { IfOk result (λ text. string_bytes text ≡ margin_lead ++ lack_line tick bus.now family.now standing) }
{
    let mut text = String::from_str(alloc, "not proved clean; margin: ")?;
    push_lack(&mut text, tick, bus, family, standing)?;
    Ok(text)
}

/// Returns the line of a bus with this family.
fn family_line(
    alloc: Global,
    tick: u64,
    bus: &Bus,
    family: &Family,
    drives: &Drives,
) -> Result<String, AllocError>
    requires tick { tick < 2 ^ 36 }
    requires deviations { length bus.now.deviations ≡ length bus.now.plan.nodes }
    requires members { length family.now.members ≡ length bus.now.plan.nodes }
    requires drives { drives.now ≡ drives_of (outcome_of bus.now.plan) }
    ensures { IfOk result (λ text. IsFamilyLine tick bus.now (Some family.now) (string_bytes text)) }
{
    let standing = bus_standing(&bus.plan, bus.deviations.as_slice(), family);
    if is_cleaned(bus, family, standing) {
        return calm_text(alloc, bus, drives);
    }
    lack_text(alloc, tick, bus, family, standing)
}

/// Returns the family of a bus whose nodes have these oscillators.
fn family_with(alloc: Global, bus: &Bus, all: &[Oscillator]) -> Result<Family, AllocError>
    requires paces { paces_of bus.now.deviations ≡ Some all.now }
    requires deviations { length bus.now.deviations ≡ length bus.now.plan.nodes }
    ensures family { IfOk result (λ f. f ≡ family_of bus.now.plan all.now) }
    ensures members { IfOk result (λ f. length f.members ≡ length bus.now.plan.nodes) }
{
    Family::of_plan(alloc, &bus.plan, all)
}

/// Returns the line of a disturbed bus with these oscillators.
fn line_by(
    alloc: Global,
    tick: u64,
    bus: &Bus,
    drives: &Drives,
    oscillators: Option<Listed<Oscillator>>,
) -> Result<String, AllocError>
    requires tick { tick < 2 ^ 36 }
    requires deviations { length bus.now.deviations ≡ length bus.now.plan.nodes }
    requires drives { drives.now ≡ drives_of (outcome_of bus.now.plan) }
    requires paces { oscillators ≡ paces_of bus.now.deviations }
    ensures { IfOk result (λ text. IsFamilyLine tick bus.now (option_map (family_of bus.now.plan) oscillators)
        (string_bytes text)) }
{
    match oscillators {
        Some(all) => {
            let family = family_with(alloc, bus, all.as_slice())?;
            family_line(alloc, tick, bus, &family, drives)
        }
        None => String::from_str(
            alloc,
            "not proved clean; margin: no bound is known: without its ppm a quantum takes less than a tick or more than 1,048,576\n",
        ),
    }
}

/// Returns what is proved of a bus after the silence of its run, or why nothing is, a line, if something disturbs. A tick takes `tick`
/// picoseconds, and the nodes change their drives at these ticks.
pub(crate) fn silence_line(
    alloc: Global,
    tick: u64,
    bus: &Bus,
    drives: &Drives,
) -> Result<String, AllocError>
    requires tick { tick < 2 ^ 36 }
    requires deviations { length bus.now.deviations ≡ length bus.now.plan.nodes }
    requires drives { drives.now ≡ drives_of (outcome_of bus.now.plan) }
    ensures { IfOk result (λ text. IsSilenceLine tick bus.now (string_bytes text)) }
{
    if bus.plan.disturbances.is_empty() {
        return Ok(String::new(alloc));
    }
    let all = oscillators(alloc, bus.deviations.as_slice())?;
    line_by(alloc, tick, bus, drives, all)
}
