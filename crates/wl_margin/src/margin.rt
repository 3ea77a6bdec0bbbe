//! The text of a bus's margin.
ghost use Rattle.std.specs.Prelude.{◌≡◌, ◌++◌, ◌<◌, ◌^◌, false, string_bytes, length, IfOk, OnOk, Some, None, option_map};
ghost use Rattle.wl_topology.specs.Driven.{any_below};
ghost use Rattle.wl_setup.specs.Names.{name_of};
ghost use Rattle.wl_bound.specs.Conditions.{first_failure_of, plain};
ghost use Rattle.wl_bound.specs.Families.{member_at};
ghost use Rattle.wl_bound.specs.declared.condition.Senders.TheVariants.{Any};
ghost use Rattle.wl_bound.specs.declared.verdict.Verdict.TheVariants.{ForAny, ForOne};
ghost use Rattle.wl_margin.specs.Sentences.{failure_words, rest_words};
ghost use Rattle.wl_margin.specs.Paces.{stray_at};
ghost use Rattle.wl_margin.specs.Pieces.{each_below};
ghost use Rattle.wl_margin.specs.Reasons.{cause_words, astray_line};
ghost use Rattle.wl_margin.specs.Margins.{IsAllSendText, IsFamilyText, IsHeadroomFound, IsMarginText, IsTextFor, IsVerdictText, all_pairs, any_failure, any_lead, any_reason, any_word, failure_line, family_asked, bus_family, family_words, is_law_abiding, is_proved, lone_words, mute_words, no_clock_words, one_lead, one_reason, one_word, outside_lead, outside_reason, outside_words, paces_of, pair_line, pair_words, pairs_of, proved_of, sender_words, senders_words, sends_at, shared_words, spare_of, unheard_words, unless_proved, verdict_asked, verdict_words};

mod readers;

use crate::noise::push_noise;
use crate::paces::{any_turning, first_stray, stray_at};
use crate::reasons::{Asked, Cause, any_cause, one_cause, push_astray, push_cause};
use crate::searches::{Headroom, push_results, search};
use crate::sentences::{Rest, Spare, push_failure};
use crate::units::units_at;
pub use readers::{Standing, Surety, bus_standing, push_spare, push_standing_reasons};
use std::alloc::{AllocError, Global};
use wl_bound::{
    Failure, Family, Inequality, Oscillator, Outside, Senders, Verdict, all_speak, is_covered,
    judge, judge_all,
};
use wl_level::Listed;
use wl_plan::CheckedPlan;
use wl_setup::{Bus, Deviation, Names};

/// Returns the oscillators of the nodes, if each has rates that make a clock.
pub fn oscillators(
    alloc: Global,
    deviations: &[Deviation],
) -> Result<Option<Listed<Oscillator>>, AllocError>
    ensures { IfOk result (λ all. all ≡ paces_of deviations.now) }
{
    let mut all = Listed::new(alloc);
    for deviation in deviations {
        match Oscillator::new(deviation.rates.as_slice(), deviation.tolerance) {
            Some(oscillator) => all.push(oscillator)?,
            None => return Ok(None),
        }
    }
    Ok(Some(all))
}

/// Adds the reason of two nodes with frames of one identifier.
fn push_shared(text: &mut String, a: &str, b: &str) -> Result<(), AllocError>
    ensures { OnOk result (string_bytes text.new ≡ string_bytes text.old ++ shared_words a.now b.now) }
{
    writeln!(
        text,
        "{a} and {b} have frames of one identifier, which no arbitration parts"
    )
}

/// Adds the reason of a frame that nobody may acknowledge.
fn push_unheard(text: &mut String, a: &str) -> Result<(), AllocError>
    ensures { OnOk result (string_bytes text.new ≡ string_bytes text.old ++ unheard_words a.now) }
{
    writeln!(
        text,
        "the first frame of {a} becomes ready before any other node is idle, and nobody may acknowledge it"
    )
}

/// Adds the reason of a node that only listens and has frames.
fn push_mute(text: &mut String, a: &str) -> Result<(), AllocError>
    ensures { OnOk result (string_bytes text.new ≡ string_bytes text.old ++ mute_words a.now) }
{
    writeln!(
        text,
        "{a} only listens, and nobody hears the frames that it has"
    )
}

/// Adds the reason of a node whose frames nobody acknowledges.
fn push_lone(text: &mut String, a: &str) -> Result<(), AllocError>
    ensures { OnOk result (string_bytes text.new ≡ string_bytes text.old ++ lone_words a.now) }
{
    writeln!(
        text,
        "all nodes but {a} only listen, and nobody acknowledges its frames"
    )
}

/// Returns what is said of a plan outside of the condition.
fn outside_lead(cause: Outside) -> &'static str
    ensures { result.now ≡ outside_lead cause }
{
    match cause {
        Outside::FewNodes => "does not hold: ",
        Outside::NoFrames => "no bound is known: ",
        Outside::ListenerSends(_) => "does not hold: ",
        Outside::NobodyAcknowledges(_) => "does not hold: ",
        Outside::NotByTheBook(_) => "no bound is known: ",
        Outside::SameIdentifier(_, _) => "does not hold: ",
        Outside::NobodyIdle(_) => "does not hold: ",
    }
}

/// Adds why a plan lies outside of the condition, and ends the line.
pub fn push_reason(text: &mut String, names: &Names, cause: Outside) -> Result<(), AllocError>
    ensures { OnOk result (string_bytes text.new ≡ string_bytes text.old ++ outside_reason names.now cause) }
{
    match cause {
        Outside::FewNodes => text.push_str(
            "there is one node, and nobody acknowledges its frames\n",
        ),
        Outside::NoFrames => text.push_str("no node has a frame to send\n"),
        Outside::ListenerSends(i) => push_mute(text, names.name_of(i as usize)),
        Outside::NobodyAcknowledges(i) => push_lone(text, names.name_of(i as usize)),
        Outside::NotByTheBook(i) => {
            let a = names.name_of(i as usize);
            writeln!(
                text,
                "{a} synchronises after an edge, so it can miss a start of frame or an edge at its sample; for sync = \"book\" one is known"
            )
        }
        Outside::SameIdentifier(i, j) => {
            push_shared(text, names.name_of(i as usize), names.name_of(j as usize))
        }
        Outside::NobodyIdle(i) => { push_unheard(text, names.name_of(i as usize)) }
    }
}

/// Adds what is said of a plan outside of the condition, and why.
fn push_outside(text: &mut String, names: &Names, cause: Outside) -> Result<(), AllocError>
    ensures { OnOk result (string_bytes text.new ≡ string_bytes text.old ++ outside_words names.now cause) }
{
    text.push_str(outside_lead(cause))?;
    push_reason(text, names, cause)
}

/// Returns what is to spare of an inequality for nodes `i` and `j`, if it is asked of them.
fn spare(family: &Family, tick: u64, senders: Senders, inequality: Inequality, i: u8, j: u8) -> Rest
    requires tick { tick < 2 ^ 36 }
    requires one { i < length family.now.members }
    requires other { j < length family.now.members }
    ensures { rest_words result ≡ spare_of tick family.now senders inequality i j }
{
    if !family.is_asked(inequality, i, j) {
        return Rest::NotAsked;
    }
    Rest::Asked(Spare::between(
        units_at(family, tick, i),
        family.sides(senders, inequality, i, j),
    ))
}

/// Adds what is to spare for nodes `i` and `j`.
fn push_pair_line(
    text: &mut String,
    family: &Family,
    names: &Names,
    tick: u64,
    senders: Senders,
    i: u8,
    j: u8,
) -> Result<(), AllocError>
    requires tick { tick < 2 ^ 36 }
    requires one { i < length family.now.members }
    requires other { j < length family.now.members }
    ensures { OnOk result (string_bytes text.new ≡ string_bytes text.old
        ++ pair_line tick family.now names.now senders i j) }
{
    let a = names.name_of(i as usize);
    let b = names.name_of(j as usize);
    let late = spare(family, tick, senders, Inequality::BitIsThereAtSample, i, j);
    let early = spare(family, tick, senders, Inequality::NoBitTooEarly, i, j);
    let drift = spare(family, tick, senders, Inequality::DriftFitsJump, i, j);
    writeln!(
        text,
        "pair {a} {b}: late {late}, early {early}, drift {drift}"
    )
}

/// Adds what is to spare for nodes `i` and `j`, if they aren't one.
fn push_pair(
    text: &mut String,
    family: &Family,
    names: &Names,
    tick: u64,
    senders: Senders,
    i: u8,
    j: u8,
) -> Result<(), AllocError>
    requires tick { tick < 2 ^ 36 }
    requires one { i < length family.now.members }
    requires other { j < length family.now.members }
    ensures { OnOk result (string_bytes text.new ≡ string_bytes text.old
        ++ pair_words tick family.now names.now senders i j) }
{
    if i == j {
        return Ok(());
    }
    push_pair_line(text, family, names, tick, senders, i, j)
}

/// Adds what is to spare for node `i` and each other.
fn push_pairs_of(
    text: &mut String,
    family: &Family,
    names: &Names,
    tick: u64,
    senders: Senders,
    i: u8,
) -> Result<(), AllocError>
    requires tick { tick < 2 ^ 36 }
    requires node { i < length family.now.members }
    ensures { OnOk result (string_bytes text.new ≡ string_bytes text.old
        ++ pairs_of tick family.now names.now senders i) }
{
    for j in 0..family.nodes() {
        push_pair(text, family, names, tick, senders, i, j)?;
    }
    Ok(())
}

/// Adds what is to spare for all pairs.
fn push_pairs(
    text: &mut String,
    family: &Family,
    names: &Names,
    tick: u64,
    senders: Senders,
) -> Result<(), AllocError>
    requires { tick < 2 ^ 36 }
    ensures { OnOk result (string_bytes text.new ≡ string_bytes text.old
        ++ all_pairs tick family.now names.now senders) }
{
    for i in 0..family.nodes() {
        push_pairs_of(text, family, names, tick, senders, i)?;
    }
    Ok(())
}

/// Adds what goes wrong.
fn push_told(
    text: &mut String,
    family: &Family,
    names: &Names,
    tick: u64,
    failure: Failure,
) -> Result<(), AllocError>
    requires { tick < 2 ^ 36 }
    ensures { OnOk result (string_bytes text.new ≡ string_bytes text.old
        ++ failure_words tick family.now names.now failure) }
{
    push_failure(text, units_at(family, tick, failure.node), names, failure)
}

/// Adds some words, after them what goes wrong in the units of a tick of `tick` picoseconds, and ends the line.
pub fn push_failure_line(
    text: &mut String,
    family: &Family,
    names: &Names,
    tick: u64,
    lead: &str,
    failure: Failure,
) -> Result<(), AllocError>
    requires { tick < 2 ^ 36 }
    ensures { OnOk result (string_bytes text.new ≡ string_bytes text.old
        ++ failure_line tick family.now names.now lead.now failure) }
{
    text.push_str(lead)?;
    push_told(text, family, names, tick, failure)?;
    text.push_str("\n")
}

/// Adds why the condition doesn't hold for any senders, a line, if it doesn't. A tick takes `tick` picoseconds.
pub fn push_any_failure(
    text: &mut String,
    family: &Family,
    names: &Names,
    tick: u64,
) -> Result<(), AllocError>
    requires { tick < 2 ^ 36 }
    ensures { OnOk result (string_bytes text.new ≡ string_bytes text.old
        ++ any_failure tick family.now names.now (first_failure_of family.now plain Any)) }
{
    match family.first_failure(Senders::Any) {
        Some(failure) => push_failure_line(text, family, names, tick, "any senders: ", failure),
        None => Ok(()),
    }
}

/// For whom it is proved that the condition suffices, if it holds for them.
#[derive(Clone, Copy, Debug)]
pub(crate) struct Proved {
    /// For any senders.
    any: bool,
    /// For one sender at a time.
    one: bool,
}

/// Returns what is said of a bus that holds for any senders, after their names.
fn any_word(proved: Proved) -> &'static str
    ensures { result.now ≡ any_word proved }
{
    if proved.any {
        ", proved: any_senders_are_clean\n"
    } else if proved.one {
        ", as far as searched; for one sender at a time, proved: one_sender_is_clean\n"
    } else {
        ", as far as searched, not proved\n"
    }
}

/// Returns what is said of a bus that holds for one sender at a time, after their names.
fn one_word(proved: bool) -> &'static str
    ensures { result.now ≡ one_word proved }
{
    if proved {
        ", proved: one_sender_is_clean\n"
    } else {
        ", as far as searched, not proved\n"
    }
}

/// Adds the name of a node that sends, after those of the senders before it.
fn push_sender(
    text: &mut String,
    family: &Family,
    names: &Names,
    i: u8,
    later: bool,
) -> Result<(), AllocError>
    requires node { i < length family.now.members }
    requires later { later ≡ any_below i (sends_at family.now) }
    ensures { OnOk result (string_bytes text.new ≡ string_bytes text.old ++ sender_words family.now names.now i) }
{
    if !family.member(i).sends {
        return Ok(());
    }
    text.push_str(if later { " and " } else { "" })?;
    text.push_str(names.name_of(i as usize))
}

/// Adds the names of the nodes that send.
fn push_senders(text: &mut String, family: &Family, names: &Names) -> Result<(), AllocError>
    ensures { OnOk result (string_bytes text.new ≡ string_bytes text.old ++ senders_words family.now names.now) }
{
    let mut later = false;
    for i in 0..family.nodes() {
        push_sender(text, family, names, i, later)?;
        later = later || family.member(i).sends;
    }
    Ok(())
}

/// Adds what is said of a bus that holds for any senders.
fn push_any_lead(
    text: &mut String,
    family: &Family,
    names: &Names,
    proved: Proved,
) -> Result<(), AllocError>
    ensures { OnOk result (string_bytes text.new ≡ string_bytes text.old
        ++ any_lead (senders_words family.now names.now) proved) }
{
    text.push_str("holds for any senders of ")?;
    push_senders(text, family, names)?;
    text.push_str(any_word(proved))
}

/// Adds what is said of a bus that holds for one sender at a time.
fn push_one_lead(
    text: &mut String,
    family: &Family,
    names: &Names,
    proved: bool,
) -> Result<(), AllocError>
    ensures { OnOk result (string_bytes text.new ≡ string_bytes text.old
        ++ one_lead (senders_words family.now names.now) proved) }
{
    text.push_str("holds for one sender at a time of ")?;
    push_senders(text, family, names)?;
    text.push_str(one_word(proved))
}

/// True if each oscillator has one rate and the laws cover the plan, or plans of its nodes.
fn is_law_abiding(asked: Asked, bus: &Bus) -> bool
    requires deviations { length bus.now.deviations ≡ length bus.now.plan.nodes }
    ensures { result ≡ is_law_abiding asked bus.now.deviations bus.now.plan }
{
    let covered = match asked {
        Asked::ThisPlan => is_covered(&bus.plan),
        Asked::AllNodes => all_speak(&bus.plan),
    };
    !any_turning(bus.deviations.as_slice(), &bus.plan) && covered
}

/// Returns for whom it is proved that the condition suffices, if it holds for them.
fn proved_of(asked: Asked, bus: &Bus, family: &Family) -> Proved
    requires deviations { length bus.now.deviations ≡ length bus.now.plan.nodes }
    ensures { result ≡ proved_of asked bus.now.deviations bus.now.plan family.now }
{
    let is_abiding = is_law_abiding(asked, bus);
    Proved {
        any: is_abiding && family.leaves_room(),
        one: is_abiding && !family.first_failure(Senders::One).is_some(),
    }
}

/// Returns the verdict on those who are asked about.
fn verdict_asked(asked: Asked, plan: &CheckedPlan, family: &Family) -> Verdict
    ensures { result ≡ verdict_asked asked plan.now family.now }
{
    match asked {
        Asked::ThisPlan => judge(plan, family),
        Asked::AllNodes => judge_all(plan, family),
    }
}

/// Adds why it isn't proved, a line, if it isn't.
fn push_unproved(
    text: &mut String,
    bus: &Bus,
    family: &Family,
    tick: u64,
    cause: Cause,
) -> Result<(), AllocError>
    requires tick { tick < 2 ^ 36 }
    ensures { OnOk result (string_bytes text.new ≡ string_bytes text.old
        ++ unless_proved false (cause_words tick family.now bus.now.plan bus.now.names cause)) }
{
    text.push_str("not proved: ")?;
    push_cause(text, family, &bus.plan, &bus.names, tick, cause)?;
    text.push_str("\n")
}

/// Adds why it isn't proved for any senders who are asked about, a line, if it isn't. A tick takes `tick` picoseconds.
pub fn push_any_reason(
    text: &mut String,
    asked: Asked,
    bus: &Bus,
    family: &Family,
    tick: u64,
) -> Result<(), AllocError>
    requires tick { tick < 2 ^ 36 }
    requires deviations { length bus.now.deviations ≡ length bus.now.plan.nodes }
    ensures { OnOk result (string_bytes text.new ≡ string_bytes text.old
        ++ any_reason asked tick bus.now.deviations bus.now.plan bus.now.names family.now) }
{
    if proved_of(asked, bus, family).any {
        return Ok(());
    }
    let cause = any_cause(asked, bus.deviations.as_slice(), &bus.plan, family);
    push_unproved(text, bus, family, tick, cause)
}

/// Adds why it isn't proved for one sender at a time, if it isn't.
fn push_one_reason(
    text: &mut String,
    asked: Asked,
    bus: &Bus,
    family: &Family,
    tick: u64,
) -> Result<(), AllocError>
    requires tick { tick < 2 ^ 36 }
    requires deviations { length bus.now.deviations ≡ length bus.now.plan.nodes }
    ensures { OnOk result (string_bytes text.new ≡ string_bytes text.old
        ++ one_reason asked tick bus.now.deviations bus.now.plan bus.now.names family.now) }
{
    if proved_of(asked, bus, family).one {
        return Ok(());
    }
    let cause = one_cause(asked, bus.deviations.as_slice(), &bus.plan);
    push_unproved(text, bus, family, tick, cause)
}

/// Adds the first lines of a bus that holds for any senders, and what is to spare.
fn push_for_any(
    text: &mut String,
    asked: Asked,
    bus: &Bus,
    family: &Family,
    tick: u64,
) -> Result<(), AllocError>
    requires tick { tick < 2 ^ 36 }
    requires deviations { length bus.now.deviations ≡ length bus.now.plan.nodes }
    ensures { OnOk result (string_bytes text.new ≡ string_bytes text.old
        ++ verdict_words asked tick bus.now.deviations bus.now.plan bus.now.names family.now ForAny) }
{
    let names = &bus.names;
    push_any_lead(text, family, names, proved_of(asked, bus, family))?;
    push_any_reason(text, asked, bus, family, tick)?;
    push_pairs(text, family, names, tick, Senders::Any)
}

/// Adds those of a bus that holds for one sender at a time.
fn push_for_one(
    text: &mut String,
    asked: Asked,
    bus: &Bus,
    family: &Family,
    tick: u64,
) -> Result<(), AllocError>
    requires tick { tick < 2 ^ 36 }
    requires deviations { length bus.now.deviations ≡ length bus.now.plan.nodes }
    ensures { OnOk result (string_bytes text.new ≡ string_bytes text.old
        ++ verdict_words asked tick bus.now.deviations bus.now.plan bus.now.names family.now ForOne) }
{
    let names = &bus.names;
    push_one_lead(text, family, names, proved_of(asked, bus, family).one)?;
    push_one_reason(text, asked, bus, family, tick)?;
    push_any_failure(text, family, names, tick)?;
    push_pairs(text, family, names, tick, Senders::One)
}

/// Adds what the verdict says, and what is to spare.
fn push_verdict(
    text: &mut String,
    asked: Asked,
    bus: &Bus,
    family: &Family,
    tick: u64,
) -> Result<(), AllocError>
    requires tick { tick < 2 ^ 36 }
    requires deviations { length bus.now.deviations ≡ length bus.now.plan.nodes }
    ensures { OnOk result (string_bytes text.new ≡ string_bytes text.old
        ++ family_words asked tick bus.now.deviations bus.now.plan bus.now.names family.now) }
{
    let names = &bus.names;
    match verdict_asked(asked, &bus.plan, family) {
        Verdict::ForAny => push_for_any(text, asked, bus, family, tick),
        Verdict::ForOne => push_for_one(text, asked, bus, family, tick),
        Verdict::DoesNotHold(failure) => {
            push_failure_line(text, family, names, tick, "does not hold: ", failure)?;
            push_pairs(text, family, names, tick, Senders::One)
        }
        Verdict::NoBound(cause) => push_outside(text, names, cause),
    }
}

/// True if it is proved for any senders, and the condition holds for them.
fn is_proved(proved: Proved, verdict: Verdict) -> bool
    ensures { result ≡ is_proved proved verdict }
{
    match verdict {
        Verdict::ForAny => proved.any,
        Verdict::ForOne | Verdict::DoesNotHold(_) | Verdict::NoBound(_) => false,
    }
}

/// The margin of a bus.
#[derive(Drop)]
pub struct Margin {
    /// As text.
    pub text: String,
    /// How much longer the cable may be and how much wider every tolerance, if that was searched: as `push_headroom` asks it.
    pub headroom: Option<(Headroom, Headroom)>,
}

/// Returns the margin of a family whose clocks keep to their tolerances.
fn verdict_margin(
    alloc: Global,
    asked: Asked,
    bus: &Bus,
    family: &Family,
    tick: u64,
) -> Result<Margin, AllocError>
    requires tick { tick < 2 ^ 36 }
    requires deviations { length bus.now.deviations ≡ length bus.now.plan.nodes }
    ensures text { IfOk result (λ m. IsVerdictText asked tick bus.now.deviations bus.now.plan bus.now.names family.now
        (string_bytes m.text)) }
    ensures headroom { IfOk result (λ m. IsHeadroomFound m.headroom (Some family.now)) }
{
    let mut text = String::new(alloc);
    push_verdict(&mut text, asked, bus, family, tick)?;
    let verdict = verdict_asked(asked, &bus.plan, family);
    if let Verdict::NoBound(_) = verdict {
        return Ok(Margin {
            text,
            headroom: None,
        });
    }
    let proved = is_proved(proved_of(asked, bus, family), verdict);
    let found = search(family, proved);
    push_results(&mut text, found)?;
    push_noise(&mut text, family, &bus.names, tick, verdict)?;
    Ok(Margin {
        text,
        headroom: Some(found.headroom()),
    })
}

/// Returns the text of a family if the clock of node `i` leaves its tolerance.
fn stray_text(alloc: Global, bus: &Bus, family: &Family, i: u8) -> Result<String, AllocError>
    requires deviations { length bus.now.deviations ≡ length bus.now.plan.nodes }
    requires members { length family.now.members ≡ length bus.now.plan.nodes }
    requires node { i < length bus.now.plan.nodes }
    ensures { IfOk result (λ text. string_bytes text ≡ astray_line (name_of bus.now.names i) (member_at family.now i).oscillator
        (stray_at bus.now.deviations bus.now.plan family.now i)) }
{
    let mut text = String::new(alloc);
    let name = bus.names.name_of(i as usize);
    let oscillator = family.member(i).oscillator;
    let stray = stray_at(bus.deviations.as_slice(), &bus.plan, family, i);
    push_astray(&mut text, name, &oscillator, stray)?;
    Ok(text)
}

/// Returns the margin of a family.
fn family_margin(
    alloc: Global,
    asked: Asked,
    bus: &Bus,
    family: &Family,
    tick: u64,
) -> Result<Margin, AllocError>
    requires tick { tick < 2 ^ 36 }
    requires deviations { length bus.now.deviations ≡ length bus.now.plan.nodes }
    requires members { length family.now.members ≡ length bus.now.plan.nodes }
    ensures text { IfOk result (λ m. IsFamilyText asked tick bus.now.deviations bus.now.plan bus.now.names family.now
        (string_bytes m.text)) }
    ensures headroom { IfOk result (λ m. IsHeadroomFound m.headroom (Some family.now)) }
{
    match first_stray(bus.deviations.as_slice(), &bus.plan, family) {
        Some(i) => Ok(Margin {
            text: stray_text(alloc, bus, family, i)?,
            headroom: None,
        }),
        None => verdict_margin(alloc, asked, bus, family, tick),
    }
}

/// Returns the family that is asked about.
fn family_asked(alloc: Global, asked: Asked, family: Family) -> Result<Family, AllocError>
    ensures family { IfOk result (λ other. other ≡ family_asked asked family) }
    ensures members { IfOk result (λ other. length other.members ≡ length family.members) }
{
    match asked {
        Asked::ThisPlan => Ok(family),
        Asked::AllNodes => {
            if family.nodes() < 2 {
                return Ok(family);
            }
            family.all_sending(alloc)
        }
    }
}

/// Returns the margin of a bus without clocks.
fn clockless_margin(alloc: Global) -> Result<Margin, AllocError>
    ensures { IfOk result (λ m. (string_bytes m.text ≡ no_clock_words) × (m.headroom ≡ None)) }
{
    let text = String::from_str(
        alloc,
        "no bound is known: without its ppm a quantum takes less than a tick or more than 1,048,576\n",
    )?;
    Ok(Margin {
        text,
        headroom: None,
    })
}

/// Returns the margin for those who are asked about.
fn margin_for(alloc: Global, asked: Asked, tick: u64, bus: &Bus) -> Result<Margin, AllocError>
    requires tick { tick < 2 ^ 36 }
    requires deviations { length bus.now.deviations ≡ length bus.now.plan.nodes }
    ensures text { IfOk result (λ m. IsTextFor asked tick bus.now (string_bytes m.text)) }
    ensures headroom { IfOk result (λ m.
        IsHeadroomFound m.headroom (option_map (family_asked asked) (bus_family bus.now))) }
{
    match oscillators(alloc, bus.deviations.as_slice())? {
        Some(oscillators) => {
            let own = Family::of_plan(alloc, &bus.plan, oscillators.as_slice())?;
            let judged = family_asked(alloc, asked, own)?;
            family_margin(alloc, asked, bus, &judged, tick)
        }
        None => clockless_margin(alloc),
    }
}

/// Returns the margin of a bus as text, for ticks of `tick` picoseconds, below 2^36.
///
/// A plan with a clock outside of its tolerance gets one line, which names the node. Else the first line says whether the condition for a
/// sound bus holds: for any senders of the nodes that have frames, which it names, for one of them at a time, or not. It says 'proved' if a
/// law covers the plan: that on one sender (`one_sender_is_clean` of wl_buses::one_sender), or, if the bus leaves room, that on any senders
/// (`any_senders_are_clean` of wl_buses::clean_plans). If not the next line says why. If the condition fails the line says which inequality fails, for
/// which nodes and by how much. It may also say that no condition is known for the plan.
///
/// Then follows what is to spare for each node and each other. Last come how much longer the cable and wider the tolerances may be, up to
/// where that stays proved, and which change by a quantum helps most. Refused out of memory alone.
pub fn margin_text(alloc: Global, tick: u64, bus: &Bus) -> Result<String, AllocError>
    requires tick { tick < 2 ^ 36 }
    requires deviations { length bus.now.deviations ≡ length bus.now.plan.nodes }
    ensures { IfOk result (λ text. IsMarginText tick bus.now (string_bytes text)) }
{
    Ok(margin_of(alloc, tick, bus)?.text)
}

/// Returns the same text, and how much longer the cable may be and how much wider every tolerance, if that was searched: then whoever says
/// that, too, need not search it.
pub fn margin_of(alloc: Global, tick: u64, bus: &Bus) -> Result<Margin, AllocError>
    requires tick { tick < 2 ^ 36 }
    requires deviations { length bus.now.deviations ≡ length bus.now.plan.nodes }
    ensures text { IfOk result (λ m. IsMarginText tick bus.now (string_bytes m.text)) }
    ensures headroom { IfOk result (λ m. IsHeadroomFound m.headroom (bus_family bus.now)) }
{
    margin_for(alloc, Asked::ThisPlan, tick, bus)
}

/// Returns the margin of a bus on which all nodes may send that don't only listen. The plan's frames and offsets don't count, nor its
/// disturbances. Else as `margin_text`.
pub fn all_send_text(alloc: Global, tick: u64, bus: &Bus) -> Result<String, AllocError>
    requires tick { tick < 2 ^ 36 }
    requires deviations { length bus.now.deviations ≡ length bus.now.plan.nodes }
    ensures { IfOk result (λ text. IsAllSendText tick bus.now (string_bytes text)) }
{
    Ok(margin_for(alloc, Asked::AllNodes, tick, bus)?.text)
}
