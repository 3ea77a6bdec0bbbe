//! What is said of a plan's bus.
ghost use Rattle.std.specs.Prelude.{◌≡◌, ◌++◌, ◌<◌, ◌^◌, string_bytes, length, Some, None, IfOk, IfSome, OnOk};
ghost use Rattle.wl_margin.specs.Margins.{paces_of};
ghost use Rattle.wl_margin.specs.Standings.{IsInside, standing_of};
ghost use Rattle.wl_judge.specs.Judgements.{judgement_of};
ghost use Rattle.wl_judge.specs.Weakest.{IsPairOf};
ghost use Rattle.wl_judge.specs.Answers.{AreGains, AreGainsIf, IsAnswer, IsAnswerOf, IsAnswerOn, answer_words, bus_judgement, gains_lines, longer_words, trial_words, comparison, compares, gain_line, help_lines, judged_lines, metres_of, answer_head, pair_head, weakest_words, pairs_lines, ppm_words, ran_lines, reserve_line, run_line, senders_of, source_line, spare_end, spare_surety, spared_lines, spared_words, standing_in, words_of_step, sure_words, unclocked_lines, unclocked_words, weak_line, weak_lines, why_lines};

use crate::judgement::{Judgement, RunState, judgement_of, push_judgement};
use crate::measure::{Found, Measure, best_of, family_with, measured};
use crate::trial::{Step, trials_of};
use crate::weakest::{Pair, Weakest, weakest_of};
use std::alloc::{AllocError, Global};
use wl_bound::{Change, Family, Inequality, Oscillator, Senders};
use wl_level::Listed;
use wl_margin::{Standing, Surety, bus_standing, oscillators, push_spare, push_standing_reasons};
use wl_setup::{Bus, Names};

/// How many picoseconds a level takes along a metre of cable.
const PICOSECONDS_A_METRE: u128 = 5000;

/// What is said of a plan's bus.
#[derive(Drop)]
pub struct Answer {
    /// The lines.
    pub text: String,
    /// Whether the bus works.
    pub judgement: Judgement,
}

/// Adds the command that says the lines below, if that is asked for.
pub(crate) fn push_source(text: &mut String, explain: bool, words: &str) -> Result<(), AllocError>
    ensures { OnOk result (string_bytes text.new ≡ string_bytes text.old ++ source_line explain words.now) }
{
    if explain {
        writeln!(text, "from {words}")
    } else {
        Ok(())
    }
}

/// Adds the line of a run.
fn push_run(text: &mut String, word: &str) -> Result<(), AllocError>
    ensures { OnOk result (string_bytes text.new ≡ string_bytes text.old ++ run_line word.now) }
{
    writeln!(text, "run: {word}")
}

/// What the run of a plan says.
#[derive(Clone, Copy)]
pub struct RunSaid<'a> {
    /// Whether it works.
    pub state: RunState,
    /// The same in a word of `traffic`.
    pub word: &'a str,
}

/// A bus that the condition speaks of, and how its times are said.
#[derive(Clone, Copy)]
struct Shown<'a> {
    /// The picoseconds of a tick, below 2^36.
    tick: u64,
    names: &'a Names,
    family: &'a Family,
    /// For whom what is to spare is asked.
    senders: Senders,
}

/// Adds the inequality and the names of the pair to which it leaves least.
fn push_pair_head(text: &mut String, what: &str, a: &str, b: &str) -> Result<(), AllocError>
    ensures { OnOk result (string_bytes text.new ≡ string_bytes text.old ++ pair_head what.now a.now b.now) }
{
    write!(text, "weakest {what}: {a} {b} ")
}

/// Adds the line of the pair to which an inequality leaves least.
fn push_weak_pair(
    text: &mut String,
    shown: Shown,
    inequality: Inequality,
    what: &str,
    pair: Pair,
) -> Result<(), AllocError>
    requires tick { shown.tick < 2 ^ 36 }
    requires one { pair.node < length shown.family.now.members }
    requires other { pair.other < length shown.family.now.members }
    ensures { OnOk result (string_bytes text.new ≡ string_bytes text.old
        ++ weakest_words shown.entry.tick shown.entry.family.now shown.entry.names.now shown.entry.senders inequality
        what.now pair) }
{
    let a = shown.names.name_of(pair.node as usize);
    let b = shown.names.name_of(pair.other as usize);
    push_pair_head(text, what, a, b)?;
    push_spare(
        text,
        shown.family,
        shown.tick,
        shown.senders,
        inequality,
        pair.node,
        pair.other,
    )?;
    text.push_str("\n")
}

/// Adds the same if there is such a pair.
fn push_weak(
    text: &mut String,
    shown: Shown,
    inequality: Inequality,
    what: &str,
    pair: Option<Pair>,
) -> Result<(), AllocError>
    requires tick { shown.tick < 2 ^ 36 }
    requires pair { IfSome pair (IsPairOf shown.family.now) }
    ensures { OnOk result (string_bytes text.new ≡ string_bytes text.old
        ++ weak_line shown.entry.tick shown.entry.family.now shown.entry.names.now shown.entry.senders inequality
        what.now pair) }
{
    match pair {
        None => Ok(()),
        Some(pair) => push_weak_pair(text, shown, inequality, what, pair),
    }
}

/// Adds the lines of the weakest pairs.
fn push_weakest(text: &mut String, shown: Shown, weak: Weakest) -> Result<(), AllocError>
    requires tick { shown.tick < 2 ^ 36 }
    requires late { IfSome weak.late (IsPairOf shown.family.now) }
    requires early { IfSome weak.early (IsPairOf shown.family.now) }
    requires drift { IfSome weak.drift (IsPairOf shown.family.now) }
    ensures { OnOk result (string_bytes text.new ≡ string_bytes text.old
        ++ weak_lines shown.entry.tick shown.entry.family.now shown.entry.names.now shown.entry.senders weak) }
{
    push_weak(
        text,
        shown,
        Inequality::BitIsThereAtSample,
        "late",
        weak.late,
    )?;
    push_weak(text, shown, Inequality::NoBitTooEarly, "early", weak.early)?;
    push_weak(text, shown, Inequality::DriftFitsJump, "drift", weak.drift)
}

/// Returns the metres of a cable that takes this many units of this many ticks, at 5 ns a metre.
fn metres(tick: u64, per: u32, units: u32) -> u128
    requires tick { tick < 2 ^ 36 }
    ensures { result ≡ metres_of tick per units }
{
    units as u128 * per as u128 * tick as u128 / PICOSECONDS_A_METRE
}

/// Adds by how much the cable may be longer.
fn push_cable(text: &mut String, tick: u64, measure: Measure) -> Result<(), AllocError>
    requires tick { tick < 2 ^ 36 }
    ensures { OnOk result (string_bytes text.new ≡ string_bytes text.old
        ++ longer_words tick measure.per measure.longer) }
{
    match measure.longer {
        None => Ok(()),
        Some(units) => {
            let long = metres(tick, measure.per, units);
            write!(text, "{long} m and ")
        }
    }
}

/// Adds by how much every tolerance may be wider.
fn push_ppm(text: &mut String, wider: Option<u32>) -> Result<(), AllocError>
    ensures { OnOk result (string_bytes text.new ≡ string_bytes text.old ++ ppm_words wider) }
{
    match wider {
        None => text.push_str("0 ppm"),
        Some(ppm) => write!(text, "{ppm} ppm"),
    }
}

/// Returns how sure it is that this is to spare.
fn spare_surety(surety: Surety) -> &'static str
    ensures { result.now ≡ spare_surety surety }
{
    match surety {
        Surety::ProvedForAny => ", proved",
        Surety::ProvedForOne => ", as far as searched",
        Surety::Searched => ", as far as searched",
    }
}

/// Returns the same by what a margin says first.
fn sure_words(standing: Standing) -> &'static str
    ensures { result.now ≡ sure_words standing }
{
    match standing {
        Standing::Astray(_) => "",
        Standing::AnySenders(surety) => spare_surety(surety),
        Standing::OneSender(_) => ", for one sender at a time",
        Standing::Fails(_) => "",
        Standing::Unbound(_) => "",
    }
}

/// Adds how sure it is that this is to spare, and the end of the line.
fn push_spare_end(text: &mut String, standing: Standing) -> Result<(), AllocError>
    ensures { OnOk result (string_bytes text.new ≡ string_bytes text.old ++ spare_end standing) }
{
    let sure = sure_words(standing);
    writeln!(text, " to spare{sure}")
}

/// Adds what a bus has to spare, how sure that is, and the end of the line.
fn push_spared(text: &mut String, tick: u64, measure: Measure) -> Result<(), AllocError>
    requires tick { tick < 2 ^ 36 }
    ensures { OnOk result (string_bytes text.new ≡ string_bytes text.old ++ spared_words tick measure) }
{
    push_cable(text, tick, measure)?;
    push_ppm(text, measure.wider)?;
    push_spare_end(text, measure.standing)
}

/// Adds what the bus has to spare as it is, if the condition holds.
fn push_reserve(text: &mut String, tick: u64, measure: Measure) -> Result<(), AllocError>
    requires tick { tick < 2 ^ 36 }
    ensures { OnOk result (string_bytes text.new ≡ string_bytes text.old ++ reserve_line tick measure measure.wider) }
{
    match measure.wider {
        None => Ok(()),
        Some(_) => {
            text.push_str("reserve: ")?;
            push_spared(text, tick, measure)
        }
    }
}

/// Returns a change in words, before the name of its node.
fn words_of_step(step: Step) -> &'static str
    ensures { result.now ≡ words_of_step step }
{
    match step {
        Step::By(Change::WiderJump) => "a jump width wider by a quantum at ",
        Step::By(Change::NarrowerJump) => "a jump width narrower by a quantum at ",
        Step::By(Change::LaterSample) => "a sample point later by a quantum at ",
        Step::By(Change::EarlierSample) => "a sample point earlier by a quantum at ",
        Step::Finer => "twice the quanta, each half as long, at ",
        Step::FinerAndLater => {
            "twice the quanta, each half as long, and a later sample point at "
        }
    }
}

/// Adds a change at the node of this name.
fn push_change(text: &mut String, step: Step, name: &str) -> Result<(), AllocError>
    ensures { OnOk result (string_bytes text.new ≡ string_bytes text.old ++ trial_words step name.now) }
{
    let step = words_of_step(step);
    write!(text, "help: {step}{name}: ")
}

/// Adds a change and what it gives.
fn push_found(text: &mut String, names: &Names, tick: u64, found: Found) -> Result<(), AllocError>
    requires tick { tick < 2 ^ 36 }
    ensures { OnOk result (string_bytes text.new ≡ string_bytes text.old ++ gain_line tick names.now (Some found)) }
{
    push_change(
        text,
        found.trial.step,
        names.name_of(found.trial.node as usize),
    )?;
    push_spared(text, tick, found.measure)
}

/// Adds which change gives most.
fn push_help(
    text: &mut String,
    names: &Names,
    tick: u64,
    help: Option<Found>,
) -> Result<(), AllocError>
    requires tick { tick < 2 ^ 36 }
    ensures { OnOk result (string_bytes text.new ≡ string_bytes text.old ++ gain_line tick names.now help) }
{
    match help {
        None => text.push_str("help: no change that was tried\n"),
        Some(found) => push_found(text, names, tick, found),
    }
}

/// Returns for whom what is to spare is asked.
fn senders_of(standing: Standing) -> Senders
    ensures { result ≡ senders_of standing }
{
    match standing {
        Standing::Astray(_) => Senders::One,
        Standing::AnySenders(_) => Senders::Any,
        Standing::OneSender(_) => Senders::One,
        Standing::Fails(_) => Senders::One,
        Standing::Unbound(_) => Senders::One,
    }
}

/// True if the condition says something of the plan, so that pairs of nodes can be compared.
fn compares(standing: Standing) -> bool
    ensures { result ≡ compares standing }
{
    match standing {
        Standing::Astray(_) => false,
        Standing::AnySenders(_) => true,
        Standing::OneSender(_) => true,
        Standing::Fails(_) => true,
        Standing::Unbound(_) => false,
    }
}

/// How an answer is said.
#[derive(Clone, Copy)]
pub struct Manner {
    /// The picoseconds of a tick, below 2^36.
    pub tick: u64,
    /// Whether each part has the command that says it.
    pub explain: bool,
}

/// Adds the first line.
fn push_judged(
    text: &mut String,
    explain: bool,
    judgement: Judgement,
    word: &str,
) -> Result<(), AllocError>
    ensures { OnOk result (string_bytes text.new ≡ string_bytes text.old ++ judged_lines explain judgement word.now) }
{
    push_source(text, explain, "traffic and margin")?;
    push_judgement(text, judgement, word)
}

/// Adds the line of the run.
fn push_ran(text: &mut String, explain: bool, word: &str) -> Result<(), AllocError>
    ensures { OnOk result (string_bytes text.new ≡ string_bytes text.old ++ ran_lines explain word.now) }
{
    push_source(text, explain, "traffic, its last line")?;
    push_run(text, word)
}

/// Adds the first line, and that of the run.
fn push_first(
    text: &mut String,
    explain: bool,
    judgement: Judgement,
    word: &str,
) -> Result<(), AllocError>
    ensures { OnOk result (string_bytes text.new ≡ string_bytes text.old ++ answer_head explain judgement word.now) }
{
    push_judged(text, explain, judgement, word)?;
    push_ran(text, explain, word)
}

/// Adds the weakest pairs.
fn push_pairs(text: &mut String, explain: bool, shown: Shown) -> Result<(), AllocError>
    requires tick { shown.tick < 2 ^ 36 }
    ensures { OnOk result (string_bytes text.new ≡ string_bytes text.old
        ++ pairs_lines shown.entry.tick explain shown.entry.names.now shown.entry.family.now shown.entry.senders) }
{
    push_source(text, explain, "margin, its pairs")?;
    push_weakest(text, shown, weakest_of(shown.family, shown.senders))
}

/// Adds what is to spare.
fn push_reserves(
    text: &mut String,
    explain: bool,
    tick: u64,
    base: Measure,
) -> Result<(), AllocError>
    requires tick { tick < 2 ^ 36 }
    ensures { OnOk result (string_bytes text.new ≡ string_bytes text.old ++ spared_lines tick explain base) }
{
    push_source(text, explain, "margin, its searches")?;
    push_reserve(text, tick, base)
}

/// Adds which change helps.
fn push_helps(
    text: &mut String,
    explain: bool,
    names: &Names,
    tick: u64,
    help: Option<Found>,
) -> Result<(), AllocError>
    requires tick { tick < 2 ^ 36 }
    ensures { OnOk result (string_bytes text.new ≡ string_bytes text.old ++ help_lines tick explain names.now help) }
{
    push_source(text, explain, "margin, of the changed plans")?;
    push_help(text, names, tick, help)
}

/// Adds the weakest pairs, what is to spare, and which change helps.
fn push_compared(
    text: &mut String,
    explain: bool,
    shown: Shown,
    base: Measure,
    help: Option<Found>,
) -> Result<(), AllocError>
    requires tick { shown.tick < 2 ^ 36 }
    ensures { OnOk result (string_bytes text.new ≡ string_bytes text.old
        ++ comparison shown.entry.tick explain shown.entry.names.now shown.entry.family.now shown.entry.senders
        base help) }
{
    push_pairs(text, explain, shown)?;
    push_reserves(text, explain, shown.tick, base)?;
    push_helps(text, explain, shown.names, shown.tick, help)
}

/// Adds that a clock is none without its `ppm`.
fn push_unclocked(text: &mut String, explain: bool) -> Result<(), AllocError>
    ensures { OnOk result (string_bytes text.new ≡ string_bytes text.old ++ unclocked_lines explain) }
{
    push_source(text, explain, "margin, its first lines")?;
    text.push_str(
        "no bound is known: without its ppm a quantum takes less than a tick or more than 1,048,576\n",
    )
}

/// What the bus has to spare, and which change gives most.
#[derive(Clone, Copy, Debug, PartialEq, Eq)]
pub struct Gains {
    /// What it has to spare as it is.
    pub base: Measure,
    /// The change that gives most, if one gives more.
    pub help: Option<Found>,
}

/// Returns what a bus has to spare, and which change gives most.
fn gains_of(alloc: Global, bus: &Bus, family: &Family, first: Standing) -> Result<Gains, AllocError>
    requires deviations { length bus.now.deviations ≡ length bus.now.plan.nodes }
    ensures { IfOk result (AreGains bus.now family.now first) }
{
    let trials = trials_of(alloc, family, weakest_of(family, senders_of(first)))?;
    let base = measured(family, first);
    let deviations = bus.deviations.as_slice();
    let help = best_of(alloc, deviations, &bus.plan, base, trials.as_slice(), None)?;
    Ok(Gains { base, help })
}

/// Returns the same if the condition says something of the plan.
fn gains_if(
    alloc: Global,
    bus: &Bus,
    family: &Family,
    first: Standing,
) -> Result<Option<Gains>, AllocError>
    requires deviations { length bus.now.deviations ≡ length bus.now.plan.nodes }
    ensures { IfOk result (AreGainsIf bus.now family.now first (compares first)) }
{
    if compares(first) {
        let gains = gains_of(alloc, bus, family, first)?;
        Ok(Some(gains))
    } else {
        Ok(None)
    }
}

/// Adds the weakest pairs, what is to spare, and which change helps, if that was asked.
fn push_gains(
    text: &mut String,
    explain: bool,
    shown: Shown,
    gains: Option<Gains>,
) -> Result<(), AllocError>
    requires tick { shown.tick < 2 ^ 36 }
    ensures { OnOk result (string_bytes text.new ≡ string_bytes text.old
        ++ gains_lines shown.entry.tick explain shown.entry.names.now shown.entry.family.now shown.entry.senders
        gains) }
{
    match gains {
        None => Ok(()),
        Some(gains) => push_compared(text, explain, shown, gains.base, gains.help),
    }
}

/// Adds why a margin doesn't say more.
fn push_why(
    text: &mut String,
    manner: Manner,
    bus: &Bus,
    family: &Family,
    first: Standing,
) -> Result<(), AllocError>
    requires tick { manner.tick < 2 ^ 36 }
    requires deviations { length bus.now.deviations ≡ length bus.now.plan.nodes }
    requires members { length family.now.members ≡ length bus.now.plan.nodes }
    requires inside { IsInside (length bus.now.plan.nodes) first }
    ensures { OnOk result (string_bytes text.new ≡ string_bytes text.old
        ++ why_lines manner.tick manner.explain bus.now family.now first) }
{
    push_source(text, manner.explain, "margin, its first lines")?;
    push_standing_reasons(text, bus, family, manner.tick, first)
}

/// What is said first of a bus, and of what was found of it.
#[derive(Clone, Copy)]
struct Said<'a> {
    first: Standing,
    judgement: Judgement,
    word: &'a str,
    gains: Option<Gains>,
}

/// Adds all lines of a bus of this family.
fn push_answer(
    text: &mut String,
    manner: Manner,
    bus: &Bus,
    family: &Family,
    said: Said,
) -> Result<(), AllocError>
    requires tick { manner.tick < 2 ^ 36 }
    requires deviations { length bus.now.deviations ≡ length bus.now.plan.nodes }
    requires members { length family.now.members ≡ length bus.now.plan.nodes }
    requires inside { IsInside (length bus.now.plan.nodes) said.first }
    ensures { OnOk result (string_bytes text.new ≡ string_bytes text.old
        ++ answer_words manner.tick manner.explain bus.now family.now said.entry.first said.entry.judgement
        said.entry.word.now said.entry.gains) }
{
    let shown = Shown {
        tick: manner.tick,
        names: &bus.names,
        family,
        senders: senders_of(said.first),
    };
    push_first(text, manner.explain, said.judgement, said.word)?;
    push_why(text, manner, bus, family, said.first)?;
    push_gains(text, manner.explain, shown, said.gains)
}

/// Returns the answer on a bus of this family.
fn answer_on(
    alloc: Global,
    manner: Manner,
    bus: &Bus,
    family: &Family,
    run: RunSaid,
) -> Result<Answer, AllocError>
    requires tick { manner.tick < 2 ^ 36 }
    requires deviations { length bus.now.deviations ≡ length bus.now.plan.nodes }
    requires members { length family.now.members ≡ length bus.now.plan.nodes }
    ensures judgement { IfOk result (λ a. a.judgement
        ≡ judgement_of (Some (standing_of bus.now.deviations bus.now.plan family.now)) run.entry.state) }
    ensures text { IfOk result (λ a. IsAnswerOn manner.tick manner.explain run.entry.state run.entry.word.now bus.now
        family.now (string_bytes a.text)) }
{
    let first = bus_standing(&bus.plan, bus.deviations.as_slice(), family);
    let said = Said {
        first,
        judgement: judgement_of(Some(first), run.state),
        word: run.word,
        gains: gains_if(alloc, bus, family, first)?,
    };
    let mut text = String::new(alloc);
    push_answer(&mut text, manner, bus, family, said)?;
    Ok(Answer {
        text,
        judgement: said.judgement,
    })
}

/// Returns the answer on a bus with a clock that is none without its `ppm`.
fn answer_without(alloc: Global, explain: bool, run: RunSaid) -> Result<Answer, AllocError>
    ensures judgement { IfOk result (λ a. a.judgement ≡ judgement_of None run.entry.state) }
    ensures text { IfOk result (λ a. string_bytes a.text ≡ unclocked_words explain run.entry.state run.entry.word.now) }
{
    let judgement = judgement_of(None, run.state);
    let mut text = String::new(alloc);
    push_first(&mut text, explain, judgement, run.word)?;
    push_unclocked(&mut text, explain)?;
    Ok(Answer { text, judgement })
}

/// Returns the answer on a bus with these oscillators.
fn answer_by(
    alloc: Global,
    manner: Manner,
    bus: &Bus,
    oscillators: Option<Listed<Oscillator>>,
    run: RunSaid,
) -> Result<Answer, AllocError>
    requires tick { manner.tick < 2 ^ 36 }
    requires deviations { length bus.now.deviations ≡ length bus.now.plan.nodes }
    requires paces { oscillators ≡ paces_of bus.now.deviations }
    ensures judgement { IfOk result (λ a. a.judgement
        ≡ judgement_of (standing_in bus.now oscillators) run.entry.state) }
    ensures text { IfOk result (λ a. IsAnswerOf manner.tick manner.explain run.entry.state run.entry.word.now bus.now
        oscillators (string_bytes a.text)) }
{
    match oscillators {
        None => answer_without(alloc, manner.explain, run),
        Some(all) => {
            let family = family_with(alloc, &bus.plan, bus.deviations.as_slice(), all.as_slice())?;
            answer_on(alloc, manner, bus, &family, run)
        }
    }
}

/// Returns whether the bus of a plan works, and the lines that say so: the judgement; what its run says; why its margin doesn't say more;
/// the weakest pairs of nodes; what is to spare; and of some changes at one node that which gives most. A tick takes the picoseconds that
/// `manner` says. If it asks for that each part has a line with the command that says it. Refused out of memory alone.
///
/// The first line says 'proved' only if the margin of the bus does (`a_proved_bus_has_a_proved_margin`).
pub fn judge_bus(
    alloc: Global,
    manner: Manner,
    run: RunSaid,
    bus: &Bus,
) -> Result<Answer, AllocError>
    requires tick { manner.tick < 2 ^ 36 }
    requires deviations { length bus.now.deviations ≡ length bus.now.plan.nodes }
    ensures judgement { IfOk result (λ a. a.judgement ≡ bus_judgement bus.now run.entry.state) }
    ensures text { IfOk result (λ a. IsAnswer manner.tick manner.explain run.entry.state run.entry.word.now bus.now
        (string_bytes a.text)) }
{
    let all = oscillators(alloc, bus.deviations.as_slice())?;
    answer_by(alloc, manner, bus, all, run)
}
