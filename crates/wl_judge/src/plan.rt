//! What is said of a plan's text: of its bus, of how long its messages may wait, and of noise.
ghost use Rattle.std.specs.Prelude.{◌≡◌, ◌++◌, ◌<◌, ◌^◌, string_bytes, length, IfOk, OnOk, Some};
ghost use Rattle.wl_margin.specs.Margins.{paces_of};
ghost use Rattle.wl_judge.specs.Answers.{bus_judgement};
ghost use Rattle.wl_judge.specs.Plans.{IsPlanAnswer, noise_by, noise_of, noise_from, spiked_lines, unknown_lines, waits_lines};

use crate::answer::{Answer, Manner, RunSaid, judge_bus, push_source};
use crate::measure::family_with;
use std::alloc::{AllocError, Global};
use wl_bound::{Family, Oscillator, Senders};
use wl_level::Listed;
use wl_margin::{Standing, bus_standing, oscillators, push_spike_line};
use wl_respond::{Question, brief_text};
use wl_setup::{Bus, PlanText};

/// Adds how long messages may wait, if that is said.
fn push_waits(text: &mut String, explain: bool, waits: &str) -> Result<(), AllocError>
    ensures { OnOk result (string_bytes text.new ≡ string_bytes text.old ++ waits_lines explain waits.now) }
{
    if waits.is_empty() {
        return Ok(());
    }
    push_source(text, explain, "respond")?;
    text.push_str(waits)
}

/// Adds that nothing is known of noise.
fn push_unknown(text: &mut String, explain: bool) -> Result<(), AllocError>
    ensures { OnOk result (string_bytes text.new ≡ string_bytes text.old ++ unknown_lines explain) }
{
    push_source(text, explain, "run, by its disturbances")?;
    text.push_str("noise: not known, but for the disturbances of this run\n")
}

/// Adds whether one spike may hide a frame.
fn push_spiked(
    text: &mut String,
    manner: Manner,
    bus: &Bus,
    family: &Family,
    senders: Senders,
) -> Result<(), AllocError>
    requires tick { manner.tick < 2 ^ 36 }
    ensures { OnOk result (string_bytes text.new ≡ string_bytes text.old
        ++ spiked_lines manner.tick manner.explain bus.now.names family.now senders) }
{
    push_source(text, manner.explain, "margin, on noise")?;
    push_spike_line(text, family, &bus.names, manner.tick, senders)
}

/// Adds what is known of noise on a bus of this family, by what its margin says first.
fn push_noise_of(
    text: &mut String,
    manner: Manner,
    bus: &Bus,
    family: &Family,
    first: Standing,
) -> Result<(), AllocError>
    requires tick { manner.tick < 2 ^ 36 }
    ensures { OnOk result (string_bytes text.new ≡ string_bytes text.old
        ++ noise_of manner.tick manner.explain bus.now.names family.now first) }
{
    match first {
        Standing::AnySenders(_) => push_spiked(text, manner, bus, family, Senders::Any),
        Standing::OneSender(_) => push_spiked(text, manner, bus, family, Senders::One),
        Standing::Astray(_) => push_unknown(text, manner.explain),
        Standing::Fails(_) => push_unknown(text, manner.explain),
        Standing::Unbound(_) => push_unknown(text, manner.explain),
    }
}

/// Adds what is known of noise on a bus with these oscillators.
fn push_noise_with(
    alloc: Global,
    text: &mut String,
    manner: Manner,
    bus: &Bus,
    all: &[Oscillator],
) -> Result<(), AllocError>
    requires tick { manner.tick < 2 ^ 36 }
    requires deviations { length bus.now.deviations ≡ length bus.now.plan.nodes }
    requires paces { paces_of bus.now.deviations ≡ Some all.now }
    ensures { OnOk result (string_bytes text.new ≡ string_bytes text.old
        ++ noise_from manner.tick manner.explain bus.now all.now) }
{
    let family = family_with(alloc, &bus.plan, bus.deviations.as_slice(), all)?;
    let first = bus_standing(&bus.plan, bus.deviations.as_slice(), &family);
    push_noise_of(text, manner, bus, &family, first)
}

/// Adds the same if there are such oscillators.
fn push_noise(
    alloc: Global,
    text: &mut String,
    manner: Manner,
    bus: &Bus,
    oscillators: Option<Listed<Oscillator>>,
) -> Result<(), AllocError>
    requires tick { manner.tick < 2 ^ 36 }
    requires deviations { length bus.now.deviations ≡ length bus.now.plan.nodes }
    requires paces { oscillators ≡ paces_of bus.now.deviations }
    ensures { OnOk result (string_bytes text.new ≡ string_bytes text.old
        ++ noise_by manner.tick manner.explain bus.now oscillators) }
{
    match oscillators {
        None => push_unknown(text, manner.explain),
        Some(all) => push_noise_with(alloc, text, manner, bus, all.as_slice()),
    }
}

/// Returns whether the bus of a plan's text works, and the lines that say so: those of `judge_bus`, how long its messages may wait, and what is
/// known of noise. A tick takes the picoseconds that `manner` says. If it asks for that each part has a line with the command that says it. Refused
/// out of memory alone.
pub fn judge_plan(
    alloc: Global,
    manner: Manner,
    run: RunSaid,
    plain: &PlanText,
    bus: &Bus,
) -> Result<Answer, AllocError>
    requires tick { manner.tick < 2 ^ 36 }
    requires deviations { length bus.now.deviations ≡ length bus.now.plan.nodes }
    ensures judgement { IfOk result (λ a. a.judgement ≡ bus_judgement bus.now run.entry.state) }
    ensures text { IfOk result (λ a. IsPlanAnswer manner.tick manner.explain run.entry.state run.entry.word.now
        plain.now bus.now (string_bytes a.text)) }
{
    let answer = judge_bus(alloc, manner, run, bus)?;
    let question = Question {
        tick: manner.tick,
        any_data: false,
    };
    let waits = brief_text(alloc, question, plain, bus)?;
    let mut text = answer.text;
    push_waits(&mut text, manner.explain, &waits)?;
    let all = oscillators(alloc, bus.deviations.as_slice())?;
    push_noise(alloc, &mut text, manner, bus, all)?;
    Ok(Answer {
        text,
        judgement: answer.judgement,
    })
}
