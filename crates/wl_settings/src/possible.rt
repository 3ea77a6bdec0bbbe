//! The settings that have the bit rate.
ghost use Rattle.std.specs.Prelude.{◌≡◌, ◌++◌, ◌<◌, ◌≤◌, ◌+◌, ◌^◌, IfOk, OnOk};
ghost use Rattle.wl_settings.specs.Settings.{by_first, by_jump, by_length, by_lengths, by_prescaler, by_prop, by_sample, by_samples, by_second, is_setting, only, possible_settings};

use crate::asked::{Asked, Controller, Setting};
use crate::parts::Parts;
use std::alloc::{AllocError, Global};
use wl_level::Listed;

/// The quanta of the shortest bit.
const SHORTEST: u16 = 8;

/// How many lengths bits have, from the shortest one on: 8 to 385 quanta.
const LENGTHS: u16 = 378;

/// For which controller settings are looked for, on which bus.
#[derive(Clone, Copy)]
struct Question<'a> {
    asked: &'a Asked,
    controller: &'a Controller,
}

/// True if the registers hold a setting, its bit rate is near enough, and its segments are those of a bit.
fn is_possible(question: &Question, setting: Setting) -> bool
    ensures { result ≡ is_setting question.now.asked.now question.now.controller.now setting }
{
    setting.is_within(&question.controller.bounds)
        && setting.is_near(question.asked, question.controller.clock)
        && setting.parts.segments(setting.sjw).is_ok()
}

/// Adds a setting, if it is possible.
fn push_possible(
    all: &mut Listed<Setting>,
    question: &Question,
    setting: Setting,
) -> Result<(), AllocError>
    ensures { OnOk result (all.new ≡ all.old ++ only question.now.asked.now question.now.controller.now setting) }
{
    if is_possible(question, setting) {
        all.push(setting)?;
    }
    Ok(())
}

/// Adds those that differ in the jump width, the widest first.
fn push_jumps(
    all: &mut Listed<Setting>,
    question: &Question,
    prescaler: u32,
    parts: Parts,
) -> Result<(), AllocError>
    ensures { OnOk result (all.new
        ≡ all.old ++ by_jump question.now.asked.now question.now.controller.now prescaler parts) }
{
    let widest = question.controller.bounds.sjw;
    for narrower in 0..widest {
        let setting = Setting {
            prescaler,
            parts,
            sjw: widest - narrower,
        };
        push_possible(all, question, setting)?;
    }
    Ok(())
}

/// Adds those that differ in PHASE_SEG2 and in the jump width.
fn push_seconds(
    all: &mut Listed<Setting>,
    question: &Question,
    prescaler: u32,
    prop: u16,
    ps1: u16,
) -> Result<(), AllocError>
    ensures { OnOk result (all.new
        ≡ all.old ++ by_second question.now.asked.now question.now.controller.now prescaler prop ps1) }
{
    for more in 0..7u16 {
        let ps2 = 2 + more;
        push_jumps(all, question, prescaler, Parts::Each { prop, ps1, ps2 })?;
    }
    Ok(())
}

/// Adds those that differ in PHASE_SEG1 and in what comes after it.
fn push_firsts(
    all: &mut Listed<Setting>,
    question: &Question,
    prescaler: u32,
    prop: u16,
) -> Result<(), AllocError>
    ensures { OnOk result (all.new
        ≡ all.old ++ by_first question.now.asked.now question.now.controller.now prescaler prop) }
{
    for more in 0..8u16 {
        push_seconds(all, question, prescaler, prop, 1 + more)?;
    }
    Ok(())
}

/// Adds those of a prescaler, if each segment has a register of its own.
fn push_props(
    all: &mut Listed<Setting>,
    question: &Question,
    prescaler: u32,
) -> Result<(), AllocError>
    ensures { OnOk result (all.new
        ≡ all.old ++ by_prop question.now.asked.now question.now.controller.now prescaler) }
{
    for more in 0..8u16 {
        push_firsts(all, question, prescaler, 1 + more)?;
    }
    Ok(())
}

/// Adds those of a prescaler, of bits of these quanta, and of TSEG1. TSEG2 is what it leaves of the bit.
fn push_sample(
    all: &mut Listed<Setting>,
    question: &Question,
    prescaler: u32,
    quanta: u16,
    tseg1: u16,
) -> Result<(), AllocError>
    ensures { OnOk result (all.new
        ≡ all.old ++ by_sample question.now.asked.now question.now.controller.now prescaler quanta tseg1) }
{
    let tseg2 = quanta.saturating_sub(tseg1).saturating_sub(1);
    push_jumps(all, question, prescaler, Parts::Joint { tseg1, tseg2 })
}

/// Adds those of a prescaler and of bits of these quanta, by TSEG1 up to the greatest.
fn push_samples(
    all: &mut Listed<Setting>,
    question: &Question,
    prescaler: u32,
    quanta: u16,
    most: u16,
) -> Result<(), AllocError>
    ensures { OnOk result (all.new
        ≡ all.old ++ by_samples question.now.asked.now question.now.controller.now prescaler quanta most) }
{
    for more in 0..most.saturating_sub(1) {
        push_sample(all, question, prescaler, quanta, 2 + more)?;
    }
    Ok(())
}

/// Adds those of a prescaler and of bits of these quanta, if such bits have the rate.
fn push_length(
    all: &mut Listed<Setting>,
    question: &Question,
    prescaler: u32,
    quanta: u16,
    most: u16,
) -> Result<(), AllocError>
    ensures { OnOk result (all.new
        ≡ all.old ++ by_length question.now.asked.now question.now.controller.now prescaler quanta most) }
{
    if question
        .asked
        .is_rate_near(question.controller.clock, prescaler, quanta as u64)
    {
        return push_samples(all, question, prescaler, quanta, most);
    }
    Ok(())
}

/// Adds those of a prescaler, if PROP_SEG and PHASE_SEG1 have one register, by the quanta of a bit.
fn push_lengths(
    all: &mut Listed<Setting>,
    question: &Question,
    prescaler: u32,
    most: u16,
) -> Result<(), AllocError>
    ensures { OnOk result (all.new
        ≡ all.old ++ by_lengths question.now.asked.now question.now.controller.now prescaler most) }
{
    for more in 0..LENGTHS {
        push_length(all, question, prescaler, SHORTEST + more, most)?;
    }
    Ok(())
}

/// Adds those of a prescaler.
fn push_prescaler(
    all: &mut Listed<Setting>,
    question: &Question,
    prescaler: u32,
) -> Result<(), AllocError>
    ensures { OnOk result (all.new
        ≡ all.old ++ by_prescaler question.now.asked.now question.now.controller.now prescaler) }
{
    match question.controller.bounds.parts {
        Parts::Each { .. } => push_props(all, question, prescaler),
        Parts::Joint { tseg1, .. } => push_lengths(all, question, prescaler, tseg1),
    }
}

/// Returns the settings that a controller's registers hold, whose bit rate is near enough and whose segments are those of a bit.
///
/// They are in order of the prescaler; then of PROP_SEG, PHASE_SEG1 and PHASE_SEG2, or of the quanta of a bit and TSEG1; of the jump width the
/// widest comes first. Refused only when out of memory.
pub fn possible_settings(
    alloc: Global,
    asked: &Asked,
    controller: &Controller,
) -> Result<Listed<Setting>, AllocError>
    ensures { IfOk result (λ all. all ≡ possible_settings asked.now controller.now) }
{
    let mut all = Listed::new(alloc);
    let question = Question { asked, controller };
    for less in 0..controller.bounds.prescaler {
        push_prescaler(&mut all, &question, less + 1)?;
    }
    Ok(all)
}
