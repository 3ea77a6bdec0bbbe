//! What is asked of a sweep, and the sweep that it means.
ghost use Rattle.std.specs.Prelude.{◌≡◌, true, IfOk, map, string_bytes};
ghost use Rattle.wl_plan.specs.declared.plan.Plan.{Plan};
ghost use Rattle.wl_sweep.specs.Sweeps.{is_small};
ghost use Rattle.wl_sweep_engine.specs.Asked.{IsRead, checked_options, if_small, ranges_of, sweep_of, text_asked, checked_workers};
ghost use Rattle.wl_sweep_engine.specs.Faults.{of_range};

use crate::fault::SweepFault;
use std::alloc::{AllocError, Global};
use wl_level::Listed;
use wl_plan::CheckedPlan;
use wl_setup::PlanText;
use wl_sweep::{Options, RangeFault, Sweep, SweptRange, read_range, worst_text};

/// The most threads that run a sweep.
const MOST_WORKERS: u8 = 8;

/// What is asked of a sweep beside its ranges.
#[derive(Clone, Copy, Debug, PartialEq, Eq)]
pub struct Asked {
    /// What is varied, and how many members are run.
    pub options: Options,
    /// Whether each sender gets a frame more, with edges ten bits apart.
    pub worst: bool,
}

/// Returns the first fault of options.
pub(crate) fn check_options(options: Options) -> Result<(), SweepFault>
    ensures { result ≡ checked_options options }
{
    if options.runs == 0 {
        return Err(SweepFault::Runs);
    }
    match options.step {
        Some(0) => Err(SweepFault::Step),
        _ => Ok(()),
    }
}

/// Returns the first fault of options, or of the number of threads.
pub(crate) fn check_workers(options: Options, count: u8) -> Result<(), SweepFault>
    ensures { result ≡ checked_workers options count }
{
    check_options(options)?;
    if count == 0 || count > MOST_WORKERS {
        Err(SweepFault::Workers)
    } else {
        Ok(())
    }
}

/// Returns a fault of a range as that of its word.
fn of_range(i: usize, fault: RangeFault) -> SweepFault
    ensures { result ≡ of_range i fault }
{
    match fault {
        RangeFault::Memory => SweepFault::Memory,
        other => SweepFault::Range(i, other),
    }
}

/// Returns the ranges of words, or the fault of the first that is none.
fn read_ranges(
    alloc: Global,
    text: &PlanText,
    words: &[String],
) -> Result<Listed<SweptRange>, SweepFault>
    ensures { IsRead (ranges_of text.now 0 (map string_bytes words.now)) result }
{
    let mut ranges = Listed::new(alloc);
    for i in 0..words.len() {
        match read_range(alloc, text, words[i].as_str()) {
            Ok(range) => ranges.push(range)?,
            Err(fault) => return Err(of_range(i, fault)),
        }
    }
    Ok(ranges)
}

/// Returns the sweep of a text, if it has few enough rows.
fn if_small(sweep: Sweep) -> Result<Sweep, SweepFault>
    ensures value { result ≡ if_small sweep }
    ensures small { IfOk result (λ s. is_small s ≡ true) }
{
    if sweep.is_small() {
        Ok(sweep)
    } else {
        Err(SweepFault::Rows)
    }
}

/// Returns a plan's text with the frames that are asked for.
pub(crate) fn text_asked(alloc: Global, text: PlanText, worst: bool) -> Result<PlanText, AllocError>
    ensures { IfOk result (λ asked. asked ≡ text_asked worst text) }
{
    if worst {
        worst_text(alloc, &text)
    } else {
        Ok(text)
    }
}

/// Returns the plan of a text as it is asked for, and its sweep, or the first fault.
pub(crate) fn read_sweep(
    alloc: Global,
    text: PlanText,
    words: &[String],
    asked: Asked,
) -> Result<(CheckedPlan, Sweep), SweepFault>
    ensures answer { IsRead (sweep_of text (map string_bytes words.now) asked) result }
    ensures small { IfOk result (λ r. is_small r.1 ≡ true) }
{
    let text = text_asked(alloc, text, asked.worst)?;
    let plan = text.plan(alloc)?;
    let ranges = read_ranges(alloc, &text, words)?;
    let sweep = if_small(Sweep {
        text,
        ranges,
        options: asked.options,
    })?;
    Ok((plan, sweep))
}
