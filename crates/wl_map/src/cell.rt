//! The cells of a map.
ghost use Rattle.std.specs.Prelude.{◌≡◌, true, IfOk, OnOk};
ghost use Rattle.std.specs.List.{list_all};
ghost use Rattle.wl_report.specs.Lines.{GrowsBy};
ghost use Rattle.wl_map.specs.Cells.{cell_of_row, coloured_words, colour_of, colour_word, error_line, first_error_of, plan_error, text_error};
ghost use Rattle.wl_setup.specs.Names.{names_of};
ghost use Rattle.wl_setup.specs.Plans.{plan_of_text};
ghost use Rattle.wl_sweep.specs.Findings.{is_clean};
ghost use Rattle.wl_sweep.specs.Sweeps.{all_findings, is_small};
ghost use Rattle.wl_views.specs.TraceText.{first_error_text};

use std::alloc::{AllocError, Global};
use std::thread::Threads;
use std::time::Clock;
use wl_plan::CheckedPlan;
use wl_serial::run_drives;
use wl_setup::{Names, PlanText, SetupFault};
use wl_sweep::{Sweep, Tally, Workers};
use wl_views::first_error;

/// How a cell is coloured, by the members of its row.
#[derive(Clone, Copy, Debug, PartialEq, Eq)]
pub enum Colour {
    /// Each is clean.
    Clean,
    /// Some were run, and aren't clean.
    Failing,
    /// Some are refused, and all others are clean.
    Refused,
}

impl Colour {
    /// Returns the colour of a row with this tally.
    pub fn of(tally: Tally) -> Colour
        ensures { result ≡ colour_of tally }
    {
        match (tally.first, tally.first_refused) {
            (Some(_), _) => Colour::Failing,
            (None, Some(_)) => Colour::Refused,
            (None, None) => Colour::Clean,
        }
    }

    /// Returns its word.
    pub fn word(self) -> &'static str
        ensures { result.now ≡ colour_word self }
    {
        match self {
            Colour::Clean => "clean",
            Colour::Failing => "failing",
            Colour::Refused => "refused",
        }
    }
}

/// Adds the line of an error, if there is one.
fn push_line(text: &mut String, line: &str) -> Result<(), AllocError>
    ensures { OnOk result (GrowsBy text.old text.new (error_line line.now)) }
{
    if line.is_empty() {
        return Ok(());
    }
    write!(text, "first error: {line}")
}

/// Adds the first error of a plan that is run, under these names of its nodes.
fn push_plan_error(
    alloc: Global,
    text: &mut String,
    plan: &CheckedPlan,
    names: &Names,
) -> Result<(), AllocError>
    ensures { OnOk result (GrowsBy text.old text.new (error_line (first_error_text plan.now names.now))) }
{
    let drives = run_drives(alloc, plan)?;
    let line = first_error(alloc, plan, names, &drives)?;
    push_line(text, line.as_str())
}

/// Adds the first error of a text's plan, if it can be run, under the names of its nodes.
fn push_named_error(
    alloc: Global,
    text: &mut String,
    plan: &PlanText,
    names: &Names,
) -> Result<(), AllocError>
    requires { names.now ≡ names_of plan.now }
    ensures { OnOk result (GrowsBy text.old text.new (plan_error (names_of plan.now) (plan_of_text plan.now))) }
{
    match plan.plan(alloc) {
        Ok(run) => push_plan_error(alloc, text, &run, names),
        Err(SetupFault::Memory) => Err(AllocError),
        Err(_) => Ok(()),
    }
}

/// Adds the first error of a text's plan, if it can be run and no two nodes have one name.
fn push_text_error(alloc: Global, text: &mut String, plan: &PlanText) -> Result<(), AllocError>
    ensures { OnOk result (GrowsBy text.old text.new (text_error plan.now)) }
{
    match plan.names(alloc) {
        Ok(names) => push_named_error(alloc, text, plan, &names),
        Err(SetupFault::Memory) => Err(AllocError),
        Err(_) => Ok(()),
    }
}

/// Adds the first error of a member, if there is a member of this number.
fn push_first_error(
    alloc: Global,
    text: &mut String,
    sweep: &Sweep,
    number: Option<u64>,
) -> Result<(), AllocError>
    ensures { OnOk result (GrowsBy text.old text.new (first_error_of sweep.now number)) }
{
    let number = match number {
        Some(number) => number,
        None => return Ok(()),
    };
    match sweep.member(alloc, number)? {
        Some((_, plan)) => push_text_error(alloc, text, &plan),
        None => Ok(()),
    }
}

/// Adds a colour, and what a sweep says.
fn push_coloured(text: &mut String, colour: Colour, said: &str) -> Result<(), AllocError>
    ensures { OnOk result (GrowsBy text.old text.new (coloured_words colour said.now)) }
{
    let colour = colour.word();
    write!(text, "cell {colour}\n{said}")
}

/// Runs a row that is alone, by `workers` threads, and adds its cell: its colour, what its sweep says, and the first error of its first member
/// that isn't clean. Returns whether each member is clean.
pub(crate) fn push_cell<H: Threads + Sync + Eprint + Clock>(
    rt: &H,
    alloc: Global,
    text: &mut String,
    row: &Sweep,
    workers: u8,
) -> Result<bool, AllocError>
    requires { is_small row.now ≡ true }
    ensures text { OnOk result (GrowsBy text.old text.new (cell_of_row row.now)) }
    ensures clean { IfOk result (λ clean. clean ≡ list_all is_clean (all_findings row.now)) }
{
    let workers = Workers {
        count: workers,
        progress: false,
    };
    let (told, tally) = row.run(rt, alloc, workers)?;
    push_coloured(text, Colour::of(tally), told.as_str())?;
    push_first_error(alloc, text, row, tally.first)?;
    Ok(tally.all_clean())
}
