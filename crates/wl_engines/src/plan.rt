//! Returns the report of a plan's simulation.
ghost use Rattle.std.specs.Prelude.{◌≡◌, ℕ, List, IfOk, map};
ghost use Rattle.wl_serial.specs.Outcome.{outcome_of, totals_of};
ghost use Rattle.std.specs.List.{list_all};
ghost use Rattle.wl_report.specs.Report.{is_clean, report_text};
ghost use Rattle.wl_engines.specs.Output.{OutputsWith};
ghost use Rattle.wl_engines.specs.Plans.{RunsPlanWith, IsReportOutput, IsRunOutput, is_clean_run, shown_totals, without_frames};

use crate::fault::RunFault;
use crate::output::write_answer;
use std::alloc::{AllocError, Global};
use wl_device::{Sink, Source};
use wl_level::Listed;
use wl_plan::CheckedPlan;
use wl_report::report_of_totals;
use wl_serial::{NodeTotals, Totals, run_totals};
use wl_setup::read_checked;

/// Returns what a report says of a node through which no frame passed.
fn without_frames(alloc: Global, node: &NodeTotals) -> NodeTotals
    ensures { result ≡ without_frames node.now }
{
    NodeTotals {
        samples: node.samples,
        frames: Listed::new(alloc),
        counters: node.counters,
        phases: node.phases,
        hards: node.hards,
        errors: node.errors,
        unsent: node.unsent,
    }
}

/// Returns what a report says of nodes through which no frame passed.
fn all_without_frames(alloc: Global, nodes: &[NodeTotals]) -> Result<Totals, AllocError>
    ensures { IfOk result (λ bare. bare ≡ map without_frames nodes.now) }
{
    let mut bare = Listed::new(alloc);
    for node in nodes {
        bare.push(without_frames(alloc, node))?;
    }
    Ok(bare)
}

/// Returns the report of what it says of nodes, without the lines of frames if it is to be brief.
pub(crate) fn report_as(alloc: Global, brief: bool, totals: &Totals) -> Result<Vec<u8>, AllocError>
    ensures { IfOk result (λ text. text.items ≡ report_text (shown_totals brief totals.now)) }
{
    if brief {
        let bare = all_without_frames(alloc, totals.as_slice())?;
        report_of_totals(alloc, &bare)
    } else {
        report_of_totals(alloc, totals)
    }
}

/// The report of a plan's simulation.
#[derive(Drop)]
pub(crate) struct Report {
    /// As text.
    pub(crate) text: Vec<u8>,
    /// Whether its verdict is clean.
    pub(crate) clean: bool,
}

/// True if a node has no error and no frame left to send.
fn is_clean(node: &NodeTotals) -> bool
    ensures { result ≡ is_clean node.now }
{
    node.errors == 0 && node.unsent == 0
}

/// True if each node has no error and no frame left to send.
fn are_clean(nodes: &[NodeTotals]) -> bool
    ensures { result ≡ list_all is_clean nodes.now }
{
    match nodes {
        [] => true,
        [first, rest @ ..] => is_clean(first) && are_clean(rest),
    }
}

/// Returns the report and its verdict, of what it says of nodes.
pub(crate) fn verdict_as(alloc: Global, brief: bool, totals: &Totals) -> Result<Report, AllocError>
    ensures text { IfOk result (λ r. r.text.items ≡ report_text (shown_totals brief totals.now)) }
    ensures clean { IfOk result (λ r. r.clean ≡ list_all is_clean totals.now) }
{
    let text = report_as(alloc, brief, totals)?;
    let clean = are_clean(totals.as_slice());
    Ok(Report { text, clean })
}

/// Returns the report of a plan's simulation, without the lines of frames if it is to be brief.
fn report_of(alloc: Global, brief: bool, plan: &CheckedPlan) -> Result<Report, AllocError>
    ensures text { IfOk result (λ r. r.text.items
        ≡ report_text (shown_totals brief (totals_of (outcome_of plan.now)))) }
    ensures clean { IfOk result (λ r. r.clean ≡ is_clean_run plan.now) }
{
    let totals = run_totals(alloc, plan)?;
    verdict_as(alloc, brief, &totals)
}

/// Writes the report of a plan's simulation, and returns whether its verdict is clean.
fn write_run<W: Sink>(
    alloc: Global,
    brief: bool,
    plan: &CheckedPlan,
    writer: &mut W,
) -> Result<bool, RunFault>
    ensures { (names : List (List ℕ))
        → OutputsWith W.takes (IsReportOutput brief plan.now names) writer.old writer.new result }
{
    let report = report_of(alloc, brief, plan)?;
    write_answer(report.clean, &report.text, writer)
}

/// Reads a plan's text, simulates the plan on one thread, and writes the report: for each node its counters and the frames that passed, and
/// a verdict. Returns whether the verdict is clean.
///
/// The whole output is made before the first write. If the input is refused, or memory runs out, the writer isn't called; if the writer
/// fails, a prefix of the output has been written.
pub fn plan_run<R: Source, W: Sink>(
    alloc: Global,
    reader: &mut R,
    writer: &mut W,
) -> Result<bool, RunFault>
    ensures { RunsPlanWith R.gives W.takes IsRunOutput reader.old reader.new writer.old writer.new result }
{
    plan_run_as(alloc, false, reader, writer)
}

/// Does as `plan_run`, and leaves out the lines of frames if the report is to be brief.
pub fn plan_run_as<R: Source, W: Sink>(
    alloc: Global,
    brief: bool,
    reader: &mut R,
    writer: &mut W,
) -> Result<bool, RunFault>
    ensures { RunsPlanWith R.gives W.takes (IsReportOutput brief) reader.old reader.new writer.old writer.new result }
{
    match read_checked(alloc, reader) {
        Ok((plan, _names)) => write_run(alloc, brief, &plan, writer),
        Err(fault) => Err(RunFault::from(fault)),
    }
}
