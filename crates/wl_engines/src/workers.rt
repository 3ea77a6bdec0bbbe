//! The report of a plan's simulation, by workers.
ghost use Rattle.std.specs.Prelude.{◌≡◌, Err, IfOk, IfErr, MatchResult};
ghost use Rattle.wl_serial.specs.Outcome.{outcome_of, totals_of};
ghost use Rattle.wl_report.specs.Report.{report_text};
ghost use Rattle.wl_engines.specs.Output.{WritesAnswer};
ghost use Rattle.wl_engines.specs.Plans.{is_clean_run, shown_totals};
ghost use Rattle.wl_engines.specs.Workers.{CanWork, IsWorkFault, RunsByWorkers, RunsByWorkersAs};

use crate::fault::RunFault;
use crate::output::write_answer;
use crate::plan::{Report, verdict_as};
use std::alloc::Global;
use std::sync::Wait;
use std::thread::Threads;
use wl_device::{Sink, Source};
use wl_plan::CheckedPlan;
use wl_setup::read_checked;
use wl_worker::{Gate, LinkKind, simulate_by};

/// Who makes the report of a plan's simulation, and whether it is to be brief.
#[derive(Clone, Copy, Debug)]
pub struct Crew {
    /// How many workers.
    pub workers: u8,
    /// The kind of link over which they hand records over.
    pub kind: LinkKind,
    /// Whether the lines of frames are left out.
    pub brief: bool,
}

/// A gate that lets each turn begin.
#[derive(Drop)]
struct OpenGate;

impl Gate for OpenGate {
    ghost use Rattle.std.specs.Prelude.{◌≡◌, true};

    fn turn(&self, _worker: u8, _turn: u64) -> bool
        ensures { result ≡ true }
    {
        true
    }
}

/// Returns the report of a plan's simulation by workers.
fn report_by<H: Threads + Wait + Sync>(
    rt: &H,
    alloc: Global,
    plan: CheckedPlan,
    crew: Crew,
) -> Result<Report, RunFault>
    ensures text { IfOk result (λ r. r.text.items
        ≡ report_text (shown_totals crew.brief (totals_of (outcome_of plan)))) }
    ensures clean { IfOk result (λ r. r.clean ≡ is_clean_run plan) }
    ensures count { IfOk result (λ _. CanWork crew.workers) }
    ensures fault { IfErr result (IsWorkFault crew.workers) }
{
    let plan = plan.into_plan();
    let outcome = simulate_by(rt, alloc, plan, crew.workers, crew.kind, &OpenGate)?;
    let totals = outcome.totals(alloc)?;
    Ok(verdict_as(alloc, crew.brief, &totals)?)
}

/// Writes a report if there is one, and returns whether its verdict is clean.
fn write_report<W: Sink>(made: Result<Report, RunFault>, writer: &mut W) -> Result<bool, RunFault>
    ensures { MatchResult made (λ r. WritesAnswer W.takes r.text.items r.clean writer.old writer.new result)
        (λ fault. (result ≡ Err fault) × (writer.new ≡ writer.old)) }
{
    match made {
        Ok(report) => write_answer(report.clean, &report.text, writer),
        Err(fault) => Err(fault),
    }
}

/// Reads a plan's text, simulates the plan by workers, and writes the report of the one-thread simulation (`plan_run_as`). There is a thread
/// for each worker. Returns whether its verdict is clean.
///
/// The whole output is made before the first write. If the input is refused, the workers have no outcome, or memory runs out, the writer
/// isn't called; if the writer fails, a prefix of the output has been written. It refuses 0 workers and more than 8, once a plan was read.
/// It may wait: no clause says that it returns.
pub fn workers_run_as<H: Threads + Wait + Sync, R: Source, W: Sink>(
    rt: &H,
    alloc: Global,
    crew: Crew,
    reader: &mut R,
    writer: &mut W,
) -> Result<bool, RunFault>
    ensures { RunsByWorkersAs R.gives W.takes crew.brief crew.workers
        reader.old reader.new writer.old writer.new result }
{
    match read_checked(alloc, reader) {
        Ok((plan, _names)) => write_report(report_by(rt, alloc, plan, crew), writer),
        Err(fault) => Err(RunFault::from(fault)),
    }
}

/// Does as `workers_run_as`, and writes the whole report: by this many workers, over this kind of link.
pub fn workers_run_by<H: Threads + Wait + Sync, R: Source, W: Sink>(
    rt: &H,
    alloc: Global,
    workers: u8,
    kind: LinkKind,
    reader: &mut R,
    writer: &mut W,
) -> Result<bool, RunFault>
    ensures { RunsByWorkers R.gives W.takes workers reader.old reader.new writer.old writer.new result }
{
    let crew = Crew {
        workers,
        kind,
        brief: false,
    };
    workers_run_as(rt, alloc, crew, reader, writer)
}

/// Does the same by workers over one hub.
pub fn workers_run<H: Threads + Wait + Sync, R: Source, W: Sink>(
    rt: &H,
    alloc: Global,
    workers: u8,
    reader: &mut R,
    writer: &mut W,
) -> Result<bool, RunFault>
    ensures { RunsByWorkers R.gives W.takes workers reader.old reader.new writer.old writer.new result }
{
    workers_run_by(rt, alloc, workers, LinkKind::Hub, reader, writer)
}
