//! A sweep over a plan's text.
ghost use Rattle.std.specs.Prelude.{◌≡◌, true, OnOk, IfOk, map, string_bytes};
ghost use Rattle.wl_report.specs.Lines.{GrowsBy};
ghost use Rattle.wl_sweep.specs.Sweeps.{all_findings, is_small};
ghost use Rattle.wl_sweep.specs.Tallies.{tally_of};
ghost use Rattle.wl_sweep_engine.specs.Said.{IsSaid, added_words, untested_words};
ghost use Rattle.wl_sweep_engine.specs.Sweeping.{Sweeps};

use crate::asked::{Asked, check_workers, read_sweep};
use crate::fault::SweepFault;
use crate::payload::none_tests;
use std::alloc::{AllocError, Global};
use std::thread::Threads;
use std::time::Clock;
use wl_device::{Sink, Source, write_all};
use wl_plan::Plan;
use wl_setup::read_text;
use wl_sweep::{Sweep, Tally, Workers};

/// Adds that each sender has a frame more, if so.
pub(crate) fn push_added(text: &mut String, worst: bool) -> Result<(), AllocError>
    ensures { OnOk result (GrowsBy text.old text.new (added_words worst)) }
{
    if worst {
        text.push_str("each sender has one frame more, with edges ten bits apart\n")
    } else {
        Ok(())
    }
}

/// Adds that no frame tests the clocks, if so.
pub(crate) fn push_untested(text: &mut String, untested: bool) -> Result<(), AllocError>
    ensures { OnOk result (GrowsBy text.old text.new (untested_words untested)) }
{
    if untested {
        text.push_str(
            "no frame has edges ten bits apart, so none tests the clocks; --worst adds some that do\n",
        )
    } else {
        Ok(())
    }
}

/// Returns what a sweep says, and on the frames of its plan, and the tally.
fn say<H: Threads + Sync + Eprint + Clock>(
    rt: &H,
    alloc: Global,
    plan: &Plan,
    sweep: &Sweep,
    worst: bool,
    workers: Workers,
) -> Result<(String, Tally), AllocError>
    requires { is_small sweep.now ≡ true }
    ensures text { IfOk result (λ r. IsSaid worst plan.now sweep.now (string_bytes r.0)) }
    ensures tally { IfOk result (λ r. r.1 ≡ tally_of (all_findings sweep.now)) }
{
    let (mut text, tally) = sweep.run(rt, alloc, workers)?;
    push_added(&mut text, worst)?;
    push_untested(&mut text, none_tests(plan.nodes.as_slice()))?;
    Ok((text, tally))
}

/// Reads a plan's text, runs the members of its family by this many threads, and writes what is found of them. Returns the tally of all
/// members.
///
/// For each row of the ranges it writes how many members are clean, and the same of all rows. Then it writes how much of the family was
/// run, the first member that isn't clean, the first that was refused, and whether the frames test the clocks.
///
/// Each word is a range `[NODE.]KEY=A..B[:STEP]`. The first of these faults: `Runs`, `Step`, `Workers`, before anything is read; `Setup`,
/// as `run` has it; `Range`, of the first word that is none; `Rows`. The whole output is made before the first write. If the input or a
/// word is refused, or memory runs out, the writer isn't called; if the writer fails, a prefix of the output has been written. The output
/// is the same for each number of threads.
pub fn sweep_run<H: Threads + Sync + Eprint + Clock, R: Source, W: Sink>(
    rt: &H,
    alloc: Global,
    words: &[String],
    asked: Asked,
    workers: Workers,
    reader: &mut R,
    writer: &mut W,
) -> Result<Tally, SweepFault>
    ensures { Sweeps R.gives W.takes (map string_bytes words.now) asked reader.old reader.new writer.old writer.new
        workers.count result }
{
    check_workers(asked.options, workers.count)?;
    let text = read_text(alloc, reader)?;
    let (plan, sweep) = read_sweep(alloc, text, words, asked)?;
    let (said, tally) = say(rt, alloc, &plan, &sweep, asked.worst, workers)?;
    write_all(said.as_bytes(), writer)?;
    Ok(tally)
}
