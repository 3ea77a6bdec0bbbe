//! A part of a sweep over a plan's text.
ghost use Rattle.std.specs.Prelude.{◌≡◌, ◌≤◌, true, OnOk, IfOk, map, string_bytes};
ghost use Rattle.wl_report.specs.Lines.{GrowsBy};
ghost use Rattle.wl_sweep.specs.Sweeps.{is_small};
ghost use Rattle.wl_sweep_engine.specs.Asked.{checked_part};
ghost use Rattle.wl_sweep_engine.specs.Parts.{AreLastLines, IsPartText, sweep_name};
ghost use Rattle.wl_sweep_engine.specs.Sweeping.{Parts};

use crate::asked::{Asked, check_workers, read_sweep};
use crate::fault::SweepFault;
use crate::payload::none_tests;
use crate::run::{push_added, push_untested};
use std::alloc::{AllocError, Global};
use std::thread::Threads;
use std::time::Clock;
use wl_device::{Sink, Source, write_all};
use wl_level::Listed;
use wl_map::push_axes;
use wl_parts::part_text;
use wl_plan::Plan;
use wl_print::push_plan;
use wl_setup::read_text;
use wl_sweep::{Options, Share, Sweep, Workers};

/// Returns the bytes of a text.
fn listed(alloc: Global, text: &str) -> Result<Listed<u8>, AllocError>
    ensures { IfOk result (λ bytes. bytes ≡ text.now) }
{
    Ok(Listed::from_vec(Vec::from_slice(alloc, text.as_bytes())?))
}

/// Returns what names a sweep: its options and ranges, and its plan.
fn name_of(alloc: Global, sweep: &Sweep, worst: bool) -> Result<Listed<u8>, AllocError>
    ensures { IfOk result (λ name. name ≡ sweep_name sweep.now worst) }
{
    let mut text = String::new(alloc);
    push_axes(&mut text, sweep, worst)?;
    push_plan(&mut text, &sweep.text)?;
    listed(alloc, text.as_str())
}

/// Returns what a sweep says last, on the frames of its plan.
fn tail_of(alloc: Global, plan: &Plan, worst: bool) -> Result<Listed<u8>, AllocError>
    ensures { IfOk result (λ tail. AreLastLines worst plan.now tail) }
{
    let mut text = String::new(alloc);
    push_added(&mut text, worst)?;
    push_untested(&mut text, none_tests(plan.nodes.as_slice()))?;
    listed(alloc, text.as_str())
}

/// Returns the first fault of options, of the number of threads, or of a share.
fn check_part(options: Options, workers: u8, share: Share) -> Result<(), SweepFault>
    ensures checked { result ≡ checked_part options workers share }
    ensures share { IfOk result (λ checked. (1 ≤ share.number) × (share.number ≤ share.count)) }
{
    check_workers(options, workers)?;
    if share.number == 0 || share.number > share.count {
        Err(SweepFault::Part)
    } else {
        Ok(())
    }
}

/// Returns the text of a part, by this many threads.
fn text_of<H: Threads + Sync + Eprint + Clock>(
    rt: &H,
    alloc: Global,
    plan: &Plan,
    sweep: &Sweep,
    worst: bool,
    share: Share,
    workers: Workers,
) -> Result<Vec<u8>, AllocError>
    requires small { is_small sweep.now ≡ true }
    requires first { 1 ≤ share.number }
    requires last { share.number ≤ share.count }
    ensures { IfOk result (λ text. IsPartText worst plan.now sweep.now share text.items) }
{
    let name = name_of(alloc, sweep, worst)?;
    let tail = tail_of(alloc, plan, worst)?;
    let part = sweep.part(rt, alloc, share, workers, name, tail)?;
    part_text(alloc, &part)
}

/// Reads a plan's text, runs a part of the members of its family by this many threads, and writes the text of the part, for `join_run`.
///
/// The first of these faults: `Runs`, `Step`, `Workers`, `Part`, before anything is read; `Setup`, as `run` has it; `Range`, of the first word that is
/// none; `Rows`. The whole output is made before the first write. If the input or a word is refused, or memory runs out, the writer isn't
/// called; if the writer fails, a prefix of the output has been written. The output is the same for each number of threads.
pub fn part_run<H: Threads + Sync + Eprint + Clock, R: Source, W: Sink>(
    rt: &H,
    alloc: Global,
    words: &[String],
    asked: Asked,
    share: Share,
    workers: Workers,
    reader: &mut R,
    writer: &mut W,
) -> Result<(), SweepFault>
    ensures { Parts R.gives W.takes (map string_bytes words.now) asked reader.old reader.new writer.old writer.new
        share workers.count result }
{
    check_part(asked.options, workers.count, share)?;
    let text = read_text(alloc, reader)?;
    let (plan, sweep) = read_sweep(alloc, text, words, asked)?;
    let text = text_of(rt, alloc, &plan, &sweep, asked.worst, share, workers)?;
    write_all(text.as_slice(), writer)?;
    Ok(())
}
