//! The map of a sweep over a plan's text.
ghost use Rattle.std.specs.Prelude.{map, string_bytes};
ghost use Rattle.wl_sweep_engine.specs.Sweeping.{Maps};

use crate::asked::{Asked, check_workers, read_sweep};
use crate::fault::SweepFault;
use std::alloc::Global;
use std::thread::Threads;
use std::time::Clock;
use wl_device::{Sink, Source, write_all};
use wl_map::map_page;
use wl_setup::read_text;
use wl_sweep::Workers;

/// Reads a plan's text, runs the members of its family by so many threads, and writes one page of HTML: a map whose cells are the rows of the
/// first two ranges. Each other range is held at its first value. Returns whether each member that was run is clean.
///
/// The first of these faults: `Runs`, `Step`, `Workers`, before anything is read; `Setup`, as `run` has it; `Range`, of the first word that is
/// none; `Rows`. The whole output is made before the first write. If the input or a word is refused, or memory runs out, the writer isn't
/// called; if the writer fails, a prefix of the output has been written. The output is the same for each number of threads. No progress is
/// reported.
pub fn map_run<H: Threads + Sync + Eprint + Clock, R: Source, W: Sink>(
    rt: &H,
    alloc: Global,
    words: &[String],
    asked: Asked,
    workers: Workers,
    reader: &mut R,
    writer: &mut W,
) -> Result<bool, SweepFault>
    ensures { Maps R.gives W.takes (map string_bytes words.now) asked reader.old reader.new writer.old writer.new
        workers.count result }
{
    check_workers(asked.options, workers.count)?;
    let text = read_text(alloc, reader)?;
    let (_, sweep) = read_sweep(alloc, text, words, asked)?;
    let (page, clean) = map_page(rt, alloc, sweep, asked.worst, workers.count)?;
    write_all(&page, writer)?;
    Ok(clean)
}
