//! The settings that a text asks for.
ghost use Rattle.std.specs.Prelude.{◌≡◌};
ghost use Rattle.wl_settings.specs.Runs.{RunsSettings};
ghost use Rattle.wl_settings.specs.WordRuns.{RunsWords};

use crate::fault::SettingsFault;
use crate::question::wanted_by_words;
use crate::read::read_wanted;
use crate::said::{Shown, said};
use crate::topics::AskedWord;
use std::alloc::Global;
use wl_device::{Sink, Source, write_all};

/// Reads what is asked for, and writes the settings of each controller with which the bus works, or the plan of the first one. Returns whether
/// each controller has a setting; if the plan is written, the first one has. A tick takes `tick` picoseconds.
///
/// The whole output is made before the first write. If the input is refused, memory runs out, or a plan is asked for and there is none, the
/// writer isn't called; if the writer fails, a prefix of the output has been written.
pub fn settings_run<R: Source, W: Sink>(
    alloc: Global,
    tick: u64,
    shown: Shown,
    reader: &mut R,
    writer: &mut W,
) -> Result<bool, SettingsFault>
    ensures { RunsSettings R.gives W.takes tick shown reader.old reader.new writer.old writer.new result }
{
    let wanted = read_wanted(alloc, tick, reader)?;
    let said = said(alloc, shown, &wanted)?;
    write_all(said.text.as_bytes(), writer)?;
    Ok(said.all)
}

/// Writes the settings of each controller that words ask for with which the bus works, or the plan of the first one. Returns whether each
/// controller has a setting; if the plan is written, the first one has. A tick takes `tick` picoseconds, and a unit of length is a metre.
///
/// If the words are refused, memory runs out, or a plan is asked for and there is none, the writer isn't called; if the writer fails, a prefix
/// of the output has been written. `Missing` and `Kind` name an option, as `--cable`.
pub fn settings_of_words<W: Sink>(
    alloc: Global,
    tick: u64,
    shown: Shown,
    words: &[AskedWord],
    writer: &mut W,
) -> Result<bool, SettingsFault>
    ensures { RunsWords W.takes tick shown words.now writer.old writer.new result }
{
    let wanted = wanted_by_words(alloc, tick, words)?;
    let said = said(alloc, shown, &wanted)?;
    write_all(said.text.as_bytes(), writer)?;
    Ok(said.all)
}
