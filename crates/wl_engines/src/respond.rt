//! How long the messages of a plan may wait.
ghost use Rattle.std.specs.Prelude.{◌≡◌, ◌≢◌, ◌≤◌, Ok, Err, IfOk, IfErr, length};
ghost use Rattle.wl_engines.specs.Answered.{AnswersText};
ghost use Rattle.wl_engines.specs.Explained.{bus_answer};
ghost use Rattle.wl_engines.specs.Responded.{IsResponse, Responds};
ghost use Rattle.wl_setup.specs.Limits.{most_bytes};
ghost use Rattle.wl_setup.specs.Reading.{text_answer};

use crate::fault::RunFault;
use crate::output::write_answer;
use crate::reader::TextReader;
use std::alloc::{AllocError, Global};
use wl_device::{Ended, Sink, Source};
use wl_lines::{Format, written_as};
use wl_respond::{Question, respond_lines, respond_outline};
use wl_setup::{PlanText, SetupFault, bus_of_bytes, read_bytes, read_text};
use wl_views::Tick;

/// Returns what a text in memory says, or its first fault.
pub(crate) fn text_of(alloc: Global, text: &[u8]) -> Result<PlanText, SetupFault>
    requires { length text.now ≤ most_bytes }
    ensures read { IfOk result (λ plain. text_answer text.now ≡ Ok plain) }
    ensures fault { IfErr result (λ e. e ≢ SetupFault.Memory → bus_answer text.now ≡ Err e) }
{
    let mut reader = TextReader { rest: text };
    read_text(alloc, &mut reader)
}

/// Returns what a text in memory says. A text with a bus is refused only when out of memory.
pub(crate) fn plain_of(alloc: Global, text: &[u8]) -> Result<PlanText, AllocError>
    requires { length text.now ≤ most_bytes }
    ensures { IfOk result (λ plain. text_answer text.now ≡ Ok plain) }
{
    match text_of(alloc, text) {
        Ok(plain) => Ok(plain),
        Err(_) => Err(AllocError),
    }
}

/// Writes how long the messages of a text's plan may wait, and returns whether all deadlines are met.
fn respond_to<W: Sink>(
    alloc: Global,
    tick: Tick,
    any_data: bool,
    format: Option<Format>,
    text: &[u8],
    writer: &mut W,
) -> Result<bool, RunFault>
    requires { length text.now ≤ most_bytes }
    ensures { AnswersText (IsResponse tick any_data format) W.takes text.now writer.old writer.new result }
{
    let plain = text_of(alloc, text)?;
    let bus = bus_of_bytes(alloc, text)?;
    let question = Question {
        tick: tick.picoseconds(),
        any_data,
    };
    let response = respond_lines(alloc, question, &plain, &bus)?;
    let bytes = written_as(alloc, format, respond_outline(), &response.lines)?;
    write_answer(response.met, &bytes, writer)
}

/// Reads a plan's text, tests whether the plan can be run, and writes how long each message may wait, at all offsets and clocks within their
/// tolerance. Returns whether each has a bound, and meets its deadline. A tick of the plan takes as long as `tick` says. If `any_data`, a frame
/// may have any data in the place of its own. It writes text, or another format.
///
/// The whole output is made before the first write. If the input is refused, or memory runs out, the writer isn't called; if the writer
/// fails, a prefix of the output has been written.
pub fn respond_run<R: Source, W: Sink>(
    alloc: Global,
    tick: Tick,
    any_data: bool,
    format: Option<Format>,
    reader: &mut R,
    writer: &mut W,
) -> Result<bool, RunFault>
    ensures { Responds R.gives W.takes tick any_data format reader.old reader.new writer.old writer.new result }
{
    let (text, ended) = read_bytes(alloc, reader)?;
    match ended {
        Ended::End => respond_to(alloc, tick, any_data, format, &text, writer),
        Ended::Broken => Err(RunFault::Setup(SetupFault::Read)),
        Ended::Full => Err(RunFault::Setup(SetupFault::Size)),
    }
}
