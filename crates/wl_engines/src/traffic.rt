//! The traffic of a run.
ghost use Rattle.std.specs.Prelude.{◌≤◌, length};
ghost use Rattle.wl_engines.specs.Answered.{AnswersText};
ghost use Rattle.wl_engines.specs.TrafficRun.{IsTrafficOutput, RunsTraffic};
ghost use Rattle.wl_setup.specs.Limits.{most_bytes};

use crate::fault::RunFault;
use crate::output::write_answer;
use crate::respond::text_of;
use std::alloc::Global;
use wl_device::{Ended, Sink, Source};
use wl_serial::run_counted;
use wl_setup::{SetupFault, bus_of_bytes, read_bytes};
use wl_traffic::{Reason, traffic_of_bus};
use wl_views::Tick;

/// Simulates the plan of a text, writes its traffic, and returns why the run didn't work.
fn traffic_of_text<W: Sink>(
    alloc: Global,
    tick: Tick,
    text: &[u8],
    writer: &mut W,
) -> Result<Reason, RunFault>
    requires { length text.now ≤ most_bytes }
    ensures { AnswersText (IsTrafficOutput tick) W.takes text.now writer.old writer.new result }
{
    let plain = text_of(alloc, text)?;
    let bus = bus_of_bytes(alloc, text)?;
    let counted = run_counted(alloc, &bus.plan)?;
    let found = traffic_of_bus(alloc, tick, &plain, &bus, &counted)?;
    write_answer(found.reason, found.text.as_bytes(), writer)
}

/// Reads a plan's text, simulates the plan, and writes how busy the bus was, how long the messages of each node waited, and why the run
/// didn't work. Returns that reason. A tick of the plan takes as long as `tick` says. If `respond` says of the text that the waits are bounded,
/// the bound of each message is written too.
///
/// The whole output is made before the first write. If the input is refused, or memory runs out, the writer isn't called; if the writer
/// fails, a prefix of the output has been written.
pub fn traffic_run<R: Source, W: Sink>(
    alloc: Global,
    tick: Tick,
    reader: &mut R,
    writer: &mut W,
) -> Result<Reason, RunFault>
    ensures { RunsTraffic R.gives W.takes tick reader.old reader.new writer.old writer.new result }
{
    let (text, ended) = read_bytes(alloc, reader)?;
    match ended {
        Ended::End => traffic_of_text(alloc, tick, &text, writer),
        Ended::Broken => Err(RunFault::Setup(SetupFault::Read)),
        Ended::Full => Err(RunFault::Setup(SetupFault::Size)),
    }
}
