//! The margin of a bus.
ghost use Rattle.std.specs.Prelude.{◌≡◌, IfOk, length};
ghost use Rattle.wl_engines.specs.Margin.{IsMargin, IsMarginOutput, RunsBus};
ghost use Rattle.wl_engines.specs.Output.{OutputsWith};

use crate::fault::RunFault;
use crate::holding::{asked_by, bus_holds};
use crate::output::write_answer;
use std::alloc::{AllocError, Global};
use wl_device::{Sink, Source};
use wl_margin::{all_send_text, margin_text};
use wl_setup::{Bus, read_bus};
use wl_views::Tick;

/// Returns the margin of a bus: of the plan's senders, or, if `all_send`, of all nodes that don't only listen.
fn text_of_bus(alloc: Global, tick: Tick, all_send: bool, bus: &Bus) -> Result<Vec<u8>, AllocError>
    requires { length bus.now.deviations ≡ length bus.now.plan.nodes }
    ensures { IfOk result (λ text. IsMargin tick all_send bus.now text.items) }
{
    if all_send {
        Ok(all_send_text(alloc, tick.picoseconds(), bus)?.into_bytes())
    } else {
        Ok(margin_text(alloc, tick.picoseconds(), bus)?.into_bytes())
    }
}

/// Writes the margin of a bus, and returns whether the condition holds.
fn write_margin<W: Sink>(
    alloc: Global,
    tick: Tick,
    all_send: bool,
    bus: &Bus,
    writer: &mut W,
) -> Result<bool, RunFault>
    requires { length bus.now.deviations ≡ length bus.now.plan.nodes }
    ensures { OutputsWith W.takes (IsMarginOutput tick all_send bus.now) writer.old writer.new result }
{
    let text = text_of_bus(alloc, tick, all_send, bus)?;
    let holds = bus_holds(alloc, asked_by(all_send), bus)?;
    write_answer(holds, &text, writer)
}

/// Reads a plan's text, tests whether the plan can be run, and writes the margin of its bus, at all offsets and clocks within their
/// tolerance. The margin is whether it works, with how much to spare, and how much longer its cable and wider its tolerances may be. A tick
/// of the plan takes as long as `tick` says. The senders are those of the plan, or, if `all_send`, all nodes that don't only listen. Returns
/// whether the condition for a sound bus holds, as the margin says first.
///
/// The whole output is made before the first write. If the input is refused, or memory runs out, the writer isn't called; if the writer
/// fails, a prefix of the output has been written.
pub fn margin_run<R: Source, W: Sink>(
    alloc: Global,
    tick: Tick,
    all_send: bool,
    reader: &mut R,
    writer: &mut W,
) -> Result<bool, RunFault>
    ensures { RunsBus R.gives W.takes (IsMarginOutput tick all_send)
        reader.old reader.new writer.old writer.new result }
{
    match read_bus(alloc, reader) {
        Ok(bus) => write_margin(alloc, tick, all_send, &bus, writer),
        Err(fault) => Err(RunFault::from(fault)),
    }
}
