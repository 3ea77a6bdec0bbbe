//! What is written of a plan.
ghost use Rattle.wl_engines.specs.Plans.{RunsPlan};
ghost use Rattle.wl_engines.specs.Output.{Outputs};
ghost use Rattle.wl_engines.specs.View.{IsOutputOf};

use crate::check::check_text;
use crate::fault::RunFault;
use crate::output::write_made;
use crate::records::records_text;
use crate::views::{error_log_text, log_text, trace_text, write_wave};
use std::alloc::Global;
use wl_device::{Sink, Source};
use wl_plan::CheckedPlan;
use wl_setup::{Names, read_checked};
use wl_views::{Pick, Tick, Window};

/// The window that has each tick.
pub(crate) const WHOLE: Window = Window { from: 0, to: None };

/// What is written of a plan.
#[derive(Clone, Copy)]
pub(crate) enum View {
    /// The settings of its nodes, and the delays between them.
    Check,
    /// The records of its simulation within a window.
    Records(Window),
    /// What happened to each node, as far as it is picked.
    Trace(Pick),
    /// The log of the frames that were sent within a window, at ticks that take so long, the first of them at this second.
    Candump(Tick, u32, Window),
    /// The same with error frames.
    ErrorLog(Tick, u32, Window),
    /// The waveform of a window, at ticks that take so long.
    Vcd(Tick, Window),
}

/// Writes a view of a plan under these names of its nodes. If memory runs out the writer isn't called.
fn write_view<W: Sink>(
    alloc: Global,
    view: View,
    plan: &CheckedPlan,
    names: &Names,
    writer: &mut W,
) -> Result<(), RunFault>
    ensures { Outputs W.takes (IsOutputOf view plan.now names.now) writer.old writer.new result }
{
    match view {
        View::Check => write_made(check_text(alloc, plan, names), writer),
        View::Records(window) => write_made(records_text(alloc, window, plan), writer),
        View::Trace(pick) => write_made(trace_text(alloc, pick, plan, names), writer),
        View::Candump(tick, from, window) => {
            write_made(log_text(alloc, tick, from, window, plan), writer)
        }
        View::ErrorLog(tick, from, window) => {
            write_made(error_log_text(alloc, tick, from, window, plan), writer)
        }
        View::Vcd(tick, window) => write_wave(alloc, tick, window, plan, names, writer),
    }
}

/// Reads a plan's text and writes a view of the plan. If the input is refused, or memory runs out, the writer isn't called.
pub(crate) fn run_view<R: Source, W: Sink>(
    alloc: Global,
    view: View,
    reader: &mut R,
    writer: &mut W,
) -> Result<(), RunFault>
    ensures { RunsPlan R.gives W.takes (IsOutputOf view) reader.old reader.new writer.old writer.new result }
{
    match read_checked(alloc, reader) {
        Ok((plan, names)) => write_view(alloc, view, &plan, &names, writer),
        Err(fault) => Err(RunFault::from(fault)),
    }
}
