//! Views of a plan's simulation in the formats of other tools.
ghost use Rattle.std.specs.Prelude.{◌≡◌, IfOk};
ghost use Rattle.wl_views.specs.Candump.{log_text};
ghost use Rattle.wl_views.specs.ErrorFrames.{error_log};
ghost use Rattle.wl_views.specs.Picks.{trace_text};
ghost use Rattle.wl_engines.specs.Output.{Outputs};
ghost use Rattle.wl_engines.specs.Plans.{RunsPlan, IsCandumpOutput, IsCandumpWithin, IsErrorLog, IsLogAs, IsTraceOutput, IsTracePicked, IsVcdOutput, IsVcdWithin};

use crate::fault::RunFault;
use crate::shown::pick_of;
use crate::view::{View, WHOLE, run_view};
use std::alloc::{AllocError, Global};
use wl_device::{Sink, Source};
use wl_plan::CheckedPlan;
use wl_serial::{run_drives, run_totals};
use wl_setup::Names;
use wl_views::{Pick, Tick, Window, candump, candump_errors, sent_in_time, trace, vcd};

/// Returns the log of the frames that a plan's simulation sent within a window. Its nodes only count.
pub(crate) fn log_text(
    alloc: Global,
    tick: Tick,
    from: u32,
    window: Window,
    plan: &CheckedPlan,
) -> Result<Vec<u8>, AllocError>
    ensures { IfOk result (λ text. text.items ≡ log_text tick from window plan.now) }
{
    sent_in_time();
    let totals = run_totals(alloc, plan)?;
    candump(alloc, tick, from, window, plan, &totals)
}

/// Reads a plan's text, simulates the plan, and writes a line for each frame that was sent, in the order of their completion, as can-utils
/// logs frames; a tick of the plan takes as long as `tick` says, and tick 0 is at second `from`. Frames that were completed outside of
/// `window` are left out.
///
/// The whole output is before the first write. If the input is refused, or memory runs out, the writer isn't called; if the writer fails, a
/// prefix of the output has gone out.
pub fn candump_run_within<R: Source, W: Sink>(
    alloc: Global,
    tick: Tick,
    from: u32,
    window: Window,
    reader: &mut R,
    writer: &mut W,
) -> Result<(), RunFault>
    ensures { RunsPlan R.gives W.takes (IsCandumpWithin tick from window)
        reader.old reader.new writer.old writer.new result }
{
    run_view(alloc, View::Candump(tick, from, window), reader, writer)
}

/// Does as `candump_run_within`, and leaves out no frame.
pub fn candump_run<R: Source, W: Sink>(
    alloc: Global,
    tick: Tick,
    from: u32,
    reader: &mut R,
    writer: &mut W,
) -> Result<(), RunFault>
    ensures { RunsPlan R.gives W.takes (IsCandumpOutput tick from) reader.old reader.new writer.old writer.new result }
{
    candump_run_within(alloc, tick, from, WHOLE, reader, writer)
}

/// Returns the same with error frames.
pub(crate) fn error_log_text(
    alloc: Global,
    tick: Tick,
    from: u32,
    window: Window,
    plan: &CheckedPlan,
) -> Result<Vec<u8>, AllocError>
    ensures { IfOk result (λ text. text.items ≡ error_log tick from window plan.now) }
{
    let drives = run_drives(alloc, plan)?;
    candump_errors(alloc, tick, from, window, plan, &drives)
}

/// Does as `candump_run_within`, and writes a line for each error that a node finds and for each mode of a node, too, as Linux's error frames.
pub fn candump_errors_run<R: Source, W: Sink>(
    alloc: Global,
    tick: Tick,
    from: u32,
    window: Window,
    reader: &mut R,
    writer: &mut W,
) -> Result<(), RunFault>
    ensures { RunsPlan R.gives W.takes (IsErrorLog tick from window)
        reader.old reader.new writer.old writer.new result }
{
    run_view(alloc, View::ErrorLog(tick, from, window), reader, writer)
}

/// Does as `candump_errors_run` if error frames are asked for, and else as `candump_run_within`.
pub fn candump_run_as<R: Source, W: Sink>(
    alloc: Global,
    tick: Tick,
    from: u32,
    errors: bool,
    window: Window,
    reader: &mut R,
    writer: &mut W,
) -> Result<(), RunFault>
    ensures { RunsPlan R.gives W.takes (IsLogAs errors tick from window)
        reader.old reader.new writer.old writer.new result }
{
    if errors {
        candump_errors_run(alloc, tick, from, window, reader, writer)
    } else {
        candump_run_within(alloc, tick, from, window, reader, writer)
    }
}

/// Writes the waveform of a window of a plan's simulation by pieces, as it is found. The nodes only count. Memory is asked for before the
/// first piece.
pub(crate) fn write_wave<W: Sink>(
    alloc: Global,
    tick: Tick,
    window: Window,
    plan: &CheckedPlan,
    names: &Names,
    writer: &mut W,
) -> Result<(), RunFault>
    ensures { Outputs W.takes (IsVcdWithin tick window plan.now names.now) writer.old writer.new result }
{
    let drives = run_drives(alloc, plan)?;
    vcd(alloc, tick, window, plan, names, &drives, writer)?;
    Ok(())
}

/// Reads a plan's text, simulates the plan, and writes the waveform of a window as a Value Change Dump (IEEE 1364-2005, clause 18.2). Of each
/// node that is its drive, what it finds on the line, the cable and the disturbances at its place, its samples and bit starts, and its
/// state. A tick of the plan takes as long as `tick` says. First are all values at the window's first tick, then the changes after it.
///
/// The output goes out by pieces, as it is found; memory is asked for before the first of them. If the input is refused, or memory runs
/// out, the writer isn't called; if the writer fails, a prefix of the output has been written.
pub fn vcd_run_within<R: Source, W: Sink>(
    alloc: Global,
    tick: Tick,
    window: Window,
    reader: &mut R,
    writer: &mut W,
) -> Result<(), RunFault>
    ensures { RunsPlan R.gives W.takes (IsVcdWithin tick window) reader.old reader.new writer.old writer.new result }
{
    run_view(alloc, View::Vcd(tick, window), reader, writer)
}

/// Does as `vcd_run_within`, and leaves out no change.
pub fn vcd_run<R: Source, W: Sink>(
    alloc: Global,
    tick: Tick,
    reader: &mut R,
    writer: &mut W,
) -> Result<(), RunFault>
    ensures { RunsPlan R.gives W.takes (IsVcdOutput tick) reader.old reader.new writer.old writer.new result }
{
    vcd_run_within(alloc, tick, WHOLE, reader, writer)
}

/// Returns the lines of the trace of a plan's simulation that are picked, under these names of its nodes.
pub(crate) fn trace_text(
    alloc: Global,
    pick: Pick,
    plan: &CheckedPlan,
    names: &Names,
) -> Result<Vec<u8>, AllocError>
    ensures { IfOk result (λ text. text.items ≡ trace_text pick plan.now names.now) }
{
    let drives = run_drives(alloc, plan)?;
    trace(alloc, &pick, plan, names, &drives)
}

/// Reads a plan's text, simulates the plan, and writes a line for each event of each node that is picked, in the order of their ticks.
///
/// The whole output is made before the first write. If the input is refused, or memory runs out, the writer isn't called; if the writer
/// fails, a prefix of the output has been written.
pub fn picked_trace_run<R: Source, W: Sink>(
    alloc: Global,
    pick: Pick,
    reader: &mut R,
    writer: &mut W,
) -> Result<(), RunFault>
    ensures { RunsPlan R.gives W.takes (IsTracePicked pick) reader.old reader.new writer.old writer.new result }
{
    run_view(alloc, View::Trace(pick), reader, writer)
}

/// Does as `picked_trace_run`, and leaves out no event.
pub fn trace_run<R: Source, W: Sink>(
    alloc: Global,
    reader: &mut R,
    writer: &mut W,
) -> Result<(), RunFault>
    ensures { RunsPlan R.gives W.takes IsTraceOutput reader.old reader.new writer.old writer.new result }
{
    picked_trace_run(alloc, pick_of(WHOLE), reader, writer)
}
