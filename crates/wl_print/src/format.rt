//! Any plan as one of version 4.
ghost use Rattle.std.specs.Prelude.{◌≡◌, ◌≢◌, Ok, Err, IfOk, IfErr, option_map, string_bytes};
ghost use Rattle.wl_print.specs.Formats.{Formats, early_after, early_before, early_frame, early_in, rewritten, order_fault, upgraded};
ghost use Rattle.wl_print.specs.Written.{plan_words};
ghost use Rattle.wl_print.specs.declared.fault.PrintFault.TheVariants.{Memory};

use crate::fault::PrintFault;
use crate::written::plan_text;
use std::alloc::Global;
use wl_device::{Sink, Source, write_all};
use wl_setup::{FrameText, NodeText, PlanText, read_text};

/// The first version in which frames wait in the order in which they become ready.
const VERSION_OF_TRAFFIC: u64 = 3;

/// Returns the number of the first frame that becomes ready before the one above it.
fn early_frame(frames: &[FrameText]) -> Option<u64>
    ensures { result ≡ early_frame frames.now }
{
    let mut ready = 0;
    for (n, frame) in frames.iter().enumerate() {
        if frame.ready < ready {
            return Some(n as u64);
        }
        ready = frame.ready;
    }
    None
}

/// Returns the number of the first node with such a frame, and the frame's.
fn early_in(nodes: &[NodeText]) -> Option<(u64, u64)>
    ensures { result ≡ early_in 0 nodes.now }
{
    for (i, node) in nodes.iter().enumerate() {
        if let Some(n) = early_frame(node.frame.as_slice()) {
            return Some((i as u64, n));
        }
    }
    None
}

/// Returns the first frame of a plan of version 1 or 2 that becomes ready before the one above it, by the number of its node and its own.
fn order_fault(text: &PlanText) -> Option<(u64, u64)>
    ensures { result ≡ order_fault text.now }
{
    if text.version == VERSION_OF_TRAFFIC || text.version == 4 {
        None
    } else {
        early_in(text.node.as_slice())
    }
}

/// Returns the plan of a text in version 4, or why there is none.
fn rewritten(alloc: Global, text: PlanText) -> Result<PlanText, PrintFault>
    ensures ok { IfOk result (λ made. rewritten text ≡ Ok made) }
    ensures fault { IfErr result (λ e. e ≢ Memory → rewritten text ≡ Err e) }
{
    text.plan(alloc)?;
    match order_fault(&text) {
        Some((node, frame)) => Err(PrintFault::Order(node, frame)),
        None => Ok(PlanText { version: 4, ..text }),
    }
}

/// Reads a plan's text and writes the plan as one of version 4, key by key in the order of the format. Comments aren't kept, and each key has
/// a line of its own.
///
/// The first of these faults: `Setup`, as `run` has it; `Order`, if the plan is of version 1 or 2 and has a frame that becomes ready before the
/// one above it. The whole output is made before the first write. If the input is refused, or memory runs out, the writer isn't called; if the
/// writer fails, a prefix of the output has been written. What is written as a whole is read as the plan text that was made.
pub fn format_run<R: Source, W: Sink>(
    alloc: Global,
    reader: &mut R,
    writer: &mut W,
) -> Result<(), PrintFault>
    ensures { Formats R.gives W.takes reader.old reader.new writer.old writer.new result }
{
    let text = read_text(alloc, reader)?;
    let made = rewritten(alloc, text)?;
    let words = plan_text(alloc, &made)?;
    write_all(words.as_bytes(), writer)?;
    Ok(())
}
