//! The trace of the node that a name asks for.
ghost use Rattle.std.specs.Prelude.{◌≡◌, MatchResult, Err, IfOk};
ghost use Rattle.wl_engines.specs.declared.fault.RunFault.TheVariants.{Memory};
ghost use Rattle.wl_engines.specs.Named.{IsNodeTrace, has_name, named_node};
ghost use Rattle.wl_engines.specs.Output.{WritesAnswer};
ghost use Rattle.wl_engines.specs.Plans.{RunsPlanWith};

use crate::fault::RunFault;
use crate::output::write_answer;
use crate::views::trace_text;
use std::alloc::{AllocError, Global};
use wl_device::{Sink, Source};
use wl_plan::CheckedPlan;
use wl_setup::{Names, read_checked};
use wl_views::Pick;

/// True if a node has this name.
fn has_name(names: &Names, name: &str, node: u8) -> bool
    ensures { result ≡ has_name names.now name.now node }
{
    match names.name(node as usize) {
        Some(other) => name == other,
        None => false,
    }
}

/// Returns the number of the node of a plan that has this name, if there is one.
fn named_node(plan: &CheckedPlan, names: &Names, name: &str) -> Option<u8>
    ensures { result ≡ named_node plan.now names.now name.now }
{
    let mut first = None;
    for i in 0..plan.nodes() {
        if first.is_none() && has_name(names, name, i) {
            first = Some(i);
        }
    }
    first
}

/// The trace of a node.
#[derive(Drop)]
struct NodeTrace {
    /// As text.
    text: Vec<u8>,
    /// Whether there is such a node.
    found: bool,
}

/// Returns the lines that are picked of the node of a name; none if no node has it.
fn node_trace(
    alloc: Global,
    pick: Pick,
    name: &str,
    plan: &CheckedPlan,
    names: &Names,
) -> Result<NodeTrace, AllocError>
    ensures { IfOk result (λ made. IsNodeTrace pick name.now plan.now names.now made.text.items made.found) }
{
    match named_node(plan, names, name) {
        Some(node) => {
            let pick = Pick {
                node: Some(node),
                ..pick
            };
            let text = trace_text(alloc, pick, plan, names)?;
            Ok(NodeTrace { text, found: true })
        }
        None => Ok(NodeTrace {
            text: Vec::new(alloc),
            found: false,
        }),
    }
}

/// Writes a trace if it was made, and returns whether there is its node. Else memory was refused, and the writer isn't called.
fn write_trace<W: Sink>(
    made: Result<NodeTrace, AllocError>,
    writer: &mut W,
) -> Result<bool, RunFault>
    ensures { MatchResult made
        (λ trace. WritesAnswer W.takes trace.text.items trace.found writer.old writer.new result)
        (λ _. (result ≡ Err Memory) × (writer.new ≡ writer.old)) }
{
    let trace = made?;
    write_answer(trace.found, &trace.text, writer)
}

/// Does as `picked_trace_run`, of the node of a name in the place of the one that `pick` has. Returns whether a node has the name. If none has
/// it nothing is written.
pub fn node_trace_run<R: Source, W: Sink>(
    alloc: Global,
    pick: Pick,
    name: &str,
    reader: &mut R,
    writer: &mut W,
) -> Result<bool, RunFault>
    ensures { RunsPlanWith R.gives W.takes (IsNodeTrace pick name.now)
        reader.old reader.new writer.old writer.new result }
{
    match read_checked(alloc, reader) {
        Ok((plan, names)) => write_trace(node_trace(alloc, pick, name, &plan, &names), writer),
        Err(fault) => Err(RunFault::from(fault)),
    }
}
