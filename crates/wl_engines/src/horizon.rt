//! What a record text says of each node, and up to which tick.
ghost use Rattle.std.specs.Prelude.{◌≡◌, ◌<◌, ◌==◌, OnOk, IfOk, string_bytes};
ghost use Rattle.std.specs.List.{flat_map};
ghost use Rattle.wl_report.specs.Lines.{GrowsBy};
ghost use Rattle.wl_limits.specs.declared.Limits.TheVariants.{Narrow};
ghost use Rattle.wl_record_core.specs.Limits.{record_nodes};
ghost use Rattle.wl_replica.specs.Canonical.{canonical};
ghost use Rattle.wl_replica.specs.Dense.{says_something};
ghost use Rattle.wl_engines.specs.Horizon.{TellsHorizons, horizon_line, interval_line, is_named, horizon_lines, lines_below};

use crate::fault::RunFault;
use crate::gather::gather;
use std::alloc::{AllocError, Global};
use wl_device::{Sink, Source, write_all};
use wl_limits::Limits;
use wl_replica::Rows;

/// True if some number of a row says something.
fn says_something(numbers: &[u64]) -> bool
    ensures { result ≡ says_something numbers.now }
{
    numbers.iter().any(|number| *number != 0)
}

/// True if some record of the canonical list speaks of the node.
fn is_named(rows: &Rows, node: u8) -> bool
    requires { node < rows.now.nodes }
    ensures { result ≡ is_named (canonical rows.now) node }
{
    let edges = says_something(rows.edge_numbers(node));
    let silences = says_something(rows.silence_numbers(node));
    edges || silences
}

/// Adds the line of a node's run length and horizon.
fn push_horizon(text: &mut String, node: u8, run: u32, tick: u64) -> Result<(), AllocError>
    ensures { OnOk result (GrowsBy text.old text.new (horizon_line node run tick)) }
{
    writeln!(text, "H {node} {run} {tick}")
}

/// Adds the line of an interval in which a node drives dominant.
fn push_interval(text: &mut String, node: u8, interval: (u64, u64)) -> Result<(), AllocError>
    ensures { OnOk result (GrowsBy text.old text.new (interval_line node interval)) }
{
    let (from, to) = interval;
    writeln!(text, "D {node} {from} {to}")
}

/// Adds the lines of some intervals.
fn push_intervals(text: &mut String, node: u8, intervals: &[(u64, u64)]) -> Result<(), AllocError>
    ensures { OnOk result (GrowsBy text.old text.new (flat_map (interval_line node) intervals.now)) }
{
    for interval in intervals {
        push_interval(text, node, *interval)?;
    }
    Ok(())
}

/// Adds the lines of a node, if it has a slot.
fn push_node(alloc: Global, text: &mut String, rows: &Rows, node: u8) -> Result<(), AllocError>
    requires { node < rows.now.nodes }
    ensures { OnOk result (GrowsBy text.old text.new (horizon_lines rows.now node)) }
{
    if is_named(rows, node) {
        let wave = rows.wave(alloc, node)?;
        push_horizon(text, node, rows.run_length(node), rows.horizon(node))?;
        push_intervals(text, node, wave.as_slice())?;
    }
    Ok(())
}

/// Returns the text of what rows know.
fn horizons(alloc: Global, rows: &Rows) -> Result<String, AllocError>
    ensures { IfOk result (λ text. string_bytes text ≡ lines_below rows.now rows.now.nodes) }
{
    let mut text = String::new(alloc);
    for node in 0..rows.nodes() {
        push_node(alloc, &mut text, rows, node)?;
    }
    Ok(text)
}

/// Reads a narrow record text and writes what it says of each node that has a slot in its canonical text. That is how many of its first changes
/// are known without a gap, the tick below which the node is known, and the intervals in which it drives dominant.
///
/// The whole output is made before the first write. If the input is refused, or memory runs out, the writer isn't called; if the writer
/// fails, a prefix of the output has been written. The horizon is that of conservative simulation (Chandy and Misra, 1979). It is also
/// defined of records that aren't true of one bus, and promises nothing then.
pub fn horizon_run<R: Source, W: Sink>(
    alloc: Global,
    reader: &mut R,
    writer: &mut W,
) -> Result<(), RunFault>
    ensures { TellsHorizons Narrow R.gives W.takes reader.old reader.new writer.old writer.new result }
{
    horizon_run_within(alloc, Limits::Narrow, reader, writer)
}

/// Reads a record text by these limits, as `horizon_run` does. By the wide ones a text of 17 bytes may make it take 2 GiB.
pub fn horizon_run_within<R: Source, W: Sink>(
    alloc: Global,
    limits: Limits,
    reader: &mut R,
    writer: &mut W,
) -> Result<(), RunFault>
    ensures { TellsHorizons limits R.gives W.takes reader.old reader.new writer.old writer.new result }
{
    let rows = gather(alloc, limits, reader)?;
    let text = horizons(alloc, &rows)?;
    write_all(text.as_bytes(), writer)?;
    Ok(())
}
