//! The records of a plan's simulation.
ghost use Rattle.std.specs.Prelude.{◌≡◌, IfOk, List, ℕ};
ghost use Rattle.std.specs.List.{filter};
ghost use Rattle.wl_engines.specs.Plans.{RunsPlan, IsRecordsOutput, IsRecordsWithin, record_tick};
ghost use Rattle.wl_views.specs.Windows.{is_within};

use crate::fault::RunFault;
use crate::view::{View, WHOLE, run_view};
use std::alloc::{AllocError, Global};
use wl_device::{Sink, Source};
use wl_plan::CheckedPlan;
use wl_record::text_of;
use wl_record_core::Record;
use wl_serial::{records_are_true, records_are_within, run_records};
use wl_views::Window;

/// Returns the tick of a record: that of a change, or that below which a node is silent; 0 of a clash, which no simulation has.
fn record_tick(told: &Record) -> u64
    ensures { result ≡ record_tick told.now }
{
    match told {
        Record::Edge { tick, .. } => *tick,
        Record::Clash { .. } => 0,
        Record::Silence { until, .. } => *until,
    }
}

/// Returns the records that are within a window.
fn kept_within(alloc: Global, window: Window, records: &[Record]) -> Result<Vec<Record>, AllocError>
    ensures { IfOk result (λ kept. kept.items ≡ filter (λ told. is_within window (record_tick told)) records.now) }
{
    let mut kept = Vec::new(alloc);
    for told in records {
        if window.has(record_tick(told)) {
            kept.push(*told)?;
        }
    }
    Ok(kept)
}

/// Returns the records of a plan's simulation that are within a window, as text. Its nodes only count.
pub(crate) fn records_text(
    alloc: Global,
    window: Window,
    plan: &CheckedPlan,
) -> Result<Vec<u8>, AllocError>
    ensures { (names : List (List ℕ)) → IfOk result (λ text. IsRecordsWithin window plan.now names text.items) }
{
    records_are_true();
    records_are_within();
    let records = run_records(alloc, plan)?;
    let kept = kept_within(alloc, window, &records)?;
    text_of(alloc, &kept)
}

/// Reads a plan's text, simulates the plan, and writes for each node each change of its drive, and the silence after them up to the end, as
/// a record text. Records of a tick outside of `window` are left out: of a silence that is the end.
///
/// The whole output is made before the first write. If the input is refused, or memory runs out, the writer isn't called; if the writer
/// fails, a prefix of the output has been written.
pub fn records_run_within<R: Source, W: Sink>(
    alloc: Global,
    window: Window,
    reader: &mut R,
    writer: &mut W,
) -> Result<(), RunFault>
    ensures { RunsPlan R.gives W.takes (IsRecordsWithin window) reader.old reader.new writer.old writer.new result }
{
    run_view(alloc, View::Records(window), reader, writer)
}

/// Does as `records_run_within`, and writes all records.
pub fn records_run<R: Source, W: Sink>(
    alloc: Global,
    reader: &mut R,
    writer: &mut W,
) -> Result<(), RunFault>
    ensures { RunsPlan R.gives W.takes IsRecordsOutput reader.old reader.new writer.old writer.new result }
{
    records_run_within(alloc, WHOLE, reader, writer)
}
