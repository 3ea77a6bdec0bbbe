//! Reading a record text into rows, which know of each slot what the records say.
ghost use Rattle.std.specs.Prelude.{◌≡◌, OnOk, IfOk, All, List, ◌++◌};
ghost use Rattle.wl_record_core.specs.declared.record.Record.{Record};
ghost use Rattle.wl_record_core.specs.Limits.{record_nodes};
ghost use Rattle.wl_replica.specs.State.{state_of, Fits};
ghost use Rattle.wl_engines.specs.Gather.{Gathers, state_of_all};

use crate::fault::RunFault;
use std::alloc::{AllocError, Global};
use wl_device::Source;
use wl_limits::Limits;
use wl_record::{Came, RecordReader, nothing_read_law};
use wl_record_core::{Record, record_nodes, wide_record_limits_hold};
use wl_replica::Rows;

/// Takes some records, one after another.
fn take_batch(rows: &mut Rows, batch: &[Record]) -> Result<(), AllocError>
    requires { All (Fits rows.old.nodes) batch.now }
    ensures { OnOk result ((before : List Record) → rows.old ≡ state_of rows.old.nodes before
        → rows.new ≡ state_of rows.old.nodes (before ++ batch.now)) }
{
    for told in batch {
        rows.take(*told)?;
    }
    Ok(())
}

/// Reads a record text by these limits to its end, into rows of all nodes that its records can name.
///
/// Refused as the text is, or out of memory.
pub fn gather<R: Source>(alloc: Global, limits: Limits, reader: &mut R) -> Result<Rows, RunFault>
    ensures { Gathers limits R.gives reader.old reader.new result }
{
    let mut rows = Rows::new(alloc, record_nodes(limits))?;
    let mut input = RecordReader::within(alloc, limits)?;
    nothing_read_law(reader);
    wide_record_limits_hold();
    let mut batch = Vec::new(alloc);
    'pieces: loop {
        batch.clear();
        let came = input.next(reader, &mut batch)?;
        take_batch(&mut rows, &batch)?;
        match came {
            Came::More => {}
            Came::All => return Ok(rows),
        }
    }
}
