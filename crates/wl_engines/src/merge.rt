//! The canonical text of what a record text says.
ghost use Rattle.std.specs.Prelude.{◌≡◌, IfOk};
ghost use Rattle.wl_record_core.specs.Text.{text_of};
ghost use Rattle.wl_replica.specs.Canonical.{canonical};
ghost use Rattle.wl_limits.specs.declared.Limits.TheVariants.{Narrow};
ghost use Rattle.wl_engines.specs.Merge.{Merges};

use crate::fault::RunFault;
use crate::gather::gather;
use std::alloc::{AllocError, Global};
use wl_device::{Sink, Source, write_all};
use wl_limits::Limits;
use wl_record::push_text_line;
use wl_record_core::Record;
use wl_replica::{RecordSink, Rows};

/// A text to which the lines of records are added.
#[derive(Drop)]
struct Lines {
    text: Vec<u8>,
}

impl RecordSink for Lines {
    ghost use Rattle.std.specs.Prelude.{ℕ};
    ghost use Rattle.wl_record_core.specs.Text.{text_line};

    ghost Part = { ℕ };

    ghost parts = { λ lines. lines.text.items };

    ghost line = { text_line };

    #[inline(always)]
    fn push_record(&mut self, told: &Record) -> Result<(), AllocError> {
        push_text_line(&mut self.text, told)
    }
}

/// Returns the canonical text of what rows know, node by node.
fn canonical_text(alloc: Global, rows: &Rows) -> Result<Vec<u8>, AllocError>
    ensures { IfOk result (λ text. text.items ≡ text_of (canonical rows.now)) }
{
    let mut lines = Lines {
        text: Vec::new(alloc),
    };
    rows.tell(&mut lines)?;
    Ok(lines.text)
}

/// Reads a narrow record text and writes the canonical text of the replica that its records make, and nothing else.
///
/// The whole output is made before the first write. If the input is refused, or memory runs out, the writer isn't called; if the writer
/// fails, a prefix of the output has been written.
pub fn merge_run<R: Source, W: Sink>(
    alloc: Global,
    reader: &mut R,
    writer: &mut W,
) -> Result<(), RunFault>
    ensures { Merges Narrow R.gives W.takes reader.old reader.new writer.old writer.new result }
{
    merge_run_within(alloc, Limits::Narrow, reader, writer)
}

/// Reads a record text by these limits, as `merge_run` does. By the wide ones a text of 17 bytes may make it take 2 GiB.
pub fn merge_run_within<R: Source, W: Sink>(
    alloc: Global,
    limits: Limits,
    reader: &mut R,
    writer: &mut W,
) -> Result<(), RunFault>
    ensures { Merges limits R.gives W.takes reader.old reader.new writer.old writer.new result }
{
    let rows = gather(alloc, limits, reader)?;
    let text = canonical_text(alloc, &rows)?;
    write_all(&text, writer)?;
    Ok(())
}
