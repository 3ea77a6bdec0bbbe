//! The plan of a wish goes out.
ghost use Rattle.wl_init.specs.Runs.{Inits};

use crate::draft::draft_of;
use crate::fault::InitFault;
use crate::text::first_plan;
use crate::wish::Wish;
use std::alloc::Global;
use wl_device::{Sink, write_all};

/// Writes the plan of a wish. The whole plan is made before the first write. If the wish is refused, or memory runs out, the writer isn't
/// called; if the writer fails, a prefix of the plan has been written.
pub fn init_run<W: Sink>(alloc: Global, wish: Wish, writer: &mut W) -> Result<(), InitFault>
    ensures { Inits W.takes wish writer.old writer.new result }
{
    let draft = draft_of(wish)?;
    let text = first_plan(alloc, draft)?;
    write_all(text.as_bytes(), writer)?;
    Ok(())
}
