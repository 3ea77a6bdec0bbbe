//! Returns the check of a plan.
ghost use Rattle.std.specs.Prelude.{IfOk};
ghost use Rattle.wl_setup.specs.Check.{IsPlanCheck};
ghost use Rattle.wl_engines.specs.Plans.{RunsPlan};

use crate::fault::RunFault;
use crate::view::{View, run_view};
use std::alloc::{AllocError, Global};
use wl_device::{Sink, Source};
use wl_plan::CheckedPlan;
use wl_setup::{Names, check_plan};

/// Returns the check of a plan, under these names of its nodes.
pub(crate) fn check_text(
    alloc: Global,
    plan: &CheckedPlan,
    names: &Names,
) -> Result<Vec<u8>, AllocError>
    ensures { IfOk result (λ text. IsPlanCheck plan.now names.now text.items) }
{
    let text = check_plan(alloc, plan, names)?;
    Ok(text.into_bytes())
}

/// Reads a plan's text, tests whether the plan can be run, and writes the check: what each node's bit segments allow, and how long a level
/// takes from each node to each later one and back.
///
/// The whole output is made before the first write. If the input is refused, or memory runs out, the writer isn't called; if the writer
/// fails, a prefix of the output has been written.
pub fn check_run<R: Source, W: Sink>(
    alloc: Global,
    reader: &mut R,
    writer: &mut W,
) -> Result<(), RunFault>
    ensures { RunsPlan R.gives W.takes IsPlanCheck reader.old reader.new writer.old writer.new result }
{
    run_view(alloc, View::Check, reader, writer)
}
