//! The explanation of a plan.
ghost use Rattle.std.specs.Prelude.{◌≡◌, ◌≤◌, ℕ, List, Some, Err, IfOk, length, string_bytes};
ghost use Rattle.toml.specs.View.{table_view};
ghost use Rattle.wl_setup.specs.Buses.{IsBusOf};
ghost use Rattle.wl_setup.specs.Limits.{most_bytes};
ghost use Rattle.wl_setup.specs.Reading.{document_of};
ghost use Rattle.wl_engines.specs.Explained.{Explains, ExplainsText, IsExplanationOf};
ghost use Rattle.wl_engines.specs.Output.{OutputsWith};

use crate::fault::RunFault;
use crate::output::write_answer;
use crate::respond::plain_of;
use std::alloc::{AllocError, Global};
use toml::Table;
use wl_device::{Ended, Sink, Source, write_all};
use wl_explain::{Explained, explain_fault, explain_plan, explain_size, explain_toml};
use wl_setup::{
    Bus, NoDocument, PlacedFault, SetupFault, bus_of_document, document_or_place, read_bytes,
};

/// Reads a plan's text, tests whether the plan can be run, and writes what is doubtful of it and its bus, one a line, and then the figures.
/// Returns whether anything is doubtful. Of a plan that is refused it writes what is wrong and what to change, and returns the fault whether or not the writer took all of that.
///
/// The whole output is made before the first write. If the reader failed, or memory runs out, the writer isn't called; if the writer fails,
/// a prefix of the output has been written.
pub fn explain_run<R: Source, W: Sink>(
    alloc: Global,
    reader: &mut R,
    writer: &mut W,
) -> Result<bool, RunFault>
    ensures { Explains R.gives W.takes reader.old reader.new writer.old writer.new result }
{
    let (text, ended) = read_bytes(alloc, reader)?;
    match ended {
        Ended::End => explain_text(alloc, &text, writer),
        Ended::Broken => Err(RunFault::Setup(SetupFault::Read)),
        Ended::Full => {
            let said = explain_size(alloc)?;
            let _ = write_all(said.as_bytes(), writer);
            Err(RunFault::Setup(SetupFault::Size))
        }
    }
}

/// Returns what is doubtful of a text's bus, and its figures.
fn doubts_of(alloc: Global, text: &[u8], bus: &Bus) -> Result<Explained, AllocError>
    requires size { length text.now ≤ most_bytes }
    requires deviations { length bus.now.deviations ≡ length bus.now.plan.nodes }
    ensures { IfOk result (λ e. IsExplanationOf text.now bus.now (string_bytes e.text) e.doubted) }
{
    let plain = plain_of(alloc, text)?;
    explain_plan(alloc, &plain, bus)
}

/// Writes what is doubtful of a text's bus, and its figures, and returns whether anything is doubtful.
fn write_doubts<W: Sink>(
    alloc: Global,
    text: &[u8],
    bus: &Bus,
    writer: &mut W,
) -> Result<bool, RunFault>
    requires size { length text.now ≤ most_bytes }
    requires deviations { length bus.now.deviations ≡ length bus.now.plan.nodes }
    ensures { OutputsWith W.takes (IsExplanationOf text.now bus.now) writer.old writer.new result }
{
    let explained = doubts_of(alloc, text, bus)?;
    write_answer(explained.doubted, explained.text.as_bytes(), writer)
}

/// Writes what is wrong with a plan's document and what to change, and returns its fault.
fn write_refusal<W: Sink>(
    alloc: Global,
    top: &Table,
    placed: PlacedFault,
    writer: &mut W,
) -> Result<bool, RunFault>
    requires { IsBusOf (table_view top.now) (Err placed) }
    ensures { (text : List ℕ) → document_of text ≡ Some (table_view top.now)
        → ExplainsText W.takes text writer.old writer.new result }
{
    if let SetupFault::Memory = placed.fault {
        return Err(RunFault::Memory);
    }
    let said = explain_fault(alloc, top, placed.path, &placed.fault)?;
    let _ = write_all(said.as_bytes(), writer);
    Err(RunFault::Setup(placed.fault))
}

/// Writes the explanation of a plan's text, which has this document.
fn explain_document<W: Sink>(
    alloc: Global,
    text: &[u8],
    top: &Table,
    writer: &mut W,
) -> Result<bool, RunFault>
    requires size { length text.now ≤ most_bytes }
    requires document { document_of text.now ≡ Some (table_view top.now) }
    ensures { ExplainsText W.takes text.now writer.old writer.new result }
{
    match bus_of_document(alloc, top) {
        Ok(bus) => write_doubts(alloc, text, &bus, writer),
        Err(placed) => write_refusal(alloc, top, placed, writer),
    }
}

/// Writes the explanation of a plan's text that was read whole.
fn explain_text<W: Sink>(alloc: Global, text: &[u8], writer: &mut W) -> Result<bool, RunFault>
    requires { length text.now ≤ most_bytes }
    ensures { ExplainsText W.takes text.now writer.old writer.new result }
{
    match document_or_place(alloc, text) {
        Ok(top) => explain_document(alloc, text, &top, writer),
        Err(NoDocument::At(place)) => {
            let said = explain_toml(alloc, &text[..place])?;
            let _ = write_all(said.as_bytes(), writer);
            Err(RunFault::Setup(SetupFault::Toml))
        }
        Err(NoDocument::Memory) => Err(RunFault::Memory),
    }
}
