//! A plan's text from a reader.
ghost use Rattle.std.specs.Prelude.{◌≡◌, ◌≢◌, ◌≤◌, Ok, Err, Some, None, IfOk, IfErr, length};
ghost use Rattle.toml.specs.View.{table_view};
ghost use Rattle.wl_setup.specs.Names.{names_of};
ghost use Rattle.wl_device.specs.Bounded.{ReadsUpTo};
ghost use Rattle.wl_setup.specs.Limits.{most_bytes};
ghost use Rattle.wl_setup.specs.Reading.{document_of, text_answer, IsNoDocument, ReadsPlan};

use crate::document::plan_text;
use crate::fault::SetupFault;
use crate::limits::MOST_BYTES;
use crate::names::Names;
use crate::plan_text::PlanText;
use std::alloc::{AllocError, Global};
use toml::Table;
use wl_device::{Ended, Source, read_up_to};

/// Why there is no document of a text.
#[derive(Clone, Copy, Debug, PartialEq, Eq)]
pub enum NoDocument {
    /// The text is no TOML, or not UTF-8: the parser stopped after this many bytes of it.
    At(usize),
    /// Memory was refused.
    Memory,
}

/// Returns the document of a text, or where the parser stopped in one that has none. No clause says where in the text that is: the parser's
/// contract leaves it open.
pub fn document_or_place(alloc: Global, text: &[u8]) -> Result<Table, NoDocument>
    ensures document { IfOk result (λ top. document_of text.now ≡ Some (table_view top)) }
    ensures none { IfErr result (IsNoDocument text.now) }
{
    match toml::table_from_slice(alloc, text) {
        Ok(top) => Ok(top),
        Err(e) => match e.span() {
            Some(span) => Err(NoDocument::At(span.start)),
            None => Err(NoDocument::Memory),
        },
    }
}

/// Reads a plan's text whole: at most 1,048,576 bytes, and what of the piece that made it more. Returns the bytes that came and how the
/// reading ended.
#[tactic(auto, unfolding(crate::specs::Limits::most_bytes))]
pub fn read_bytes<R: Source>(alloc: Global, reader: &mut R) -> Result<(Vec<u8>, Ended), AllocError>
    ensures { IfOk result (λ r. ReadsUpTo R.gives reader.old most_bytes r.0.items r.1 reader.new) }
{
    read_up_to(alloc, reader, MOST_BYTES)
}

/// Returns the document of a text.
fn document(alloc: Global, text: &[u8]) -> Result<Table, SetupFault>
    ensures document { IfOk result (λ top. document_of text.now ≡ Some (table_view top)) }
    ensures none { IfErr result (λ e. e ≢ SetupFault.Memory → (e ≡ SetupFault.Toml) × (document_of text.now ≡ None)) }
{
    match toml::table_from_slice(alloc, text) {
        Ok(top) => Ok(top),
        Err(e) => {
            if e.is_memory() {
                Err(SetupFault::Memory)
            } else {
                Err(SetupFault::Toml)
            }
        }
    }
}

/// Returns the plan text of a text, and the names of its nodes.
pub(crate) fn parse(alloc: Global, text: &[u8]) -> Result<(PlanText, Names), SetupFault>
    ensures ok { IfOk result (λ r. (text_answer text.now ≡ Ok r.0) × (r.1 ≡ names_of r.0)) }
    ensures fault { IfErr result (λ e. e ≢ SetupFault.Memory → text_answer text.now ≡ Err e) }
{
    let top = document(alloc, text)?;
    match plan_text(alloc, &top) {
        Ok(read) => Ok(read),
        Err(placed) => Err(placed.fault),
    }
}

/// Reads a plan's text as `read_text` does. Returns with it the names of its nodes.
pub(crate) fn read_named<R: Source>(
    alloc: Global,
    reader: &mut R,
) -> Result<(PlanText, Names), SetupFault>
    ensures ok { IfOk result (λ r. ReadsPlan R.gives reader.old (Ok r.0) reader.new × (r.1 ≡ names_of r.0)) }
    ensures fault { IfErr result (λ e. e ≢ SetupFault.Memory → ReadsPlan R.gives reader.old (Err e) reader.new) }
{
    let (text, ended) = read_up_to(alloc, reader, MOST_BYTES)?;
    match ended {
        Ended::End => parse(alloc, text.as_slice()),
        Ended::Broken => Err(SetupFault::Read),
        Ended::Full => Err(SetupFault::Size),
    }
}

/// Reads a plan's text: TOML of at most 1,048,576 bytes, with the tables and keys of a plan.
///
/// Returns what the document says, key by key, or its first fault: `Read` or `Size`, whichever the reading meets first; `Toml`; then, in
/// the order of the tables, the version, missing keys, keys of a wrong kind and unknown keys; then `SameName`. `Memory` may be returned at
/// any point. Nothing is promised of what a reader has left after a fault.
pub fn read_text<R: Source>(alloc: Global, reader: &mut R) -> Result<PlanText, SetupFault>
    ensures { result ≢ Err SetupFault.Memory → ReadsPlan R.gives reader.old result reader.new }
{
    let (text, _) = read_named(alloc, reader)?;
    Ok(text)
}
