//! A plan with the first settings of what is asked for.
ghost use Rattle.std.specs.Prelude.{◌≡◌, ◌≢◌, ◌≤◌, All, Ok, Err, IfOk, IfErr, length, string_bytes};
ghost use Rattle.wl_apply.specs.Applied.{IsWritable, IsWritten};
ghost use Rattle.wl_apply.specs.declared.fault.ApplyFault.TheVariants.{Memory};
ghost use Rattle.wl_apply_engine.specs.Applying.{IsPlanFor, ReadsApplied, RunsApplied, WritesApplied, applied_text};
ghost use Rattle.wl_settings.specs.Questions.{wanted_by_words};
ghost use Rattle.wl_settings.specs.Texts.{ReadsWanted};
ghost use Rattle.wl_setup.specs.Limits.{most_bytes};
ghost use Rattle.wl_setup.specs.Reading.{text_answer};

use crate::fault::AppliedFault;
use std::alloc::Global;
use wl_apply::{ApplyFault, Chosen, applied_text};
use wl_device::{Ended, Sink, Source, write_all};
use wl_engines::TextReader;
use wl_settings::{AskedWord, Wanted, chosen_settings, read_wanted, wanted_by_words};
use wl_setup::{NoDocument, PlanText, SetupFault, document_or_place, read_bytes, read_text};

/// Returns what a text in memory says, or its first fault.
fn text_of(alloc: Global, text: &[u8]) -> Result<PlanText, SetupFault>
    requires { length text.now ≤ most_bytes }
    ensures read { IfOk result (λ plain. text_answer text.now ≡ Ok plain) }
    ensures fault { IfErr result (λ e. e ≢ SetupFault.Memory → text_answer text.now ≡ Err e) }
{
    let mut reader = TextReader { rest: text };
    read_text(alloc, &mut reader)
}

/// Returns the plan of a text with settings, as text.
fn text_applied(
    alloc: Global,
    tick: u64,
    chosen: &[Chosen],
    text: &[u8],
) -> Result<String, ApplyFault>
    requires few { length text.now ≤ most_bytes }
    requires keys { All IsWritable chosen.now }
    ensures ok { IfOk result (λ made. IsPlanFor (applied_text tick chosen.now text.now) (string_bytes made)) }
    ensures fault { IfErr result (λ e. e ≢ Memory → applied_text tick chosen.now text.now ≡ Err e) }
{
    let read = text_of(alloc, text)?;
    match document_or_place(alloc, text) {
        Ok(top) => applied_text(alloc, tick, chosen, &top, read),
        Err(NoDocument::At(_)) => Err(ApplyFault::Setup(SetupFault::Toml)),
        Err(NoDocument::Memory) => Err(ApplyFault::Memory),
    }
}

/// Reads a plan, and returns it with settings, as text.
fn plan_applied<P: Source>(
    alloc: Global,
    tick: u64,
    chosen: &[Chosen],
    plan: &mut P,
) -> Result<String, ApplyFault>
    requires { All IsWritable chosen.now }
    ensures ok { IfOk result (λ text. WritesApplied P.gives tick plan.old plan.new chosen.now (string_bytes text)) }
    ensures fault { IfErr result (λ e. e ≢ Memory → ReadsApplied P.gives tick plan.old plan.new chosen.now (Err e)) }
{
    let (text, ended) = read_bytes(alloc, plan)?;
    match ended {
        Ended::End => text_applied(alloc, tick, chosen, text.as_slice()),
        Ended::Broken => Err(ApplyFault::Setup(SetupFault::Read)),
        Ended::Full => Err(ApplyFault::Setup(SetupFault::Size)),
    }
}

/// Reads a plan, and writes it with the first settings of what is wanted.
fn write_applied<P: Source, W: Sink>(
    alloc: Global,
    tick: u64,
    wanted: &Wanted,
    plan: &mut P,
    writer: &mut W,
) -> Result<(), AppliedFault>
    ensures { RunsApplied P.gives W.takes tick plan.old plan.new writer.old writer.new (λ r. r ≡ Ok wanted.now) result }
{
    let chosen = chosen_settings(alloc, wanted)?;
    let text = plan_applied(alloc, tick, chosen.as_slice(), plan)?;
    write_all(text.as_bytes(), writer)?;
    Ok(())
}

/// Reads what settings are asked for, and a plan, and writes the plan with the first setting of each controller. The setting is for nodes that
/// have the controller's name, or whose controller has it, and that have its clock. A tick takes `tick` picoseconds.
///
/// The plan keeps its version, all other keys and each time. What is written as a whole is read as that plan. If what is asked for or the
/// plan is refused, there is no setting for some controller, or memory runs out, the writer isn't called; if the writer fails, a prefix of
/// the output has been written.
pub fn applied_run<R: Source, P: Source, W: Sink>(
    alloc: Global,
    tick: u64,
    reader: &mut R,
    plan: &mut P,
    writer: &mut W,
) -> Result<(), AppliedFault>
    ensures { RunsApplied P.gives W.takes tick plan.old plan.new writer.old writer.new
        (λ r. ReadsWanted R.gives tick reader.old r reader.new) result }
{
    let wanted = read_wanted(alloc, tick, reader)?;
    write_applied(alloc, tick, &wanted, plan, writer)
}

/// Does as `applied_run` for what options ask for in the place of a text. `Missing` and `Kind` name an option, as `--cable`.
pub fn applied_of_words<P: Source, W: Sink>(
    alloc: Global,
    tick: u64,
    words: &[AskedWord],
    plan: &mut P,
    writer: &mut W,
) -> Result<(), AppliedFault>
    ensures { RunsApplied P.gives W.takes tick plan.old plan.new writer.old writer.new
        (λ r. wanted_by_words tick words.now ≡ r) result }
{
    let wanted = wanted_by_words(alloc, tick, words)?;
    write_applied(alloc, tick, &wanted, plan, writer)
}
