//! One member of a sweep as a plan text.
ghost use Rattle.std.specs.Prelude.{◌≡◌, ◌≢◌, Ok, Err, IfOk, IfErr, map, string_bytes};
ghost use Rattle.wl_sweep_engine.specs.declared.fault.SweepFault.TheVariants.{Memory};
ghost use Rattle.wl_sweep_engine.specs.Printed.{member_text, printed_of};
ghost use Rattle.wl_sweep_engine.specs.Sweeping.{Prints};

use crate::asked::{Asked, check_options, read_sweep};
use crate::fault::SweepFault;
use std::alloc::{AllocError, Global};
use wl_device::{Sink, Source, write_all};
use wl_print::push_plan;
use wl_setup::{PlanText, Text, read_text};
use wl_sweep::Sweep;

/// Returns the text of a member: what it changes as a comment, and its plan.
pub(crate) fn member_text(
    alloc: Global,
    number: u64,
    change: &Text,
    plan: &PlanText,
) -> Result<String, AllocError>
    ensures { IfOk result (λ text. string_bytes text ≡ member_text number change.now plan.now) }
{
    let mut text = String::new(alloc);
    let change = change.as_str();
    write!(text, "# member {number}{change}\n")?;
    push_plan(&mut text, plan)?;
    Ok(text)
}

/// Returns the text of a member by its number, if there is such a member.
fn printed(alloc: Global, sweep: &Sweep, number: u64) -> Result<String, SweepFault>
    ensures ok { IfOk result (λ text. printed_of sweep.now number ≡ Ok (string_bytes text)) }
    ensures fault { IfErr result (λ e. e ≢ Memory → printed_of sweep.now number ≡ Err e) }
{
    match sweep.member(alloc, number)? {
        None => Err(SweepFault::Member),
        Some((change, plan)) => Ok(member_text(alloc, number, &change, &plan)?),
    }
}

/// Reads a plan's text and writes one member of its sweep as a plan text, by the number that the member has in what the sweep says. Comments of
/// the plan aren't kept; the first line is one that names what the member changes.
///
/// The first of these faults: `Runs` and `Step`, before anything is read; `Setup`, as `run` has it; `Range`, of the first word that is none;
/// `Rows`; `Member`, if there is no member of this number. The whole output is made before the first write. If the input or a word is refused,
/// or memory runs out, the writer isn't called; if the writer fails, a prefix of the output has been written.
pub fn print_run<R: Source, W: Sink>(
    alloc: Global,
    words: &[String],
    asked: Asked,
    number: u64,
    reader: &mut R,
    writer: &mut W,
) -> Result<(), SweepFault>
    ensures { Prints R.gives W.takes (map string_bytes words.now) asked reader.old reader.new writer.old writer.new
        number result }
{
    check_options(asked.options)?;
    let text = read_text(alloc, reader)?;
    let (_, sweep) = read_sweep(alloc, text, words, asked)?;
    let text = printed(alloc, &sweep, number)?;
    write_all(text.as_bytes(), writer)?;
    Ok(())
}
