//! How long the messages of a bus may wait, in three lines.
ghost use Rattle.std.specs.Prelude.{◌≡◌, ◌<◌, ◌≤◌, ◌^◌, length, string_bytes, IfOk, IfSome, OnOk};
ghost use Rattle.wl_report.specs.Lines.{GrowsBy};
ghost use Rattle.wl_respond.specs.Briefs.{IsBriefOfBus, bound_of_line, bound_in, brief_of, brief_words, comes_again, cyclic_words, is_cyclic, longer_wait, longest_below, longest_head, longest_line, longest_tail, longest_words, waits_line};

use crate::asked::Asked;
use crate::bounds::{Question, Waits, waits_asked};
use crate::parts::{Line, Parts};
use crate::table::ONCE;
use crate::verdict::{Outcome, outcome_in, verdict_line};
use crate::words::lacking_line;
use std::alloc::{AllocError, Global};
use wl_lines::TextLine;
use wl_margin::Thousandths;
use wl_report::push_id;
use wl_setup::{Bus, Names, PlanText};

/// True if frames of message `e` come again and again.
fn comes_again(asked: &[Asked], e: usize) -> bool
    requires { e < length asked.now }
    ensures { result ≡ comes_again asked.now e }
{
    asked[e].every != ONCE
}

/// True if frames of some message come again and again.
fn is_cyclic(asked: &[Asked]) -> bool
    ensures { result ≡ is_cyclic asked.now }
{
    let mut any = false;
    for e in 0..asked.len() {
        any = any || comes_again(asked, e);
    }
    any
}

/// Returns a bound in thousandths of a microsecond, 0 if there is none.
fn bound_in(parts: Option<Parts>) -> u128
    ensures { result ≡ bound_in parts }
{
    match parts {
        None => 0,
        Some(parts) => parts.bound,
    }
}

/// Returns the bound of message `e`.
fn bound_of_line(lines: &[Line], e: usize) -> u128
    requires { e < length lines.now }
    ensures { result ≡ bound_of_line lines.now e }
{
    bound_in(lines[e].parts)
}

/// Returns which of two messages waits longer, the first of equal ones.
fn longer_wait(lines: &[Line], first: Option<usize>, e: usize) -> Option<usize>
    requires message { e < length lines.now }
    requires first { IfSome first (λ k. k < length lines.now) }
    ensures place { result ≡ longer_wait lines.now first e }
    ensures inside { IfSome result (λ k. k < length lines.now) }
{
    match first {
        None => Some(e),
        Some(k) => {
            if bound_of_line(lines, k) < bound_of_line(lines, e) {
                Some(e)
            } else {
                Some(k)
            }
        }
    }
}

/// Returns the first of the messages that wait longest.
fn longest(lines: &[Line]) -> Option<usize>
    ensures place { result ≡ longest_below lines.now (length lines.now) }
    ensures inside { IfSome result (λ k. k < length lines.now) }
{
    let mut first = None;
    for e in 0..lines.len() {
        first = longer_wait(lines, first, e);
    }
    first
}

/// Adds how long the longest wait is.
fn push_longest_head(text: &mut String, bound: u128) -> Result<(), AllocError>
    ensures { OnOk result (GrowsBy text.old text.new (longest_head bound)) }
{
    let bound = Thousandths(bound);
    write!(text, "waits: longest {bound} us, ")
}

/// Adds whose message it is, and the end of the line.
fn push_longest_tail(text: &mut String, a: &str) -> Result<(), AllocError>
    ensures { OnOk result (GrowsBy text.old text.new (longest_tail a.now)) }
{
    writeln!(text, " of {a}")
}

/// Adds the line of the message that waits longest.
fn push_longest_line(
    text: &mut String,
    names: &Names,
    asked: &Asked,
    bound: u128,
) -> Result<(), AllocError>
    ensures { OnOk result (GrowsBy text.old text.new (longest_line names.now asked.now bound)) }
{
    push_longest_head(text, bound)?;
    push_id(text, &asked.message.frame)?;
    push_longest_tail(text, names.name_of(asked.message.node as usize))
}

/// Adds the line of the message that waits longest, if there are bounds.
fn push_longest(
    text: &mut String,
    names: &Names,
    asked: &[Asked],
    lines: &[Line],
    shown: bool,
) -> Result<(), AllocError>
    requires { length asked.now ≡ length lines.now }
    ensures { OnOk result (GrowsBy text.old text.new (longest_words names.now asked.now lines.now shown)) }
{
    if !shown {
        return Ok(());
    }
    match longest(lines) {
        None => Ok(()),
        Some(e) => push_longest_line(text, names, &asked[e], bound_of_line(lines, e)),
    }
}

/// Adds a line of waits.
fn push_line(alloc: Global, text: &mut String, line: &TextLine) -> Result<(), AllocError>
    ensures { OnOk result (GrowsBy text.old text.new (waits_line line.now)) }
{
    text.push_str("waits: ")?;
    text.push_str(&line.text(alloc)?)
}

/// Adds the three lines of waits.
fn push_brief(
    alloc: Global,
    text: &mut String,
    names: &Names,
    waits: &Waits,
    outcome: Outcome,
) -> Result<(), AllocError>
    requires { length waits.now.asked ≡ length waits.now.lines }
    ensures { OnOk result (GrowsBy text.old text.new (brief_words names.now waits.now.asked waits.now.lines outcome)) }
{
    let asked = waits.asked.as_slice();
    let lines = waits.lines.as_slice();
    push_line(alloc, text, &lacking_line(alloc, names, outcome.lacking)?)?;
    push_longest(text, names, asked, lines, outcome.shown)?;
    push_line(
        alloc,
        text,
        &verdict_line(alloc, names, asked, lines, outcome)?,
    )
}

/// Adds the same if some message comes again and again.
fn push_waits(
    alloc: Global,
    text: &mut String,
    names: &Names,
    waits: &Waits,
) -> Result<(), AllocError>
    requires { length waits.now.asked ≡ length waits.now.lines }
    ensures { OnOk result (GrowsBy text.old text.new (cyclic_words names.now waits.now)) }
{
    if is_cyclic(waits.asked.as_slice()) {
        push_brief(alloc, text, names, waits, outcome_in(waits))
    } else {
        Ok(())
    }
}

/// Returns the lines of waits.
fn brief_by(alloc: Global, names: &Names, found: Option<Waits>) -> Result<String, AllocError>
    requires { IfSome found (λ w. length w.asked ≡ length w.lines) }
    ensures { IfOk result (λ text. string_bytes text ≡ brief_of names.now found) }
{
    let mut text = String::new(alloc);
    match found {
        Some(waits) => push_waits(alloc, &mut text, names, &waits)?,
        None => (),
    }
    Ok(text)
}

/// Returns how long the messages of a bus may wait, in three lines: that it is proved, or which premise lacks; the longest bound, if there are
/// bounds; and who misses a deadline, or why there is no bound. The bus is that of the plan's text. The text is empty if no message comes again
/// and again, or if a clock is none without its `ppm`. Refused only when out of memory.
pub fn brief_text(
    alloc: Global,
    question: Question,
    plain: &PlanText,
    bus: &Bus,
) -> Result<String, AllocError>
    requires tick { question.tick < 2 ^ 36 }
    requires deviations { length bus.now.deviations ≡ length bus.now.plan.nodes }
    ensures { IfOk result (λ text. IsBriefOfBus question.tick question.any_data plain.now bus.now (string_bytes text)) }
{
    let found = waits_asked(alloc, question, plain, bus)?;
    brief_by(alloc, &bus.names, found)
}
