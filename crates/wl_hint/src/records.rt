//! Hints on record texts.
ghost use Rattle.std.specs.Prelude.{IfOk, None};
ghost use Rattle.wl_hint.specs.Hints.{PointsInto};

use crate::hint::Hint;
use std::alloc::{AllocError, Global};
use std::str;
use wl_record::TextFault;

/// The most bytes of a line that a hint shows.
const MOST_SHOWN: usize = 80;

/// Returns line `n` of a text, from 1, up to some length; `None` if the text doesn't have it with its newline.
fn line_of(text: &[u8], n: u64) -> Option<&[u8]> {
    let mut rest = text;
    for _ in 1..n {
        let end = rest.iter().position(|byte| *byte == b'\n')?;
        rest = rest.get(end.saturating_add(1)..)?;
    }
    let end = rest.iter().position(|byte| *byte == b'\n')?;
    rest.get(..end.min(MOST_SHOWN))
}

/// Returns a line as it is shown: nothing of one that is no UTF-8.
fn shown(alloc: Global, line: &[u8]) -> Result<String, AllocError> {
    match str::from_utf8(line) {
        Ok(line) => format!(in alloc; " is `{line}`"),
        Err(_) => Ok(String::new(alloc)),
    }
}

/// Returns a line by its number, with what it says if the text is at hand.
fn line_words(alloc: Global, text: Option<&[u8]>, n: u64) -> Result<String, AllocError> {
    let said = match text.and_then(|text| line_of(text, n)) {
        Some(line) => shown(alloc, line)?,
        None => String::new(alloc),
    };
    format!(in alloc; "line {n}{said}. ")
}

/// Returns what is said of a record text.
fn said_of(alloc: Global, text: Option<&[u8]>, fault: TextFault) -> Result<String, AllocError> {
    match fault {
        TextFault::Line(n) => {
            let place = line_words(alloc, text, n)?;
            format!(in alloc;
                "{place}Write it as `E node seq tick`, `C node seq` or `S node count until`, with single spaces and plain digits."
            )
        }
        TextFault::Range(n) => {
            let place = line_words(alloc, text, n)?;
            format!(in alloc;
                "{place}Keep node to 15, seq to 262,144, count to 262,145, tick and until below 281,474,976,710,656."
            )
        }
        TextFault::Truncated => String::from_str(alloc, "End the last line with a newline."),
        TextFault::TooLong(n) => {
            format!(in alloc;
                "line {n}. Pass a record text (not a plan) with at most 40 bytes a line and 134,217,728 in all."
            )
        }
        TextFault::Read => String::from_str(alloc, crate::READ),
        TextFault::Memory => String::from_str(alloc, crate::FREE_MEMORY),
    }
}

/// Returns what to change of a record text that is refused by this fault, its first; `text` is the text or its front, if it is at hand. The line
/// is the fault's own, so the hint has no place. Refused out of memory alone.
pub fn hint_of_records(
    alloc: Global,
    text: Option<&[u8]>,
    fault: TextFault,
) -> Result<Hint, AllocError>
    ensures { IfOk result (PointsInto None) }
{
    let said = said_of(alloc, text, fault)?;
    Hint::anywhere(alloc, said.as_str())
}
