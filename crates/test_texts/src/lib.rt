//! Answers rows about record texts, plan texts and devices that fail.
//!
//! A row is a block of lines. Its first line names what is asked, its last one is `---`, and its text is between them. What is answered
//! comes in its place, then a line `---`. Lines between the blocks that are empty or begin with `#` stay as they are, so that rows have names.
//!
//! The first line is a word and, after it, what it needs: `read_plan`, `disturbed 1 12070 12071`. Before it may stand, in this order:
//! - `each`: every line of the text is a row of its own. What is answered to it follows the line itself after `> `.
//! - `failing`: the reader fails after the text, in place of its end.
//! - `raw`: the text is what the lines spell, without their ends: `\n`, `\r`, `\t`, `\\` and `\x41` are a newline, a carriage return, a tab, a
//!   backslash and the byte 0x41. A line `41 * LETTERS` means LETTERS 41 times, in which `\i` is the number of the time, from 0 on.
//! - `of NAME`: the text is one that a block `keep NAME` gave.
//!
//! Each text is read whole, by one byte a call and by seven, and the answer must be the same. An answer that begins with `row: ` says what
//! is wrong with the row itself.
#![tactic(auto)]

mod answer;
mod block;
mod devices;
mod plans;
mod records;
mod rows;
mod shown;
mod spelling;

use rows::Rows;
use std::alloc::{AllocError, Global};

/// Returns what is answered to the rows of a text. Refused only when out of memory.
pub fn answer_rows(alloc: Global, text: &str) -> Result<String, AllocError> {
    let mut rows = Rows::new(alloc);
    for line in text.lines() {
        rows.take(line)?;
    }
    Ok(rows.said)
}
