//! Plays machines on one wire, one row a line.
//!
//! Blank lines and lines that begin with `#` are written back as they are. Of a row the whole line is written back, then ` = ` and the
//! answer; a row that can't be read is answered `unread`.
//!
//! A row is `HEAD.. : WORD..`, with a head for each machine. A head is `-` for none, or the identifier of a frame in hexadecimal (eight
//! digits: extended), with `r` before it for a remote frame, and after it a dot and its bytes, as in `100.a5ff`. All machines are idle at
//! first, except one with `~` before its head, which integrates.
//!
//! Words: `53` for 53 bits of the bus; `2+3` for three recessive bits that machine 2 samples by itself; `2=100` for another head of machine
//! 2. The answer has what happened, with the number of the machine and of the bit of the bus, and the frames that were completed.
#![tactic(auto)]

mod wire;

use std::alloc::{AllocError, Global};
use test_words::{Stop, answer_lines};

/// Returns the answer to a row.
fn answer_to(alloc: Global, row: &str) -> Result<String, Stop> {
    let words: Vec<&str> = row.split_whitespace().collect(alloc)?;
    let mut said = String::from_str(alloc, " = ")?;
    wire::tell(alloc, words.as_slice(), &mut said)?;
    Ok(said)
}

/// Returns the rows of a text with their answers. Refused only when out of memory.
pub fn answer_rows(alloc: Global, text: &str) -> Result<String, AllocError> {
    answer_lines(alloc, text, answer_to)
}
