//! Answers rows about the parts of a bus and of a node, one row a line.
//!
//! Blank lines and lines that begin with `#` are written back as they are. Of a row the whole line is written back, then ` = ` and
//! the answer; a row that can't be read is answered `unread`.
#![tactic(auto)]

mod answer;
mod clocks;
mod counters;
mod frames;
mod lattice;
mod machines;
mod nodes;
mod segments;
mod sets;
mod syncs;
mod topologies;

use answer::Answer;
use std::alloc::{AllocError, Global};
use test_words::{Stop, answer_lines};

/// Writes the answer to a row.
fn tell(alloc: Global, words: &[&str], answer: &mut Answer) {
    let [subject, rest @ ..] = words else {
        return answer.unread();
    };
    let is_told = tell_value(alloc, subject, rest, answer)
        || tell_bus(alloc, subject, rest, answer);
    if !is_told {
        answer.unread();
    }
}

/// True if a row is about a value.
fn tell_value(alloc: Global, subject: &str, words: &[&str], answer: &mut Answer) -> bool {
    lattice::tell(subject, words, answer)
        || sets::tell(alloc, subject, words, answer)
        || topologies::tell(alloc, subject, words, answer)
        || clocks::tell(alloc, subject, words, answer)
        || segments::tell(subject, words, answer)
}

/// True if a row is about what happens on a bus.
fn tell_bus(alloc: Global, subject: &str, words: &[&str], answer: &mut Answer) -> bool {
    match subject {
        "sync" => syncs::tell(alloc, words, answer),
        "machines" => machines::tell(alloc, words, answer),
        "nodes" => nodes::tell(alloc, words, answer),
        _ => {
            return frames::tell(alloc, subject, words, answer)
                || counters::tell(subject, words, answer);
        }
    }
    true
}

/// Returns the answer to a row.
fn answer_to(alloc: Global, row: &str) -> Result<String, Stop> {
    let words: Vec<&str> = row.split_whitespace().collect(alloc)?;
    let mut answer = Answer::new(alloc);
    tell(alloc, words.as_slice(), &mut answer);
    let told = answer.told()?;
    Ok(format!(in alloc; " = {told}")?)
}

/// Returns the rows of a text with their answers. Refused only when out of memory.
pub fn answer_rows(alloc: Global, text: &str) -> Result<String, AllocError> {
    answer_lines(alloc, text, answer_to)
}
