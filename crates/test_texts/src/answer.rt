//! What is answered to a block.

use crate::block::Block;
use crate::devices::{read_whole, sent};
use crate::plans::{faults, of_plan, of_text};
use crate::records::of_records;
use std::alloc::{AllocError, Global};
use std::fmt::Display;
use wl_device::{ScriptedReader, Then};

/// Returns the answer to a text that comes by `step` bytes a call.
fn answer_by(alloc: Global, block: &Block, text: &[u8], step: usize) -> Result<String, AllocError> {
    let then = if block.fails { Then::Failed } else { Then::End };
    let reader = &mut ScriptedReader { text, step, then };
    let (word, rest) = (block.word, block.rest);
    match word {
        "read_records" | "text_of" | "is_true" | "slots" | "write_records" => of_records(
            alloc, reader, word, rest,
        ),
        "read_text" | "plan_text" => of_text(alloc, reader, word),
        "plan" | "disturbed" | "grouping" => of_plan(alloc, reader, word, rest),
        "read_up_to" => read_whole(alloc, reader, rest),
        "send" => sent(alloc, text, rest),
        "faults" => faults(alloc),
        _ => String::from_str(alloc, "row: nothing of this name can be asked\n"),
    }
}

/// Returns the answer to a text that comes whole, by one byte a call and by seven.
pub fn answer(alloc: Global, block: &Block, text: &[u8]) -> Result<String, AllocError> {
    let mut whole = answer_by(alloc, block, text, usize::MAX)?;
    for step in [1usize, 7] {
        let other = answer_by(alloc, block, text, step)?;
        if other.as_str() != whole.as_str() {
            write!(whole, "row: by {step} bytes a call {other}")?;
        }
    }
    Ok(whole)
}

/// Returns the text that bytes are, or a line that they are none.
pub fn letters(alloc: Global, bytes: &[u8]) -> Result<String, AllocError> {
    match str::from_utf8(bytes) {
        Ok(text) => String::from_str(alloc, text),
        Err(_) => String::from_str(alloc, "no letters\n"),
    }
}

/// Returns the line of a fault.
pub fn fault_line<F: Display + Drop>(alloc: Global, fault: F) -> Result<String, AllocError> {
    format!(in alloc; "fault: {fault}\n")
}

/// Returns the answer if the numbers after a word are none, too great or too few.
pub fn wrong_numbers(alloc: Global) -> Result<String, AllocError> {
    String::from_str(alloc, "row: the numbers behind the word\n")
}
