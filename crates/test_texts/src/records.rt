//! Rows of record texts.

use crate::answer::{fault_line, letters, wrong_numbers};
use crate::devices::fronts;
use std::alloc::{AllocError, Global};
use test_words::numbers;
use wl_device::ScriptedReader;
use wl_record::{read_records, text_of};
use wl_record_core::Record;

/// Returns the answer to a word about the records of a text, or the fault of the text.
pub fn of_records(
    alloc: Global,
    reader: &mut ScriptedReader,
    word: &str,
    rest: &str,
) -> Result<String, AllocError> {
    match read_records(alloc, reader) {
        Ok(records) => asked(alloc, &records, word, rest),
        Err(fault) => fault_line(alloc, fault),
    }
}

fn asked(alloc: Global, records: &[Record], word: &str, rest: &str) -> Result<String, AllocError> {
    match word {
        "read_records" => shown(alloc, records),
        "text_of" => letters(alloc, text_of(alloc, records)?.as_slice()),
        "is_true" => truths(alloc, records, rest),
        "slots" => slots(alloc, records),
        _ => fronts(alloc, records, rest),
    }
}

/// Returns records, each shown on a line.
fn shown(alloc: Global, records: &[Record]) -> Result<String, AllocError> {
    let mut shown = String::new(alloc);
    for record in records {
        writeln!(shown, "{record}")?;
    }
    Ok(shown)
}

/// Returns of each record the slot that it is about.
fn slots(alloc: Global, records: &[Record]) -> Result<String, AllocError> {
    let mut shown = String::new(alloc);
    for record in records {
        let slot = record.slot();
        writeln!(shown, "{record} {slot:?}")?;
    }
    Ok(shown)
}

/// Returns of each record whether it is true. The first number says how many nodes there are, the others are the changes of the node that it
/// names.
fn truths(alloc: Global, records: &[Record], words: &str) -> Result<String, AllocError> {
    let Some(numbers) = numbers::<u64>(alloc, words)? else {
        return wrong_numbers(alloc);
    };
    let Some((nodes, changes)) = numbers.as_slice().split_first() else {
        return wrong_numbers(alloc);
    };
    let Ok(nodes) = u8::try_from(*nodes) else {
        return wrong_numbers(alloc);
    };
    let mut shown = String::new(alloc);
    for record in records {
        let is_true = record.is_true_of(nodes, changes);
        writeln!(shown, "{record} {is_true}")?;
    }
    Ok(shown)
}
