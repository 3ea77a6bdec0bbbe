//! Rows of devices: texts that are read whole, and writers that take a part.

use crate::answer::wrong_numbers;
use std::alloc::{AllocError, Global};
use test_words::{numbers, parts};
use wl_device::{
    MOST_CALLS, ScriptedReader, ScriptedWriter, Then, WriteFault, read_up_to, send, write_all,
};
use wl_record::{text_of, write_records};
use wl_record_core::Record;

/// Returns the bytes that come of a text, and how its reading ended: `MOST STEP`; the reader gives `STEP` bytes a call.
pub fn read_whole(
    alloc: Global,
    reader: &ScriptedReader,
    words: &str,
) -> Result<String, AllocError> {
    let Some(numbers) = numbers::<u64>(alloc, words)? else {
        return wrong_numbers(alloc);
    };
    let [most, step] = numbers.as_slice() else {
        return wrong_numbers(alloc);
    };
    let mut reader = ScriptedReader {
        text: reader.text,
        step: *step as usize,
        then: reader.then,
    };
    let (bytes, ended) = read_up_to(alloc, &mut reader, *most as usize)?;
    match str::from_utf8(bytes.as_slice()) {
        Ok(text) => format!(in alloc; "{text} {ended:?}\n"),
        Err(_) => String::from_str(alloc, "no letters\n"),
    }
}

/// Returns how many calls are made once a text has gone out: `CALLS STEP`, where CALLS calls were made before. The writer has room for all.
/// With `CALLS STEP ROOM` it has room for ROOM bytes, and is interrupted for ever after them.
pub fn sent(alloc: Global, text: &[u8], words: &str) -> Result<String, AllocError> {
    let Some(numbers) = numbers::<u64>(alloc, words)? else {
        return wrong_numbers(alloc);
    };
    let (calls, step, room) = match numbers.as_slice() {
        [calls, step] => (*calls, *step, usize::MAX),
        [calls, step, room] => (*calls, *step, *room as usize),
        _ => return wrong_numbers(alloc),
    };
    let mut writer = writer(alloc, room, step as usize, Then::Again);
    match calls_made(text, &mut writer, calls) {
        Some(made) => format!(in alloc; "{made}\n"),
        None => String::from_str(alloc, "none\n"),
    }
}

/// Returns the calls that are made once a piece has gone out, or `None` if it doesn't go out whole.
#[tactic(auto, unfolding(wl_device::specs::Limits::most_calls))]
fn calls_made(piece: &[u8], writer: &mut ScriptedWriter, calls: u64) -> Option<u32> {
    if calls > u64::from(MOST_CALLS) {
        return None;
    }
    send(piece, writer, calls as u32).ok()
}

fn writer(alloc: Global, room: usize, step: usize, then: Then) -> ScriptedWriter {
    ScriptedWriter {
        written: Vec::new(alloc),
        room,
        step,
        then,
    }
}

/// Returns what goes out of the text of some records to writers with little room: `THEN STEP ROOM..`, a line for each room. THEN says how a
/// writer goes on without room.
pub fn fronts(alloc: Global, records: &[Record], words: &str) -> Result<String, AllocError> {
    let (word, rest) = parts(words, ' ');
    let then = match word {
        "End" => Then::End,
        "Again" => Then::Again,
        _ => Then::Failed,
    };
    let Some(numbers) = numbers::<u64>(alloc, rest)? else {
        return wrong_numbers(alloc);
    };
    let Some((step, rooms)) = numbers.as_slice().split_first() else {
        return wrong_numbers(alloc);
    };
    let mut shown = String::new(alloc);
    for room in rooms {
        let mut first = writer(alloc, *room as usize, *step as usize, then);
        let mut second = writer(alloc, *room as usize, *step as usize, then);
        push_front(alloc, &mut shown, records, &mut first, &mut second)?;
    }
    Ok(shown)
}

/// Writes records to the first writer, and their text to the second, and adds what went out.
fn push_front(
    alloc: Global,
    shown: &mut String,
    records: &[Record],
    first: &mut ScriptedWriter,
    second: &mut ScriptedWriter,
) -> Result<(), AllocError> {
    let text = text_of(alloc, records)?;
    let by_records = word_of(write_records(records, first));
    let by_text = word_of(write_all(text.as_slice(), second));
    let (one, other) = (first.written.as_slice(), second.written.as_slice());
    let same = text.as_slice().starts_with(one) && one == other;
    let (len, whole) = (one.len(), text.len());
    writeln!(
        shown,
        "{len} of {whole} {by_records} {by_text}, the front: {same}"
    )
}

/// Returns how a writing ended.
fn word_of(ended: Result<(), WriteFault>) -> &'static str {
    match ended {
        Ok(()) => "written",
        Err(_) => "Write",
    }
}
