//! Records as text.
ghost use Rattle.std.specs.Prelude.{◌≡◌, ◌+◌, ◌++◌, ◌<◌, ◌≤◌, ◌∷◌, length, take, drop, IfOk, OnOk, OnErr};
ghost use Rattle.std.specs.Fmt.{decimal};
ghost use Rattle.wl_record_core.specs.Text.{text_line, text_of};

use itoa::write_digits;
use std::alloc::{AllocError, Global};
use wl_device::{Sink, WriteFault, send};
use wl_record_core::Record;

/// Enough for the line of any record, with its newline.
const LINE_ROOM: usize = 40;

/// Puts a byte before the place `end`. Returns its place.
fn put_before(line: &mut [u8], end: usize, byte: u8) -> usize
    requires some { 0 < end }
    requires within { end ≤ length line.old }
    ensures place { result + 1 ≡ end }
    ensures put { drop result line.new ≡ byte ∷ drop end line.old }
    ensures len { length line.new ≡ length line.old }
{
    line[end - 1] = byte;
    end - 1
}

/// Puts a space and a number before the place `end`. Returns the place of the space.
fn field_before(line: &mut [u8], end: usize, n: u64) -> usize
    requires room { length (decimal n) < end }
    requires within { end ≤ length line.old }
    ensures place { result + 1 + length (decimal n) ≡ end }
    ensures put { drop result line.new ≡ 32 ∷ decimal n ++ drop end line.old }
    ensures len { length line.new ≡ length line.old }
{
    let at = write_digits(n, line, end);
    put_before(line, at, b' ')
}

/// Puts a letter and the numbers of a node and a place before the place `end`. Returns the place of the letter.
#[tactic(auto, using(crate::proofs::WriteLemmas::byte_length, crate::proofs::WriteLemmas::word_length))]
fn place_before(line: &mut [u8], end: usize, letter: u8, node: u8, place: u32) -> usize
    requires room { 16 ≤ end }
    requires within { end ≤ length line.old }
    ensures within { result ≤ end }
    ensures put { drop result line.new ≡ letter ∷ (32 ∷ decimal node ++ (32 ∷ decimal place ++ drop end line.old)) }
    ensures len { length line.new ≡ length line.old }
{
    let at = field_before(line, end, u64::from(place));
    let at = field_before(line, at, u64::from(node));
    put_before(line, at, letter)
}

/// Puts the line of a record at the end. Returns the place where it begins.
#[tactic(auto, using(crate::proofs::WriteLemmas::long_length))]
fn line_at_end(line: &mut [u8; LINE_ROOM], told: &Record) -> usize
    ensures within { result ≤ 40 }
    ensures put { drop result line.new ≡ text_line told.now }
{
    let end = put_before(line, LINE_ROOM, b'\n');
    match *told {
        Record::Edge { node, seq, tick } => {
            let end = field_before(line, end, tick);
            place_before(line, end, b'E', node, seq)
        }
        Record::Clash { node, seq } => place_before(line, end, b'C', node, seq),
        Record::Silence { node, count, until } => {
            let end = field_before(line, end, until);
            place_before(line, end, b'S', node, count)
        }
    }
}

/// Adds the line of a record, within its limits or not, to a text. Refused only when out of memory; the text is then
/// as it was.
#[inline(always)]
pub fn push_text_line(text: &mut Vec<u8>, told: &Record) -> Result<(), AllocError>
    ensures ok { OnOk result (text.new.items ≡ text.old.items ++ text_line told.now) }
    ensures err { OnErr result (text.new.items ≡ text.old.items) }
{
    let mut line = [0u8; LINE_ROOM];
    let at = line_at_end(&mut line, told);
    text.extend_from_slice(&line[at..])
}

/// Returns the text of the records, within their limits or not. Refused only when out of memory.
pub fn text_of(alloc: Global, records: &[Record]) -> Result<Vec<u8>, AllocError>
    ensures { IfOk result (λ text. text.items ≡ text_of records.now) }
{
    let mut text = Vec::new(alloc);
    let mut line = [0u8; LINE_ROOM];
    for told in records {
        let at = line_at_end(&mut line, told);
        text.extend_from_slice(&line[at..])?;
    }
    Ok(text)
}

/// How many bytes go out in one piece.
const CHUNK: usize = 4_096;

/// Puts the line of a record after the first `filled` bytes. Returns how many are filled then.
fn push_line(chunk: &mut [u8], filled: usize, told: &Record) -> usize
    requires { filled + 40 ≤ length chunk.old }
    ensures within { result ≤ length chunk.new }
    ensures put { take result chunk.new ≡ take filled chunk.old ++ text_line told.now }
    ensures len { length chunk.new ≡ length chunk.old }
{
    let mut line = [0u8; LINE_ROOM];
    let at = line_at_end(&mut line, told);
    let end = filled + (LINE_ROOM - at);
    chunk[filled..end].copy_from_slice(&line[at..]);
    end
}

ghost use Rattle.wl_device.specs.Devices.{Writes};

/// Writes the text of the records, by pieces and without memory, in at most `MOST_CALLS` calls. On a fault a prefix of
/// the text has been written, and not all.
pub fn write_records<W: Sink>(records: &[Record], writer: &mut W) -> Result<(), WriteFault>
    ensures { Writes W.takes writer.old (text_of records.now) result writer.new }
{
    let mut chunk = [0u8; CHUNK];
    let mut filled = 0;
    let mut calls = 0;
    for told in records {
        if filled + LINE_ROOM > CHUNK {
            calls = match send(&chunk[..filled], writer, calls) {
                Ok(made) => made,
                Err(fault) => return Err(fault),
            };
            filled = 0;
        }
        filled = push_line(&mut chunk, filled, told);
    }
    match send(&chunk[..filled], writer, calls) {
        Ok(_) => Ok(()),
        Err(fault) => Err(fault),
    }
}
