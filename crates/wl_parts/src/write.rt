//! The text of a part.
ghost use Rattle.std.specs.Prelude.{◌≡◌, ◌++◌, List, ℕ, IfOk, OnOk, length};
ghost use Rattle.wl_parts.specs.Text.{AddsWords, bytes_words, row_counts_words, each_words, first_words, found_words, list_words, number_words, numbered_words, part_text, sweep_words, word_words};

use crate::found::{Findings, FirstMember, RowCounts};
use crate::part::SweepPart;
use std::alloc::{AllocError, Global};
use wl_level::Listed;
use wl_lines::push_quoted;

/// Adds bytes.
pub(crate) fn push(text: &mut Vec<u8>, more: &[u8]) -> Result<(), AllocError>
    ensures { OnOk result (text.new.items ≡ text.old.items ++ more.now) }
{
    text.extend_from_slice(more)?;
    Ok(())
}

/// Adds a number and a byte after it.
fn push_number(alloc: Global, text: &mut Vec<u8>, number: u64, last: u8) -> Result<(), AllocError>
    ensures { OnOk result (AddsWords text.old.items text.new.items (number_words number last)) }
{
    let digits = format!(in alloc; "{number}")?;
    push(text, digits.as_bytes())?;
    push(text, &[last])?;
    Ok(())
}

/// Adds bytes as a string.
fn push_bytes(text: &mut Vec<u8>, bytes: &[u8]) -> Result<(), AllocError>
    ensures { OnOk result (AddsWords text.old.items text.new.items (bytes_words bytes.now)) }
{
    push_quoted(text, bytes)?;
    Ok(())
}

/// Adds one of several strings.
fn push_word(text: &mut Vec<u8>, word: &[u8]) -> Result<(), AllocError>
    ensures { OnOk result (AddsWords text.old.items text.new.items (word_words word.now)) }
{
    push_bytes(text, word)?;
    push(text, b",")?;
    Ok(())
}

/// Adds the counts of a row.
fn push_counts(alloc: Global, text: &mut Vec<u8>, row: RowCounts) -> Result<(), AllocError>
    ensures { OnOk result (AddsWords text.old.items text.new.items (row_counts_words row)) }
{
    push(text, b"{\"runs\":")?;
    push_number(alloc, text, row.runs, b',')?;
    push(text, b"\"clean\":")?;
    push_number(alloc, text, row.clean, b',')?;
    push(text, b"\"early\":")?;
    push_number(alloc, text, row.early, b',')?;
    push(text, b"\"refused\":")?;
    push_number(alloc, text, row.refused, b'}')?;
    push(text, b",")?;
    Ok(())
}

/// Adds how many rows there are, and the counts of each.
fn push_rows(alloc: Global, text: &mut Vec<u8>, rows: &[RowCounts]) -> Result<(), AllocError>
    ensures { OnOk result (AddsWords text.old.items text.new.items (list_words row_counts_words rows.now)) }
{
    push_number(alloc, text, rows.len() as u64, b',')?;
    for row in rows {
        push_counts(alloc, text, *row)?;
    }
    Ok(())
}

/// Adds how many words there are, and each.
fn push_words(alloc: Global, text: &mut Vec<u8>, words: &[Listed<u8>]) -> Result<(), AllocError>
    ensures { OnOk result (AddsWords text.old.items text.new.items (list_words word_words words.now)) }
{
    push_number(alloc, text, words.len() as u64, b',')?;
    for word in words {
        push_word(text, word.as_slice())?;
    }
    Ok(())
}

/// Adds a member, by its number and line.
fn push_member(alloc: Global, text: &mut Vec<u8>, member: &FirstMember) -> Result<(), AllocError>
    ensures { OnOk result (AddsWords text.old.items text.new.items (numbered_words member.now)) }
{
    push(text, b"{\"number\":")?;
    push_number(alloc, text, member.number, b',')?;
    push(text, b"\"line\":")?;
    push_bytes(text, member.line.as_slice())?;
    push(text, b"},")?;
    Ok(())
}

/// Adds a first member, if there is one.
fn push_first(
    alloc: Global,
    text: &mut Vec<u8>,
    first: &Option<FirstMember>,
) -> Result<(), AllocError>
    ensures { OnOk result (AddsWords text.old.items text.new.items (first_words first.now)) }
{
    match first {
        None => push_number(alloc, text, 0, b',')?,
        Some(member) => {
            push_number(alloc, text, 1, b',')?;
            push_member(alloc, text, member)?;
        }
    }
    Ok(())
}

/// Adds what a part found.
fn push_found(alloc: Global, text: &mut Vec<u8>, found: &Findings) -> Result<(), AllocError>
    ensures { OnOk result (AddsWords text.old.items text.new.items (found_words found.now)) }
{
    push(text, b",\"rows\":[")?;
    push_rows(alloc, text, found.rows.as_slice())?;
    push(text, b"null],\"unclean\":[")?;
    push_first(alloc, text, &found.unclean)?;
    push(text, b"null],\"refused\":[")?;
    push_first(alloc, text, &found.refused)?;
    push(text, b"null]}\n")?;
    Ok(())
}

/// Adds the sweep that a part belongs to, and what all its parts say alike.
fn push_sweep(alloc: Global, text: &mut Vec<u8>, part: &SweepPart) -> Result<(), AllocError>
    ensures { OnOk result (AddsWords text.old.items text.new.items (sweep_words part.now)) }
{
    push(text, b"\"sweep\":")?;
    push_bytes(text, part.of.as_slice())?;
    push(text, b",\"words\":[")?;
    push_words(alloc, text, part.words.as_slice())?;
    push(text, b"null],\"members\":")?;
    push_bytes(text, part.members.as_slice())?;
    push(text, b",\"tail\":")?;
    push_bytes(text, part.tail.as_slice())?;
    Ok(())
}

/// Returns the text of a part: one line, an object of JSON.
pub fn part_text(alloc: Global, part: &SweepPart) -> Result<Vec<u8>, AllocError>
    ensures { IfOk result (λ text. text.items ≡ part_text part.now) }
{
    let mut text = Vec::new(alloc);
    push(&mut text, b"{\"part\":")?;
    push_number(alloc, &mut text, part.number, b',')?;
    push(&mut text, b"\"of\":")?;
    push_number(alloc, &mut text, part.count, b',')?;
    push_sweep(alloc, &mut text, part)?;
    push_found(alloc, &mut text, &part.found)?;
    Ok(text)
}
