//! What the parts of a sweep say together.
ghost use Rattle.std.specs.Prelude.{◌≡◌, ◌++◌, IfOk, OnOk, option_map};
ghost use Rattle.wl_parts.specs.Lines.{counts_line};
ghost use Rattle.wl_parts.specs.Joined.{IsJoined, all_clean, beside_from, copies, member_line, findings_by, found_text, found_together, is_beside, joined_of, numbers_from, lines_of_rows};

use crate::fault::PartsFault;
use crate::found::{Findings, FirstMember, RowCounts, total_of};
use crate::part::SweepPart;
use crate::write::push;
use std::alloc::{AllocError, Global};
use wl_level::Listed;

/// True if a part is of the same sweep as the first one, with the same number of parts, and has one of their numbers.
fn is_beside(first: &SweepPart, part: &SweepPart) -> bool
    ensures { result ≡ is_beside first.now part.now }
{
    part.of.as_slice() == first.of.as_slice()
        && part.count == first.count
        && part.number >= 1
        && part.number <= part.count
}

/// Returns the first part that is of another sweep than the first one, by its place.
fn check_beside(first: &SweepPart, parts: &[SweepPart]) -> Result<(), PartsFault>
    ensures { result ≡ beside_from 1 first.now parts.now }
{
    for (i, part) in parts.iter().enumerate() {
        if !is_beside(first, part) {
            return Err(PartsFault::Other(i as u64 + 1));
        }
    }
    Ok(())
}

/// Returns how many parts have a number.
fn copies(number: u64, parts: &[SweepPart]) -> usize
    ensures { result ≡ copies number parts.now }
{
    let mut count = 0;
    for part in parts {
        if part.number == number {
            count += 1;
        }
    }
    count
}

/// Returns the fault of the first number, from 1 to `count`, that no part has, or two.
fn check_numbers(count: u64, parts: &[SweepPart]) -> Result<(), PartsFault>
    ensures { result ≡ numbers_from 1 count parts.now }
{
    for before in 0..count {
        let several = copies(before + 1, parts);
        if several == 0 {
            return Err(PartsFault::Missing(before + 1));
        }
        if several > 1 {
            return Err(PartsFault::Doubled(before + 1));
        }
    }
    Ok(())
}

/// Returns what the part of a number found, if there is one.
fn found_by(number: u64, parts: &[SweepPart]) -> Option<&Findings>
    ensures { option_map (λ found. found.now) result ≡ findings_by number parts.now }
{
    for part in parts {
        if part.number == number {
            return Some(&part.found);
        }
    }
    None
}

/// Returns what the parts 1 to `count` found together.
fn found_together(alloc: Global, count: u64, parts: &[SweepPart]) -> Result<Findings, AllocError>
    ensures { IfOk result (λ found. found ≡ found_together count parts.now) }
{
    let mut found = Findings::nothing(alloc);
    for before in 0..count {
        if let Some(more) = found_by(before + 1, parts) {
            found = found.join(alloc, more)?;
        }
    }
    Ok(found)
}

/// Adds the line of each row that has words.
fn push_rows(
    alloc: Global,
    text: &mut Vec<u8>,
    words: &[Listed<u8>],
    rows: &[RowCounts],
) -> Result<(), AllocError>
    ensures { OnOk result (text.new.items ≡ text.old.items ++ lines_of_rows words.now rows.now) }
{
    for i in 0..words.len().min(rows.len()) {
        push(text, words[i].as_slice())?;
        push_counts(alloc, text, rows[i])?;
    }
    Ok(())
}

/// Adds the line of counts.
fn push_counts(alloc: Global, text: &mut Vec<u8>, counts: RowCounts) -> Result<(), AllocError>
    ensures { OnOk result (text.new.items ≡ text.old.items ++ counts_line counts) }
{
    let mut line = String::new(alloc);
    counts.push_line(&mut line)?;
    push(text, line.as_bytes())
}

/// Adds the line of a first member, if there is one.
fn push_first(text: &mut Vec<u8>, first: &Option<FirstMember>) -> Result<(), AllocError>
    ensures { OnOk result (text.new.items ≡ text.old.items ++ member_line first.now) }
{
    match first {
        Some(member) => push(text, member.line.as_slice()),
        None => Ok(()),
    }
}

/// Returns what a sweep says that found this, by what each of its parts says alike.
fn found_text(alloc: Global, part: &SweepPart, found: &Findings) -> Result<Listed<u8>, AllocError>
    ensures { IfOk result (λ text. text ≡ found_text part.now.words part.now.members part.now.tail found.now) }
{
    let mut text = Vec::new(alloc);
    let rows = found.rows.as_slice();
    push_rows(alloc, &mut text, part.words.as_slice(), rows)?;
    push_counts(alloc, &mut text, total_of(rows))?;
    push(&mut text, part.members.as_slice())?;
    push_first(&mut text, &found.unclean)?;
    push_first(&mut text, &found.refused)?;
    push(&mut text, part.tail.as_slice())?;
    Ok(Listed::from_vec(text))
}

/// True if every member is clean.
fn all_clean(found: &Findings) -> bool
    ensures { result ≡ all_clean found.now }
{
    let total = total_of(found.rows.as_slice());
    total.clean == total.runs
}

/// Returns the text of the whole sweep whose parts these are, in any order, and whether every member is clean.
///
/// The first of these faults: `Other`, the place of the first part that isn't of the same sweep as the first one, or not of the same number of parts;
/// `Missing` and `Doubled`, the least number that no part has, or more than one. Without a part, part 1 is missing. Refused as `Memory` at
/// any point.
pub fn join_parts(alloc: Global, parts: &[SweepPart]) -> Result<(Listed<u8>, bool), PartsFault>
    ensures { IsJoined (joined_of parts.now) result }
{
    let first = match parts.first() {
        Some(first) => first,
        None => return Err(PartsFault::Missing(1)),
    };
    check_beside(first, parts)?;
    check_numbers(first.count, parts)?;
    let found = found_together(alloc, first.count, parts)?;
    let text = found_text(alloc, first, &found)?;
    Ok((text, all_clean(&found)))
}
