//! Reading the texts of parts.
ghost use Rattle.std.specs.Prelude.{◌≡◌, ◌++◌, ◌+◌, ◌/◌, ◌%◌, ◌<◌, ℕ, List, [], ◌∷◌, Option, Some, Ok, false, length, IfOk, IfErr, IfSome};
ghost use Rattle.std.specs.Char.{is_ascii_digit};
ghost use Rattle.std.specs.Fmt.{decimal};
ghost use Rattle.std.specs.List.{AllByRecursion};
ghost use Rattle.wl_parts.specs.declared.found.RowCounts.{RowCounts as SomeCounts};
ghost use Rattle.wl_parts.specs.declared.found.FirstMember.{FirstMember as SomeMember};
ghost use Rattle.wl_parts.specs.declared.found.Findings.{Findings as SomeFindings};
ghost use Rattle.wl_parts.specs.declared.part.SweepPart.{SweepPart as APart};
ghost use Rattle.wl_parts.specs.Reading.{AddsPart, GivesValue, Leaves, ReadsParts, Sets, digit_count, is_quoted_end};
ghost use Rattle.wl_lines.specs.Json.{escaped, escaped_byte, hexadecimal_digit};
ghost use Rattle.wl_parts.specs.Text.{CountsFit, FirstFits, Fits64, FoundFits, PartFits, bytes_words, row_counts_words, each_words, first_words, found_words, numbered_words, number_words, part_words, parts_text, sweep_words, word_words};

use crate::fault::PartsFault;
use crate::found::{Findings, FirstMember, RowCounts};
use crate::part::SweepPart;
use std::alloc::{AllocError, Global};
use wl_level::Listed;

/// Why something can't be read.
#[derive(Clone, Copy, Debug, PartialEq, Eq)]
pub(crate) enum Unread {
    /// The text has another form.
    Form,
    /// Out of memory.
    Memory,
}

impl From<AllocError> for Unread {
    ghost use Rattle.std.specs.Prelude.{◌≡◌};
    ghost use Rattle.wl_parts.specs.declared.read.Unread.TheVariants.{Memory};

    ghost from_gives = { λ _ given. given ≡ Memory };

    fn from(_: AllocError) -> Unread {
        Unread::Memory
    }
}

/// Returns what is left of a text after these words.
fn after<'a>(text: &'a [u8], words: &[u8]) -> Result<&'a [u8], Unread>
    ensures { (rest : List ℕ) → text.now ≡ words.now ++ rest → Leaves result rest }
{
    match text.strip_prefix(words) {
        Some(rest) => Ok(rest),
        None => Err(Unread::Form),
    }
}

/// Returns the number that decimal digits are.
fn number_of(digits: &[u8]) -> Result<u64, Unread>
    ensures { (n : ℕ) → Fits64 n → digits.now ≡ decimal n → result ≡ Ok n }
{
    match str::from_utf8(digits) {
        Ok(digits) => match digits.parse::<u64>() {
            Ok(number) => Ok(number),
            Err(_) => Err(Unread::Form),
        },
        Err(_) => Err(Unread::Form),
    }
}

/// Returns how many digits a text begins with, if something comes after them.
fn digit_count(text: &[u8]) -> Option<usize>
    ensures place { result ≡ digit_count text.now }
    ensures within { IfSome result (λ count. count < length text.now) }
{
    text.iter().position(|byte| !byte.is_ascii_digit())
}

/// Returns the number that a text has after these words, and what is left after the byte that follows the number.
fn number<'a>(text: &'a [u8], words: &[u8], last: u8) -> Result<(u64, &'a [u8]), Unread>
    ensures { (n : ℕ) (rest : List ℕ) → Fits64 n → is_ascii_digit last ≡ false
        → text.now ≡ words.now ++ number_words n last rest → GivesValue result n rest }
{
    let text = after(text, words)?;
    match digit_count(text) {
        Some(count) => {
            let (digits, rest) = text.split_at(count);
            let number = number_of(digits)?;
            let rest = after(rest, &[last])?;
            Ok((number, rest))
        }
        None => Err(Unread::Form),
    }
}

/// Returns the value of a hexadecimal digit.
fn digit_value(digit: u8) -> Option<u8>
    ensures value { (v : ℕ) → v < 16 → digit ≡ hexadecimal_digit v → result ≡ Some v }
    ensures few { IfSome result (λ value. value < 16) }
{
    match digit {
        b'0'..=b'9' => Some(digit - b'0'),
        b'a'..=b'f' => Some(digit - b'W'),
        _ => None,
    }
}

/// Returns the byte that two hexadecimal digits are.
fn byte_of(high: u8, low: u8) -> Option<u8>
    ensures { (b : ℕ) → b < 32 → high ≡ 48 + b / 16 → low ≡ hexadecimal_digit (b % 16) → result ≡ Some b }
{
    let high = digit_value(high)?;
    let low = digit_value(low)?;
    Some(high * 16 + low)
}

/// Returns the byte whose four hexadecimal digits a text begins with, and what is left.
fn control(text: &[u8]) -> Result<(u8, &[u8]), Unread>
    ensures value { (b : ℕ) (rest : List ℕ) → b < 32
        → text.now ≡ 48 ∷ 48 ∷ (48 + b / 16) ∷ hexadecimal_digit (b % 16) ∷ rest → GivesValue result b rest }
    ensures less { IfOk result (λ read. length read.1.now < length text.now) }
{
    match text {
        [first, second, high, low, rest @ ..] => {
            if *first != b'0' || *second != b'0' {
                return Err(Unread::Form);
            }
            match byte_of(*high, *low) {
                Some(byte) => Ok((byte, rest)),
                None => Err(Unread::Form),
            }
        }
        _ => Err(Unread::Form),
    }
}

/// Returns the byte that is escaped after a backslash, and what is left.
fn escape(text: &[u8]) -> Result<(u8, &[u8]), Unread>
    ensures value { (b : ℕ) (rest : List ℕ) → 92 ∷ text.now ≡ escaped_byte b ++ rest → GivesValue result b rest }
    ensures less { IfOk result (λ read. length read.1.now < length text.now) }
{
    match text {
        [kind, rest @ ..] => match *kind {
            b'"' | b'\\' => Ok((*kind, rest)),
            b'u' => control(rest),
            _ => Err(Unread::Form),
        },
        [] => Err(Unread::Form),
    }
}

/// Returns the byte that a string begins with, and what is left, which is less.
fn string_byte(text: &[u8]) -> Result<(u8, &[u8]), Unread>
    ensures value { (b : ℕ) (rest : List ℕ) → text.now ≡ escaped_byte b ++ rest → GivesValue result b rest }
    ensures less { IfOk result (λ read. length read.1.now < length text.now) }
{
    match text {
        [first, rest @ ..] => {
            if *first == b'\\' {
                escape(rest)
            } else {
                Ok((*first, rest))
            }
        }
        [] => Err(Unread::Form),
    }
}

/// True if a quotation mark comes next.
fn is_end(text: &[u8]) -> bool
    ensures { result ≡ is_quoted_end text.now }
{
    match text {
        [byte, ..] => *byte == b'"',
        [] => false,
    }
}

/// Reads the bytes of a string up to the quotation mark at its end, and returns what is left after that.
fn string<'a>(alloc: Global, text: &'a [u8], read: &mut Listed<u8>) -> Result<&'a [u8], Unread>
    ensures { (bs : List ℕ) (rest : List ℕ) → text.now ≡ escaped bs ++ 34 ∷ rest → Sets result read.new bs rest }
{
    let mut all = Listed::new(alloc);
    let mut rest = text;
    while !is_end(rest) {
        let (byte, more) = string_byte(rest)?;
        all.push(byte)?;
        rest = more;
    }
    *read = all;
    after(rest, b"\"")
}

/// Reads the bytes that a text has as a string after these words, and returns what is left.
fn bytes<'a>(
    alloc: Global,
    text: &'a [u8],
    words: &[u8],
    read: &mut Listed<u8>,
) -> Result<&'a [u8], Unread>
    ensures { (bs : List ℕ) (rest : List ℕ) → text.now ≡ words.now ++ bytes_words bs rest
        → Sets result read.new bs rest }
{
    let rest = after(text, words)?;
    let rest = after(rest, b"\"")?;
    string(alloc, rest, read)
}

/// Returns the counts of a row, and what is left.
fn counts(text: &[u8]) -> Result<(RowCounts, &[u8]), Unread>
    ensures { (c : SomeCounts) (rest : List ℕ) → CountsFit c
        → text.now ≡ row_counts_words c rest → GivesValue result c rest }
{
    let (runs, rest) = number(text, b"{\"runs\":", b',')?;
    let (clean, rest) = number(rest, b"\"clean\":", b',')?;
    let (early, rest) = number(rest, b"\"early\":", b',')?;
    let (refused, rest) = number(rest, b"\"refused\":", b'}')?;
    let rest = after(rest, b",")?;
    let counts = RowCounts {
        runs,
        clean,
        early,
        refused,
    };
    Ok((counts, rest))
}

/// Reads the counts of `count` rows, and returns what is left.
fn rows<'a>(
    alloc: Global,
    text: &'a [u8],
    count: u64,
    read: &mut Listed<RowCounts>,
) -> Result<&'a [u8], Unread>
    ensures { (cs : List SomeCounts) (rest : List ℕ) → count ≡ length cs → AllByRecursion CountsFit cs
        → text.now ≡ each_words row_counts_words cs rest → Sets result read.new cs rest }
{
    let mut all = Listed::new(alloc);
    let mut rest = text;
    for _ in 0..count {
        let (row, more) = counts(rest)?;
        all.push(row)?;
        rest = more;
    }
    *read = all;
    Ok(rest)
}

/// Returns one of several strings, and what is left.
fn word<'a>(alloc: Global, text: &'a [u8], read: &mut Listed<u8>) -> Result<&'a [u8], Unread>
    ensures { (bs : List ℕ) (rest : List ℕ) → text.now ≡ word_words bs rest → Sets result read.new bs rest }
{
    let rest = bytes(alloc, text, b"", read)?;
    after(rest, b",")
}

/// Reads the words of `count` rows, and returns what is left.
fn words<'a>(
    alloc: Global,
    text: &'a [u8],
    count: u64,
    read: &mut Listed<Listed<u8>>,
) -> Result<&'a [u8], Unread>
    ensures { (ws : List (List ℕ)) (rest : List ℕ) → count ≡ length ws
        → text.now ≡ each_words word_words ws rest → Sets result read.new ws rest }
{
    let mut all = Listed::new(alloc);
    let mut rest = text;
    for _ in 0..count {
        let mut one = Listed::new(alloc);
        rest = word(alloc, rest, &mut one)?;
        all.push(one)?;
    }
    *read = all;
    Ok(rest)
}

/// Reads a member, and returns what is left.
fn member<'a>(
    alloc: Global,
    text: &'a [u8],
    read: &mut Option<FirstMember>,
) -> Result<&'a [u8], Unread>
    ensures { (m : SomeMember) (rest : List ℕ) → Fits64 m.number
        → text.now ≡ numbered_words m rest → Sets result read.new (Some m) rest }
{
    let mut line = Listed::new(alloc);
    let (number, rest) = number(text, b"{\"number\":", b',')?;
    let rest = bytes(alloc, rest, b"\"line\":", &mut line)?;
    *read = Some(FirstMember { number, line });
    after(rest, b"},")
}

/// Reads a first member, if there is one, after these words; returns what is left.
fn first<'a>(
    alloc: Global,
    text: &'a [u8],
    words: &[u8],
    read: &mut Option<FirstMember>,
) -> Result<&'a [u8], Unread>
    ensures { (m : Option SomeMember) (rest : List ℕ) → FirstFits m
        → text.now ≡ words.now ++ first_words m rest → Sets result read.new m rest }
{
    let (some, rest) = number(text, words, b',')?;
    match some {
        0 => {
            *read = None;
            Ok(rest)
        }
        1 => member(alloc, rest, read),
        _ => Err(Unread::Form),
    }
}

/// Reads what a part found, and returns what is left.
fn found<'a>(alloc: Global, text: &'a [u8], read: &mut Findings) -> Result<&'a [u8], Unread>
    ensures { (f : SomeFindings) (rest : List ℕ) → FoundFits f
        → text.now ≡ found_words f rest → Sets result read.new f rest }
{
    let (count, rest) = number(text, b",\"rows\":[", b',')?;
    let rest = rows(alloc, rest, count, &mut read.rows)?;
    let rest = first(alloc, rest, b"null],\"unclean\":[", &mut read.unclean)?;
    let rest = first(alloc, rest, b"null],\"refused\":[", &mut read.refused)?;
    after(rest, b"null]}\n")
}

/// Reads the sweep that a part belongs to, and what all its parts say alike; returns what is left.
fn sweep<'a>(alloc: Global, text: &'a [u8], read: &mut SweepPart) -> Result<&'a [u8], Unread>
    ensures { (p : APart) (rest : List ℕ) → Fits64 (length p.words) → text.now ≡ sweep_words p rest
        → Sets result read.new
        (record read.old { of = p.of; words = p.words; members = p.members; tail = p.tail }) rest }
{
    let rest = bytes(alloc, text, b"\"sweep\":", &mut read.of)?;
    let (count, rest) = number(rest, b",\"words\":[", b',')?;
    let rest = words(alloc, rest, count, &mut read.words)?;
    let rest = bytes(alloc, rest, b"null],\"members\":", &mut read.members)?;
    bytes(alloc, rest, b",\"tail\":", &mut read.tail)
}

/// Returns a part that says nothing.
fn empty(alloc: Global) -> SweepPart {
    SweepPart {
        of: Listed::new(alloc),
        number: 0,
        count: 0,
        words: Listed::new(alloc),
        members: Listed::new(alloc),
        tail: Listed::new(alloc),
        found: Findings::nothing(alloc),
    }
}

/// Reads a part, and returns what is left.
fn part<'a>(alloc: Global, text: &'a [u8], read: &mut SweepPart) -> Result<&'a [u8], Unread>
    ensures { (p : APart) (rest : List ℕ) → PartFits p → text.now ≡ part_words p rest → Sets result read.new p rest }
{
    let (number_of_part, rest) = number(text, b"{\"part\":", b',')?;
    read.number = number_of_part;
    let (count, rest) = number(rest, b"\"of\":", b',')?;
    read.count = count;
    let rest = sweep(alloc, rest, read)?;
    let rest = found(alloc, rest, &mut read.found)?;
    Ok(rest)
}

/// Reads a part and adds it to others; returns what is left, which is less.
fn next_part<'a>(
    alloc: Global,
    text: &'a [u8],
    parts: &mut Listed<SweepPart>,
) -> Result<&'a [u8], PartsFault>
    ensures next { (p : APart) (rest : List ℕ) → PartFits p → text.now ≡ part_words p rest
        → AddsPart result parts.old parts.new p rest }
    ensures less { IfOk result (λ left. length left.now < length text.now) }
{
    let place = (parts.len() as u64).saturating_add(1);
    let mut read = empty(alloc);
    match part(alloc, text, &mut read) {
        Ok(rest) => {
            if rest.len() >= text.len() {
                return Err(PartsFault::Form(place));
            }
            parts.push(read)?;
            Ok(rest)
        }
        Err(Unread::Memory) => Err(PartsFault::Memory),
        Err(Unread::Form) => Err(PartsFault::Form(place)),
    }
}

/// Returns the parts whose texts these are, one after another.
///
/// Any text that is those of parts, as `part_text` writes them, is read as these parts. Another text is refused as `Form`, at the first
/// part that isn't one; no clause says so. Refused as `Memory` at any point.
pub fn read_parts(alloc: Global, text: &[u8]) -> Result<Listed<SweepPart>, PartsFault>
    ensures { (ps : List APart) → AllByRecursion PartFits ps → text.now ≡ parts_text ps → ReadsParts result ps }
{
    let mut parts = Listed::new(alloc);
    let mut rest = text;
    while !rest.is_empty() {
        rest = next_part(alloc, rest, &mut parts)?;
    }
    Ok(parts)
}
