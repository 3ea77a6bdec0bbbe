//! Lines of record text.
ghost use Rattle.std.specs.Prelude.{◌≡◌, ◌↔◌, ◌+◌, ◌<◌, ◌≤◌, ℕ, List, length, take, slice_index, IfSome, IfNone, IfOk, IfErr, MatchOption, IsTrue, [], ◌∷◌, ◌++◌};
ghost use Rattle.std.specs.Char.{digit_value};

use crate::limits::MOST_LINE;
use crate::quick::quick_line;
use std::alloc::AllocError;
use wl_limits::Limits;
use wl_record_core::{Record, TICK_END, record_edges, record_nodes};

/// Why a line is refused.
#[derive(Clone, Copy, Debug, PartialEq, Eq)]
pub enum LineFault {
    /// It spells no record.
    Grammar,
    /// It spells a record that isn't within the limits.
    Beyond,
}

/// Why no record is taken from the front of some bytes.
#[derive(Clone, Copy, Debug, PartialEq, Eq)]
pub enum Stop {
    /// They end before a newline, and a line may still come of them.
    Open,
    /// There are more bytes before a newline than a line has.
    Long,
    /// A line that is refused.
    Refused(LineFault),
}

ghost use Rattle.wl_record.specs.Parsing.{IsDigits, IsField, FieldsThen, number_as_read};

/// More than any number that is within. Greater numbers in a text are read as this one.
const CAP: u64 = 1_000_000_000_000_000_000;

/// True if a byte is a decimal digit.
pub fn is_digit(byte: u8) -> bool
    ensures { IsTrue result ↔ (digit_value byte < 10) }
{
    byte.is_ascii_digit()
}

/// Returns the value of the digits at the front, and what follows them.
fn digits(bytes: &[u8]) -> (u64, &[u8])
    ensures { IsDigits bytes.now result.0 result.1.now }
{
    let mut value: u64 = 0;
    let mut at = 0;
    while at < bytes.len() && is_digit(bytes[at]) {
        if value < CAP {
            value = value * 10 + u64::from(bytes[at] - b'0');
        }
        at += 1;
    }
    (value.min(CAP), &bytes[at..])
}

/// Returns the number after a space at the front, and what follows it.
fn field(bytes: &[u8]) -> Option<(u64, &[u8])>
    ensures found { IfSome result (λ r. (n : ℕ) × IsField bytes.now n r.1.now × (r.0 ≡ number_as_read n)) }
    ensures none { IfNone result ((n : ℕ) (rest : List ℕ) → ¬ (IsField bytes.now n rest)) }
{
    let [b' ', text @ ..] = bytes else {
        return None;
    };
    let (value, rest) = digits(text);
    let len = text.len() - rest.len();
    if len == 0 || (len > 1 && text[0] == b'0') {
        return None;
    }
    Some((value, rest))
}

/// Returns two numbers, each after a space, and what follows them.
fn two_fields(bytes: &[u8]) -> Option<(u64, u64, &[u8])>
    ensures found { IfSome result (λ r. (a b : ℕ) × FieldsThen bytes.now (a ∷ b ∷ []) r.2.now
        × (r.0 ≡ number_as_read a) × (r.1 ≡ number_as_read b)) }
    ensures none { IfNone result ((a b : ℕ) (rest : List ℕ) → ¬ (FieldsThen bytes.now (a ∷ b ∷ []) rest)) }
{
    let Some((first, more)) = field(bytes) else {
        return None;
    };
    let Some((second, rest)) = field(more) else {
        return None;
    };
    Some((first, second, rest))
}

/// Returns three numbers, each after a space, and what follows them.
fn three_fields(bytes: &[u8]) -> Option<(u64, u64, u64, &[u8])>
    ensures found { IfSome result (λ r. (a b k : ℕ) × FieldsThen bytes.now (a ∷ b ∷ k ∷ []) r.3.now
        × (r.0 ≡ number_as_read a) × (r.1 ≡ number_as_read b) × (r.2 ≡ number_as_read k)) }
    ensures none { IfNone result ((a b k : ℕ) (rest : List ℕ) → ¬ (FieldsThen bytes.now (a ∷ b ∷ k ∷ []) rest)) }
{
    let Some((first, more)) = field(bytes) else {
        return None;
    };
    let Some((second, third, rest)) = two_fields(more) else {
        return None;
    };
    Some((first, second, third, rest))
}

ghost use Rattle.wl_record_core.specs.declared.record.Record.{Record};
ghost use Rattle.wl_record_core.specs.declared.record.Record.TheVariants.{Edge, Clash, Silence};
ghost use Rattle.wl_record.specs.Grammar.{letter_of, numbers_of, Spells};
ghost use Rattle.wl_record.specs.Limits.{most_line};
ghost use Rattle.wl_record_core.specs.Within.{IsWithinBy};
ghost use Rattle.wl_record.specs.Faults.{HasNoNewline};
ghost use Rattle.wl_record.specs.Parsing.{IsFront, IsOnlyWithin, IsRecordFront, Begins, IsLineFault, TakesLine, IsStop};

/// Returns the edge with these numbers, if it is within.
#[tactic(auto, unfolding(wl_record_core::specs::Limits::tick_end))]
pub fn edge(limits: Limits, node: u64, seq: u64, tick: u64) -> Option<Record>
    ensures { IsOnlyWithin limits (Edge node seq tick) result }
{
    if node < u64::from(record_nodes(limits))
        && seq < u64::from(record_edges(limits))
        && tick < TICK_END
    {
        let (node, seq) = (node as u8, seq as u32);
        Some(Record::Edge { node, seq, tick })
    } else {
        None
    }
}

/// Returns the clash with these numbers, if it is within.
#[tactic(auto, unfolding(wl_record_core::specs::Limits::tick_end))]
fn clash(limits: Limits, node: u64, seq: u64) -> Option<Record>
    ensures { IsOnlyWithin limits (Clash node seq) result }
{
    if node < u64::from(record_nodes(limits)) && seq < u64::from(record_edges(limits)) {
        let (node, seq) = (node as u8, seq as u32);
        Some(Record::Clash { node, seq })
    } else {
        None
    }
}

/// Returns the silence with these numbers, if it is within.
#[tactic(auto, unfolding(wl_record_core::specs::Limits::tick_end))]
pub fn silence(limits: Limits, node: u64, count: u64, until: u64) -> Option<Record>
    ensures { IsOnlyWithin limits (Silence node count until) result }
{
    if node < u64::from(record_nodes(limits))
        && count <= u64::from(record_edges(limits))
        && until < TICK_END
    {
        let (node, count) = (node as u8, count as u32);
        Some(Record::Silence { node, count, until })
    } else {
        None
    }
}

/// Returns the edge of the fields at the front, if it is within, and what follows them.
fn edge_front(limits: Limits, fields: &[u8]) -> Option<(Option<Record>, &[u8])>
    ensures found { IfSome result (λ f. IsFront limits 69 fields.now f.0 f.1.now) }
    ensures none { IfNone result ((r : Record) (rest : List ℕ)
        → letter_of r ≡ 69 → ¬ (FieldsThen fields.now (numbers_of r) rest)) }
{
    let Some((node, seq, tick, rest)) = three_fields(fields) else {
        return None;
    };
    Some((edge(limits, node, seq, tick), rest))
}

/// Returns the clash of the fields at the front, likewise.
fn clash_front(limits: Limits, fields: &[u8]) -> Option<(Option<Record>, &[u8])>
    ensures found { IfSome result (λ f. IsFront limits 67 fields.now f.0 f.1.now) }
    ensures none { IfNone result ((r : Record) (rest : List ℕ)
        → letter_of r ≡ 67 → ¬ (FieldsThen fields.now (numbers_of r) rest)) }
{
    let Some((node, seq, rest)) = two_fields(fields) else {
        return None;
    };
    Some((clash(limits, node, seq), rest))
}

/// Returns the silence of the fields at the front, likewise.
fn silence_front(limits: Limits, fields: &[u8]) -> Option<(Option<Record>, &[u8])>
    ensures found { IfSome result (λ f. IsFront limits 83 fields.now f.0 f.1.now) }
    ensures none { IfNone result ((r : Record) (rest : List ℕ)
        → letter_of r ≡ 83 → ¬ (FieldsThen fields.now (numbers_of r) rest)) }
{
    let Some((node, count, until, rest)) = three_fields(fields) else {
        return None;
    };
    Some((silence(limits, node, count, until), rest))
}

/// Returns the record of the letter and the fields at the front, if it is within, and what follows them.
fn record_front(limits: Limits, bytes: &[u8]) -> Option<(Option<Record>, &[u8])>
    ensures found { IfSome result (λ f. IsRecordFront limits bytes.now f.0 f.1.now) }
    ensures none { IfNone result ((r : Record) (rest : List ℕ) → ¬ (Begins bytes.now r rest)) }
{
    match bytes {
        [b'E', fields @ ..] => edge_front(limits, fields),
        [b'C', fields @ ..] => clash_front(limits, fields),
        [b'S', fields @ ..] => silence_front(limits, fields),
        _ => None,
    }
}

/// Returns the record of a line, or why the line is refused.
fn parse_line(limits: Limits, line: &[u8]) -> Result<Record, LineFault>
    ensures told { IfOk result (λ r. Spells line.now r × IsWithinBy limits r) }
    ensures fault { IfErr result (λ fault. IsLineFault limits line.now fault) }
{
    let Some((told, rest)) = record_front(limits, line) else {
        return Err(LineFault::Grammar);
    };
    if !rest.is_empty() {
        return Err(LineFault::Grammar);
    }
    match told {
        Some(told) => Ok(told),
        None => Err(LineFault::Beyond),
    }
}

/// Returns where the first newline is, if it is among the bytes of a line and the one after.
fn newline_at(bytes: &[u8]) -> Option<usize>
    ensures found { IfSome result (λ at. (at ≤ most_line) × (at < length bytes.now)
        × HasNoNewline (take at bytes.now) × (slice_index bytes.now at ≡ 10)) }
    ensures none { IfNone result (HasNoNewline (take (most_line + 1) bytes.now)) }
{
    for at in 0..bytes.len().min(MOST_LINE + 1) {
        if bytes[at] == b'\n' {
            return Some(at);
        }
    }
    None
}

/// Returns the record whose line is at the front, and what follows its newline; or why there is none.
#[cold]
#[inline(never)]
fn slow_line(limits: Limits, bytes: &[u8]) -> Result<(Record, &[u8]), Stop>
    ensures told { IfOk result (λ t. TakesLine limits bytes.now t.0 t.1.now) }
    ensures stop { IfErr result (λ stop. IsStop limits bytes.now stop) }
{
    let Some(at) = newline_at(bytes) else {
        return Err(if bytes.len() > MOST_LINE {
            Stop::Long
        } else {
            Stop::Open
        });
    };
    match parse_line(limits, &bytes[..at]) {
        Ok(told) => Ok((told, &bytes[at + 1..])),
        Err(fault) => Err(Stop::Refused(fault)),
    }
}

/// Returns the same, without a look for the newline first.
#[inline(never)]
fn plain_line(limits: Limits, bytes: &[u8]) -> Result<(Record, &[u8]), Stop>
    ensures told { IfOk result (λ t. TakesLine limits bytes.now t.0 t.1.now) }
    ensures stop { IfErr result (λ stop. IsStop limits bytes.now stop) }
{
    if let Some((Some(told), more)) = record_front(limits, bytes) {
        if let [b'\n', rest @ ..] = more {
            return Ok((told, rest));
        }
    }
    slow_line(limits, bytes)
}

/// Returns the same, by the quick line if that answers.
#[inline(always)]
fn take_line(limits: Limits, bytes: &[u8]) -> Result<(Record, &[u8]), Stop>
    ensures told { IfOk result (λ t. TakesLine limits bytes.now t.0 t.1.now) }
    ensures stop { IfErr result (λ stop. IsStop limits bytes.now stop) }
{
    match quick_line(limits, bytes) {
        Some(taken) => Ok(taken),
        None => plain_line(limits, bytes),
    }
}

ghost use Rattle.wl_record.specs.Parsing.{TakesLines, Appends};

/// Appends the records of the whole lines at the front. Returns what follows them, and why there is no line.
pub fn take_lines<'a>(
    limits: Limits,
    bytes: &'a [u8],
    records: &mut Vec<Record>,
) -> Result<(&'a [u8], Stop), AllocError>
    ensures told { IfOk result (λ t. (rs : List Record) × TakesLines limits bytes.now rs t.0.now
        × (records.new.items ≡ records.old.items ++ rs)) }
    ensures stop { IfOk result (λ t. IsStop limits t.0.now t.1) }
    ensures grows { IfErr result (λ _. Appends limits records.old.items records.new.items) }
{
    let mut rest = bytes;
    loop {
        match take_line(limits, rest) {
            Ok((told, others)) => {
                records.push(told)?;
                rest = others;
            }
            Err(stop) => return Ok((rest, stop)),
        }
    }
}
