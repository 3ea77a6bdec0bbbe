//! Lines of edges and silences, read without a look for their end.
ghost use Rattle.std.specs.Prelude.{◌≡◌, ◌+◌, ◌-◌, ◌<◌, ◌≤◌, length, take, drop, slice_index, IfSome, [], ◌∷◌};
ghost use Rattle.std.specs.Char.{digit_value};
ghost use Rattle.std.specs.Str.Parse.{AllDigits, digits_value};

use crate::parse::{edge, is_digit, silence};
use wl_limits::Limits;
use wl_record_core::Record;

/// The most digits of a node's number that is within, by the wide limits.
const NODE_DIGITS: usize = 2;

/// The most digits of a change's number that is within, or of a count of changes, by the wide limits.
const PLACE_DIGITS: usize = 9;

/// The most digits of a tick that is within.
const TICK_DIGITS: usize = 15;

/// The most bytes of a line of an edge or a silence that is within, with its newline, by the wide limits.
const QUICK_ROOM: usize = 31;

/// Returns the digits from a place on, at most this many: their value, and the place after them.
#[inline(always)]
fn digits_at(bytes: &[u8], from: usize, most: usize) -> (u64, usize)
    requires few { most ≤ 15 }
    requires room { from + most ≤ length bytes.now }
    ensures after { from ≤ result.1 }
    ensures most { result.1 ≤ from + most }
    ensures digits { AllDigits 10 (take (result.1 - from) (drop from bytes.now)) }
    ensures value { result.0 ≡ digits_value 10 (take (result.1 - from) (drop from bytes.now)) }
{
    let mut value: u64 = 0;
    let mut at = from;
    while at < from + most && is_digit(bytes[at]) {
        value = value * 10 + u64::from(bytes[at] - b'0');
        at += 1;
    }
    (value, at)
}

ghost use Rattle.wl_record.specs.Parsing.{IsField};

/// Returns the number after the space at a place, if it has at most `most` digits and the byte `end` follows it, and the place of that
/// byte. `None` says nothing of the bytes.
#[inline(always)]
fn field_at(bytes: &[u8], space: usize, most: usize, end: u8) -> Option<(u64, usize)>
    requires space { slice_index bytes.now space ≡ 32 }
    requires few { most ≤ 15 }
    requires room { space + most + 1 < length bytes.now }
    requires end { 10 ≤ digit_value end }
    ensures within { IfSome result (λ r. r.1 ≤ space + most + 1) }
    ensures field { IfSome result (λ r. IsField (drop space bytes.now) r.0 (drop r.1 bytes.now)) }
    ensures end { IfSome result (λ r. slice_index bytes.now r.1 ≡ end) }
{
    let from = space + 1;
    let (value, at) = digits_at(bytes, from, most);
    if at == from || bytes[at] != end || (bytes[from] == b'0' && at > from + 1) {
        return None;
    }
    Some((value, at))
}

ghost use Rattle.wl_record_core.specs.Within.{IsWithinBy};
ghost use Rattle.wl_record.specs.Grammar.{letter_of, numbers_of};
ghost use Rattle.wl_record.specs.Parsing.{TakesLine};

/// Returns the edge or the silence with this letter and these numbers, if it is within.
#[inline(always)]
fn told_by(limits: Limits, letter: u8, node: u64, place: u64, tick: u64) -> Option<Record>
    ensures letter { IfSome result (λ r. letter_of r ≡ letter) }
    ensures numbers { IfSome result (λ r. numbers_of r ≡ node ∷ place ∷ tick ∷ []) }
    ensures within { IfSome result (λ r. IsWithinBy limits r) }
{
    match letter {
        b'E' => edge(limits, node, place, tick),
        b'S' => silence(limits, node, place, tick),
        _ => None,
    }
}

/// Returns the record whose line is at the front, and what follows its newline, if it is an edge or a silence. The bytes are at least those
/// of the longest such line. `None` says nothing of the line.
#[inline(always)]
pub fn quick_line(limits: Limits, bytes: &[u8]) -> Option<(Record, &[u8])>
    ensures { IfSome result (λ t. TakesLine limits bytes.now t.0 t.1.now) }
{
    if bytes.len() < QUICK_ROOM || bytes[1] != b' ' {
        return None;
    }
    let (node, at) = field_at(bytes, 1, NODE_DIGITS, b' ')?;
    let (place, at) = field_at(bytes, at, PLACE_DIGITS, b' ')?;
    let (tick, at) = field_at(bytes, at, TICK_DIGITS, b'\n')?;
    let told = told_by(limits, bytes[0], node, place, tick)?;
    Some((told, &bytes[at + 1..]))
}
