//! Which rows of a table are the worst.
ghost use Rattle.std.specs.Prelude.{◌≡◌, ◌≤◌, map, string_bytes, IfSome};
ghost use Rattle.wl_lines.specs.Shapes.{part_of};
ghost use Rattle.wl_lines.specs.Ranks.{digits_after, magnitude, number_place, lesser_badness, turned, badness, is_field, line_value, value_of, row_badness, worst_among, same_badness, are_alike, marked_badness};

use crate::line::{TextLine, value_in};
use crate::number::is_number;
use crate::shape::Piece;

/// Which number of a column is the worst.
#[derive(Clone, Copy)]
pub enum Worst {
    /// None is.
    NoRow,
    Least,
    Greatest,
}

/// The greatest magnitude that is told from others.
const MOST: u64 = 1_000_000_000_000_000;

/// Returns a number with one more digit, or the number itself if the byte is none.
fn digits_after(n: u64, byte: u8) -> u64
    requires { n ≤ 1000000000000000 }
    ensures value { result ≡ digits_after n byte }
    ensures bound { result ≤ 1000000000000000 }
{
    if byte.is_ascii_digit() {
        (n * 10 + u64::from(byte - b'0')).min(MOST)
    } else {
        n
    }
}

/// Returns the digits of a number as a whole number.
fn magnitude(value: &[u8]) -> u64
    ensures value { result ≡ magnitude value.now }
    ensures bound { result ≤ 1000000000000000 }
{
    let mut n = 0;
    for byte in value {
        n = digits_after(n, *byte);
    }
    n
}

/// Returns the place of a number among others.
fn number_place(value: &[u8]) -> Option<u64>
    ensures value { result ≡ number_place value.now }
    ensures bound { IfSome result (λ n. n ≤ 2000000000000000) }
{
    if !is_number(value) {
        None
    } else if value.starts_with(b"-") {
        Some(MOST - magnitude(value))
    } else {
        Some(MOST + magnitude(value))
    }
}

/// Returns the lesser of two, if there are two.
fn lesser_badness(a: Option<u64>, b: Option<u64>) -> Option<u64>
    ensures { result ≡ lesser_badness a b }
{
    match (a, b) {
        (None, other) => other,
        (Some(a), None) => Some(a),
        (Some(a), Some(b)) => Some(a.min(b)),
    }
}

/// Returns how bad a number is: the less, the worse.
fn badness(worst: Worst, value: &[u8]) -> Option<u64>
    ensures { result ≡ badness worst value.now }
{
    match worst {
        Worst::NoRow => None,
        Worst::Least => number_place(value),
        Worst::Greatest => match number_place(value) {
            Some(n) => Some(2 * MOST - n),
            None => None,
        },
    }
}

/// True if a piece is the field of this name.
fn is_field(piece: &Piece, name: &str) -> bool
    ensures { result ≡ is_field name.now (part_of piece.now) }
{
    match *piece {
        Piece::Fixed(_) | Piece::Passed(_) | Piece::Given(_, _, _) => false,
        Piece::Field(other, _) => other == name,
    }
}

/// Returns the value of the field of this name, or nothing if there is none.
fn value_of<'a>(name: &str, pieces: &[Piece], values: &'a [String]) -> &'a str
    ensures { result.now ≡ value_of name.now (map part_of pieces.now) (map string_bytes values.now) }
{
    let mut rest = values;
    for piece in pieces {
        let (value, later) = value_in(piece, rest);
        if is_field(piece, name) {
            return value;
        }
        rest = later;
    }
    ""
}

/// Returns the value of a line's field of this name, or nothing if it has none.
pub(crate) fn line_value<'a>(name: &str, line: &'a TextLine) -> &'a str
    ensures { result.now ≡ line_value name.now line.now }
{
    value_of(name, line.pieces(), line.values())
}

/// Returns how bad a row is: by the worst of its fields.
pub(crate) fn row_badness(worst: Worst, names: &[&str], line: &TextLine) -> Option<u64>
    ensures { result ≡ row_badness worst (map (λ n. n.now) names.now) line.now }
{
    let mut found = None;
    for name in names {
        found = lesser_badness(found, badness(worst, line_value(name, line).as_bytes()));
    }
    found
}

/// Returns how bad the worst of some rows is.
fn worst_among(worst: Worst, names: &[&str], rows: &[&TextLine]) -> Option<u64>
    ensures { result ≡ worst_among worst (map (λ n. n.now) names.now) (map (λ r. r.now) rows.now) }
{
    let mut found = None;
    for row in rows {
        found = lesser_badness(found, row_badness(worst, names, row));
    }
    found
}

/// True if two rows are equally bad.
pub(crate) fn same_badness(a: Option<u64>, b: Option<u64>) -> bool
    ensures { result ≡ same_badness a b }
{
    match (a, b) {
        (Some(a), Some(b)) => a == b,
        _ => false,
    }
}

/// True if all rows are as bad as that.
fn are_alike(worst: Worst, names: &[&str], bad: Option<u64>, rows: &[&TextLine]) -> bool
    ensures { result ≡ are_alike worst (map (λ n. n.now) names.now) bad (map (λ r. r.now) rows.now) }
{
    for row in rows {
        if !same_badness(row_badness(worst, names, row), bad) {
            return false;
        }
    }
    true
}

/// Returns how bad the rows are that are marked.
pub(crate) fn marked_badness(worst: Worst, names: &[&str], rows: &[&TextLine]) -> Option<u64>
    ensures { result ≡ marked_badness worst (map (λ n. n.now) names.now) (map (λ r. r.now) rows.now) }
{
    let bad = worst_among(worst, names, rows);
    if are_alike(worst, names, bad, rows) {
        None
    } else {
        bad
    }
}
