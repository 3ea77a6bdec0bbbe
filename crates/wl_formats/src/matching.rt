//! Which lines a shape fits.
ghost use Rattle.std.specs.Prelude.{◌≡◌, ◌≤◌, ◌<◌, IfSome, map, length, option_map};
ghost use Rattle.wl_formats.specs.Shapes.{part_of, form_of, layout_of};
ghost use Rattle.wl_formats.specs.Matching.{takes, stop_in, width, is_value, holds, fits, form_for};

use crate::shape::{Class, Piece, Shape, Table};
use wl_lines::{is_dash, is_number};

/// True if a value of this class may have this byte.
fn takes(class: Class, byte: u8) -> bool
    ensures { result ≡ takes class byte }
{
    match class {
        Class::Number | Class::Measure => { byte.is_ascii_digit() || byte == b'-' || byte == b'.' }
        Class::Word => {
            byte.is_ascii_alphanumeric() || byte == b'-' || byte == b'.' || byte == b'_'
        }
        Class::Hexadecimal => byte.is_ascii_hexdigit() || byte == b'-',
        Class::Phrase => byte != b',' && byte != b':',
        Class::Series => byte != b':',
        Class::Rest => true,
    }
}

/// True if this is a value of the class.
fn is_value(class: Class, value: &[u8]) -> bool
    ensures { result ≡ is_value class value.now }
{
    match class {
        Class::Number => is_number(value),
        Class::Measure => is_dash(value) || is_number(value),
        Class::Word | Class::Hexadecimal | Class::Phrase | Class::Series | Class::Rest => {
            !value.is_empty()
        }
    }
}

/// Returns where the first byte is that a value of this class may not have.
fn stop_in(class: Class, line: &[u8]) -> Option<usize>
    ensures place { result ≡ stop_in class line.now }
    ensures within { IfSome result (λ at. at < length line.now) }
{
    line.iter().position(|byte| !takes(class, *byte))
}

/// Returns how many bytes of a line a piece takes.
pub(crate) fn width(piece: &Piece, line: &[u8]) -> usize
    ensures value { result ≡ width (part_of piece.now) line.now }
    ensures bound { result ≤ length line.now }
{
    match *piece {
        Piece::Fixed(text) => text.len().min(line.len()),
        Piece::Field(_, class) | Piece::Passed(class) => match stop_in(class, line) {
            Some(at) => at,
            None => line.len(),
        },
        Piece::Given(_, _, _) => 0,
    }
}

/// True if a line begins with this piece.
fn holds(piece: &Piece, line: &[u8]) -> bool
    ensures { result ≡ holds (part_of piece.now) line.now }
{
    match *piece {
        Piece::Fixed(text) => line.starts_with(text.as_bytes()),
        Piece::Field(_, class) | Piece::Passed(class) => {
            is_value(class, &line[..width(piece, line)])
        }
        Piece::Given(_, _, _) => true,
    }
}

/// True if a line consists of these pieces.
pub(crate) fn fits(pieces: &[Piece], line: &[u8]) -> bool
    ensures { result ≡ fits (map part_of pieces.now) line.now }
{
    let mut rest = line;
    for piece in pieces {
        if !holds(piece, rest) {
            return false;
        }
        rest = &rest[width(piece, rest)..];
    }
    rest.is_empty()
}

/// Returns the first shape that a line fits.
pub(crate) fn shape_for<'a>(shapes: &'a [Shape], line: &[u8]) -> Option<&'a Shape>
    ensures { option_map (λ s. form_of s.now) result ≡ form_for (map form_of shapes.now) line.now }
{
    for shape in shapes {
        if fits(shape.pieces, line) {
            return Some(shape);
        }
    }
    None
}

/// Returns the first shape of a table that a line fits.
pub(crate) fn shape_of(table: &Table, line: &[u8]) -> Option<&'static Shape>
    ensures { option_map (λ s. form_of s.now) result ≡ form_for (layout_of table.now).forms line.now }
{
    match shape_for(table.shapes, line) {
        Some(shape) => Some(shape),
        None => shape_for(table.more, line),
    }
}
