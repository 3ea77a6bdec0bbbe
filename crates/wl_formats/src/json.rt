//! Records as objects of JSON.
ghost use Rattle.std.specs.Prelude.{◌≡◌, ◌++◌, OnOk, map};
ghost use Rattle.wl_formats.specs.declared.shape.Class.TheVariants as Class;
ghost use Rattle.wl_formats.specs.Shapes.{part_of, form_of};
ghost use Rattle.wl_formats.specs.Json.{json_value, field_text, member, members, json_record};

use crate::matching::width;
use crate::shape::{Class, Piece, Shape};
use std::alloc::AllocError;
use wl_lines::{is_dash, push_quoted};

/// Adds hexadecimal digits as a string, with `0x` in front.
fn push_hexadecimal(text: &mut Vec<u8>, value: &[u8]) -> Result<(), AllocError>
    ensures { OnOk result (text.new.items ≡ text.old.items ++ json_value Class.Hexadecimal value.now) }
{
    if is_dash(value) {
        return text.extend_from_slice("\"0x\"".as_bytes());
    }
    text.extend_from_slice("\"0x".as_bytes())?;
    text.extend_from_slice(value)?;
    text.extend_from_slice("\"".as_bytes())
}

/// Adds a number, or null for a dash.
fn push_measure(text: &mut Vec<u8>, value: &[u8]) -> Result<(), AllocError>
    ensures { OnOk result (text.new.items ≡ text.old.items ++ json_value Class.Measure value.now) }
{
    if is_dash(value) {
        text.extend_from_slice("null".as_bytes())
    } else {
        text.extend_from_slice(value)
    }
}

/// Adds the value of a field.
fn push_value(text: &mut Vec<u8>, class: Class, value: &[u8]) -> Result<(), AllocError>
    ensures { OnOk result (text.new.items ≡ text.old.items ++ json_value class value.now) }
{
    match class {
        Class::Number => text.extend_from_slice(value),
        Class::Measure => push_measure(text, value),
        Class::Hexadecimal => push_hexadecimal(text, value),
        Class::Word | Class::Phrase | Class::Series | Class::Rest => push_quoted(text, value),
    }
}

/// Adds the field of a name and a value.
fn push_field(text: &mut Vec<u8>, name: &str, class: Class, value: &[u8]) -> Result<(), AllocError>
    ensures { OnOk result (text.new.items ≡ text.old.items ++ field_text name.now class value.now) }
{
    text.extend_from_slice(",".as_bytes())?;
    push_quoted(text, name.as_bytes())?;
    text.extend_from_slice(":".as_bytes())?;
    push_value(text, class, value)
}

/// Adds what a piece gives.
fn push_member(text: &mut Vec<u8>, piece: &Piece, value: &[u8]) -> Result<(), AllocError>
    ensures { OnOk result (text.new.items ≡ text.old.items ++ member (part_of piece.now) value.now) }
{
    match *piece {
        Piece::Fixed(_) | Piece::Passed(_) => Ok(()),
        Piece::Field(name, class) => push_field(text, name, class, value),
        Piece::Given(name, class, said) => push_field(text, name, class, said.as_bytes()),
    }
}

/// Adds the fields of a line.
fn push_members(text: &mut Vec<u8>, pieces: &[Piece], line: &[u8]) -> Result<(), AllocError>
    ensures { OnOk result (text.new.items ≡ text.old.items ++ members (map part_of pieces.now) line.now) }
{
    let mut rest = line;
    for piece in pieces {
        let (value, later) = rest.split_at(width(piece, rest));
        push_member(text, piece, value)?;
        rest = later;
    }
    Ok(())
}

/// Adds the object of a line of this shape.
pub(crate) fn push_record(text: &mut Vec<u8>, shape: &Shape, line: &[u8]) -> Result<(), AllocError>
    ensures { OnOk result (text.new.items ≡ text.old.items ++ json_record (form_of shape.now) line.now) }
{
    text.extend_from_slice("{\"kind\":".as_bytes())?;
    push_quoted(text, shape.kind.as_bytes())?;
    push_members(text, shape.pieces, line)?;
    text.extend_from_slice("}".as_bytes())
}
