//! Records as objects of JSON.
ghost use Rattle.std.specs.Prelude.{◌≡◌, ◌++◌, ◌<◌, OnOk, map, string_bytes};
ghost use Rattle.wl_lines.specs.declared.shape.Class.TheVariants as Class;
ghost use Rattle.wl_lines.specs.Shapes.{part_of};
ghost use Rattle.wl_lines.specs.Json.{hexadecimal_digit, escaped_byte, escaped, quoted, json_value, field_text, member, members, json_record};

use crate::line::{TextLine, value_in};
use crate::number::is_dash;
use crate::shape::{Class, Piece};
use std::alloc::AllocError;

/// Returns a hexadecimal digit.
fn hexadecimal_digit(value: u8) -> u8
    requires { value < 16 }
    ensures { result ≡ hexadecimal_digit value }
{
    if value < 10 {
        b'0' + value
    } else {
        b'W' + value
    }
}

/// Adds a byte as a string of JSON has it.
fn push_byte(text: &mut Vec<u8>, byte: u8) -> Result<(), AllocError>
    ensures { OnOk result (text.new.items ≡ text.old.items ++ escaped_byte byte) }
{
    match byte {
        b'"' => text.extend_from_slice("\\\"".as_bytes()),
        b'\\' => text.extend_from_slice("\\\\".as_bytes()),
        0..=31 => text.extend_from_slice(&[
            b'\\',
            b'u',
            b'0',
            b'0',
            b'0' + byte / 16,
            hexadecimal_digit(byte % 16),
        ]),
        _ => text.extend_from_slice(&[byte]),
    }
}

/// Adds bytes as a string of JSON has them.
fn push_escaped(text: &mut Vec<u8>, bytes: &[u8]) -> Result<(), AllocError>
    ensures { OnOk result (text.new.items ≡ text.old.items ++ escaped bytes.now) }
{
    for byte in bytes {
        push_byte(text, *byte)?;
    }
    Ok(())
}

/// Adds a string of JSON.
pub fn push_quoted(text: &mut Vec<u8>, bytes: &[u8]) -> Result<(), AllocError>
    ensures { OnOk result (text.new.items ≡ text.old.items ++ quoted bytes.now) }
{
    text.extend_from_slice("\"".as_bytes())?;
    push_escaped(text, bytes)?;
    text.extend_from_slice("\"".as_bytes())
}

/// Adds hexadecimal digits as a string, with `0x` in front.
fn push_hexadecimal(text: &mut Vec<u8>, value: &[u8]) -> Result<(), AllocError>
    ensures { OnOk result (text.new.items ≡ text.old.items ++ json_value Class.Hexadecimal value.now) }
{
    if is_dash(value) {
        return text.extend_from_slice("\"0x\"".as_bytes());
    }
    text.extend_from_slice("\"0x".as_bytes())?;
    text.extend_from_slice(value)?;
    text.extend_from_slice("\"".as_bytes())
}

/// Adds a number, or null for a dash.
fn push_measure(text: &mut Vec<u8>, value: &[u8]) -> Result<(), AllocError>
    ensures { OnOk result (text.new.items ≡ text.old.items ++ json_value Class.Measure value.now) }
{
    if is_dash(value) {
        text.extend_from_slice("null".as_bytes())
    } else {
        text.extend_from_slice(value)
    }
}

/// Adds the value of a field.
fn push_value(text: &mut Vec<u8>, class: Class, value: &[u8]) -> Result<(), AllocError>
    ensures { OnOk result (text.new.items ≡ text.old.items ++ json_value class value.now) }
{
    match class {
        Class::Number => text.extend_from_slice(value),
        Class::Measure => push_measure(text, value),
        Class::Hexadecimal => push_hexadecimal(text, value),
        Class::Word | Class::Phrase | Class::Series | Class::Rest => push_quoted(text, value),
        Class::Nothing => text.extend_from_slice("null".as_bytes()),
    }
}

/// Adds the field of a name and a value.
fn push_field(text: &mut Vec<u8>, name: &str, class: Class, value: &[u8]) -> Result<(), AllocError>
    ensures { OnOk result (text.new.items ≡ text.old.items ++ field_text name.now class value.now) }
{
    text.extend_from_slice(",".as_bytes())?;
    push_quoted(text, name.as_bytes())?;
    text.extend_from_slice(":".as_bytes())?;
    push_value(text, class, value)
}

/// Adds what a piece gives.
fn push_member(text: &mut Vec<u8>, piece: &Piece, value: &[u8]) -> Result<(), AllocError>
    ensures { OnOk result (text.new.items ≡ text.old.items ++ member (part_of piece.now) value.now) }
{
    match *piece {
        Piece::Fixed(_) | Piece::Passed(_) => Ok(()),
        Piece::Field(name, class) => push_field(text, name, class, value),
        Piece::Given(name, class, said) => push_field(text, name, class, said.as_bytes()),
    }
}

/// Adds the fields of a line.
fn push_members(text: &mut Vec<u8>, pieces: &[Piece], values: &[String]) -> Result<(), AllocError>
    ensures { OnOk result (text.new.items ≡ text.old.items
        ++ members (map part_of pieces.now) (map string_bytes values.now)) }
{
    let mut rest = values;
    for piece in pieces {
        let (value, later) = value_in(piece, rest);
        push_member(text, piece, value.as_bytes())?;
        rest = later;
    }
    Ok(())
}

/// Adds the object of a line.
pub(crate) fn push_record(text: &mut Vec<u8>, line: &TextLine) -> Result<(), AllocError>
    ensures { OnOk result (text.new.items ≡ text.old.items ++ json_record line.now) }
{
    text.extend_from_slice("{\"kind\":".as_bytes())?;
    push_quoted(text, line.kind().as_bytes())?;
    push_members(text, line.pieces(), line.values())?;
    text.extend_from_slice("}".as_bytes())
}
