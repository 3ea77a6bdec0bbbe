//! Records as lines of a table.
ghost use Rattle.std.specs.Prelude.{◌≡◌, ◌++◌, OnOk, map, string_bytes};
ghost use Rattle.std.specs.List.{flat_map, list_any};
ghost use Rattle.wl_lines.specs.Shapes.{part_of};
ghost use Rattle.wl_lines.specs.Csv.{is_special, doubled, csv_text, csv_value, is_named, part_value, cell, cells, csv_row, names, csv_header};
ghost use Rattle.wl_lines.specs.declared.shape.Class.TheVariants as Class;

use crate::line::{TextLine, value_in};
use crate::number::is_dash;
use crate::shape::{Class, Piece};
use std::alloc::AllocError;

/// True if a text with this byte is quoted.
fn is_special(byte: u8) -> bool
    ensures { result ≡ is_special byte }
{
    byte == b'"' || byte == b',' || byte == b'\r' || byte == b'\n'
}

/// True if a text is quoted.
fn has_special(text: &[u8]) -> bool
    ensures { result ≡ list_any is_special text.now }
{
    text.iter().any(|byte| is_special(*byte))
}

/// Adds a byte of a quoted text.
fn push_byte(text: &mut Vec<u8>, byte: u8) -> Result<(), AllocError>
    ensures { OnOk result (text.new.items ≡ text.old.items ++ doubled byte) }
{
    match byte {
        b'"' => text.extend_from_slice("\"\"".as_bytes()),
        _ => text.extend_from_slice(&[byte]),
    }
}

/// Adds the bytes of a quoted text.
fn push_doubled(text: &mut Vec<u8>, bytes: &[u8]) -> Result<(), AllocError>
    ensures { OnOk result (text.new.items ≡ text.old.items ++ flat_map doubled bytes.now) }
{
    for byte in bytes {
        push_byte(text, *byte)?;
    }
    Ok(())
}

/// Adds a text as a cell of CSV has it.
pub fn push_csv_text(text: &mut Vec<u8>, bytes: &[u8]) -> Result<(), AllocError>
    ensures { OnOk result (text.new.items ≡ text.old.items ++ csv_text bytes.now) }
{
    if !has_special(bytes) {
        return text.extend_from_slice(bytes);
    }
    text.extend_from_slice("\"".as_bytes())?;
    push_doubled(text, bytes)?;
    text.extend_from_slice("\"".as_bytes())
}

/// Adds hexadecimal digits, with `0x` in front.
fn push_hexadecimal(text: &mut Vec<u8>, value: &[u8]) -> Result<(), AllocError>
    ensures { OnOk result (text.new.items ≡ text.old.items ++ csv_value Class.Hexadecimal value.now) }
{
    text.extend_from_slice("0x".as_bytes())?;
    if is_dash(value) {
        Ok(())
    } else {
        text.extend_from_slice(value)
    }
}

/// Adds a number, or nothing for a dash.
fn push_measure(text: &mut Vec<u8>, value: &[u8]) -> Result<(), AllocError>
    ensures { OnOk result (text.new.items ≡ text.old.items ++ csv_value Class.Measure value.now) }
{
    if is_dash(value) {
        Ok(())
    } else {
        text.extend_from_slice(value)
    }
}

/// Adds the value of a field.
fn push_value(text: &mut Vec<u8>, class: Class, value: &[u8]) -> Result<(), AllocError>
    ensures { OnOk result (text.new.items ≡ text.old.items ++ csv_value class value.now) }
{
    match class {
        Class::Number => text.extend_from_slice(value),
        Class::Measure => push_measure(text, value),
        Class::Hexadecimal => push_hexadecimal(text, value),
        Class::Word | Class::Phrase | Class::Series | Class::Rest => push_csv_text(text, value),
        Class::Nothing => Ok(()),
    }
}

/// True if a piece is the field of this name.
fn is_named(piece: &Piece, column: &str) -> bool
    ensures { result ≡ is_named column.now (part_of piece.now) }
{
    match *piece {
        Piece::Fixed(_) | Piece::Passed(_) => false,
        Piece::Field(name, _) | Piece::Given(name, _, _) => name == column,
    }
}

/// Adds what a piece gives.
fn push_part(text: &mut Vec<u8>, piece: &Piece, value: &[u8]) -> Result<(), AllocError>
    ensures { OnOk result (text.new.items ≡ text.old.items ++ part_value (part_of piece.now) value.now) }
{
    match *piece {
        Piece::Fixed(_) | Piece::Passed(_) => Ok(()),
        Piece::Field(_, class) => push_value(text, class, value),
        Piece::Given(_, class, said) => push_value(text, class, said.as_bytes()),
    }
}

/// Adds the cell of a column: the value of its field, or nothing if the line has none.
fn push_cell(
    text: &mut Vec<u8>,
    column: &str,
    pieces: &[Piece],
    values: &[String],
) -> Result<(), AllocError>
    ensures { OnOk result (text.new.items ≡ text.old.items
        ++ cell column.now (map part_of pieces.now) (map string_bytes values.now)) }
{
    let mut rest = values;
    for piece in pieces {
        let (value, later) = value_in(piece, rest);
        if is_named(piece, column) {
            return push_part(text, piece, value.as_bytes());
        }
        rest = later;
    }
    Ok(())
}

/// Adds the cells of all columns, each after a comma.
fn push_cells(
    text: &mut Vec<u8>,
    columns: &[&str],
    pieces: &[Piece],
    values: &[String],
) -> Result<(), AllocError>
    ensures { OnOk result (text.new.items ≡ text.old.items
        ++ cells (map part_of pieces.now) (map string_bytes values.now) (map (λ c. c.now) columns.now)) }
{
    for column in columns {
        text.extend_from_slice(",".as_bytes())?;
        push_cell(text, column, pieces, values)?;
    }
    Ok(())
}

/// Adds the row of a line.
pub(crate) fn push_row(
    text: &mut Vec<u8>,
    columns: &[&str],
    line: &TextLine,
) -> Result<(), AllocError>
    ensures { OnOk result (text.new.items ≡ text.old.items
        ++ csv_row (map (λ c. c.now) columns.now) line.now) }
{
    text.extend_from_slice(line.kind().as_bytes())?;
    push_cells(text, columns, line.pieces(), line.values())?;
    text.extend_from_slice("\r\n".as_bytes())
}

/// Adds the names of columns, each after a comma.
fn push_names(text: &mut Vec<u8>, columns: &[&str]) -> Result<(), AllocError>
    ensures { OnOk result (text.new.items ≡ text.old.items ++ names (map (λ c. c.now) columns.now)) }
{
    for column in columns {
        text.extend_from_slice(",".as_bytes())?;
        text.extend_from_slice(column.as_bytes())?;
    }
    Ok(())
}

/// Adds the header.
pub(crate) fn push_header(text: &mut Vec<u8>, columns: &[&str]) -> Result<(), AllocError>
    ensures { OnOk result (text.new.items ≡ text.old.items ++ csv_header (map (λ c. c.now) columns.now)) }
{
    text.extend_from_slice("kind".as_bytes())?;
    push_names(text, columns)?;
    text.extend_from_slice("\r\n".as_bytes())
}
