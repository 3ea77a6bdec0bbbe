//! Lines as tables with aligned columns, for people.
ghost use Rattle.std.specs.Prelude.{◌≡◌, ◌++◌, ◌∷◌, [], true, false, None, OnOk, IfOk, map, length, option_map};
ghost use Rattle.std.specs.List.{flat_map};
ghost use Rattle.wl_formats.specs.Shapes.{part_of, form_of, layout_of};
ghost use Rattle.wl_formats.specs.Aligned.{shown_head, heads, widest, spaces, is_numeric, cell, head_cell, value_cell, bold, red, neither, title_line, shown_row, row_lines, table, block_of, goes_on, blocks, aligned};
ghost use Rattle.wl_formats.specs.Ranks.{marked_badness};

use crate::matching::{fits, shape_of};
use crate::rank::{
    Worst, judged_fields, marked_badness, row_badness, same_badness, value_of, worst_of,
};
use crate::shape::{Class, Piece, Shape, Table};
use crate::tables::Subject;
use std::alloc::{AllocError, Global};

/// Whether a table has the colours of a terminal.
#[derive(Clone, Copy, Debug, PartialEq, Eq)]
pub(crate) enum Paint {
    Plain,
    Coloured,
}

/// A column of a table.
#[derive(Clone, Copy)]
pub(crate) struct Column {
    name: &'static str,
    class: Class,
    width: usize,
}

/// What a command's rows are painted and judged by.
#[derive(Clone, Copy)]
pub(crate) struct Look {
    paint: Paint,
    worst: Worst,
    names: &'static [&'static str],
}

/// Returns how wide a column is: as wide as its name and each value.
fn widest(name: &str, pieces: &[Piece], rows: &[&[u8]]) -> usize
    ensures { result ≡ widest name.now (map part_of pieces.now) (length name.now) (map (λ r. r.now) rows.now) }
{
    let mut width = name.len();
    for row in rows {
        width = width.max(value_of(name, pieces, row).len());
    }
    width
}

/// Returns the columns of rows: the fields of their shape, in order.
fn columns_of(
    alloc: Global,
    pieces: &'static [Piece],
    rows: &[&[u8]],
) -> Result<Vec<Column>, AllocError>
    ensures { IfOk result (λ columns. map shown_head columns.items
        ≡ heads (map part_of pieces.now) (map part_of pieces.now) (map (λ r. r.now) rows.now)) }
{
    let mut columns = Vec::new(alloc);
    for piece in pieces {
        if let Piece::Field(name, class) = *piece {
            columns.push(Column {
                name,
                class,
                width: widest(name, pieces, rows),
            })?;
        }
    }
    Ok(columns)
}

/// Adds spaces.
fn push_spaces(text: &mut Vec<u8>, n: usize) -> Result<(), AllocError>
    ensures { OnOk result (text.new.items ≡ text.old.items ++ spaces n) }
{
    for _ in 0..n {
        text.extend_from_slice(" ".as_bytes())?;
    }
    Ok(())
}

/// True if values of a class end where their column ends.
fn is_numeric(class: Class) -> bool
    ensures { result ≡ is_numeric class }
{
    match class {
        Class::Number | Class::Measure | Class::Hexadecimal => true,
        Class::Word | Class::Phrase | Class::Series | Class::Rest => false,
    }
}

/// Adds a cell, two spaces after the one before.
fn push_cell(text: &mut Vec<u8>, column: &Column, value: &[u8]) -> Result<(), AllocError>
    ensures { OnOk result (text.new.items ≡ text.old.items ++ cell (shown_head column.now) value.now) }
{
    let gap = column.width.saturating_sub(value.len());
    text.extend_from_slice("  ".as_bytes())?;
    if is_numeric(column.class) {
        push_spaces(text, gap)?;
        text.extend_from_slice(value)
    } else {
        text.extend_from_slice(value)?;
        push_spaces(text, gap)
    }
}

/// Adds the names of columns.
fn push_names(text: &mut Vec<u8>, columns: &[Column]) -> Result<(), AllocError>
    ensures { OnOk result (text.new.items ≡ text.old.items ++ flat_map head_cell (map shown_head columns.now)) }
{
    for column in columns {
        push_cell(text, column, column.name.as_bytes())?;
    }
    Ok(())
}

/// Adds the values of a row.
fn push_values(
    text: &mut Vec<u8>,
    columns: &[Column],
    pieces: &[Piece],
    line: &[u8],
) -> Result<(), AllocError>
    ensures { OnOk result (text.new.items ≡ text.old.items
        ++ flat_map (value_cell (map part_of pieces.now) line.now) (map shown_head columns.now)) }
{
    for column in columns {
        push_cell(text, column, value_of(column.name, pieces, line))?;
    }
    Ok(())
}

/// Adds what begins bold characters.
fn push_bold(text: &mut Vec<u8>, paint: Paint) -> Result<(), AllocError>
    ensures { OnOk result (text.new.items ≡ text.old.items ++ bold paint) }
{
    match paint {
        Paint::Plain => Ok(()),
        Paint::Coloured => text.extend_from_slice(&[27, b'[', b'1', b'm']),
    }
}

/// Adds what begins bold red characters.
fn push_red(text: &mut Vec<u8>, paint: Paint) -> Result<(), AllocError>
    ensures { OnOk result (text.new.items ≡ text.old.items ++ red paint) }
{
    match paint {
        Paint::Plain => Ok(()),
        Paint::Coloured => { text.extend_from_slice(&[27, b'[', b'1', b';', b'3', b'1', b'm']) }
    }
}

/// Adds what ends them.
fn push_neither(text: &mut Vec<u8>, paint: Paint) -> Result<(), AllocError>
    ensures { OnOk result (text.new.items ≡ text.old.items ++ neither paint) }
{
    match paint {
        Paint::Plain => Ok(()),
        Paint::Coloured => text.extend_from_slice(&[27, b'[', b'0', b'm']),
    }
}

/// Adds the first line of a table.
fn push_head(text: &mut Vec<u8>, paint: Paint, columns: &[Column]) -> Result<(), AllocError>
    ensures { OnOk result (text.new.items ≡ text.old.items ++ title_line paint (map shown_head columns.now)) }
{
    push_bold(text, paint)?;
    text.extend_from_slice(" ".as_bytes())?;
    push_names(text, columns)?;
    push_neither(text, paint)?;
    text.extend_from_slice("\n".as_bytes())
}

/// Adds a row that isn't marked.
fn push_plain_row(
    text: &mut Vec<u8>,
    paint: Paint,
    columns: &[Column],
    pieces: &[Piece],
    line: &[u8],
) -> Result<(), AllocError>
    ensures { OnOk result (text.new.items ≡ text.old.items
        ++ shown_row paint false (map part_of pieces.now) (map shown_head columns.now) line.now) }
{
    text.extend_from_slice(" ".as_bytes())?;
    push_values(text, columns, pieces, line)?;
    text.extend_from_slice("\n".as_bytes())
}

/// Adds a row that is marked.
fn push_marked_row(
    text: &mut Vec<u8>,
    paint: Paint,
    columns: &[Column],
    pieces: &[Piece],
    line: &[u8],
) -> Result<(), AllocError>
    ensures { OnOk result (text.new.items ≡ text.old.items
        ++ shown_row paint true (map part_of pieces.now) (map shown_head columns.now) line.now) }
{
    push_red(text, paint)?;
    text.extend_from_slice("*".as_bytes())?;
    push_values(text, columns, pieces, line)?;
    push_neither(text, paint)?;
    text.extend_from_slice("\n".as_bytes())
}

/// Adds the rows of a table.
fn push_rows(
    text: &mut Vec<u8>,
    look: Look,
    columns: &[Column],
    pieces: &[Piece],
    rows: &[&[u8]],
) -> Result<(), AllocError>
    ensures { OnOk result (text.new.items ≡ text.old.items
        ++ row_lines look.paint look.worst (map (λ n. n.now) look.names.now) (map part_of pieces.now)
        (map shown_head columns.now)
        (marked_badness look.worst (map (λ n. n.now) look.names.now) (map part_of pieces.now)
        (map (λ r. r.now) rows.now))
        (map (λ r. r.now) rows.now)) }
{
    let marked = marked_badness(look.worst, look.names, pieces, rows);
    for row in rows {
        if same_badness(row_badness(look.worst, look.names, pieces, row), marked) {
            push_marked_row(text, look.paint, columns, pieces, row)?;
        } else {
            push_plain_row(text, look.paint, columns, pieces, row)?;
        }
    }
    Ok(())
}

/// Adds some rows, below the names of their fields.
fn push_table(
    alloc: Global,
    text: &mut Vec<u8>,
    look: Look,
    pieces: &'static [Piece],
    rows: &[&[u8]],
) -> Result<(), AllocError>
    ensures { OnOk result (text.new.items ≡ text.old.items
        ++ table look.paint look.worst (map (λ n. n.now) look.names.now) (map part_of pieces.now)
        (map (λ r. r.now) rows.now)) }
{
    let columns = columns_of(alloc, pieces, rows)?;
    push_head(text, look.paint, &columns)?;
    push_rows(text, look, &columns, pieces, rows)
}

/// Adds lines of one form: a table, or the line if there is one.
fn push_block(
    alloc: Global,
    text: &mut Vec<u8>,
    look: Look,
    shape: Option<&'static Shape>,
    rows: &[&[u8]],
) -> Result<(), AllocError>
    ensures { OnOk result (text.new.items ≡ text.old.items
        ++ block_of look.paint look.worst (map (λ n. n.now) look.names.now)
        (option_map (λ s. form_of s.now) shape.entry)
        (map (λ r. r.now) rows.now)) }
{
    let Some(shape) = shape else {
        return Ok(());
    };
    match rows {
        [] => Ok(()),
        [line] => {
            text.extend_from_slice(line)?;
            text.extend_from_slice("\n".as_bytes())
        }
        _ => push_table(alloc, text, look, shape.pieces, rows),
    }
}

/// True if a line is one more of this form.
fn goes_on(shape: Option<&Shape>, line: &[u8]) -> bool
    ensures { result ≡ goes_on (option_map (λ s. form_of s.now) shape.entry) line.now }
{
    match shape {
        Some(shape) => fits(shape.pieces, line),
        None => false,
    }
}

/// Adds a line to rows.
fn add_row<'a>(rows: &mut Vec<&'a [u8]>, line: &'a [u8]) -> Result<(), AllocError>
    ensures { OnOk result (map (λ r. r.now) rows.new.items ≡ map (λ r. r.now) rows.old.items ++ line.now ∷ []) }
{
    rows.push(line)?;
    Ok(())
}

/// Adds all lines.
fn push_blocks(
    alloc: Global,
    text: &mut Vec<u8>,
    look: Look,
    table: &Table,
    lines: &[&[u8]],
) -> Result<(), AllocError>
    ensures { OnOk result (text.new.items ≡ text.old.items
        ++ blocks look.paint look.worst (map (λ n. n.now) look.names.now) (layout_of table.now).forms None []
        (map (λ r. r.now) lines.now)) }
{
    let mut shape = None;
    let mut rows = Vec::new(alloc);
    for line in lines {
        if !goes_on(shape, line) {
            push_block(alloc, text, look, shape, &rows)?;
            shape = shape_of(table, line);
            rows = Vec::new(alloc);
        }
        add_row(&mut rows, line)?;
    }
    push_block(alloc, text, look, shape, &rows)
}

/// Returns the lines of a command's output as tables.
pub(crate) fn aligned(
    alloc: Global,
    paint: Paint,
    subject: Subject,
    table: &Table,
    lines: &[&[u8]],
) -> Result<Vec<u8>, AllocError>
    ensures { IfOk result (λ text. text.items
        ≡ aligned paint subject (layout_of table.now).forms (map (λ r. r.now) lines.now)) }
{
    let look = Look {
        paint,
        worst: worst_of(subject),
        names: judged_fields(subject),
    };
    let mut text = Vec::new(alloc);
    push_blocks(alloc, &mut text, look, table, lines)?;
    Ok(text)
}
