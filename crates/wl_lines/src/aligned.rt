//! Lines as tables with aligned columns, for people.
ghost use Rattle.std.specs.Prelude.{◌≡◌, ◌++◌, ◌∷◌, [], true, false, OnOk, IfOk, map, length};
ghost use Rattle.std.specs.List.{flat_map};
ghost use Rattle.wl_lines.specs.Shapes.{part_of, sheet_of};
ghost use Rattle.wl_lines.specs.Aligned.{shown_head, heads, widest, spaces, is_numeric, cell, head_cell, value_cell, bold, red, neither, title_line, shown_row, row_lines, rows_table, same_part, same_parts, block, goes_on, blocks, aligned};
ghost use Rattle.wl_lines.specs.Ranks.{marked_badness};

use crate::line::TextLine;
use crate::rank::{line_value, marked_badness, row_badness, same_badness};
use crate::shape::{Class, Outline, Piece};
use std::alloc::{AllocError, Global};

/// Whether a table has the colours of a terminal.
#[derive(Clone, Copy)]
pub(crate) enum Paint {
    Plain,
    Coloured,
}

/// A column of a table.
#[derive(Clone, Copy)]
pub(crate) struct Column {
    name: &'static str,
    class: Class,
    width: usize,
}

/// Returns how wide a column is: as wide as its name and each value.
fn widest(name: &str, rows: &[&TextLine]) -> usize
    ensures { result ≡ widest name.now (length name.now) (map (λ r. r.now) rows.now) }
{
    let mut width = name.len();
    for row in rows {
        width = width.max(line_value(name, row).len());
    }
    width
}

/// Returns the columns of rows: the fields of these pieces, in order.
fn columns_of(
    alloc: Global,
    pieces: &'static [Piece],
    rows: &[&TextLine],
) -> Result<Vec<Column>, AllocError>
    ensures { IfOk result (λ columns. map shown_head columns.items
        ≡ heads (map part_of pieces.now) (map (λ r. r.now) rows.now)) }
{
    let mut columns = Vec::new(alloc);
    for piece in pieces {
        if let Piece::Field(name, class) = *piece {
            columns.push(Column {
                name,
                class,
                width: widest(name, rows),
            })?;
        }
    }
    Ok(columns)
}

/// Adds spaces.
fn push_spaces(text: &mut Vec<u8>, n: usize) -> Result<(), AllocError>
    ensures { OnOk result (text.new.items ≡ text.old.items ++ spaces n) }
{
    for _ in 0..n {
        text.extend_from_slice(" ".as_bytes())?;
    }
    Ok(())
}

/// True if values of a class end where their column ends.
fn is_numeric(class: Class) -> bool
    ensures { result ≡ is_numeric class }
{
    match class {
        Class::Number | Class::Measure | Class::Hexadecimal => true,
        Class::Word | Class::Phrase | Class::Series | Class::Rest | Class::Nothing => false,
    }
}

/// Adds a cell, two spaces after the one before.
fn push_cell(text: &mut Vec<u8>, column: &Column, value: &[u8]) -> Result<(), AllocError>
    ensures { OnOk result (text.new.items ≡ text.old.items ++ cell (shown_head column.now) value.now) }
{
    let gap = column.width.saturating_sub(value.len());
    text.extend_from_slice("  ".as_bytes())?;
    if is_numeric(column.class) {
        push_spaces(text, gap)?;
        text.extend_from_slice(value)
    } else {
        text.extend_from_slice(value)?;
        push_spaces(text, gap)
    }
}

/// Adds the names of columns.
fn push_names(text: &mut Vec<u8>, columns: &[Column]) -> Result<(), AllocError>
    ensures { OnOk result (text.new.items ≡ text.old.items ++ flat_map head_cell (map shown_head columns.now)) }
{
    for column in columns {
        push_cell(text, column, column.name.as_bytes())?;
    }
    Ok(())
}

/// Adds the values of a row.
fn push_values(text: &mut Vec<u8>, columns: &[Column], line: &TextLine) -> Result<(), AllocError>
    ensures { OnOk result (text.new.items ≡ text.old.items
        ++ flat_map (value_cell line.now) (map shown_head columns.now)) }
{
    for column in columns {
        push_cell(text, column, line_value(column.name, line).as_bytes())?;
    }
    Ok(())
}

/// Adds what begins bold characters.
fn push_bold(text: &mut Vec<u8>, paint: Paint) -> Result<(), AllocError>
    ensures { OnOk result (text.new.items ≡ text.old.items ++ bold paint) }
{
    match paint {
        Paint::Plain => Ok(()),
        Paint::Coloured => text.extend_from_slice(&[27, b'[', b'1', b'm']),
    }
}

/// Adds what begins bold red characters.
fn push_red(text: &mut Vec<u8>, paint: Paint) -> Result<(), AllocError>
    ensures { OnOk result (text.new.items ≡ text.old.items ++ red paint) }
{
    match paint {
        Paint::Plain => Ok(()),
        Paint::Coloured => { text.extend_from_slice(&[27, b'[', b'1', b';', b'3', b'1', b'm']) }
    }
}

/// Adds what ends them.
fn push_neither(text: &mut Vec<u8>, paint: Paint) -> Result<(), AllocError>
    ensures { OnOk result (text.new.items ≡ text.old.items ++ neither paint) }
{
    match paint {
        Paint::Plain => Ok(()),
        Paint::Coloured => text.extend_from_slice(&[27, b'[', b'0', b'm']),
    }
}

/// Adds the first line of a table.
fn push_head(text: &mut Vec<u8>, paint: Paint, columns: &[Column]) -> Result<(), AllocError>
    ensures { OnOk result (text.new.items ≡ text.old.items ++ title_line paint (map shown_head columns.now)) }
{
    push_bold(text, paint)?;
    text.extend_from_slice(" ".as_bytes())?;
    push_names(text, columns)?;
    push_neither(text, paint)?;
    text.extend_from_slice("\n".as_bytes())
}

/// Adds a row that isn't marked.
fn push_plain_row(
    text: &mut Vec<u8>,
    paint: Paint,
    columns: &[Column],
    line: &TextLine,
) -> Result<(), AllocError>
    ensures { OnOk result (text.new.items ≡ text.old.items
        ++ shown_row paint false (map shown_head columns.now) line.now) }
{
    text.extend_from_slice(" ".as_bytes())?;
    push_values(text, columns, line)?;
    text.extend_from_slice("\n".as_bytes())
}

/// Adds a row that is marked.
fn push_marked_row(
    text: &mut Vec<u8>,
    paint: Paint,
    columns: &[Column],
    line: &TextLine,
) -> Result<(), AllocError>
    ensures { OnOk result (text.new.items ≡ text.old.items
        ++ shown_row paint true (map shown_head columns.now) line.now) }
{
    push_red(text, paint)?;
    text.extend_from_slice("*".as_bytes())?;
    push_values(text, columns, line)?;
    push_neither(text, paint)?;
    text.extend_from_slice("\n".as_bytes())
}

/// Adds the rows of a table.
fn push_rows(
    text: &mut Vec<u8>,
    paint: Paint,
    outline: &Outline,
    columns: &[Column],
    rows: &[&TextLine],
) -> Result<(), AllocError>
    ensures { OnOk result (text.new.items ≡ text.old.items
        ++ row_lines paint (sheet_of outline.now) (map shown_head columns.now)
        (marked_badness (sheet_of outline.now).worst (sheet_of outline.now).judged (map (λ r. r.now) rows.now))
        (map (λ r. r.now) rows.now)) }
{
    let marked = marked_badness(outline.worst, outline.judged, rows);
    for row in rows {
        if same_badness(row_badness(outline.worst, outline.judged, row), marked) {
            push_marked_row(text, paint, columns, row)?;
        } else {
            push_plain_row(text, paint, columns, row)?;
        }
    }
    Ok(())
}

/// Adds some rows, below the names of their fields.
fn push_table(
    alloc: Global,
    text: &mut Vec<u8>,
    paint: Paint,
    outline: &Outline,
    pieces: &'static [Piece],
    rows: &[&TextLine],
) -> Result<(), AllocError>
    ensures { OnOk result (text.new.items ≡ text.old.items
        ++ rows_table paint (sheet_of outline.now) (map part_of pieces.now) (map (λ r. r.now) rows.now)) }
{
    let columns = columns_of(alloc, pieces, rows)?;
    push_head(text, paint, &columns)?;
    push_rows(text, paint, outline, &columns, rows)
}

/// Adds lines with the same columns: a table, or the line if there is one.
fn push_block(
    alloc: Global,
    text: &mut Vec<u8>,
    paint: Paint,
    outline: &Outline,
    rows: &[&TextLine],
) -> Result<(), AllocError>
    ensures { OnOk result (text.new.items ≡ text.old.items
        ++ block paint (sheet_of outline.now) (map (λ r. r.now) rows.now)) }
{
    match rows {
        [] => Ok(()),
        [line] => text.extend_from_slice(line.text(alloc)?.as_bytes()),
        [line, ..] => push_table(alloc, text, paint, outline, line.pieces(), rows),
    }
}

/// True if two pieces are columns of one name, or no columns.
fn same_part(a: &Piece, b: &Piece) -> bool
    ensures { result ≡ same_part (part_of a.now) (part_of b.now) }
{
    match (*a, *b) {
        (Piece::Field(a, _), Piece::Field(b, _)) => a == b,
        (Piece::Field(_, _), _) => false,
        (_, Piece::Field(_, _)) => false,
        _ => true,
    }
}

/// True if two lists of pieces have the same columns.
fn same_parts(a: &[Piece], b: &[Piece]) -> bool
    ensures { result ≡ same_parts (map part_of a.now) (map part_of b.now) }
{
    if a.len() != b.len() {
        return false;
    }
    for k in 0..a.len() {
        if !same_part(&a[k], &b[k]) {
            return false;
        }
    }
    true
}

/// True if a line is one more of these rows.
fn goes_on(rows: &[&TextLine], line: &TextLine) -> bool
    ensures { result ≡ goes_on (map (λ r. r.now) rows.now) line.now }
{
    match rows {
        [] => false,
        [row, ..] => same_parts(row.pieces(), line.pieces()),
    }
}

/// Adds a line to rows.
fn add_row<'a>(rows: &mut Vec<&'a TextLine>, line: &'a TextLine) -> Result<(), AllocError>
    ensures { OnOk result (map (λ r. r.now) rows.new.items ≡ map (λ r. r.now) rows.old.items ++ line.now ∷ []) }
{
    rows.push(line)?;
    Ok(())
}

/// Adds all lines.
fn push_blocks(
    alloc: Global,
    text: &mut Vec<u8>,
    paint: Paint,
    outline: &Outline,
    lines: &[TextLine],
) -> Result<(), AllocError>
    ensures { OnOk result (text.new.items ≡ text.old.items ++ blocks paint (sheet_of outline.now) [] lines.now) }
{
    let mut rows = Vec::new(alloc);
    for line in lines {
        if !goes_on(&rows, line) {
            push_block(alloc, text, paint, outline, &rows)?;
            rows = Vec::new(alloc);
        }
        add_row(&mut rows, line)?;
    }
    push_block(alloc, text, paint, outline, &rows)
}

/// Returns lines as tables.
pub(crate) fn aligned(
    alloc: Global,
    paint: Paint,
    outline: &Outline,
    lines: &[TextLine],
) -> Result<Vec<u8>, AllocError>
    ensures { IfOk result (λ text. text.items ≡ aligned paint (sheet_of outline.now) lines.now) }
{
    let mut text = Vec::new(alloc);
    push_blocks(alloc, &mut text, paint, outline, lines)?;
    Ok(text)
}
