//! The output of a command in another format.
ghost use Rattle.std.specs.Prelude.{◌≡◌, ◌≢◌, ◌++◌, ◌∷◌, [], ◌<◌, ◌≤◌, true, false, IfOk, IfErr, IfSome, OnOk, Some, None, is_some, length, map, position};
ghost use Rattle.std.specs.List.{position_or_len};
ghost use Rattle.wl_formats.specs.Shapes.{form_of, layout_of};
ghost use Rattle.wl_formats.specs.Matching.{form_for};
ghost use Rattle.wl_formats.specs.Formats.{is_newline, lines_of, separator, form_bytes, line_bytes, lines_bytes, all_fit, opening, head_bytes, foot_bytes, records, formatted};
ghost use Rattle.wl_formats.specs.Aligned.{aligned};
ghost use Rattle.wl_formats.specs.declared.fault.FormatFault.TheVariants as FormatFault;

use crate::aligned::{Paint, aligned};
use crate::csv::{push_header, push_row};
use crate::fault::FormatFault;
use crate::json::push_record;
use crate::matching::shape_of;
use crate::shape::{Shape, Table};
use crate::tables::{Subject, table_of};
use std::alloc::{AllocError, Global};
use wl_lines::{Format, push_quoted};

/// How records are written.
#[derive(Clone, Copy)]
enum RecordForm {
    Json,
    Csv,
}

/// Returns where the first newline is.
fn newline_in(text: &[u8]) -> Option<usize>
    ensures place { result ≡ position is_newline text.now }
    ensures within { IfSome result (λ at. at < length text.now) }
{
    text.iter().position(|byte| *byte == b'\n')
}

/// Returns how long the first line is, without its newline.
#[tactic(auto, using(crate::proofs::Lines::without_newline))]
fn line_len(text: &[u8]) -> usize
    ensures value { result ≡ position_or_len is_newline text.now }
    ensures bound { result ≤ length text.now }
{
    match newline_in(text) {
        Some(at) => at,
        None => text.len(),
    }
}

/// Returns the first line of a text, and what comes after it.
fn next_line(text: &[u8]) -> (&[u8], &[u8])
    requires { 0 < length text.now }
    ensures lines { lines_of text.now ≡ result.0.now ∷ lines_of result.1.now }
    ensures shorter { length result.1.now < length text.now }
{
    let len = line_len(text);
    let line = &text[..len];
    if len < text.len() {
        (line, &text[len + 1..])
    } else {
        (line, &[])
    }
}

/// Returns what comes before a record.
fn separator(is_first: bool) -> &'static str
    ensures { result.now ≡ separator is_first }
{
    if is_first { "\n" } else { ",\n" }
}

/// Adds the record of a line of this shape.
fn push_shape(
    text: &mut Vec<u8>,
    format: RecordForm,
    table: &Table,
    is_first: bool,
    shape: &Shape,
    line: &[u8],
) -> Result<(), AllocError>
    ensures { OnOk result (text.new.items ≡ text.old.items
        ++ form_bytes format (layout_of table.now) is_first (form_of shape.now) line.now) }
{
    match format {
        RecordForm::Json => {
            text.extend_from_slice(separator(is_first).as_bytes())?;
            push_record(text, shape, line)
        }
        RecordForm::Csv => push_row(text, table.columns, shape, line),
    }
}

/// Adds the record of a line.
fn push_line(
    text: &mut Vec<u8>,
    format: RecordForm,
    table: &Table,
    is_first: bool,
    line: &[u8],
) -> Result<(), FormatFault>
    ensures fits { OnOk result (is_some (form_for (layout_of table.now).forms line.now) ≡ true) }
    ensures text { OnOk result (text.new.items ≡ text.old.items
        ++ line_bytes format (layout_of table.now) is_first line.now) }
    ensures fault { IfErr result (λ fault. fault ≢ FormatFault.Memory
        → is_some (form_for (layout_of table.now).forms line.now) ≡ false) }
{
    match shape_of(table, line) {
        Some(shape) => {
            push_shape(text, format, table, is_first, shape, line)?;
            Ok(())
        }
        None => Err(FormatFault::Shape),
    }
}

/// Adds the records of all lines.
fn push_lines(
    text: &mut Vec<u8>,
    format: RecordForm,
    table: &Table,
    lines: &[u8],
) -> Result<(), FormatFault>
    ensures fits { OnOk result (all_fit (layout_of table.now) (lines_of lines.now) ≡ true) }
    ensures text { OnOk result (text.new.items ≡ text.old.items
        ++ lines_bytes format (layout_of table.now) true (lines_of lines.now)) }
    ensures fault { IfErr result (λ fault. fault ≢ FormatFault.Memory
        → all_fit (layout_of table.now) (lines_of lines.now) ≡ false) }
{
    let mut rest = lines;
    let mut is_first = true;
    'lines: while !rest.is_empty() {
        let (line, later) = next_line(rest);
        push_line(text, format, table, is_first, line)?;
        is_first = false;
        rest = later;
    }
    Ok(())
}

/// Adds what comes before all records of JSON.
fn push_opening(text: &mut Vec<u8>, command: &str) -> Result<(), AllocError>
    ensures { OnOk result (text.new.items ≡ text.old.items ++ opening command.now) }
{
    text.extend_from_slice("{\"command\":".as_bytes())?;
    push_quoted(text, command.as_bytes())?;
    text.extend_from_slice(",\"records\":[".as_bytes())
}

/// Adds what comes before all records.
fn push_head(text: &mut Vec<u8>, format: RecordForm, table: &Table) -> Result<(), AllocError>
    ensures { OnOk result (text.new.items ≡ text.old.items ++ head_bytes format (layout_of table.now)) }
{
    match format {
        RecordForm::Json => push_opening(text, table.command),
        RecordForm::Csv => push_header(text, table.columns),
    }
}

/// Adds what comes after all records.
fn push_foot(text: &mut Vec<u8>, format: RecordForm) -> Result<(), AllocError>
    ensures { OnOk result (text.new.items ≡ text.old.items ++ foot_bytes format) }
{
    match format {
        RecordForm::Json => text.extend_from_slice("\n]}\n".as_bytes()),
        RecordForm::Csv => Ok(()),
    }
}

/// Returns all records of a command's output.
fn records(
    alloc: Global,
    format: RecordForm,
    table: &Table,
    text: &[u8],
) -> Result<Vec<u8>, FormatFault>
    ensures fits { OnOk result (all_fit (layout_of table.now) (lines_of text.now) ≡ true) }
    ensures bytes { IfOk result (λ bytes. bytes.items ≡ records format (layout_of table.now) text.now) }
    ensures fault { IfErr result (λ fault. fault ≢ FormatFault.Memory
        → all_fit (layout_of table.now) (lines_of text.now) ≡ false) }
{
    let mut made = Vec::new(alloc);
    push_head(&mut made, format, table)?;
    push_lines(&mut made, format, table, text)?;
    push_foot(&mut made, format)?;
    Ok(made)
}

/// Adds a line.
fn add_line<'a>(lines: &mut Vec<&'a [u8]>, line: &'a [u8]) -> Result<(), AllocError>
    ensures { OnOk result (map (λ l. l.now) lines.new.items ≡ map (λ l. l.now) lines.old.items ++ line.now ∷ []) }
{
    lines.push(line)?;
    Ok(())
}

/// Returns the lines of a text. Refused if one fits no shape of the table.
fn fitting_lines<'a>(
    alloc: Global,
    table: &Table,
    text: &'a [u8],
) -> Result<Vec<&'a [u8]>, FormatFault>
    ensures fits { OnOk result (all_fit (layout_of table.now) (lines_of text.now) ≡ true) }
    ensures lines { IfOk result (λ lines. map (λ line. line.now) lines.items ≡ lines_of text.now) }
    ensures fault { IfErr result (λ fault. fault ≢ FormatFault.Memory
        → all_fit (layout_of table.now) (lines_of text.now) ≡ false) }
{
    let mut lines = Vec::new(alloc);
    let mut rest = text;
    'fitting: while !rest.is_empty() {
        let (line, later) = next_line(rest);
        if shape_of(table, line).is_none() {
            return Err(FormatFault::Shape);
        }
        add_line(&mut lines, line)?;
        rest = later;
    }
    Ok(lines)
}

/// Returns a command's output as tables with aligned columns.
fn tables(
    alloc: Global,
    paint: Paint,
    subject: Subject,
    table: &Table,
    text: &[u8],
) -> Result<Vec<u8>, FormatFault>
    ensures fits { OnOk result (all_fit (layout_of table.now) (lines_of text.now) ≡ true) }
    ensures bytes { IfOk result (λ bytes. bytes.items
        ≡ aligned paint subject (layout_of table.now).forms (lines_of text.now)) }
    ensures fault { IfErr result (λ fault. fault ≢ FormatFault.Memory
        → all_fit (layout_of table.now) (lines_of text.now) ≡ false) }
{
    let lines = fitting_lines(alloc, table, text)?;
    Ok(aligned(alloc, paint, subject, table, &lines)?)
}

/// Returns the output of a command, given as its text, in another format.
///
/// Refused if a line fits no shape of the command, which none of its lines does, or when out of memory.
pub fn formatted(
    alloc: Global,
    format: Format,
    subject: Subject,
    text: &[u8],
) -> Result<Vec<u8>, FormatFault>
    ensures bytes { IfOk result (λ bytes. formatted format subject text.now ≡ Some bytes.items) }
    ensures fault { IfErr result (λ fault. fault ≢ FormatFault.Memory → formatted format subject text.now ≡ None) }
{
    let table = table_of(subject);
    match format {
        Format::Json => records(alloc, RecordForm::Json, &table, text),
        Format::Csv => records(alloc, RecordForm::Csv, &table, text),
        Format::Table => tables(alloc, Paint::Plain, subject, &table, text),
        Format::Coloured => tables(alloc, Paint::Coloured, subject, &table, text),
    }
}
