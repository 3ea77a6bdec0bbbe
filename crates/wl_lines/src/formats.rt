//! The output of a command.
ghost use Rattle.std.specs.Prelude.{◌≡◌, ◌++◌, true, IfOk, OnOk, map};
ghost use Rattle.wl_lines.specs.Shapes.{sheet_of};
ghost use Rattle.wl_lines.specs.Formats.{separator, line_bytes, lines_bytes, opening, head_bytes, foot_bytes, records, formatted, written_as, lines_text};

use crate::aligned::{Paint, aligned};
use crate::csv::{push_header, push_row};
use crate::json::{push_quoted, push_record};
use crate::line::TextLine;
use crate::shape::Outline;
use std::alloc::{AllocError, Global};

/// Another format than text.
#[derive(Clone, Copy)]
pub enum Format {
    /// One object, with a list of all records.
    Json,
    /// One table with a header.
    Csv,
    /// Tables with aligned columns, for people.
    Table,
    /// The same in the colours of a terminal.
    Coloured,
}

/// How records are written.
#[derive(Clone, Copy)]
enum RecordForm {
    Json,
    Csv,
}

/// Returns what comes before a record.
fn separator(is_first: bool) -> &'static str
    ensures { result.now ≡ separator is_first }
{
    if is_first { "\n" } else { ",\n" }
}

/// Adds the record of a line.
fn push_line(
    text: &mut Vec<u8>,
    format: RecordForm,
    outline: &Outline,
    is_first: bool,
    line: &TextLine,
) -> Result<(), AllocError>
    ensures { OnOk result (text.new.items ≡ text.old.items
        ++ line_bytes format (sheet_of outline.now) is_first line.now) }
{
    match format {
        RecordForm::Json => {
            text.extend_from_slice(separator(is_first).as_bytes())?;
            push_record(text, line)
        }
        RecordForm::Csv => push_row(text, outline.columns, line),
    }
}

/// Adds the records of all lines.
fn push_lines(
    text: &mut Vec<u8>,
    format: RecordForm,
    outline: &Outline,
    lines: &[TextLine],
) -> Result<(), AllocError>
    ensures { OnOk result (text.new.items ≡ text.old.items
        ++ lines_bytes format (sheet_of outline.now) true lines.now) }
{
    let mut is_first = true;
    for line in lines {
        push_line(text, format, outline, is_first, line)?;
        is_first = false;
    }
    Ok(())
}

/// Adds what comes before all records of JSON.
fn push_opening(text: &mut Vec<u8>, command: &str) -> Result<(), AllocError>
    ensures { OnOk result (text.new.items ≡ text.old.items ++ opening command.now) }
{
    text.extend_from_slice("{\"command\":".as_bytes())?;
    push_quoted(text, command.as_bytes())?;
    text.extend_from_slice(",\"records\":[".as_bytes())
}

/// Adds what comes before all records.
fn push_head(text: &mut Vec<u8>, format: RecordForm, outline: &Outline) -> Result<(), AllocError>
    ensures { OnOk result (text.new.items ≡ text.old.items ++ head_bytes format (sheet_of outline.now)) }
{
    match format {
        RecordForm::Json => push_opening(text, outline.command),
        RecordForm::Csv => push_header(text, outline.columns),
    }
}

/// Adds what comes after all records.
fn push_foot(text: &mut Vec<u8>, format: RecordForm) -> Result<(), AllocError>
    ensures { OnOk result (text.new.items ≡ text.old.items ++ foot_bytes format) }
{
    match format {
        RecordForm::Json => text.extend_from_slice("\n]}\n".as_bytes()),
        RecordForm::Csv => Ok(()),
    }
}

/// Returns all lines as records.
fn records(
    alloc: Global,
    format: RecordForm,
    outline: &Outline,
    lines: &[TextLine],
) -> Result<Vec<u8>, AllocError>
    ensures { IfOk result (λ bytes. bytes.items ≡ records format (sheet_of outline.now) lines.now) }
{
    let mut made = Vec::new(alloc);
    push_head(&mut made, format, outline)?;
    push_lines(&mut made, format, outline, lines)?;
    push_foot(&mut made, format)?;
    Ok(made)
}

/// Returns the lines of a command as text.
fn lines_text(alloc: Global, lines: &[TextLine]) -> Result<Vec<u8>, AllocError>
    ensures { IfOk result (λ bytes. bytes.items ≡ lines_text lines.now) }
{
    let mut text = Vec::new(alloc);
    for line in lines {
        text.extend_from_slice(line.text(alloc)?.as_bytes())?;
    }
    Ok(text)
}

/// Returns the lines of a command as text, or in another format. Refused only when out of memory.
pub fn written_as(
    alloc: Global,
    format: Option<Format>,
    outline: &Outline,
    lines: &[TextLine],
) -> Result<Vec<u8>, AllocError>
    ensures { IfOk result (λ bytes. bytes.items ≡ written_as format (sheet_of outline.now) lines.now) }
{
    match format {
        None => lines_text(alloc, lines),
        Some(format) => formatted(alloc, format, outline, lines),
    }
}

/// Returns the lines of a command in another format than text.
fn formatted(
    alloc: Global,
    format: Format,
    outline: &Outline,
    lines: &[TextLine],
) -> Result<Vec<u8>, AllocError>
    ensures { IfOk result (λ bytes. bytes.items ≡ formatted format (sheet_of outline.now) lines.now) }
{
    match format {
        Format::Json => records(alloc, RecordForm::Json, outline, lines),
        Format::Csv => records(alloc, RecordForm::Csv, outline, lines),
        Format::Table => aligned(alloc, Paint::Plain, outline, lines),
        Format::Coloured => aligned(alloc, Paint::Coloured, outline, lines),
    }
}
