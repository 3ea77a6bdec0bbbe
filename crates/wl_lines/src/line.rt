//! A line of a command: its shape, and the values of its fields.
ghost use Rattle.std.specs.Prelude.{◌≡◌, ◌++◌, ◌∷◌, [], IfOk, OnOk, map, string_bytes};
ghost use Rattle.wl_lines.specs.Shapes.{AddsShown, first_value, form_of, has_value, later_values, line_text, others, part_of, piece_text, pieces_text, value_in};

use crate::shape::{Piece, Shape};
use std::alloc::{AllocError, Global};
use std::fmt;
use std::marker::Model;

/// A line of a command.
#[derive(Drop)]
pub struct TextLine {
    shape: &'static Shape,
    values: Vec<String>,
}

impl Model for TextLine {
    ghost use Rattle.std.specs.Prelude.{map, string_bytes};
    ghost use Rattle.wl_lines.specs.Shapes.{TextLine, form_of};

    ghost Value = { TextLine };

    ghost view = { λ l. record { form = form_of l.shape.now; values = map string_bytes l.values.items } };
}

/// True if a piece has a value among those of a line.
fn has_value(piece: &Piece) -> bool
    ensures { result ≡ has_value (part_of piece.now) }
{
    match *piece {
        Piece::Fixed(_) | Piece::Given(_, _, _) => false,
        Piece::Field(_, _) | Piece::Passed(_) => true,
    }
}

/// Returns the first of some values, or nothing, and the others.
fn next_value(values: &[String]) -> (&str, &[String])
    ensures value { result.0.now ≡ first_value (map string_bytes values.now) }
    ensures later { map string_bytes result.1.now ≡ others (map string_bytes values.now) }
{
    match values {
        [] => ("", values),
        [first, later @ ..] => (first, later),
    }
}

/// Returns what a piece takes of some values, and what is left.
pub(crate) fn value_in<'a>(piece: &Piece, values: &'a [String]) -> (&'a str, &'a [String])
    ensures value { result.0.now ≡ value_in (part_of piece.now) (map string_bytes values.now) }
    ensures later { map string_bytes result.1.now ≡ later_values (part_of piece.now) (map string_bytes values.now) }
{
    if has_value(piece) {
        next_value(values)
    } else {
        ("", values)
    }
}

/// Adds the text of a piece.
fn push_part(text: &mut String, piece: &Piece, value: &str) -> Result<(), AllocError>
    ensures { OnOk result (string_bytes text.new ≡ string_bytes text.old ++ piece_text (part_of piece.now) value.now) }
{
    match *piece {
        Piece::Fixed(said) => text.push_str(said),
        Piece::Field(_, _) | Piece::Passed(_) => text.push_str(value),
        Piece::Given(_, _, _) => Ok(()),
    }
}

/// Adds the text of pieces with these values.
fn push_parts(text: &mut String, pieces: &[Piece], values: &[String]) -> Result<(), AllocError>
    ensures { OnOk result (string_bytes text.new ≡ string_bytes text.old
        ++ pieces_text (map part_of pieces.now) (map string_bytes values.now)) }
{
    let mut rest = values;
    for piece in pieces {
        let (value, later) = value_in(piece, rest);
        push_part(text, piece, value)?;
        rest = later;
    }
    Ok(())
}

impl TextLine {
    /// Returns a line of this shape, with no values yet.
    pub fn new(alloc: Global, shape: &'static Shape) -> TextLine
        ensures { result ≡ record { form = form_of shape.now; values = [] } }
    {
        TextLine {
            shape,
            values: Vec::new(alloc),
        }
    }

    /// Adds the value of the next field. On a fault the line is as it was.
    pub fn add(&mut self, value: String) -> Result<(), AllocError>
        ensures { OnOk result (self.new ≡ record self.old { values = self.old.values ++ string_bytes value ∷ [] }) }
    {
        self.values.push(value)?;
        Ok(())
    }

    /// Adds a text as the value of the next field. On a fault the line is as it was.
    pub fn say(&mut self, value: &str) -> Result<(), AllocError>
        ensures { OnOk result (self.new ≡ record self.old { values = self.old.values ++ value.now ∷ [] }) }
    {
        let value = String::from_str(*self.values.allocator(), value)?;
        self.add(value)
    }

    /// Adds what is shown of a value as the value of the next field. On a fault the line is as it was.
    pub fn show<T: fmt::Display>(&mut self, value: &T) -> Result<(), AllocError>
        ensures { OnOk result (AddsShown (T.output value.now) self.old self.new) }
    {
        let mut text = String::new(*self.values.allocator());
        write!(text, "{value}")?;
        self.add(text)
    }

    /// Returns the kind.
    pub(crate) fn kind(&self) -> &'static str
        ensures { result.now ≡ self.now.form.kind }
    {
        self.shape.kind
    }

    /// Returns the pieces.
    pub(crate) fn pieces(&self) -> &'static [Piece]
        ensures { map part_of result.now ≡ self.now.form.parts }
    {
        self.shape.pieces
    }

    /// Returns the values.
    pub(crate) fn values(&self) -> &[String]
        ensures { map string_bytes result.now ≡ self.now.values }
    {
        &self.values
    }

    /// Returns the text of the line, with its newline. Refused only when out of memory.
    pub fn text(&self, alloc: Global) -> Result<String, AllocError>
        ensures { IfOk result (λ text. string_bytes text ≡ line_text self.now) }
    {
        let mut text = String::new(alloc);
        push_parts(&mut text, self.shape.pieces, &self.values)?;
        text.push_str("\n")?;
        Ok(text)
    }
}
