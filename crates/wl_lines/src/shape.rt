//! The shapes of lines.
use crate::rank::Worst;

/// What a field may hold, and how it is written.
#[derive(Clone, Copy)]
pub enum Class {
    /// A number: digits with a minus in front or a fraction after them.
    Number,
    /// A number, or a dash if there is none.
    Measure,
    /// Letters, digits, dots, dashes and underlines, as in a name.
    Word,
    /// Hexadecimal digits, or a dash if there are none; written with `0x` in front.
    Hexadecimal,
    /// Bytes up to a comma or a colon.
    Phrase,
    /// Bytes up to a colon.
    Series,
    /// The rest of the line.
    Rest,
    /// A dash: there is no value.
    Nothing,
}

/// A part of a line.
#[derive(Clone, Copy)]
pub enum Piece {
    /// These bytes.
    Fixed(&'static str),
    /// The value of a field with this name.
    Field(&'static str, Class),
    /// A value of this class that is in no field, as one that the line has already said.
    Passed(Class),
    /// No byte of the line: the field of this name has this value in every line of the shape.
    Given(&'static str, Class, &'static str),
}

/// What a line of one kind consists of.
#[derive(Clone, Copy)]
pub struct Shape {
    /// The kind, which each record has as `kind`.
    pub kind: &'static str,
    pub pieces: &'static [Piece],
}

/// What the lines of a command have in common.
#[derive(Clone, Copy)]
pub struct Outline {
    /// The command's word.
    pub command: &'static str,
    /// The names of all fields, in the order of the columns.
    pub columns: &'static [&'static str],
    /// Which rows of a table for people are the worst, and the fields that judge it.
    pub worst: Worst,
    pub judged: &'static [&'static str],
}
