//! A hint: a place of an input, and what to change there.
ghost use Rattle.std.specs.Prelude.{◌≡◌, ◌≤◌, IfOk, None, length};
ghost use Rattle.wl_hint.specs.Hints.{IsPlaceOf};

use std::alloc::{AllocError, Global};
use std::fmt;
use wl_explain::{column_number, line_number};
use wl_setup::Text;

/// A place of a text, for a reader: a line and a column.
#[derive(Clone, Copy, Debug, PartialEq, Eq)]
pub struct TextPlace {
    /// The line, from 1.
    pub line: u64,
    /// The column in that line, from 1, in characters.
    pub column: u64,
}

impl TextPlace {
    /// Returns the line and the column of a place of a text, which is counted in bytes.
    pub(crate) fn of(text: &[u8], at: usize) -> TextPlace
        requires { at ≤ length text.now }
        ensures { IsPlaceOf text.now result }
    {
        let before = &text[..at];
        TextPlace {
            line: line_number(before),
            column: column_number(before),
        }
    }
}

/// What to change of an input that is refused, as one line: the place, if it is known, and what is said of it.
#[derive(Debug, Drop)]
pub struct Hint {
    /// Where in the input the fault is.
    pub place: Option<TextPlace>,
    /// What is wrong there, and what to change. Nothing that could steer a terminal is shown as it is.
    pub said: Text,
}

impl Hint {
    /// Returns a hint without a place.
    pub(crate) fn anywhere(alloc: Global, said: &str) -> Result<Hint, AllocError>
        ensures { IfOk result (λ hint. hint.place ≡ None) }
    {
        Ok(Hint {
            place: None,
            said: Text::new(alloc, said)?,
        })
    }
}

impl fmt::Display for Hint {
    ghost use Rattle.std.specs.Prelude.{Some};
    ghost use Rattle.wl_hint.specs.Hints.{hint_words};

    ghost output = { λ hint. Some (hint_words hint) };

    fn fmt<W: fmt::Write>(&self, f: &mut fmt::Formatter<W>) -> fmt::Result {
        if let Some(place) = self.place {
            let (line, column) = (place.line, place.column);
            write!(f, "line {line}, column {column}")?;
        }
        let said = &self.said;
        write!(f, "{said}")
    }
}
