//! A phase error as a word.

use std::fmt;

/// A phase error as a word: with `-` before it if it is negative, and `-` alone if there is none.
#[derive(Clone, Copy)]
pub(crate) struct ErrorWord(pub(crate) Option<i16>);

impl fmt::Display for ErrorWord {
    ghost use Rattle.std.specs.Prelude.{Some};
    ghost use Rattle.wl_report.specs.Lines.{error_word};

    ghost output = { λ w. Some (error_word w.0) };

    fn fmt<W: fmt::Write>(&self, f: &mut fmt::Formatter<W>) -> fmt::Result {
        match self.0 {
            None => write!(f, "-"),
            Some(error) => write!(f, "{error}"),
        }
    }
}
