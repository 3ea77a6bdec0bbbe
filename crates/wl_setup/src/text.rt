//! A text that clauses compare by its bytes.
ghost use Rattle.std.specs.Prelude.{◌≡◌, IfOk};

use std::alloc::{AllocError, Global};
use std::fmt;
use std::marker::Model;

/// A text, seen as its bytes.
#[derive(Drop)]
pub struct Text {
    letters: String,
}

impl Model for Text {
    ghost use Rattle.std.specs.Prelude.{List, ℕ, string_bytes};

    ghost Value = { List ℕ };

    ghost view = { λ t. string_bytes t.letters };
}

impl Text {
    /// Returns a copy of a text.
    pub fn new(alloc: Global, letters: &str) -> Result<Text, AllocError>
        ensures { IfOk result (λ t. t ≡ letters.now) }
    {
        Ok(Text {
            letters: String::from_str(alloc, letters)?,
        })
    }

    /// Returns the text.
    pub fn as_str(&self) -> &str
        ensures { result.now ≡ self.now }
    {
        self.letters.as_str()
    }
}

impl fmt::Debug for Text {
    fn fmt<W: fmt::Write>(&self, f: &mut fmt::Formatter<W>) -> fmt::Result {
        write!(f, "{:?}", self.as_str())
    }
}

/// A character of a text, as it is shown.
#[derive(Clone, Copy)]
struct ShownCharacter(char);

/// A character that could steer a terminal is shown as TOML 1.0 escapes it in a basic string, any other as it is: the control characters
/// (below 32, 127 to 159), the separators of lines, and the marks of writing direction.
impl fmt::Display for ShownCharacter {
    ghost use Rattle.std.specs.Prelude.{Some};
    ghost use Rattle.wl_setup.specs.Shown.{shown_character};

    ghost output = { λ l. Some (shown_character l.0) };

    fn fmt<W: fmt::Write>(&self, f: &mut fmt::Formatter<W>) -> fmt::Result {
        let character = self.0;
        let number = character as u32;
        match number {
            8 => write!(f, "\\b"),
            9 => write!(f, "\\t"),
            10 => write!(f, "\\n"),
            12 => write!(f, "\\f"),
            13 => write!(f, "\\r"),
            0..=31 | 127..=159 | 1564 | 8206..=8207 | 8232..=8238 | 8294..=8297 => {
                let (first, second) = (number / 4096, number / 256 % 16);
                let (third, fourth) = (number / 16 % 16, number % 16);
                write!(f, "\\u{first:X}{second:X}{third:X}{fourth:X}")
            }
            _ => write!(f, "{character}"),
        }
    }
}

/// The text in one line: no character of it that could steer a terminal is shown as it is.
impl fmt::Display for Text {
    ghost use Rattle.std.specs.Prelude.{Some};
    ghost use Rattle.wl_setup.specs.Shown.{shown};

    ghost output = { λ t. Some (shown t) };

    fn fmt<W: fmt::Write>(&self, f: &mut fmt::Formatter<W>) -> fmt::Result {
        for character in self.as_str().chars() {
            let character = ShownCharacter(character);
            write!(f, "{character}")?;
        }
        Ok(())
    }
}
