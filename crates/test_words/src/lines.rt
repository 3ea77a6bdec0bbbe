//! Rows, one a line.
ghost use Rattle.std.specs.Prelude.{◌≡◌, ◌++◌, IfOk, string_bytes};
ghost use Rattle.test_words.specs.Lines.{is_row, answer_of};

use std::alloc::{AllocError, AllocFailed, Global};
use std::num::ParseIntError;

/// Why a row has no answer.
#[derive(Debug, Drop)]
pub enum Stop {
    /// A word of it can't be read, or says what may not be asked.
    Unread,
    /// There is no memory for the answer.
    Memory,
}

/// An answer that was written.
pub type Told = Result<(), Stop>;

impl From<AllocError> for Stop {
    ghost use Rattle.test_words.specs.declared.lines.Stop.TheVariants.{Memory};

    ghost from_gives = { λ _ stop. stop ≡ Memory };

    fn from(_error: AllocError) -> Stop {
        Stop::Memory
    }
}

impl<T: Drop> From<AllocFailed<T>> for Stop {
    ghost use Rattle.test_words.specs.declared.lines.Stop.TheVariants.{Memory};

    ghost from_gives = { λ _ stop. stop ≡ Memory };

    fn from(_error: AllocFailed<T>) -> Stop {
        Stop::Memory
    }
}

impl From<ParseIntError> for Stop {
    ghost use Rattle.test_words.specs.declared.lines.Stop.TheVariants.{Unread};

    ghost from_gives = { λ _ stop. stop ≡ Unread };

    fn from(_error: ParseIntError) -> Stop {
        Stop::Unread
    }
}

/// True if a line is a row: it isn't empty, and doesn't begin with `#`.
pub fn is_row(line: &str) -> bool
    ensures { result ≡ is_row line.now }
{
    match line.as_bytes().first() {
        None | Some(b'#') => false,
        Some(_) => true,
    }
}

/// Returns a row and its answer after it. Refused only when out of memory, then or before.
pub fn answered(alloc: Global, row: &str, told: Result<String, Stop>) -> Result<String, AllocError>
    ensures { IfOk result (λ out. string_bytes out ≡ row.now ++ answer_of told) }
{
    let mut out = String::from_str(alloc, row)?;
    match told {
        Ok(said) => out.push_str(said.as_str())?,
        Err(Stop::Unread) => out.push_str(" = unread")?,
        Err(Stop::Memory) => return Err(AllocError),
    }
    Ok(out)
}

/// Returns each line of a text, and after a row what it is told. Refused only when out of memory.
pub fn answer_lines<F: Fn(Global, &str) -> Result<String, Stop>>(
    alloc: Global,
    text: &str,
    tell: F,
) -> Result<String, AllocError>
    requires { F.IsAlwaysCallable tell }
{
    let mut out = String::new(alloc);
    for line in text.lines() {
        if is_row(line) {
            let said = answered(alloc, line, tell(alloc, line))?;
            out.push_str(said.as_str())?;
        } else {
            out.push_str(line)?;
        }
        out.push_str("\n")?;
    }
    Ok(out)
}
