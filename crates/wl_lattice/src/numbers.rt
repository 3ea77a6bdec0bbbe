//! A word of values as one number, as rows of memory and words that threads share keep it.
ghost use Rattle.std.specs.Prelude.{◌≡◌, ◌<◌, ◌+◌};
ghost use Rattle.wl_lattice.specs.Numbers.{number_word};

use crate::FlatWord;

/// The number of a clash. It is above that of any value below it.
pub const CLASH: u64 = u64::MAX;

/// Returns the number of a value: one more, since 0 is the number of nothing.
#[inline(always)]
pub fn value_number(value: u64) -> u64
    requires { value < CLASH }
    ensures { result ≡ value + 1 }
{
    value + 1
}

/// Returns the word of a number: 0 for nothing, [`CLASH`] for a clash, else the value whose number
/// it is.
#[inline(always)]
pub fn number_word(number: u64) -> FlatWord
    ensures { result ≡ number_word number }
{
    if number == 0 {
        FlatWord::Nothing
    } else if number == CLASH {
        FlatWord::Clash
    } else {
        FlatWord::Value(number - 1)
    }
}
