//! Where the digits of a member come from: its number, or random words.
ghost use Rattle.std.specs.Prelude.{◌≡◌};
ghost use Rattle.wl_sweep.specs.Family.{drawn};

use rand_core::utils::NextWord;
use rand_xoshiro::SplitMix64;

/// The source of a member's digits: its number, or random words.
#[derive(Drop)]
pub(crate) enum DigitSource {
    /// What is left of the member's number, whose digits are those of a mixed radix, the first one the fastest.
    Number(u64),
    /// A generator of random words.
    Words(SplitMix64),
}

impl DigitSource {
    /// Returns the next digit below a radix; below 2 it is 0, and nothing is taken.
    pub(crate) fn below(&mut self, radix: u64) -> u64
        ensures { (result, self.new) ≡ drawn radix self.old }
    {
        if radix < 2 {
            return 0;
        }
        match self {
            DigitSource::Number(number) => {
                let digit = *number % radix;
                *number /= radix;
                digit
            }
            DigitSource::Words(words) => {
                let word = words.next_word();
                ((u128::from(word) * u128::from(radix)) >> 64) as u64
            }
        }
    }
}
