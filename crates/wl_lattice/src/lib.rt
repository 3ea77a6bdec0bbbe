//! Values that can be joined in any order and number, with the laws of joining.
//!
//! A trait whose laws every implementation proves, the two words of a slot, and pairs and arrays of them; these take no memory and refuse
//! nothing. And slots: a trait of contents that have a word at each key. An ordered map is one.
#![tactic(auto)]

ghost use Rattle.std.specs.Prelude.{◌≡◌, ◌↔◌, IsTrue};
ghost use Rattle.wl_lattice.specs.Laws.{JoinLaws};

mod laws;
mod numbers;
mod products;
mod slots;

pub use laws::{
    contents_join_key_by_key, flat_words_read_back, join_makes_an_order, maps_join_key_by_key,
};
pub use numbers::{CLASH, number_word, value_number};
pub use slots::Slots;

/// Values that can be joined: a semilattice with a least value.
///
/// A joined value knows what both sides knew. Joining is commutative, associative and
/// idempotent, and the least value is neutral, so values may be joined in any order and as often
/// as one likes. Each implementation proves these laws.
pub trait Join {
    /// Holds of the values of the type. Only an array says something by it: its length.
    ghost is_word: { Self → Type 0 };

    /// Returns the value that knows nothing.
    ghost least: { Self };

    /// What two values know together.
    ghost joined: { Self → Self → Self };

    /// Does nothing. It gives a proof that this value is one of the type, for which neutrality asks.
    fn known(&self)
        ensures { is_word self.now };

    /// Returns the value that knows nothing.
    fn bottom() -> Self
        ensures { result ≡ least };

    /// Adds what the other knows.
    fn join(&mut self, other: &Self)
        ensures { self.new ≡ joined self.old other.now };

    /// True if the two are equal.
    fn same(&self, other: &Self) -> bool
        ensures { IsTrue result ↔ (self.now ≡ other.now) };

    ghost laws: { JoinLaws is_word least joined };
}

/// The greatest number so far; 0 is the least word.
#[derive(Clone, Copy, Debug, PartialEq, Eq)]
pub struct MaxWord {
    /// The number, from 0 to 2^64 - 1.
    pub word: u64,
}

/// Nothing so far, one value, or a clash of two different values at least.
#[derive(Clone, Copy, Debug, PartialEq, Eq)]
pub enum FlatWord {
    /// No value yet.
    Nothing,
    /// The one value that came so far.
    Value(u64),
    /// Two different values came, or a clash.
    Clash,
}

impl Join for MaxWord {
    ghost use Rattle.wl_lattice.specs.Words.{max_word, joined_max};
    ghost use Rattle.wl_lattice.specs.WordLaws.{max_laws};

    ghost is_word = { λ _. Unit {0} };

    ghost least = { max_word 0 };

    ghost joined = { joined_max };

    ghost laws = { max_laws };

    fn known(&self) {}

    fn bottom() -> Self {
        Self { word: 0 }
    }

    fn join(&mut self, other: &Self) {
        self.word = self.word.max(other.word);
    }

    fn same(&self, other: &Self) -> bool {
        self.word == other.word
    }
}

impl Join for FlatWord {
    ghost use Rattle.wl_lattice.specs.Words.{joined_flat};
    ghost use Rattle.wl_lattice.specs.WordLaws.{flat_laws};
    ghost use Rattle.wl_lattice.specs.declared.FlatWord.TheVariants.{Nothing};

    ghost is_word = { λ _. Unit {0} };

    ghost least = { Nothing };

    ghost joined = { joined_flat };

    ghost laws = { flat_laws };

    fn known(&self) {}

    fn bottom() -> Self {
        Self::Nothing
    }

    fn join(&mut self, other: &Self) {
        *self = match (*self, *other) {
            (FlatWord::Nothing, word) => word,
            (word, FlatWord::Nothing) => word,
            (FlatWord::Value(x), FlatWord::Value(y)) if x == y => FlatWord::Value(x),
            _ => FlatWord::Clash,
        };
    }

    fn same(&self, other: &Self) -> bool {
        self == other
    }
}
