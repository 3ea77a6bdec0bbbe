//! Slots: a word at each key, into which words are joined.
ghost use Rattle.std.specs.Prelude.{◌≡◌, OnOk, OnErr};
ghost use Rattle.wl_lattice.specs.SlotContents.{IsRaised};

use crate::Join;
use std::alloc::AllocError;
use std::collections::BTreeMap;

/// Contents that have a word at each key, however they are kept. A key at which nothing came has the
/// least word.
///
/// Of any implementation, contents may be joined key by key in any order and as often as one likes:
/// see [`contents_join_key_by_key`](crate::contents_join_key_by_key).
pub trait Slots {
    /// Where a word is.
    type Key;

    /// What is there.
    type Word: Join;

    /// The word at each key.
    ghost words: { Self → Self.Key → Self.Word };

    /// Whether a word can be joined in at a key: of a form with a fixed number of rows, that the key has one.
    ghost can_hold: { Self → Self.Key → Self.Word → Type 0 };

    /// Returns the word at a key, the least one if nothing came.
    fn word(&self, key: &Self::Key) -> Self::Word
        ensures { result ≡ words self.now key.now };

    /// Joins a word in at one key, and leaves all others. Refused when out of memory; then no word is seen to change.
    fn raise(&mut self, key: Self::Key, word: &Self::Word) -> Result<(), AllocError>
        requires { can_hold self.old key word.now }
        ensures ok { OnOk result (IsRaised Self.Word.joined (words self.old) key word.now (words self.new)) }
        ensures err { OnErr result ((q : Self.Key) → words self.new q ≡ words self.old q) }
        ensures holds { (q : Self.Key) → (w : Self.Word) → can_hold self.old q w → can_hold self.new q w };
}

/// Slots as an ordered map of words, by two numbers. A key that isn't there has the least word.
impl<W: Join + Copy> Slots for BTreeMap<(u8, u32), W> {
    ghost use Rattle.wl_lattice.specs.SlotContents.{word_in_map};

    type Key = (u8, u32);

    type Word = W;

    ghost words = { word_in_map W.least };

    ghost can_hold = { λ m q w. Unit {0} };

    fn word(&self, key: &(u8, u32)) -> W {
        match self.get(key) {
            Some(word) => *word,
            None => W::bottom(),
        }
    }

    fn raise(&mut self, key: (u8, u32), word: &W) -> Result<(), AllocError> {
        self.entry(key)?.or_insert(W::bottom()).join(word);
        Ok(())
    }
}
