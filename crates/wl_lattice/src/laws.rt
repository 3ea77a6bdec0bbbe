//! Laws of joins, each the contract of a function with an empty body: a caller that calls it may use
//! the law.
ghost use Rattle.wl_lattice.specs.Laws.{IsJoinOrder};
ghost use Rattle.wl_lattice.specs.Words.{ReadsBack};
ghost use Rattle.wl_lattice.specs.Maps.{JoinsKeyByKey};
ghost use Rattle.wl_lattice.specs.SlotContents.{JoinsContents};

use crate::{Join, Slots};

/// Law: words are in a partial order, in which `a` is at most `b` if joining `b` to `a` gives `b`. In this order the joined word is the
/// least upper bound of the two, and the least word is below all.
pub fn join_makes_an_order<W: Join>()
    ensures { IsJoinOrder W.is_word W.least W.joined }
{}

/// Law: a joined `FlatWord` says from which side a value or a clash came, and when a value stays.
pub fn flat_words_read_back()
    ensures { ReadsBack }
{}

/// Law: finite maps of words are joined key by key; a key that a map lacks is below every word. This is a join again, and the map of a list
/// of entries rests on its members alone, not on their order or number.
pub fn maps_join_key_by_key<K, W: Join>()
    ensures { JoinsKeyByKey K W.joined }
{}

/// Law: the contents of slots, however they are kept, are joined key by key: this is a join again, and
/// contents that know nothing are neutral.
pub fn contents_join_key_by_key<S: Slots>()
    ensures { JoinsContents S.Key S.Word.is_word S.Word.least S.Word.joined }
{}
