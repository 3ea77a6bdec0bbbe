// Laws of words, each the contract of a function with an empty body: a caller that calls it may use
// the law.
ghost use Rattle.std.specs.Prelude.{ℕ};
ghost use Rattle.wl_record_core.specs.declared.record.Slot.{Slot};
ghost use Rattle.wl_hub.specs.Words.{IsJoinOfTrue, Tells};

use crate::Truth;

/// Law: what the word of a slot says, as `look` returns it: nothing, or a true record of that slot.
/// Of an edge it may also say a clash, which comes from a true clash or from true edges of two
/// ticks.
#[tactic(auto, using(crate::proofs::Telling::word_tells))]
pub fn words_tell_records<T: Truth>()
    ensures { (name : T) (slot : Slot) (word : ℕ)
        → IsJoinOfTrue (T.is_true name) slot word → Tells (T.is_true name) slot word }
{}
