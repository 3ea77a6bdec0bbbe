// Laws of states, each the contract of a function with an empty body: a caller that calls it may
// use the law.
ghost use Rattle.wl_replica.specs.Laws.{SameRecordsSameState, TakingIsJoining, IsJoining, JoinsSlotBySlot};
ghost use Rattle.wl_replica.specs.Laws.{CanonicalDeterminesTheState, MergingIsAppending, CanonicalStaysAText};
ghost use Rattle.wl_replica.specs.SlotsOf.{SlotsOfStates};
ghost use Rattle.wl_replica.specs.KnownLaws.{SlotsLaws, KnownLaws, HorizonsStay, WavesAgree};

/// Law: states of the same records are equal, in whatever order and however often the records came.
pub fn same_records_same_state()
    ensures { SameRecordsSameState }
{}

/// Law: joining the states of two lists of records is taking the records of both.
pub fn taking_is_joining()
    ensures { TakingIsJoining }
{}

/// Law: joining states of the same number of nodes is commutative, associative and idempotent, and a state that knows nothing is neutral.
pub fn joining_is_a_join()
    ensures { IsJoining }
{}

/// Law: a joined state has at each slot the join of the two words there.
pub fn states_join_slot_by_slot()
    ensures { JoinsSlotBySlot }
{}

/// Law: the canonical list of a state makes that state again.
pub fn canonical_determines_the_state()
    ensures { CanonicalDeterminesTheState }
{}

/// Law: to make records canonical, add more records and make that canonical again is to make all of them canonical at once.
pub fn merging_is_appending()
    ensures { MergingIsAppending }
{}

/// Law: the canonical list of records that fit has records that fit, that of records within some limits has such records, and its text
/// is not longer than theirs.
pub fn canonical_stays_a_text()
    ensures { CanonicalStaysAText }
{}

/// Law: the slots of a state of records are what the records say, and joined states have joined slots.
pub fn slots_of_states()
    ensures { SlotsOfStates }
{}

/// Law: joining what is known is commutative, associative and idempotent, and what a list of records
/// says rests on its members alone, whatever the records say.
#[tactic(auto, using(crate::proofs::SlotsProofs::slots_laws))]
pub fn slots_laws()
    ensures { SlotsLaws }
{}

/// Law: if all that is held is true of one table of changes: all laws at once.
pub fn known_laws()
    ensures { KnownLaws }
{
    wl_record_core::table_laws();
}

/// Law: if all that is held and taken is true of one table of changes, no node's horizon falls.
pub fn no_horizon_falls()
    ensures { HorizonsStay }
{
    known_laws();
}

/// Law: if all that is held is true of one table of changes, each wave below its horizon is the table's level there: dominant after an odd
/// number of changes.
///
/// This is the heart of conservative simulation (Chandy and Misra, 1979): below a promise nothing more can come, so what is known there is
/// what happens.
pub fn waves_agree()
    ensures { WavesAgree }
{
    known_laws();
}
