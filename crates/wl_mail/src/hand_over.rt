//! The hand-over of records to a group, and whether they say something new to it.
ghost use Rattle.std.specs.Prelude.{◌≡◌, ◌≢◌, ℕ, IfOk, MatchBool, OnErr, OnOk, [], ◌∷◌, take};
ghost use Rattle.wl_plan.specs.PlanLine.{IsTrueOfPlan};
ghost use Rattle.wl_group.specs.GroupValue.{with_records};
ghost use Rattle.wl_mail.specs.Truth.{AreTrueOfPlan};
ghost use Rattle.wl_mail.specs.Handed.{TellsNews, IsNews};

use std::alloc::AllocError;
use wl_group::Group;
use wl_lattice::{FlatWord, Join, MaxWord};
use wl_record_core::Record;
use wl_replica::{
    Replica, Word, joining_is_a_join, slots_of_states, states_join_slot_by_slot, taking_is_joining,
};

/// Takes records that are true of the group's plan, in order, and returns whether that changed what the group knows. If memory is refused
/// the group keeps those before.
pub(crate) fn take_all(group: &mut Group, records: &[Record]) -> Result<bool, AllocError>
    requires { AreTrueOfPlan group.old.plan records.now }
    ensures all { OnOk result (group.new ≡ with_records records.now group.old) }
    ensures first { (k : ℕ) × (group.new ≡ with_records (take k records.now) group.old) }
    ensures changed { IfOk result (λ b. TellsNews group.old group.new b) }
{
    joining_is_a_join();
    taking_is_joining();
    let mut changed = false;
    for i in 0..records.len() {
        let news = take_one(group, records[i])?;
        changed |= news;
    }
    Ok(changed)
}

/// Takes a record that is true of the group's plan, and returns whether that changed what the group knows.
#[tactic(auto, using(crate::proofs::Taken::changed_one))]
fn take_one(group: &mut Group, entry: Record) -> Result<bool, AllocError>
    requires { IsTrueOfPlan group.old.plan entry }
    ensures ok { OnOk result (group.new ≡ with_records (entry ∷ []) group.old) }
    ensures err { OnErr result (group.new ≡ group.old) }
    ensures changed { IfOk result (λ b. TellsNews group.old group.new b) }
{
    let news = is_news(group.replica(), entry);
    group.take(entry)?;
    Ok(news)
}

/// True if a record says something that isn't known.
fn is_news(known: &Replica, entry: Record) -> bool
    ensures { IsNews known.now entry result }
{
    taking_is_joining();
    states_join_slot_by_slot();
    slots_of_states();
    // (what it knows is what some records say)
    let _ = known.nodes();
    match (known.slot(entry.slot()), entry) {
        (Word::Edge(word), Record::Edge { tick, .. }) => adds(word, FlatWord::Value(tick)),
        (Word::Edge(word), Record::Clash { .. }) => adds(word, FlatWord::Clash),
        (Word::Silence(word), Record::Silence { until, .. }) => adds(word, MaxWord { word: until }),
        _ => unreachable!(),
    }
}

/// True if two words know more together than the first one.
fn adds<W: Join + Copy>(known: W, said: W) -> bool
    ensures { MatchBool result (W.joined known said ≢ known) (W.joined known said ≡ known) }
{
    let mut both = known;
    both.join(&said);
    !both.same(&known)
}
