//! What a fetch finds: what a pass sees in a hub that a group does not know yet.
ghost use Rattle.std.specs.Prelude.{◌≡◌, ◌≢◌, ◌<◌, ◌≤◌, ◌||◌, ℕ, false, All, IfOk, IfSome, IfNone, length, unwrap_or};
ghost use Rattle.wl_lattice.specs.declared.FlatWord.TheVariants.{Nothing};
ghost use Rattle.wl_record_core.specs.declared.record.Record.TheVariants.{Edge, Silence};
ghost use Rattle.wl_record_core.specs.declared.record.Slot.{Slot as Place};
ghost use Rattle.wl_record_core.specs.declared.record.Slot.TheVariants.{EdgeAt, SilenceAt};
ghost use Rattle.wl_replica.specs.State.{edge_at, silence_at};
ghost use Rattle.wl_plan.specs.PlanLine.{IsTrueOfPlan};
ghost use Rattle.wl_group.specs.GroupValue.{belongs};
ghost use Rattle.wl_hub.specs.Words.{HasWord};
ghost use Rattle.wl_hub.specs.Passes.{IsPassOf, pass_name, shape_of, seen};
ghost use Rattle.wl_worker.specs.Handed.{Took, TellsNews};
ghost use Rattle.wl_worker.specs.Seen.{IsUnseen, SawOnlyOf, HasChanges, HasSeenOf, HandsSeen};
ghost use Rattle.wl_worker.specs.PlanName.{IsOfPlan, IsTrueOfName};

use crate::plan_name::PlanName;
use std::alloc::AllocError;
use wl_group::Group;
use wl_hub::{Hub, Pass, words_tell_records};
use wl_lattice::FlatWord;
use wl_mail::taking_laws;
use wl_plan::checked_is_sound;
use wl_record_core::{Record, Slot};
use wl_replica::{Word, slots_of_states, states_join_slot_by_slot};
use wl_topology::MOST_NODES;

/// True if one of the two is.
fn either(one: bool, other: bool) -> bool
    ensures { result ≡ (one || other) }
{
    one || other
}

/// Returns the tick of a change, if the hub has it.
fn edge_seen(hub: &Hub<PlanName>, pass: &mut Pass<PlanName>, node: u8, seq: u32) -> Option<u64>
    requires here { IsPassOf hub.now pass.old }
    ensures here { IsPassOf hub.now pass.new }
    ensures name { pass_name pass.new ≡ pass_name pass.old }
    ensures truth { IfSome result (λ tick. IsTrueOfName (pass_name pass.old) (Edge node seq tick)) }
    ensures unseen { IfNone result (IsUnseen hub.now pass.new (EdgeAt node seq)) }
    ensures others { (slot : Place) → slot ≢ EdgeAt node seq → seen pass.new slot ≡ seen pass.old slot }
{
    words_tell_records::<PlanName>();
    let slot = Slot::EdgeAt { node, seq };
    if !hub.has_word(slot) {
        return None;
    }
    let word = hub.look(pass, slot);
    if word == 0 {
        return None;
    }
    Some(word - 1)
}

/// Returns how far the silence after this many changes reaches, if the hub has one.
fn silence_seen(hub: &Hub<PlanName>, pass: &mut Pass<PlanName>, node: u8, count: u32) -> Option<u64>
    requires here { IsPassOf hub.now pass.old }
    ensures here { IsPassOf hub.now pass.new }
    ensures name { pass_name pass.new ≡ pass_name pass.old }
    ensures truth { IfSome result (λ until. IsTrueOfName (pass_name pass.old) (Silence node count until)) }
    ensures seen { HasWord (shape_of hub.now) (SilenceAt node count)
        → seen pass.new (SilenceAt node count) ≡ unwrap_or result 0 }
    ensures others { (slot : Place) → slot ≢ SilenceAt node count → seen pass.new slot ≡ seen pass.old slot }
{
    words_tell_records::<PlanName>();
    let slot = Slot::SilenceAt { node, count };
    if !hub.has_word(slot) {
        return None;
    }
    let word = hub.look(pass, slot);
    if word == 0 {
        return None;
    }
    Some(word)
}

/// Takes an edge about which the group knows nothing yet. True if it took it.
#[tactic(auto, using(crate::proofs::Took::took_nothing, crate::proofs::Took::took_one, crate::proofs::Took::edge_changes))]
fn learn_edge(group: &mut Group, node: u8, seq: u32, tick: u64) -> Result<bool, AllocError>
    requires { IsTrueOfPlan group.old.plan (Edge node seq tick) }
    ensures took { Took group.old group.new }
    ensures changed { IfOk result (λ b. TellsNews group.old group.new b) }
    ensures known { IfOk result (λ _. edge_at group.new.replica (node, seq) ≢ Nothing) }
{
    taking_laws();
    slots_of_states();
    let Word::Edge(FlatWord::Nothing) = group.replica().slot(Slot::EdgeAt { node, seq }) else {
        return Ok(false);
    };
    group.take(Record::Edge { node, seq, tick })?;
    Ok(true)
}

/// Takes a silence that reaches further than what the group knows. True if it took it.
#[tactic(auto, using(crate::proofs::Took::took_nothing, crate::proofs::Took::took_one, crate::proofs::Took::silence_changes))]
fn learn_silence(group: &mut Group, node: u8, count: u32, until: u64) -> Result<bool, AllocError>
    requires { IsTrueOfPlan group.old.plan (Silence node count until) }
    ensures took { Took group.old group.new }
    ensures changed { IfOk result (λ b. TellsNews group.old group.new b) }
    ensures known { IfOk result (λ _. until ≤ (silence_at group.new.replica (node, count)).word) }
{
    taking_laws();
    slots_of_states();
    let known = match group.replica().slot(Slot::SilenceAt { node, count }) {
        Word::Silence(known) => known.word,
        Word::Edge(_) => unreachable!(),
    };
    if until <= known {
        return Ok(false);
    }
    group.take(Record::Silence { node, count, until })?;
    Ok(true)
}

/// Takes the changes of a node that the hub has, from change `first` on, up to one that it hasn't. Returns whether some were taken, and the
/// number of that one.
#[tactic(auto, using(crate::proofs::Took::took_nothing, crate::proofs::Took::took_both, crate::proofs::Named::still_of))]
fn learn_edges(
    hub: &Hub<PlanName>,
    pass: &mut Pass<PlanName>,
    group: &mut Group,
    node: u8,
    first: u32,
) -> Result<(bool, u32), AllocError>
    requires here { IsPassOf hub.now pass.old }
    requires of { IsOfPlan hub.now pass.old group.old.plan }
    ensures here { IsPassOf hub.now pass.new }
    ensures name { pass_name pass.new ≡ pass_name pass.old }
    ensures took { Took group.old group.new }
    ensures changed { IfOk result (λ r. TellsNews group.old group.new r.0) }
    ensures others { SawOnlyOf node pass.old pass.new }
    ensures known { IfOk result (λ r. HasChanges group.old node first → HasChanges group.new node r.1) }
    ensures no_more { IfOk result (λ r. IsUnseen hub.now pass.new (EdgeAt node r.1)) }
{
    taking_laws();
    states_join_slot_by_slot();
    checked_is_sound();
    let mut came = false;
    let mut next = first;
    for seq in first..u32::MAX {
        let Some(tick) = edge_seen(hub, pass, node, seq) else {
            break;
        };
        let taken = learn_edge(group, node, seq, tick)?;
        came = either(came, taken);
        next = seq + 1;
    }
    Ok((came, next))
}

/// Takes what the hub has of a node's next changes and of the silence after them, if the node is no member. Returns whether something was
/// taken. `handed` is how many of its changes were handed over so far.
#[tactic(auto, using(crate::proofs::Took::took_nothing, crate::proofs::Took::took_both, crate::proofs::Named::still_of))]
fn learn_node(
    hub: &Hub<PlanName>,
    pass: &mut Pass<PlanName>,
    group: &mut Group,
    node: u8,
    handed: &mut u32,
) -> Result<bool, AllocError>
    requires here { IsPassOf hub.now pass.old }
    requires of { IsOfPlan hub.now pass.old group.old.plan }
    ensures here { IsPassOf hub.now pass.new }
    ensures name { pass_name pass.new ≡ pass_name pass.old }
    ensures took { Took group.old group.new }
    ensures changed { IfOk result (λ b. TellsNews group.old group.new b) }
    ensures others { SawOnlyOf node pass.old pass.new }
    ensures known { IfOk result (λ _. belongs group.old node ≡ false → HasChanges group.old node handed.old
        → HasSeenOf hub.now pass.new group.new node handed.new) }
{
    taking_laws();
    states_join_slot_by_slot();
    if group.has(node) {
        return Ok(false);
    }
    let (edges, next) = learn_edges(hub, pass, group, node, *handed)?;
    *handed = next;
    let Some(until) = silence_seen(hub, pass, node, next) else {
        return Ok(edges);
    };
    let silence = learn_silence(group, node, next, until)?;
    Ok(either(edges, silence))
}

/// For each node that there may be, how many of its changes were handed to a group.
pub(crate) type Handed = [u32; MOST_NODES];

/// Returns the state in which nothing was handed over.
pub(crate) fn nothing_handed() -> Handed
    ensures { All (λ count. count ≡ 0) result }
{
    [0; MOST_NODES]
}

/// Takes what the hub has of all nodes that are no members of the group. Returns whether something was taken.
#[tactic(auto, using(crate::proofs::Took::took_nothing, crate::proofs::Took::took_both, crate::proofs::Named::still_of))]
pub(crate) fn learn_all(
    hub: &Hub<PlanName>,
    pass: &mut Pass<PlanName>,
    group: &mut Group,
    handed: &mut Handed,
) -> Result<bool, AllocError>
    requires here { IsPassOf hub.now pass.old }
    requires of { IsOfPlan hub.now pass.old group.old.plan }
    ensures here { IsPassOf hub.now pass.new }
    ensures name { pass_name pass.new ≡ pass_name pass.old }
    ensures took { Took group.old group.new }
    ensures changed { IfOk result (λ b. TellsNews group.old group.new b) }
    ensures known { IfOk result (λ _. HandsSeen hub.now pass.new handed.old handed.new group.old group.new) }
{
    taking_laws();
    states_join_slot_by_slot();
    let mut came = false;
    let nodes = group.plan().nodes();
    for node in 0..nodes {
        let taken = learn_node(hub, pass, group, node, &mut handed[node as usize])?;
        came = either(came, taken);
    }
    Ok(came)
}
