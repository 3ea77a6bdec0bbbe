//! Laws of groups as their calls see them.

ghost use Rattle.wl_group.specs.ValueLaws.{ValueLaws};
ghost use Rattle.wl_group.specs.GroupLaws.{GroupLaws, WaveIsLevel};
ghost use Rattle.wl_group.specs.AdvanceLaws.{AdvanceLaws};
ghost use Rattle.wl_group.specs.Led.{LedLaws};
ghost use Rattle.wl_group.specs.PartyLaws.{PartyLaws};

/// Law: what holds of groups as their calls see them: each group begins, takes and runs as the party of the
/// machine that it is, what it emits is true, and it stays where the one-thread simulation has it.
pub fn value_laws()
    ensures { ValueLaws }
{
    wl_record_core::table_laws();
    wl_replica::slots_laws();
    wl_replica::known_laws();
    wl_replica::slots_of_states();
    wl_replica::taking_is_joining();
    wl_replica::joining_is_a_join();
    wl_plan::simulation_laws();
    wl_plan::checked_is_sound();
}

/// Law: every replica of true records agrees with the one-thread simulation: below each node's horizon
/// its wave is the node's level there. Workers and groups rest on this, whatever way records came.
pub fn true_replicas_agree()
    ensures { WaveIsLevel }
{
    group_laws();
}

/// Law: what holds of groups on every sound line. What an advance emits is true, and a quantum that may run reads the line as it is. Taking
/// what is true or advancing keeps each member where the one-thread simulation has it.
pub fn group_laws()
    ensures { GroupLaws }
{
    wl_record_core::table_laws();
    wl_replica::slots_laws();
    wl_replica::known_laws();
    wl_plan::simulation_laws();
}

/// Law: what an advance replies. It emits exactly if the node may run its next quantum. It has ended exactly if the node is a member whose
/// next quantum is not below the end. It is blocked otherwise. If it does not emit, nothing changes. What a group has emitted grows by
/// exactly what its advances emitted.
#[tactic(auto, using(crate::proofs::AdvanceProofs::advance_laws))]
pub fn advance_laws()
    ensures { AdvanceLaws }
{}

/// Law: of a family of parties or members with one put at a place, that one is there, and all others are as they were. True records
/// that are appended to true ones are true.
#[tactic(auto, using(crate::proofs::Facts::party_laws))]
pub fn party_laws()
    ensures { PartyLaws }
{}

/// Law: what a group takes that is true, what its members run and what begins again leads its party to the party that it is then. So
/// whatever a group does, one after another, is a list of deliveries, advances and restarts.
pub fn led_laws()
    ensures { LedLaws }
{
    value_laws();
    group_laws();
    wl_record_core::table_laws();
    wl_replica::slots_laws();
    wl_replica::known_laws();
    wl_replica::slots_of_states();
    wl_plan::simulation_laws();
    wl_plan::checked_is_sound();
}
