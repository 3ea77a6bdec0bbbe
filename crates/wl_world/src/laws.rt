//! Laws of worlds, as contracts of functions with an empty body: the headline, and that no schedule stalls.

ghost use Rattle.wl_world.specs.Ended.{EndLaws};
ghost use Rattle.wl_world.specs.Faithful.{WorldsAreFaithful, WorldsDoNotStall};
ghost use Rattle.wl_world.specs.Headline.{Headline, NoStall};
ghost use Rattle.wl_world.specs.Settling.{SettlingLaws};

/// Law: whatever the groups do, in whatever order records come, repeated or late, whoever joins or restarts, three things hold. Every
/// emitted record is true. Replicas that took the same records are equal. Below each horizon, at each node and in each read, all is as in
/// the one-thread simulation.
pub fn headline()
    ensures { Headline }
{
    wl_replica::same_records_same_state();
    wl_replica::taking_is_joining();
    wl_replica::joining_is_a_join();
    wl_replica::slots_of_states();
    wl_replica::known_laws();
    wl_group::group_laws();
    wl_group::party_laws();
}

/// Law: the headline of a world as its calls see it. What was emitted is true. Each group knows nothing but the truth, and below each
/// horizon its wave is the level of the one-thread simulation. Each node is where that has it after the same number of quanta.
pub fn worlds_are_faithful()
    ensures { WorldsAreFaithful }
{
    headline();
    wl_replica::slots_of_states();
    wl_plan::checked_is_sound();
    wl_plan::simulation_laws();
    wl_plan::grouping_laws();
}

/// Law: if each group has taken all that was emitted, some node can advance, or all are at the end: the groups never wait for each other in
/// a ring. So it is in every world in which each group knows all that was emitted, whatever way it came to know it.
pub fn no_stall()
    ensures scenes { NoStall }
    ensures worlds { WorldsDoNotStall }
{
    wl_replica::known_laws();
    wl_replica::taking_is_joining();
    wl_replica::slots_of_states();
    wl_plan::checked_is_sound();
    wl_plan::simulation_laws();
    wl_plan::grouping_laws();
    wl_group::group_laws();
    wl_group::party_laws();
    wl_group::value_laws();
}

/// Law: what settling rests on. Each advance runs one of the quanta that are left, a delivery none. No quantum is left exactly if all nodes
/// are at the end. What is delivered is taken and stays. Rounds of deliveries to all and of advances until none can end with all nodes at
/// the end, and there are no more of them than quanta were left. A world's value says how many are left, and where the end is.
pub fn settling_laws()
    ensures scenes { SettlingLaws }
    ensures worlds { EndLaws }
{
    wl_plan::simulation_laws();
    wl_plan::checked_is_sound();
    wl_plan::grouping_laws();
    wl_replica::known_laws();
    wl_group::group_laws();
    wl_group::party_laws();
}
