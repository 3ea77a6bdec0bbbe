//! Laws of plans and of the one-thread simulation, as contracts of functions with an empty body.

ghost use Rattle.wl_plan.specs.SimulationLaws.{SimulationLaws, OutcomeIsTrue};
ghost use Rattle.wl_plan.specs.Rest.{RestLaw};
ghost use Rattle.wl_plan.specs.Changes.{ChangesAreFew};
ghost use Rattle.wl_plan.specs.Checked.{FaultlessIsChecked, CheckedIsSound};
ghost use Rattle.wl_plan.specs.Groupings.{GroupingLaws};
ghost use Rattle.wl_plan.specs.PlanLine.{TestOfTruth};

/// Law: what holds of the tick-by-tick simulation of every line: where each node is before a tick, at
/// which ticks its drive changes, and that what was driven stays.
pub fn simulation_laws()
    ensures { SimulationLaws }
{
    wl_topology::driven_laws();
    wl_record_core::table_laws();
}

/// Law: on a line at rest no node changes its drive. Let what the nodes have driven, and the disturbances, arrive recessive at each node
/// from its next quantum on and below some tick. Let no node drive dominant by then as long as it sees recessive only. Then none does.
pub fn a_line_at_rest_stays()
    ensures { RestLaw }
{
    wl_topology::driven_laws();
    wl_record_core::table_laws();
}

/// Law: the records that an outcome gives are true and within: each change of a node with its number,
/// and all of them with the silence up to the end.
pub fn outcome_is_true()
    ensures { OutcomeIsTrue }
{
    simulation_laws();
}

/// Law: a plan whose clocks, segments and cable are what their types keep has no fault exactly if it can be run.
pub fn faultless_is_checked()
    ensures { FaultlessIsChecked }
{
    wl_clock::ticks_increase();
}

/// Law: the line of a plan that can be run is sound: causes come before effects, and no number outgrows what a record can name.
pub fn checked_is_sound()
    ensures { CheckedIsSound }
{
    wl_level::place_laws();
    wl_clock::ticks_increase();
    wl_node::drive_laws();
    simulation_laws();
}

/// Law: a node of a checked plan, `k` of whose quanta begin before the end, changes its drive at most `k / (least_way + 1) + 1` times,
/// rounded down (`Segments::least_way`, in quanta).
pub fn changes_are_few()
    ensures { ChangesAreFew }
{
    wl_level::place_laws();
    wl_node::drive_laws();
    simulation_laws();
    checked_is_sound();
}

#[tactic(auto, using(crate::proofs::GroupingProofs::grouping_laws))]
/// Law: each node is in one of the groups, and the last one has a node. A group's members are the nodes in it, each once.
pub fn grouping_laws()
    ensures { GroupingLaws }
{}

/// Law: the truth of a record by cases, of the table of a plan's changes, and the test of it agree.
pub fn test_of_truth()
    ensures { TestOfTruth }
{}
