//! Laws of the plans of a family, each proved as the contract of a function that does nothing.
ghost use Rattle.std.specs.Prelude.{◌≡◌, ◌<◌, ℕ, true, None, length, List};
ghost use Rattle.wl_plan.specs.declared.plan.Plan.{Plan};
ghost use Rattle.wl_phase.specs.Clocks.{Steady};
ghost use Rattle.wl_bound.specs.Covered.{is_covered};
ghost use Rattle.wl_bound.specs.Families.{Buses, family_of};
ghost use Rattle.wl_bound.specs.Oscillators.{Pace};
ghost use Rattle.wl_bound.specs.Verdicts.{outside_of};
ghost use Rattle.wl_bound.specs.Rooms.{IsShort, least_chase, leaves_room, plain_bus};
ghost use Rattle.wl_buses.specs.BothProofs.Plans.{IsOfFamily};
ghost use Rattle.wl_buses.specs.BothProofs.Plans.{IsSteadyPlan};
ghost use Rattle.wl_buses.specs.OneFrame.Answers.{HasRoomToAnswer};
ghost use Rattle.wl_buses.specs.OneFrame.Bounds.{HasStations};
ghost use Rattle.wl_buses.specs.OneFrame.Plans.{IsPlanOf};
ghost use Rattle.wl_buses.specs.OneFrame.Stations.{Stations};
ghost use Rattle.wl_buses.specs.FirstFrame.FirstFrames.{AreIdleWhenReady, HasFirstFrames, HasFrames, queues_of};
ghost use Rattle.wl_buses.specs.FrameEnd.Again.{LeavesRoomToRest};
ghost use Rattle.wl_buses.specs.FamilyPlans.FamilyStations.{AreContents, NoneListens, SendAsFamily, stations_of};

/// Law: a family whose bus leaves room has it for acknowledgements, and to rest after each frame. Each node catches up in the least number of
/// edges that does.
pub fn a_family_leaves_room()
    ensures answers { (f : Buses) → leaves_room f ≡ true → HasRoomToAnswer (plain_bus f) (least_chase (plain_bus f)) }
    ensures rests { (f : Buses) → leaves_room f ≡ true → LeavesRoomToRest (plain_bus f) (least_chase (plain_bus f)) }
{
    wl_bound::room_law();
}

/// Law: the test asks no more of a bus than that. Let it have the room with any numbers of edges in which nodes catch up. Then it passes,
/// since it has the room with the least ones. Its quanta are short, as those of oscillators are.
pub fn no_more_room_is_asked()
    ensures { (f : Buses) (chase : ℕ → ℕ) → IsShort f → HasRoomToAnswer (plain_bus f) chase
        → LeavesRoomToRest (plain_bus f) chase → leaves_room f ≡ true }
{}

/// Law: the nodes of a family's plan are stations, and the bus of the family is theirs, if none only listens.
pub fn a_plan_has_stations()
    ensures plan { (f : Buses) (plan : Plan) (clocks : ℕ → Steady) → IsSteadyPlan plan clocks → IsOfFamily f plan clocks
        → NoneListens plan → IsPlanOf plan (stations_of f plan clocks) }
    ensures bus { (f : Buses) (plan : Plan) (clocks : ℕ → Steady) → IsOfFamily f plan clocks → NoneListens plan
        → HasStations (plain_bus f) (stations_of f plan clocks) }
{}

/// Law: a plan that is covered, and in which the condition has no cause to say nothing, has first frames that find all other nodes idle.
/// None of its nodes only listens, and no two have frames of one field.
pub fn a_covered_plan_has_first_frames()
    ensures speaks { (plan : Plan) → is_covered plan ≡ true → NoneListens plan }
    ensures sends { (plan : Plan) (paces : List Pace) → length paces ≡ length plan.nodes
        → SendAsFamily (family_of plan paces) plan }
    ensures frames { (f : Buses) (plan : Plan) (clocks : ℕ → Steady) → outside_of plan ≡ None → AreContents plan
        → SendAsFamily f plan → HasFrames plan (queues_of plan) (stations_of f plan clocks) }
    ensures idle { (plan : Plan) (s : Stations) → is_covered plan ≡ true → s.count ≡ length plan.nodes
        → AreIdleWhenReady plan s }
    ensures first { (f : Buses) (plan : Plan) (clocks : ℕ → Steady) → IsSteadyPlan plan clocks
        → IsOfFamily f plan clocks → is_covered plan ≡ true → outside_of plan ≡ None → AreContents plan
        → SendAsFamily f plan
        → HasFirstFrames plan (queues_of plan) (stations_of f plan clocks) }
{
    crate::first_frame::laws::a_plan_has_a_first_frame();
    a_plan_has_stations();
}
