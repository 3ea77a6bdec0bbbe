//! Laws of all frames on the bus of a plan, each proved as the contract of a function that does nothing.

ghost use Rattle.std.specs.Prelude.{◌≡◌, ◌<◌, ◌≤◌, ℕ, suc, true, []};
ghost use Rattle.wl_plan.specs.declared.plan.Plan.{Plan};
ghost use Rattle.wl_phase.specs.Clocks.{Steady, steady_tick};
ghost use Rattle.wl_bound.specs.Conditions.{IsSound};
ghost use Rattle.wl_bound.specs.Covered.{is_covered};
ghost use Rattle.wl_bound.specs.Families.{Bus, Buses};
ghost use Rattle.wl_bound.specs.Verdicts.{verdict_of};
ghost use Rattle.wl_bound.specs.declared.verdict.Verdict.TheVariants.{ForAny};
ghost use Rattle.wl_bound.specs.Rooms.{leaves_room, plain_bus};
ghost use Rattle.wl_buses.specs.BothProofs.Plans.{IsOfFamily};
ghost use Rattle.wl_buses.specs.BothProofs.Plans.{IsSteadyPlan};
ghost use Rattle.wl_buses.specs.OneFrame.Answers.{HasRoomToAnswer};
ghost use Rattle.wl_buses.specs.OneFrame.Bounds.{HasStations};
ghost use Rattle.wl_buses.specs.OneFrame.Expected.{expected_sample};
ghost use Rattle.wl_buses.specs.OneFrame.Plans.{IsPlanOf};
ghost use Rattle.wl_buses.specs.OneFrame.Stations.{AreStations, HaveRoom, Stations};
ghost use Rattle.wl_buses.specs.FirstFrame.FirstFrames.{HasFirstFrames, queues_of};
ghost use Rattle.wl_buses.specs.FrameEnd.Again.{LeavesRoomToRest};
ghost use Rattle.wl_buses.specs.FamilyPlans.FamilyStations.{AreContents, NoneListens, SendAsFamily, stations_of};
ghost use Rattle.wl_buses.specs.NextFrames.Frames.{FollowOneAnother, Frame, HasRoomForAll, third_sample};
ghost use Rattle.wl_buses.specs.CleanPlans.Clean.{AllGetThrough};
ghost use Rattle.wl_buses.specs.CleanPlans.PlanFrames.{FirstFramesOfPlan};

/// Law: on the bus of each such plan frames follow one another as its queues hand them, from the power-up of all nodes on. There is any number
/// of them, up to the one with which every queue is empty. The stations have room for acknowledgements and rest, whoever wins.
pub fn the_frames_of_a_plan()
    ensures { (plan : Plan) (s : Stations) (chase : ℕ → ℕ) (most : ℕ) → IsPlanOf plan s → AreStations s → HaveRoom s
        → HasRoomForAll s chase → HasFirstFrames plan (queues_of plan) s → FirstFramesOfPlan plan s most }
{
    crate::first_frame::laws::a_plan_has_a_first_frame();
    crate::clean_lines::laws::the_frames_of_a_line();
}

/// Law: of frames that follow one another each node samples every bit later than the third bit of the intermission of the one before. So frame n
/// ends there after tick n.
pub fn each_frame_ends_later()
    ensures grows { (s : Stations) (frames : ℕ → Frame) (count : ℕ) → AreStations s → HaveRoom s
        → FollowOneAnother s frames count → (n bit i : ℕ) → suc n < count → i < s.count
        → third_sample s (frames n) i < expected_sample s (frames (suc n)).outset bit i }
    ensures later { (s : Stations) (frames : ℕ → Frame) (count : ℕ) → AreStations s → HaveRoom s
        → FollowOneAnother s frames count → (n i : ℕ) → n < count → i < s.count
        → n < steady_tick (s.clocks i) (suc (third_sample s (frames n) i)) }
{
    wl_topology::driven_laws();
    wl_wire::laws::machines_stay_in_step();
    wl_wire::laws::the_least_field_wins();
    wl_machine::laws::a_transmitter_sends_its_head_stuffed();
    wl_frame::laws::a_front_of_no_stuffing_ends_six_equal_bits();
    wl_frame::laws::ten_bits_have_an_edge();
    crate::next_frames::laws::resting_stations_begin_the_next_frame();
    crate::next_frames::laws::stations_rest_after_a_frame();
}

/// Law: all frames get through on each such plan, from the power-up of all nodes to its end. The plan is checked, with one rate a clock, by the
/// book, without disturbances and nodes that only listen. Its bus meets the condition for margins, and has room for acknowledgements and to rest.
/// Some nodes have frames, and each has sampled eleven bits before another one's start of frame reaches it. Then no node ever finds an error, and
/// all counters stay 0. What passes each are the first frames of one list, in which those of each queue are in their order.
///
/// Let the condition hold for a family, and its bus leave room. Then it is so on each of its plans, wherever within its tolerance each clock
/// lies, and whenever each node begins. What `margin` tests before it says that this is proved is enough.
pub fn any_senders_are_clean()
    ensures room { (plan : Plan) (s : Stations) (chase : ℕ → ℕ) → IsPlanOf plan s → plan.disturbances ≡ []
        → AreStations s → HaveRoom s → HasRoomForAll s chase → HasFirstFrames plan (queues_of plan) s
        → AllGetThrough plan s }
    ensures plan { (plan : Plan) (s : Stations) (bus : Bus) (chase : ℕ → ℕ) → IsPlanOf plan s → plan.disturbances ≡ []
        → HasStations bus s → IsSound bus → HasRoomToAnswer bus chase → LeavesRoomToRest bus chase
        → HasFirstFrames plan (queues_of plan) s → AllGetThrough plan s }
    ensures family { (f : Buses) (plan : Plan) (clocks : ℕ → Steady) → IsSteadyPlan plan clocks
        → IsOfFamily f plan clocks → NoneListens plan → HasFirstFrames plan (queues_of plan) (stations_of f plan clocks)
        → leaves_room f ≡ true → IsSound (plain_bus f) → AllGetThrough plan (stations_of f plan clocks) }
    ensures covered { (f : Buses) (plan : Plan) (clocks : ℕ → Steady) → IsSteadyPlan plan clocks
        → IsOfFamily f plan clocks → AreContents plan → SendAsFamily f plan → verdict_of plan f ≡ ForAny
        → is_covered plan ≡ true → leaves_room f ≡ true → AllGetThrough plan (stations_of f plan clocks) }
{
    wl_bound::condition_laws();
    wl_plan::checked_is_sound();
    crate::one_frame::laws::a_plan_is_on_a_line();
    crate::one_frame::laws::a_sound_bus_has_room();
    crate::first_frame::laws::a_plan_has_a_first_frame();
    crate::family_plans::laws::a_family_leaves_room();
    crate::family_plans::laws::a_plan_has_stations();
    crate::family_plans::laws::a_covered_plan_has_first_frames();
    crate::next_frames::begun::a_bus_has_room_for_all();
    crate::clean_lines::laws::all_frames_of_a_line_get_through();
}
