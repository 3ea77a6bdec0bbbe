//! Laws of waits on a bus, each proved as the contract of a function that does nothing.

ghost use Rattle.std.specs.Prelude.{◌≡◌, ℕ, ◌<◌, true};
ghost use Rattle.wl_counts.specs.Instances.{AreEnoughByInstances};
ghost use Rattle.wl_counts.specs.Waits.{HaveWindows};
ghost use Rattle.wl_phase.specs.Clocks.{Steady};
ghost use Rattle.wl_bound.specs.Covered.{is_covered};
ghost use Rattle.wl_bound.specs.Families.{Buses};
ghost use Rattle.wl_bound.specs.Rooms.{least_chase, leaves_room, plain_bus};
ghost use Rattle.wl_bound.specs.Verdicts.{verdict_of};
ghost use Rattle.wl_bound.specs.declared.verdict.Verdict.TheVariants.{ForAny};
ghost use Rattle.wl_node.specs.declared.setup.Queued.{Queued};
ghost use Rattle.wl_plan.specs.declared.plan.Plan.{Plan};
ghost use Rattle.wl_plan.specs.PlanLine.{setup_at};
ghost use Rattle.wl_buses.specs.BothProofs.Plans.{IsOfFamily, IsSteadyPlan};
ghost use Rattle.wl_buses.specs.OneFrame.Plans.{IsPlanOf};
ghost use Rattle.wl_buses.specs.OneFrame.Stations.{AreStations, HaveRoom, Stations};
ghost use Rattle.wl_buses.specs.FirstFrame.FirstFrames.{HasFirstFrames, queues_of};
ghost use Rattle.wl_buses.specs.NextFrames.Frames.{HasRoomForAll};
ghost use Rattle.wl_buses.specs.FamilyPlans.FamilyStations.{AreContents, SendAsFamily, stations_of};
ghost use Rattle.wl_buses.specs.CleanPlans.Clean.{AllGetThrough};
ghost use Rattle.wl_buses.specs.CleanPlans.PlanFrames.{FramesOfPlan};
ghost use Rattle.wl_buses.specs.FrameTimes.BusTimes.{bus_times};
ghost use Rattle.wl_buses.specs.FrameTimes.Times.{TakeNoLonger, Times};
ghost use Rattle.wl_buses.specs.TakesPart.Decisions.{AllMayDecide, LeavesRoomToDecide};
ghost use Rattle.wl_buses.specs.BoundedWaits.Bounds.{IsOnBus, PassInTime, WaitInQuanta, WaitNoLonger};
ghost use Rattle.wl_buses.specs.BoundedWaits.Lasting.{LastNoLonger, PassNoLonger};
ghost use Rattle.wl_buses.specs.BoundedWaits.Messages.{AreReadyLate, BusDelaysNoLonger, DelayNoLonger, Delays};
ghost use Rattle.wl_buses.specs.BoundedWaits.Messages.{HaveMessages, IsEntry, Messages, terms_of};
ghost use Rattle.wl_buses.specs.BoundedWaits.QueuedFrames.{AreQueuedFrames, BlockNoLonger, QueuedFrames, Terms, frames_in, table_by};

/// Law: each frame of a bus has its window. It goes back to the first frame after which all win without a gap, and within the level of the
/// frame's node. Before that one is a frame beyond the level, or a gap, or the power-up. Each frame of the window became ready later than
/// its instant less `early`: at a node that mixes levels by its own bound, at each other one by `lead`.
pub fn a_busy_period_goes_back_to()
    ensures { (x : QueuedFrames) (t : Terms) (blocking r : ℕ → ℕ) → AreQueuedFrames x t → 0 < t.lead
        → BlockNoLonger t blocking → HaveWindows (table_by t blocking r) (frames_in x) r x.count }
{
    wl_counts::laws::periods_give_a_curve();
}

/// Law: let the frames of a plan go on until all queues are empty. Then each entry of each queue is one of the frames on the bus, whatever the
/// order of the queue is. So they do, whenever the plan ends.
pub fn each_entry_comes_on_the_bus()
    ensures { (plan : Plan) (s : Stations) (chase : ℕ → ℕ) → IsPlanOf plan s → AreStations s → HaveRoom s
        → HasRoomForAll s chase → HasFirstFrames plan (queues_of plan) s → (bus : FramesOfPlan plan s)
        × ((i a : ℕ) (entry : Queued) → i < s.count → IsEntry (setup_at plan) i a entry
        → IsOnBus plan s bus i a entry) }
{
    crate::first_frame::laws::a_plan_has_a_first_frame();
    crate::sent_frames::winners::the_winner_sends_its_next_frame();
    crate::clean_plans::laws::the_frames_of_a_plan();
}

/// Law: no frame on the bus of a plan waits longer than the bound of its message, from `ready` to the sample with which it is sent. It is
/// enough that bounds and windows pass an inequality for each instance of a message in its window. So it is whatever the offsets are, and
/// wherever each clock lies. No frame may last longer than the times say (`LastNoLonger`, `PassNoLonger`).
pub fn waits_are_bounded_if_frames_last_no_longer()
    ensures { (plan : Plan) (s : Stations) (bus : FramesOfPlan plan s) (t : Times) (ms : Messages) (d : Delays)
        (chase blocking whole r : ℕ → ℕ) (w : ℕ → ℕ → ℕ) → IsPlanOf plan s → AreStations s → HaveRoom s
        → HasRoomForAll s chase → AllMayDecide s chase → HasFirstFrames plan (queues_of plan) s → LastNoLonger s t
        → PassNoLonger s t
        → HaveMessages s (setup_at plan) ms → AreReadyLate s (setup_at plan) → DelayNoLonger s t ms d
        → BlockNoLonger (terms_of t ms d) blocking
        → AreEnoughByInstances (table_by (terms_of t ms d) blocking r) d.period whole w r
        → WaitNoLonger plan s bus t ms r }
{
    wl_counts::laws::periods_give_a_curve();
    wl_counts::laws::no_frame_waits_longer_by_instances();
    crate::first_frame::laws::a_plan_has_a_first_frame();
    crate::next_frames::laws::stations_rest_after_a_frame();
    crate::sent_frames::winners::the_winner_sends_its_next_frame();
    crate::takes_part::laws::who_is_ready_takes_part();
    crate::takes_part::laws::who_loses_has_begun_with_its_next_frame();
    crate::takes_part::laws::nobody_decides_twice();
    crate::takes_part::laws::a_frame_begins_before_later_ones();
}

/// Law: so no frame waits longer than the bound of its message, if the bounds pass. On each plan of stations with room that is so in exact
/// units. Let the condition for margins hold for any senders on a family, its bus leave room, and a bit be there at each sample after
/// twelve bits' drift. Then all frames get through, and on each plan of the family none waits longer in quanta of its node. Whoever has
/// been for longer than that after a frame of its own was ready has sent it.
pub fn waits_are_bounded()
    ensures plan { (plan : Plan) (s : Stations) (bus : FramesOfPlan plan s) (t : Times) (ms : Messages) (d : Delays)
        (chase blocking whole r : ℕ → ℕ) (w : ℕ → ℕ → ℕ) → IsPlanOf plan s → AreStations s → HaveRoom s
        → HasRoomForAll s chase → AllMayDecide s chase → HasFirstFrames plan (queues_of plan) s → TakeNoLonger s t
        → HaveMessages s (setup_at plan) ms → AreReadyLate s (setup_at plan) → DelayNoLonger s t ms d
        → BlockNoLonger (terms_of t ms d) blocking
        → AreEnoughByInstances (table_by (terms_of t ms d) blocking r) d.period whole w r
        → WaitNoLonger plan s bus t ms r }
    ensures covered { (f : Buses) (plan : Plan) (clocks : ℕ → Steady) (ms : Messages) (d : Delays)
        (blocking whole r : ℕ → ℕ) (w : ℕ → ℕ → ℕ) → IsSteadyPlan plan clocks → IsOfFamily f plan clocks
        → AreContents plan → SendAsFamily f plan
        → verdict_of plan f ≡ ForAny → is_covered plan ≡ true → leaves_room f ≡ true
        → LeavesRoomToDecide (plain_bus f) (least_chase (plain_bus f))
        → HaveMessages (stations_of f plan clocks) (setup_at plan) ms
        → AreReadyLate (stations_of f plan clocks) (setup_at plan) → BusDelaysNoLonger (plain_bus f) ms d
        → BlockNoLonger (terms_of (bus_times (plain_bus f)) ms d) blocking
        → AreEnoughByInstances (table_by (terms_of (bus_times (plain_bus f)) ms d) blocking r) d.period whole w r
        → (all : AllGetThrough plan (stations_of f plan clocks))
        × WaitInQuanta plan (stations_of f plan clocks) all.bus ms (plain_bus f).shortest r
        × PassInTime plan (stations_of f plan clocks) all ms (plain_bus f).shortest r }
{
    wl_bound::condition_laws();
    crate::one_frame::laws::a_plan_is_on_a_line();
    crate::one_frame::laws::a_sound_bus_has_room();
    crate::family_plans::laws::a_family_leaves_room();
    crate::family_plans::laws::a_plan_has_stations();
    crate::family_plans::laws::a_covered_plan_has_first_frames();
    crate::next_frames::begun::a_bus_has_room_for_all();
    crate::clean_plans::laws::any_senders_are_clean();
    crate::takes_part::laws::a_bus_has_room_to_decide();
    crate::frame_times::laws::a_frame_lasts_no_longer();
    crate::frame_times::laws::a_bus_has_times();
    waits_are_bounded_if_frames_last_no_longer();
}
