//! Laws of a plan whose nodes send by their queues, each proved as the contract of a function that does nothing.

ghost use Rattle.std.specs.Prelude.{◌≡◌, ◌<◌, ℕ, []};
ghost use Rattle.wl_bound.specs.Conditions.{IsSound};
ghost use Rattle.wl_bound.specs.Families.{Bus};
ghost use Rattle.wl_plan.specs.PlanLine.{line_of, setup_at};
ghost use Rattle.wl_plan.specs.declared.plan.Plan.{Plan};
ghost use Rattle.wl_buses.specs.OneFrame.Bounds.{HasStations};
ghost use Rattle.wl_buses.specs.OneFrame.Plans.{IsPlanOf};
ghost use Rattle.wl_buses.specs.OneFrame.Stations.{Stations};
ghost use Rattle.wl_buses.specs.FirstFrame.FirstFrames.{HasFirstFrames, outset_of, queues_of};
ghost use Rattle.wl_buses.specs.NextFrames.Frames.{FollowOneAnother, Frame};
ghost use Rattle.wl_buses.specs.NextFrames.Lines.{IsBeforeLast, LineGoes};
ghost use Rattle.wl_buses.specs.SentFrames.Sending.{ByQueues, LineSends};

use crate::sent_frames::nodes::a_queue_hands_all_its_frames;
use crate::sent_frames::winners::the_winner_sends_its_next_frame;

/// Law: so it is on each checked plan of one rate a clock, by the rules of the book, without disturbances and nodes that only listen. Its bus
/// meets the condition for margins, and the first frame is that of the power-up. Then every node hands its frames by its queue. After each frame
/// it has sent those with which it has won, which are the first of its queue, received each other one, and found no error.
pub fn a_plan_sends_by_its_queues()
    ensures { (plan : Plan) (s : Stations) (bus : Bus) (frames : ℕ → Frame) (count : ℕ) → IsPlanOf plan s
        → plan.disturbances ≡ [] → HasStations bus s → IsSound bus → HasFirstFrames plan (queues_of plan) s
        → (are : FollowOneAnother s frames count) → 0 < count → (frames 0).outset ≡ outset_of plan (queues_of plan) s
        → (by : ByQueues s (setup_at plan) frames count are)
        → LineSends (line_of plan) (setup_at plan) s frames count are by }
{
    wl_plan::checked_is_sound();
    wl_topology::driven_laws();
    crate::one_frame::laws::a_plan_is_on_a_line();
    crate::one_frame::laws::a_sound_bus_has_room();
    crate::one_frame::before::nothing_is_found_before_a_frame();
    crate::first_frame::laws::idle_stations_begin_a_first_frame();
    crate::first_frame::laws::nodes_rest_before_a_first_frame();
    crate::first_frame::laws::a_plan_has_a_first_frame();
    wl_wire::laws::machines_stay_in_step();
    wl_wire::laws::the_least_field_wins();
    wl_machine::laws::a_transmitter_sends_its_head_stuffed();
    wl_frame::laws::a_front_of_no_stuffing_ends_six_equal_bits();
    wl_frame::laws::ten_bits_have_an_edge();
    crate::next_frames::laws::stations_rest_after_a_frame();
    crate::next_frames::lines::nothing_passes_before_the_frames();
    a_queue_hands_all_its_frames();
    the_winner_sends_its_next_frame();
}

/// Law: so the nodes of such a plan go from frame to frame.
pub fn a_plan_goes_by_its_queues()
    ensures { (plan : Plan) (s : Stations) (bus : Bus) (frames : ℕ → Frame) (count stop : ℕ) → IsPlanOf plan s
        → plan.disturbances ≡ [] → HasStations bus s → IsSound bus → HasFirstFrames plan (queues_of plan) s
        → (are : FollowOneAnother s frames count) → 0 < count → (frames 0).outset ≡ outset_of plan (queues_of plan) s
        → ByQueues s (setup_at plan) frames count are → IsBeforeLast (line_of plan) s frames count stop
        → LineGoes (line_of plan) (setup_at plan) s frames count are stop }
{
    crate::next_frames::lines::a_plan_goes_from_frame_to_frame();
    a_plan_sends_by_its_queues();
}
