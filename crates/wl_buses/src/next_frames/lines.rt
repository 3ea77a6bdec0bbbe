//! Laws of several frames on a line, each proved as the contract of a function that does nothing.

ghost use Rattle.std.specs.Prelude.{◌≡◌, ◌+◌, ◌<◌, ◌≤◌, ℕ, suc, List, []};
ghost use Rattle.wl_segments.specs.Lengths.{sample_at};
ghost use Rattle.wl_bound.specs.Conditions.{IsSound};
ghost use Rattle.wl_bound.specs.Families.{Bus};
ghost use Rattle.wl_frame.specs.Grammar.{Content};
ghost use Rattle.wl_node.specs.declared.setup.NodeSetup.{NodeSetup};
ghost use Rattle.wl_node.specs.History.{error_count};
ghost use Rattle.wl_plan.specs.Line.{Line};
ghost use Rattle.wl_plan.specs.PlanLine.{line_of, setup_at};
ghost use Rattle.wl_plan.specs.declared.plan.Plan.{Plan};
ghost use Rattle.wl_buses.specs.OneFrame.Bounds.{HasStations};
ghost use Rattle.wl_buses.specs.OneFrame.Lines.{IsLineOf, node_after};
ghost use Rattle.wl_buses.specs.OneFrame.Plans.{IsPlanOf};
ghost use Rattle.wl_buses.specs.OneFrame.Stations.{AreStations, HaveRoom, Stations};
ghost use Rattle.wl_buses.specs.FirstFrame.Faults.{fault_count};
ghost use Rattle.wl_buses.specs.FirstFrame.FirstFrames.{HasFirstFrames, outset_of, waiting_of};
ghost use Rattle.wl_buses.specs.FirstFrame.FirstStarts.{rest_first};
ghost use Rattle.wl_buses.specs.NextFrames.Frames.{FollowOneAnother, Frame};
ghost use Rattle.wl_buses.specs.NextFrames.Lines.{BeginFrames, IsBeforeLast, LineGoes, finds_frames};
ghost use Rattle.wl_buses.specs.NextFrames.Runs.{HandsBetween};

use crate::next_frames::laws::stations_rest_after_a_frame;
use crate::next_frames::runs::a_node_goes_from_frame_to_frame;

/// Law: so all nodes of a line go from frame to frame, whoever begins each, if all rest before the first one. They drive what is expected in
/// all frames, up to the tick with which the first of them has sampled the third bit of the last intermission. None finds an error. Of each
/// frame the node that has won has sent it, and each other one has received it.
pub fn a_line_goes_from_frame_to_frame()
    ensures { (l : Line) (setups : ℕ → NodeSetup) (s : Stations) (frames : ℕ → Frame) (count stop : ℕ)
        → IsLineOf l setups s → AreStations s → HaveRoom s → (are : FollowOneAnother s frames count) → 0 < count
        → BeginFrames l setups s frames count are → IsBeforeLast l s frames count stop
        → LineGoes l setups s frames count are stop }
{
    crate::both_proofs::laws::what_is_expected_is_driven();
    wl_topology::driven_laws();
    crate::one_frame::before::nothing_is_found_before_a_frame();
    crate::frame_end::laws::machines_answer_as_asked();
    wl_wire::laws::machines_stay_in_step();
    wl_wire::laws::the_least_field_wins();
    wl_machine::laws::a_transmitter_sends_its_head_stuffed();
    wl_frame::laws::a_front_of_no_stuffing_ends_six_equal_bits();
    wl_frame::laws::ten_bits_have_an_edge();
    stations_rest_after_a_frame();
    a_node_goes_from_frame_to_frame();
}

/// Law: so it is with each checked plan of one rate a clock, by the rules of the book, without disturbances and nodes that only listen. Its
/// bus meets the condition for margins. The first of the frames may be the plan's first one, from the power-up of all nodes on.
pub fn a_plan_goes_from_frame_to_frame()
    ensures goes { (plan : Plan) (s : Stations) (bus : Bus) (frames : ℕ → Frame) (count stop : ℕ) → IsPlanOf plan s
        → plan.disturbances ≡ [] → HasStations bus s → IsSound bus
        → (are : FollowOneAnother s frames count) → 0 < count
        → BeginFrames (line_of plan) (setup_at plan) s frames count are
        → IsBeforeLast (line_of plan) s frames count stop
        → LineGoes (line_of plan) (setup_at plan) s frames count are stop }
    ensures power_up { (plan : Plan) (queues : ℕ → List Content) (s : Stations) (bus : Bus) (frames : ℕ → Frame)
        (count stop : ℕ) → IsPlanOf plan s
        → plan.disturbances ≡ [] → HasStations bus s → IsSound bus → HasFirstFrames plan queues s
        → (are : FollowOneAnother s frames count) → 0 < count → (frames 0).outset ≡ outset_of plan queues s
        → ((i : ℕ) → i < s.count → HandsBetween s frames count are i (setup_at plan i)
        (node_after (setup_at plan i) (finds_frames (line_of plan) s frames count i)))
        → IsBeforeLast (line_of plan) s frames count stop
        → LineGoes (line_of plan) (setup_at plan) s frames count are stop }
{
    wl_plan::checked_is_sound();
    crate::one_frame::laws::a_plan_is_on_a_line();
    crate::one_frame::laws::a_sound_bus_has_room();
    crate::first_frame::laws::idle_stations_begin_a_first_frame();
    crate::first_frame::laws::nodes_rest_before_a_first_frame();
    crate::first_frame::laws::a_plan_has_a_first_frame();
    a_line_goes_from_frame_to_frame();
}

/// Law: up to its last bit before the first of these frames nothing has passed a node of such a plan. It has found no error, nor has anything
/// else happened to it that isn't fine.
pub fn nothing_passes_before_the_frames()
    ensures { (plan : Plan) (queues : ℕ → List Content) (s : Stations) (bus : Bus) (frames : ℕ → Frame) (count i q : ℕ)
        → IsPlanOf plan s → plan.disturbances ≡ [] → HasStations bus s → IsSound bus
        → HasFirstFrames plan queues s → FollowOneAnother s frames count → 0 < count
        → (frames 0).outset ≡ outset_of plan queues s → i < s.count
        → q ≤ suc (rest_first (waiting_of plan queues s) i + sample_at (s.lengths i))
        → ((node_after (setup_at plan i) (finds_frames (line_of plan) s frames count i) q).frames ≡ [])
        × (error_count (node_after (setup_at plan i) (finds_frames (line_of plan) s frames count i) q) ≡ 0)
        × (fault_count (node_after (setup_at plan i) (finds_frames (line_of plan) s frames count i) q) ≡ 0) }
{
    wl_plan::checked_is_sound();
    wl_topology::driven_laws();
    crate::one_frame::laws::a_plan_is_on_a_line();
    crate::one_frame::laws::a_sound_bus_has_room();
    crate::one_frame::before::nothing_is_found_before_a_frame();
    crate::first_frame::laws::idle_stations_begin_a_first_frame();
    crate::first_frame::laws::nothing_passes_before_a_first_frame();
    crate::first_frame::laws::a_plan_has_a_first_frame();
    wl_wire::laws::machines_stay_in_step();
    wl_wire::laws::the_least_field_wins();
    wl_machine::laws::a_transmitter_sends_its_head_stuffed();
    wl_frame::laws::a_front_of_no_stuffing_ends_six_equal_bits();
    wl_frame::laws::ten_bits_have_an_edge();
    stations_rest_after_a_frame();
}
