//! Laws of a line after its last frame, each proved as the contract of a function that does nothing.

ghost use Rattle.std.specs.Prelude.{◌≡◌, ◌+◌, ◌<◌, ◌≤◌, ℕ, suc, List, [], None};
ghost use Rattle.wl_level.specs.declared.Level.{Level};
ghost use Rattle.wl_level.specs.declared.Level.TheVariants.{Recessive};
ghost use Rattle.wl_segments.specs.Lengths.{sample_at};
ghost use Rattle.wl_machine.specs.Stretch.{Input, free};
ghost use Rattle.wl_machine.specs.Judged.{stretch_of};
ghost use Rattle.wl_machine.specs.States.{stretch_by};
ghost use Rattle.wl_node.specs.declared.setup.NodeSetup.{NodeSetup};
ghost use Rattle.wl_node.specs.History.{History, unsent_of};
ghost use Rattle.wl_plan.specs.Line.{Line};
ghost use Rattle.wl_plan.specs.PlanLine.{line_of, setup_at};
ghost use Rattle.wl_plan.specs.declared.plan.Plan.{Plan};
ghost use Rattle.wl_bound.specs.Conditions.{IsSound};
ghost use Rattle.wl_bound.specs.Families.{Bus};
ghost use Rattle.wl_buses.specs.OneFrame.Bounds.{HasStations};
ghost use Rattle.wl_buses.specs.OneFrame.Lines.{IsLineOf};
ghost use Rattle.wl_buses.specs.OneFrame.Nodes.{IsRun};
ghost use Rattle.wl_buses.specs.OneFrame.Plans.{IsPlanOf};
ghost use Rattle.wl_buses.specs.OneFrame.Stations.{AreOnALine, AreStations, HaveRoom, Stations};
ghost use Rattle.wl_buses.specs.FrameEnd.Again.{RestsAgain};
ghost use Rattle.wl_buses.specs.NextFrames.Frames.{FollowOneAnother, Frame};
ghost use Rattle.wl_buses.specs.NextFrames.Lines.{BeginFrames};
ghost use Rattle.wl_buses.specs.NextFrames.Silence.{AllAreSent, LineFallsSilent, StillRests};

use crate::next_frames::laws::stations_rest_after_a_frame;
use crate::next_frames::runs::a_node_goes_from_frame_to_frame;

/// Law: a node that rests and has sent all frames of its queue rests as long as its line is silent: it drives recessive, no frame passes it,
/// and it finds no error, nor does anything else happen to it that isn't fine.
pub fn a_node_rests_for_ever()
    ensures { (s : Stations) (past : List Input) (i : ℕ) (setup : NodeSetup) (levels : ℕ → Level) (node : ℕ → History)
        (rest since : ℕ) → AreOnALine s → i < s.count → setup.segments ≡ s.lengths i → IsRun setup levels node
        → RestsAgain s past i levels node rest since → since ≤ rest + sample_at (s.lengths i)
        → stretch_of past ≡ stretch_by (free None) []
        → unsent_of setup (node (suc (rest + sample_at (s.lengths i)))) ≡ [] → (q : ℕ)
        → rest + sample_at (s.lengths i) < q
        → ((j : ℕ) → rest + sample_at (s.lengths i) < j → j < q → levels j ≡ Recessive)
        → StillRests node (suc (rest + sample_at (s.lengths i))) q }
{
    crate::one_frame::laws::a_station_begins_its_bits();
    crate::one_frame::laws::no_edge_counts_then();
}

/// Law: so all nodes of a line rest for ever after the last of these frames, if each has sent its queue by then. They drive what is expected
/// in all frames up to the line's end, and nothing after the last one.
pub fn a_line_rests_after_its_frames()
    ensures { (l : Line) (setups : ℕ → NodeSetup) (s : Stations) (frames : ℕ → Frame) (count stop : ℕ)
        → IsLineOf l setups s → AreStations s → HaveRoom s → (are : FollowOneAnother s frames count) → 0 < count
        → BeginFrames l setups s frames count are → AllAreSent l setups s frames count → stop ≤ l.stop
        → LineFallsSilent l setups s frames count are stop }
{
    crate::both_proofs::laws::what_is_expected_is_driven();
    wl_topology::driven_laws();
    crate::one_frame::before::nothing_is_found_before_a_frame();
    crate::frame_end::laws::machines_answer_as_asked();
    crate::frame_end::laws::all_may_begin_again();
    wl_wire::laws::machines_stay_in_step();
    wl_wire::laws::the_least_field_wins();
    wl_machine::laws::a_transmitter_sends_its_head_stuffed();
    wl_frame::laws::a_front_of_no_stuffing_ends_six_equal_bits();
    wl_frame::laws::ten_bits_have_an_edge();
    stations_rest_after_a_frame();
    a_node_goes_from_frame_to_frame();
    a_node_rests_for_ever();
}

/// Law: so it is with each plan of such nodes, if its bus meets the condition for margins.
pub fn a_plan_rests_after_its_frames()
    ensures { (plan : Plan) (s : Stations) (bus : Bus) (frames : ℕ → Frame) (count stop : ℕ) → IsPlanOf plan s
        → plan.disturbances ≡ [] → HasStations bus s → IsSound bus
        → (are : FollowOneAnother s frames count) → 0 < count
        → BeginFrames (line_of plan) (setup_at plan) s frames count are
        → AllAreSent (line_of plan) (setup_at plan) s frames count → stop ≤ (line_of plan).stop
        → LineFallsSilent (line_of plan) (setup_at plan) s frames count are stop }
{
    wl_plan::checked_is_sound();
    crate::one_frame::laws::a_plan_is_on_a_line();
    crate::one_frame::laws::a_sound_bus_has_room();
    a_line_rests_after_its_frames();
}
