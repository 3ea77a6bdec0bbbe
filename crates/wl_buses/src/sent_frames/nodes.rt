//! Laws of what a node has sent by its queue, each proved as the contract of a function that does nothing.

ghost use Rattle.std.specs.Prelude.{◌≡◌, ◌+◌, ◌<◌, ◌≤◌, ℕ, suc, []};
ghost use Rattle.wl_level.specs.declared.Level.{Level};
ghost use Rattle.wl_level.specs.Levels.{level_of};
ghost use Rattle.wl_segments.specs.Lengths.{sample_at};
ghost use Rattle.wl_topology.specs.Driven.{driven};
ghost use Rattle.wl_node.specs.declared.setup.NodeSetup.{NodeSetup};
ghost use Rattle.wl_node.specs.History.{History};
ghost use Rattle.wl_phase.specs.Clocks.{steady_tick};
ghost use Rattle.wl_buses.specs.OneFrame.Lines.{BeginsAfter};
ghost use Rattle.wl_buses.specs.OneFrame.Nodes.{IsRun};
ghost use Rattle.wl_buses.specs.OneFrame.Stations.{AreStations, HaveRoom, Stations};
ghost use Rattle.wl_buses.specs.FirstFrame.Faults.{fault_count};
ghost use Rattle.wl_buses.specs.FrameEnd.Again.{RestsAgain};
ghost use Rattle.wl_buses.specs.NextFrames.Frames.{FollowOneAnother, Frame, frames_drove, third_sample};
ghost use Rattle.wl_buses.specs.SentFrames.Sending.{ByQueues, PassesAll};

/// Law: a node that rests before the first of some frames, and that no frame has passed, hands its machine all frames of its queue as they are
/// counted. After each frame it has sent those with which it has won, and received each other one. It has found no error.
pub fn a_queue_hands_all_its_frames()
    ensures { (s : Stations) (setups : ℕ → NodeSetup) (frames : ℕ → Frame) (count : ℕ) → AreStations s → HaveRoom s
        → (are : FollowOneAnother s frames count) → (by : ByQueues s setups frames count are)
        → (i : ℕ) → i < s.count → (setups i).segments ≡ s.lengths i
        → (levels : ℕ → Level) (node : ℕ → History) → IsRun (setups i) levels node
        → ((n q : ℕ) → n < count → q ≤ third_sample s (frames n) i
        → levels q ≡ level_of (driven s.count s.delay (frames_drove s frames count) i (steady_tick (s.clocks i) q)))
        → (rest since : ℕ) → BeginsAfter s (frames 0).outset i rest
        → RestsAgain s ((frames 0).outset.past i) i levels node rest since → since ≤ rest + sample_at (s.lengths i)
        → (node (suc (rest + sample_at (s.lengths i)))).frames ≡ []
        → fault_count (node (suc (rest + sample_at (s.lengths i)))) ≡ 0
        → PassesAll s setups frames count are by i node }
{
    wl_topology::driven_laws();
    crate::one_frame::before::nothing_is_found_before_a_frame();
    crate::frame_end::laws::all_may_begin_again();
    wl_wire::laws::machines_stay_in_step();
    wl_wire::laws::the_least_field_wins();
    wl_machine::laws::a_transmitter_sends_its_head_stuffed();
    wl_frame::laws::a_front_of_no_stuffing_ends_six_equal_bits();
    wl_frame::laws::ten_bits_have_an_edge();
    crate::next_frames::laws::stations_rest_after_a_frame();
    crate::next_frames::nodes::a_node_waits_for_the_next_frame();
    crate::next_frames::nodes::a_node_that_finds_its_end_goes_through_the_next_frame();
    crate::passed_frames::laws::what_is_found_stays();
    crate::passed_frames::laws::a_frame_passes_a_node();
    crate::passed_frames::laws::nothing_passes_a_waiting_node();
}
