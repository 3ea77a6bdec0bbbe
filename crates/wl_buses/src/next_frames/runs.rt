//! Laws of several frames on one line, each proved as the contract of a function that does nothing.

ghost use Rattle.std.specs.Prelude.{◌≡◌, ◌+◌, ◌<◌, ◌≤◌, ℕ, suc};
ghost use Rattle.wl_level.specs.declared.Level.{Level};
ghost use Rattle.wl_level.specs.Levels.{level_of};
ghost use Rattle.wl_segments.specs.Lengths.{sample_at};
ghost use Rattle.wl_topology.specs.Driven.{driven};
ghost use Rattle.wl_node.specs.declared.setup.NodeSetup.{NodeSetup};
ghost use Rattle.wl_node.specs.History.{History};
ghost use Rattle.wl_phase.specs.Clocks.{steady_tick};
ghost use Rattle.wl_buses.specs.OneFrame.Lines.{BeginsAfter};
ghost use Rattle.wl_buses.specs.OneFrame.Nodes.{IsRun};
ghost use Rattle.wl_buses.specs.OneFrame.Stations.{AreStations, HaveRoom, Stations};
ghost use Rattle.wl_buses.specs.FrameEnd.Again.{RestsAgain};
ghost use Rattle.wl_buses.specs.NextFrames.Frames.{FollowOneAnother, Frame, frame_drove, frames_drove, third_sample};
ghost use Rattle.wl_buses.specs.NextFrames.Runs.{GoesThroughOne, HandsBetween};

use crate::next_frames::laws::stations_rest_after_a_frame;
use crate::next_frames::nodes::{
    a_node_that_finds_its_end_goes_through_the_next_frame, a_node_waits_for_the_next_frame,
};

/// Law: of several frames that follow one another a station finds one at a time. That is from its third bit of the intermission of one up to
/// that of the next. What reaches it then is what all drive in that frame alone.
pub fn each_frame_is_found_alone()
    ensures { (s : Stations) (frames : ℕ → Frame) (count : ℕ) → AreStations s → HaveRoom s
        → FollowOneAnother s frames count → (n i q : ℕ) → n < count → i < s.count
        → ((j : ℕ) → suc j ≡ n → third_sample s (frames j) i < q)
        → q ≤ third_sample s (frames n) i
        → driven s.count s.delay (frames_drove s frames count) i (steady_tick (s.clocks i) q)
        ≡ driven s.count s.delay (frame_drove s (frames n)) i (steady_tick (s.clocks i) q) }
{
    wl_topology::driven_laws();
    crate::one_frame::before::nothing_is_found_before_a_frame();
    wl_wire::laws::machines_stay_in_step();
    wl_wire::laws::the_least_field_wins();
    wl_machine::laws::a_transmitter_sends_its_head_stuffed();
    wl_frame::laws::a_front_of_no_stuffing_ends_six_equal_bits();
    wl_frame::laws::ten_bits_have_an_edge();
    stations_rest_after_a_frame();
}

/// Law: so a node that rests before the first of these frames goes through all of them as is expected, one after another. It has to find what
/// all drive in all frames. Between two frames it is handed its next frame as that is ready. It samples each bit as it is on the bus, and
/// finds no error. It sends the frame if it has won with it, and else receives it, and then it rests again.
pub fn a_node_goes_from_frame_to_frame()
    ensures { (s : Stations) (frames : ℕ → Frame) (count : ℕ) → AreStations s → HaveRoom s
        → (are : FollowOneAnother s frames count) → (i : ℕ) → i < s.count → (setup : NodeSetup)
        → setup.segments ≡ s.lengths i
        → (levels : ℕ → Level) (node : ℕ → History) → IsRun setup levels node
        → ((n q : ℕ) → n < count → q ≤ third_sample s (frames n) i
        → levels q ≡ level_of (driven s.count s.delay (frames_drove s frames count) i (steady_tick (s.clocks i) q)))
        → (rest since : ℕ) → BeginsAfter s (frames 0).outset i rest
        → RestsAgain s ((frames 0).outset.past i) i levels node rest since → since ≤ rest + sample_at (s.lengths i)
        → HandsBetween s frames count are i setup node
        → (n : ℕ) (less : n < count) → GoesThroughOne s frames count are i since setup levels node n less }
{
    wl_topology::driven_laws();
    crate::one_frame::before::nothing_is_found_before_a_frame();
    crate::frame_end::laws::all_may_begin_again();
    wl_wire::laws::machines_stay_in_step();
    wl_wire::laws::the_least_field_wins();
    wl_machine::laws::a_transmitter_sends_its_head_stuffed();
    wl_frame::laws::a_front_of_no_stuffing_ends_six_equal_bits();
    wl_frame::laws::ten_bits_have_an_edge();
    stations_rest_after_a_frame();
    a_node_waits_for_the_next_frame();
    a_node_that_finds_its_end_goes_through_the_next_frame();
}
