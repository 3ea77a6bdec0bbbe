//! Laws of all frames on a line, each proved as the contract of a function that does nothing.

ghost use Rattle.std.specs.Prelude.{◌≡◌, ◌+◌, ◌<◌, ℕ, length};
ghost use Rattle.wl_node.specs.declared.setup.NodeSetup.{NodeSetup};
ghost use Rattle.wl_plan.specs.Line.{Line};
ghost use Rattle.wl_plan.specs.Simulation.{AreInside};
ghost use Rattle.wl_buses.specs.BothProofs.Queues.{queued_contents};
ghost use Rattle.wl_buses.specs.OneFrame.Stations.{AreStations, HaveRoom};
ghost use Rattle.wl_buses.specs.FirstFrame.FirstStarts.{AreIdle, HandTheFirst, Waiting};
ghost use Rattle.wl_buses.specs.NextFrames.Frames.{HasRoomForAll};
ghost use Rattle.wl_buses.specs.CleanLines.Lines.{FirstFramesOfLine, IsPoweredUp, LineGetsThrough, line_history};
ghost use Rattle.wl_buses.specs.FrameTimes.Times.{TakeNoLonger, Times, start_place, tail_time, whole_instant};

/// Law: on a line whose nodes wait for a first frame frames follow one another as the queues hand them. There is any number of them, up to the
/// one with which every queue is empty. The stations have room for acknowledgements and rest, whoever wins.
pub fn the_frames_of_a_line()
    ensures { (setups : ℕ → NodeSetup) (w : Waiting) (chase : ℕ → ℕ) (most : ℕ) → AreStations w.stations
        → HaveRoom w.stations → HasRoomForAll w.stations chase → AreIdle w
        → HandTheFirst w setups → ((i : ℕ) → w.frames i ≡ queued_contents (setups i).queue)
        → FirstFramesOfLine setups w most }
{
    crate::first_frame::laws::idle_stations_begin_a_first_frame();
    crate::next_frames::laws::resting_stations_begin_the_next_frame();
    crate::next_frames::laws::stations_rest_after_a_frame();
    crate::next_frames::begun::another_frame_follows();
    crate::sent_frames::winners::the_winner_sends_its_next_frame();
}

/// Law: all frames get through on each such line, from the power-up of all nodes to its end, whenever that is. No node ever finds an error, and
/// all counters stay 0. What passes each are the first frames of one list. Each is the one that its sender's queue handed it as it decided.
pub fn all_frames_of_a_line_get_through()
    ensures { (l : Line) (setups : ℕ → NodeSetup) (w : Waiting) (chase : ℕ → ℕ) → IsPoweredUp l setups w
        → AreStations w.stations → HaveRoom w.stations → HasRoomForAll w.stations chase
        → LineGetsThrough l setups w }
{
    wl_topology::driven_laws();
    crate::one_frame::before::nothing_is_found_before_a_frame();
    crate::first_frame::laws::idle_stations_begin_a_first_frame();
    crate::first_frame::laws::nodes_rest_before_a_first_frame();
    crate::first_frame::laws::nothing_passes_before_a_first_frame();
    wl_wire::laws::machines_stay_in_step();
    wl_wire::laws::the_least_field_wins();
    wl_machine::laws::a_transmitter_sends_its_head_stuffed();
    wl_frame::laws::a_front_of_no_stuffing_ends_six_equal_bits();
    wl_frame::laws::ten_bits_have_an_edge();
    crate::next_frames::laws::stations_rest_after_a_frame();
    crate::next_frames::lines::a_line_goes_from_frame_to_frame();
    crate::next_frames::silence::a_line_rests_after_its_frames();
    crate::passed_frames::laws::what_is_found_stays();
    crate::sent_frames::nodes::a_queue_hands_all_its_frames();
    crate::sent_frames::winners::the_winner_sends_its_next_frame();
    crate::clean_plans::laws::each_frame_ends_later();
    the_frames_of_a_line();
}

/// Law: on such a line each frame has passed every node by its tail after its winner's start of frame. So it is at each quantum up to the end
/// of the line.
pub fn the_frames_of_a_line_pass_in_time()
    ensures { (l : Line) (setups : ℕ → NodeSetup) (w : Waiting) (t : Times) → AreStations w.stations
        → HaveRoom w.stations → TakeNoLonger w.stations t → (all : LineGetsThrough l setups w)
        → (i k n : ℕ) → i < w.stations.count → AreInside l i k → n < all.bus.count
        → whole_instant t (w.stations.clocks (all.bus.by.winner n))
        (start_place w.stations (all.bus.frames n) (all.bus.by.winner n))
        + tail_time t (all.bus.frames n).bits < whole_instant t (w.stations.clocks i) k
        → n < length (line_history l setups i k).frames }
{
    crate::frame_times::laws::a_frame_lasts_no_longer();
    crate::frame_times::laws::times_add_up();
}
