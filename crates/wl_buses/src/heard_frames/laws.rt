//! Laws of a listener on a line, each proved as the contract of a function that does nothing.

ghost use Rattle.std.specs.Prelude.{◌≡◌, ◌<◌, ℕ, false};
ghost use Rattle.wl_frame.specs.Grammar.{Content};
ghost use Rattle.wl_node.specs.declared.setup.NodeSetup.{NodeSetup};
ghost use Rattle.wl_plan.specs.Line.{Line};
ghost use Rattle.wl_bound.specs.Conditions.{IsSound};
ghost use Rattle.wl_bound.specs.Families.{Bus};
ghost use Rattle.wl_buses.specs.OneFrame.Answers.{HasRoomToAnswer};
ghost use Rattle.wl_buses.specs.OneFrame.Bounds.{HasStations};
ghost use Rattle.wl_buses.specs.OneFrame.Stations.{AreOnALine, AreStations, HaveRoom, Stations};
ghost use Rattle.wl_buses.specs.FrameEnd.Again.{LeavesRoomToRest};
ghost use Rattle.wl_buses.specs.OneListener.Beside.{with_listener};
ghost use Rattle.wl_buses.specs.OneListener.Muted.{LeavesRoomToListen};
ghost use Rattle.wl_buses.specs.FirstFrame.FirstStarts.{AreIdle, HandTheFirst, Waiting, first_outset};
ghost use Rattle.wl_buses.specs.NextFrames.Frames.{FollowOneAnother, Frame, HasRoomForAll};
ghost use Rattle.wl_buses.specs.HeardFrames.Joined.{JoinsFrames, MayJoin, on_line};
ghost use Rattle.wl_buses.specs.HeardFrames.Listening.{IsListenerOf, OthersDrive, ReceivesEach};
ghost use Rattle.wl_buses.specs.HeardFrames.Room.{HasRoomBeside, MayJoinMuted};
ghost use Rattle.wl_buses.specs.OneListener.Frames.{waiting_with};

/// Law: frames that follow one another on a line do so too with a listener among its stations. Of the others they are the same: each bit begins
/// with the same quanta, and the same is driven. So the listener finds what is expected of all, and it may receive each of them.
pub fn a_listener_joins_frames()
    ensures { (s : Stations) (delay way late : ℕ → ℕ → ℕ) (w : Waiting) (frames : ℕ → Frame) (count : ℕ) (chase : ℕ → ℕ)
        (more : ℕ → ℕ → ℕ) (content : ℕ → Content) → AreStations s → HaveRoom s
        → (follow : FollowOneAnother s frames count)
        → ((n : ℕ) (less : n < count) → (follow.each n less).won.frame ≡ content n)
        → (frames 0).outset ≡ first_outset (record w { stations = s })
        → MayJoin s delay way late w frames count chase more
        → JoinsFrames s delay way late w frames count chase content }
{
    wl_topology::driven_laws();
    wl_wire::laws::machines_stay_in_step();
    wl_wire::laws::the_least_field_wins();
    wl_machine::laws::a_transmitter_sends_its_head_stuffed();
    wl_frame::laws::a_front_of_no_stuffing_ends_six_equal_bits();
    wl_frame::laws::ten_bits_have_an_edge();
    crate::one_frame::ending::the_stuffed_part_ends();
    crate::first_frame::laws::idle_stations_begin_a_first_frame();
    crate::frame_end::laws::the_next_frame_finds_all_at_rest();
    crate::next_frames::begun::one_station_wins();
    crate::next_frames::laws::resting_stations_begin_the_next_frame();
    crate::next_frames::laws::stations_rest_after_a_frame();
}

/// Law: so it is if the stations have room with one more that has no frames, as if they heard it, and eleven bits' drift fits before that one's
/// sample. All are idle before the first frame. What the listener drives then takes so much longer that it comes too late for any bit.
pub fn a_station_with_room_may_join()
    ensures { (s : Stations) (w : Waiting) (frames : ℕ → Frame) (count : ℕ) (chase : ℕ → ℕ) → HasRoomBeside s chase
        → AreIdle (waiting_with s w) → (far : ℕ) × MayJoinMuted s far w frames count chase }
{}

/// Law: a bus has such room for its last node, if that has no frames: the inequalities are those for any senders, as if it spoke, and the one with
/// eleven bits' drift at it. That is so wherever within its tolerance each clock lies. Then all frames of the others can be acknowledged, and
/// all can rest after each, without that node.
pub fn a_bus_has_room_beside()
    ensures room { (bus : Bus) (s : Stations) (chase : ℕ → ℕ) → AreOnALine (with_listener s)
        → HasStations bus (with_listener s) → IsSound bus → HasRoomToAnswer bus chase → LeavesRoomToRest bus chase
        → LeavesRoomToListen bus chase s.count → s.may_send s.count ≡ false → 1 < s.count → HasRoomBeside s chase }
    ensures others { (s : Stations) (chase : ℕ → ℕ) → HasRoomBeside s chase
        → AreStations s × HaveRoom s × HasRoomForAll s chase }
{
    crate::one_frame::laws::a_sound_bus_has_room();
    crate::next_frames::begun::a_bus_has_room_for_all();
    crate::one_listener::laws::a_bus_has_room_to_listen();
}

/// Law: so a listener receives each frame that goes through on a line, from its power-up to the line's end, whenever that is. It needn't hear
/// more than what the others drive, and what it drives itself reaches none of them. It never finds an error, its counters stay 0, and
/// what passes it are the first of these frames, in their order.
pub fn a_listener_receives_each_frame_of_a_line()
    ensures { (l : Line) (setups : ℕ → NodeSetup) (s : Stations) (delay way late : ℕ → ℕ → ℕ) (w : Waiting)
        (frames : ℕ → Frame) (count : ℕ) (chase : ℕ → ℕ) (more : ℕ → ℕ → ℕ) (content : ℕ → Content)
        → AreStations s → HaveRoom s → (follow : FollowOneAnother s frames count)
        → ((n : ℕ) (less : n < count) → (follow.each n less).won.frame ≡ content n) → 0 < count
        → (frames 0).outset ≡ first_outset (record w { stations = s })
        → MayJoin s delay way late w frames count chase more
        → HandTheFirst (waiting_with (on_line s delay way) w) setups
        → IsListenerOf l (setups s.count) (on_line s delay way) → OthersDrive l s frames count
        → (joins : JoinsFrames s delay way late w frames count chase content)
        × ReceivesEach l (setups s.count) (on_line s delay way) joins.joined count content }
{
    wl_topology::driven_laws();
    wl_plan::simulation_laws();
    wl_wire::laws::machines_stay_in_step();
    wl_wire::laws::the_least_field_wins();
    wl_machine::laws::a_transmitter_sends_its_head_stuffed();
    wl_frame::laws::a_front_of_no_stuffing_ends_six_equal_bits();
    wl_frame::laws::ten_bits_have_an_edge();
    crate::one_frame::before::nothing_is_found_before_a_frame();
    crate::frame_end::laws::machines_answer_as_asked();
    crate::frame_end::laws::all_may_begin_again();
    crate::next_frames::laws::stations_rest_after_a_frame();
    crate::next_frames::nodes::a_node_waits_for_the_next_frame();
    crate::next_frames::nodes::a_node_that_finds_its_end_goes_through_the_next_frame();
    crate::next_frames::silence::a_node_rests_for_ever();
    crate::one_listener::laws::a_listener_receives_all_frames_from_its_power_up();
    crate::passed_frames::laws::a_frame_passes_a_node_that_finds_its_end();
    crate::passed_frames::laws::nothing_passes_a_waiting_node();
    crate::passed_frames::laws::what_is_found_stays();
    a_listener_joins_frames();
}
