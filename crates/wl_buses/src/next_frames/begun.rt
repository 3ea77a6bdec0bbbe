//! Laws of the frames that stations begin, each proved as the contract of a function that does nothing.

ghost use Rattle.std.specs.Prelude.{ℕ};
ghost use Rattle.wl_bound.specs.Families.{Bus};
ghost use Rattle.wl_buses.specs.OneFrame.Answers.{HasRoomToAnswer};
ghost use Rattle.wl_buses.specs.OneFrame.Bounds.{HasStations};
ghost use Rattle.wl_buses.specs.OneFrame.Expected.{IsOutset, Outset, expected_bits};
ghost use Rattle.wl_buses.specs.OneFrame.Machines.{HasWon};
ghost use Rattle.wl_buses.specs.OneFrame.Stations.{AreOnALine, AreStations, HaveRoom, Stations};
ghost use Rattle.wl_buses.specs.FrameEnd.Again.{LeavesRoomToRest};
ghost use Rattle.wl_buses.specs.FrameEnd.Asked.{EndsBefore};
ghost use Rattle.wl_buses.specs.NextFrames.Frames.{IsBegunAfter, Frame, HasRoomForAll, IsBegun};
ghost use Rattle.wl_buses.specs.NextFrames.NextStarts.{HaveMore};

use crate::next_frames::laws::{
    resting_stations_begin_the_next_frame, stations_rest_after_a_frame,
};

/// Law: one station has won each frame that stations begin, whoever begins it, by the end of its CRC sequence.
pub fn one_station_wins()
    ensures { (s : Stations) (o : Outset) (end : ℕ) → AreStations s → HaveRoom s → IsOutset s o → EndsBefore s o end
        → HasWon s (expected_bits s o) o.frames end }
{
    wl_topology::driven_laws();
    crate::one_frame::laws::one_frame_is_left();
    crate::one_frame::laws::what_is_expected_is_a_course();
    crate::one_frame::laws::all_sample_the_same_bits();
    wl_wire::laws::machines_stay_in_step();
    wl_wire::laws::the_least_field_wins();
    wl_machine::laws::a_transmitter_sends_its_head_stuffed();
    wl_frame::laws::a_front_of_no_stuffing_ends_six_equal_bits();
    wl_frame::laws::ten_bits_have_an_edge();
}

/// Law: so each frame that stations begin has a number of bits and a winner, and can be acknowledged, if there is room for that whoever
/// wins. Another frame follows it, if some station has one left, whenever each decides to send.
pub fn another_frame_follows()
    ensures first { (s : Stations) (o : Outset) (chase : ℕ → ℕ) → AreStations s → HaveRoom s → HasRoomForAll s chase
        → IsOutset s o → (bits : ℕ) × IsBegun s (record { outset = o; bits = bits }) }
    ensures next { (s : Stations) (a : Frame) (chase sent decides : ℕ → ℕ) → AreStations s → HaveRoom s
        → HasRoomForAll s chase → IsBegun s a → HaveMore s a.outset.frames sent
        → (b : Frame) × IsBegun s b × IsBegunAfter s a b }
{
    wl_topology::driven_laws();
    crate::one_frame::laws::one_frame_is_left();
    crate::one_frame::laws::what_is_expected_is_a_course();
    crate::one_frame::laws::all_sample_the_same_bits();
    crate::one_frame::ending::the_stuffed_part_ends();
    wl_wire::laws::machines_stay_in_step();
    wl_wire::laws::the_least_field_wins();
    wl_machine::laws::a_transmitter_sends_its_head_stuffed();
    wl_frame::laws::a_front_of_no_stuffing_ends_six_equal_bits();
    wl_frame::laws::ten_bits_have_an_edge();
    resting_stations_begin_the_next_frame();
    stations_rest_after_a_frame();
}

/// Law: a bus has that room whoever wins if it meets the inequalities for acknowledgements and for rest, wherever within its tolerance each
/// clock lies.
pub fn a_bus_has_room_for_all()
    ensures { (bus : Bus) (s : Stations) (chase : ℕ → ℕ) → AreOnALine s → HasStations bus s → HasRoomToAnswer bus chase
        → LeavesRoomToRest bus chase → HasRoomForAll s chase }
{
    crate::one_frame::ack::a_bus_has_room_to_answer();
    crate::frame_end::laws::a_bus_has_room_to_rest();
}
