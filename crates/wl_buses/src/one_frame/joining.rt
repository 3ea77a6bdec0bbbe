//! Laws of stations that join a start of frame, each proved as the contract of a function that does nothing.

ghost use Rattle.std.specs.Prelude.{◌≡◌, ◌<◌, ℕ, true, None};
ghost use Rattle.wl_frame.specs.Grammar.{Content};
ghost use Rattle.wl_machine.specs.Frames.{stuffed_end};
ghost use Rattle.wl_buses.specs.OneFrame.Expected.{IsOutset, Outset, expected_bits};
ghost use Rattle.wl_buses.specs.OneFrame.Joins.{JoinsWith};
ghost use Rattle.wl_buses.specs.OneFrame.Machines.{bus_levels};
ghost use Rattle.wl_buses.specs.OneFrame.Stations.{AreStations, HaveRoom, Stations};

/// Law: a station that joins a start of frame, in the third bit of its intermission, sends its own frame from the identifier on. It drives no
/// start of frame, and the frame is the one that it is handed with its sample of that. It still sends until it has lost the arbitration
/// (Bosch CAN 2.0 part B, section 3.2.5).
pub fn a_station_that_joins_still_sends()
    ensures { (s : Stations) (o : Outset) (length : ℕ) → AreStations s → HaveRoom s → IsOutset s o → 0 < length
        → ((n : ℕ) → n < length → stuffed_end (bus_levels s (expected_bits s o) n) ≡ None) → (k : ℕ) → k < s.count
        → o.start.joins k ≡ true → (frame : Content) × JoinsWith s o length k frame }
{
    wl_wire::laws::machines_stay_in_step();
    wl_wire::laws::the_least_field_wins();
    wl_machine::laws::a_transmitter_sends_its_head_stuffed();
    wl_frame::laws::a_front_of_no_stuffing_ends_six_equal_bits();
    wl_frame::laws::ten_bits_have_an_edge();
}
