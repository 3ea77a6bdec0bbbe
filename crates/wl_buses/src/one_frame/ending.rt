//! Laws of the end of a frame's stuffed part with several senders, each proved as the contract of a function that does nothing.

ghost use Rattle.std.specs.Prelude.{ℕ};
ghost use Rattle.wl_buses.specs.OneFrame.Ends.{HasStuffedBits};
ghost use Rattle.wl_buses.specs.OneFrame.Expected.{IsOutset, Outset};
ghost use Rattle.wl_buses.specs.OneFrame.Stations.{AreStations, HaveRoom, Stations};

/// Law: a frame that stations are expected to drive has a last bit of its CRC sequence, whoever sends.
pub fn the_stuffed_part_ends()
    ensures { (s : Stations) (o : Outset) → AreStations s → HaveRoom s → IsOutset s o
        → (length : ℕ) × HasStuffedBits s o length }
{
    wl_wire::laws::machines_stay_in_step();
    wl_wire::laws::the_least_field_wins();
    wl_machine::laws::a_transmitter_sends_its_head_stuffed();
    wl_frame::laws::a_front_of_no_stuffing_ends_six_equal_bits();
    wl_frame::laws::ten_bits_have_an_edge();
}
