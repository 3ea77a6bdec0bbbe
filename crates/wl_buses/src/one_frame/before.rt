//! Laws of a line before a frame with several senders, each proved as the contract of a function that does nothing.

ghost use Rattle.std.specs.Prelude.{◌≡◌, ◌<◌, ◌≤◌, ℕ, false, None};
ghost use Rattle.wl_topology.specs.Driven.{driven};
ghost use Rattle.wl_machine.specs.Frames.{stuffed_end};
ghost use Rattle.wl_phase.specs.Clocks.{steady_tick};
ghost use Rattle.wl_buses.specs.OneFrame.Expected.{IsOutset, Outset, expected_bits, expected_drove};
ghost use Rattle.wl_buses.specs.OneFrame.Machines.{bus_levels};
ghost use Rattle.wl_buses.specs.OneFrame.Starts.{Drives, reaches_at};
ghost use Rattle.wl_buses.specs.OneFrame.Stations.{AreStations, HaveRoom, Stations};

/// Law: a station finds a silent line before a frame, if all drive what is expected. So it is up to a quantum by which no other station's
/// start of frame has reached it, and by which it hasn't driven its own.
pub fn nothing_is_found_before_a_frame()
    ensures { (s : Stations) (o : Outset) (length i q : ℕ) → AreStations s → HaveRoom s → IsOutset s o
        → ((n : ℕ) → n < length → stuffed_end (bus_levels s (expected_bits s o) n) ≡ None)
        → i < s.count → q ≤ o.start.from i
        → ((k : ℕ) → Drives s o.start i k → steady_tick (s.clocks i) q < reaches_at s o.start k i)
        → driven s.count s.delay (expected_drove s o length) i (steady_tick (s.clocks i) q) ≡ false }
{
    wl_topology::driven_laws();
    wl_wire::laws::machines_stay_in_step();
    wl_wire::laws::the_least_field_wins();
    wl_machine::laws::a_transmitter_sends_its_head_stuffed();
    wl_frame::laws::a_front_of_no_stuffing_ends_six_equal_bits();
    wl_frame::laws::ten_bits_have_an_edge();
}
