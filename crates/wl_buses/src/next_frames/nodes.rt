//! Laws of a node from one frame to the next, each proved as the contract of a function that does nothing.

ghost use Rattle.std.specs.Prelude.{◌≡◌, ◌++◌, ◌∷◌, ◌+◌, ◌<◌, ◌≤◌, ℕ, suc, List, [], None, slice_get};
ghost use Rattle.wl_level.specs.declared.Level.{Level};
ghost use Rattle.wl_level.specs.declared.Level.TheVariants.{Recessive};
ghost use Rattle.wl_level.specs.Levels.{level_of};
ghost use Rattle.wl_confine.specs.declared.Mode.TheVariants.{Active};
ghost use Rattle.wl_segments.specs.Lengths.{sample_at};
ghost use Rattle.wl_topology.specs.Driven.{driven};
ghost use Rattle.wl_machine.specs.Stretch.{Input};
ghost use Rattle.wl_machine.specs.Stretch.Input.{Sample};
ghost use Rattle.wl_machine.specs.Frames.{stuffed_end};
ghost use Rattle.wl_node.specs.declared.setup.NodeSetup.{NodeSetup};
ghost use Rattle.wl_node.specs.History.{History, unsent_of};
ghost use Rattle.wl_phase.specs.Clocks.{steady_tick};
ghost use Rattle.wl_wire.specs.Wire.{Handed, sampled};
ghost use Rattle.wl_buses.specs.OneFrame.Expected.{IsOutset, Outset, expected_bits, expected_drove, expected_sample};
ghost use Rattle.wl_buses.specs.OneFrame.Lines.{BeginsAfter};
ghost use Rattle.wl_buses.specs.OneFrame.Machines.{HasWon, bus_levels};
ghost use Rattle.wl_buses.specs.BothProofs.Queues.{head_at};
ghost use Rattle.wl_buses.specs.OneFrame.Nodes.{HandsAsExpected, IsRun};
ghost use Rattle.wl_buses.specs.OneFrame.Stations.{AreOnALine, AreStations, HaveRoom, Stations};
ghost use Rattle.wl_buses.specs.FrameEnd.Again.{RestsAgain};
ghost use Rattle.wl_buses.specs.FrameEnd.Asked.{CanBeAnswered, EndsBefore};
ghost use Rattle.wl_buses.specs.FrameEnd.Finds.{FindsTheEnd, finds_at};
ghost use Rattle.wl_buses.specs.FrameEnd.Third.{RestsInThird};
ghost use Rattle.wl_buses.specs.NextFrames.NextNodes.{BeginsSince, GoesThrough, HandsNext};
ghost use Rattle.wl_buses.specs.NextFrames.NextStarts.{AreFreeNext, AreResting, Resting, outset_next, rest_next, rested, start_next};

/// Law: a node that rests goes on to rest on a silent line, up to its last bit before the next frame. With the samples of these bits its
/// machine is handed no frame, but with the last one its own if it begins one. No frame passes the node, and nothing counts.
pub fn a_node_waits_for_the_next_frame()
    ensures { (r : Resting) (before : ℕ → List Input) → AreOnALine r.stations → AreResting r
        → AreFreeNext r.stations.count r.frames before → (i : ℕ) → i < r.stations.count
        → (setup : NodeSetup) → setup.segments ≡ r.stations.lengths i → (levels : ℕ → Level) (node : ℕ → History)
        → IsRun setup levels node → (handed : Handed) → handed.mode ≡ Active → (since : ℕ) → since ≤ rested r i
        → RestsAgain r.stations (before i ++ Sample (sampled Recessive (r.frames i) handed)
        ∷ []) i levels node (r.place i) since
        → ((q : ℕ) → rested r i < q → q < (start_next r).from i → levels q ≡ Recessive)
        → HandsNext r i (slice_get (r.frames i) handed.which)
        (head_at setup (unsent_of setup (node (suc (rested r i)))))
        → RestsAgain r.stations ((outset_next r before).past i) i levels node (rest_next r i) since
        × ((node (suc (rest_next r i + sample_at (r.stations.lengths i)))).frames ≡ (node (suc (rested r i))).frames) }
{
    crate::one_frame::waits::idle_machines_may_wait();
    crate::one_frame::laws::a_station_begins_its_bits();
    crate::one_frame::laws::no_edge_counts_then();
}

/// Law: a node that rests begins a frame as is expected, whatever it has done before, if it finds from then on what is expected of that
/// frame. It begins it by itself, or by the edge of another one's start of frame.
pub fn a_node_begins_the_next_frame()
    ensures { (s : Stations) (o : Outset) (length i rest since : ℕ) (setup : NodeSetup) (levels : ℕ → Level)
        (node : ℕ → History) → AreStations s → HaveRoom s → IsOutset s o → 0 < length
        → ((n : ℕ) → n < length → stuffed_end (bus_levels s (expected_bits s o) n) ≡ None) → i < s.count
        → setup.segments ≡ s.lengths i → IsRun setup levels node → BeginsAfter s o i rest
        → RestsAgain s (o.past i) i levels node rest since → since ≤ rest + sample_at (s.lengths i)
        → ((q : ℕ) → rest + sample_at (s.lengths i) < q → q ≤ expected_sample s o 0 i
        → levels q ≡ level_of (driven s.count s.delay (expected_drove s o length) i (steady_tick (s.clocks i) q)))
        → BeginsSince s o i levels node since }
{
    wl_topology::driven_laws();
    crate::one_frame::laws::a_station_begins_its_bits();
    crate::one_frame::laws::no_edge_counts_then();
    wl_sync::clock_goes_on();
    wl_phase::laws::an_edge_moves_the_sample();
    wl_wire::laws::machines_stay_in_step();
    wl_wire::laws::the_least_field_wins();
    wl_machine::laws::a_transmitter_sends_its_head_stuffed();
    wl_frame::laws::a_front_of_no_stuffing_ends_six_equal_bits();
    wl_frame::laws::ten_bits_have_an_edge();
}

/// Law: so does a node that is in the third bit of its intermission. The edge of another one's start of frame synchronises it hard. With its
/// sample of that its queue hands it its frame, or none (Bosch CAN 2.0 part B, section 3.2.5).
pub fn a_node_in_its_third_bit_begins_the_next_frame()
    ensures { (s : Stations) (o : Outset) (length i rest since : ℕ) (setup : NodeSetup) (levels : ℕ → Level)
        (node : ℕ → History) → AreStations s → HaveRoom s → IsOutset s o → 0 < length
        → ((n : ℕ) → n < length → stuffed_end (bus_levels s (expected_bits s o) n) ≡ None) → i < s.count
        → setup.segments ≡ s.lengths i → IsRun setup levels node → BeginsAfter s o i rest
        → RestsInThird s (o.past i) i levels node rest since → since ≤ rest + sample_at (s.lengths i)
        → HandsAsExpected s o i setup node
        → ((q : ℕ) → rest + sample_at (s.lengths i) < q → q ≤ expected_sample s o 0 i
        → levels q ≡ level_of (driven s.count s.delay (expected_drove s o length) i (steady_tick (s.clocks i) q)))
        → BeginsSince s o i levels node since }
{
    wl_topology::driven_laws();
    crate::one_frame::laws::a_station_begins_its_bits();
    crate::one_frame::laws::no_edge_counts_then();
    wl_sync::clock_goes_on();
    wl_phase::laws::an_edge_moves_the_sample();
    wl_wire::laws::machines_stay_in_step();
    wl_wire::laws::the_least_field_wins();
    wl_machine::laws::a_transmitter_sends_its_head_stuffed();
    wl_frame::laws::a_front_of_no_stuffing_ends_six_equal_bits();
    wl_frame::laws::ten_bits_have_an_edge();
}

/// Law: so a node that rests goes through the whole next frame as is expected, if it finds its end, whatever it has done before and whoever
/// hears it. It samples each bit as it is on the bus, and finds no error. If its frame has won it has sent it, else it has received the one
/// that has, and it rests again.
pub fn a_node_that_finds_its_end_goes_through_the_next_frame()
    ensures { (s : Stations) (o : Outset) (end : ℕ) → AreStations s → HaveRoom s → IsOutset s o → 0 < end
        → EndsBefore s o end → (won : HasWon s (expected_bits s o) o.frames end)
        → (i rest since : ℕ) (setup : NodeSetup) (levels : ℕ → Level) (node : ℕ → History) → i < s.count
        → FindsTheEnd s o end i → setup.segments ≡ s.lengths i → IsRun setup levels node → BeginsAfter s o i rest
        → RestsAgain s (o.past i) i levels node rest since → since ≤ rest + sample_at (s.lengths i)
        → ((q : ℕ) → rest + sample_at (s.lengths i) < q → q ≤ expected_sample s o (end + 12) i
        → levels q ≡ level_of (finds_at s o end i q))
        → GoesThrough s o end won.station i won.frame setup levels node since }
{
    wl_topology::driven_laws();
    crate::one_frame::laws::a_node_goes_as_expected();
    crate::frame_end::laws::a_node_that_finds_the_end_goes_to_it();
    wl_wire::laws::machines_stay_in_step();
    wl_wire::laws::the_least_field_wins();
    wl_machine::laws::a_transmitter_sends_its_head_stuffed();
    wl_frame::laws::a_front_of_no_stuffing_ends_six_equal_bits();
    wl_frame::laws::ten_bits_have_an_edge();
    a_node_begins_the_next_frame();
}

/// Law: so each node does that rests before the next frame, if there is room for acknowledgements.
pub fn a_node_goes_through_the_next_frame()
    ensures { (s : Stations) (o : Outset) (end : ℕ) (chase : ℕ → ℕ) → AreStations s → HaveRoom s
        → IsOutset s o → 0 < end → EndsBefore s o end → (won : HasWon s (expected_bits s o) o.frames end)
        → CanBeAnswered s won.station chase
        → (i rest since : ℕ) (setup : NodeSetup) (levels : ℕ → Level) (node : ℕ → History) → i < s.count
        → setup.segments ≡ s.lengths i → IsRun setup levels node → BeginsAfter s o i rest
        → RestsAgain s (o.past i) i levels node rest since → since ≤ rest + sample_at (s.lengths i)
        → ((q : ℕ) → rest + sample_at (s.lengths i) < q → q ≤ expected_sample s o (end + 12) i
        → levels q ≡ level_of (driven s.count s.delay (expected_drove s o (end + 13)) i (steady_tick (s.clocks i) q)))
        → GoesThrough s o end won.station i won.frame setup levels node since }
{
    wl_topology::driven_laws();
    crate::frame_end::laws::all_find_the_end();
    a_node_that_finds_its_end_goes_through_the_next_frame();
}
