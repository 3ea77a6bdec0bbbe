//! Laws of what passes a node, each proved as the contract of a function that does nothing.

ghost use Rattle.std.specs.Prelude.{◌≡◌, ◌++◌, ◌∷◌, ◌+◌, ◌<◌, ◌≤◌, ℕ, suc, List, [], slice_get};
ghost use Rattle.wl_level.specs.declared.Level.{Level};
ghost use Rattle.wl_level.specs.declared.Level.TheVariants.{Recessive};
ghost use Rattle.wl_level.specs.Levels.{level_of};
ghost use Rattle.wl_confine.specs.Counts.{no_counts};
ghost use Rattle.wl_confine.specs.declared.Mode.TheVariants.{Active};
ghost use Rattle.wl_segments.specs.Lengths.{sample_at};
ghost use Rattle.wl_topology.specs.Driven.{driven};
ghost use Rattle.wl_machine.specs.Stretch.{Input};
ghost use Rattle.wl_machine.specs.Stretch.Input.{Sample};
ghost use Rattle.wl_node.specs.declared.setup.NodeSetup.{NodeSetup};
ghost use Rattle.wl_node.specs.declared.setup.Passed.{Passed};
ghost use Rattle.wl_node.specs.History.{History, counters_of, error_count, unsent_of};
ghost use Rattle.wl_phase.specs.Clocks.{steady_tick};
ghost use Rattle.wl_wire.specs.Wire.{Handed, sampled};
ghost use Rattle.wl_buses.specs.OneFrame.Expected.{IsOutset, Outset, expected_bits, expected_drove, expected_sample};
ghost use Rattle.wl_buses.specs.OneFrame.Lines.{BeginsAfter};
ghost use Rattle.wl_buses.specs.OneFrame.Machines.{HasWon};
ghost use Rattle.wl_buses.specs.BothProofs.Queues.{head_at};
ghost use Rattle.wl_buses.specs.OneFrame.Nodes.{IsRun};
ghost use Rattle.wl_buses.specs.OneFrame.Stations.{AreOnALine, AreStations, HaveRoom, Stations};
ghost use Rattle.wl_buses.specs.FirstFrame.Faults.{fault_count};
ghost use Rattle.wl_buses.specs.FrameEnd.Again.{RestsAgain};
ghost use Rattle.wl_buses.specs.FrameEnd.Asked.{CanBeAnswered, EndsBefore};
ghost use Rattle.wl_buses.specs.FrameEnd.Finds.{FindsTheEnd, finds_at};
ghost use Rattle.wl_buses.specs.NextFrames.NextNodes.{HandsNext};
ghost use Rattle.wl_buses.specs.NextFrames.NextStarts.{AreFreeNext, AreResting, Resting, rest_next, rested, start_next};
ghost use Rattle.wl_buses.specs.PassedFrames.Passing.{PassesOne};

/// Law: what a node has found it keeps. The errors that it has found grow in number or stay, and so does all that isn't fine. The frames that
/// have passed it are the first of those that have passed it later. If all is fine, it has found no error, and its counters are 0. From
/// counters of 0 on they stay so while all is fine, whatever was before.
pub fn what_is_found_stays()
    ensures errors { (setup : NodeSetup) (levels : ℕ → Level) (node : ℕ → History) (k m : ℕ) → IsRun setup levels node
        → k ≤ m → error_count (node k) ≤ error_count (node m) }
    ensures faults { (setup : NodeSetup) (levels : ℕ → Level) (node : ℕ → History) (k m : ℕ) → IsRun setup levels node
        → k ≤ m → fault_count (node k) ≤ fault_count (node m) }
    ensures frames { (setup : NodeSetup) (levels : ℕ → Level) (node : ℕ → History) (k m : ℕ) → IsRun setup levels node
        → k ≤ m → (more : List Passed) × ((node m).frames ≡ (node k).frames ++ more) }
    ensures counters { (h : History) → fault_count h ≡ 0 → (error_count h ≡ 0) × (counters_of h ≡ no_counts) }
    ensures between { (setup : NodeSetup) (levels : ℕ → Level) (node : ℕ → History) (k q m : ℕ)
        → IsRun setup levels node → k ≤ q → q ≤ m → fault_count (node m) ≡ fault_count (node k)
        → counters_of (node k) ≡ no_counts
        → (error_count (node q) ≡ error_count (node k)) × (counters_of (node q) ≡ no_counts) }
{}

/// Law: a node that rests finds no error while it waits on a silent line for the next frame, and nothing else happens to it that isn't fine.
/// That no frame passes it then says [`crate::next_frames::nodes::a_node_waits_for_the_next_frame`].
pub fn nothing_passes_a_waiting_node()
    ensures { (r : Resting) (before : ℕ → List Input) → AreOnALine r.stations → AreResting r
        → AreFreeNext r.stations.count r.frames before → (i : ℕ) → i < r.stations.count
        → (setup : NodeSetup) → setup.segments ≡ r.stations.lengths i → (levels : ℕ → Level) (node : ℕ → History)
        → IsRun setup levels node → (handed : Handed) → handed.mode ≡ Active → (since : ℕ) → since ≤ rested r i
        → RestsAgain r.stations (before i ++ Sample (sampled Recessive (r.frames i) handed)
        ∷ []) i levels node (r.place i) since
        → ((q : ℕ) → rested r i < q → q < (start_next r).from i → levels q ≡ Recessive)
        → HandsNext r i (slice_get (r.frames i) handed.which)
        (head_at setup (unsent_of setup (node (suc (rested r i)))))
        → (error_count (node (suc (rest_next r i + sample_at (r.stations.lengths i))))
        ≡ error_count (node (suc (rested r i))))
        × (fault_count (node (suc (rest_next r i + sample_at (r.stations.lengths i))))
        ≡ fault_count (node (suc (rested r i)))) }
{
    crate::one_frame::laws::a_station_begins_its_bits();
    crate::next_frames::laws::resting_stations_begin_the_next_frame();
    crate::next_frames::nodes::a_node_waits_for_the_next_frame();
}

/// Law: one frame passes a node that rests and finds its end, whoever hears that node: that frame alone, and with the quantum that is expected. It finds no error
/// from the sample by which it rests up to that of the third bit of the intermission, and nothing else happens to it that isn't fine.
pub fn a_frame_passes_a_node_that_finds_its_end()
    ensures { (s : Stations) (o : Outset) (end : ℕ) → AreStations s → HaveRoom s
        → IsOutset s o → 0 < end → EndsBefore s o end → (won : HasWon s (expected_bits s o) o.frames end)
        → (i rest since : ℕ) (setup : NodeSetup) (levels : ℕ → Level) (node : ℕ → History) → i < s.count
        → FindsTheEnd s o end i → setup.segments ≡ s.lengths i → IsRun setup levels node → BeginsAfter s o i rest
        → RestsAgain s (o.past i) i levels node rest since → since ≤ rest + sample_at (s.lengths i)
        → ((q : ℕ) → rest + sample_at (s.lengths i) < q → q ≤ expected_sample s o (end + 12) i
        → levels q ≡ level_of (finds_at s o end i q))
        → PassesOne s o end won.station i rest won.frame node }
{
    wl_topology::driven_laws();
    crate::one_frame::before::nothing_is_found_before_a_frame();
    crate::one_frame::laws::bit_clocks_go_as_expected();
    crate::one_frame::laws::no_edge_counts_then();
    crate::frame_end::laws::a_machine_ends_its_frame();
    crate::frame_end::laws::bit_clocks_go_to_the_end();
    crate::frame_end::laws::machines_answer_as_asked();
    crate::next_frames::nodes::a_node_that_finds_its_end_goes_through_the_next_frame();
    wl_phase::laws::an_edge_moves_the_sample();
    wl_wire::laws::machines_stay_in_step();
    wl_wire::laws::the_least_field_wins();
    wl_machine::laws::a_transmitter_sends_its_head_stuffed();
    wl_frame::laws::a_front_of_no_stuffing_ends_six_equal_bits();
    wl_frame::laws::ten_bits_have_an_edge();
}

/// Law: so a frame passes each node that rests, if there is room for acknowledgements.
pub fn a_frame_passes_a_node()
    ensures { (s : Stations) (o : Outset) (end : ℕ) (chase : ℕ → ℕ) → AreStations s → HaveRoom s
        → IsOutset s o → 0 < end → EndsBefore s o end → (won : HasWon s (expected_bits s o) o.frames end)
        → CanBeAnswered s won.station chase
        → (i rest since : ℕ) (setup : NodeSetup) (levels : ℕ → Level) (node : ℕ → History) → i < s.count
        → setup.segments ≡ s.lengths i → IsRun setup levels node → BeginsAfter s o i rest
        → RestsAgain s (o.past i) i levels node rest since → since ≤ rest + sample_at (s.lengths i)
        → ((q : ℕ) → rest + sample_at (s.lengths i) < q → q ≤ expected_sample s o (end + 12) i
        → levels q ≡ level_of (driven s.count s.delay (expected_drove s o (end + 13)) i (steady_tick (s.clocks i) q)))
        → PassesOne s o end won.station i rest won.frame node }
{
    wl_topology::driven_laws();
    crate::frame_end::laws::all_find_the_end();
    a_frame_passes_a_node_that_finds_its_end();
}
