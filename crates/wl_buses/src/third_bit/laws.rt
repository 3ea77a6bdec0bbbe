//! Laws of a next frame that may reach stations in the third bit of the intermission, each proved as the contract of a function that does
//! nothing.

ghost use Rattle.std.specs.Prelude.{◌≡◌, ◌+◌, ◌<◌, ◌≤◌, ℕ, suc, true, Bool, List};
ghost use Rattle.wl_level.specs.declared.Level.{Level};
ghost use Rattle.wl_level.specs.Levels.{level_of};
ghost use Rattle.wl_segments.specs.Lengths.{sample_at};
ghost use Rattle.wl_machine.specs.Stretch.{Input};
ghost use Rattle.wl_node.specs.declared.setup.NodeSetup.{NodeSetup};
ghost use Rattle.wl_node.specs.History.{History};
ghost use Rattle.wl_wire.specs.Wire.{Handed};
ghost use Rattle.wl_buses.specs.OneFrame.Expected.{IsOutset, Outset, expected_bits, expected_sample, past_at};
ghost use Rattle.wl_buses.specs.OneFrame.Lines.{BeginsAfter};
ghost use Rattle.wl_buses.specs.OneFrame.Machines.{HasWon};
ghost use Rattle.wl_buses.specs.OneFrame.Nodes.{HandsAsExpected, IsRun};
ghost use Rattle.wl_buses.specs.OneFrame.Stations.{AreOnALine, AreStations, HaveRoom, Stations};
ghost use Rattle.wl_buses.specs.FrameEnd.Again.{RestsAgain};
ghost use Rattle.wl_buses.specs.FrameEnd.Asked.{CanBeAnswered, EndsBefore};
ghost use Rattle.wl_buses.specs.FrameEnd.Finds.{FindsTheEnd, finds_at};
ghost use Rattle.wl_buses.specs.FrameEnd.Third.{RestsInThird};
ghost use Rattle.wl_buses.specs.NextFrames.Frames.{Frame};
ghost use Rattle.wl_buses.specs.NextFrames.NextStarts.{AreResting, HaveMore, Resting, rest_next};
ghost use Rattle.wl_buses.specs.ThirdBit.ThirdFrames.{CanAllBeAnswered, FollowsFromThird, IsAnsweredFrame};
ghost use Rattle.wl_buses.specs.ThirdBit.ThirdNodes.{GoesToThird};
ghost use Rattle.wl_buses.specs.ThirdBit.ThirdStarts.{AreFreeFromThird, MayJoin, is_in_third, outset_third, resting_from_second};

/// Law: stations on a silent line begin the next frame together, if some have one. Its start of frame may reach some of them in the third
/// bit of their intermission. Whoever is in that bit and is handed a frame with its sample of the start of frame joins it. Each of them
/// follows the edge from the second bit of its intermission on (Bosch CAN 2.0 part B, section 3.2.5).
pub fn stations_begin_or_join_the_next_frame()
    ensures outset { (r : Resting) (third : ℕ → Bool) (before : ℕ → List Input) (given : ℕ → Handed)
        → AreOnALine r.stations → AreResting r → AreFreeFromThird r third before → MayJoin r third given
        → IsOutset r.stations (outset_third r third before given) }
    ensures after { (r : Resting) (third : ℕ → Bool) (before : ℕ → List Input) (given : ℕ → Handed)
        → AreOnALine r.stations → AreResting r → (i : ℕ) → i < r.stations.count
        → BeginsAfter r.stations (outset_third r third before given) i (rest_next r i) }
    ensures third { (r : Resting) (third : ℕ → Bool) (before : ℕ → List Input) → AreOnALine r.stations → AreResting r
        → AreFreeFromThird r third before → (i : ℕ) → third i ≡ true → rest_next r i ≡ r.place i }
{
    crate::one_frame::waits::idle_machines_may_wait();
}

/// Law: after a frame stations are so, with no more room than to acknowledge. Each has sampled the second bit of the intermission before
/// the next start of frame reaches it. It doesn't matter when each decides to send its next frame.
pub fn stations_are_in_the_third_bit_or_rest_after_a_frame()
    ensures rest { (s : Stations) (o : Outset) (end : ℕ) (chase which decides : ℕ → ℕ) → AreStations s → HaveRoom s
        → IsOutset s o → EndsBefore s o end → (won : HasWon s (expected_bits s o) o.frames end)
        → CanBeAnswered s won.station chase → HaveMore s o.frames which
        → AreResting (resting_from_second s o end which decides) }
    ensures free { (s : Stations) (o : Outset) (end : ℕ) (chase which decides : ℕ → ℕ) → AreStations s → HaveRoom s
        → IsOutset s o → EndsBefore s o end → (won : HasWon s (expected_bits s o) o.frames end)
        → CanBeAnswered s won.station chase → HaveMore s o.frames which
        → AreFreeFromThird (resting_from_second s o end which decides) (is_in_third s o end which decides)
        (past_at s o (end + 12)) }
{
    wl_topology::driven_laws();
    crate::frame_end::laws::all_may_begin_from_the_third_bit();
    crate::frame_end::laws::the_next_frame_finds_all_in_the_third_bit();
    crate::next_frames::laws::stations_rest_after_a_frame();
    wl_wire::laws::machines_stay_in_step();
    wl_wire::laws::the_least_field_wins();
    wl_machine::laws::a_transmitter_sends_its_head_stuffed();
    wl_frame::laws::a_front_of_no_stuffing_ends_six_equal_bits();
    wl_frame::laws::ten_bits_have_an_edge();
}

/// Law: so with no more room than to acknowledge the next frame begins as one of stations that begin or join it. All laws of
/// [`one_frame`](crate::one_frame) and [`frame_end`](crate::frame_end) are about it.
pub fn a_frame_follows_from_the_third_bit()
    ensures { (s : Stations) (o : Outset) (end : ℕ) (chase which decides : ℕ → ℕ) (given : ℕ → Handed) → AreStations s
        → HaveRoom s → IsOutset s o → EndsBefore s o end → (won : HasWon s (expected_bits s o) o.frames end)
        → CanBeAnswered s won.station chase → HaveMore s o.frames which
        → MayJoin (resting_from_second s o end which decides) (is_in_third s o end which decides) given
        → IsOutset s (outset_third (resting_from_second s o end which decides) (is_in_third s o end which decides)
        (past_at s o (end + 12)) given) }
{
    stations_begin_or_join_the_next_frame();
    stations_are_in_the_third_bit_or_rest_after_a_frame();
}

/// Law: so each frame that stations begin or join has a number of bits and a winner, and can be acknowledged, if there is room for that whoever
/// wins. Another frame follows it, if some station has one left, whenever each decides to send, and whoever joins.
pub fn another_frame_follows_from_the_third_bit()
    ensures first { (s : Stations) (o : Outset) (chase : ℕ → ℕ) → AreStations s → HaveRoom s → CanAllBeAnswered s chase
        → IsOutset s o → (bits : ℕ) × IsAnsweredFrame s (record { outset = o; bits = bits }) }
    ensures next { (s : Stations) (a : Frame) (chase which decides : ℕ → ℕ) (given : ℕ → Handed) → AreStations s
        → HaveRoom s → CanAllBeAnswered s chase → IsAnsweredFrame s a → HaveMore s a.outset.frames which
        → MayJoin (resting_from_second s a.outset a.bits which decides) (is_in_third s a.outset a.bits which decides)
        given
        → (b : Frame) × IsAnsweredFrame s b × FollowsFromThird s a b }
{
    crate::one_frame::ending::the_stuffed_part_ends();
    crate::next_frames::begun::one_station_wins();
    a_frame_follows_from_the_third_bit();
}

/// Law: a node goes from the third bit of an intermission to that of the next one as is expected, or from its rest. It has to find what is
/// expected, up to its sample of the second bit of the intermission, and the end of the frame. If it is in its third bit, its queue has to
/// hand it its frame with its sample of the start of frame, or none.
pub fn a_node_goes_from_third_bit_to_third_bit()
    ensures third { (s : Stations) (o : Outset) (end : ℕ) → AreStations s → HaveRoom s → IsOutset s o → 0 < end
        → EndsBefore s o end → (won : HasWon s (expected_bits s o) o.frames end)
        → (i rest since : ℕ) (setup : NodeSetup) (levels : ℕ → Level) (node : ℕ → History) → i < s.count
        → FindsTheEnd s o end i → setup.segments ≡ s.lengths i → IsRun setup levels node → BeginsAfter s o i rest
        → RestsInThird s (o.past i) i levels node rest since → since ≤ rest + sample_at (s.lengths i)
        → HandsAsExpected s o i setup node
        → ((q : ℕ) → rest + sample_at (s.lengths i) < q → q ≤ expected_sample s o (end + 11) i
        → levels q ≡ level_of (finds_at s o end i q))
        → GoesToThird s o end won.station i won.frame levels node since }
    ensures rests { (s : Stations) (o : Outset) (end : ℕ) → AreStations s → HaveRoom s → IsOutset s o → 0 < end
        → EndsBefore s o end → (won : HasWon s (expected_bits s o) o.frames end)
        → (i rest since : ℕ) (setup : NodeSetup) (levels : ℕ → Level) (node : ℕ → History) → i < s.count
        → FindsTheEnd s o end i → setup.segments ≡ s.lengths i → IsRun setup levels node → BeginsAfter s o i rest
        → RestsAgain s (o.past i) i levels node rest since → since ≤ rest + sample_at (s.lengths i)
        → ((q : ℕ) → rest + sample_at (s.lengths i) < q → q ≤ expected_sample s o (end + 11) i
        → levels q ≡ level_of (finds_at s o end i q))
        → GoesToThird s o end won.station i won.frame levels node since }
{
    wl_topology::driven_laws();
    crate::one_frame::laws::a_node_goes_as_expected();
    crate::frame_end::laws::a_node_goes_to_its_third_bit();
    crate::next_frames::nodes::a_node_begins_the_next_frame();
    crate::next_frames::nodes::a_node_in_its_third_bit_begins_the_next_frame();
    wl_wire::laws::machines_stay_in_step();
    wl_wire::laws::the_least_field_wins();
    wl_machine::laws::a_transmitter_sends_its_head_stuffed();
    wl_frame::laws::a_front_of_no_stuffing_ends_six_equal_bits();
    wl_frame::laws::ten_bits_have_an_edge();
}

/// Law: so a node goes on from the third bit after one frame, if the start of the next one reaches it in that bit. It goes through the next
/// frame to the third bit after that.
pub fn a_node_goes_on_from_its_third_bit()
    ensures { (s : Stations) (a b : Frame) → AreStations s → HaveRoom s → IsAnsweredFrame s a
        → (is : IsAnsweredFrame s b)
        → (next : FollowsFromThird s a b) → (i : ℕ) (setup : NodeSetup) (levels : ℕ → Level) (node : ℕ → History)
        → i < s.count → is_in_third s a.outset a.bits next.which next.decides i ≡ true
        → FindsTheEnd s b.outset b.bits i → setup.segments ≡ s.lengths i → IsRun setup levels node
        → RestsInThird s (past_at s a.outset (a.bits + 12) i) i levels node
        ((expected_bits s a.outset (a.bits + 11)).place i) ((expected_bits s a.outset (suc (suc a.bits))).from i)
        → HandsAsExpected s b.outset i setup node
        → ((q : ℕ) → expected_sample s a.outset (a.bits + 11) i < q
        → q ≤ expected_sample s b.outset (b.bits + 11) i
        → levels q ≡ level_of (finds_at s b.outset b.bits i q))
        → GoesToThird s b.outset b.bits is.won.station i is.won.frame levels node
        ((expected_bits s a.outset (suc (suc a.bits))).from i) }
{
    wl_topology::driven_laws();
    wl_wire::laws::machines_stay_in_step();
    wl_wire::laws::the_least_field_wins();
    wl_machine::laws::a_transmitter_sends_its_head_stuffed();
    wl_frame::laws::a_front_of_no_stuffing_ends_six_equal_bits();
    wl_frame::laws::ten_bits_have_an_edge();
    stations_begin_or_join_the_next_frame();
    stations_are_in_the_third_bit_or_rest_after_a_frame();
    a_node_goes_from_third_bit_to_third_bit();
}
