//! Laws of the end of a frame, each proved as the contract of a function that does nothing.

ghost use Rattle.std.specs.Prelude.{◌≡◌, ◌+◌, ◌<◌, ◌≤◌, ℕ, suc, Bool, List, [], ◌∷◌, ◌++◌, Option, Some, true, length, slice_get};
ghost use Rattle.wl_level.specs.declared.Level.{Level};
ghost use Rattle.wl_level.specs.declared.Level.TheVariants.{Dominant};
ghost use Rattle.wl_level.specs.Levels.{is_dominant, level_of};
ghost use Rattle.wl_frame.specs.Stuffing.{destuffed_bits};
ghost use Rattle.wl_frame.specs.Grammar.{Content, is_crc_right};
ghost use Rattle.wl_segments.specs.Lengths.{bit_quanta};
ghost use Rattle.wl_machine.specs.Stretch.{Input, Sampled};
ghost use Rattle.wl_machine.specs.Stretch.Input.{Sample};
ghost use Rattle.wl_machine.specs.Stretch.Sort.{Framing};
ghost use Rattle.wl_machine.specs.States.{stretch_by};
ghost use Rattle.wl_machine.specs.Frames.{frame_role, stuffed_end};
ghost use Rattle.wl_machine.specs.Judged.{drive_of, stretch_of};
ghost use Rattle.wl_buses.specs.OneFrame.Stations.{AreOnALine, AreStations, HaveRoom, Stations};
ghost use Rattle.wl_buses.specs.OneFrame.Machines.{HasWon, MayBeginTogether};
ghost use Rattle.wl_buses.specs.OneFrame.Acknowledged.{IsAcknowledgedByAll, IsAnsweredByAll, chased_way};
ghost use Rattle.wl_buses.specs.OneFrame.Expected.{HasSampled, IsOutset, Outset, expected_bits, expected_drove, expected_sample};
ghost use Rattle.wl_sync.specs.declared.Seen.{Seen};
ghost use Rattle.wl_buses.specs.OneFrame.Clocked.{BitIs};
ghost use Rattle.wl_buses.specs.OneFrame.Course.{bus_bit};
ghost use Rattle.wl_topology.specs.Driven.{driven};
ghost use Rattle.wl_node.specs.declared.setup.NodeSetup.{NodeSetup};
ghost use Rattle.wl_node.specs.History.{History};
ghost use Rattle.wl_phase.specs.Clocks.{steady_tick};
ghost use Rattle.wl_buses.specs.OneFrame.Nodes.{IsInBit, IsRun};
ghost use Rattle.wl_plan.specs.Line.{Line};
ghost use Rattle.wl_buses.specs.OneFrame.Lines.{BeginsAfter, BeginsAsExpected, IsBeforeEnd, IsLineOf, RestsBefore, finds_expected, node_after};
ghost use Rattle.wl_plan.specs.PlanLine.{line_of, setup_at};
ghost use Rattle.wl_plan.specs.declared.plan.Plan.{Plan};
ghost use Rattle.wl_confine.specs.declared.Mode.TheVariants.{Active};
ghost use Rattle.wl_wire.specs.Begins.{frame_begun};
ghost use Rattle.wl_wire.specs.InStep.{AreSoundFrames};
ghost use Rattle.wl_wire.specs.Wire.{Handed, sampled};
ghost use Rattle.wl_bound.specs.Conditions.{IsSound};
ghost use Rattle.wl_bound.specs.Families.{Bus};
ghost use Rattle.wl_buses.specs.OneFrame.Answers.{HasRoomToAnswer};
ghost use Rattle.wl_buses.specs.OneFrame.Bounds.{HasStations};
ghost use Rattle.wl_buses.specs.OneFrame.Plans.{IsPlanOf};
ghost use Rattle.wl_buses.specs.FrameEnd.Again.{HasRoomToRest, LeavesRoomToRest, RestsAgain, past_end};
ghost use Rattle.wl_buses.specs.FrameEnd.Lines.{LineEnds, LineRests, rests_until};
ghost use Rattle.wl_buses.specs.FrameEnd.Rests.{NodeEnds, waiting_frame};
ghost use Rattle.wl_buses.specs.FrameEnd.Third.{MayBeginFromThird, NodeEndsInThird, past_third};
ghost use Rattle.wl_buses.specs.FrameEnd.Clocks.{SeesEnd};
ghost use Rattle.wl_buses.specs.FrameEnd.Asked.{CanBeAnswered, EndAsAsked, EndsBefore};
ghost use Rattle.wl_buses.specs.FrameEnd.Finds.{FindsTheEnd, finds_at};
ghost use Rattle.wl_buses.specs.FrameEnd.Ends.{GoesToEnd, end_bit, end_drive, end_stretch};

/// Law: a machine whose frame's stuffed part was right goes through the end of the frame, if it samples what is on the bus there. So it is
/// whatever it is handed, and in whatever mode. It acknowledges unless it is the sender.
pub fn a_machine_ends_its_frame()
    ensures goes { (head : Option Content) (own : List Level) (place : ℕ) (x : Sampled)
        → stuffed_end own ≡ Some (length own) → is_crc_right (destuffed_bits own (length own)) ≡ true → place < 12
        → x.level ≡ level_of (end_bit place) → GoesToEnd head own place x }
    ensures drives { (head : Option Content) (own : List Level) (place : ℕ)
        → stuffed_end own ≡ Some (length own) → is_crc_right (destuffed_bits own (length own)) ≡ true
        → is_dominant (drive_of (end_stretch head own place)) ≡ end_drive (frame_role head own) place }
{}

/// Law: so all machines of a line go through the end of a frame together, whoever has begun it. The one whose frame was on the bus sends it.
/// Each other one has received it, and acknowledges.
pub fn machines_answer_as_asked()
    ensures { (s : Stations) (o : Outset) (end : ℕ) → AreStations s → HaveRoom s → IsOutset s o
        → EndsBefore s o end → (won : HasWon s (expected_bits s o) o.frames end)
        → EndAsAsked s o end won.station won.frame }
{
    wl_topology::driven_laws();
    wl_wire::laws::machines_stay_in_step();
    wl_wire::laws::the_least_field_wins();
    wl_machine::laws::a_transmitter_sends_its_head_stuffed();
    wl_frame::laws::a_front_of_no_stuffing_ends_six_equal_bits();
    wl_frame::laws::ten_bits_have_an_edge();
}

/// Law: so what is expected of stations goes on as an end that all answer, if each station catches up with the winner and there is room for
/// acknowledgements. The bits are those that machines drive, each when it begins by its edges. So the frame is acknowledged, and no
/// acknowledgement reaches a station before its sample of the CRC delimiter.
pub fn what_is_expected_is_answered()
    ensures answered { (s : Stations) (o : Outset) (end : ℕ) (chase until : ℕ → ℕ) → AreStations s → HaveRoom s
        → IsOutset s o → EndsBefore s o end → (won : HasWon s (expected_bits s o) o.frames end)
        → CanBeAnswered s won.station chase
        → IsAnsweredByAll s (chased_way s won.station chase) won.station (expected_bits s o end).place
        (expected_bits s o (suc end))
        (expected_bits s o (suc (suc end))).from (expected_drove s o (end + 13)) until }
    ensures heard { (s : Stations) (o : Outset) (end : ℕ) (chase until : ℕ → ℕ) → AreStations s → HaveRoom s
        → IsOutset s o → EndsBefore s o end → (won : HasWon s (expected_bits s o) o.frames end)
        → CanBeAnswered s won.station chase
        → IsAcknowledgedByAll s (chased_way s won.station chase) (expected_bits s o end).place
        (expected_bits s o (suc end))
        (expected_bits s o (suc (suc end))).from (expected_drove s o (end + 13)) until }
{
    wl_topology::driven_laws();
    wl_wire::laws::machines_stay_in_step();
    wl_wire::laws::the_least_field_wins();
    wl_machine::laws::a_transmitter_sends_its_head_stuffed();
    wl_frame::laws::a_front_of_no_stuffing_ends_six_equal_bits();
    wl_frame::laws::ten_bits_have_an_edge();
}

/// Law: a node that finds the end of a frame goes to it as is expected, whoever hears what it drives itself: its bit clock, its machine, and
/// what it drives. It finds no error, and nothing counts. The frame passes it, and with the third bit of the intermission it rests.
pub fn a_node_that_finds_the_end_goes_to_it()
    ensures { (s : Stations) (o : Outset) (end : ℕ) → AreStations s → HaveRoom s → IsOutset s o → EndsBefore s o end
        → (won : HasWon s (expected_bits s o) o.frames end)
        → (i : ℕ) (setup : NodeSetup) (levels : ℕ → Level) (node : ℕ → History) → i < s.count → FindsTheEnd s o end i
        → setup.segments ≡ s.lengths i → IsRun setup levels node
        → ((n q : ℕ) → suc n ≡ end → expected_sample s o n i < q → q ≤ expected_sample s o (end + 12) i
        → levels q ≡ level_of (finds_at s o end i q))
        → ((n : ℕ) → suc n ≡ end → IsInBit s o i levels node n)
        → NodeEnds s o end won.station i won.frame setup levels node }
{
    wl_topology::driven_laws();
    crate::one_frame::laws::a_station_begins_its_bits();
    crate::one_frame::laws::no_edge_counts_then();
    wl_wire::laws::machines_stay_in_step();
    wl_wire::laws::the_least_field_wins();
    wl_machine::laws::a_transmitter_sends_its_head_stuffed();
    wl_frame::laws::a_front_of_no_stuffing_ends_six_equal_bits();
    wl_frame::laws::ten_bits_have_an_edge();
}

/// Law: with room for acknowledgements each station finds the end of the frame.
pub fn all_find_the_end()
    ensures { (s : Stations) (o : Outset) (end : ℕ) (chase : ℕ → ℕ) → AreStations s → HaveRoom s
        → IsOutset s o → EndsBefore s o end → (won : HasWon s (expected_bits s o) o.frames end)
        → CanBeAnswered s won.station chase → (i : ℕ) → i < s.count → FindsTheEnd s o end i }
{
    wl_topology::driven_laws();
    wl_wire::laws::machines_stay_in_step();
    wl_wire::laws::the_least_field_wins();
    wl_machine::laws::a_transmitter_sends_its_head_stuffed();
    wl_frame::laws::a_front_of_no_stuffing_ends_six_equal_bits();
    wl_frame::laws::ten_bits_have_an_edge();
}

/// Law: a bit clock goes on as is expected, if it finds the end of the frame and sees what is expected. That is from the last bit of the
/// stuffed part to the third bit of the intermission. It begins the ACK slot where that is expected. It samples that dominant, and all that
/// comes after it recessive.
pub fn bit_clocks_go_to_the_end()
    ensures { (s : Stations) (o : Outset) (end : ℕ) → AreStations s → HaveRoom s → IsOutset s o → EndsBefore s o end
        → (won : HasWon s (expected_bits s o) o.frames end)
        → (place n i : ℕ) (seen : ℕ → Seen) → place ≤ 12 → end + place ≡ suc n → i < s.count → FindsTheEnd s o end i
        → SeesEnd s o end i seen n → HasSampled s o i seen n
        → BitIs (s.lengths i) seen (expected_sample s o n i) ((expected_bits s o (suc n)).place i)
        ((expected_bits s o (suc n)).from i)
        (level_of (bus_bit s (expected_bits s o) (suc n))) × HasSampled s o i seen (suc n) }
{
    wl_topology::driven_laws();
    crate::one_frame::laws::a_station_begins_its_bits();
    crate::one_frame::laws::no_edge_counts_then();
    wl_wire::laws::machines_stay_in_step();
    wl_wire::laws::the_least_field_wins();
    wl_machine::laws::a_transmitter_sends_its_head_stuffed();
    wl_frame::laws::a_front_of_no_stuffing_ends_six_equal_bits();
    wl_frame::laws::ten_bits_have_an_edge();
}

/// Law: a node that finds what is expected goes to the end of a frame as is expected: its bit clock, its machine, and what it drives. It
/// finds no error, and nothing counts. The sender has sent its frame, each other node has received it, and with its sample of the third
/// bit of the intermission each rests. Then it begins its next frame, if one is ready.
pub fn a_node_goes_to_the_end()
    ensures { (s : Stations) (o : Outset) (end : ℕ) (chase : ℕ → ℕ) → AreStations s → HaveRoom s
        → IsOutset s o → EndsBefore s o end → (won : HasWon s (expected_bits s o) o.frames end)
        → CanBeAnswered s won.station chase
        → (i : ℕ) (setup : NodeSetup) (levels : ℕ → Level) (node : ℕ → History) → i < s.count
        → setup.segments ≡ s.lengths i → IsRun setup levels node
        → ((n q : ℕ) → suc n ≡ end → expected_sample s o n i < q → q ≤ expected_sample s o (end + 12) i
        → levels q ≡ level_of (driven s.count s.delay (expected_drove s o (end + 13)) i (steady_tick (s.clocks i) q)))
        → ((n : ℕ) → suc n ≡ end → IsInBit s o i levels node n)
        → NodeEnds s o end won.station i won.frame setup levels node }
{
    wl_topology::driven_laws();
    crate::one_frame::laws::a_station_begins_its_bits();
    crate::one_frame::laws::no_edge_counts_then();
    wl_wire::laws::machines_stay_in_step();
    wl_wire::laws::the_least_field_wins();
    wl_machine::laws::a_transmitter_sends_its_head_stuffed();
    wl_frame::laws::a_front_of_no_stuffing_ends_six_equal_bits();
    wl_frame::laws::ten_bits_have_an_edge();
}

/// Law: so all nodes of a line go through a frame and its end, whoever has begun it, if each begins the frame as is expected. They drive what
/// is expected, up to the tick with which the first of them has sampled the third bit of the intermission. None finds an error. The one
/// whose frame has the least arbitration field has sent it, each other one has received it, and all rest.
pub fn a_line_goes_to_the_end()
    ensures { (l : Line) (setups : ℕ → NodeSetup) (s : Stations) (o : Outset) (end stop : ℕ) (chase : ℕ → ℕ)
        → IsLineOf l setups s → AreStations s → HaveRoom s → IsOutset s o
        → EndsBefore s o end → (won : HasWon s (expected_bits s o) o.frames end)
        → CanBeAnswered s won.station chase
        → ((i : ℕ) → i < s.count → BeginsAsExpected l setups s o end i) → IsBeforeEnd l s o (end + 13) stop
        → LineEnds l setups s o end won.station won.frame stop }
{
    crate::both_proofs::laws::what_is_expected_is_driven();
    wl_topology::driven_laws();
    crate::one_frame::laws::a_node_goes_as_expected();
    crate::one_frame::laws::a_station_begins_its_bits();
    crate::one_frame::laws::no_edge_counts_then();
    wl_wire::laws::machines_stay_in_step();
    wl_wire::laws::the_least_field_wins();
    wl_machine::laws::a_transmitter_sends_its_head_stuffed();
    wl_frame::laws::a_front_of_no_stuffing_ends_six_equal_bits();
    wl_frame::laws::ten_bits_have_an_edge();
}

/// Law: with the third bit of the intermission all machines are on one wire and may begin the next frame, each with the frame that it is
/// handed, if one is. A node that has gone to the end rests then, as it does before its first frame: but it has driven nothing only since
/// the ACK slot.
pub fn all_may_begin_again()
    ensures may { (s : Stations) (o : Outset) (end : ℕ) → AreStations s → HaveRoom s → IsOutset s o
        → EndsBefore s o end → (won : HasWon s (expected_bits s o) o.frames end) → (handed : ℕ → Handed)
        → ((k : ℕ) → k < s.count → (handed k).mode ≡ Active)
        → MayBeginTogether s.count o.frames (past_end s o end handed) }
    ensures rests { (s : Stations) (o : Outset) (end : ℕ) → AreStations s → HaveRoom s → IsOutset s o
        → EndsBefore s o end → (won : HasWon s (expected_bits s o) o.frames end) → (handed : ℕ → Handed)
        → ((k : ℕ) → k < s.count → (handed k).mode ≡ Active)
        → (i : ℕ) (setup : NodeSetup) (levels : ℕ → Level) (node : ℕ → History) → i < s.count
        → NodeEnds s o end won.station i won.frame setup levels node
        → slice_get (o.frames i) (handed i).which ≡ waiting_frame setup (node (expected_sample s o (end + 12) i))
        → RestsAgain s (past_end s o end handed i) i levels node ((expected_bits s o (end + 12)).place i)
        ((expected_bits s o (suc (suc end))).from i) }
{
    wl_topology::driven_laws();
    wl_wire::laws::machines_stay_in_step();
    wl_wire::laws::the_least_field_wins();
    wl_machine::laws::a_transmitter_sends_its_head_stuffed();
    wl_frame::laws::a_front_of_no_stuffing_ends_six_equal_bits();
    wl_frame::laws::ten_bits_have_an_edge();
}

/// Law: if there is room for twelve bits' drift, each station has sampled the third bit of the intermission before the next start of frame
/// reaches it. That holds of a start of frame that a station begins by itself, a bit after its own third bit of the intermission.
pub fn the_next_frame_finds_all_at_rest()
    ensures { (s : Stations) (o : Outset) (end : ℕ) (chase : ℕ → ℕ) → AreStations s → HaveRoom s
        → IsOutset s o → EndsBefore s o end → (won : HasWon s (expected_bits s o) o.frames end)
        → CanBeAnswered s won.station chase → HasRoomToRest s (chased_way s won.station chase)
        → (i k : ℕ) → i < s.count → k < s.count
        → steady_tick (s.clocks i) (expected_sample s o (end + 12) i)
        < steady_tick (s.clocks k) ((expected_bits s o (end + 12)).place k + bit_quanta (s.lengths k)) + s.delay k i }
{
    wl_topology::driven_laws();
    wl_wire::laws::machines_stay_in_step();
    wl_wire::laws::the_least_field_wins();
    wl_machine::laws::a_transmitter_sends_its_head_stuffed();
    wl_frame::laws::a_front_of_no_stuffing_ends_six_equal_bits();
    wl_frame::laws::ten_bits_have_an_edge();
}

/// Law: from that bit on, too, all machines are on one wire, whoever has sampled it. Each that has may begin the next frame, and each other
/// one has two bits of the intermission. So it is when the next start of frame reaches some stations in their third bit (Bosch CAN 2.0 part
/// B, section 3.2.5).
pub fn all_may_begin_from_the_third_bit()
    ensures { (s : Stations) (o : Outset) (end : ℕ) → AreStations s → HaveRoom s → IsOutset s o
        → EndsBefore s o end → (won : HasWon s (expected_bits s o) o.frames end) → (handed : ℕ → Handed)
        → ((k : ℕ) → k < s.count → (handed k).mode ≡ Active) → (third : ℕ → Bool)
        → MayBeginFromThird s.count o.frames third (past_third s o end handed third) }
{
    wl_topology::driven_laws();
    wl_wire::laws::machines_stay_in_step();
    wl_wire::laws::the_least_field_wins();
    wl_machine::laws::a_transmitter_sends_its_head_stuffed();
    wl_frame::laws::a_front_of_no_stuffing_ends_six_equal_bits();
    wl_frame::laws::ten_bits_have_an_edge();
}

/// Law: a start of frame then begins the next frame at all of them. Each that is to begin a frame sends that frame. Each that is in the third
/// bit of its intermission sends the frame that it is handed with the start of frame, if it is handed one. Each other one receives.
pub fn a_start_of_frame_begins_the_next_frame_at_all()
    ensures { (count : ℕ) (frames : ℕ → List Content) (third : ℕ → Bool) (past : ℕ → List Input) (handed : ℕ → Handed)
        → AreSoundFrames count frames → MayBeginFromThird count frames third past
        → (j : ℕ) → j < count → drive_of (stretch_of (past j)) ≡ Dominant → (k : ℕ) → k < count
        → stretch_of (past k ++ Sample (sampled Dominant (frames k) (handed k)) ∷ []) ≡ stretch_by
        (Framing (frame_begun (stretch_of (past k)).sort (sampled Dominant (frames k) (handed k)))) (Dominant ∷ []) }
{
    wl_wire::laws::a_dominant_bit_begins_a_frame_at_all();
    wl_wire::laws::machines_that_are_in_step_stay_so();
}

/// Law: each station has sampled the second bit of the intermission before the next start of frame reaches it. No more room is asked for
/// that than to acknowledge. It holds of a start of frame that a station begins by itself, a bit after its own third bit of the
/// intermission.
pub fn the_next_frame_finds_all_in_the_third_bit()
    ensures { (s : Stations) (o : Outset) (end : ℕ) (chase : ℕ → ℕ) → AreStations s → HaveRoom s
        → IsOutset s o → EndsBefore s o end → (won : HasWon s (expected_bits s o) o.frames end)
        → CanBeAnswered s won.station chase → (i k : ℕ) → i < s.count → k < s.count
        → steady_tick (s.clocks i) (expected_sample s o (end + 11) i)
        < steady_tick (s.clocks k) ((expected_bits s o (end + 12)).place k + bit_quanta (s.lengths k)) + s.delay k i }
{
    wl_topology::driven_laws();
    wl_wire::laws::machines_stay_in_step();
    wl_wire::laws::the_least_field_wins();
    wl_machine::laws::a_transmitter_sends_its_head_stuffed();
    wl_frame::laws::a_front_of_no_stuffing_ends_six_equal_bits();
    wl_frame::laws::ten_bits_have_an_edge();
}

/// Law: a node goes to the third bit of the intermission as is expected, if it finds the end of the frame up to its sample of the second one.
/// What it finds then doesn't matter. The frame passes it, it finds no error, and nothing counts.
pub fn a_node_goes_to_its_third_bit()
    ensures { (s : Stations) (o : Outset) (end : ℕ) → AreStations s → HaveRoom s → IsOutset s o → EndsBefore s o end
        → (won : HasWon s (expected_bits s o) o.frames end)
        → (i : ℕ) (setup : NodeSetup) (levels : ℕ → Level) (node : ℕ → History) → i < s.count → FindsTheEnd s o end i
        → setup.segments ≡ s.lengths i → IsRun setup levels node
        → ((n q : ℕ) → suc n ≡ end → expected_sample s o n i < q → q ≤ expected_sample s o (end + 11) i
        → levels q ≡ level_of (finds_at s o end i q))
        → ((n : ℕ) → suc n ≡ end → IsInBit s o i levels node n)
        → NodeEndsInThird s o end won.station i won.frame levels node }
{
    wl_topology::driven_laws();
    crate::one_frame::laws::a_station_begins_its_bits();
    crate::one_frame::laws::no_edge_counts_then();
    wl_wire::laws::machines_stay_in_step();
    wl_wire::laws::the_least_field_wins();
    wl_machine::laws::a_transmitter_sends_its_head_stuffed();
    wl_frame::laws::a_front_of_no_stuffing_ends_six_equal_bits();
    wl_frame::laws::ten_bits_have_an_edge();
}

/// Law: so all nodes of a line rest with that room, each up to a tick of its own, before which no next frame reaches it: each has sampled
/// the third bit of the intermission by then.
pub fn a_line_rests_after_a_frame()
    ensures { (l : Line) (setups : ℕ → NodeSetup) (s : Stations) (o : Outset) (end : ℕ) (chase : ℕ → ℕ)
        → IsLineOf l setups s → AreStations s → HaveRoom s → IsOutset s o → EndsBefore s o end
        → (won : HasWon s (expected_bits s o) o.frames end) → CanBeAnswered s won.station chase
        → HasRoomToRest s (chased_way s won.station chase)
        → ((i : ℕ) → i < s.count → BeginsAsExpected l setups s o end i)
        → ((i : ℕ) → i < s.count → rests_until s o end i ≤ l.stop) → LineRests l setups s o end won.station won.frame }
{
    the_next_frame_finds_all_at_rest();
    crate::both_proofs::laws::what_is_expected_is_driven();
    wl_topology::driven_laws();
    crate::one_frame::laws::a_node_goes_as_expected();
    crate::one_frame::laws::a_station_begins_its_bits();
    crate::one_frame::laws::no_edge_counts_then();
    wl_wire::laws::machines_stay_in_step();
    wl_wire::laws::the_least_field_wins();
    wl_machine::laws::a_transmitter_sends_its_head_stuffed();
    wl_frame::laws::a_front_of_no_stuffing_ends_six_equal_bits();
    wl_frame::laws::ten_bits_have_an_edge();
}

/// Law: a bus that meets this inequality has that room, wherever within its tolerance each clock lies. It is the last one of those for
/// acknowledgements (`HasRoomToAnswer`), with twelve bits' drift in the place of ten.
pub fn a_bus_has_room_to_rest()
    ensures { (bus : Bus) (s : Stations) (chase : ℕ → ℕ) → AreOnALine s → HasStations bus s → HasRoomToAnswer bus chase
        → LeavesRoomToRest bus chase
        → (winner : ℕ) → winner < s.count → s.may_send winner ≡ true → HasRoomToRest s (chased_way s winner chase) }
{}

/// Law: so it is with each checked plan of one rate a clock, by the rules of the book, without disturbances and nodes that only listen. Let
/// its bus meet the condition for margins and have room for acknowledgements. Each of its nodes rests before a frame that some begin. Then
/// one of them has won, and its frame is acknowledged and received by all others. With room for twelve bits' drift all rest afterwards.
pub fn a_plan_goes_to_the_end()
    ensures ends { (plan : Plan) (s : Stations) (bus : Bus) (o : Outset) (rest chase : ℕ → ℕ) (end stop : ℕ)
        → IsPlanOf plan s → plan.disturbances ≡ [] → HasStations bus s → IsSound bus
        → HasRoomToAnswer bus chase → IsOutset s o → EndsBefore s o end
        → ((i : ℕ) → i < s.count → BeginsAfter s o i (rest i))
        → ((i : ℕ) → i < s.count → RestsBefore s o i (finds_expected (line_of plan) s o end i)
        (node_after (setup_at plan i) (finds_expected (line_of plan) s o end i)) (rest i))
        → IsBeforeEnd (line_of plan) s o (end + 13) stop
        → (won : HasWon s (expected_bits s o) o.frames end)
        × LineEnds (line_of plan) (setup_at plan) s o end won.station won.frame stop }
    ensures rests { (plan : Plan) (s : Stations) (bus : Bus) (o : Outset) (rest chase : ℕ → ℕ) (end : ℕ)
        → IsPlanOf plan s → plan.disturbances ≡ [] → HasStations bus s → IsSound bus
        → HasRoomToAnswer bus chase → LeavesRoomToRest bus chase → IsOutset s o → EndsBefore s o end
        → ((i : ℕ) → i < s.count → BeginsAfter s o i (rest i))
        → ((i : ℕ) → i < s.count → RestsBefore s o i (finds_expected (line_of plan) s o end i)
        (node_after (setup_at plan i) (finds_expected (line_of plan) s o end i)) (rest i))
        → ((i : ℕ) → i < s.count → rests_until s o end i ≤ (line_of plan).stop)
        → (won : HasWon s (expected_bits s o) o.frames end)
        × LineRests (line_of plan) (setup_at plan) s o end won.station won.frame }
{
    wl_plan::checked_is_sound();
    crate::one_frame::laws::a_plan_is_on_a_line();
    crate::one_frame::laws::a_sound_bus_has_room();
    crate::one_frame::laws::a_node_at_rest_begins_as_expected();
    crate::one_frame::laws::a_plan_does_what_is_expected();
    crate::one_frame::ack::a_bus_has_room_to_answer();
    a_line_goes_to_the_end();
    a_line_rests_after_a_frame();
    a_bus_has_room_to_rest();
    wl_topology::driven_laws();
    wl_wire::laws::machines_stay_in_step();
    wl_wire::laws::the_least_field_wins();
    wl_machine::laws::a_transmitter_sends_its_head_stuffed();
    wl_frame::laws::a_front_of_no_stuffing_ends_six_equal_bits();
    wl_frame::laws::ten_bits_have_an_edge();
}
