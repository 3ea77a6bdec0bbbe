//! Laws of several senders, each proved as the contract of a function that does nothing.

ghost use Rattle.std.specs.Prelude.{◌≡◌, ◌+◌, ◌-◌, ◌<◌, ◌≤◌, ℕ, suc, true, Bool, List, [], Some, None};
ghost use Rattle.wl_level.specs.declared.Level.TheVariants.{Dominant};
ghost use Rattle.wl_level.specs.Levels.{level_of};
ghost use Rattle.wl_level.specs.declared.Level.{Level};
ghost use Rattle.wl_node.specs.declared.setup.NodeSetup.{NodeSetup};
ghost use Rattle.wl_node.specs.History.{History};
ghost use Rattle.wl_topology.specs.Driven.{driven};
ghost use Rattle.wl_plan.specs.Line.{Line};
ghost use Rattle.wl_plan.specs.PlanLine.{line_of, setup_at};
ghost use Rattle.wl_buses.specs.OneFrame.Lines.{BeginsAfter, BeginsAsExpected, DoesAsExpected, IsBeforeEnd, IsLineOf, RestsBefore, finds_expected, node_after};
ghost use Rattle.wl_buses.specs.OneFrame.Nodes.{GoesToNext, IsInBit, IsRun};
ghost use Rattle.wl_frame.specs.Grammar.{Content};
ghost use Rattle.wl_machine.specs.Frames.{stuffed_end};
ghost use Rattle.wl_machine.specs.Stretch.{Input};
ghost use Rattle.wl_wire.specs.InStep.{AreSoundFrames};
ghost use Rattle.wl_segments.specs.Lengths.{Lengths, bit_quanta, sample_at};
ghost use Rattle.wl_sync.specs.declared.Seen.{Seen};
ghost use Rattle.wl_phase.specs.Answer.{FindsDominant, SamplesNext};
ghost use Rattle.wl_phase.specs.Clocks.{steady_tick};
ghost use Rattle.wl_phase.specs.Ways.{ByTheBook, moved_to};
ghost use Rattle.wl_bound.specs.Conditions.{IsSound};
ghost use Rattle.wl_bound.specs.Families.{Bus};
ghost use Rattle.wl_plan.specs.declared.plan.Plan.{Plan};
ghost use Rattle.wl_buses.specs.OneFrame.Bounds.{HasStations};
ghost use Rattle.wl_buses.specs.OneFrame.Clocked.{BitIs, NoEdgeLaws, BitPlaceLaws, BitStartLaws, EdgeLaws};
ghost use Rattle.wl_buses.specs.OneFrame.Plans.{IsPlanOf};
ghost use Rattle.wl_buses.specs.OneFrame.Stations.{AreClose, AreOnALine, AreStations, HaveRoom, HaveWays, Stations};
ghost use Rattle.wl_buses.specs.OneFrame.Starts.{AreAllowed, AreSenders, BeginBit, BeginFrame, Drives, Start, reaches_at};
ghost use Rattle.wl_buses.specs.OneFrame.Expected.{HasSampled, IsOutset, Outset, SeesExpected, edge_start, expected_bits, expected_drove, expected_end, expected_sample};
ghost use Rattle.wl_buses.specs.OneFrame.OneBit.{AreRight, OneBit};
ghost use Rattle.wl_buses.specs.OneFrame.Course.{IsCourse, IsSampled, bus_bit};
ghost use Rattle.wl_buses.specs.OneFrame.Machines.{AllRight, HasIdled, MayBeginTogether, AreMachines, SomeBegins, GoesByMachines, HasWon, bus_levels};

/// Law: stations that begin a frame begin it close together: the start of frame of each reaches each other one by its way after that
/// one's own has begun, if one of the two may send. A station begins by itself if no edge has reached it. Each other one follows the
/// first edge that it finds.
pub fn a_frame_begins_close_together()
    ensures { (s : Stations) (b : Start) → AreStations s → AreAllowed s b.drives → BeginFrame s b
        → AreClose s s.may_send 0 b.place }
{}

/// Law: in a bit without an edge any two stations drift apart by one bit's drift at most.
pub fn a_bit_without_an_edge_adds_its_drift()
    ensures { (s : Stations) (sends : ℕ → Bool) (since : ℕ) (place : ℕ → ℕ) → AreClose s sends since place
        → AreClose s sends (suc since) (λ i. place i + bit_quanta (s.lengths i)) }
{}

/// Law: an edge brings them close together again, if there is room. So it is with those that drive the bit dominant. Whoever sends
/// recessive loses the arbitration by it, and stays close to each of them.
pub fn an_edge_brings_them_close_again()
    ensures { (s : Stations) (sends : ℕ → Bool) (since : ℕ) (b : Start) → AreStations s → HaveRoom s → since ≤ 10
        → AreClose s sends since b.due → AreSenders s sends b → AreAllowed s b.drives
        → BeginBit s b → AreClose s b.drives 0 b.place }
{}

/// Law: each station samples what all drive, if there is room: dominant if one sender drives the bit dominant, else recessive.
pub fn all_sample_what_is_driven()
    ensures { (s : Stations) (sends : ℕ → Bool) (since : ℕ) (b c : Start) (drove : ℕ → ℕ → Bool)
        → AreStations s → HaveRoom s → OneBit s sends since b c drove → AreRight s b drove }
{
    wl_topology::driven_laws();
}

/// Law: so all stations sample the bits of a frame as they are on the bus, one after another, whoever sends them, from the start of
/// frame on. Whoever has sent each bit as it is on the bus still sends. Each other one has lost, and stays close to those that send.
pub fn all_sample_the_same_bits()
    ensures { (s : Stations) (bits : ℕ → Start) (drove : ℕ → ℕ → Bool) (length : ℕ) (until : ℕ → ℕ)
        → AreStations s → HaveRoom s → IsCourse s bits drove length until → (n : ℕ) → n < length
        → IsSampled s bits drove n }
{
    wl_topology::driven_laws();
}

/// Law: a bit clock moves place 0 of a bit as [`an_edge_brings_them_close_again`] has it. Let a node have sampled a recessive bit, and
/// find an edge before its next sample while it drives recessive. Then it samples dominant next, counted from the place 0 to which
/// the edge has moved that bit.
pub fn a_bit_clock_follows_an_edge()
    ensures { (l : Lengths) (seen : ℕ → Seen) (place found : ℕ) → ByTheBook l
        → FindsDominant l seen (place + sample_at l) found
        → SamplesNext l seen (place + sample_at l)
        (moved_to (found - 1) l.sjw (place + bit_quanta l) + sample_at l) Dominant }
{
    wl_phase::laws::the_next_sample_is_dominant();
}

/// Law: a bus that meets the condition for margins has room for any senders, wherever within its tolerance each clock lies. The ways are
/// there and back, or over the edges that a station follows.
pub fn a_sound_bus_has_room()
    ensures ways { (bus : Bus) (s : Stations) → AreOnALine s → HasStations bus s → HaveWays s }
    ensures room { (bus : Bus) (s : Stations) → AreOnALine s → HasStations bus s → IsSound bus
        → HaveRoom s }
{}

/// Law: the nodes of each checked plan of one rate a clock, by the rules of the book, are such stations, if none only listens.
pub fn a_plan_is_on_a_line()
    ensures { (plan : Plan) (s : Stations) → IsPlanOf plan s → AreOnALine s }
{}

/// Law: a bit clock samples its next bit by the place 0 that a station's bit has in these laws: a bit later if no edge synchronises it,
/// from a quantum before the one that finds the edge of a hard synchronisation, or where another edge moves it.
pub fn a_bit_clock_samples_by_its_place()
    ensures { BitPlaceLaws }
{
    wl_phase::laws::an_edge_moves_the_sample();
}

/// Law: when no edge synchronises a bit clock: on a recessive line, after a dominant quantum, and for a bit after a dominant sample.
pub fn no_edge_counts_then()
    ensures { NoEdgeLaws }
{
    wl_sync::clock_goes_on();
    wl_phase::laws::an_edge_moves_the_sample();
}

/// Law: a bit clock begins the bit that it samples next where these laws have it. That is with its place 0, if no edge moves it or the
/// edge is late, and with the quantum that finds the edge of a hard synchronisation. By an early edge it is with the later of the two.
pub fn a_bit_clock_begins_by_its_place()
    ensures { BitStartLaws }
{
    wl_sync::clock_goes_on();
    wl_phase::laws::an_edge_moves_the_sample();
}

/// Law: when an edge counts at a station, and what bit it makes: by what the station finds and drives after its sample of the bit before.
/// None counts after a dominant sample. One that comes by the quantum with which a bit is due moves the bit, also at a station that drives
/// it dominant. A later one moves it only at a station that drives recessive.
pub fn a_station_begins_its_bits()
    ensures { EdgeLaws }
{
    wl_sync::clock_goes_on();
    wl_phase::laws::an_edge_moves_the_sample();
}

/// Law: machines that have sampled the bits of a frame as they are on the bus drive as a course asks, up to the end of the stuffed part.
/// Whoever drives dominant still sends, and an edge comes every ten bits. Their frames differ in format, identifier or RTR bit.
pub fn machines_drive_as_a_course_asks()
    ensures { (s : Stations) (bits : ℕ → Start) (drove : ℕ → ℕ → Bool) (frames : ℕ → List Content)
        (past : ℕ → ℕ → List Input) (length : ℕ) → AreSoundFrames s.count frames
        → AreMachines s bits drove frames past length → SomeBegins s bits
        → (n : ℕ) → n < length → AllRight s bits drove n → stuffed_end (bus_levels s bits n) ≡ None
        → GoesByMachines s bits drove frames past n }
{
    wl_wire::laws::machines_stay_in_step();
    wl_wire::laws::the_least_field_wins();
    wl_machine::laws::a_transmitter_sends_its_head_stuffed();
    wl_frame::laws::a_front_of_no_stuffing_ends_six_equal_bits();
    wl_frame::laws::ten_bits_have_an_edge();
}

/// Law: of such machines one alone still sends at the end of the stuffed part, whose frame is what was on the bus. It has the least
/// arbitration field of all frames that began with it.
pub fn one_frame_is_left()
    ensures { (s : Stations) (bits : ℕ → Start) (drove : ℕ → ℕ → Bool) (frames : ℕ → List Content)
        (past : ℕ → ℕ → List Input) (length : ℕ) → AreSoundFrames s.count frames
        → AreMachines s bits drove frames past length → SomeBegins s bits
        → (n : ℕ) → n ≤ length → AllRight s bits drove n → stuffed_end (bus_levels s bits n) ≡ Some n
        → HasWon s bits frames n }
{
    wl_wire::laws::machines_stay_in_step();
    wl_wire::laws::the_least_field_wins();
    wl_machine::laws::a_transmitter_sends_its_head_stuffed();
    wl_frame::laws::a_front_of_no_stuffing_ends_six_equal_bits();
    wl_frame::laws::ten_bits_have_an_edge();
}

/// Law: a bit with an edge begins in some way at all stations, whenever it is due to each: by itself, or by the first edge that reaches
/// it. So it is if one station drives the bit dominant, and no edge reaches another one before that one's first quantum.
pub fn a_bit_with_an_edge_begins()
    ensures { (s : Stations) (drives : ℕ → Bool) (due : ℕ → ℕ) → AreStations s
        → ((i k : ℕ) → i < s.count → Drives s (edge_start s drives due) i k
        → steady_tick (s.clocks i) 0 < reaches_at s (edge_start s drives due) k i)
        → (k : ℕ) → k < s.count → drives k ≡ true → BeginBit s (edge_start s drives due) }
{}

/// Law: machines that have sampled an idle bus are on one wire and may begin a frame together, whenever each began to sample: eleven
/// recessive bits or more without a frame to send, and at most one with which each may be handed one.
pub fn idle_machines_may_begin_together()
    ensures { (count : ℕ) (frames : ℕ → List Content) (past : ℕ → List Input)
        → ((k : ℕ) → k < count → HasIdled frames k (past k)) → MayBeginTogether count frames past }
{}

/// Law: what is expected of stations is a course, whatever frames they have: the bits that their machines drive, each when it begins by
/// its edges, up to the end of the stuffed part. So they sample these bits as they are on the bus ([`all_sample_the_same_bits`]).
pub fn what_is_expected_is_a_course()
    ensures { (s : Stations) (o : Outset) (length : ℕ) → AreStations s → HaveRoom s → IsOutset s o
        → ((n : ℕ) → n < length → stuffed_end (bus_levels s (expected_bits s o) n) ≡ None)
        → IsCourse s (expected_bits s o) (expected_drove s o length) length (λ k. expected_end s o length) }
{
    wl_wire::laws::machines_stay_in_step();
    wl_wire::laws::the_least_field_wins();
    wl_machine::laws::a_transmitter_sends_its_head_stuffed();
    wl_frame::laws::a_front_of_no_stuffing_ends_six_equal_bits();
    wl_frame::laws::ten_bits_have_an_edge();
}

/// Law: a bit clock that sees what is expected goes as is expected, from one bit to the next: it begins the bit where that is expected, and
/// samples it as it is on the bus. What it sees are the levels that reach it if all drive as is expected, and that it drives so itself.
pub fn bit_clocks_go_as_expected()
    ensures { (s : Stations) (o : Outset) (length i : ℕ) (seen : ℕ → Seen) → AreStations s → HaveRoom s → IsOutset s o
        → ((n : ℕ) → n < length → stuffed_end (bus_levels s (expected_bits s o) n) ≡ None)
        → i < s.count → (n : ℕ) → suc n < length → SeesExpected s o length i seen n → HasSampled s o i seen n
        → BitIs (s.lengths i) seen (expected_sample s o n i) ((expected_bits s o (suc n)).place i)
        ((expected_bits s o (suc n)).from i)
        (level_of (bus_bit s (expected_bits s o) (suc n))) × HasSampled s o i seen (suc n) }
{
    wl_topology::driven_laws();
    a_station_begins_its_bits();
    wl_sync::clock_goes_on();
    wl_phase::laws::an_edge_moves_the_sample();
    wl_wire::laws::machines_stay_in_step();
    wl_wire::laws::the_least_field_wins();
    wl_machine::laws::a_transmitter_sends_its_head_stuffed();
    wl_frame::laws::a_front_of_no_stuffing_ends_six_equal_bits();
    wl_frame::laws::ten_bits_have_an_edge();
}

/// Law: a node that finds what is expected of stations does what is expected of it, from its sample of one bit to that of the next: its bit
/// clock, its machine, and what it drives. It finds no error, and nothing counts.
pub fn a_node_goes_as_expected()
    ensures { (s : Stations) (o : Outset) (length i : ℕ) (setup : NodeSetup) (levels : ℕ → Level) (node : ℕ → History)
        → AreStations s → HaveRoom s → IsOutset s o
        → ((n : ℕ) → n < length → stuffed_end (bus_levels s (expected_bits s o) n) ≡ None)
        → i < s.count → setup.segments ≡ s.lengths i → IsRun setup levels node → (n : ℕ) → suc n < length
        → ((q : ℕ) → expected_sample s o n i < q → q ≤ expected_sample s o (suc n) i
        → levels q ≡ level_of (driven s.count s.delay (expected_drove s o length) i (steady_tick (s.clocks i) q)))
        → IsInBit s o i levels node n → GoesToNext s o i levels node n }
{
    wl_topology::driven_laws();
    a_station_begins_its_bits();
    wl_sync::clock_goes_on();
    wl_phase::laws::an_edge_moves_the_sample();
    wl_wire::laws::machines_stay_in_step();
    wl_wire::laws::the_least_field_wins();
    wl_machine::laws::a_transmitter_sends_its_head_stuffed();
    wl_frame::laws::a_front_of_no_stuffing_ends_six_equal_bits();
    wl_frame::laws::ten_bits_have_an_edge();
}

/// Law: so the nodes of a line do what is expected of them in a frame, whoever sends, up to the end of the stuffed part. Each has to begin
/// the frame as is expected, if it finds what is expected. All sample each bit as it is on the bus, and none finds an error. The one that
/// is left has the frame with the least arbitration field.
pub fn a_line_does_what_is_expected()
    ensures { (l : Line) (setups : ℕ → NodeSetup) (s : Stations) (o : Outset) (length end : ℕ) → IsLineOf l setups s
        → AreStations s → HaveRoom s → IsOutset s o → 0 < length
        → ((n : ℕ) → n < length → stuffed_end (bus_levels s (expected_bits s o) n) ≡ None)
        → ((i : ℕ) → i < s.count → BeginsAsExpected l setups s o length i) → IsBeforeEnd l s o length end
        → DoesAsExpected l setups s o length end }
{
    crate::both_proofs::laws::what_is_expected_is_driven();
    wl_topology::driven_laws();
    a_station_begins_its_bits();
    wl_sync::clock_goes_on();
    wl_phase::laws::an_edge_moves_the_sample();
    wl_wire::laws::machines_stay_in_step();
    wl_wire::laws::the_least_field_wins();
    wl_machine::laws::a_transmitter_sends_its_head_stuffed();
    wl_frame::laws::a_front_of_no_stuffing_ends_six_equal_bits();
    wl_frame::laws::ten_bits_have_an_edge();
}

/// Law: a node that rests before a frame begins it as is expected, if it finds what is expected: by itself a bit after the last one that
/// it has sampled, or by the edge of another one's start of frame, which synchronises it hard.
pub fn a_node_at_rest_begins_as_expected()
    ensures { (l : Line) (setups : ℕ → NodeSetup) (s : Stations) (o : Outset) (length i rest : ℕ) → IsLineOf l setups s
        → AreStations s → HaveRoom s → IsOutset s o → 0 < length
        → ((n : ℕ) → n < length → stuffed_end (bus_levels s (expected_bits s o) n) ≡ None) → i < s.count
        → BeginsAfter s o i rest
        → RestsBefore s o i (finds_expected l s o length i) (node_after (setups i) (finds_expected l s o length i)) rest
        → BeginsAsExpected l setups s o length i }
{
    wl_topology::driven_laws();
    a_station_begins_its_bits();
    wl_sync::clock_goes_on();
    wl_phase::laws::an_edge_moves_the_sample();
    wl_wire::laws::machines_stay_in_step();
    wl_wire::laws::the_least_field_wins();
    wl_machine::laws::a_transmitter_sends_its_head_stuffed();
    wl_frame::laws::a_front_of_no_stuffing_ends_six_equal_bits();
    wl_frame::laws::ten_bits_have_an_edge();
}

/// Law: so it is with each checked plan of one rate a clock, by the rules of the book, without disturbances and nodes that only listen.
/// Let its stations have room, as by the condition for margins, and each of its nodes rest before a frame that some of them begin. Then up
/// to the end of the CRC sequence all sample each bit as it is on the bus, whoever sends, and none finds an error. The one that is left has
/// the least arbitration field.
pub fn a_plan_does_what_is_expected()
    ensures room { (plan : Plan) (s : Stations) (o : Outset) (rest : ℕ → ℕ) (length end : ℕ) → IsPlanOf plan s
        → plan.disturbances ≡ [] → HaveWays s → HaveRoom s → IsOutset s o → 0 < length
        → ((n : ℕ) → n < length → stuffed_end (bus_levels s (expected_bits s o) n) ≡ None)
        → ((i : ℕ) → i < s.count → BeginsAfter s o i (rest i))
        → ((i : ℕ) → i < s.count → RestsBefore s o i (finds_expected (line_of plan) s o length i)
        (node_after (setup_at plan i) (finds_expected (line_of plan) s o length i)) (rest i))
        → IsBeforeEnd (line_of plan) s o length end → DoesAsExpected (line_of plan) (setup_at plan) s o length end }
    ensures sound { (plan : Plan) (s : Stations) (bus : Bus) (o : Outset) (rest : ℕ → ℕ) (length end : ℕ)
        → IsPlanOf plan s → plan.disturbances ≡ [] → HasStations bus s → IsSound bus → IsOutset s o
        → 0 < length
        → ((n : ℕ) → n < length → stuffed_end (bus_levels s (expected_bits s o) n) ≡ None)
        → ((i : ℕ) → i < s.count → BeginsAfter s o i (rest i))
        → ((i : ℕ) → i < s.count → RestsBefore s o i (finds_expected (line_of plan) s o length i)
        (node_after (setup_at plan i) (finds_expected (line_of plan) s o length i)) (rest i))
        → IsBeforeEnd (line_of plan) s o length end → DoesAsExpected (line_of plan) (setup_at plan) s o length end }
{
    wl_plan::checked_is_sound();
    a_plan_is_on_a_line();
    a_sound_bus_has_room();
    a_node_at_rest_begins_as_expected();
    a_line_does_what_is_expected();
}
