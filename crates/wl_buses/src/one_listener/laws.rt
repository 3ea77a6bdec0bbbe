//! Laws of a node that only listens, each proved as the contract of a function that does nothing.

ghost use Rattle.std.specs.Prelude.{◌≡◌, ◌≢◌, ◌⊎◌, ◌+◌, ◌<◌, ◌≤◌, ◌||◌, ◌&&◌, ◌-◌, nat_le, ℕ, suc, Bool, true, false, []};
ghost use Rattle.wl_level.specs.declared.Level.{Level};
ghost use Rattle.wl_level.specs.Levels.{level_of};
ghost use Rattle.wl_node.specs.declared.setup.NodeSetup.{NodeSetup};
ghost use Rattle.wl_node.specs.History.{History};
ghost use Rattle.wl_topology.specs.Driven.{driven};
ghost use Rattle.wl_buses.specs.OneFrame.Acknowledged.{IsAnsweredByAll, answering, chased_way, most_overrun};
ghost use Rattle.wl_buses.specs.OneFrame.Expected.{IsOutset, Outset, edge_start, expected_bits, expected_sample};
ghost use Rattle.wl_buses.specs.OneFrame.Machines.{HasWon};
ghost use Rattle.wl_buses.specs.OneFrame.Nodes.{IsRun};
ghost use Rattle.wl_buses.specs.OneFrame.Starts.{Start};
ghost use Rattle.wl_buses.specs.OneFrame.Stations.{AreOnALine, AreStations, FitsBut, HaveRoom, HaveRoomToSample, Stations, with_longer_ways};
ghost use Rattle.wl_buses.specs.OneListener.Beside.{AreCloseBeside, HasRoomToListen, HearsTheEnd, ListensToTheEnd, with_listener, hears, others_answering};
ghost use Rattle.wl_buses.specs.OneListener.Ends.{CanBeHeard, HasRoomToRestBeside, IsUnheard, others_gathered};
ghost use Rattle.wl_buses.specs.FrameEnd.Asked.{CanBeAnswered, EndsBefore};
ghost use Rattle.wl_buses.specs.FrameEnd.Finds.{FindsTheEnd, finds_at};
ghost use Rattle.wl_buses.specs.PassedFrames.Passing.{PassesOne};
ghost use Rattle.wl_buses.specs.FrameEnd.Again.{HasRoomToRest, RestsAgain};
ghost use Rattle.wl_buses.specs.NextFrames.NextNodes.{GoesThrough};
ghost use Rattle.wl_buses.specs.NextFrames.Frames.{AreInOrder, Frame, frames_drove, third_sample};
ghost use Rattle.wl_buses.specs.OneListener.Same.{ExpectsTheSame};
ghost use Rattle.wl_buses.specs.OneListener.Muted.{FitsEleven, LeavesRoomToListen, MayListen, muted, muted_way};
ghost use Rattle.wl_bound.specs.Families.{Bus};
ghost use Rattle.wl_buses.specs.OneFrame.Answers.{HasRoomToAnswer};
ghost use Rattle.wl_buses.specs.OneFrame.Bounds.{HasStations};
ghost use Rattle.wl_buses.specs.OneListener.Frames.{CanAllBeHeard, ReceivesAll, ReceivesFromPowerUp, waiting_with};
ghost use Rattle.wl_buses.specs.FirstFrame.FirstStarts.{AreIdle, HandTheFirst, Waiting, first_outset};
ghost use Rattle.wl_frame.specs.Grammar.{Content};
ghost use Rattle.wl_buses.specs.OneFrame.Lines.{BeginsAfter};
ghost use Rattle.wl_segments.specs.Lengths.{bit_quanta, sample_at};
ghost use Rattle.wl_phase.specs.Clocks.{steady_tick};

/// Law: a listener finds what the others drive, and what it drives itself.
pub fn a_station_hears_who_answers()
    ensures { (s : Stations) (drove : ℕ → ℕ → Bool) (t : ℕ) → hears s drove t
        ≡ (driven s.count s.delay drove s.count t
        || (nat_le (s.delay s.count s.count) t && drove s.count (t - s.delay s.count s.count))) }
{}

/// Law: a listener samples the acknowledgement that the others drive, as they do. It is close to each of them at the CRC delimiter, and the
/// room is asked of it as of the others: their bits reach it by its samples, and not before. Nothing is asked for its bits at the others. But
/// nobody follows it if it begins its ACK slot by itself, so eleven bits' drift fits before its sample.
pub fn a_listener_samples_the_acknowledgement()
    ensures { (s : Stations) (way : ℕ → ℕ → ℕ) (more : ℕ → ℕ) (winner : ℕ) (place : ℕ → ℕ) (slot : Start) (over : ℕ → ℕ)
        (drove : ℕ → ℕ → Bool) (until : ℕ → ℕ) (since : ℕ) → AreStations (others_answering s way)
        → FitsBut (others_answering s way) more → HaveRoomToSample (with_longer_ways (others_answering s way) more)
        → HasRoomToListen s (with_longer_ways (others_answering s way) more).way
        → IsAnsweredByAll s (with_longer_ways (answering s way) more).way winner place slot over drove until
        → ListensToTheEnd s place slot over drove until → since ≤ 9 → AreCloseBeside s way since place
        → HearsTheEnd s (with_longer_ways (others_answering s way) more).way place slot over drove until }
{
    wl_topology::driven_laws();
}

/// Law: so a listener finds the end of each frame that two others at least send and acknowledge, as a station does that they hear.
pub fn a_listener_finds_the_end()
    ensures { (s : Stations) (o : Outset) (end : ℕ) (way : ℕ → ℕ → ℕ) (chase more : ℕ → ℕ)
        → AreStations (with_listener s) → HaveRoom (with_listener s) → s.may_send s.count ≡ false
        → IsOutset (with_listener s) o → EndsBefore (with_listener s) o end
        → (won : HasWon (with_listener s) (expected_bits (with_listener s) o) o.frames end)
        → CanBeHeard s won.station way chase more → IsUnheard s o end
        → (won.station ≢ s.count) × FindsTheEnd (with_listener s) o end s.count }
{
    wl_topology::driven_laws();
    wl_wire::laws::machines_stay_in_step();
    wl_wire::laws::the_least_field_wins();
    wl_machine::laws::a_transmitter_sends_its_head_stuffed();
    wl_frame::laws::a_front_of_no_stuffing_ends_six_equal_bits();
    wl_frame::laws::ten_bits_have_an_edge();
}

/// Law: and it rests before the next frame, with room for twelve bits' drift at the listener: the start of frame that any of the others
/// begins by itself, a bit after its third bit of the intermission, reaches it after its own sample of that bit.
pub fn the_next_frame_finds_a_listener_at_rest()
    ensures { (s : Stations) (o : Outset) (end : ℕ) (way : ℕ → ℕ → ℕ) (chase more : ℕ → ℕ)
        → AreStations (with_listener s) → HaveRoom (with_listener s) → s.may_send s.count ≡ false
        → IsOutset (with_listener s) o → EndsBefore (with_listener s) o end
        → (won : HasWon (with_listener s) (expected_bits (with_listener s) o) o.frames end)
        → CanBeHeard s won.station way chase more → IsUnheard s o end
        → HasRoomToRestBeside s (with_longer_ways (others_gathered s won.station way chase) more).way
        → (k : ℕ) → k < s.count
        → steady_tick (s.clocks s.count) (expected_sample (with_listener s) o (end + 12) s.count)
        < steady_tick (s.clocks k) ((expected_bits (with_listener s) o (end + 12)).place k + bit_quanta (s.lengths k))
        + s.delay k s.count }
{
    wl_topology::driven_laws();
    wl_wire::laws::machines_stay_in_step();
    wl_wire::laws::the_least_field_wins();
    wl_machine::laws::a_transmitter_sends_its_head_stuffed();
    wl_frame::laws::a_front_of_no_stuffing_ends_six_equal_bits();
    wl_frame::laws::ten_bits_have_an_edge();
}

/// Law: so a listener that rests receives the next frame, if it finds what the others drive, and it hears itself alone. It begins the frame
/// by the edge of a start of frame that reaches it, samples each bit as it is on the bus, and finds no error. The winner's frame passes it,
/// and nothing else. With the third bit of the intermission it rests again.
pub fn a_listener_receives_the_next_frame()
    ensures { (s : Stations) (o : Outset) (end : ℕ) (way : ℕ → ℕ → ℕ) (chase more : ℕ → ℕ)
        → AreStations (with_listener s) → HaveRoom (with_listener s) → s.may_send s.count ≡ false
        → IsOutset (with_listener s) o → 0 < end → EndsBefore (with_listener s) o end
        → (won : HasWon (with_listener s) (expected_bits (with_listener s) o) o.frames end)
        → CanBeHeard s won.station way chase more → IsUnheard s o end
        → (rest since : ℕ) (setup : NodeSetup) (levels : ℕ → Level) (node : ℕ → History)
        → setup.segments ≡ s.lengths s.count → IsRun setup levels node → BeginsAfter (with_listener s) o s.count rest
        → RestsAgain (with_listener s) (o.past s.count) s.count levels node rest since
        → since ≤ rest + sample_at (s.lengths s.count)
        → ((q : ℕ) → rest + sample_at (s.lengths s.count) < q
        → q ≤ expected_sample (with_listener s) o (end + 12) s.count
        → levels q ≡ level_of (finds_at (with_listener s) o end s.count q))
        → (won.station ≢ s.count)
        × GoesThrough (with_listener s) o end won.station s.count won.frame setup levels node since
        × PassesOne (with_listener s) o end won.station s.count rest won.frame node }
{
    a_listener_finds_the_end();
    crate::next_frames::nodes::a_node_that_finds_its_end_goes_through_the_next_frame();
    crate::passed_frames::laws::a_frame_passes_a_node_that_finds_its_end();
}

/// Law: so a listener receives frame after frame, if it rests before the first one and finds what all drive in them. It goes through each,
/// and rests between any two. It has received exactly these frames, in their order, and found no error.
pub fn a_listener_receives_all_frames()
    ensures { (s : Stations) (frames : ℕ → Frame) (count : ℕ) (way : ℕ → ℕ → ℕ) (chase : ℕ → ℕ)
        (more : ℕ → ℕ → ℕ)
        → AreStations (with_listener s) → HaveRoom (with_listener s) → s.may_send s.count ≡ false
        → (are : AreInOrder (with_listener s) frames count) → CanAllBeHeard s frames count are way chase more
        → (content : ℕ → Content)
        → ((n : ℕ) (less : n < count) → (are.each n less).won.frame ≡ content n)
        → (setup : NodeSetup) → setup.segments ≡ s.lengths s.count → setup.queue ≡ []
        → (levels : ℕ → Level) (node : ℕ → History) → IsRun setup levels node
        → ((n q : ℕ) → n < count → q ≤ third_sample (with_listener s) (frames n) s.count
        → levels q
        ≡ level_of (hears s (frames_drove (with_listener s) frames count) (steady_tick (s.clocks s.count) q)))
        → (rest since : ℕ) → BeginsAfter (with_listener s) (frames 0).outset s.count rest
        → RestsAgain (with_listener s) ((frames 0).outset.past s.count) s.count levels node rest since
        → since ≤ rest + sample_at (s.lengths s.count)
        → ReceivesAll s frames count are content setup levels node rest since }
{
    wl_topology::driven_laws();
    crate::one_frame::before::nothing_is_found_before_a_frame();
    crate::frame_end::laws::all_may_begin_again();
    wl_wire::laws::machines_stay_in_step();
    wl_wire::laws::the_least_field_wins();
    wl_machine::laws::a_transmitter_sends_its_head_stuffed();
    wl_frame::laws::a_front_of_no_stuffing_ends_six_equal_bits();
    wl_frame::laws::ten_bits_have_an_edge();
    crate::next_frames::laws::stations_rest_after_a_frame();
    crate::next_frames::nodes::a_node_waits_for_the_next_frame();
    crate::next_frames::nodes::a_node_that_finds_its_end_goes_through_the_next_frame();
    crate::passed_frames::laws::a_frame_passes_a_node_that_finds_its_end();
    crate::passed_frames::laws::nothing_passes_a_waiting_node();
}

/// Law: so it is from its power-up on. Let the stations and the listener be idle before the first frame that any of them begins. Then the
/// listener has received exactly these frames, and its counters are 0.
pub fn a_listener_receives_all_frames_from_its_power_up()
    ensures { (s : Stations) (w : Waiting) (frames : ℕ → Frame) (count : ℕ) (way : ℕ → ℕ → ℕ) (chase : ℕ → ℕ)
        (more : ℕ → ℕ → ℕ)
        → AreStations (with_listener s) → HaveRoom (with_listener s) → s.may_send s.count ≡ false
        → (are : AreInOrder (with_listener s) frames count) → CanAllBeHeard s frames count are way chase more
        → (content : ℕ → Content)
        → ((n : ℕ) (less : n < count) → (are.each n less).won.frame ≡ content n) → 0 < count
        → (frames 0).outset ≡ first_outset (waiting_with s w)
        → AreIdle (waiting_with s w) → (setups : ℕ → NodeSetup) → HandTheFirst (waiting_with s w) setups
        → (setups s.count).segments ≡ s.lengths s.count → (setups s.count).queue ≡ []
        → (levels : ℕ → Level) (node : ℕ → History) → IsRun (setups s.count) levels node
        → ((n q : ℕ) → n < count → q ≤ third_sample (with_listener s) (frames n) s.count
        → levels q
        ≡ level_of (hears s (frames_drove (with_listener s) frames count) (steady_tick (s.clocks s.count) q)))
        → ReceivesFromPowerUp s frames count are content (setups s.count) levels node }
{
    wl_topology::driven_laws();
    wl_phase::laws::an_edge_moves_the_sample();
    crate::one_frame::before::nothing_is_found_before_a_frame();
    crate::one_frame::laws::a_station_begins_its_bits();
    crate::one_frame::laws::idle_machines_may_begin_together();
    crate::one_frame::laws::no_edge_counts_then();
    crate::first_frame::laws::idle_stations_begin_a_first_frame();
    crate::frame_end::laws::all_may_begin_again();
    wl_wire::laws::machines_stay_in_step();
    wl_wire::laws::the_least_field_wins();
    wl_machine::laws::a_transmitter_sends_its_head_stuffed();
    wl_frame::laws::a_front_of_no_stuffing_ends_six_equal_bits();
    wl_frame::laws::ten_bits_have_an_edge();
    crate::next_frames::laws::stations_rest_after_a_frame();
    crate::next_frames::nodes::a_node_waits_for_the_next_frame();
    crate::next_frames::nodes::a_node_that_finds_its_end_goes_through_the_next_frame();
    crate::passed_frames::laws::a_frame_passes_a_node_that_finds_its_end();
    crate::passed_frames::laws::nothing_passes_a_waiting_node();
    crate::passed_frames::laws::what_is_found_stays();
}

/// Law: a bit with an edge begins at the others as without the listener. That holds if the listener drives it recessive, or if what it drives
/// reaches no other one before all have begun the bit.
pub fn a_listener_moves_no_edge()
    ensures { (s : Stations) (drives old : ℕ → Bool) (due due_old : ℕ → ℕ)
        → AreStations (with_listener s) → AreStations s
        → ((k : ℕ) → k < s.count → drives k ≡ old k) → ((k : ℕ) → k < s.count → due k ≡ due_old k)
        → (drives s.count ≡ false) ⊎ ((i k : ℕ) → i < s.count → k < s.count
        → steady_tick (s.clocks k) (due k) + s.delay k i < s.delay s.count i)
        → ((i : ℕ) → i < s.count → drives i ≡ false → (w : ℕ) × (w < s.count) × (drives w ≡ true))
        → (i : ℕ) → i < s.count
        → ((edge_start (with_listener s) drives due).place i ≡ (edge_start s old due_old).place i)
        × ((edge_start (with_listener s) drives due).from i ≡ (edge_start s old due_old).from i) }
{}

/// Law: so a listener changes no bit that is expected of the others. Whether it is among the stations or not, the same reaches their machines,
/// their bits begin with the same quanta, and they drive the same.
pub fn a_listener_changes_no_expected_bit()
    ensures { (s : Stations) (o : Outset) (end : ℕ) → AreStations (with_listener s) → HaveRoom (with_listener s)
        → AreStations s → 1 < s.count → s.may_send s.count ≡ false → IsOutset (with_listener s) o
        → EndsBefore (with_listener s) o end
        → HasWon (with_listener s) (expected_bits (with_listener s) o) o.frames end
        → IsUnheard s o end → ExpectsTheSame s o end }
{
    wl_topology::driven_laws();
    wl_wire::laws::machines_stay_in_step();
    wl_wire::laws::the_least_field_wins();
    wl_machine::laws::a_transmitter_sends_its_head_stuffed();
    wl_frame::laws::a_front_of_no_stuffing_ends_six_equal_bits();
    wl_frame::laws::ten_bits_have_an_edge();
}

/// Law: what these laws ask can be met. Take stations with room for acknowledgements and for rest. The last has no frames, and eleven bits'
/// drift fits before its sample. If that one only listens in the place of being heard, all is met: what it drives takes any
/// number of ticks longer to the others.
pub fn a_station_with_room_may_listen()
    ensures may { (s : Stations) (far winner : ℕ) (chase : ℕ → ℕ) → AreStations (with_listener s)
        → HaveRoom (with_listener s) → ((k : ℕ) → s.may_send k ≡ true → k ≢ s.count) → 1 < s.count
        → winner < s.count → CanBeAnswered (with_listener s) winner chase
        → FitsEleven s (chased_way (with_listener s) winner chase) → MayListen s far winner chase }
    ensures rest { (s : Stations) (far winner : ℕ) (chase : ℕ → ℕ) → AreStations (with_listener s)
        → HaveRoom (with_listener s) → ((k : ℕ) → s.may_send k ≡ true → k ≢ s.count) → 1 < s.count
        → winner < s.count → CanBeAnswered (with_listener s) winner chase
        → FitsEleven s (chased_way (with_listener s) winner chase)
        → HasRoomToRest (with_listener s) (chased_way (with_listener s) winner chase)
        → HasRoomToRestBeside (muted s far)
        (with_longer_ways (others_gathered (muted s far) winner (muted_way s far) chase)
        (most_overrun (with_listener s) winner chase)).way }
{}

/// Law: a bus that meets the inequalities for acknowledgements, and one with eleven bits' drift at its last node, has that room, wherever
/// within its tolerance each clock lies.
pub fn a_bus_has_room_to_listen()
    ensures { (bus : Bus) (s : Stations) (chase : ℕ → ℕ) → AreOnALine (with_listener s)
        → HasStations bus (with_listener s) → HasRoomToAnswer bus chase → LeavesRoomToListen bus chase s.count
        → (winner : ℕ) → winner < s.count → s.may_send winner ≡ true
        → CanBeAnswered (with_listener s) winner chase
        × FitsEleven s (chased_way (with_listener s) winner chase) }
{
    crate::one_frame::ack::a_bus_has_room_to_answer();
}
