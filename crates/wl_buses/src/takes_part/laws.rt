//! Laws of who takes part in a frame, each proved as the contract of a function that does nothing.

ghost use Rattle.std.specs.Prelude.{◌≡◌, ◌≢◌, ◌+◌, ◌<◌, ℕ, true, false, Some, []};
ghost use Rattle.wl_frame.specs.Grammar.{Content};
ghost use Rattle.wl_machine.specs.Judged.{stretch_of};
ghost use Rattle.wl_machine.specs.Stretch.Sort.{Framing};
ghost use Rattle.wl_machine.specs.States.{stretch_by};
ghost use Rattle.wl_wire.specs.Winner.{Beats};
ghost use Rattle.wl_phase.specs.Clocks.{steady_tick};
ghost use Rattle.wl_bound.specs.Families.{Bus};
ghost use Rattle.wl_buses.specs.OneFrame.Answers.{HasRoomToAnswer};
ghost use Rattle.wl_buses.specs.OneFrame.Bounds.{HasStations};
ghost use Rattle.wl_buses.specs.OneFrame.Expected.{IsOutset, Outset, expected_bits, expected_sample};
ghost use Rattle.wl_buses.specs.OneFrame.Machines.{HasWon};
ghost use Rattle.wl_buses.specs.OneFrame.Stations.{AreOnALine, AreStations, HaveRoom, Stations};
ghost use Rattle.wl_buses.specs.FirstFrame.FirstStarts.{AreIdle, Waiting, first_outset, first_start};
ghost use Rattle.wl_buses.specs.FrameEnd.Asked.{EndsBefore};
ghost use Rattle.wl_buses.specs.NextFrames.Frames.{FollowOneAnother, Frame, HasRoomForAll, IsBegun, IsBegunAfter, resting_of};
ghost use Rattle.wl_buses.specs.NextFrames.NextStarts.{AreResting, Resting, begins_next, has_next, start_next};
ghost use Rattle.wl_buses.specs.TakesPart.Decisions.{AllMayDecide, LeavesRoomToDecide};
ghost use Rattle.wl_buses.specs.TakesPart.Takes.{BeganWith, TakePart, first_offers, next_offers};

/// Law: a station that has a frame ready at its third bit of the intermission begins the next frame. Nobody begins that later than the
/// start of frame of any station with a frame can reach it, and who has one by when that is due. Who has a frame and doesn't begin was reached
/// by its decision. So it is with the next frame, and with the first one.
pub fn who_is_ready_takes_part()
    ensures ready { (r : Resting) → AreOnALine r.stations → AreResting r → (i : ℕ) → i < r.stations.count
        → has_next r i ≡ true → r.decides i ≡ 0 → begins_next r i ≡ true }
    ensures next { (r : Resting) → AreOnALine r.stations → AreResting r
        → TakePart r.stations (next_offers r) (start_next r) }
    ensures first { (w : Waiting) → AreOnALine w.stations → AreIdle w
        → TakePart w.stations (first_offers w) (first_start w) }
{}

/// Law: whoever loses the arbitration has begun with a frame of its own, and the winner's beats that one. It is the frame that it decided on,
/// as of the first frame.
pub fn who_loses_has_begun_with_its_next_frame()
    ensures begun { (s : Stations) (o : Outset) (end : ℕ) → AreStations s → HaveRoom s → IsOutset s o
        → EndsBefore s o end → (won : HasWon s (expected_bits s o) o.frames end)
        → o.start.joins won.station ≡ false → (k : ℕ) → k < s.count → k ≢ won.station → o.start.drives k ≡ true
        → (d : Content) × (stretch_of (o.past k) ≡ stretch_by (Framing (Some d)) []) × Beats won.frame d }
    ensures first { (w : Waiting) (f : Frame) → AreStations w.stations → HaveRoom w.stations → AreIdle w
        → (is : IsBegun w.stations f) → f.outset ≡ first_outset w → (k : ℕ) → k < w.stations.count
        → k ≢ is.won.station → f.outset.start.drives k ≡ true → BeganWith w.frames w.which k is.won.frame }
    ensures next { (s : Stations) (a b : Frame) → AreStations s → HaveRoom s → IsBegun s a → (is : IsBegun s b)
        → (after : IsBegunAfter s a b) → (k : ℕ) → k < s.count → k ≢ is.won.station → b.outset.start.drives k ≡ true
        → BeganWith a.outset.frames after.which k is.won.frame }
{
    wl_topology::driven_laws();
    crate::one_frame::laws::machines_drive_as_a_course_asks();
    crate::one_frame::laws::what_is_expected_is_a_course();
    crate::one_frame::laws::all_sample_the_same_bits();
    crate::one_frame::laws::idle_machines_may_begin_together();
    crate::one_frame::waits::idle_machines_may_wait();
    crate::frame_end::laws::machines_answer_as_asked();
    wl_wire::laws::machines_stay_in_step();
    wl_wire::laws::the_least_field_wins();
    wl_machine::laws::a_transmitter_sends_its_head_stuffed();
    wl_frame::laws::a_front_of_no_stuffing_ends_six_equal_bits();
    wl_frame::laws::ten_bits_have_an_edge();
    crate::next_frames::laws::stations_rest_after_a_frame();
}

/// Law: if some station has a frame ready at its third bit of the intermission, all that begin the next frame had one ready at theirs. A
/// station that decides a bit later was reached before, if a bit is there at each sample twelve bits after the last edge.
pub fn nobody_decides_twice()
    ensures { (s : Stations) (a b : Frame) (chase : ℕ → ℕ) → AreStations s → HaveRoom s → HasRoomForAll s chase
        → AllMayDecide s chase → IsBegun s a → (next : IsBegunAfter s a b) → (i k : ℕ) → i < s.count
        → has_next (resting_of s a b next) k ≡ true → next.decides k ≡ 0
        → begins_next (resting_of s a b next) i ≡ true → next.decides i ≡ 0 }
{
    wl_topology::driven_laws();
    wl_wire::laws::machines_stay_in_step();
    wl_wire::laws::the_least_field_wins();
    wl_machine::laws::a_transmitter_sends_its_head_stuffed();
    wl_frame::laws::a_front_of_no_stuffing_ends_six_equal_bits();
    wl_frame::laws::ten_bits_have_an_edge();
    crate::next_frames::laws::stations_rest_after_a_frame();
}

/// Law: a bus has that room whoever wins if it meets the inequality for it, wherever within its tolerance each clock lies. It is
/// `bit_is_there_at_sample` of `HasRoomToAnswer`, with twelve bits' drift in the place of ten.
pub fn a_bus_has_room_to_decide()
    ensures { (bus : Bus) (s : Stations) (chase : ℕ → ℕ) → AreOnALine s → HasStations bus s → HasRoomToAnswer bus chase
        → LeavesRoomToDecide bus chase → AllMayDecide s chase }
{}

/// Law: of frames that follow one another each begins at every station before any later one is sampled there. So it does before another
/// station samples the later one, but for the way between the two.
pub fn a_frame_begins_before_later_ones()
    ensures own { (s : Stations) (frames : ℕ → Frame) (count : ℕ) → AreStations s → HaveRoom s
        → FollowOneAnother s frames count → (n k bit i : ℕ) → n < k → k < count → i < s.count
        → (expected_bits s (frames n).outset 0).place i < expected_sample s (frames k).outset bit i }
    ensures other { (s : Stations) (frames : ℕ → Frame) (count : ℕ) → AreStations s → HaveRoom s
        → FollowOneAnother s frames count → (n k bit i j : ℕ) → n < k → k < count → i < s.count → j < s.count → i ≢ j
        → steady_tick (s.clocks j) ((expected_bits s (frames n).outset 0).place j)
        < steady_tick (s.clocks i) (expected_sample s (frames k).outset bit i) + s.delay i j }
{
    wl_topology::driven_laws();
    wl_wire::laws::machines_stay_in_step();
    wl_wire::laws::the_least_field_wins();
    wl_machine::laws::a_transmitter_sends_its_head_stuffed();
    wl_frame::laws::a_front_of_no_stuffing_ends_six_equal_bits();
    wl_frame::laws::ten_bits_have_an_edge();
    crate::clean_plans::laws::each_frame_ends_later();
}
