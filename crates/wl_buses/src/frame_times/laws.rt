//! Laws of how long a frame lasts, each proved as the contract of a function that does nothing.

ghost use Rattle.std.specs.Prelude.{◌≡◌, ◌≢◌, ◌+◌, ◌-◌, ◌*◌, ◌<◌, ◌≤◌, ℕ, suc, true, length, List};
ghost use Rattle.wl_level.specs.declared.Level.{Level};
ghost use Rattle.wl_segments.specs.Lengths.{bit_quanta};
ghost use Rattle.wl_frame.specs.Grammar.{bits_of};
ghost use Rattle.wl_frame.specs.Stuffing.{Stuffs};
ghost use Rattle.wl_plan.specs.declared.plan.Plan.{Plan};
ghost use Rattle.wl_phase.specs.Clocks.{Steady};
ghost use Rattle.wl_bound.specs.Covered.{is_covered};
ghost use Rattle.wl_bound.specs.Families.{Bus, Buses};
ghost use Rattle.wl_bound.specs.Rooms.{leaves_room, plain_bus};
ghost use Rattle.wl_bound.specs.Verdicts.{verdict_of};
ghost use Rattle.wl_bound.specs.declared.verdict.Verdict.TheVariants.{ForAny};
ghost use Rattle.wl_buses.specs.BothProofs.Plans.{IsOfFamily, IsSteadyPlan};
ghost use Rattle.wl_buses.specs.OneFrame.Bounds.{HasStations};
ghost use Rattle.wl_buses.specs.OneFrame.Expected.{expected_bits};
ghost use Rattle.wl_buses.specs.OneFrame.Stations.{AreOnALine, AreStations, HaveRoom, Stations};
ghost use Rattle.wl_buses.specs.FirstFrame.FirstStarts.{Waiting, due_first, first_outset, has_first};
ghost use Rattle.wl_buses.specs.NextFrames.Frames.{FollowOneAnother, Frame, HasRoomForAll};
ghost use Rattle.wl_buses.specs.NextFrames.Frames.{IsBegun, IsBegunAfter, resting_of};
ghost use Rattle.wl_buses.specs.NextFrames.NextStarts.{has_next};
ghost use Rattle.wl_buses.specs.FamilyPlans.FamilyStations.{AreContents, SendAsFamily, stations_of};
ghost use Rattle.wl_buses.specs.CleanPlans.Clean.{AllGetThrough};
ghost use Rattle.wl_buses.specs.FrameTimes.Times.{AreWinners, ComesWithin, HaveNoGap, TakeNoLonger, Times};
ghost use Rattle.wl_buses.specs.FrameTimes.Times.{following_place, frame_time, frames_time, passing_sample};
ghost use Rattle.wl_buses.specs.FrameTimes.Times.{start_place, tail_time, whole_instant};
ghost use Rattle.wl_buses.specs.FrameTimes.BusTimes.{bit_times, bus_times};
ghost use Rattle.wl_buses.specs.FrameTimes.PlanTimes.{PassByTheirTails};

/// Law: a frame has at most one stuff bit for each four bits after the first one. So the number of its bits up to the end of the CRC
/// sequence has a bound.
pub fn a_frame_has_so_many_bits()
    ensures stuffed { (x y : List Level) → Stuffs y x → 4 * length y ≤ 5 * length x - 1 }
    ensures frame { (s : Stations) (f : Frame) → (b : IsBegun s f)
        → 4 * f.bits ≤ 5 * length (bits_of b.won.frame) - 1 }
{}

/// Law: no bit of a frame begins late at its winner, which drives each edge itself but that of the ACK slot. Each bit begins a bit after the
/// one before at most. The first acknowledgement moves the ACK slot later by a jump at most.
pub fn the_winner_is_not_late()
    ensures bits { (s : Stations) (f : Frame) → AreStations s → HaveRoom s → (b : IsBegun s f)
        → (n : ℕ) → n < f.bits + 12 → n ≢ f.bits
        → (expected_bits s f.outset (suc n)).place b.won.station
        ≤ (expected_bits s f.outset n).place b.won.station + bit_quanta (s.lengths b.won.station) }
    ensures slot { (s : Stations) (f : Frame) → AreStations s → HaveRoom s → (b : IsBegun s f)
        → (expected_bits s f.outset (suc f.bits)).place b.won.station
        ≤ (expected_bits s f.outset f.bits).place b.won.station + bit_quanta (s.lengths b.won.station)
        + (s.lengths b.won.station).sjw }
    ensures frame { (s : Stations) (f : Frame) → AreStations s → HaveRoom s → (b : IsBegun s f)
        → following_place s f b.won.station ≤ start_place s f b.won.station
        + (f.bits + 13) * bit_quanta (s.lengths b.won.station) + (s.lengths b.won.station).sjw }
{
    wl_topology::driven_laws();
    wl_wire::laws::machines_stay_in_step();
    wl_wire::laws::the_least_field_wins();
    wl_machine::laws::a_transmitter_sends_its_head_stuffed();
    wl_frame::laws::a_front_of_no_stuffing_ends_six_equal_bits();
    wl_frame::laws::ten_bits_have_an_edge();
}

/// Law: a frame lasts no longer than its bits, thirteen more, and the shift, each bit as long as the longest one. That is from place 0 of its
/// winner's start of frame to place 0 of the bit after the intermission, at each station. The sample with which the frame passes a
/// station, sent or received, comes within its tail.
pub fn a_frame_lasts_no_longer()
    ensures next { (s : Stations) (f : Frame) (t : Times) → AreStations s → HaveRoom s → (b : IsBegun s f)
        → TakeNoLonger s t → (i : ℕ) → i < s.count
        → ComesWithin s t (frame_time t f.bits) i (following_place s f i)
        b.won.station (start_place s f b.won.station) }
    ensures passes { (s : Stations) (f : Frame) (t : Times) → AreStations s → HaveRoom s → (b : IsBegun s f)
        → TakeNoLonger s t → (i : ℕ) → i < s.count
        → ComesWithin s t (tail_time t f.bits) i (passing_sample s f b.won.station i)
        b.won.station (start_place s f b.won.station) }
{
    wl_topology::driven_laws();
    wl_wire::laws::machines_stay_in_step();
    wl_wire::laws::the_least_field_wins();
    wl_machine::laws::a_transmitter_sends_its_head_stuffed();
    wl_frame::laws::a_front_of_no_stuffing_ends_six_equal_bits();
    wl_frame::laws::ten_bits_have_an_edge();
}

/// Law: such times add up, and in whole units they are differences of instants.
pub fn times_add_up()
    ensures sum { (s : Stations) (t : Times) (one two i n j m k p : ℕ) → AreOnALine s
        → i < s.count → j < s.count → k < s.count
        → ComesWithin s t one j m k p → ComesWithin s t two i n j m → ComesWithin s t (one + two) i n k p }
    ensures more { (s : Stations) (t : Times) (less time i n k p : ℕ) → less ≤ time → ComesWithin s t less i n k p
        → ComesWithin s t time i n k p }
    ensures earlier { (s : Stations) (t : Times) (time i n m k p : ℕ) → n ≤ m → ComesWithin s t time i m k p
        → ComesWithin s t time i n k p }
    ensures whole { (s : Stations) (t : Times) (time i n k p : ℕ) → AreOnALine s → i < s.count → k < s.count
        → ComesWithin s t time i n k p
        → whole_instant t (s.clocks i) n ≤ whole_instant t (s.clocks k) p + time }
    ensures later { (s : Stations) (t : Times) (time i n q k p : ℕ) → AreOnALine s → i < s.count → k < s.count
        → ComesWithin s t time i n k p → whole_instant t (s.clocks k) p + time < whole_instant t (s.clocks i) q
        → n < q }
{}

/// Law: a bus has such times, wherever within its tolerance each clock lies. Its shift is the greatest lag of a bit at another node, or the
/// greatest jump. If there is room for acknowledgements, neither is longer than a bit.
pub fn a_bus_has_times()
    ensures exact { (bus : Bus) (s : Stations) → AreOnALine s → HasStations bus s → TakeNoLonger s (bus_times bus) }
    ensures simple { (bus : Bus) (s : Stations) (chase : ℕ → ℕ) → AreOnALine s → HasStations bus s
        → HasRoomForAll s chase → TakeNoLonger s (bit_times bus) }
{}

/// Law: a station with a frame ready by its third bit of the intermission begins the next one within the time of this frame. Each bit that it
/// decides later adds a bit of its own. In the first frame of all a station begins when that is due at the latest.
pub fn the_next_frame_begins_in_time()
    ensures place { (s : Stations) (a b : Frame) → (next : IsBegunAfter s a b) → (i : ℕ)
        → has_next (resting_of s a b next) i ≡ true
        → start_place s b i ≤ following_place s a i + next.decides i * bit_quanta (s.lengths i) }
    ensures winner { (s : Stations) (a b : Frame) (t : Times) → AreStations s → HaveRoom s → (is : IsBegun s a)
        → (wins : IsBegun s b) → (next : IsBegunAfter s a b) → TakeNoLonger s t → next.decides wins.won.station ≡ 0
        → ComesWithin s t (frame_time t a.bits) wins.won.station (start_place s b wins.won.station)
        is.won.station (start_place s a is.won.station) }
    ensures first { (w : Waiting) (f : Frame) → f.outset ≡ first_outset w → (i : ℕ) → has_first w i ≡ true
        → start_place w.stations f i ≤ due_first w i }
{
    a_frame_lasts_no_longer();
    times_add_up();
}

/// Law: so frames without a gap begin in time, each within the times of all frames before it. And each passes every station by its tail.
pub fn frames_without_a_gap_begin_in_time()
    ensures begins { (s : Stations) (frames : ℕ → Frame) (count : ℕ) (t : Times) → AreStations s → HaveRoom s
        → (are : FollowOneAnother s frames count) → TakeNoLonger s t → (winner : ℕ → ℕ)
        → AreWinners s frames count are winner → (first n : ℕ) → HaveNoGap s frames count are winner first n
        → first + n < count
        → ComesWithin s t (frames_time t frames first n)
        (winner (first + n)) (start_place s (frames (first + n)) (winner (first + n)))
        (winner first) (start_place s (frames first) (winner first)) }
    ensures passes { (s : Stations) (frames : ℕ → Frame) (count : ℕ) (t : Times) → AreStations s → HaveRoom s
        → (are : FollowOneAnother s frames count) → TakeNoLonger s t → (winner : ℕ → ℕ)
        → AreWinners s frames count are winner → (first n : ℕ) → HaveNoGap s frames count are winner first n
        → first + n < count → (i : ℕ) → i < s.count
        → ComesWithin s t (frames_time t frames first n + tail_time t (frames (first + n)).bits)
        i (passing_sample s (frames (first + n)) (winner (first + n)) i)
        (winner first) (start_place s (frames first) (winner first)) }
{
    a_frame_lasts_no_longer();
    times_add_up();
    the_next_frame_begins_in_time();
}

/// Law: on a plan on which all frames get through each frame has passed every node by its tail after its winner's start of frame. So it is at
/// each quantum up to the end of the plan. What `margin` tests before it says that this is proved is enough, with the times of the family.
pub fn the_frames_of_a_plan_pass_in_time()
    ensures plan { (plan : Plan) (s : Stations) (t : Times) → AreStations s → HaveRoom s → TakeNoLonger s t
        → (all : AllGetThrough plan s) → PassByTheirTails plan s t all }
    ensures covered { (f : Buses) (plan : Plan) (clocks : ℕ → Steady) → IsSteadyPlan plan clocks
        → IsOfFamily f plan clocks → AreContents plan → SendAsFamily f plan → verdict_of plan f ≡ ForAny
        → is_covered plan ≡ true → leaves_room f ≡ true
        → (all : AllGetThrough plan (stations_of f plan clocks))
        × PassByTheirTails plan (stations_of f plan clocks) (bus_times (plain_bus f)) all }
{
    wl_bound::condition_laws();
    crate::one_frame::laws::a_plan_is_on_a_line();
    crate::one_frame::laws::a_sound_bus_has_room();
    crate::family_plans::laws::a_plan_has_stations();
    crate::family_plans::laws::a_covered_plan_has_first_frames();
    crate::clean_plans::laws::any_senders_are_clean();
    a_frame_lasts_no_longer();
    times_add_up();
    a_bus_has_times();
}
