//! Laws of the acknowledgement of a frame with several senders, each proved as the contract of a function that does nothing.

ghost use Rattle.std.specs.Prelude.{◌≡◌, ◌<◌, ◌≤◌, ℕ, suc, true, Bool};
ghost use Rattle.wl_bound.specs.Families.{Bus};
ghost use Rattle.wl_buses.specs.OneFrame.Acknowledged.{AreAllClose, CatchUp, IsAcknowledgedByAll, IsAnsweredByAll, answering, answering_by, chased_way, gathered_by, gathered_way, most_overrun};
ghost use Rattle.wl_buses.specs.OneFrame.Answers.{HasRoomToAnswer};
ghost use Rattle.wl_buses.specs.OneFrame.Bounds.{HasStations};
ghost use Rattle.wl_buses.specs.OneFrame.Course.{IsCourse, since_edge, still_sends};
ghost use Rattle.wl_buses.specs.OneFrame.Starts.{Start};
ghost use Rattle.wl_buses.specs.OneFrame.Stations.{AreClose, AreOnALine, AreStations, FitsBut, HaveRoom, HaveRoomToSample, HaveWays, Stations, with_longer_ways};

/// Law: an acknowledgement is sampled by all. One sender is left, and each other station drives the ACK slot dominant. If any two are
/// close, and there is room for bits of each, then each station samples the slot dominant, and the delimiters on both sides recessive.
/// From then on the line is recessive up to the next frame. A jump may leave some ticks of what has gathered before the slot: then each two
/// are close afterwards but for these, and there is room with them.
pub fn all_sample_the_acknowledgement()
    ensures { (s : Stations) (way : ℕ → ℕ → ℕ) (more : ℕ → ℕ) (winner : ℕ) (place : ℕ → ℕ) (slot : Start) (over : ℕ → ℕ)
        (drove : ℕ → ℕ → Bool) (until : ℕ → ℕ) (since : ℕ) → AreStations (answering s way)
        → FitsBut (answering s way) more → HaveRoomToSample (with_longer_ways (answering s way) more)
        → IsAnsweredByAll s (with_longer_ways (answering s way) more).way winner place slot over drove until → since ≤ 9
        → AreAllClose s way since place
        → IsAcknowledgedByAll s (with_longer_ways (answering s way) more).way place slot over drove until }
{
    wl_topology::driven_laws();
}

/// Law: any two stations stay close over a frame, also two that don't send: but for there and back, a look if the loop of one is short, and
/// what gathers while one catches up with the winner. Two that go forward with an edge may drift apart, and it may move the one further.
/// `chase` has the number of edges in which each station catches up. An edge more puts all of that right but for `most_overrun`.
pub fn any_two_stay_close()
    ensures ways { (s : Stations) (winner : ℕ) (chase : ℕ → ℕ) → AreOnALine s
        → AreStations (answering s (gathered_way s winner chase))
        × AreStations (answering s (chased_way s winner chase)) }
    ensures fits { (s : Stations) (winner : ℕ) (chase : ℕ → ℕ) → AreOnALine s
        → FitsBut (answering s (gathered_way s winner chase)) (most_overrun s winner chase) }
    ensures close { (s : Stations) (bits : ℕ → Start) (drove : ℕ → ℕ → Bool) (length : ℕ) (until : ℕ → ℕ) (winner : ℕ)
        (chase : ℕ → ℕ) → AreStations s → HaveRoom s → IsCourse s bits drove length until → winner < s.count
        → still_sends s bits length winner ≡ true → CatchUp s winner chase
        → (n : ℕ) → n < length → AreAllClose s (gathered_way s winner chase) (since_edge s bits n) (bits n).place }
{
    wl_topology::driven_laws();
}

/// Law: so it is of any two stations if one of them answers, and if only those that answer are heard by others. Nobody follows a station
/// that doesn't answer: so of that one no way there and back is asked.
pub fn any_two_stay_close_if_one_answers()
    ensures { (s : Stations) (answers : ℕ → Bool) (way : ℕ → ℕ → ℕ) (bits : ℕ → Start) (drove : ℕ → ℕ → Bool)
        (length : ℕ) (until : ℕ → ℕ) (winner : ℕ) (chase : ℕ → ℕ) → AreStations s → HaveRoom s
        → HaveWays (answering_by s answers way)
        → ((k : ℕ) → k < s.count → s.may_send k ≡ true → answers k ≡ true) → IsCourse s bits drove length until
        → winner < s.count → still_sends s bits length winner ≡ true → CatchUp s winner chase
        → (n : ℕ) → n < length → AreClose (answering_by s answers (gathered_by s way winner chase)) answers
        (since_edge s bits n) (bits n).place }
{
    wl_topology::driven_laws();
}

/// Law: so each frame is acknowledged whose bits up to the CRC sequence are such a course, if there is room for bits of each station. Any
/// number of stations have begun it, and one still sends.
pub fn a_frame_is_acknowledged()
    ensures { (s : Stations) (bits : ℕ → Start) (drove : ℕ → ℕ → Bool) (n : ℕ) (until : ℕ → ℕ) (winner : ℕ)
        (chase : ℕ → ℕ) (slot : Start) (over after : ℕ → ℕ) → AreStations s → HaveRoom s
        → IsCourse s bits drove (suc n) until → winner < s.count → still_sends s bits (suc n) winner ≡ true
        → CatchUp s winner chase → HaveRoomToSample (answering s (chased_way s winner chase)) → since_edge s bits n ≤ 8
        → IsAnsweredByAll s (chased_way s winner chase) winner (bits (suc n)).due slot over drove after
        → IsAcknowledgedByAll s (chased_way s winner chase) (bits (suc n)).due slot over drove after }
{
    all_sample_the_acknowledgement();
    any_two_stay_close();
}

/// Law: a bus that meets these inequalities has room for acknowledgements, wherever within its tolerance each clock lies. They are those
/// of the condition for margins, of any two nodes as if both sent. Each node catches up with whoever wins in `chase` edges.
pub fn a_bus_has_room_to_answer()
    ensures room { (bus : Bus) (s : Stations) (chase : ℕ → ℕ) → AreOnALine s → HasStations bus s
        → HasRoomToAnswer bus chase
        → (winner : ℕ) → winner < s.count → s.may_send winner ≡ true
        → HaveRoomToSample (answering s (chased_way s winner chase)) }
    ensures catch { (bus : Bus) (s : Stations) (chase : ℕ → ℕ) → AreOnALine s → HasStations bus s
        → HasRoomToAnswer bus chase
        → (winner : ℕ) → winner < s.count → s.may_send winner ≡ true → CatchUp s winner chase }
{}
