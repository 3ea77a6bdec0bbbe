//! Laws of the next frame with several senders, each proved as the contract of a function that does nothing.

ghost use Rattle.std.specs.Prelude.{◌≡◌, ◌+◌, ◌<◌, ℕ, List};
ghost use Rattle.wl_machine.specs.Stretch.{Input};
ghost use Rattle.wl_buses.specs.OneFrame.Acknowledged.{chased_way};
ghost use Rattle.wl_buses.specs.OneFrame.Expected.{IsOutset, Outset, expected_bits, past_at};
ghost use Rattle.wl_buses.specs.OneFrame.Lines.{BeginsAfter};
ghost use Rattle.wl_buses.specs.OneFrame.Machines.{HasWon};
ghost use Rattle.wl_buses.specs.OneFrame.Stations.{AreOnALine, AreStations, HaveRoom, Stations};
ghost use Rattle.wl_buses.specs.FrameEnd.Again.{HasRoomToRest};
ghost use Rattle.wl_buses.specs.FrameEnd.Asked.{CanBeAnswered, EndsBefore};
ghost use Rattle.wl_buses.specs.NextFrames.NextStarts.{AreFreeNext, AreResting, HaveMore, Resting, outset_next, rest_next, resting_after};

/// Law: stations that rest begin the next frame together, if some have one. Whoever has decided to send before another one's start of
/// frame reaches it begins it: by itself when that is due, or earlier with the edge. All others follow the first edge that reaches them.
pub fn resting_stations_begin_the_next_frame()
    ensures outset { (r : Resting) (before : ℕ → List Input) → AreOnALine r.stations → AreResting r
        → AreFreeNext r.stations.count r.frames before → IsOutset r.stations (outset_next r before) }
    ensures after { (r : Resting) (before : ℕ → List Input) → AreOnALine r.stations → AreResting r
        → (i : ℕ) → i < r.stations.count → BeginsAfter r.stations (outset_next r before) i (rest_next r i) }
{
    crate::one_frame::waits::idle_machines_may_wait();
}

/// Law: after a frame stations are at rest so, each with the third bit of the intermission, if there is room for twelve bits' drift. With it
/// all machines are free, on one wire. It doesn't matter when each decides to send its next frame, nor how many it has sent.
pub fn stations_rest_after_a_frame()
    ensures free { (s : Stations) (o : Outset) (end : ℕ) → AreStations s → HaveRoom s → IsOutset s o
        → EndsBefore s o end → HasWon s (expected_bits s o) o.frames end
        → AreFreeNext s.count o.frames (past_at s o (end + 12)) }
    ensures rest { (s : Stations) (o : Outset) (end : ℕ) (chase sent decides : ℕ → ℕ) → AreStations s → HaveRoom s
        → IsOutset s o → EndsBefore s o end → (won : HasWon s (expected_bits s o) o.frames end)
        → CanBeAnswered s won.station chase → HasRoomToRest s (chased_way s won.station chase)
        → HaveMore s o.frames sent → AreResting (resting_after s o end sent decides) }
{
    crate::frame_end::laws::machines_answer_as_asked();
    crate::frame_end::laws::all_may_begin_again();
    crate::frame_end::laws::the_next_frame_finds_all_at_rest();
}
