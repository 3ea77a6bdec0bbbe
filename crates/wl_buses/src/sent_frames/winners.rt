//! Laws of the frames that win, each proved as the contract of a function that does nothing.

ghost use Rattle.std.specs.Prelude.{◌≡◌, ◌<◌, ℕ, suc, true, false, [], Some, slice_get};
ghost use Rattle.wl_machine.specs.Stretch.Sort.{Framing};
ghost use Rattle.wl_machine.specs.Judged.{stretch_of};
ghost use Rattle.wl_machine.specs.States.{stretch_by};
ghost use Rattle.wl_node.specs.declared.setup.NodeSetup.{NodeSetup};
ghost use Rattle.wl_buses.specs.BothProofs.Queues.{head_at};
ghost use Rattle.wl_buses.specs.OneFrame.Expected.{IsOutset, Outset, expected_bits};
ghost use Rattle.wl_buses.specs.OneFrame.Machines.{HasWon};
ghost use Rattle.wl_buses.specs.OneFrame.Stations.{AreOnALine, AreStations, HaveRoom, Stations};
ghost use Rattle.wl_buses.specs.FirstFrame.FirstStarts.{AreIdle, Waiting, first_outset};
ghost use Rattle.wl_buses.specs.FrameEnd.Asked.{EndsBefore};
ghost use Rattle.wl_buses.specs.NextFrames.Frames.{FollowOneAnother, Frame, IsBegun, IsBegunAfter, resting_of};
ghost use Rattle.wl_buses.specs.NextFrames.NextStarts.{decision_next};
ghost use Rattle.wl_buses.specs.SentFrames.Sending.{ByQueues, unsent_with};

/// Law: the frame that has won is the one with which the machine of its station has begun, if the station has begun with a start of frame of
/// its own.
pub fn the_winner_sends_the_frame_that_it_began()
    ensures { (s : Stations) (o : Outset) (end : ℕ) → AreStations s → HaveRoom s → IsOutset s o → EndsBefore s o end
        → (won : HasWon s (expected_bits s o) o.frames end) → o.start.joins won.station ≡ false
        → stretch_of (o.past won.station) ≡ stretch_by (Framing (Some won.frame)) [] }
{
    wl_topology::driven_laws();
    crate::one_frame::laws::machines_drive_as_a_course_asks();
    crate::one_frame::laws::what_is_expected_is_a_course();
    crate::one_frame::laws::all_sample_the_same_bits();
    crate::frame_end::laws::machines_answer_as_asked();
    wl_wire::laws::machines_stay_in_step();
    wl_wire::laws::the_least_field_wins();
    wl_machine::laws::a_transmitter_sends_its_head_stuffed();
    wl_frame::laws::a_front_of_no_stuffing_ends_six_equal_bits();
    wl_frame::laws::ten_bits_have_an_edge();
}

/// Law: a winner that has joined the start of frame sends the frame that it was handed with its sample of that.
pub fn the_winner_sends_the_frame_that_it_joined_with()
    ensures { (s : Stations) (o : Outset) (end : ℕ) → AreStations s → HaveRoom s → IsOutset s o → EndsBefore s o end
        → (won : HasWon s (expected_bits s o) o.frames end) → o.start.joins won.station ≡ true
        → slice_get (o.frames won.station) (o.handed 0 won.station).which ≡ Some won.frame }
{
    crate::one_frame::joining::a_station_that_joins_still_sends();
    crate::frame_end::laws::machines_answer_as_asked();
}

/// Law: so it is the frame that its station decided on. By queues it is the one that the queue handed the station at its decision.
pub fn the_winner_sends_its_next_frame()
    ensures first { (w : Waiting) (f : Frame) → AreStations w.stations → HaveRoom w.stations → AreIdle w
        → (is : IsBegun w.stations f) → f.outset ≡ first_outset w
        → slice_get (w.frames is.won.station) (w.which is.won.station) ≡ Some is.won.frame }
    ensures next { (s : Stations) (a b : Frame) → AreStations s → HaveRoom s → IsBegun s a → (is : IsBegun s b)
        → (after : IsBegunAfter s a b)
        → slice_get (a.outset.frames is.won.station) (after.which is.won.station) ≡ Some is.won.frame }
    ensures queued { (s : Stations) (setups : ℕ → NodeSetup) (frames : ℕ → Frame) (count : ℕ) → AreStations s
        → HaveRoom s → (are : FollowOneAnother s frames count) → (by : ByQueues s setups frames count are) → (n : ℕ)
        (less : suc n < count)
        → head_at (setups (by.winner (suc n)))
        (unsent_with s setups frames by.winner by.content (by.winner (suc n)) (suc n))
        (decision_next (resting_of s (frames n) (frames (suc n)) (are.next n less)) (by.winner (suc n)))
        ≡ Some (by.content (suc n)) }
{
    crate::one_frame::laws::idle_machines_may_begin_together();
    crate::one_frame::waits::idle_machines_may_wait();
    crate::next_frames::laws::stations_rest_after_a_frame();
    the_winner_sends_the_frame_that_it_began();
}
