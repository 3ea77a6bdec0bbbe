//! The law of waits on a line, proved as the contract of a function that does nothing.

ghost use Rattle.std.specs.Prelude.{ℕ};
ghost use Rattle.wl_counts.specs.Instances.{AreEnoughByInstances};
ghost use Rattle.wl_node.specs.declared.setup.NodeSetup.{NodeSetup};
ghost use Rattle.wl_plan.specs.Line.{Line};
ghost use Rattle.wl_buses.specs.OneFrame.Stations.{AreStations, HaveRoom, Stations};
ghost use Rattle.wl_buses.specs.FirstFrame.FirstStarts.{AreIdle};
ghost use Rattle.wl_buses.specs.NextFrames.Frames.{HasRoomForAll};
ghost use Rattle.wl_buses.specs.CleanLines.Lines.{FramesOfLine, HaveSegments, IsPoweredUp, LineGetsThrough};
ghost use Rattle.wl_buses.specs.CleanLines.Lines.{waiting_with};
ghost use Rattle.wl_buses.specs.FrameTimes.Times.{TakeNoLonger, Times};
ghost use Rattle.wl_buses.specs.TakesPart.Decisions.{AllMayDecide};
ghost use Rattle.wl_buses.specs.BoundedWaits.LineBounds.{LinePassesInTime, LineWaitsNoLonger};
ghost use Rattle.wl_buses.specs.BoundedWaits.Messages.{AreReadyLate, DelayNoLonger, Delays, HaveMessages};
ghost use Rattle.wl_buses.specs.BoundedWaits.Messages.{Messages, terms_of};
ghost use Rattle.wl_buses.specs.BoundedWaits.QueuedFrames.{BlockNoLonger, table_by};

/// Law: so it is on lines, whenever they end: no frame waits longer than the bound of its message. Whoever has been for longer than that after
/// a frame of its own was ready has sent it. A plan ends after its quanta, a line may go on for hours.
pub fn waits_on_a_line_are_bounded()
    ensures frames { (setups : ℕ → NodeSetup) (s : Stations) (bus : FramesOfLine setups (waiting_with setups s))
        (t : Times) (ms : Messages) (d : Delays) (chase blocking whole r : ℕ → ℕ) (w : ℕ → ℕ → ℕ)
        → HaveSegments setups s → AreStations s → HaveRoom s → HasRoomForAll s chase → AllMayDecide s chase
        → AreIdle (waiting_with setups s)
        → TakeNoLonger s t → HaveMessages s setups ms → AreReadyLate s setups → DelayNoLonger s t ms d
        → BlockNoLonger (terms_of t ms d) blocking
        → AreEnoughByInstances (table_by (terms_of t ms d) blocking r) d.period whole w r
        → LineWaitsNoLonger setups s bus t ms r }
    ensures line { (l : Line) (setups : ℕ → NodeSetup) (s : Stations) (t : Times) (ms : Messages) (d : Delays)
        (chase blocking whole r : ℕ → ℕ) (w : ℕ → ℕ → ℕ) → IsPoweredUp l setups (waiting_with setups s)
        → AreStations s → HaveRoom s → HasRoomForAll s chase → AllMayDecide s chase → TakeNoLonger s t
        → HaveMessages s setups ms
        → AreReadyLate s setups → DelayNoLonger s t ms d → BlockNoLonger (terms_of t ms d) blocking
        → AreEnoughByInstances (table_by (terms_of t ms d) blocking r) d.period whole w r
        → (all : LineGetsThrough l setups (waiting_with setups s)) × LineWaitsNoLonger setups s all.bus t ms r
        × LinePassesInTime l setups s all t ms r }
{
    wl_counts::laws::periods_give_a_curve();
    wl_counts::laws::no_frame_waits_longer_by_instances();
    crate::next_frames::laws::stations_rest_after_a_frame();
    crate::sent_frames::winners::the_winner_sends_its_next_frame();
    crate::takes_part::laws::who_is_ready_takes_part();
    crate::takes_part::laws::who_loses_has_begun_with_its_next_frame();
    crate::takes_part::laws::nobody_decides_twice();
    crate::takes_part::laws::a_frame_begins_before_later_ones();
    crate::frame_times::laws::a_frame_lasts_no_longer();
    crate::clean_lines::laws::all_frames_of_a_line_get_through();
}
