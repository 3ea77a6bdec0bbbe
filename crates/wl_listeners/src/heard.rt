//! Laws of what a node hears that only listens, each proved as the contract of a function that does nothing.

ghost use Rattle.std.specs.Prelude.{◌≡◌, ◌<◌, ℕ, [], false};
ghost use Rattle.wl_plan.specs.declared.plan.Plan.{Plan};
ghost use Rattle.wl_plan.specs.Checked.{IsChecked};
ghost use Rattle.wl_bound.specs.Conditions.{IsSound};
ghost use Rattle.wl_bound.specs.Families.{Bus};
ghost use Rattle.wl_buses.specs.OneFrame.Answers.{HasRoomToAnswer};
ghost use Rattle.wl_buses.specs.OneFrame.Bounds.{HasStations};
ghost use Rattle.wl_buses.specs.OneFrame.Plans.{IsPlanOf};
ghost use Rattle.wl_buses.specs.OneFrame.Stations.{AreOnALine, AreStations, HaveRoom, Stations};
ghost use Rattle.wl_buses.specs.FrameEnd.Again.{LeavesRoomToRest};
ghost use Rattle.wl_buses.specs.OneListener.Beside.{with_listener};
ghost use Rattle.wl_buses.specs.OneListener.Muted.{LeavesRoomToListen};
ghost use Rattle.wl_buses.specs.FirstFrame.FirstFrames.{HasFirstFrames, queues_of};
ghost use Rattle.wl_buses.specs.CleanPlans.Clean.{AllGetThrough};
ghost use Rattle.wl_buses.specs.HeardFrames.Room.{HasRoomBeside};
ghost use Rattle.wl_listeners.specs.Heard.{HearsAll, IsListenerAt};
ghost use Rattle.wl_listeners.specs.Listeners.{IsWithoutListeners};

/// Law: a node of a plan that only listens receives each frame from its power-up on, if all frames get through on the plan without such nodes.
/// That is so if it has room beside the others, as if they heard it, and eleven bits' drift fits before its sample. It never finds an error,
/// its counters stay 0, and what has passed it are the first frames of the bus. Other nodes may only listen, too.
pub fn a_listener_of_a_plan_receives_each_frame()
    ensures { (plan other : Plan) (at : ℕ → ℕ) (i : ℕ) (s : Stations) (chase : ℕ → ℕ) → IsChecked plan
        → IsWithoutListeners other plan at → IsPlanOf other s → HasFirstFrames other (queues_of other) s
        → AreStations s → HaveRoom s → HasRoomBeside s chase → IsListenerAt plan other at i s
        → (all : AllGetThrough other s) → HearsAll plan other i s chase all }
{
    wl_plan::checked_is_sound();
    wl_plan::simulation_laws();
    wl_topology::driven_laws();
    wl_buses::first_frame::laws::a_plan_has_a_first_frame();
    wl_buses::heard_frames::laws::a_listener_receives_each_frame_of_a_line();
    wl_buses::heard_frames::laws::a_station_with_room_may_join();
}

/// Law: so it is by the bus of the others and of this node after them, as if it spoke. Let that bus meet the condition for margins, and leave
/// room for any senders, and for eleven bits' drift at this node. Then all frames of the others get through, and it receives each of them.
pub fn a_listener_with_room_receives_each_frame()
    ensures { (plan other : Plan) (at : ℕ → ℕ) (i : ℕ) (s : Stations) (bus : Bus) (chase : ℕ → ℕ) → IsChecked plan
        → IsWithoutListeners other plan at → IsPlanOf other s → other.disturbances ≡ []
        → HasFirstFrames other (queues_of other) s → AreOnALine (with_listener s) → HasStations bus (with_listener s)
        → IsSound bus → HasRoomToAnswer bus chase → LeavesRoomToRest bus chase → LeavesRoomToListen bus chase s.count
        → s.may_send s.count ≡ false → 1 < s.count → IsListenerAt plan other at i s
        → (all : AllGetThrough other s) × HearsAll plan other i s chase all }
{
    wl_buses::heard_frames::laws::a_bus_has_room_beside();
    wl_buses::clean_plans::laws::any_senders_are_clean();
    a_listener_of_a_plan_receives_each_frame();
}
