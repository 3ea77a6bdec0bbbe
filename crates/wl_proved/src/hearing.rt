//! What a run shows of a node that only listens, proved as the contract of a function that does nothing.

ghost use Rattle.std.specs.Prelude.{◌≡◌, ◌<◌, ℕ, [], false, length, true, None};
ghost use Rattle.wl_plan.specs.declared.plan.Plan.{Plan};
ghost use Rattle.wl_plan.specs.Checked.{IsChecked};
ghost use Rattle.wl_bound.specs.Conditions.{IsSound, first_failure_of, plain};
ghost use Rattle.wl_bound.specs.Families.{Bus, Buses, only_listens};
ghost use Rattle.wl_bound.specs.Rooms.{leaves_room};
ghost use Rattle.wl_bound.specs.declared.condition.Senders.TheVariants.{Any};
ghost use Rattle.wl_buses.specs.OneFrame.Answers.{HasRoomToAnswer};
ghost use Rattle.wl_buses.specs.OneFrame.Bounds.{HasStations};
ghost use Rattle.wl_buses.specs.OneFrame.Plans.{IsPlanOf};
ghost use Rattle.wl_buses.specs.OneFrame.Stations.{AreOnALine, Stations};
ghost use Rattle.wl_buses.specs.FirstFrame.FirstFrames.{HasFirstFrames, queues_of};
ghost use Rattle.wl_buses.specs.FrameEnd.Again.{LeavesRoomToRest};
ghost use Rattle.wl_buses.specs.OneListener.Beside.{with_listener};
ghost use Rattle.wl_buses.specs.OneListener.Muted.{LeavesRoomToListen};
ghost use Rattle.wl_listeners.specs.Heard.{IsListenerAt};
ghost use Rattle.wl_listeners.specs.Listeners.{IsWithoutListeners};
ghost use Rattle.wl_proved.specs.Beside.{AreCleanBeside, HearsCleanRun};
ghost use Rattle.wl_proved.specs.Listened.{IsPlanWithListeners, IsSpeakingPart, hear_all};

/// Law: a node that only listens shows no error in the outcome of a plan's run, and both of its error counters are 0. It has received the first
/// frames on the bus, and nothing else. Let the bus of the other nodes and of this one after them meet the condition for margins, as if this
/// node spoke. It leaves room for any senders, and for eleven bits' drift at this node. Whatever other listeners the plan has changes nothing.
pub fn listeners_receive_all_frames()
    ensures { (plan other : Plan) (at : ℕ → ℕ) (i : ℕ) (s : Stations) (bus : Bus) (chase : ℕ → ℕ) → IsChecked plan
        → IsChecked other → IsWithoutListeners other plan at → IsPlanOf other s → other.disturbances ≡ []
        → HasFirstFrames other (queues_of other) s → AreOnALine (with_listener s) → HasStations bus (with_listener s)
        → IsSound bus → HasRoomToAnswer bus chase → LeavesRoomToRest bus chase → LeavesRoomToListen bus chase s.count
        → s.may_send s.count ≡ false → 1 < s.count → IsListenerAt plan other at i s → HearsCleanRun other plan i }
{
    wl_plan::checked_is_sound();
    wl_plan::simulation_laws();
    wl_report::clean_is_clean();
    wl_listeners::heard::a_listener_with_room_receives_each_frame();
}

/// Law: so it is of each node of a family's plan that only listens, by tests alone. Let the condition for margins hold for any senders of the
/// family, with its listeners, and let the family leave room for any senders, as if these spoke. Eleven bits' drift fits at each listener. Then
/// all other nodes are clean beside the listeners, and each listener receives the first frames on the bus and nothing else.
pub fn a_family_has_its_listeners()
    ensures { (f : Buses) (plan other : Plan) (at : ℕ → ℕ) (i : ℕ) → IsPlanWithListeners f plan
        → IsSpeakingPart other plan at → first_failure_of f plain Any ≡ None → leaves_room f ≡ true
        → hear_all f ≡ true → i < length plan.nodes → only_listens plan.topology i ≡ true
        → HearsCleanRun other plan i × AreCleanBeside other plan at }
{
    wl_plan::checked_is_sound();
    wl_plan::simulation_laws();
    wl_report::clean_is_clean();
    wl_bound::condition_laws();
    wl_buses::family_plans::laws::a_family_leaves_room();
    wl_buses::family_plans::laws::a_covered_plan_has_first_frames();
    wl_buses::first_frame::laws::a_plan_has_a_first_frame();
    wl_listeners::bus_parts::a_listener_with_room_on_the_whole_bus_receives_each_frame();
    wl_listeners::laws::a_node_shows_the_same_beside_listeners();
}
