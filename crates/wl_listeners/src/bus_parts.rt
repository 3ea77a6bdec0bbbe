//! Laws of a part of a bus, each proved as the contract of a function that does nothing.

ghost use Rattle.std.specs.Prelude.{◌≡◌, ◌<◌, ℕ, suc, [], length};
ghost use Rattle.wl_plan.specs.declared.plan.Plan.{Plan};
ghost use Rattle.wl_plan.specs.Checked.{IsChecked};
ghost use Rattle.wl_bound.specs.Conditions.{IsSound};
ghost use Rattle.wl_bound.specs.Families.{Bus};
ghost use Rattle.wl_buses.specs.OneFrame.Answers.{HasRoomToAnswer};
ghost use Rattle.wl_buses.specs.OneFrame.Bounds.{HasStations};
ghost use Rattle.wl_buses.specs.OneFrame.Plans.{IsPlanOf};
ghost use Rattle.wl_buses.specs.OneFrame.Stations.{AreOnALine, Stations};
ghost use Rattle.wl_buses.specs.FirstFrame.FirstFrames.{HasFirstFrames, queues_of};
ghost use Rattle.wl_buses.specs.FrameEnd.Again.{LeavesRoomToRest};
ghost use Rattle.wl_buses.specs.OneListener.Beside.{with_listener};
ghost use Rattle.wl_buses.specs.OneListener.Muted.{LeavesRoomToListen};
ghost use Rattle.wl_buses.specs.CleanPlans.Clean.{AllGetThrough};
ghost use Rattle.wl_listeners.specs.BusParts.{AreAllSenders, AreNodesOf, LeavesRoomToHear, OnlyOthersSend, bus_part, then_node};
ghost use Rattle.wl_listeners.specs.Heard.{HearsAll, IsListenerAt};
ghost use Rattle.wl_listeners.specs.Listeners.{IsWithoutListeners};

/// Law: a bus that meets the inequalities for any senders meets them with some of its nodes alone. For the condition for margins all that
/// send are among these nodes. The room to acknowledge, to rest and to listen needs no such thing. The numbers of edges to catch up stay.
pub fn a_part_of_a_bus_has_room()
    ensures sound { (whole : Bus) (at : ℕ → ℕ) (n : ℕ) → AreNodesOf whole at n → AreAllSenders whole at n
        → IsSound whole → IsSound (bus_part whole at n) }
    ensures answers { (whole : Bus) (at : ℕ → ℕ) (n : ℕ) (chase : ℕ → ℕ) → AreNodesOf whole at n
        → HasRoomToAnswer whole chase → HasRoomToAnswer (bus_part whole at n) (λ k. chase (at k)) }
    ensures rests { (whole : Bus) (at : ℕ → ℕ) (n : ℕ) (chase : ℕ → ℕ) → AreNodesOf whole at n
        → LeavesRoomToRest whole chase → LeavesRoomToRest (bus_part whole at n) (λ k. chase (at k)) }
    ensures listens { (whole : Bus) (at : ℕ → ℕ) (n i : ℕ) (chase : ℕ → ℕ) → AreNodesOf whole at n → i < n
        → LeavesRoomToHear whole chase (at i) → LeavesRoomToListen (bus_part whole at n) (λ k. chase (at k)) i }
{}

/// Law: so one bus of all nodes of a plan speaks for each of its listeners. Let the whole bus meet the condition for margins, leave room for
/// any senders, and for eleven bits' drift at a node that only listens. No listener sends on it. Then this node receives each frame.
pub fn a_listener_with_room_on_the_whole_bus_receives_each_frame()
    ensures { (plan other : Plan) (at : ℕ → ℕ) (i : ℕ) (s : Stations) (whole : Bus) (chase : ℕ → ℕ) → IsChecked plan
        → IsWithoutListeners other plan at → IsPlanOf other s → other.disturbances ≡ []
        → HasFirstFrames other (queues_of other) s → AreOnALine (with_listener s)
        → whole.nodes ≡ length plan.nodes → OnlyOthersSend whole other at
        → HasStations (bus_part whole (then_node at s.count i) (suc s.count)) (with_listener s)
        → IsSound whole → HasRoomToAnswer whole chase → LeavesRoomToRest whole chase → LeavesRoomToHear whole chase i
        → 1 < s.count → IsListenerAt plan other at i s → (all : AllGetThrough other s)
        × HearsAll plan other i s (λ k. chase (then_node at s.count i k)) all }
{
    a_part_of_a_bus_has_room();
    crate::heard::a_listener_with_room_receives_each_frame();
}
