//! Laws of nodes that change nothing for others, each proved as the contract of a function that does nothing.

ghost use Rattle.std.specs.Prelude.{◌≡◌, ℕ, ◌<◌, ◌≤◌, List, [], length};
ghost use Rattle.wl_frame.specs.Grammar.{Content};
ghost use Rattle.wl_wire.specs.InStep.{AreSoundFrames};
ghost use Rattle.wl_wire.specs.Wire.{Event, bus, idle_wire, wire_after};
ghost use Rattle.wl_plan.specs.declared.plan.Plan.{Plan};
ghost use Rattle.wl_plan.specs.Checked.{IsChecked};
ghost use Rattle.wl_plan.specs.Line.{Line};
ghost use Rattle.wl_plan.specs.PlanLine.{line_of, table_of};
ghost use Rattle.wl_plan.specs.Simulation.{AreInside, changes_below, history, level, seen};
ghost use Rattle.wl_plan.specs.Sound.{IsCausal};
ghost use Rattle.wl_serial.specs.Outcome.{node_outcome_of};
ghost use Rattle.wl_listeners.specs.Listeners.{IsWithoutLateNodes, IsWithoutListeners};
ghost use Rattle.wl_listeners.specs.Parts.{IsPart};
ghost use Rattle.wl_listeners.specs.Wires.{bus_beside, wire_beside};

/// Law: a part of the nodes of a line goes by itself as it goes in the whole, up to a tick. No level that others drive dominant arrives at the
/// part before that. Each of its nodes has seen the same levels by each tick, drives the same, and changes its drive at the same ticks. That
/// holds of every line, also if nodes are disturbed or find errors.
pub fn a_part_goes_as_in_the_whole()
    ensures seen { (part whole : Line) (at : ℕ → ℕ) (until : ℕ) → IsCausal whole → IsPart part whole at until
        → (i t : ℕ) → i < part.nodes → t ≤ until → (history part t).seen i ≡ (history whole t).seen (at i) }
    ensures drives { (part whole : Line) (at : ℕ → ℕ) (until : ℕ) → IsCausal whole → IsPart part whole at until
        → (i t : ℕ) → i < part.nodes → t < until → level part i t ≡ level whole (at i) t }
    ensures changes { (part whole : Line) (at : ℕ → ℕ) (until : ℕ) → IsCausal whole → IsPart part whole at until
        → (i t : ℕ) → i < part.nodes → t ≤ until → changes_below part i t ≡ changes_below whole (at i) t }
{
    wl_topology::driven_laws();
    wl_plan::simulation_laws();
}

/// Law: so nodes that only listen change nothing on the bus of a plan (ISO 11898-1, bus monitoring). Take a plan, and one without some nodes that
/// only listen. Each node of that one has seen by each tick, and at each of its quanta before the end, what it has seen beside the listeners.
/// It changes its drive at the same ticks.
pub fn listeners_change_nothing()
    ensures seen { (plan other : Plan) (at : ℕ → ℕ) → IsChecked plan → IsWithoutListeners other plan at
        → (i t : ℕ) → i < length other.nodes
        → (history (line_of other) t).seen i ≡ (history (line_of plan) t).seen (at i) }
    ensures quanta { (plan other : Plan) (at : ℕ → ℕ) → IsChecked plan → IsChecked other
        → IsWithoutListeners other plan at → (i k : ℕ) → i < length other.nodes → AreInside (line_of other) i k
        → seen (line_of other) i k ≡ seen (line_of plan) (at i) k }
    ensures changes { (plan other : Plan) (at : ℕ → ℕ) → IsChecked plan → IsWithoutListeners other plan at
        → (i : ℕ) → i < length other.nodes → table_of other i ≡ table_of plan (at i) }
{
    wl_plan::checked_is_sound();
    wl_plan::simulation_laws();
    a_part_goes_as_in_the_whole();
}

/// Law: so a run shows of each node the same beside listeners and without them: what `run` reports of it.
pub fn a_node_shows_the_same_beside_listeners()
    ensures { (plan other : Plan) (at : ℕ → ℕ) → IsChecked plan → IsWithoutListeners other plan at
        → (i : ℕ) → i < length other.nodes → node_outcome_of other i ≡ node_outcome_of plan (at i) }
{
    listeners_change_nothing();
}

/// Law: and nodes that power up late change nothing before they may drive. Such a node waits for eleven recessive bits first, and so it is sure
/// to drive nothing for some quanta (`quiet_of`). Take a plan, and one without nodes that are sure to drive nothing before a tick. Up to that
/// tick each node of that one has seen what it has seen beside them, and changes its drive at the same ticks.
pub fn late_nodes_change_nothing_before()
    ensures seen { (plan other : Plan) (at : ℕ → ℕ) (until : ℕ) → IsChecked plan
        → IsWithoutLateNodes other plan at until → (i t : ℕ) → i < length other.nodes → t ≤ until
        → (history (line_of other) t).seen i ≡ (history (line_of plan) t).seen (at i) }
    ensures changes { (plan other : Plan) (at : ℕ → ℕ) (until : ℕ) → IsChecked plan
        → IsWithoutLateNodes other plan at until → (i t : ℕ) → i < length other.nodes → t ≤ until
        → changes_below (line_of other) i t ≡ changes_below (line_of plan) (at i) t }
{
    wl_plan::checked_is_sound();
    wl_plan::simulation_laws();
    a_part_goes_as_in_the_whole();
}

/// Law: a machine without frames adds nothing to the bus of machines in step, if there are two others at least: what it drives is an
/// acknowledgement, and some other one drives that, too (Bosch CAN 2.0 part B, section 3.2.1).
pub fn a_machine_without_frames_adds_nothing()
    ensures { (count : ℕ) (frames : ℕ → List Content) (events : List Event) (listener : ℕ) → AreSoundFrames count frames
        → 3 ≤ count → listener < count → frames listener ≡ []
        → bus (wire_after (idle_wire count frames) events)
        ≡ bus_beside (wire_after (idle_wire count frames) events) listener }
{
    wl_wire::laws::machines_stay_in_step();
    wl_wire::laws::machines_that_are_in_step_stay_so();
    wl_wire::laws::the_least_field_wins();
}

/// Law: so let such a machine only listen: what it drives reaches it alone. Then the same reaches each machine, itself too, as if it were one of
/// them. So what is proved of machines on one wire holds of it: it finds no error, and gets each frame (`all_get_each_frame` of wl_wire).
pub fn a_listener_goes_with_the_wire()
    ensures { (count : ℕ) (frames : ℕ → List Content) (events : List Event) (listener : ℕ) → AreSoundFrames count frames
        → 3 ≤ count → listener < count → frames listener ≡ [] → (k : ℕ) → k < count
        → (wire_beside listener (idle_wire count frames) events).past k
        ≡ (wire_after (idle_wire count frames) events).past k }
{
    a_machine_without_frames_adds_nothing();
}
