//! What the word 'proved' promises, each law proved as the contract of a function that does nothing.

ghost use Rattle.std.specs.Prelude.{◌≡◌, ◌≤◌, ◌⊎◌, ℕ, true, length, All, List, None};
ghost use Rattle.wl_level.specs.declared.Level.{Level};
ghost use Rattle.wl_frame.specs.Grammar.{Content, IsContent, bits_of};
ghost use Rattle.wl_frame.specs.Stuffing.{Stuffs};
ghost use Rattle.wl_plan.specs.declared.plan.Plan.{Plan};
ghost use Rattle.wl_setup.specs.declared.bus.Bus.{Bus};
ghost use Rattle.wl_bound.specs.Conditions.{first_failure_of, plain};
ghost use Rattle.wl_bound.specs.Families.{Buses};
ghost use Rattle.wl_bound.specs.declared.condition.Senders.TheVariants.{Any, One};
ghost use Rattle.wl_bound.specs.Rooms.{leaves_room};
ghost use Rattle.wl_margin.specs.declared.reasons.Asked.{Asked};
ghost use Rattle.wl_margin.specs.declared.reasons.Asked.TheVariants.{ThisPlan};
ghost use Rattle.wl_margin.specs.Margins.{IsMarginText, IsTextFor};
ghost use Rattle.wl_serial.specs.Outcome.{outcome_of};
ghost use Rattle.wl_proved.specs.CleanRuns.{IsCleanRun, SaysClean};
ghost use Rattle.wl_proved.specs.LateEnds.{EndsLate, most_stuffed_bits};
ghost use Rattle.wl_proved.specs.PlansOfFamily.{IsPlanOfFamily, IsRunnable, SendsAlone};
ghost use Rattle.wl_proved.specs.Words.{IsFamilyOf, IsProvedForAny, IsProvedForOne};

/// Law: each plan of a family runs clean if the condition for margins holds for any senders, and the bus has room for them. If it holds for
/// one sender at a time, each plan runs clean on which one node alone has frames.
pub fn plans_of_a_family_run_clean()
    ensures any { (f : Buses) (plan : Plan) → IsPlanOfFamily f plan → first_failure_of f plain Any ≡ None
        → leaves_room f ≡ true → IsCleanRun plan }
    ensures one { (f : Buses) (plan : Plan) (sender : ℕ) → IsPlanOfFamily f plan → SendsAlone plan sender
        → first_failure_of f plain One ≡ None → IsCleanRun plan }
{
    wl_plan::checked_is_sound();
    wl_plan::simulation_laws();
    wl_report::clean_is_clean();
    wl_buses::one_sender::laws::a_covered_plan_is_one_of_these();
    wl_buses::one_sender::laws::one_sender_is_clean();
    wl_buses::clean_plans::laws::any_senders_are_clean();
    no_frame_has_more_bits();
}

/// Law: a plan of such a family that ends late enough leaves no frame unsent.
pub fn a_late_end_leaves_no_frame()
    ensures any { (f : Buses) (plan : Plan) → IsPlanOfFamily f plan → first_failure_of f plain Any ≡ None
        → leaves_room f ≡ true → EndsLate plan → All (λ node. node.unsent ≡ 0) (outcome_of plan).nodes }
    ensures one { (f : Buses) (plan : Plan) (sender : ℕ) → IsPlanOfFamily f plan → SendsAlone plan sender
        → first_failure_of f plain One ≡ None → EndsLate plan
        → All (λ node. node.unsent ≡ 0) (outcome_of plan).nodes }
{
    wl_plan::checked_is_sound();
    wl_plan::simulation_laws();
    wl_bound::condition_laws();
    wl_buses::one_sender::laws::a_covered_plan_is_one_of_these();
    wl_buses::one_sender::laws::one_sender_is_clean();
    wl_buses::one_frame::laws::a_plan_is_on_a_line();
    wl_buses::one_frame::laws::a_sound_bus_has_room();
    wl_buses::family_plans::laws::a_plan_has_stations();
    wl_buses::family_plans::laws::a_covered_plan_has_first_frames();
    wl_buses::clean_plans::laws::each_frame_ends_later();
    wl_buses::clean_plans::laws::any_senders_are_clean();
}

/// Law: what is asked of a family and of its plan can be met, and a plan can end late enough: by the nodes of examples/cyclic_500k.toml with
/// their first frames.
pub fn what_is_asked_can_be_met()
    ensures { (f : Buses) × (plan : Plan) × IsPlanOfFamily f plan × (first_failure_of f plain Any ≡ None)
        × (leaves_room f ≡ true) × EndsLate plan }
{
    wl_topology::topology_law();
    wl_plan::faultless_is_checked();
    no_frame_has_more_bits();
}

/// Law: no frame has more bits than that, stuff bits among them. So a plan may take that number for the bits of its longest frame.
pub fn no_frame_has_more_bits()
    ensures { (c : Content) (y : List Level) → IsContent c → Stuffs y (bits_of c) → length y ≤ most_stuffed_bits }
{
    wl_frame::laws::a_front_is_read_to_its_end();
}

/// Law: if the first line of a bus's margin says 'proved', the bus works. Let it say so for any senders. Then each plan of the family runs
/// clean: in the outcome of its simulation no node has found an error, and all error counters are 0. What has passed each node are the first
/// frames of one list, each sent by the node whose queue it is of, and received by all others. A node sends each frame of its queue once, and a
/// queue that is first in, first out in its order. The report says `clean` if no frame is left,
/// and none is left if the plan ends late enough. If the line says so for one sender at a time, it is so on each plan on which one node alone
/// has frames. The plan that was judged is of its family.
pub fn proved_means_clean()
    ensures any { (asked : Asked) (tick : ℕ) (bus : Bus) (f : Buses) (text : List ℕ)
        → IsFamilyOf asked bus f → IsTextFor asked tick bus text → IsProvedForAny f bus.names text
        → (plan : Plan) → IsPlanOfFamily f plan → IsCleanRun plan }
    ensures any_in_time { (asked : Asked) (tick : ℕ) (bus : Bus) (f : Buses) (text : List ℕ)
        → IsFamilyOf asked bus f → IsTextFor asked tick bus text → IsProvedForAny f bus.names text
        → (plan : Plan) → IsPlanOfFamily f plan → EndsLate plan → SaysClean plan }
    ensures one { (asked : Asked) (tick : ℕ) (bus : Bus) (f : Buses) (text : List ℕ)
        → IsFamilyOf asked bus f → IsTextFor asked tick bus text → IsProvedForOne f bus.names text
        → (plan : Plan) (sender : ℕ) → IsPlanOfFamily f plan → SendsAlone plan sender → IsCleanRun plan }
    ensures one_in_time { (asked : Asked) (tick : ℕ) (bus : Bus) (f : Buses) (text : List ℕ)
        → IsFamilyOf asked bus f → IsTextFor asked tick bus text → IsProvedForOne f bus.names text
        → (plan : Plan) (sender : ℕ) → IsPlanOfFamily f plan → SendsAlone plan sender
        → EndsLate plan → SaysClean plan }
    ensures own { (tick : ℕ) (bus : Bus) (f : Buses) (text : List ℕ) → IsFamilyOf ThisPlan bus f
        → IsMarginText tick bus text → IsProvedForAny f bus.names text ⊎ IsProvedForOne f bus.names text
        → IsRunnable bus.plan → length bus.deviations ≡ length bus.plan.nodes → IsPlanOfFamily f bus.plan }
{
    wl_margin::clocks_keep_pace();
    plans_of_a_family_run_clean();
    a_late_end_leaves_no_frame();
}
