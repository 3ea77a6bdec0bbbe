//! What the word 'proved' promises of a bus after a silence, proved as the contract of a function that does nothing.

ghost use Rattle.std.specs.Prelude.{◌≡◌, ℕ, true, List, None, length};
ghost use Rattle.wl_plan.specs.declared.plan.Plan.{Plan};
ghost use Rattle.wl_plan.specs.Checked.{IsChecked};
ghost use Rattle.wl_plan.specs.PlanLine.{line_of, setup_at};
ghost use Rattle.wl_setup.specs.declared.bus.Bus.{Bus};
ghost use Rattle.wl_setup.specs.declared.plan_text.PlanText.{PlanText};
ghost use Rattle.wl_bound.specs.Conditions.{first_failure_of, plain};
ghost use Rattle.wl_bound.specs.Families.{Buses};
ghost use Rattle.wl_bound.specs.declared.condition.Senders.TheVariants.{Any};
ghost use Rattle.wl_bound.specs.Rooms.{leaves_room};
ghost use Rattle.wl_margin.specs.declared.reasons.Asked.{Asked};
ghost use Rattle.wl_margin.specs.declared.reasons.Asked.TheVariants.{ThisPlan};
ghost use Rattle.wl_margin.specs.Margins.{IsTextFor};
ghost use Rattle.wl_silence.specs.Shown.{ShowCleanSince};
ghost use Rattle.wl_silence.specs.Silences.{IsSilentFor};
ghost use Rattle.wl_silence.specs.SilentPlans.{NoneDisturbsSince, undisturbed_plan};
ghost use Rattle.wl_traffic.specs.Silence.{IsSilenceLine};
ghost use Rattle.wl_traffic.specs.Traffic.{IsTrafficOfBus};
ghost use Rattle.wl_views.specs.declared.tick.Tick.{Tick};
ghost use Rattle.wl_proved.specs.PlansOfFamily.{IsPlanOfFamily};
ghost use Rattle.wl_proved.specs.Silence.{NamesCleanTick, SaysCleanFrom};
ghost use Rattle.wl_proved.specs.Words.{IsFamilyOf, IsProvedForAny};

/// Law: if the first line of a bus's margin says 'proved' for any senders, a silence cleans the bus. Take a plan that is of its family but for its
/// disturbances. Let these have passed, and let a silence follow in which all nodes are on the bus and error active. Since then no node finds an
/// error, no counter rises, and first frames of one list pass each node.
pub fn proved_means_clean_after_a_silence()
    ensures tests { (f : Buses) (plan : Plan) (from until : ℕ) (first : ℕ → ℕ) → IsChecked plan
        → IsPlanOfFamily f (undisturbed_plan plan) → first_failure_of f plain Any ≡ None → leaves_room f ≡ true
        → NoneDisturbsSince plan from → IsSilentFor (line_of plan) (setup_at plan) from until first
        → ShowCleanSince (line_of plan) (setup_at plan) first }
    ensures proved { (asked : Asked) (tick : ℕ) (bus : Bus) (f : Buses) (text : List ℕ)
        → IsFamilyOf asked bus f → IsTextFor asked tick bus text → IsProvedForAny f bus.names text
        → (plan : Plan) (from until : ℕ) (first : ℕ → ℕ) → IsChecked plan → IsPlanOfFamily f (undisturbed_plan plan)
        → NoneDisturbsSince plan from → IsSilentFor (line_of plan) (setup_at plan) from until first
        → ShowCleanSince (line_of plan) (setup_at plan) first }
{
    wl_buses::one_sender::laws::a_covered_plan_is_one_of_these();
    wl_buses::family_plans::laws::a_covered_plan_has_first_frames();
    wl_silence::laws::a_bus_shows_clean_after_a_silence();
}

/// Law: if the traffic of a disturbed run says from which tick on the bus is clean, proved, it is. The run has a silence by that tick. On each
/// plan that is the same up to there no node finds an error since, no counter rises, and first frames of one list pass each node: whatever frames
/// become ready afterwards, and whenever that plan ends. The plan of the run is such a plan.
pub fn traffic_means_clean_after_a_silence()
    ensures line { (tick : ℕ) (bus : Bus) (f : Buses) (line : List ℕ) → IsSilenceLine tick bus line
        → SaysCleanFrom line → IsFamilyOf ThisPlan bus f → IsChecked bus.plan
        → length bus.deviations ≡ length bus.plan.nodes → NamesCleanTick f bus.plan line }
    ensures text { (tick : Tick) (plain : PlanText) (bus : Bus) (f : Buses) (text : List ℕ)
        (is : IsTrafficOfBus tick plain bus text) → SaysCleanFrom is.1 → IsFamilyOf ThisPlan bus f
        → IsChecked bus.plan → length bus.deviations ≡ length bus.plan.nodes → NamesCleanTick f bus.plan is.1 }
{
    wl_level::place_laws();
    wl_margin::clocks_keep_pace();
    wl_onward::laws::a_run_shows_its_silence();
    wl_onward::laws::a_silent_run_speaks_for_each_plan();
}
