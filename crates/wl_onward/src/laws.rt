//! Laws of plans that are one plan up to a tick, each proved as the contract of a function that does nothing.

ghost use Rattle.std.specs.Prelude.{◌≡◌, ◌+◌, ◌<◌, ℕ, true, length};
ghost use Rattle.wl_phase.specs.Clocks.{Steady};
ghost use Rattle.wl_plan.specs.declared.plan.Plan.{Plan};
ghost use Rattle.wl_plan.specs.Checked.{IsChecked};
ghost use Rattle.wl_plan.specs.PlanLine.{line_of, setup_at};
ghost use Rattle.wl_plan.specs.Simulation.{level};
ghost use Rattle.wl_bound.specs.Families.{Buses};
ghost use Rattle.wl_bound.specs.Rooms.{leaves_room};
ghost use Rattle.wl_bound.specs.Verdicts.{verdict_of};
ghost use Rattle.wl_bound.specs.declared.verdict.Verdict.TheVariants.{ForAny};
ghost use Rattle.wl_buses.specs.BothProofs.Plans.{IsOfFamily, IsSteadyPlan};
ghost use Rattle.wl_buses.specs.CleanLines.Lines.{line_history};
ghost use Rattle.wl_buses.specs.FamilyPlans.FamilyStations.{AreContents, NoneListens, SendAsFamily};
ghost use Rattle.wl_silence.specs.Shown.{ShowCleanSince};
ghost use Rattle.wl_silence.specs.Silences.{IsSilentFor};
ghost use Rattle.wl_silence.specs.SilentPlans.{NoneDisturbsSince, undisturbed_plan};
ghost use Rattle.wl_onward.specs.Plans.{IsPlanUpTo};
ghost use Rattle.wl_onward.specs.Silences.{AreFit, ShowsSilence, silence_ticks};

/// Law: plans that are one plan up to a tick do the same up to it. Each node drives the same, and is where the same levels put it. So a silence
/// that ends by that tick is one on each of them.
pub fn plans_are_one_up_to_a_tick()
    ensures levels { (plan other : Plan) (until i t : ℕ) → IsChecked plan → IsChecked other
        → IsPlanUpTo plan other until → i < length plan.nodes → t < until
        → level (line_of other) i t ≡ level (line_of plan) i t }
    ensures nodes { (plan other : Plan) (until i k : ℕ) → IsChecked plan → IsChecked other
        → IsPlanUpTo plan other until → i < length plan.nodes
        → ((j : ℕ) → j < k → (line_of plan).instant i j < until)
        → line_history (line_of other) (setup_at other) i k ≡ line_history (line_of plan) (setup_at plan) i k }
    ensures silence { (plan other : Plan) (from until : ℕ) (first : ℕ → ℕ) → IsChecked plan → IsChecked other
        → IsPlanUpTo plan other until → IsSilentFor (line_of plan) (setup_at plan) from until first
        → IsSilentFor (line_of other) (setup_at other) from until first }
{
    wl_plan::simulation_laws();
    wl_plan::checked_is_sound();
    wl_buses::both_proofs::laws::what_is_expected_is_driven();
}

/// Law: a silence that a run shows by its changes and its samples is one on the line of its plan. From some quantum of each node on all that was driven
/// before has come to it, and 36 of its bits follow. In all of them nobody drives dominant, and all nodes are on the bus and error active.
pub fn a_run_shows_its_silence()
    ensures { (plan : Plan) (clocks : ℕ → Steady) (from : ℕ) → IsSteadyPlan (undisturbed_plan plan) clocks
        → IsChecked plan → AreFit plan (length plan.nodes) → ShowsSilence plan from
        → NoneDisturbsSince plan from
        × (first : ℕ → ℕ) × IsSilentFor (line_of plan) (setup_at plan) from (from + silence_ticks plan + 1) first }
{
    wl_plan::simulation_laws();
    wl_plan::checked_is_sound();
}

/// Law: so a silence on one plan cleans each plan that is the same up to its end, whatever frames become ready afterwards, and whenever that plan
/// ends. From the silence on no node finds an error, no counter rises, and first frames of one list pass each node. What `margin` tests of the
/// plan without its disturbances is enough, if none of its nodes only listens.
pub fn each_plan_is_clean_after_a_silence()
    ensures { (f : Buses) (plan other : Plan) (clocks : ℕ → Steady) (from until : ℕ) (first : ℕ → ℕ)
        → IsChecked plan → IsChecked other → IsPlanUpTo plan other until
        → IsSteadyPlan (undisturbed_plan other) clocks → IsOfFamily f (undisturbed_plan other) clocks
        → NoneListens other → AreContents other → SendAsFamily f other
        → verdict_of (undisturbed_plan other) f ≡ ForAny → leaves_room f ≡ true
        → NoneDisturbsSince other from → IsSilentFor (line_of plan) (setup_at plan) from until first
        → ShowCleanSince (line_of other) (setup_at other) first }
{
    plans_are_one_up_to_a_tick();
    wl_silence::laws::a_bus_shows_clean_after_a_silence();
}

/// Law: so a run that shows a silence speaks for each plan that is the same up to the silence's end: there is that silence, and the bus is clean
/// since then.
pub fn a_silent_run_speaks_for_each_plan()
    ensures { (f : Buses) (plan other : Plan) (clocks : ℕ → Steady) (from : ℕ) → IsChecked plan → IsChecked other
        → IsSteadyPlan (undisturbed_plan plan) clocks → AreFit plan (length plan.nodes) → ShowsSilence plan from
        → IsPlanUpTo plan other (from + silence_ticks plan + 1)
        → IsSteadyPlan (undisturbed_plan other) clocks → IsOfFamily f (undisturbed_plan other) clocks
        → NoneListens other → AreContents other → SendAsFamily f other
        → verdict_of (undisturbed_plan other) f ≡ ForAny → leaves_room f ≡ true → NoneDisturbsSince other from
        → (first : ℕ → ℕ) × IsSilentFor (line_of other) (setup_at other) from (from + silence_ticks plan + 1) first
        × ShowCleanSince (line_of other) (setup_at other) first }
{
    a_run_shows_its_silence();
    plans_are_one_up_to_a_tick();
    each_plan_is_clean_after_a_silence();
}
