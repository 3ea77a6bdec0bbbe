//! What the word 'proved' promises of the nodes beside some that only listen, proved as the contract of a function that does nothing.

ghost use Rattle.std.specs.Prelude.{ℕ, List};
ghost use Rattle.wl_plan.specs.declared.plan.Plan.{Plan};
ghost use Rattle.wl_plan.specs.Checked.{IsChecked};
ghost use Rattle.wl_listeners.specs.Listeners.{IsWithoutListeners};
ghost use Rattle.wl_setup.specs.declared.bus.Bus.{Bus};
ghost use Rattle.wl_bound.specs.Families.{Buses};
ghost use Rattle.wl_margin.specs.declared.reasons.Asked.{Asked};
ghost use Rattle.wl_margin.specs.Margins.{IsTextFor};
ghost use Rattle.wl_proved.specs.Beside.{AreCleanBeside};
ghost use Rattle.wl_proved.specs.CleanRuns.{IsCleanRun};
ghost use Rattle.wl_proved.specs.PlansOfFamily.{IsPlanOfFamily};
ghost use Rattle.wl_proved.specs.Words.{IsFamilyOf, IsProvedForAny};

/// Law: let a plan without its nodes that only listen run clean, as it does if the margin of its nodes says 'proved' for any senders. Then each
/// of its nodes is clean beside the listeners, too, whatever their clocks, segments, rules and times are.
pub fn the_others_are_clean_beside_listeners()
    ensures clean { (plan other : Plan) (at : ℕ → ℕ) → IsChecked plan → IsWithoutListeners other plan at
        → IsCleanRun other → AreCleanBeside other plan at }
    ensures proved { (asked : Asked) (tick : ℕ) (bus : Bus) (f : Buses) (text : List ℕ)
        → IsFamilyOf asked bus f → IsTextFor asked tick bus text → IsProvedForAny f bus.names text
        → (plan other : Plan) (at : ℕ → ℕ) → IsChecked plan → IsWithoutListeners other plan at
        → IsPlanOfFamily f other → AreCleanBeside other plan at }
{
    wl_listeners::laws::a_node_shows_the_same_beside_listeners();
    crate::laws::proved_means_clean();
}
