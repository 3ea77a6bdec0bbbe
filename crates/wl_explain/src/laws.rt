//! What the figures of a plan count, as the contract of a function with an empty body.

ghost use Rattle.std.specs.Prelude.{◌≡◌, ℕ, ◌<◌, max, length};
ghost use Rattle.wl_plan.specs.declared.plan.Plan.{Plan};
ghost use Rattle.wl_plan.specs.Checked.{IsChecked};
ghost use Rattle.wl_plan.specs.PlanLine.{line_of, setup_at};
ghost use Rattle.wl_plan.specs.Simulation.{ran};
ghost use Rattle.wl_explain.specs.Figures.{quanta_begun};

/// Law: the figures of a node count the quanta that the one-thread simulation of its plan has run at the end, and at least one.
pub fn figures_of_the_run()
    ensures { (plan : Plan) (i : ℕ) → IsChecked plan → i < length plan.nodes
        → quanta_begun plan.end (setup_at plan i).clock ≡ max (ran (line_of plan) i plan.end) 1 }
{
    wl_clock::ticks_increase();
    wl_plan::simulation_laws();
    wl_plan::checked_is_sound();
}
