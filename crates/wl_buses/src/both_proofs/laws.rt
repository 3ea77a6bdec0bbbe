//! Laws of a line whose nodes do what is expected, each proved as the contract of a function that does nothing.

ghost use Rattle.std.specs.Prelude.{◌≡◌, ℕ, ◌<◌, Bool};
ghost use Rattle.wl_topology.specs.Driven.{driven};
ghost use Rattle.wl_plan.specs.Line.{Line};
ghost use Rattle.wl_plan.specs.Simulation.{level, seen};
ghost use Rattle.wl_plan.specs.Sound.{IsCausal};
ghost use Rattle.wl_buses.specs.BothProofs.Expected.{IsExpected, levels_found};
ghost use Rattle.wl_buses.specs.BothProofs.Levels.{levels_before};

/// Law: what is expected of the nodes of a line is what they do. If each drives this as long as all do, up to a tick of its own, then all
/// do, and see what results.
pub fn what_is_expected_is_driven()
    ensures driven { (l : Line) (until : ℕ → ℕ) (drove : ℕ → ℕ → Bool) → IsCausal l → IsExpected l until drove
        → (i t : ℕ) → i < l.nodes → t < until i → level l i t ≡ drove i t }
    ensures seen { (l : Line) (until : ℕ → ℕ) (drove : ℕ → ℕ → Bool) → IsCausal l → IsExpected l until drove
        → (i k : ℕ) → i < l.nodes → ((j : ℕ) → j < k → l.instant i j < until i)
        → seen l i k ≡ levels_before (levels_found l drove i) k }
{
    wl_plan::simulation_laws();
}
