//! What a report says of resynchronising edges.

ghost use Rattle.std.specs.Prelude.{◌≡◌, ◌+◌, ◌<◌, ◌^◌, ◌++◌, [], ◌∷◌, ℕ, ℤ, List};
ghost use Rattle.wl_node.specs.Extremes.{least_phase_error, greatest_phase_error, phase_totals};

/// What a report says of resynchronising edges.
#[derive(Clone, Copy, Debug, PartialEq, Eq)]
pub struct PhaseTotals {
    /// How many there are.
    pub count: u64,
    /// The least phase error, in quanta.
    pub least: Option<i16>,
    /// The greatest one.
    pub greatest: Option<i16>,
}

impl PhaseTotals {
    /// Returns what a report says of these edges, each given as its quantum and its phase error in quanta.
    pub fn of(phases: &[(u64, i16)]) -> PhaseTotals
        ensures { result ≡ phase_totals phases.now }
    {
        let mut totals = PhaseTotals::none();
        for (_, error) in phases {
            totals.add(*error);
        }
        totals
    }

    /// Returns what it says of no edge.
    pub(crate) fn none() -> PhaseTotals
        ensures { result ≡ phase_totals [] }
    {
        PhaseTotals {
            count: 0,
            least: None,
            greatest: None,
        }
    }

    /// Counts one more edge, of this phase error.
    #[inline(always)]
    pub(crate) fn add(&mut self, error: i16)
        requires fits { self.old.count < 2 ^ 63 }
        ensures totals { (phases : List (ℕ × ℤ)) (quantum : ℕ) → self.old ≡ phase_totals phases
            → self.new ≡ phase_totals (phases ++ (quantum, error) ∷ []) }
        ensures count { self.new.count ≡ self.old.count + 1 }
    {
        self.count += 1;
        self.least = lesser(self.least, error);
        self.greatest = greater(self.greatest, error);
    }
}

/// Returns the least of some errors and one more, given the least of those.
#[inline(always)]
fn lesser(least: Option<i16>, error: i16) -> Option<i16>
    ensures { (errors : List ℤ) → least ≡ least_phase_error errors
        → result ≡ least_phase_error (errors ++ error ∷ []) }
{
    match least {
        Some(kept) if kept <= error => Some(kept),
        _ => Some(error),
    }
}

/// Returns the greatest of some errors and one more, given the greatest of those.
#[inline(always)]
fn greater(greatest: Option<i16>, error: i16) -> Option<i16>
    ensures { (errors : List ℤ) → greatest ≡ greatest_phase_error errors
        → result ≡ greatest_phase_error (errors ++ error ∷ []) }
{
    match greatest {
        Some(kept) if kept >= error => Some(kept),
        _ => Some(error),
    }
}
