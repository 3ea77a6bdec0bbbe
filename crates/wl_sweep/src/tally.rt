//! How many members are clean, and which is the first that isn't.
ghost use Rattle.std.specs.Prelude.{◌≡◌, ◌+◌, ◌^◌, ◌<◌, List, [], ◌∷◌, ◌++◌, length, option_map};
ghost use Rattle.std.specs.List.{list_all};
ghost use Rattle.wl_sweep.specs.Family.{capped};
ghost use Rattle.wl_sweep.specs.Findings.{is_clean};
ghost use Rattle.wl_sweep.specs.declared.finding.Finding.{Finding as AFinding};
ghost use Rattle.wl_sweep.specs.Tallies.{counts_of, tally_of};

use crate::finding::Finding;
use wl_parts::RowCounts;

/// How many of some members are clean, and which is the first that isn't, counted from 0.
#[derive(Clone, Copy, Debug, PartialEq, Eq)]
pub struct Tally {
    /// The members that were run or refused.
    pub runs: u64,
    /// Those that are clean.
    pub clean: u64,
    /// Those that only end too early.
    pub early: u64,
    /// Those that were refused.
    pub refused: u64,
    /// The first that was run and isn't clean.
    pub first: Option<u64>,
    /// The first that was refused.
    pub first_refused: Option<u64>,
}

/// Returns a place among members that come after this many others.
fn shifted(before: u64, place: Option<u64>) -> Option<u64>
    ensures { result ≡ option_map (λ n. capped (before + n)) place }
{
    match place {
        Some(place) => Some(before.saturating_add(place)),
        None => None,
    }
}

impl Tally {
    /// Returns the tally of no member.
    pub fn new() -> Tally
        ensures { result ≡ tally_of [] }
    {
        Tally {
            runs: 0,
            clean: 0,
            early: 0,
            refused: 0,
            first: None,
            first_refused: None,
        }
    }

    /// Returns the tally of one member.
    pub fn of(finding: &Finding) -> Tally
        ensures { result ≡ tally_of (finding.now ∷ []) }
    {
        Tally {
            runs: 1,
            clean: u64::from(finding.is_clean()),
            early: u64::from(finding.is_early()),
            refused: u64::from(finding.is_refused()),
            first: if finding.is_unclean() { Some(0) } else { None },
            first_refused: if finding.is_refused() { Some(0) } else { None },
        }
    }

    /// Returns its counts.
    pub(crate) fn counts(self) -> RowCounts
        ensures { result ≡ counts_of self }
    {
        RowCounts {
            runs: self.runs,
            clean: self.clean,
            early: self.early,
            refused: self.refused,
        }
    }

    /// True if every member is clean: none is refused, and none that was run is anything else.
    pub fn all_clean(self) -> bool
        ensures { (xs : List AFinding) → self ≡ tally_of xs → result ≡ list_all is_clean xs }
    {
        self.clean == self.runs
    }

    /// Returns the tally of these members, and after them those of another tally.
    pub fn then(self, other: Tally) -> Tally
        ensures { (xs ys : List AFinding) → self ≡ tally_of xs → other ≡ tally_of ys → length xs + length ys < 2 ^ 64
            → result ≡ tally_of (xs ++ ys) }
    {
        Tally {
            runs: self.runs.saturating_add(other.runs),
            clean: self.clean.saturating_add(other.clean),
            early: self.early.saturating_add(other.early),
            refused: self.refused.saturating_add(other.refused),
            first: self.first.or(shifted(self.runs, other.first)),
            first_refused: self
                .first_refused
                .or(shifted(self.runs, other.first_refused)),
        }
    }
}
