//! How many members each class has.
ghost use Rattle.std.specs.Prelude.{◌≡◌, ◌<◌, ◌+◌, ◌^◌, ◌++◌, ◌∷◌, [], List, length, option_map};
ghost use Rattle.std.specs.List.{list_all};
ghost use Rattle.wl_sweep.specs.Family.{capped};
ghost use Rattle.wl_spikes.specs.declared.aftermath.Aftermath.{Aftermath as Found};
ghost use Rattle.wl_spikes.specs.Tallies.{class_tally, is_class, is_sound, spike_tally};

use crate::aftermath::{Aftermath, Class};

/// How many members are of a class, and which is the first.
#[derive(Clone, Copy, Debug, PartialEq, Eq)]
pub struct ClassTally {
    /// How many there are.
    pub count: u64,
    /// The number of the first, if there is one, counted from the first member that is tallied.
    pub first: Option<u64>,
}

/// What is found of some members.
#[derive(Clone, Copy, Debug, PartialEq, Eq)]
pub struct SpikeTally {
    /// How many there are.
    pub runs: u64,
    /// How many are clean or heal.
    pub sound: u64,
    /// Those of each class.
    pub clean: ClassTally,
    pub healed: ClassTally,
    pub late: ClassTally,
    pub unhealed: ClassTally,
    pub twice: ClassTally,
    pub missed: ClassTally,
    pub off: ClassTally,
    pub refused: ClassTally,
    /// The most ticks from a spike's end until no node is at a flag any more.
    pub longest: u64,
    /// The greatest transmit error counter at the end of a member.
    pub tec: u64,
    /// The greatest receive error counter at the end of a member.
    pub rec: u64,
}

/// Returns a place that much further on.
fn moved_on(by: u64, place: Option<u64>) -> Option<u64>
    ensures { result ≡ option_map (λ n. capped (by + n)) place }
{
    match place {
        Some(place) => Some(by.saturating_add(place)),
        None => None,
    }
}

impl ClassTally {
    /// Returns the tally of no member.
    fn none() -> ClassTally
        ensures { (class : _) → result ≡ class_tally class [] }
    {
        ClassTally {
            count: 0,
            first: None,
        }
    }

    /// Returns the tally of one member.
    fn of(class: Class, aftermath: Aftermath) -> ClassTally
        ensures { result ≡ class_tally class (aftermath ∷ []) }
    {
        if aftermath.class.rank() == class.rank() {
            ClassTally {
                count: 1,
                first: Some(0),
            }
        } else {
            ClassTally::none()
        }
    }

    /// Returns the tally of these members, which are `runs`, and after them those of another tally.
    fn then(self, runs: u64, other: ClassTally) -> ClassTally
        ensures { (class : _) (xs ys : List Found) → self ≡ class_tally class xs → other ≡ class_tally class ys
            → runs ≡ length xs → length xs + length ys < 2 ^ 64 → result ≡ class_tally class (xs ++ ys) }
    {
        ClassTally {
            count: self.count.saturating_add(other.count),
            first: self.first.or(moved_on(runs, other.first)),
        }
    }
}

impl SpikeTally {
    /// Returns the tally of no member.
    pub(crate) fn new() -> SpikeTally
        ensures { result ≡ spike_tally [] }
    {
        SpikeTally {
            runs: 0,
            sound: 0,
            clean: ClassTally::none(),
            healed: ClassTally::none(),
            late: ClassTally::none(),
            unhealed: ClassTally::none(),
            twice: ClassTally::none(),
            missed: ClassTally::none(),
            off: ClassTally::none(),
            refused: ClassTally::none(),
            longest: 0,
            tec: 0,
            rec: 0,
        }
    }

    /// Returns the tally of one member.
    pub(crate) fn of(aftermath: Aftermath) -> SpikeTally
        ensures { result ≡ spike_tally (aftermath ∷ []) }
    {
        SpikeTally {
            runs: 1,
            sound: u64::from(aftermath.class.rank() <= 1),
            clean: ClassTally::of(Class::Clean, aftermath),
            healed: ClassTally::of(Class::Healed, aftermath),
            late: ClassTally::of(Class::Late, aftermath),
            unhealed: ClassTally::of(Class::Unhealed, aftermath),
            twice: ClassTally::of(Class::Twice, aftermath),
            missed: ClassTally::of(Class::Missed, aftermath),
            off: ClassTally::of(Class::Off, aftermath),
            refused: ClassTally::of(Class::Refused, aftermath),
            longest: aftermath.trouble,
            tec: aftermath.tec,
            rec: aftermath.rec,
        }
    }

    /// True if every member is clean or heals.
    pub fn all_sound(self) -> bool
        ensures { (xs : List Found) → self ≡ spike_tally xs → result ≡ list_all is_sound xs }
    {
        self.sound == self.runs
    }

    /// Returns the tally of these members, and after them those of another tally.
    pub(crate) fn then(self, other: SpikeTally) -> SpikeTally
        ensures { (xs ys : List Found) → self ≡ spike_tally xs → other ≡ spike_tally ys → length xs + length ys < 2 ^ 64
            → result ≡ spike_tally (xs ++ ys) }
    {
        let runs = self.runs;
        SpikeTally {
            runs: runs.saturating_add(other.runs),
            sound: self.sound.saturating_add(other.sound),
            clean: self.clean.then(runs, other.clean),
            healed: self.healed.then(runs, other.healed),
            late: self.late.then(runs, other.late),
            unhealed: self.unhealed.then(runs, other.unhealed),
            twice: self.twice.then(runs, other.twice),
            missed: self.missed.then(runs, other.missed),
            off: self.off.then(runs, other.off),
            refused: self.refused.then(runs, other.refused),
            longest: self.longest.max(other.longest),
            tec: self.tec.max(other.tec),
            rec: self.rec.max(other.rec),
        }
    }
}
