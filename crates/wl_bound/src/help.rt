//! Which change by a quantum helps most.
ghost use Rattle.std.specs.Prelude.{◌≡◌, ◌<◌};
ghost use Rattle.wl_bound.specs.Helps.{help_of, is_greater, is_possible, lack_row, or_better, reserve_in, reserve_of, spare_row, worse_of};
ghost use Rattle.wl_bound.specs.OneBuses.{the_bus};
ghost use Rattle.wl_bound.specs.declared.family.Source.TheVariants.{Together};

use crate::asked::AskedBus;
use crate::bus::OneBus;
use crate::condition::{Inequality, PLAIN, Senders};
use crate::family::{Change, Family, Setting};

/// More than any margin.
const NO_MARGIN: u128 = 1_267_650_600_228_229_401_496_703_205_376;

/// The least margin over all pairs and inequalities.
#[derive(Clone, Copy, Debug)]
struct Reserve {
    /// How much more the left side is than the right one.
    lack: u128,
    /// How much less.
    spare: u128,
}

/// The best change so far.
#[derive(Clone, Copy, Debug)]
struct Best {
    change: Option<Change>,
    reserve: Reserve,
}

impl Family {
    /// Returns the change that raises the least margin most, of those that the segments of every node allow: the first of `Change` if
    /// several do. `None` if none raises it, or if the condition doesn't hold with that one, so that it holds with none.
    pub fn first_help(&self, senders: Senders) -> Option<Change>
        ensures { result ≡ help_of self.now senders }
    {
        let bus = self.plain_bus();
        let none = Best {
            change: None,
            reserve: bus.reserve(senders),
        };
        let wider = self.or_better(senders, none, Change::WiderJump);
        let narrower = self.or_better(senders, wider, Change::NarrowerJump);
        let later = self.or_better(senders, narrower, Change::LaterSample);
        let best = self.or_better(senders, later, Change::EarlierSample);
        if best.reserve.lack == 0 {
            best.change
        } else {
            None
        }
    }

    /// Returns the better one.
    fn or_better(&self, senders: Senders, best: Best, change: Change) -> Best
        ensures { result ≡ or_better self.now senders best change }
    {
        if !self.is_possible(change) {
            return best;
        }
        let setting = Setting {
            change: Some(change),
            ..PLAIN
        };
        let bus = OneBus::new(self, setting);
        let reserve = bus.reserve(senders);
        if is_greater(&reserve, &best.reserve) {
            return Best {
                change: Some(change),
                reserve,
            };
        }
        best
    }

    /// True if the segments of every node allow a change.
    fn is_possible(&self, change: Change) -> bool
        ensures { result ≡ is_possible self.now change }
    {
        let mut refused = false;
        for i in 0..self.nodes() {
            refused = refused || change.of(&self.member(i).segments).is_err();
        }
        !refused
    }
}

impl<'f> OneBus<'f> {
    /// Returns the least margin.
    #[tactic(auto, unfolding(crate::specs::Helps::reserve_in))]
    fn reserve(&self, senders: Senders) -> Reserve
        requires together { self.now.setting.source ≡ Together }
        ensures { result ≡ reserve_in self.now.family.now self.now.setting senders }
    {
        let terms = self.terms_if_memory();
        let bus = OneBus {
            family: self.family,
            setting: self.setting,
            terms: terms.as_ref(),
            chases: self.chases,
        };
        let rows = bus.rows_for(senders);
        let asked = AskedBus {
            bus,
            senders,
            is_shared: bus.several(),
            rows: rows.as_ref(),
        };
        let drift = asked.reserve_of(Inequality::DriftFitsJump);
        let late = asked.reserve_of(Inequality::BitIsThereAtSample);
        let early = asked.reserve_of(Inequality::NoBitTooEarly);
        worse_of(&drift, &worse_of(&late, &early))
    }
}

impl<'f> AskedBus<'f> {
    /// Returns the least margin of an inequality.
    fn reserve_of(&self, inequality: Inequality) -> Reserve
        ensures { result ≡ reserve_of self.now.bus.family.now self.now.bus.setting self.now.senders inequality }
    {
        let mut lack = 0;
        let mut spare = NO_MARGIN;
        for i in 0..self.bus.nodes() {
            lack = lack.max(self.lack_row(inequality, i));
            spare = spare.min(self.spare_row(inequality, i));
        }
        Reserve { lack, spare }
    }

    /// Returns what the worst pair with node `i` lacks.
    fn lack_row(&self, inequality: Inequality, i: u8) -> u128
        requires node { i < (the_bus self.now.bus).nodes }
        ensures { result ≡ lack_row self.now.bus.family.now self.now.bus.setting self.now.senders inequality i }
    {
        let mut lack = 0;
        for j in 0..self.bus.nodes() {
            if self.bus.family.is_asked(inequality, i, j) {
                let sides = self.sides(inequality, i, j);
                lack = lack.max(sides.left.saturating_sub(sides.right));
            }
        }
        lack
    }

    /// Returns what it has to spare.
    fn spare_row(&self, inequality: Inequality, i: u8) -> u128
        requires node { i < (the_bus self.now.bus).nodes }
        ensures { result ≡ spare_row self.now.bus.family.now self.now.bus.setting self.now.senders inequality i }
    {
        let mut spare = NO_MARGIN;
        for j in 0..self.bus.nodes() {
            if self.bus.family.is_asked(inequality, i, j) {
                let sides = self.sides(inequality, i, j);
                spare = spare.min(sides.right.saturating_sub(sides.left));
            }
        }
        spare
    }
}

/// Returns the worse of two margins.
fn worse_of(one: &Reserve, other: &Reserve) -> Reserve
    ensures { result ≡ worse_of one.now other.now }
{
    Reserve {
        lack: one.lack.max(other.lack),
        spare: one.spare.min(other.spare),
    }
}

/// True if the first margin is greater.
fn is_greater(one: &Reserve, other: &Reserve) -> bool
    ensures { result ≡ is_greater one.now other.now }
{
    one.lack < other.lack || one.lack == other.lack && one.spare > other.spare
}
