//! How much longer the cable may be, and how much wider the tolerances.
ghost use Rattle.std.specs.Prelude.{◌≡◌, ℕ, ◌<◌, ◌≤◌, length};
ghost use Rattle.wl_topology.specs.Limits.{longest_delay};
ghost use Rattle.wl_bound.specs.Families.{way_between};
ghost use Rattle.wl_bound.specs.Oscillators.{greatest_tolerance};
ghost use Rattle.wl_bound.specs.Rooms.{is_roomy_grown};
ghost use Rattle.wl_bound.specs.SearchTests.{passes_grown};
ghost use Rattle.wl_bound.specs.Searches.{GrowsTo, IsBorderOf, IsGreatestOf, IsLongerCable, IsWiderTolerance, cable_ticks, each, grown_by, holds_grown, longest_growth, widest_growth};
ghost use Rattle.wl_bound.specs.Terms.{greatest};
ghost use Rattle.wl_bound.specs.declared.family.Source.TheVariants.{Together};
ghost use Rattle.wl_bound.specs.declared.search.Growth.TheVariants.{Longer};

use crate::bus::OneBus;
use crate::condition::Senders;
use crate::family::{Family, Setting, Source};
use crate::oscillator::GREATEST_TOLERANCE;
use wl_topology::LONGEST_DELAY;

/// What grows.
#[derive(Clone, Copy, Debug)]
pub enum Growth {
    /// A cable: its ticks from end to end, and the ticks of a unit of length.
    Longer(u32, u32),
    /// Every tolerance, in ppm.
    Wider,
}

/// What a search asks of a bus that grew.
#[derive(Clone, Copy, Debug)]
pub(crate) enum Test {
    /// The condition holds for these senders.
    Condition(Senders),
    /// There is room for any senders.
    Room,
}

impl Family {
    /// Returns by how many units of length the cable may be longer, all places moved apart by one factor. It is the greatest number with
    /// which the condition holds and the cable takes at most 1,048,576 ticks.
    ///
    /// `None` if the condition doesn't hold as it is, if all nodes sit at one place, or if a level takes no time along the cable.
    pub fn longer_cable(&self, senders: Senders) -> Option<u32>
        ensures { IsLongerCable self.now senders result }
    {
        let length = self.cable_ticks();
        if length == 0 {
            return None;
        }
        let per = self.per() as u32;
        let limit = (LONGEST_DELAY as u32 - length) / per;
        self.greatest(senders, Growth::Longer(length, per), limit)
    }

    /// Returns by how many ppm every tolerance may grow: the greatest number with which the condition holds and no tolerance is above
    /// 100,000 ppm. `None` if the condition doesn't hold as it is.
    pub fn wider_tolerance(&self, senders: Senders) -> Option<u32>
        ensures { IsWiderTolerance self.now senders result }
    {
        self.greatest(senders, Growth::Wider, self.widest_growth())
    }

    /// Returns what grows with a longer cable: one of these ticks from end to end, of these ticks for a unit of length.
    pub fn cable_growth(&self) -> Growth
        requires { 0 < cable_ticks self.now }
        ensures value { result ≡ Longer (cable_ticks self.now) self.now.cable.per }
        ensures fits { (n : ℕ) → n ≤ longest_growth self.now → GrowsTo result n }
    {
        let length = self.cable_ticks();
        let per = self.per() as u32;
        Growth::Longer(length, per)
    }

    /// Returns by how much something may grow with room left, up to a limit, by halving: with that much there is room, and with one more there
    /// is none, unless it is the limit. `None` if there is none as it is.
    pub fn roomy_growth(&self, growth: Growth, limit: u32) -> Option<u32>
        requires { GrowsTo growth limit }
        ensures { IsBorderOf (is_roomy_grown self.now growth) limit result }
    {
        self.border(Test::Room, growth, limit)
    }

    /// Returns the most by which something may grow while the condition holds, up to a limit.
    fn greatest(&self, senders: Senders, growth: Growth, limit: u32) -> Option<u32>
        requires { GrowsTo growth limit }
        ensures { IsGreatestOf (holds_grown self.now senders growth) limit result }
    {
        self.border(Test::Condition(senders), growth, limit)
    }

    /// True if the bus that grew by `n` passes a test.
    fn passes(&self, test: Test, growth: Growth, n: u32) -> bool
        requires { GrowsTo growth n }
        ensures { result ≡ passes_grown self.now test growth n }
    {
        let bus = OneBus::new(self, grown_by(growth, n));
        match test {
            Test::Condition(senders) => bus.first_failure(senders).is_none(),
            Test::Room => {
                let terms = bus.terms_if_memory();
                let bus = OneBus {
                    family: bus.family,
                    setting: bus.setting,
                    terms: terms.as_ref(),
                    chases: bus.chases,
                };
                bus.is_roomy()
            }
        }
    }

    /// Returns how far something may grow and pass a test, by halving.
    fn border(&self, test: Test, growth: Growth, limit: u32) -> Option<u32>
        requires { GrowsTo growth limit }
        ensures { IsBorderOf (passes_grown self.now test growth) limit result }
    {
        if !self.passes(test, growth, 0) {
            return None;
        }
        if self.passes(test, growth, limit) {
            return Some(limit);
        }
        let mut low = 0;
        let mut high = limit;
        while high - low > 1 {
            let middle = low + (high - low) / 2;
            if self.passes(test, growth, middle) {
                low = middle;
            } else {
                high = middle;
            }
        }
        Some(low)
    }

    /// Returns the ticks that a level takes along the cable between the two nodes that are furthest apart.
    fn cable_ticks(&self) -> u32
        ensures value { result ≡ cable_ticks self.now }
        ensures most { result ≤ longest_delay }
    {
        let mut longest = 0;
        for i in 0..self.nodes() {
            longest = longest.max(self.furthest_from(i));
        }
        longest
    }

    /// Returns the ticks along the cable from node `i` to the furthest one.
    fn furthest_from(&self, i: u8) -> u32
        requires { i < length self.now.members }
        ensures value { result ≡ greatest (length self.now.members) each (way_between self.now.cable i) }
        ensures most { result ≤ longest_delay }
    {
        let mut furthest = 0;
        for j in 0..self.nodes() {
            furthest = furthest.max(self.way_between(i, j) as u32);
        }
        furthest
    }

    /// Returns by how many ppm every tolerance can grow and stay one.
    fn widest_growth(&self) -> u32
        ensures value { result ≡ widest_growth self.now }
        ensures most { result ≤ greatest_tolerance }
    {
        let mut greatest = 0;
        for i in 0..self.nodes() {
            greatest = greatest.max(self.member(i).oscillator.tolerance());
        }
        GREATEST_TOLERANCE - greatest
    }
}

/// Returns the setting that grew by `n`: by units of length or by ppm, and any nodes with frames send.
pub(crate) fn grown_by(growth: Growth, n: u32) -> Setting
    requires { GrowsTo growth n }
    ensures value { result ≡ grown_by growth n }
    ensures together { result.source ≡ Together }
{
    let source = Source::Together;
    match growth {
        Growth::Longer(length, per) => Setting {
            source,
            change: None,
            wider: 0,
            length,
            longer: n * per,
        },
        Growth::Wider => Setting {
            source,
            change: None,
            wider: n,
            length: 1,
            longer: 0,
        },
    }
}
