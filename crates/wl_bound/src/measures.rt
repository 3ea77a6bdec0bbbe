//! What one bus measures: its quanta, its ways, and who sends on it.
ghost use Rattle.std.specs.Prelude.{◌≡◌, ◌≢◌, ◌-◌, ◌*◌, ◌<◌, ◌≤◌};
ghost use Rattle.wl_segments.specs.Lengths.{bit_quanta, sample_at};
ghost use Rattle.wl_topology.specs.Limits.{most_places};
ghost use Rattle.wl_bound.specs.Families.{way_between};
ghost use Rattle.wl_bound.specs.Limits.{delay_limit, drift_limit, longer_limit, longest_limit, sample_limit, shortest_limit, tick_limit, turns_limit};
ghost use Rattle.wl_bound.specs.OneBuses.{the_bus};

use crate::bus::OneBus;
use crate::family::{Family, Setting, Source};
use wl_segments::Segments;

impl<'f> OneBus<'f> {
    /// Returns the bus of a family in a setting, with no term worked out.
    pub(crate) fn new(family: &'f Family, setting: Setting) -> OneBus<'f>
        ensures family { result.family.now ≡ family.now }
        ensures setting { result.setting ≡ setting }
    {
        OneBus {
            family,
            setting,
            terms: None,
            chases: None,
        }
    }

    /// Returns how many nodes there are: 1 to 64.
    pub(crate) fn nodes(&self) -> u8
        ensures value { result ≡ (the_bus self.now).nodes }
        ensures few { result ≤ most_places }
    {
        self.family.nodes()
    }

    /// True if node `i` only listens, so that nothing of what it drives reaches the other node.
    pub(crate) fn listens(&self, i: u8, other: u8) -> bool
        requires one { i < (the_bus self.now).nodes }
        requires beside { other < (the_bus self.now).nodes }
        requires apart { i ≢ other }
        ensures { result ≡ (the_bus self.now).listens i }
    {
        if let Some(terms) = self.kept_pair(i, other) {
            return terms.listens;
        }
        self.family.listens(i, other)
    }

    /// True if node `i` sends.
    #[tactic(auto, unfolding(crate::specs::Families::sends_in))]
    pub(crate) fn sends(&self, i: u8) -> bool
        requires { i < (the_bus self.now).nodes }
        ensures { result ≡ (the_bus self.now).sends i }
    {
        if let Some(terms) = self.kept_node(i) {
            return terms.sends;
        }
        match self.setting.source {
            Source::Together => self.family.member(i).sends,
            Source::Alone(k) => k == i,
        }
    }

    /// Returns the segments of node `i`.
    #[tactic(auto, unfolding(crate::specs::Families::lengths_in))]
    pub(crate) fn segments(&self, i: u8) -> Segments
        requires { i < (the_bus self.now).nodes }
        ensures { result ≡ (the_bus self.now).lengths i }
    {
        let segments = self.family.member(i).segments;
        match self.setting.change {
            None => segments,
            Some(change) => match change.of(&segments) {
                Ok(other) => other,
                Err(_) => segments,
            },
        }
    }

    /// Returns a tick.
    pub(crate) fn tick(&self) -> u128
        ensures value { result ≡ (the_bus self.now).tick }
        ensures most { result < tick_limit }
    {
        1_000_000 * self.setting.length as u128
    }

    /// Returns the shortest quantum of node `i`.
    #[tactic(auto, unfolding(crate::specs::Families::shortest_in))]
    pub(crate) fn shortest(&self, i: u8) -> u128
        requires { i < (the_bus self.now).nodes }
        ensures value { result ≡ (the_bus self.now).shortest i }
        ensures most { result < shortest_limit }
    {
        if let Some(terms) = self.kept_node(i) {
            return terms.shortest;
        }
        let oscillator = self.family.member(i).oscillator;
        self.setting.length as u128 * oscillator.shortest_by(self.setting.wider)
    }

    /// Returns the longest quantum of node `i`.
    #[tactic(auto, unfolding(crate::specs::Families::longest_in))]
    pub(crate) fn longest(&self, i: u8) -> u128
        requires { i < (the_bus self.now).nodes }
        ensures value { result ≡ (the_bus self.now).longest i }
        ensures most { result < longest_limit }
    {
        if let Some(terms) = self.kept_node(i) {
            return terms.longest;
        }
        let oscillator = self.family.member(i).oscillator;
        self.setting.length as u128 * oscillator.longest_by(self.setting.wider)
    }

    /// Returns the bit of node `i` in its shortest quanta.
    pub(crate) fn short_bit(&self, i: u8) -> u128
        requires { i < (the_bus self.now).nodes }
        ensures { result ≡ bit_quanta ((the_bus self.now).lengths i) * (the_bus self.now).shortest i }
    {
        if let Some(terms) = self.kept_node(i) {
            return terms.short_bit;
        }
        self.segments(i).bit_quanta() as u128 * self.shortest(i)
    }

    /// Returns the bit of node `i` in its longest quanta.
    pub(crate) fn long_bit(&self, i: u8) -> u128
        requires { i < (the_bus self.now).nodes }
        ensures value { result ≡ bit_quanta ((the_bus self.now).lengths i) * (the_bus self.now).longest i }
        ensures most { result < drift_limit }
    {
        if let Some(terms) = self.kept_node(i) {
            return terms.long_bit;
        }
        self.segments(i).bit_quanta() as u128 * self.longest(i)
    }

    /// Returns the jump width of node `i` in its longest quanta.
    pub(crate) fn long_jump(&self, i: u8) -> u128
        requires { i < (the_bus self.now).nodes }
        ensures value { result ≡ ((the_bus self.now).lengths i).sjw * (the_bus self.now).longest i }
        ensures most { result < drift_limit }
    {
        if let Some(terms) = self.kept_node(i) {
            return terms.long_jump;
        }
        self.segments(i).sjw() as u128 * self.longest(i)
    }

    /// Returns what node `i` can lose at the changes of its rate.
    #[tactic(auto, unfolding(crate::specs::Families::turns_in))]
    pub(crate) fn turns(&self, i: u8) -> u128
        requires { i < (the_bus self.now).nodes }
        ensures value { result ≡ (the_bus self.now).turns i }
        ensures most { result < turns_limit }
    {
        self.tick() * self.family.member(i).oscillator.turns() as u128
    }

    /// Returns how long a level takes from node `i` to node `j`.
    #[tactic(auto, unfolding(crate::specs::Families::delay_in))]
    pub(crate) fn delay(&self, i: u8, j: u8) -> u128
        requires one { i < (the_bus self.now).nodes }
        requires other { j < (the_bus self.now).nodes }
        ensures value { result ≡ (the_bus self.now).delay i j }
        ensures most { result < delay_limit }
    {
        if let Some(terms) = self.kept_pair(i, j) {
            return terms.delay;
        }
        let nominal = self.setting.length as u128 * self.family.propagation(i, j) as u128;
        1_000_000 * (nominal + self.longer_by(i, j))
    }

    /// Returns how many times a tick longer it takes on the longer cable.
    fn longer_by(&self, i: u8, j: u8) -> u128
        requires one { i < (the_bus self.now).nodes }
        requires other { j < (the_bus self.now).nodes }
        ensures value { result ≡ self.now.setting.longer * way_between self.now.family.now.cable i j }
        ensures most { result < longer_limit }
    {
        if self.setting.longer == 0 {
            return 0;
        }
        self.setting.longer as u128 * self.family.way_between(i, j) as u128
    }

    /// Returns how long it takes on the plan's own cable.
    #[tactic(auto, unfolding(crate::specs::Families::delay_in))]
    pub(crate) fn plan_delay(&self, i: u8, j: u8) -> u128
        requires one { i < (the_bus self.now).nodes }
        requires other { j < (the_bus self.now).nodes }
        ensures value { result ≡ (the_bus self.now).delay i j - (the_bus self.now).added i j }
        ensures most { result < delay_limit }
    {
        1_000_000 * (self.setting.length as u128 * self.family.propagation(i, j) as u128)
    }

    /// Returns the quanta of node `i` up to its sample.
    pub(crate) fn sample(&self, i: u8) -> u128
        requires { i < (the_bus self.now).nodes }
        ensures value { result ≡ sample_at ((the_bus self.now).lengths i) * (the_bus self.now).shortest i }
        ensures most { result < sample_limit }
    {
        if let Some(terms) = self.kept_node(i) {
            return terms.sample;
        }
        self.segments(i).sample_at() as u128 * self.shortest(i)
    }

    /// Returns the PHASE_SEG2 of node `i`.
    pub(crate) fn phase_two(&self, i: u8) -> u128
        requires { i < (the_bus self.now).nodes }
        ensures value { result ≡ ((the_bus self.now).lengths i).ps2 * (the_bus self.now).shortest i }
        ensures most { result < sample_limit }
    {
        if let Some(terms) = self.kept_node(i) {
            return terms.phase_two;
        }
        self.segments(i).ps2() as u128 * self.shortest(i)
    }
}
