//! What room a bus has.
ghost use Rattle.std.specs.Prelude.{◌≡◌, ◌+◌, ◌-◌, ◌*◌, ◌<◌, min};
ghost use Rattle.wl_topology.specs.Driven.{any_below};
ghost use Rattle.wl_bound.specs.Limits.{jump_limit, said_limit, way_limit};
ghost use Rattle.wl_bound.specs.OneBuses.{the_bus};
ghost use Rattle.wl_bound.specs.Terms.{drift, jump, look};
ghost use Rattle.wl_bound.specs.Rooms.{beyond_jump, catches, distance, edges_to, falls_behind, gain, gathering, has_long_quantum, have_room, is_crowded, is_roomy, lacks_room, least_chase, leaves_room, left_over, longest_left, longest_said, said_early};

use crate::bus::OneBus;
use crate::family::Family;

/// No quantum takes this many millionths of a tick.
const MOST_QUANTUM: u128 = 281_474_976_710_656;

/// What gathers is counted up to 2^100 units, which is more than any time that there is.
pub(crate) const LONGEST_SAID: u128 = 1 << 100;

/// What an edge leaves is counted up to 2^99 units.
const LONGEST_LEFT: u128 = 1 << 99;

impl<'f> OneBus<'f> {
    /// Returns how far node `k` may have to catch up with the bits of node `w`.
    #[tactic(auto, unfolding(crate::specs::Rooms::distance))]
    pub(crate) fn distance(&self, k: u8, w: u8) -> u128
        requires one { k < (the_bus self.now).nodes }
        requires other { w < (the_bus self.now).nodes }
        ensures value { result ≡ distance (the_bus self.now) k w }
        ensures most { result < way_limit }
    {
        let there_and_back = self.delay(k, w) + self.delay(w, k);
        let ahead = self.longest(w).saturating_sub(self.delay(w, w));
        (there_and_back + self.look(k) + ahead).saturating_sub(self.shortest(k))
    }

    /// Returns how much nearer node `k` gets to the bits of node `w` with each edge.
    #[tactic(auto, unfolding(crate::specs::Rooms::gain))]
    pub(crate) fn gain(&self, k: u8, w: u8) -> u128
        requires one { k < (the_bus self.now).nodes }
        requires other { w < (the_bus self.now).nodes }
        ensures value { result ≡ gain (the_bus self.now) k w }
        ensures most { result < jump_limit }
    {
        self.jump(k).saturating_sub(10 * self.drift(w, k))
    }

    /// Returns the least number of edges, beyond the first, in which node `k` catches up with node `w`.
    #[tactic(auto, unfolding(crate::specs::Rooms::edges_to))]
    fn edges_to(&self, k: u8, w: u8) -> u128
        requires one { k < (the_bus self.now).nodes }
        requires other { w < (the_bus self.now).nodes }
        ensures value { result ≡ edges_to (the_bus self.now) k w }
        ensures most { result < way_limit }
    {
        let gain = self.gain(k, w);
        if gain == 0 {
            return 0;
        }
        self.distance(k, w).div_ceil(gain).saturating_sub(1)
    }

    /// Returns the most of these edges over all senders.
    #[tactic(auto, unfolding(crate::specs::Rooms::least_chase))]
    pub(crate) fn least_chase(&self, k: u8) -> u128
        requires node { k < (the_bus self.now).nodes }
        ensures value { result ≡ least_chase (the_bus self.now) k }
        ensures most { result < way_limit }
    {
        if let Some(chases) = self.chases {
            return chases.edges[k as usize];
        }
        let mut most = 0;
        for w in 0..self.nodes() {
            if self.sends(w) && w != k {
                most = most.max(self.edges_to(k, w));
            }
        }
        most
    }

    /// True if node `k` catches up with node `w` in its least number of edges.
    fn catches(&self, k: u8, w: u8) -> bool
        requires one { k < (the_bus self.now).nodes }
        requires other { w < (the_bus self.now).nodes }
        ensures { result ≡ catches (the_bus self.now) k w }
    {
        let edges = self.least_chase(k) + 1;
        self.distance(k, w) <= edges.saturating_mul(self.gain(k, w))
    }

    /// Returns how much later a bit of node `i` gets for node `k` meanwhile, up to 2^100 units.
    #[tactic(auto, unfolding(crate::specs::Rooms::gathering, crate::specs::Terms::spread))]
    fn gathering(&self, i: u8, k: u8) -> u128
        requires one { i < (the_bus self.now).nodes }
        requires other { k < (the_bus self.now).nodes }
        ensures { result ≡ min (gathering (the_bus self.now) i k) longest_said }
    {
        if !self.third_sends(i, k) {
            return 0;
        }
        let gathers = self.least_chase(k).saturating_mul(self.spread(k, i));
        gathers.min(LONGEST_SAID)
    }

    /// Returns the most that ten bits of drift, a look and what gathers of another node take beyond a jump of node `i`. What gathers counts up
    /// to 2^100 units.
    #[tactic(auto, unfolding(crate::specs::Rooms::beyond_jump))]
    fn beyond_jump(&self, i: u8) -> u128
        requires node { i < (the_bus self.now).nodes }
        ensures value { min result longest_left
            ≡ min (beyond_jump (the_bus self.now) (gathering (the_bus self.now)) i) longest_left }
        ensures most { result < said_limit }
    {
        let mut most = 0;
        for k in 0..self.nodes() {
            if k != i {
                most = most.max(self.beyond_jump_by(i, k));
            }
        }
        most
    }

    /// Returns what they take of node `k`.
    fn beyond_jump_by(&self, i: u8, k: u8) -> u128
        requires one { i < (the_bus self.now).nodes }
        requires other { k < (the_bus self.now).nodes }
        ensures value { min result longest_left ≡ min (10 * drift (the_bus self.now) i k + look (the_bus self.now) k
            + gathering (the_bus self.now) i k - jump (the_bus self.now) i) longest_left }
        ensures most { result < said_limit }
    {
        let early = 10 * self.drift(i, k) + self.look(k) + self.gathering(i, k);
        early.saturating_sub(self.jump(i))
    }

    /// Returns how much later than an edge a bit of node `i` can be, since a jump doesn't put all right, up to 2^99 units.
    #[tactic(auto, unfolding(crate::specs::Rooms::left_over))]
    fn left_over(&self, i: u8) -> u128
        requires node { i < (the_bus self.now).nodes }
        ensures { result ≡ min (left_over (the_bus self.now) (gathering (the_bus self.now)) i) longest_left }
    {
        let beyond = self.beyond_jump(i);
        if beyond == 0 {
            return 0;
        }
        (beyond + self.tick()).min(LONGEST_LEFT)
    }

    /// Returns how early a bit of node `k` can be at node `i`, without drift, with what gathers up to 2^100 units.
    pub(crate) fn said_early(&self, i: u8, k: u8) -> u128
        requires one { i < (the_bus self.now).nodes }
        requires other { k < (the_bus self.now).nodes }
        ensures value { result ≡ said_early (the_bus self.now) i k }
        ensures most { result < said_limit }
    {
        self.look(k) + self.gathering(i, k) + self.left_over(i)
    }

    /// True if nodes `i` and `k` have room, as if both sent.
    fn have_room(&self, i: u8, k: u8) -> bool
        requires one { i < (the_bus self.now).nodes }
        requires other { k < (the_bus self.now).nodes }
        ensures { result ≡ have_room (the_bus self.now) i k }
    {
        let early = self.said_early(i, k);
        let late = self.said_early(k, i) + 10 * self.drift(k, i);
        let round = self.delay(i, k) + self.delay(k, i);
        let drift = self.drift(i, k);
        let jump = self.jump(i);
        10 * self.drift(k, i) <= jump
            && round + late <= self.sample(i)
            && early + 12 * drift + self.tick() <= self.phase_two(i)
    }

    /// True if node `i` doesn't catch up with node `w`, which sends.
    pub(crate) fn falls_behind(&self, i: u8, w: u8) -> bool
        requires one { i < (the_bus self.now).nodes }
        requires other { w < (the_bus self.now).nodes }
        ensures { result ≡ falls_behind (the_bus self.now) i w }
    {
        self.sends(w) && w != i && !self.catches(i, w)
    }

    /// True if node `k` has no room with node `i`.
    pub(crate) fn is_crowded(&self, i: u8, k: u8) -> bool
        requires one { i < (the_bus self.now).nodes }
        requires other { k < (the_bus self.now).nodes }
        ensures { result ≡ is_crowded (the_bus self.now) i k }
    {
        k != i && !self.have_room(i, k)
    }

    /// True if node `i` doesn't catch up with some sender.
    fn falls_behind_any(&self, i: u8) -> bool
        requires node { i < (the_bus self.now).nodes }
        ensures { result ≡ any_below (the_bus self.now).nodes (falls_behind (the_bus self.now) i) }
    {
        let mut falls = false;
        for w in 0..self.nodes() {
            falls = falls || self.falls_behind(i, w);
        }
        falls
    }

    /// True if another node has no room with node `i`.
    fn is_crowded_by_any(&self, i: u8) -> bool
        requires node { i < (the_bus self.now).nodes }
        ensures { result ≡ any_below (the_bus self.now).nodes (is_crowded (the_bus self.now) i) }
    {
        let mut crowded = false;
        for k in 0..self.nodes() {
            crowded = crowded || self.is_crowded(i, k);
        }
        crowded
    }

    /// True if node `i` lacks room.
    pub(crate) fn lacks_room(&self, i: u8) -> bool
        requires node { i < (the_bus self.now).nodes }
        ensures { result ≡ lacks_room (the_bus self.now) i }
    {
        !(self.delay(i, i) <= self.sample(i))
            || self.falls_behind_any(i)
            || self.is_crowded_by_any(i)
    }

    /// True if no node lacks room on the bus of a setting: any two have it as if both sent.
    pub(crate) fn is_roomy(&self) -> bool
        ensures { result ≡ is_roomy self.now.family.now self.now.setting }
    {
        let chases = self.all_chases();
        let bus = OneBus {
            family: self.family,
            setting: self.setting,
            terms: self.terms,
            chases: Some(&chases),
        };
        bus.none_lacks()
    }

    /// True if no node lacks room.
    fn none_lacks(&self) -> bool
        ensures { result ≡ is_roomy self.now.family.now self.now.setting }
    {
        let mut lacks = false;
        for i in 0..self.nodes() {
            lacks = lacks || self.lacks_room(i);
        }
        !lacks
    }

    /// True if a quantum of node `i` may take 2^48 units or more. On the plan's own bus none of an oscillator does.
    fn has_long_quantum(&self, i: u8) -> bool
        requires { i < (the_bus self.now).nodes }
        ensures { result ≡ has_long_quantum (the_bus self.now) i }
    {
        MOST_QUANTUM <= self.shortest(i) || MOST_QUANTUM <= self.longest(i)
    }

    /// True if a quantum of some node may.
    pub(crate) fn any_long(&self) -> bool
        ensures { result ≡ any_below (the_bus self.now).nodes (has_long_quantum (the_bus self.now)) }
    {
        let mut long = false;
        for i in 0..self.nodes() {
            long = long || self.has_long_quantum(i);
        }
        long
    }
}

impl Family {
    /// True if the bus of a family has room for acknowledgements of any senders, and to rest after each frame.
    ///
    /// Any two nodes have room as if both sent. Ten bits' drift fit a jump. A bit is there at each sample, and after twelve bits without an edge
    /// the next one isn't there yet: with a look, what gathers while they catch up with a winner, and what a jump doesn't put right of these.
    pub fn leaves_room(&self) -> bool
        ensures { result ≡ leaves_room self.now }
    {
        let bus = self.plain_bus();
        !bus.any_long() && bus.is_roomy()
    }
}
