//! The terms of the condition, in units of time.
ghost use Rattle.std.specs.Prelude.{◌≡◌, true, ◌<◌, ◌≤◌};
ghost use Rattle.std.specs.Option.{ForSome};
ghost use Rattle.wl_topology.specs.Driven.{any_below};
ghost use Rattle.wl_bound.specs.Evaluated.{HasWaysOfNode};
ghost use Rattle.wl_bound.specs.Limits.{ahead_limit, behind_limit, drift_limit, early_limit, jump_limit, look_limit, frame_edges, spread_limit, trip_limit, way_limit};
ghost use Rattle.wl_bound.specs.OneBuses.{the_bus};
ghost use Rattle.wl_bound.specs.Terms.{ahead, behind, drift, early, edges, greatest, is_answering, is_third, jump, look, lost, pull, pulled, sends_but, sends_third, several, spread, strays, trip, way};

use crate::bus::OneBus;

/// The edges of a frame of 8 bytes that are ten bits apart.
const SPARSE_EDGES: u128 = 14;

/// The most edges of a frame up to the end of its CRC sequence, two bits apart.
const MOST_EDGES: u128 = 74;

impl<'f> OneBus<'f> {
    /// Returns by how much a bit of node `i` can last longer than one of node `j`.
    #[tactic(auto, unfolding(crate::specs::Terms::drift))]
    pub(crate) fn drift(&self, i: u8, j: u8) -> u128
        requires one { i < (the_bus self.now).nodes }
        requires other { j < (the_bus self.now).nodes }
        ensures value { result ≡ drift (the_bus self.now) i j }
        ensures most { result < drift_limit }
    {
        self.long_bit(i).saturating_sub(self.short_bit(j))
    }

    /// Returns what one edge puts right at node `i`.
    #[tactic(auto, unfolding(crate::specs::Terms::jump))]
    pub(crate) fn jump(&self, i: u8) -> u128
        requires { i < (the_bus self.now).nodes }
        ensures value { result ≡ jump (the_bus self.now) i }
        ensures most { result < jump_limit }
    {
        if let Some(terms) = self.kept_node(i) {
            return terms.jump;
        }
        self.segments(i).sjw() as u128 * self.shortest(i)
    }

    /// Returns by how much node `i` can begin a bit ahead of the edge that it follows.
    #[tactic(auto, unfolding(crate::specs::Terms::look))]
    pub(crate) fn look(&self, i: u8) -> u128
        requires { i < (the_bus self.now).nodes }
        ensures value { result ≡ look (the_bus self.now) i }
        ensures most { result < look_limit }
    {
        if let Some(terms) = self.kept_node(i) {
            return terms.look;
        }
        (self.longest(i) + self.tick()).saturating_sub(self.delay(i, i))
    }

    /// Returns how late a bit of node `j` can be at node `i` after an edge of node `k`.
    #[tactic(auto, unfolding(crate::specs::Terms::trip))]
    pub(crate) fn trip(&self, i: u8, j: u8, k: u8) -> u128
        requires one { i < (the_bus self.now).nodes }
        requires other { j < (the_bus self.now).nodes }
        requires first { k < (the_bus self.now).nodes }
        ensures value { result ≡ trip (the_bus self.now) i j k }
        ensures most { result < trip_limit }
    {
        let back = self.delay(j, i);
        if k == i {
            let look = if self.nodes() > 2 { self.look(i) } else { 0 };
            return self.delay(i, j) + back + look;
        }
        let comes = self.delay(k, j) + back + self.longest(i) + self.tick();
        comes.saturating_sub(self.delay(k, i))
    }

    /// Returns the greatest of these over the senders.
    fn longest_trip(&self, i: u8, j: u8) -> u128
        requires one { i < (the_bus self.now).nodes }
        requires other { j < (the_bus self.now).nodes }
        ensures value { result ≡ greatest (the_bus self.now).nodes (sends_but (the_bus self.now) j)
            (trip (the_bus self.now) i j) }
        ensures most { result < trip_limit }
    {
        let mut longest = 0;
        for k in 0..self.nodes() {
            if self.sends(k) && k != j {
                longest = longest.max(self.trip(i, j, k));
            }
        }
        longest
    }

    /// Returns the greatest look of a node that is neither `i` nor `j`.
    fn look_of_third(&self, i: u8, j: u8) -> u128
        requires one { i < (the_bus self.now).nodes }
        requires other { j < (the_bus self.now).nodes }
        ensures value { result ≡ greatest (the_bus self.now).nodes (is_third i j) (look (the_bus self.now)) }
        ensures most { result < look_limit }
    {
        let mut greatest = 0;
        for w in 0..self.nodes() {
            if w != i && w != j {
                greatest = greatest.max(self.look(w));
            }
        }
        greatest
    }

    /// Returns how late a bit of node `j` can be at node `i`.
    #[tactic(auto, unfolding(crate::specs::Terms::way))]
    pub(crate) fn way(&self, i: u8, j: u8) -> u128
        requires one { i < (the_bus self.now).nodes }
        requires other { j < (the_bus self.now).nodes }
        ensures value { result ≡ way (the_bus self.now) i j }
        ensures most { result < way_limit }
    {
        self.longest_trip(i, j) + self.look_of_third(i, j)
    }

    /// Returns by how much the other nodes can get ahead of node `j` at the changes of their rates.
    #[tactic(auto, unfolding(crate::specs::Terms::ahead))]
    pub(crate) fn ahead(&self, j: u8) -> u128
        requires { j < (the_bus self.now).nodes }
        ensures value { result ≡ ahead (the_bus self.now) j }
        ensures most { result < ahead_limit }
    {
        if let Some(terms) = self.kept_node(j) {
            return terms.ahead;
        }
        let mut sum = 0;
        for w in 0..self.nodes() {
            if w != j {
                sum += self.turns(w);
            }
        }
        sum
    }

    /// True if two nodes at least send.
    #[tactic(auto, unfolding(crate::specs::Terms::several))]
    pub(crate) fn several(&self) -> bool
        ensures { result ≡ several (the_bus self.now) }
    {
        let mut senders: u8 = 0;
        for i in 0..self.nodes() {
            if self.sends(i) {
                senders += 1;
            }
        }
        senders > 1
    }

    /// Returns how early node `i` can be for the bits of the sender that wins the arbitration, if several nodes send: how late the bits of a
    /// sender but `i` can be there, with ten bits of drift. It is worked out from these ways if there are any.
    #[tactic(auto, unfolding(crate::specs::Terms::early))]
    pub(crate) fn early(&self, ways: Option<&[u128]>, i: u8) -> u128
        requires node { i < (the_bus self.now).nodes }
        requires several { several (the_bus self.now) ≡ true }
        requires ways { ForSome ways (λ w. HasWaysOfNode i (the_bus self.now) w.now) }
        ensures value { result ≡ early (the_bus self.now) i }
        ensures most { result < early_limit }
    {
        let mut latest = 0;
        for a in 0..self.nodes() {
            if self.sends(a) && a != i {
                let comes = self.way_in(ways, i, a) + 10 * self.drift(a, i);
                latest = latest.max(comes + self.ahead(a));
            }
        }
        latest
    }

    /// Returns what ten bits of drift from a sender take from a jump of node `i`.
    #[tactic(auto, unfolding(crate::specs::Terms::lost))]
    fn lost(&self, i: u8) -> u128
        requires { i < (the_bus self.now).nodes }
        ensures value { result ≡ lost (the_bus self.now) i }
        ensures most { result < spread_limit }
    {
        let mut greatest = 0;
        for a in 0..self.nodes() {
            if self.sends(a) && a != i {
                greatest = greatest.max(self.drift(a, i));
            }
        }
        10 * greatest
    }

    /// Returns how many edges node `i` takes to catch up with that sender, for which it can be so early.
    #[tactic(auto, unfolding(crate::specs::Terms::edges), using(crate::proofs::Harder::ceil_within))]
    pub(crate) fn edges(&self, earliest: u128, i: u8) -> u128
        requires node { i < (the_bus self.now).nodes }
        requires early { earliest ≡ early (the_bus self.now) i }
        requires small { earliest < early_limit }
        ensures value { result ≡ edges (the_bus self.now) i }
        ensures most { result ≤ frame_edges }
    {
        let quantum = self.shortest(i);
        if earliest <= quantum {
            return 0;
        }
        let far = earliest - quantum;
        let jump = self.jump(i);
        let lost = self.lost(i);
        let gained = jump.saturating_sub(lost);
        if far <= SPARSE_EDGES * gained {
            return far.div_ceil(gained);
        }
        if jump == 0 {
            return MOST_EDGES;
        }
        MOST_EDGES.min((far + SPARSE_EDGES * lost).div_ceil(jump))
    }

    /// True if some third node sends.
    pub(crate) fn third_sends(&self, i: u8, j: u8) -> bool
        requires one { i < (the_bus self.now).nodes }
        requires other { j < (the_bus self.now).nodes }
        ensures { result ≡ any_below (the_bus self.now).nodes (sends_third (the_bus self.now) i j) }
    {
        if let Some(terms) = self.kept_pair(i, j) {
            return terms.third_sends;
        }
        let mut sends = false;
        for a in 0..self.nodes() {
            sends = sends || self.sends(a) && a != i && a != j;
        }
        sends
    }

    /// Returns by how much the edges of node `j` can come ahead of those that it follows while node `i` follows them.
    #[tactic(auto, unfolding(crate::specs::Terms::pull))]
    fn pull(&self, i: u8, j: u8) -> u128
        requires one { i < (the_bus self.now).nodes }
        requires other { j < (the_bus self.now).nodes }
        ensures value { result ≡ pull (the_bus self.now) i j }
        ensures most { result < look_limit }
    {
        if !self.sends(j) {
            return 0;
        }
        if self.third_sends(i, j) {
            return self.look(j);
        }
        if !self.sends(i) {
            return 0;
        }
        let back = self.plan_delay(j, i) + self.plan_delay(i, j);
        (self.longest(j) + self.tick()).saturating_sub(back)
    }

    /// Returns `pull(i, j) - (jump(i) - jump(j))`, at least 0: what a longer jump of node `i` leaves of the pull.
    #[tactic(auto, unfolding(crate::specs::Terms::pulled))]
    pub(crate) fn pulled(&self, i: u8, j: u8) -> u128
        requires one { i < (the_bus self.now).nodes }
        requires other { j < (the_bus self.now).nodes }
        ensures value { result ≡ pulled (the_bus self.now) i j }
        ensures most { result < look_limit }
    {
        let more = self.jump(i).saturating_sub(self.jump(j));
        self.pull(i, j).saturating_sub(more)
    }

    /// Returns how much later node `j` can get for node `i` with each edge that both follow.
    #[tactic(auto, unfolding(crate::specs::Terms::spread))]
    pub(crate) fn spread(&self, i: u8, j: u8) -> u128
        requires one { i < (the_bus self.now).nodes }
        requires other { j < (the_bus self.now).nodes }
        ensures value { result ≡ spread (the_bus self.now) i j }
        ensures most { result < spread_limit }
    {
        let unlike = self.long_jump(j).saturating_sub(self.jump(i));
        10 * self.drift(j, i) + unlike
    }

    /// True if node `a` is a third one that acknowledges what some other than it and `j` sends.
    pub(crate) fn is_answering(&self, i: u8, j: u8, a: u8) -> bool
        requires one { i < (the_bus self.now).nodes }
        requires other { j < (the_bus self.now).nodes }
        requires third { a < (the_bus self.now).nodes }
        ensures { result ≡ is_answering (the_bus self.now) i j a }
    {
        a != i && a != j && !self.listens(a, j) && self.third_sends(a, j)
    }

    /// Returns how late node `j` can still be for the acknowledgement of node `a` once it has jumped back. It catches up in
    /// `chased` edges.
    #[tactic(auto, unfolding(crate::specs::Terms::behind))]
    pub(crate) fn behind(&self, j: u8, a: u8, chased: u128) -> u128
        requires late { j < (the_bus self.now).nodes }
        requires first { a < (the_bus self.now).nodes }
        requires chased { chased ≡ edges (the_bus self.now) j }
        requires few { chased ≤ frame_edges }
        ensures value { result ≡ behind (the_bus self.now) j a }
        ensures most { result < behind_limit }
    {
        let gathers = chased * self.spread(a, j);
        let late = self.look(a) + 10 * self.drift(j, a) + gathers;
        late.saturating_sub(self.jump(j))
    }

    /// Returns the most by which a bit of node `j` can last longer than one of another node.
    #[tactic(auto, unfolding(crate::specs::Terms::strays))]
    pub(crate) fn strays(&self, j: u8) -> u128
        requires { j < (the_bus self.now).nodes }
        ensures value { result ≡ strays (the_bus self.now) j }
        ensures most { result < drift_limit }
    {
        if let Some(terms) = self.kept_node(j) {
            return terms.strays;
        }
        let mut greatest = 0;
        for w in 0..self.nodes() {
            if w != j {
                greatest = greatest.max(self.drift(j, w));
            }
        }
        greatest
    }
}
