//! What each pair of nodes asks of one bus, worked out once: how late and how early bits can be, and in how many edges a node catches up.
ghost use Rattle.std.specs.Prelude.{◌≡◌, true, ◌+◌, ◌-◌, ◌*◌, ◌<◌, ◌≤◌, IfOk, IfSome};
ghost use Rattle.std.specs.Option.{ForSome};
ghost use Rattle.wl_topology.specs.Limits.{most_places};
ghost use Rattle.wl_bound.specs.Conditions.{left_of};
ghost use Rattle.wl_bound.specs.Evaluated.{AreRowsOfBus, AreWaysOfBus, HasWaysOfNode};
ghost use Rattle.wl_bound.specs.Limits.{early_limit, late_limit, frame_edges, side_limit, tour_limit, way_limit};
ghost use Rattle.wl_bound.specs.OneBuses.{the_bus};
ghost use Rattle.wl_bound.specs.Terms.{ahead, answered, apart, behind, chase, drift, early, edges, greatest, is_answering, late, several, tour, trip, way};

use crate::bus::OneBus;
use crate::condition::Inequality;
use crate::kept::place;
use std::alloc::AllocError;
use wl_level::Listed;
use wl_topology::MOST_NODES;

/// Of a bus with several senders: for each two nodes how late a bit of the second can be at the first, in units. That of nodes `i` and `j` has
/// place `64 i + j`. Of each node it has how early that can be for the sender that wins the arbitration, in units, and how many edges it takes
/// to catch up.
#[derive(Debug, Drop)]
pub(crate) struct Rows {
    pub(crate) ways: Listed<u128>,
    pub(crate) early: [u128; MOST_NODES],
    pub(crate) edges: [u128; MOST_NODES],
}

/// A bus and whether several nodes send. If so, and if there was memory for them, it has the terms that take the most steps and for which each
/// pair of nodes asks.
#[derive(Clone, Copy)]
pub(crate) struct EvaluatedBus<'f> {
    pub(crate) bus: OneBus<'f>,
    pub(crate) is_shared: bool,
    pub(crate) rows: Option<&'f Rows>,
    pub(crate) ghost some: { ForSome rows (λ r. AreRowsOfBus (the_bus bus) r.now) },
    pub(crate) ghost shared: { is_shared ≡ several (the_bus bus) },
}

impl<'f> OneBus<'f> {
    /// Returns those terms, if several nodes send. Refused only when out of memory.
    pub(crate) fn rows_if_several(&self) -> Result<Option<Rows>, AllocError>
        ensures { IfOk result (λ rows. IfSome rows (AreRowsOfBus (the_bus self.now))) }
    {
        if self.several() {
            Ok(Some(self.rows()?))
        } else {
            Ok(None)
        }
    }

    /// Returns those terms of all nodes. Refused only when out of memory.
    #[tactic(auto, using(crate::proofs::WayRows::row_of))]
    fn rows(&self) -> Result<Rows, AllocError>
        requires { several (the_bus self.now) ≡ true }
        ensures { IfOk result (AreRowsOfBus (the_bus self.now)) }
    {
        let alloc = self.family.alloc();
        let nodes = self.nodes();
        let mut ways = vec![in alloc; 0u128; MOST_NODES * nodes as usize]?;
        let mut early = [0; MOST_NODES];
        let mut edges = [0; MOST_NODES];
        for i in 0..nodes {
            self.put_ways(i, ways.as_mut_slice());
            let most = self.early(Some(ways.as_slice()), i);
            early[i as usize] = most;
            edges[i as usize] = self.edges(most, i);
        }
        let ways = Listed::from_vec(ways);
        Ok(Rows { ways, early, edges })
    }

    /// Puts in how late the bits of all nodes can be at node `i`.
    fn put_ways(&self, i: u8, ways: &mut [u128])
        requires node { i < (the_bus self.now).nodes }
        requires before { AreWaysOfBus i (the_bus self.now) ways.old }
        ensures { AreWaysOfBus (i + 1) (the_bus self.now) ways.new }
    {
        for j in 0..self.nodes() {
            ways[place(i, j)] = self.way(i, j);
        }
    }

    /// Returns how late a bit of node `j` can be at node `i`, from these ways if there are any.
    pub(crate) fn way_in(&self, ways: Option<&[u128]>, i: u8, j: u8) -> u128
        requires one { i < (the_bus self.now).nodes }
        requires other { j < (the_bus self.now).nodes }
        requires ways { ForSome ways (λ w. HasWaysOfNode i (the_bus self.now) w.now) }
        ensures value { result ≡ way (the_bus self.now) i j }
        ensures most { result < way_limit }
    {
        match ways {
            Some(ways) => ways[place(i, j)],
            None => self.way(i, j),
        }
    }
}

impl<'f> EvaluatedBus<'f> {
    /// Returns how late a bit of node `j` can be at node `i`.
    fn way(&self, i: u8, j: u8) -> u128
        requires one { i < (the_bus self.now.bus).nodes }
        requires other { j < (the_bus self.now.bus).nodes }
        ensures value { result ≡ way (the_bus self.now.bus) i j }
        ensures most { result < way_limit }
    {
        match self.rows {
            Some(rows) => self.bus.way_in(Some(rows.ways.as_slice()), i, j),
            None => self.bus.way(i, j),
        }
    }

    /// Returns how early node `i` can be.
    #[tactic(auto, unfolding(crate::specs::Terms::early))]
    fn early(&self, i: u8) -> u128
        requires node { i < (the_bus self.now.bus).nodes }
        ensures value { result ≡ early (the_bus self.now.bus) i }
        ensures most { result < early_limit }
    {
        match self.rows {
            Some(rows) => rows.early[i as usize],
            None => {
                if self.is_shared {
                    self.bus.early(None, i)
                } else {
                    0
                }
            }
        }
    }

    /// Returns how many edges it takes to catch up.
    #[tactic(auto, unfolding(crate::specs::Terms::early, crate::specs::Terms::edges))]
    fn edges(&self, i: u8) -> u128
        requires node { i < (the_bus self.now.bus).nodes }
        ensures value { result ≡ edges (the_bus self.now.bus) i }
        ensures most { result ≤ frame_edges }
    {
        match self.rows {
            Some(rows) => rows.edges[i as usize],
            None => {
                if self.is_shared {
                    self.bus.edges(self.early(i), i)
                } else {
                    0
                }
            }
        }
    }

    /// Returns in how many edges nodes `i` and `j` both catch up with a third.
    #[tactic(auto, unfolding(crate::specs::Terms::chase))]
    fn chase(&self, i: u8, j: u8) -> u128
        requires one { i < (the_bus self.now.bus).nodes }
        requires other { j < (the_bus self.now.bus).nodes }
        ensures value { result ≡ chase (the_bus self.now.bus) i j }
        ensures most { result ≤ frame_edges }
    {
        if self.bus.third_sends(i, j) {
            self.edges(i).min(self.edges(j))
        } else {
            0
        }
    }

    /// Returns how much later node `j` can get for node `i` meanwhile.
    #[tactic(auto, unfolding(crate::specs::Terms::apart))]
    fn apart(&self, i: u8, j: u8) -> u128
        requires one { i < (the_bus self.now.bus).nodes }
        requires other { j < (the_bus self.now.bus).nodes }
        ensures value { result ≡ apart (the_bus self.now.bus) i j }
        ensures most { result < late_limit }
    {
        self.chase(i, j) * self.bus.spread(i, j)
    }

    /// Returns how late node `j` can be for node `i` by the edges of sender `a`.
    fn tour_by(&self, i: u8, j: u8, a: u8) -> u128
        requires one { i < (the_bus self.now.bus).nodes }
        requires other { j < (the_bus self.now.bus).nodes }
        requires sender { a < (the_bus self.now.bus).nodes }
        ensures value { let b = the_bus self.now.bus in
            result ≡ way b i a + 10 * drift b a i + ahead b a + b.delay a j + b.delay j i - b.delay a i }
        ensures most { result < tour_limit }
    {
        let comes = self.way(i, a) + 10 * self.bus.drift(a, i) + self.bus.ahead(a);
        let there = comes + self.bus.delay(a, j) + self.bus.delay(j, i);
        there.saturating_sub(self.bus.delay(a, i))
    }

    /// Returns how late it can be at most, since the edges of a third sender reach it too.
    #[tactic(auto, unfolding(crate::specs::Terms::tour))]
    fn tour(&self, i: u8, j: u8) -> u128
        requires one { i < (the_bus self.now.bus).nodes }
        requires other { j < (the_bus self.now.bus).nodes }
        ensures value { result ≡ tour (the_bus self.now.bus) i j }
        ensures most { result < tour_limit }
    {
        let mut longest = 0;
        for a in 0..self.bus.nodes() {
            if self.bus.sends(a) && a != i && a != j {
                longest = longest.max(self.tour_by(i, j, a));
            }
        }
        longest
    }

    /// Returns how late the end of `j`'s acknowledgement can be at `i`, if both jump back by that of a third node.
    #[tactic(auto, unfolding(crate::specs::Terms::answered))]
    fn answered(&self, i: u8, j: u8) -> u128
        requires one { i < (the_bus self.now.bus).nodes }
        requires other { j < (the_bus self.now.bus).nodes }
        ensures value { result ≡ answered (the_bus self.now.bus) i j }
        ensures most { result < late_limit }
    {
        if self.is_shared {
            self.latest_answer(i, j)
        } else {
            0
        }
    }

    /// Returns that over the nodes whose acknowledgement may come first.
    fn latest_answer(&self, i: u8, j: u8) -> u128
        requires one { i < (the_bus self.now.bus).nodes }
        requires other { j < (the_bus self.now.bus).nodes }
        ensures value { let b = the_bus self.now.bus in
            result ≡ greatest b.nodes (is_answering b i j) (λ a. trip b i j a + behind b j a) }
        ensures most { result < late_limit }
    {
        let chased = self.edges(j);
        let mut latest = 0;
        for a in 0..self.bus.nodes() {
            if self.bus.is_answering(i, j, a) {
                let behind = self.bus.behind(j, a, chased);
                latest = latest.max(self.bus.trip(i, j, a) + behind);
            }
        }
        latest
    }

    /// Returns how late a bit of node `j` can be at node `i`, catching up counted.
    #[tactic(auto, unfolding(crate::specs::Terms::late))]
    fn late(&self, i: u8, j: u8) -> u128
        requires one { i < (the_bus self.now.bus).nodes }
        requires other { j < (the_bus self.now.bus).nodes }
        ensures value { result ≡ late (the_bus self.now.bus) i j }
        ensures most { result < late_limit }
    {
        let way = self.way(i, j);
        let tour = self.tour(i, j);
        let chased = self.apart(i, j).min(tour.saturating_sub(way));
        (way + chased).max(self.answered(i, j))
    }

    /// Returns what takes time by an inequality.
    #[tactic(auto, unfolding(crate::specs::Conditions::left_of))]
    pub(crate) fn left(&self, inequality: Inequality, i: u8, j: u8) -> u128
        requires one { i < (the_bus self.now.bus).nodes }
        requires other { j < (the_bus self.now.bus).nodes }
        ensures value { result ≡ left_of (the_bus self.now.bus) inequality i j }
        ensures most { result < side_limit }
    {
        match inequality {
            Inequality::DriftFitsJump => { 10 * self.bus.drift(i, j) + self.bus.pulled(i, j) }
            Inequality::BitIsThereAtSample => {
                if i == j {
                    return self.bus.delay(i, i) + self.bus.turns(i);
                }
                self.late(i, j) + 11 * self.bus.strays(j) + self.bus.ahead(j)
            }
            Inequality::NoBitTooEarly => {
                let early = self.early(j).saturating_sub(self.bus.delay(j, j));
                let gained = self.apart(j, i).min(early);
                self.bus.look(j)
                    + 10 * self.bus.drift(i, j)
                    + gained
                    + self.bus.tick()
                    + self.bus.ahead(i)
            }
        }
    }
}
