//! The condition as it is asked of one bus, for any senders or for one at a time.
ghost use Rattle.std.specs.Prelude.{◌≡◌, ◌<◌, IfSome};
ghost use Rattle.std.specs.Option.{ForSome};
ghost use Rattle.wl_level.specs.Places.{first_place};
ghost use Rattle.wl_topology.specs.Driven.{any_below};
ghost use Rattle.wl_bound.specs.Conditions.{fails, fails_at, failure_of, first_failure_of, left_by, right_of, sides_in};
ghost use Rattle.wl_bound.specs.Evaluated.{AreRowsOfBus};
ghost use Rattle.wl_bound.specs.Limits.{look_limit};
ghost use Rattle.wl_bound.specs.Lone.{left_of_lone, own_pull};
ghost use Rattle.wl_bound.specs.OneBuses.{the_bus};
ghost use Rattle.wl_bound.specs.Terms.{several};
ghost use Rattle.wl_bound.specs.declared.condition.Senders.TheVariants.{Any, One};
ghost use Rattle.wl_bound.specs.declared.family.Source.TheVariants.{Together};

use crate::bus::OneBus;
use crate::condition::{Failure, Inequality, Senders, Sides};
use crate::evaluated::{EvaluatedBus, Rows};

/// A bus, how many of its nodes are asked about at once, whether several send, and what is worked out once for these if there was memory for it.
/// One sender at a time needs nothing of that: it has nothing to catch up with.
#[derive(Clone, Copy)]
pub(crate) struct AskedBus<'f> {
    pub(crate) bus: OneBus<'f>,
    pub(crate) senders: Senders,
    pub(crate) is_shared: bool,
    pub(crate) rows: Option<&'f Rows>,
    pub(crate) ghost some: { ForSome rows (λ r. AreRowsOfBus (the_bus bus) r.now) },
    pub(crate) ghost shared: { is_shared ≡ several (the_bus bus) },
    pub(crate) ghost together: { bus.setting.source ≡ Together },
}

impl<'f> OneBus<'f> {
    /// Returns what is worked out once for these senders, if there is memory for it.
    pub(crate) fn rows_for(&self, senders: Senders) -> Option<Rows>
        ensures { IfSome result (AreRowsOfBus (the_bus self.now)) }
    {
        match senders {
            Senders::Any => match self.rows_if_several() {
                Ok(rows) => rows,
                Err(_) => None,
            },
            Senders::One => None,
        }
    }

    /// Returns the time that there is by an inequality.
    #[tactic(auto, unfolding(crate::specs::Conditions::right_of))]
    fn right(&self, inequality: Inequality, i: u8, j: u8) -> u128
        requires one { i < (the_bus self.now).nodes }
        requires other { j < (the_bus self.now).nodes }
        ensures { result ≡ right_of (the_bus self.now) inequality i j }
    {
        match inequality {
            Inequality::DriftFitsJump => self.jump(i).min(self.jump(j)),
            Inequality::BitIsThereAtSample => self.sample(i),
            Inequality::NoBitTooEarly => self.phase_two(i),
        }
    }

    /// True if some node sends.
    fn any_sends(&self) -> bool
        ensures { result ≡ any_below (the_bus self.now).nodes (the_bus self.now).sends }
    {
        let mut sends = false;
        for a in 0..self.nodes() {
            sends = sends || self.sends(a);
        }
        sends
    }

    /// Returns what a lone sender takes beyond there and back to itself, if nodes `i` and `j` are one that sends.
    fn own_pull(&self, i: u8, j: u8) -> u128
        requires one { i < (the_bus self.now).nodes }
        requires other { j < (the_bus self.now).nodes }
        ensures value { result ≡ own_pull (the_bus self.now) i j }
        ensures most { result < look_limit }
    {
        if i != j || !self.sends(i) {
            return 0;
        }
        let back = self.plan_delay(j, i) + self.plan_delay(i, j);
        (self.longest(j) + self.tick()).saturating_sub(back)
    }

    /// Returns the greatest left side over the senders, each of them alone, if there is one.
    fn left_of_lone(&self, inequality: Inequality, i: u8, j: u8) -> u128
        requires one { i < (the_bus self.now).nodes }
        requires other { j < (the_bus self.now).nodes }
        ensures { result ≡ left_of_lone (the_bus self.now) inequality i j }
    {
        match inequality {
            Inequality::DriftFitsJump => 10 * self.drift(i, j) + self.own_pull(i, j),
            Inequality::BitIsThereAtSample => {
                if i == j {
                    return self.delay(i, i) + self.turns(i);
                }
                self.way(i, j) + 11 * self.strays(j) + self.ahead(j)
            }
            Inequality::NoBitTooEarly => {
                self.look(j) + 10 * self.drift(i, j) + self.tick() + self.ahead(i)
            }
        }
    }

    /// Returns the greatest left side over the senders, each of them alone.
    #[tactic(auto, using(crate::proofs::Lone::alone_is))]
    fn left_alone(&self, inequality: Inequality, i: u8, j: u8) -> u128
        requires one { i < (the_bus self.now).nodes }
        requires other { j < (the_bus self.now).nodes }
        requires together { self.now.setting.source ≡ Together }
        ensures { result ≡ left_by self.now.family.now self.now.setting One inequality i j }
    {
        if self.any_sends() {
            self.left_of_lone(inequality, i, j)
        } else {
            0
        }
    }

    /// Returns the first inequality that fails, with its pair of nodes.
    pub(crate) fn first_failure(&self, senders: Senders) -> Option<Failure>
        requires together { self.now.setting.source ≡ Together }
        ensures { result ≡ first_failure_of self.now.family.now self.now.setting senders }
    {
        let terms = self.terms_if_memory();
        let bus = OneBus {
            family: self.family,
            setting: self.setting,
            terms: terms.as_ref(),
            chases: self.chases,
        };
        let rows = bus.rows_for(senders);
        let asked = AskedBus {
            bus,
            senders,
            is_shared: bus.several(),
            rows: rows.as_ref(),
        };
        asked.first_failure()
    }
}

impl<'f> AskedBus<'f> {
    /// Returns what takes time by an inequality.
    fn left(&self, inequality: Inequality, i: u8, j: u8) -> u128
        requires one { i < (the_bus self.now.bus).nodes }
        requires other { j < (the_bus self.now.bus).nodes }
        ensures { result ≡ left_by self.now.bus.family.now self.now.bus.setting self.now.senders inequality i j }
    {
        match self.senders {
            Senders::Any => {
                let bus = EvaluatedBus {
                    bus: self.bus,
                    is_shared: self.is_shared,
                    rows: self.rows,
                };
                bus.left(inequality, i, j)
            }
            Senders::One => self.bus.left_alone(inequality, i, j),
        }
    }

    /// Returns both sides.
    pub(crate) fn sides(&self, inequality: Inequality, i: u8, j: u8) -> Sides
        requires one { i < (the_bus self.now.bus).nodes }
        requires other { j < (the_bus self.now.bus).nodes }
        ensures { result ≡ sides_in self.now.bus.family.now self.now.bus.setting self.now.senders inequality i j }
    {
        Sides {
            left: self.left(inequality, i, j),
            right: self.bus.right(inequality, i, j),
        }
    }

    /// True if an inequality fails for a pair.
    fn fails(&self, inequality: Inequality, i: u8, j: u8) -> bool
        requires one { i < (the_bus self.now.bus).nodes }
        requires other { j < (the_bus self.now.bus).nodes }
        ensures { result ≡ fails self.now.bus.family.now self.now.bus.setting self.now.senders inequality i j }
    {
        if !self.bus.family.is_asked(inequality, i, j) {
            return false;
        }
        let sides = self.sides(inequality, i, j);
        sides.right < sides.left
    }

    /// Returns the first node with which it fails for node `i`.
    fn first_other(&self, inequality: Inequality, i: u8) -> Option<u8>
        requires node { i < (the_bus self.now.bus).nodes }
        ensures first { let b = self.now.bus in
            result ≡ first_place (fails b.family.now b.setting self.now.senders inequality i) (the_bus b).nodes }
        ensures inside { IfSome result (λ j. j < (the_bus self.now.bus).nodes) }
    {
        let mut first = None;
        for j in 0..self.bus.nodes() {
            if first.is_none() && self.fails(inequality, i, j) {
                first = Some(j);
            }
        }
        first
    }

    /// Returns the first node for which it fails with some other.
    fn first_node(&self, inequality: Inequality) -> Option<u8>
        ensures first { let b = self.now.bus in
            result ≡ first_place (fails_at b.family.now b.setting self.now.senders inequality) (the_bus b).nodes }
        ensures inside { IfSome result (λ i. i < (the_bus self.now.bus).nodes) }
    {
        let mut first = None;
        for i in 0..self.bus.nodes() {
            if first.is_none() && self.first_other(inequality, i).is_some() {
                first = Some(i);
            }
        }
        first
    }

    /// Returns the first pair for which it fails.
    fn failure(&self, inequality: Inequality) -> Option<Failure>
        ensures { result ≡ failure_of self.now.bus.family.now self.now.bus.setting self.now.senders inequality }
    {
        let node = match self.first_node(inequality) {
            Some(node) => node,
            None => return None,
        };
        let other = match self.first_other(inequality, node) {
            Some(other) => other,
            None => return None,
        };
        let sides = self.sides(inequality, node, other);
        Some(Failure {
            inequality,
            node,
            other,
            sides,
        })
    }

    /// Returns the first failure.
    #[tactic(auto, unfolding(crate::specs::Conditions::first_failure_of))]
    fn first_failure(&self) -> Option<Failure>
        ensures { result ≡ first_failure_of self.now.bus.family.now self.now.bus.setting self.now.senders }
    {
        if let Some(failure) = self.failure(Inequality::DriftFitsJump) {
            return Some(failure);
        }
        if let Some(failure) = self.failure(Inequality::BitIsThereAtSample) {
            return Some(failure);
        }
        self.failure(Inequality::NoBitTooEarly)
    }
}
