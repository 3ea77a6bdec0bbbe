//! The condition for a sound bus.
ghost use Rattle.std.specs.Prelude.{◌≡◌, ◌<◌, length};
ghost use Rattle.wl_bound.specs.Conditions.{first_failure_of, is_asked, pair_failure, plain, sides_in};
ghost use Rattle.wl_bound.specs.Families.{only_listens};

use crate::asked::AskedBus;
use crate::bus::OneBus;
use crate::family::{Family, Setting, Source};

/// One of the three inequalities that are asked of each pair of nodes, in this order.
#[derive(Clone, Copy, Debug, PartialEq, Eq)]
pub enum Inequality {
    /// Ten bits of drift are within the jump width of both nodes, and with what other senders pull node j forward within that of node i. Else an
    /// edge doesn't put right what has gathered since the one before.
    DriftFitsJump,
    /// There and back, the looks and eleven bits of drift are within the way to the sample. Else a node samples before the other's bit has come.
    BitIsThereAtSample,
    /// The look, ten bits of drift and a tick are within PHASE_SEG2. Else the other's next bit, or its acknowledgement, comes before the sample of the
    /// bit in front of it.
    NoBitTooEarly,
}

/// How many nodes send at once.
#[derive(Clone, Copy, Debug, PartialEq, Eq)]
pub enum Senders {
    /// Any of the nodes with frames, in any number.
    Any,
    /// One of them at a time.
    One,
}

/// The two sides of an inequality, in millionths of a tick. It holds if the left one is at most the right one.
#[derive(Clone, Copy, Debug, PartialEq, Eq)]
pub struct Sides {
    /// Returns what takes time.
    pub left: u128,
    /// Returns the time that there is.
    pub right: u128,
}

/// An inequality that fails for a pair of nodes.
#[derive(Clone, Copy, Debug, PartialEq, Eq)]
pub struct Failure {
    /// Which one.
    pub inequality: Inequality,
    /// The node at which the other's bit arrives, i: its jump, its sample, its PHASE_SEG2.
    pub node: u8,
    /// The other node, j. It is the same one if its own bit isn't back at its sample.
    pub other: u8,
    /// Returns both sides.
    pub sides: Sides,
}

/// The plan's own cable and tolerances.
pub(crate) const PLAIN: Setting = Setting {
    source: Source::Together,
    change: None,
    wider: 0,
    length: 1,
    longer: 0,
};

impl Family {
    /// Returns both sides of an inequality for nodes `i` and `j`, in millionths of a tick. For one sender at a time the left side is the
    /// greatest over the senders.
    pub fn sides(&self, senders: Senders, inequality: Inequality, i: u8, j: u8) -> Sides
        requires one { i < length self.now.members }
        requires other { j < length self.now.members }
        ensures { result ≡ sides_in self.now plain senders inequality i j }
    {
        let bus = self.plain_bus();
        let asked = AskedBus {
            bus,
            senders,
            is_shared: bus.several(),
            rows: self.plain.as_ref(),
        };
        asked.sides(inequality, i, j)
    }

    /// True if an inequality is asked of nodes `i` and `j`. Of a node and itself it is only whether its own bit is back at its sample. Of a
    /// node `j` that only listens nothing reaches node `i`, so its bits needn't come to `i` in time. The drift of two such nodes isn't
    /// asked either.
    pub fn is_asked(&self, inequality: Inequality, i: u8, j: u8) -> bool
        requires one { i < length self.now.members }
        requires other { j < length self.now.members }
        ensures { result ≡ is_asked (only_listens self.now.cable) inequality i j }
    {
        match inequality {
            Inequality::DriftFitsJump => i != j && !(self.listens(i, j) && self.listens(j, i)),
            Inequality::BitIsThereAtSample => i == j || !self.listens(j, i),
            Inequality::NoBitTooEarly => i != j && !self.listens(j, i),
        }
    }

    /// Returns what goes wrong for nodes `i` and `j` by one inequality. None if it holds for them, or isn't asked of them.
    pub fn pair_failure(
        &self,
        senders: Senders,
        inequality: Inequality,
        i: u8,
        j: u8,
    ) -> Option<Failure>
        requires one { i < length self.now.members }
        requires other { j < length self.now.members }
        ensures { result ≡ pair_failure self.now plain senders inequality i j }
    {
        if !self.is_asked(inequality, i, j) {
            return None;
        }
        let sides = self.sides(senders, inequality, i, j);
        if sides.left <= sides.right {
            return None;
        }
        Some(Failure {
            inequality,
            node: i,
            other: j,
            sides,
        })
    }

    /// Returns the first inequality that fails, in their order and then by the first node and by the second; none if the condition holds.
    pub fn first_failure(&self, senders: Senders) -> Option<Failure>
        ensures { result ≡ first_failure_of self.now plain senders }
    {
        let bus = self.plain_bus();
        bus.first_failure(senders)
    }
}
