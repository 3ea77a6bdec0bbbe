//! Whether one spike can hide a frame from a receiver.
ghost use Rattle.std.specs.Prelude.{◌≡◌, ◌<◌, length};
ghost use Rattle.wl_bound.specs.Conditions.{plain};
ghost use Rattle.wl_bound.specs.OneBuses.{the_bus};
ghost use Rattle.wl_bound.specs.Spikes.{are_flagged, both_jumps, hiding_at, hiding_of, lacks, worse_hiding, worse_of_two, worst_hiding, worst_with};

use crate::asked::AskedBus;
use crate::bus::OneBus;
use crate::condition::{Inequality, Senders, Sides};
use crate::family::Family;

/// Two nodes: one spike may hide a frame of the first from the second.
#[derive(Clone, Copy, Debug, PartialEq, Eq)]
pub struct Hiding {
    /// The node that has sent the frame.
    pub sender: u8,
    /// The node that has dropped it.
    pub receiver: u8,
    /// What a bit of the receiver takes up to the sender's sample without a spike, and the time that there is: in millionths of a tick.
    pub late: Sides,
    /// What a jump of the receiver and one of the sender take, in millionths of a tick.
    pub jumps: u128,
}

/// Returns by how much the receiver's flag may come too late, in millionths of a tick.
fn lacks(hiding: &Hiding) -> u128
    ensures { result ≡ lacks hiding.now }
{
    let spare = hiding.late.right.saturating_sub(hiding.late.left);
    hiding.jumps.saturating_sub(spare)
}

/// Returns the worse of two pairs, the first of equal ones.
fn worse_hiding(one: Hiding, other: Hiding) -> Hiding
    ensures { result ≡ worse_hiding one other }
{
    if lacks(&one) < lacks(&other) {
        other
    } else {
        one
    }
}

/// Returns the worse of two pairs, if there are such.
fn worse_of_two(one: Option<Hiding>, other: Option<Hiding>) -> Option<Hiding>
    ensures { result ≡ worse_of_two one other }
{
    match one {
        None => other,
        Some(a) => match other {
            None => Some(a),
            Some(b) => Some(worse_hiding(a, b)),
        },
    }
}

impl<'f> OneBus<'f> {
    /// Returns what a jump of node `j` and one of node `i` take.
    fn both_jumps(&self, i: u8, j: u8) -> u128
        requires one { i < (the_bus self.now).nodes }
        requires other { j < (the_bus self.now).nodes }
        ensures { result ≡ both_jumps (the_bus self.now) i j }
    {
        self.long_jump(j) + self.jump(i)
    }
}

impl Family {
    /// True if node `i` sends and node `j` answers by a flag that others find.
    fn are_flagged(&self, i: u8, j: u8) -> bool
        requires one { i < length self.now.members }
        requires other { j < length self.now.members }
        ensures { result ≡ are_flagged self.now i j }
    {
        self.member(i).sends && i != j && !self.listens(j, i)
    }

    /// Returns the sender and the receiver for which the receiver's flag may come too late by most: the first of equal pairs. `None` if no spike
    /// hides a frame, as far as searched, from an error active node that doesn't only listen.
    ///
    /// A receiver has a frame with the last bit but one of its end, and the sender has sent it with the last (Bosch CAN 2.0 part B, section 5).
    /// So a spike in the last bit but one can make a receiver drop it, and its error flag may reach the sender after its last sample. The spike is
    /// an edge to both: the receiver's flag begins by a jump later, and the sender samples by a jump earlier.
    pub fn worst_hiding(&self, senders: Senders) -> Option<Hiding>
        ensures { result ≡ worst_hiding self.now plain senders }
    {
        let bus = self.plain_bus();
        let asked = AskedBus {
            bus,
            senders,
            is_shared: bus.several(),
            rows: self.plain.as_ref(),
        };
        asked.worst_hiding()
    }
}

impl<'f> AskedBus<'f> {
    /// Returns nodes `i` and `j` if one spike may hide a frame of node `i` from node `j`.
    fn hiding_at(&self, i: u8, j: u8) -> Option<Hiding>
        requires one { i < (the_bus self.now.bus).nodes }
        requires other { j < (the_bus self.now.bus).nodes }
        ensures { result ≡ hiding_at self.now.bus.family.now self.now.bus.setting self.now.senders i j }
    {
        if !self.bus.family.are_flagged(i, j) {
            return None;
        }
        let hiding = Hiding {
            sender: i,
            receiver: j,
            late: self.sides(Inequality::BitIsThereAtSample, i, j),
            jumps: self.bus.both_jumps(i, j),
        };
        if lacks(&hiding) == 0 {
            return None;
        }
        Some(hiding)
    }

    /// Returns the worst pair of node `i` as the sender.
    fn worst_with(&self, i: u8) -> Option<Hiding>
        requires node { i < (the_bus self.now.bus).nodes }
        ensures { let b = self.now.bus in
            result ≡ worst_with b.family.now b.setting self.now.senders i (length b.family.now.members) }
    {
        let mut found = None;
        for j in 0..self.bus.nodes() {
            found = worse_of_two(found, self.hiding_at(i, j));
        }
        found
    }

    /// Returns the worst pair.
    fn worst_hiding(&self) -> Option<Hiding>
        ensures { result ≡ worst_hiding self.now.bus.family.now self.now.bus.setting self.now.senders }
    {
        let mut found = None;
        for i in 0..self.bus.nodes() {
            found = worse_of_two(found, self.worst_with(i));
        }
        found
    }
}
