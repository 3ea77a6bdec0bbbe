//! What arrives at a place from each node, and when that changes next.
ghost use Rattle.std.specs.Prelude.{◌≡◌, ◌≢◌, ℕ, ◌<◌, ◌≤◌, ◌^◌, false, true, length, slice_index_or};
ghost use Rattle.wl_record_core.specs.Truth.{IsIncreasing};
ghost use Rattle.wl_topology.specs.Limits.{most_places};
ghost use Rattle.wl_pulse.specs.Pulses.{drove};
ghost use Rattle.wl_serial.specs.LineAt.{AreDelays, AreTallied, IsAhead, IsAlone, AreSooner, AreSources, IsDriving, IsDue, IsPulseTold};
ghost use Rattle.wl_serial.specs.Running.{AreSomewhere};

use crate::checked::Checked;
use crate::running_node::{Running, Ticks};
use wl_pulse::{Pulse, pulse_of};
use wl_topology::MOST_NODES;

/// A tick after each that is kept of a node, and no later than what is kept of a number that is no node: 2^63.
const NO_TICK: u64 = 9_223_372_036_854_775_808;

/// What is cached of the nodes at a place. Of each node it is how many changes were counted when it was last asked, and the tick at which the
/// next one arrives. That tick may be past: then the node is to be asked again. It is also whether the node is dominant up to that tick, and
/// how many nodes are kept so. And it is one node, with a tick before which no change of another one arrives.
#[derive(Drop)]
pub(crate) struct Sources {
    /// It speeds up the next time, and decides nothing.
    pub(crate) come: [usize; MOST_NODES],
    pub(crate) nexts: Ticks,
    pub(crate) drives: [bool; MOST_NODES],
    pub(crate) driving: usize,
    pub(crate) one: usize,
    pub(crate) others: u64,
}

impl Sources {
    /// Returns a cache in which no node of a plan has been asked yet.
    pub(crate) fn new(plan: &Checked) -> Sources
        ensures kept { AreTallied (length plan.now.nodes) result }
        ensures ahead { IsAhead result }
        ensures nothing { (i : ℕ) → i < length plan.now.nodes → slice_index_or result.nexts i 0 ≡ 0 }
    {
        let mut nexts = [u64::MAX; MOST_NODES];
        for i in 0..plan.nodes() {
            nexts[i] = 0;
        }
        Sources {
            come: [0; MOST_NODES],
            nexts,
            drives: [false; MOST_NODES],
            driving: 0,
            one: 0,
            others: 0,
        }
    }

    /// Returns whether some node is dominant at place `j`, by its changes, from tick `t` on. Before the tick `others` only the node that is
    /// kept apart is asked.
    pub(crate) fn hear(
        &mut self,
        plan: &Checked,
        running: &[Running],
        delays: &Ticks,
        j: usize,
        t: u64,
    ) -> Pulse
        requires node { j < length plan.now.nodes }
        requires somewhere { AreSomewhere plan.now running.now }
        requires delays { AreDelays plan.now j delays.now }
        requires early { t < 2 ^ 63 }
        requires kept { AreTallied (length plan.now.nodes) self.old }
        requires ahead { IsAhead self.old }
        requires sources { AreSources plan.now running.now j t self.old }
        ensures kept { AreTallied (length plan.now.nodes) self.new }
        ensures ahead { IsAhead self.new }
        ensures sources { AreSources plan.now running.now j t self.new }
        ensures from { result.from ≡ t }
        ensures until { t < result.until }
        ensures told { IsPulseTold plan.now running.now j result }
    {
        plan.laws();
        if self.others <= t {
            return self.hear_all(plan, running, delays, j, t);
        }
        let i = self.one;
        if self.nexts[i] <= t {
            self.take(plan, running[i].changes.as_slice(), delays[i], i, t);
        }
        let until = self.nexts[i].min(self.others);
        Pulse {
            from: t,
            until,
            dominant: 0 < self.driving,
        }
    }

    /// Returns the same, if any node may have changed its drive. While a node is known to drive dominant there, none is asked. Else those are
    /// asked from which a change has arrived, up to the first that is dominant.
    fn hear_all(
        &mut self,
        plan: &Checked,
        running: &[Running],
        delays: &Ticks,
        j: usize,
        t: u64,
    ) -> Pulse
        requires node { j < length plan.now.nodes }
        requires somewhere { AreSomewhere plan.now running.now }
        requires delays { AreDelays plan.now j delays.now }
        requires early { t < 2 ^ 63 }
        requires kept { AreTallied (length plan.now.nodes) self.old }
        requires ahead { IsAhead self.old }
        requires others { self.old.others ≤ t }
        requires sources { AreSources plan.now running.now j t self.old }
        ensures kept { AreTallied (length plan.now.nodes) self.new }
        ensures ahead { IsAhead self.new }
        ensures sources { AreSources plan.now running.now j t self.new }
        ensures from { result.from ≡ t }
        ensures until { t < result.until }
        ensures told { IsPulseTold plan.now running.now j result }
    {
        plan.laws();
        let until = self.dominant_until(plan);
        if t < until {
            return dominant_pulse(t, until);
        }
        let (due, count) = self.due_by(plan, t);
        let until = self.take_due(plan, running, delays, j, t, &due, count);
        if t < until {
            return dominant_pulse(t, until);
        }
        self.others = self.others_until(plan, self.one);
        Pulse {
            from: t,
            until: self.others.min(self.nexts[self.one]),
            dominant: 0 < self.driving,
        }
    }

    /// Returns the latest tick up to which a node drives dominant, by what is kept; 0 if none is kept as dominant. It may be past.
    #[inline(always)]
    fn dominant_until(&self, plan: &Checked) -> u64
        ensures { (u : ℕ) → u < result → IsDriving (length plan.now.nodes) u self.now }
    {
        let mut until = 0;
        for i in 0..plan.nodes() {
            until = until.max(if self.drives[i] { self.nexts[i] } else { 0 });
        }
        until
    }

    /// Returns the nodes whose next change is kept as one that arrives by tick `t`, in their order, and how many they are. No branch of the
    /// loop depends on a node.
    #[inline(always)]
    fn due_by(&self, plan: &Checked, t: u64) -> ([u8; MOST_NODES], usize)
        ensures { IsDue (length plan.now.nodes) t self.now result.0 result.1 }
    {
        let mut due = [0; MOST_NODES];
        let mut count = 0;
        for i in 0..plan.nodes() {
            due[count] = i as u8;
            if self.nexts[i] <= t {
                count += 1;
            }
        }
        (due, count)
    }

    /// Takes up what has arrived by tick `t` from these nodes, up to the first that is dominant then. Returns the tick up to which that one
    /// stays so. If none is dominant it returns 0, and the last of them is kept apart.
    #[inline(always)]
    fn take_due(
        &mut self,
        plan: &Checked,
        running: &[Running],
        delays: &Ticks,
        j: usize,
        t: u64,
        due: &[u8; MOST_NODES],
        count: usize,
    ) -> u64
        requires somewhere { AreSomewhere plan.now running.now }
        requires delays { AreDelays plan.now j delays.now }
        requires early { t < 2 ^ 63 }
        requires kept { AreTallied (length plan.now.nodes) self.old }
        requires ahead { IsAhead self.old }
        requires others { self.old.others ≤ t }
        requires sources { AreSources plan.now running.now j t self.old }
        requires due { IsDue (length plan.now.nodes) t self.old due.now count }
        ensures kept { AreTallied (length plan.now.nodes) self.new }
        ensures sources { AreSources plan.now running.now j t self.new }
        ensures driving { (u : ℕ) → u < result → IsDriving (length plan.now.nodes) u self.new }
        ensures ahead { t < result → IsAhead self.new }
        ensures inside { result ≤ t → self.new.one < length plan.now.nodes }
        ensures later { result ≤ t
            → (k : ℕ) → k < length plan.now.nodes → t < slice_index_or self.new.nexts k 0 }
    {
        plan.laws();
        let mut last = 0;
        for k in 0..count {
            let i = due[k] as usize;
            self.take(plan, running[i].changes.as_slice(), delays[i], i, t);
            if self.drives[i] {
                return self.nexts[i];
            }
            last = i;
        }
        self.one = last;
        0
    }

    /// Returns the tick before which no change of another node than node `j` is to be taken up, if all others are kept as recessive; else 0. It
    /// may be past.
    pub(crate) fn alone_until(&self, plan: &Checked, j: usize) -> u64
        requires node { j < length plan.now.nodes }
        requires kept { AreTallied (length plan.now.nodes) self.now }
        ensures { IsAlone (length plan.now.nodes) j result self.now }
    {
        plan.laws();
        if usize::from(self.drives[j]) < self.driving {
            return 0;
        }
        self.others_until(plan, j)
    }

    /// Returns the tick before which no change of another node than node `j` is to be taken up. It may be past.
    fn others_until(&self, plan: &Checked, j: usize) -> u64
        requires { AreTallied (length plan.now.nodes) self.now }
        ensures few { (k : ℕ) → k ≢ j → k < most_places → result ≤ slice_index_or self.now.nexts k 0 }
        ensures later { (t : ℕ) → t < 2 ^ 63
            → ((k : ℕ) → k < length plan.now.nodes → t < slice_index_or self.now.nexts k 0) → t < result }
    {
        let mut until = NO_TICK;
        for k in 0..plan.nodes() {
            until = until.min(if k == j { NO_TICK } else { self.nexts[k] });
        }
        until
    }

    /// Takes up the changes of node `i` that have arrived by tick `t`.
    fn take(&mut self, plan: &Checked, changes: &[u64], delay: u64, i: usize, t: u64)
        requires node { i < length plan.now.nodes }
        requires order { IsIncreasing changes.now }
        requires early { t < 2 ^ 63 }
        requires kept { AreTallied (length plan.now.nodes) self.old }
        ensures kept { AreTallied (length plan.now.nodes) self.new }
        ensures one { self.new.one ≡ self.old.one }
        ensures others { self.new.others ≡ self.old.others }
        ensures nexts { (k : ℕ) → k ≢ i → slice_index_or self.new.nexts k 0 ≡ slice_index_or self.old.nexts k 0 }
        ensures drives { (k : ℕ) → k ≢ i
            → slice_index_or self.new.drives k false ≡ slice_index_or self.old.drives k false }
        ensures later { t < slice_index_or self.new.nexts i 0 }
        ensures drove { (u : ℕ) → t ≤ u → u < slice_index_or self.new.nexts i 0
            → drove changes.now delay u ≡ slice_index_or self.new.drives i false }
    {
        plan.laws();
        let one = pulse_of(changes, delay, t, &mut self.come[i]);
        self.nexts[i] = one.until;
        self.driving = self.driving + usize::from(one.dominant) - usize::from(self.drives[i]);
        self.drives[i] = one.dominant;
    }

    /// Notes that a change of node `i` arrives at this tick. If an earlier one is still to be taken up, there is nothing to note.
    pub(crate) fn expect(&mut self, i: usize, comes: u64)
        requires { i < length self.old.nexts }
        ensures { AreSooner i comes self.old self.new }
    {
        if self.nexts[i] <= comes {
            return;
        }
        self.nexts[i] = comes;
        if i != self.one {
            self.others = self.others.min(comes);
        }
    }
}

/// Returns the pulse that is dominant from one tick on and below another.
fn dominant_pulse(from: u64, until: u64) -> Pulse
    ensures from { result.from ≡ from }
    ensures until { result.until ≡ until }
    ensures dominant { result.dominant ≡ true }
{
    Pulse {
        from,
        until,
        dominant: true,
    }
}
