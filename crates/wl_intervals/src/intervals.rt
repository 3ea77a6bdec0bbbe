//! Sets of dominant ticks as sorted intervals.

ghost use Rattle.std.specs.Prelude.{◌≡◌, ℕ, ◌+◌, ◌^◌, ◌<◌, ◌≤◌, ◌↔◌, ◌&&◌, nat_lt, false, [], ◌∷◌, ◌++◌, OnOk, OnErr, IfOk, IfSome, IfNone, IsTrue, IsFalse, ◌⊎◌, length};
ghost use Rattle.wl_level.specs.Levels.{level_of};
ghost use Rattle.wl_intervals.specs.Pairs.{covers, AreIntervals, EndsFrom, IsNextChange, IsUnion, last_end, later_by};
ghost use Rattle.wl_intervals.specs.Search.{IsPlace, IsFirstAfter, IsNextPair, with_pair};

use std::alloc::{AllocError, Global};
use std::marker::Model;
use thiserror::Error;
use wl_level::Level;

/// Why an interval is refused: the first that applies, in this order.
#[derive(Clone, Copy, Debug, PartialEq, Eq, Error)]
pub enum IntervalsFault {
    /// The interval holds no tick.
    #[error("Empty")]
    Empty,
    /// It begins at the end of the last interval, or before.
    #[error("NotAfterLast")]
    NotAfterLast,
    /// There is no memory for it.
    #[error("Memory")]
    Memory,
}

/// A set of ticks at which a line is dominant: half-open intervals, sorted, disjoint, not touching and none empty.
///
/// Two sets that hold the same ticks have the same intervals.
#[derive(Debug, Drop)]
pub struct Intervals {
    pairs: Vec<(u64, u64)>,
}

impl Model for Intervals {
    ghost use Rattle.std.specs.Prelude.{ℕ, List};
    ghost use Rattle.wl_intervals.specs.Pairs.{AreIntervals};

    ghost Value = { List (ℕ × ℕ) };

    ghost view = { λ s. s.pairs.items };

    ghost invariant = { λ s. AreIntervals s.pairs.items };
}

impl Intervals {
    /// Returns the set of no tick. It takes no memory.
    pub fn new(alloc: Global) -> Intervals
        ensures { result ≡ [] }
    {
        Intervals {
            pairs: Vec::new(alloc),
        }
    }

    /// Returns the intervals in order, each as its first tick and the tick after its last.
    pub fn as_slice(&self) -> &[(u64, u64)]
        ensures pairs { result.now ≡ self.now }
        ensures intervals { AreIntervals self.now }
    {
        self.pairs.as_slice()
    }

    /// Returns the tick after the last of the set, or `None` if it holds none.
    pub fn end(&self) -> Option<u64>
        ensures end { result ≡ last_end self.now }
        ensures intervals { AreIntervals self.now }
    {
        match self.pairs.last() {
            Some((_, end)) => Some(*end),
            None => None,
        }
    }

    /// Returns the level at tick `t`: dominant if an interval holds it. It is a binary search, and takes no memory.
    pub fn at(&self, t: u64) -> Level
        ensures level { result ≡ level_of (covers self.now t) }
        ensures intervals { AreIntervals self.now }
    {
        match self.first_after(t) {
            Some((from, _)) if from <= t => Level::Dominant,
            _ => Level::Recessive,
        }
    }

    /// Returns the first tick after `t` at which the level is another than at `t`, or `None` if it stays. It is a binary search, and takes
    /// no memory.
    pub fn next_change(&self, t: u64) -> Option<u64>
        ensures change { IfSome result (λ u. IsNextChange self.now t u) }
        ensures stays { IfNone result ((u : ℕ) → t < u → covers self.now u ≡ covers self.now t) }
        ensures intervals { AreIntervals self.now }
    {
        let (from, to) = self.first_after(t)?;
        Some(if t < from { from } else { to })
    }

    /// Adds the ticks from `from` up to, and not with, `to` after all others. `Empty` if there is no such tick, `NotAfterLast` if `from` is
    /// not above the end of the last interval, and `Empty` if both hold; `Memory` if there is none. A refused call leaves the set as it
    /// was.
    pub fn push(&mut self, from: u64, to: u64) -> Result<(), IntervalsFault>
        ensures empty { (result ≡ Err IntervalsFault.Empty) ↔ (to ≤ from) }
        ensures not_after_last { (result ≡ Err IntervalsFault.NotAfterLast) ↔ ((from < to) × EndsFrom self.old from) }
        ensures ok { OnOk result (self.new ≡ self.old ++ (from, to) ∷ []) }
        ensures err { OnErr result (self.new ≡ self.old) }
    {
        if from >= to {
            return Err(IntervalsFault::Empty);
        }
        if self.ends_at_or_after(from) {
            return Err(IntervalsFault::NotAfterLast);
        }
        match self.pairs.push((from, to)) {
            Ok(()) => Ok(()),
            Err(_) => Err(IntervalsFault::Memory),
        }
    }

    /// Adds the ticks of `other`. If there is no memory the set stays as it was.
    pub fn join(&mut self, other: &Intervals) -> Result<(), AllocError>
        ensures union { OnOk result (IsUnion self.old other.now self.new) }
        ensures err { OnErr result (self.new ≡ self.old) }
    {
        let alloc = *self.pairs.allocator();
        let joined = merged(alloc, self.as_slice(), other.as_slice())?;
        self.pairs = joined;
        Ok(())
    }

    /// Returns the set with each tick later by `d`. The end of its last interval, if there is one, plus `d` is below 2^64. Refused only
    /// when out of memory.
    pub fn shift(&self, alloc: Global, d: u64) -> Result<Intervals, AllocError>
        requires { IfSome (last_end self.now) (λ end. end + d < 2 ^ 64) }
        ensures pairs { IfOk result (λ later. later ≡ later_by d self.now) }
        ensures ticks { IfOk result (λ later. (t : ℕ) → covers later (t + d) ≡ covers self.now t) }
        ensures none_before { IfOk result (λ later. (t : ℕ) → t < d → covers later t ≡ false) }
    {
        let mut pairs = Vec::with_capacity(alloc, self.pairs.len())?;
        for (from, to) in &self.pairs {
            pairs.push((*from + d, *to + d))?;
        }
        Ok(Intervals { pairs })
    }

    /// Returns the ticks of the set that lie below tick `t`. Refused only when out of memory.
    pub fn cut(&self, alloc: Global, t: u64) -> Result<Intervals, AllocError>
        ensures { IfOk result (λ part. (u : ℕ) → covers part u ≡ (covers self.now u && nat_lt u t)) }
    {
        let place = self.place_of(t);
        let mut pairs = Vec::from_slice(alloc, &self.pairs[..place])?;
        if place >= self.pairs.len() || t <= self.pairs[place].0 {
            return Ok(Intervals { pairs });
        }
        pairs.push((self.pairs[place].0, t))?;
        Ok(Intervals { pairs })
    }

    /// Returns an equal set. Refused only when out of memory.
    pub fn clone_in(&self, alloc: Global) -> Result<Intervals, AllocError>
        ensures { IfOk result (λ copy. copy ≡ self.now) }
    {
        let pairs = Vec::from_slice(alloc, &self.pairs)?;
        Ok(Intervals { pairs })
    }

    /// True if the last interval ends at tick `t` or after it.
    fn ends_at_or_after(&self, t: u64) -> bool
        ensures last { IsTrue result ↔ EndsFrom self.now t }
        ensures intervals { AreIntervals self.now }
    {
        match self.end() {
            Some(end) => t <= end,
            None => false,
        }
    }

    /// Returns the first interval that ends after tick `t`.
    fn first_after(&self, t: u64) -> Option<(u64, u64)>
        ensures found { IfSome result (IsFirstAfter self.now t) }
        ensures none { IfNone result ((u : ℕ) → t ≤ u → covers self.now u ≡ false) }
        ensures intervals { AreIntervals self.now }
    {
        self.pairs.get(self.place_of(t)).copied()
    }

    /// Returns how many intervals end at tick `t` or before: the place of the first that ends after it.
    fn place_of(&self, t: u64) -> usize
        ensures place { IsPlace self.now t result }
        ensures intervals { AreIntervals self.now }
    {
        self.pairs.partition_point(|(_, to)| *to <= t)
    }
}

/// Returns the intervals of the ticks of either list.
fn merged(
    alloc: Global,
    left: &[(u64, u64)],
    right: &[(u64, u64)],
) -> Result<Vec<(u64, u64)>, AllocError>
    requires left { AreIntervals left.now }
    requires right { AreIntervals right.now }
    ensures intervals { IfOk result (λ joined. AreIntervals joined.items) }
    ensures union { IfOk result (λ joined. IsUnion left.now right.now joined.items) }
{
    let mut joined = Vec::new(alloc);
    let mut i = 0;
    let mut j = 0;
    while i < left.len() || j < right.len() {
        if left_is_next(left, right, i, j) {
            absorb(&mut joined, left[i])?;
            i += 1;
        } else {
            absorb(&mut joined, right[j])?;
            j += 1;
        }
    }
    Ok(joined)
}

/// True if the left list's next interval begins first, or at the same tick. Either list may be exhausted, but not both.
fn left_is_next(left: &[(u64, u64)], right: &[(u64, u64)], i: usize, j: usize) -> bool
    requires { (i < length left.now) ⊎ (j < length right.now) }
    ensures left { IsTrue result → IsNextPair left.now right.now i j }
    ensures right { IsFalse result → IsNextPair right.now left.now j i }
{
    if i >= left.len() {
        return false;
    }
    if j >= right.len() {
        return true;
    }
    left[i].0 <= right[j].0
}

/// Adds an interval that begins no sooner than the last. If they touch or overlap it makes the last longer.
fn absorb(joined: &mut Vec<(u64, u64)>, next: (u64, u64)) -> Result<(), AllocError>
    ensures { OnOk result (joined.new.items ≡ with_pair joined.old.items next) }
{
    let count = joined.len();
    if count > 0 && next.0 <= joined[count - 1].1 {
        let last = &mut joined[count - 1];
        last.1 = last.1.max(next.1);
        return Ok(());
    }
    joined.push(next)?;
    Ok(())
}
