//! The pair of nodes to which an inequality leaves least.
ghost use Rattle.std.specs.Prelude.{◌≡◌, ◌⊎◌, ◌<◌, length, IfSome};
ghost use Rattle.wl_level.specs.Places.{first_place};
ghost use Rattle.wl_topology.specs.Driven.{any_below};
ghost use Rattle.wl_bound.specs.Families.{Buses};
ghost use Rattle.wl_judge.specs.Weakest.{IsPairOf, coarsest, has_longer, is_coarsest, is_of_pair, is_weak, leaves_less, pair_at, weaker, weaker_pair, weakest_of, weakest_pair, weakest_with};

use wl_bound::{Family, Inequality, Senders, Sides};

/// Two nodes, and the sides of an inequality for them.
#[derive(Clone, Copy, Debug, PartialEq, Eq)]
pub struct Pair {
    /// The node at which bits arrive.
    pub node: u8,
    /// The node whose bits they are.
    pub other: u8,
    /// What takes time, and the time that there is.
    pub sides: Sides,
}

/// The pair to which each inequality leaves least; none if it is asked of no pair.
#[derive(Clone, Copy, Debug, PartialEq, Eq)]
pub struct Weakest {
    /// `BitIsThereAtSample`
    pub late: Option<Pair>,
    /// `NoBitTooEarly`
    pub early: Option<Pair>,
    /// `DriftFitsJump`
    pub drift: Option<Pair>,
}

/// True if the first of two inequalities leaves less than the second.
fn leaves_less(a: Sides, b: Sides) -> bool
    ensures { result ≡ leaves_less a b }
{
    if a.left <= a.right {
        b.left <= b.right && a.right - a.left < b.right - b.left
    } else {
        b.left <= b.right || b.left - b.right < a.left - a.right
    }
}

/// Returns the weaker of two pairs, the first of equal ones.
fn weaker_pair(a: Pair, b: Pair) -> Pair
    ensures pair { result ≡ weaker_pair a b }
    ensures one_of_them { (result ≡ a) ⊎ (result ≡ b) }
{
    if leaves_less(b.sides, a.sides) { b } else { a }
}

/// Returns the weaker of two pairs, if there are such.
fn weaker(one: Option<Pair>, other: Option<Pair>) -> Option<Pair>
    ensures pair { result ≡ weaker one other }
    ensures nodes { (f : Buses) → IfSome one (IsPairOf f) → IfSome other (IsPairOf f) → IfSome result (IsPairOf f) }
{
    match one {
        None => other,
        Some(a) => match other {
            None => Some(a),
            Some(b) => Some(weaker_pair(a, b)),
        },
    }
}

/// Returns nodes `i` and `j` if an inequality is asked of them.
fn pair_at(family: &Family, senders: Senders, inequality: Inequality, i: u8, j: u8) -> Option<Pair>
    requires one { i < length family.now.members }
    requires other { j < length family.now.members }
    ensures pair { result ≡ pair_at family.now senders inequality i j }
    ensures nodes { IfSome result (IsPairOf family.now) }
{
    if i == j || !family.is_asked(inequality, i, j) {
        return None;
    }
    Some(Pair {
        node: i,
        other: j,
        sides: family.sides(senders, inequality, i, j),
    })
}

/// Returns the weakest pair of node `i`.
fn weakest_with(family: &Family, senders: Senders, inequality: Inequality, i: u8) -> Option<Pair>
    requires node { i < length family.now.members }
    ensures pair { result ≡ weakest_with family.now senders inequality i (length family.now.members) }
    ensures nodes { IfSome result (IsPairOf family.now) }
{
    let mut found = None;
    for j in 0..family.nodes() {
        found = weaker(found, pair_at(family, senders, inequality, i, j));
    }
    found
}

/// Returns the weakest pair by an inequality.
fn weakest_pair(family: &Family, senders: Senders, inequality: Inequality) -> Option<Pair>
    ensures pair { result ≡ weakest_pair family.now senders inequality }
    ensures nodes { IfSome result (IsPairOf family.now) }
{
    let mut found = None;
    for i in 0..family.nodes() {
        found = weaker(found, weakest_with(family, senders, inequality, i));
    }
    found
}

/// Returns the weakest pairs of a bus.
pub(crate) fn weakest_of(family: &Family, senders: Senders) -> Weakest
    ensures pairs { result ≡ weakest_of family.now senders }
    ensures late { IfSome result.late (IsPairOf family.now) }
    ensures early { IfSome result.early (IsPairOf family.now) }
    ensures drift { IfSome result.drift (IsPairOf family.now) }
{
    Weakest {
        late: weakest_pair(family, senders, Inequality::BitIsThereAtSample),
        early: weakest_pair(family, senders, Inequality::NoBitTooEarly),
        drift: weakest_pair(family, senders, Inequality::DriftFitsJump),
    }
}

/// True if node `i` is one of a pair.
fn is_of_pair(i: u8, pair: Option<Pair>) -> bool
    ensures { result ≡ is_of_pair i pair }
{
    match pair {
        None => false,
        Some(pair) => i == pair.node || i == pair.other,
    }
}

/// True if node `i` is in one of the weakest pairs.
pub(crate) fn is_weak(i: u8, weak: Weakest) -> bool
    ensures { result ≡ is_weak i weak }
{
    is_of_pair(i, weak.late) || is_of_pair(i, weak.early) || is_of_pair(i, weak.drift)
}

/// True if no node has longer quanta than node `i`.
fn is_coarsest(family: &Family, i: u8) -> bool
    requires node { i < length family.now.members }
    ensures { result ≡ is_coarsest family.now i }
{
    let own = family.member(i).oscillator.longest();
    let mut any = false;
    for j in 0..family.nodes() {
        any = any || own < family.member(j).oscillator.longest();
    }
    !any
}

/// Returns the first of the nodes with the longest quanta.
pub(crate) fn coarsest(family: &Family) -> Option<u8>
    ensures { result ≡ coarsest family.now }
{
    let mut first = None;
    for i in 0..family.nodes() {
        if first.is_none() && is_coarsest(family, i) {
            first = Some(i);
        }
    }
    first
}
