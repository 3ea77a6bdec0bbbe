// The dominant intervals of a node's run.
ghost use Rattle.std.specs.Prelude.{◌≡◌, ◌<◌, ◌≤◌, ◌-◌, ℕ, max, filter, nat_lt, [], ◌∷◌, ◌++◌, OnOk, IfOk, IfSome, IfNone, Some, None};
ghost use Rattle.wl_intervals.specs.Pairs.{covers, last_end};
ghost use Rattle.wl_replica.specs.Dense.{edges_of_row};
ghost use Rattle.wl_replica.specs.Known.{tick_in, ticks, ticks_from, intervals};
ghost use Rattle.wl_replica.specs.Runs.{IsRunOfEdges};

use crate::known_run::{KnownRun, edge_at};
use std::alloc::{AllocError, Global};
use wl_intervals::{Intervals, IntervalsFault};
use wl_lattice::FlatWord;

/// Adds an interval after all others.
pub fn push_behind(set: &mut Intervals, from: u64, to: u64) -> Result<(), AllocError>
    requires some { from < to }
    requires behind { IfSome (last_end set.old) (λ end. end < from) }
    ensures ok { OnOk result (set.new ≡ set.old ++ (from, to) ∷ []) }
{
    match set.push(from, to) {
        Ok(()) => Ok(()),
        Err(IntervalsFault::Memory) => Err(AllocError),
        Err(_) => unreachable!(),
    }
}

/// Goes on to one tick more, at which the level changes: if it was dominant since a tick, the
/// interval is whole.
pub fn flip(set: &mut Intervals, since: Option<u64>, tick: u64) -> Result<Option<u64>, AllocError>
    requires since { IfSome since (λ from. from < tick) }
    requires behind { IfSome since (λ from. IfSome (last_end set.old) (λ end. end < from)) }
    ensures opened { IfOk result (λ after. IfNone since ((set.new ≡ set.old) × (after ≡ Some tick))) }
    ensures closed { IfOk result (λ after.
        IfSome since (λ from. (set.new ≡ set.old ++ (from, tick) ∷ []) × (after ≡ None))) }
{
    match since {
        None => Ok(Some(tick)),
        Some(from) => {
            push_behind(set, from, tick)?;
            Ok(None)
        }
    }
}

/// Returns the tick of a change, 0 if there is none.
fn tick_at(edges: &[u64], seq: u32) -> u64
    ensures { result ≡ tick_in (edges_of_row edges.now seq) }
{
    match edge_at(edges, seq) {
        FlatWord::Value(tick) => tick,
        _ => 0,
    }
}

/// Returns how many of the changes of a node's run come at a tick or before it, by halving.
fn changes_up_to(edges: &[u64], known: KnownRun, tick: u64) -> u32
    requires { IsRunOfEdges (edges_of_row edges.now) known }
    ensures few { result ≤ known.run.length }
    ensures before { (n : ℕ) → n < result → tick_in (edges_of_row edges.now n) ≤ tick }
    ensures after { (n : ℕ) → result ≤ n → n < known.run.length → tick < tick_in (edges_of_row edges.now n) }
{
    let mut low = 0;
    let mut high = known.run.length;
    while low < high {
        let middle = low + (high - low) / 2;
        if tick_at(edges, middle) <= tick {
            low = middle + 1;
        } else {
            high = middle;
        }
    }
    low
}

/// Returns the intervals in which a node drives dominant, by the changes of its run from an even
/// number on.
pub fn wave_of(
    alloc: Global,
    edges: &[u64],
    known: KnownRun,
    first: u32,
) -> Result<Intervals, AllocError>
    requires run { IsRunOfEdges (edges_of_row edges.now) known }
    requires first { first ≤ known.run.length }
    ensures { IfOk result (λ set. let length = known.run.length in
        set ≡ intervals (ticks_from (edges_of_row edges.now) first (length - first)) known.horizon) }
{
    let mut set = Intervals::new(alloc);
    let mut since = None;
    for place in first..known.run.length {
        since = flip(&mut set, since, tick_at(edges, place))?;
    }
    if let Some(from) = since {
        push_behind(&mut set, from, known.horizon)?;
    }
    Ok(set)
}

/// Returns the intervals that end after a tick: from the change before it on, if that is to
/// dominant.
pub fn wave_after_of(
    alloc: Global,
    edges: &[u64],
    known: KnownRun,
    tick: u64,
) -> Result<Intervals, AllocError>
    requires { IsRunOfEdges (edges_of_row edges.now) known }
    ensures { IfOk result (λ set. let e = edges_of_row edges.now in
        set ≡ filter (λ p. nat_lt tick p.1) (intervals (ticks e known.run.length) known.horizon)) }
{
    if known.horizon <= tick {
        return Ok(Intervals::new(alloc));
    }
    let count = changes_up_to(edges, known, tick);
    wave_of(alloc, edges, known, count - count % 2)
}

/// True if a node drives dominant at a tick below its horizon: after an odd number of the changes
/// of its run.
pub fn is_dominant_at(edges: &[u64], known: KnownRun, tick: u64) -> bool
    requires run { IsRunOfEdges (edges_of_row edges.now) known }
    requires known { tick < known.horizon }
    ensures { result ≡ covers (intervals (ticks (edges_of_row edges.now) known.run.length) known.horizon) tick }
{
    changes_up_to(edges, known, tick) % 2 == 1
}
