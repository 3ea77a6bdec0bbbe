// What is kept of a node: its run, and the tick below which it is known, brought up to date if a record comes.
ghost use Rattle.std.specs.Prelude.{◌≡◌, ◌<◌, ◌≤◌, ◌+◌, ℕ, max, true, false, length, slice_index_or, IfSome, IfNone};
ghost use Rattle.wl_lattice.specs.declared.FlatWord.TheVariants as flat;
ghost use Rattle.wl_record_core.specs.Limits.{most_edges, tick_end};
ghost use Rattle.wl_record_core.specs.Slots.{node_of};
ghost use Rattle.wl_replica.specs.declared.known_run.KnownRun.{KnownRun};
ghost use Rattle.wl_replica.specs.Dense.{row_number, edges_of_row, HasTicksWithin};
ghost use Rattle.wl_replica.specs.Known.{is_run, run_goes_on, after_edges};
ghost use Rattle.wl_replica.specs.Runs.{IsRunOf, WasRunBeforeEdge, WasRunBeforeSilence, WasRunBefore};

use wl_lattice::{FlatWord, number_word};
use wl_record_core::{MOST_EDGES, Record};

/// A run of a node's first changes.
#[derive(Clone, Copy)]
pub struct Run {
    /// How many changes.
    pub length: u32,
    /// The tick after the last one, 0 for none.
    pub end: u64,
}

/// What a node's words say of its level.
#[derive(Clone, Copy)]
pub struct KnownRun {
    /// The longest run of its first changes that are known without a gap.
    pub run: Run,
    /// The tick below which the node is known.
    pub horizon: u64,
}

/// What is known of a node about which nothing came.
pub const NOTHING: KnownRun = KnownRun {
    run: Run { length: 0, end: 0 },
    horizon: 0,
};

/// Returns the number at a place of a row, 0 past its end.
fn number_at(row: &[u64], place: u32) -> u64
    ensures { result ≡ row_number row.now place }
{
    match row.get(place as usize) {
        Some(number) => *number,
        None => 0,
    }
}

/// Returns the word of a change by its number.
pub fn edge_at(edges: &[u64], seq: u32) -> FlatWord
    ensures { result ≡ edges_of_row edges.now seq }
{
    number_word(number_at(edges, seq))
}

/// Returns a run with the next change, if that extends it.
fn longer(edges: &[u64], silences: &[u64], run: Run) -> Option<Run>
    requires within { HasTicksWithin edges.now }
    requires end { run.end ≡ after_edges (edges_of_row edges.now) run.length }
    ensures more { IfSome result (λ next. next.length ≡ run.length + 1) }
    ensures few { IfSome result (λ next. next.length ≤ most_edges) }
    ensures goes { IfSome result (λ next.
        run_goes_on (edges_of_row edges.now) (row_number silences.now) run.length ≡ true) }
    ensures end { IfSome result (λ next. next.end ≡ after_edges (edges_of_row edges.now) next.length) }
    ensures stops { IfNone result
        (run_goes_on (edges_of_row edges.now) (row_number silences.now) run.length ≡ false) }
{
    let FlatWord::Value(tick) = edge_at(edges, run.length) else {
        return None;
    };
    if tick < run.end || tick < number_at(silences, run.length) {
        return None;
    }
    Some(Run {
        length: run.length + 1,
        end: tick + 1,
    })
}

/// Returns the longest run, if a shorter one is known.
fn run_on(edges: &[u64], silences: &[u64], from: Run) -> Run
    requires within { HasTicksWithin edges.now }
    requires run { is_run (edges_of_row edges.now) (row_number silences.now) from.length ≡ true }
    requires end { from.end ≡ after_edges (edges_of_row edges.now) from.length }
    requires few { from.length ≤ most_edges }
    ensures run { is_run (edges_of_row edges.now) (row_number silences.now) result.length ≡ true }
    ensures stops { run_goes_on (edges_of_row edges.now) (row_number silences.now) result.length ≡ false }
    ensures end { result.end ≡ after_edges (edges_of_row edges.now) result.length }
    ensures few { result.length ≤ most_edges }
{
    let mut run = from;
    while run.length < MOST_EDGES {
        match longer(edges, silences, run) {
            Some(next) => run = next,
            None => return run,
        }
    }
    run
}

/// Returns a run of this many changes, which are known.
fn first_of(edges: &[u64], count: u32) -> Run
    requires { HasTicksWithin edges.now }
    ensures length { result.length ≡ count }
    ensures end { result.end ≡ after_edges (edges_of_row edges.now) count }
{
    if count == 0 {
        return NOTHING.run;
    }
    let end = match edge_at(edges, count - 1) {
        FlatWord::Value(tick) => tick + 1,
        _ => 1,
    };
    Run { length: count, end }
}

/// Returns how far a run says all: the silences after fewer changes end below its last one.
fn known_at(silences: &[u64], run: Run) -> KnownRun
    ensures run { result.run ≡ run }
    ensures horizon { result.horizon ≡ max run.end (row_number silences.now run.length) }
{
    KnownRun {
        run,
        horizon: run.end.max(number_at(silences, run.length)),
    }
}

/// Returns what is known of a node, by a walk over all its changes.
pub fn known_of(edges: &[u64], silences: &[u64]) -> KnownRun
    requires { HasTicksWithin edges.now }
    ensures { IsRunOf (edges_of_row edges.now) (row_number silences.now) result }
{
    known_at(silences, run_on(edges, silences, NOTHING.run))
}

/// Returns what is known of a node after a word was joined in at one of its changes. A change of the run is then the same, or clashes and
/// ends the run.
fn after_edge(edges: &[u64], silences: &[u64], seq: u32, known: KnownRun) -> KnownRun
    requires within { HasTicksWithin edges.now }
    requires was { WasRunBeforeEdge (edges_of_row edges.now) (row_number silences.now) seq known }
    ensures { IsRunOf (edges_of_row edges.now) (row_number silences.now) result }
{
    if seq >= known.run.length {
        return known_at(silences, run_on(edges, silences, known.run));
    }
    match edge_at(edges, seq) {
        FlatWord::Value(_) => known,
        _ => known_at(silences, first_of(edges, seq)),
    }
}

/// Returns what is known of a node after the end of a silence was joined in. If it is past a change of the run, that change ends the run.
fn after_silence(
    edges: &[u64],
    silences: &[u64],
    count: u32,
    until: u64,
    known: KnownRun,
) -> KnownRun
    requires within { HasTicksWithin edges.now }
    requires was { WasRunBeforeSilence (edges_of_row edges.now) (row_number silences.now) count until known }
    ensures { IsRunOf (edges_of_row edges.now) (row_number silences.now) result }
{
    if count > known.run.length {
        return known;
    }
    if count == known.run.length {
        return KnownRun {
            run: known.run,
            horizon: known.horizon.max(until),
        };
    }
    match edge_at(edges, count) {
        FlatWord::Value(tick) if until <= tick => known,
        _ => known_at(silences, first_of(edges, count)),
    }
}

/// Returns what is known of a node after a record of it was taken.
fn after_record(edges: &[u64], silences: &[u64], told: &Record, known: KnownRun) -> KnownRun
    requires within { HasTicksWithin edges.now }
    requires was { WasRunBefore told.now (edges_of_row edges.now) (row_number silences.now) known }
    ensures { IsRunOf (edges_of_row edges.now) (row_number silences.now) result }
{
    match *told {
        Record::Edge { seq, .. } => after_edge(edges, silences, seq, known),
        Record::Clash { seq, .. } => after_edge(edges, silences, seq, known),
        Record::Silence { count, until, .. } => after_silence(edges, silences, count, until, known),
    }
}

/// Brings the run of a record's node up to date after the record was taken into these rows of the node.
pub fn record_came(runs: &mut Vec<KnownRun>, edges: &[u64], silences: &[u64], told: &Record)
    requires node { node_of told.now < length runs.old.items }
    requires within { HasTicksWithin edges.now }
    requires was { (d : KnownRun) → WasRunBefore told.now (edges_of_row edges.now) (row_number silences.now)
        (slice_index_or runs.old.items (node_of told.now) d) }
    ensures count { length runs.new.items ≡ length runs.old.items }
    ensures run { (d : KnownRun) → IsRunOf (edges_of_row edges.now) (row_number silences.now)
        (slice_index_or runs.new.items (node_of told.now) d) }
    ensures others { (i : ℕ) (d : KnownRun) → ¬ (i ≡ node_of told.now)
        → slice_index_or runs.new.items i d ≡ slice_index_or runs.old.items i d }
{
    let at = told.node() as usize;
    let known = runs[at];
    runs[at] = after_record(edges, silences, told, known);
}
