// Rows: what is known of all nodes, with a place for each slot.
ghost use Rattle.std.specs.Prelude.{◌≡◌, ◌<◌, ◌≤◌, ◌∷◌, ◌++◌, [], List, ℕ, length, IfOk, IfErr, OnOk, OnErr};
ghost use Rattle.std.specs.List.{AllByRecursion};
ghost use Rattle.wl_lattice.specs.SlotContents.{IsRaised};
ghost use Rattle.wl_lattice.specs.Words.{joined_flat, joined_max, max_word};
ghost use Rattle.wl_record_core.specs.Limits.{most_edges};
ghost use Rattle.wl_record_core.specs.Slots.{slot_of};
ghost use Rattle.wl_replica.specs.Keys.{Key};
ghost use Rattle.wl_replica.specs.State.{Fits};
ghost use Rattle.wl_replica.specs.Dense.{slot_number, row_of, edge_words, silence_words};
ghost use Rattle.wl_lattice.specs.Numbers.{number_word, HasNumber};
ghost use Rattle.wl_replica.specs.Dense.{HasRoomAt, IsGrown, IsToldTo};

use crate::canonical::{RecordSink, tell_edges, tell_silences};
use crate::known_run::known_of;
use crate::node_row::Row;
use crate::node_rows::{
    empty_rows, join_edge_rows, join_silence_rows, make_room_at, make_room_for, numbers_of,
};
use crate::waves::wave_of;
use std::alloc::{AllocError, Global};
use std::marker::Model;
use wl_intervals::Intervals;
use wl_lattice::{CLASH, FlatWord, Join, MaxWord, Slots, number_word, value_number};
use wl_record_core::{Record, Slot};

/// The edges of some nodes: for each node a row of numbers.
#[derive(Drop)]
pub struct EdgeRows {
    rows: Vec<Row>,
}

/// The silences of some nodes: for each node a row of the ticks at which they end.
#[derive(Drop)]
pub struct SilenceRows {
    rows: Vec<Row>,
}

impl EdgeRows {
    /// Joins in the number of a word that says something. Refused when out of memory; no number is then seen to change.
    #[inline(always)]
    fn raise_number(&mut self, node: u8, seq: u32, number: u64) -> Result<(), AllocError>
        requires node { node < length self.old.rows.items }
        requires some { 0 < number }
        ensures count { length self.new.rows.items ≡ length self.old.rows.items }
        ensures ok { OnOk result (IsRaised joined_flat (edge_words self.old.rows.items) (node, seq)
            (number_word number) (edge_words self.new.rows.items)) }
        ensures err { OnErr result ((q : Key) → edge_words self.new.rows.items q ≡ edge_words self.old.rows.items q) }
    {
        self.rows[node as usize].raise_edge(seq, number)
    }

    /// Joins in the number of a word that says something, for which there is room.
    #[inline(always)]
    fn join_number(&mut self, node: u8, seq: u32, number: u64)
        requires node { node < length self.old.rows.items }
        requires some { 0 < number }
        requires room { seq < length (row_of self.old.rows.items node) }
        ensures count { length self.new.rows.items ≡ length self.old.rows.items }
        ensures places { (i : ℕ) → length (row_of self.new.rows.items i) ≡ length (row_of self.old.rows.items i) }
        ensures joined { IsRaised joined_flat (edge_words self.old.rows.items) (node, seq)
            (number_word number) (edge_words self.new.rows.items) }
    {
        self.rows[node as usize].join_edge(seq, number);
    }
}

impl SilenceRows {
    /// Joins in the end of a silence. Refused when out of memory; no number is then seen to change.
    #[inline(always)]
    fn raise_number(&mut self, node: u8, count: u32, until: u64) -> Result<(), AllocError>
        requires { node < length self.old.rows.items }
        ensures count { length self.new.rows.items ≡ length self.old.rows.items }
        ensures ok { OnOk result (IsRaised joined_max (silence_words self.old.rows.items) (node, count)
            (max_word until) (silence_words self.new.rows.items)) }
        ensures err { OnErr result ((q : Key)
            → silence_words self.new.rows.items q ≡ silence_words self.old.rows.items q) }
    {
        self.rows[node as usize].raise_silence(count, until)
    }

    /// Joins in the end of a silence, for which there is room.
    #[inline(always)]
    fn join_number(&mut self, node: u8, count: u32, until: u64)
        requires node { node < length self.old.rows.items }
        requires room { count < length (row_of self.old.rows.items node) }
        ensures count { length self.new.rows.items ≡ length self.old.rows.items }
        ensures places { (i : ℕ) → length (row_of self.new.rows.items i) ≡ length (row_of self.old.rows.items i) }
        ensures joined { IsRaised joined_max (silence_words self.old.rows.items) (node, count)
            (max_word until) (silence_words self.new.rows.items) }
    {
        self.rows[node as usize].join_silence(count, until);
    }
}

/// Joins in what a record says. Refused when out of memory; no word is then seen to change.
#[inline(always)]
fn raise_told(
    edges: &mut EdgeRows,
    silences: &mut SilenceRows,
    told: Record,
) -> Result<(), AllocError>
    requires edges { Fits (length edges.old.rows.items) told }
    requires silences { Fits (length silences.old.rows.items) told }
    ensures edge_rows { length edges.new.rows.items ≡ length edges.old.rows.items }
    ensures silence_rows { length silences.new.rows.items ≡ length silences.old.rows.items }
    ensures ok { OnOk result (IsToldTo told edges.old.rows.items silences.old.rows.items
        edges.new.rows.items silences.new.rows.items) }
    ensures err { OnErr result (((q : Key) → edge_words edges.new.rows.items q ≡ edge_words edges.old.rows.items q)
        × ((q : Key) → silence_words silences.new.rows.items q ≡ silence_words silences.old.rows.items q)) }
{
    match told {
        Record::Edge { node, seq, tick } => edges.raise_number(node, seq, value_number(tick)),
        Record::Clash { node, seq } => edges.raise_number(node, seq, CLASH),
        Record::Silence { node, count, until } => silences.raise_number(node, count, until),
    }
}

/// Joins in what a record says, for which there is room.
fn join_told(edges: &mut EdgeRows, silences: &mut SilenceRows, told: &Record)
    requires edges { Fits (length edges.old.rows.items) told.now }
    requires silences { Fits (length silences.old.rows.items) told.now }
    requires room { HasRoomAt edges.old.rows.items silences.old.rows.items (slot_of told.now) }
    ensures edge_rows { length edges.new.rows.items ≡ length edges.old.rows.items }
    ensures silence_rows { length silences.new.rows.items ≡ length silences.old.rows.items }
    ensures edge_places { (i : ℕ) → length (row_of edges.new.rows.items i) ≡ length (row_of edges.old.rows.items i) }
    ensures silence_places { (i : ℕ)
        → length (row_of silences.new.rows.items i) ≡ length (row_of silences.old.rows.items i) }
    ensures told { IsToldTo told.now edges.old.rows.items silences.old.rows.items
        edges.new.rows.items silences.new.rows.items }
{
    match *told {
        Record::Edge { node, seq, tick } => edges.join_number(node, seq, value_number(tick)),
        Record::Clash { node, seq } => edges.join_number(node, seq, CLASH),
        Record::Silence { node, count, until } => silences.join_number(node, count, until),
    }
}

/// Makes room in a slot, if there is a row for it and a record can name it. No number is seen to change.
fn make_slot(edges: &mut EdgeRows, silences: &mut SilenceRows, slot: Slot) -> Result<(), AllocError>
    ensures edges { IsGrown edges.old.rows.items edges.new.rows.items }
    ensures silences { IsGrown silences.old.rows.items silences.new.rows.items }
    ensures room { OnOk result (HasRoomAt edges.new.rows.items silences.new.rows.items slot) }
{
    match slot {
        Slot::EdgeAt { node, seq } => make_room_at(&mut edges.rows, node, seq),
        Slot::SilenceAt { node, count } => make_room_at(&mut silences.rows, node, count),
    }
}

/// Makes room in each slot. No number is seen to change.
fn make_slots(
    edges: &mut EdgeRows,
    silences: &mut SilenceRows,
    slots: &[Slot],
) -> Result<(), AllocError>
    ensures edges { IsGrown edges.old.rows.items edges.new.rows.items }
    ensures silences { IsGrown silences.old.rows.items silences.new.rows.items }
    ensures room { OnOk result (AllByRecursion (HasRoomAt edges.new.rows.items silences.new.rows.items) slots.now) }
{
    for slot in slots {
        make_slot(edges, silences, *slot)?;
    }
    Ok(())
}

/// A key can hold a word if there is a row for its node; a tick has to be below 2^64 - 2.
impl Slots for EdgeRows {
    type Key = (u8, u32);

    type Word = FlatWord;

    ghost words = { λ r q. number_word (slot_number r.rows.items q) };

    ghost can_hold = { λ r q w. (q.0 < length r.rows.items) × HasNumber w };

    fn word(&self, key: &(u8, u32)) -> FlatWord {
        let (node, seq) = *key;
        match self.rows.get(node as usize) {
            Some(row) => number_word(row.number(seq)),
            None => FlatWord::Nothing,
        }
    }

    #[inline(always)]
    fn raise(&mut self, key: (u8, u32), word: &FlatWord) -> Result<(), AllocError> {
        let (node, seq) = key;
        match *word {
            FlatWord::Nothing => Ok(()),
            FlatWord::Value(tick) => self.raise_number(node, seq, value_number(tick)),
            FlatWord::Clash => self.raise_number(node, seq, CLASH),
        }
    }
}

/// A key can hold a word if there is a row for its node.
impl Slots for SilenceRows {
    type Key = (u8, u32);

    type Word = MaxWord;

    ghost words = { λ r q. max_word (slot_number r.rows.items q) };

    ghost can_hold = { λ r q w. q.0 < length r.rows.items };

    fn word(&self, key: &(u8, u32)) -> MaxWord {
        let (node, count) = *key;
        match self.rows.get(node as usize) {
            Some(row) => MaxWord {
                word: row.number(count),
            },
            None => MaxWord::bottom(),
        }
    }

    #[inline(always)]
    fn raise(&mut self, key: (u8, u32), word: &MaxWord) -> Result<(), AllocError> {
        let (node, count) = key;
        self.raise_number(node, count, word.word)
    }
}

/// What is known of some nodes, as [`Replica`](crate::Replica) knows it, without a run that is kept up to date.
///
/// It has a place of 8 bytes for each slot of a node up to the greatest that was named. So it takes records in any order at the same cost.
/// A record of the last change of a node makes it take 2 MiB by the limits of record texts, 2 GiB by the wide ones.
#[derive(Drop)]
pub struct Rows {
    nodes: u8,
    edges: EdgeRows,
    silences: SilenceRows,
}

impl Model for Rows {
    ghost use Rattle.wl_replica.specs.State.{State};
    ghost use Rattle.wl_replica.specs.Stored.{coded_state};
    ghost use Rattle.wl_replica.specs.Dense.{shown_by_rows, AreRows};

    ghost Value = { State };

    ghost coded = { coded_state };

    ghost view = { λ r. shown_by_rows r.nodes r.edges.rows.items r.silences.rows.items };

    ghost invariant = { λ r. AreRows r.nodes r.edges.rows.items r.silences.rows.items };
}

impl Rows {
    ghost use Rattle.wl_record_core.specs.declared.record.Record.{Record};
    ghost use Rattle.wl_replica.specs.State.{state_of, state_with_record, states_joined, IsOfRecords};

    /// Returns rows of this many nodes that know nothing. Refused only when out of memory.
    pub fn new(alloc: Global, nodes: u8) -> Result<Rows, AllocError>
        ensures { IfOk result (λ made. made ≡ state_of nodes []) }
    {
        Ok(Rows {
            nodes,
            edges: EdgeRows {
                rows: empty_rows(alloc, nodes)?,
            },
            silences: SilenceRows {
                rows: empty_rows(alloc, nodes)?,
            },
        })
    }

    /// Returns rows of no nodes. They take no memory.
    pub fn of_no_nodes(alloc: Global) -> Rows
        ensures { result ≡ state_of 0 [] }
    {
        Rows {
            nodes: 0,
            edges: EdgeRows {
                rows: Vec::new(alloc),
            },
            silences: SilenceRows {
                rows: Vec::new(alloc),
            },
        }
    }

    /// Returns the number of nodes that they know of. What they know of them is what some records say.
    pub fn nodes(&self) -> u8
        ensures value { result ≡ self.now.nodes }
        ensures records { IsOfRecords self.now }
    {
        self.nodes
    }

    ghost use Rattle.std.specs.Prelude.{◌≤◌};
    ghost use Rattle.std.specs.List.{filter_map};
    ghost use Rattle.std.specs.FinMap.{entries};
    ghost use Rattle.wl_replica.specs.Dense.{row_number, row_entries, most_row_places, HasTicksWithin};
    ghost use Rattle.wl_replica.specs.State.{edge_at, silence_at};
    ghost use Rattle.wl_replica.specs.Canonical.{edge_record, silence_record, of_node};

    /// Returns the numbers of a node's edges, one for each change from the first on: 0 for nothing, 2^64 - 1 for a clash, else the tick and
    /// one. Past their end nothing is known.
    pub fn edge_numbers(&self, node: u8) -> &[u64]
        requires { node < self.now.nodes }
        ensures few { length result.now ≤ most_row_places }
        ensures within { HasTicksWithin result.now }
        ensures words { (n : ℕ) → number_word (row_number result.now n) ≡ edge_at self.now (node, n) }
        ensures records { filter_map edge_record (row_entries number_word node 0 result.now [])
            ≡ filter_map edge_record (of_node node (entries self.now.edges)) }
    {
        numbers_of(&self.edges.rows, node)
    }

    /// Returns how far a node's silences reach, one for each count from 0 on: 0 for none. Past their end nothing is known.
    pub fn silence_numbers(&self, node: u8) -> &[u64]
        requires { node < self.now.nodes }
        ensures few { length result.now ≤ most_row_places }
        ensures words { (n : ℕ) → row_number result.now n ≡ (silence_at self.now (node, n)).word }
        ensures records { filter_map silence_record (row_entries max_word node 0 result.now [])
            ≡ filter_map silence_record (of_node node (entries self.now.silences)) }
    {
        numbers_of(&self.silences.rows, node)
    }

    ghost use Rattle.wl_record_core.specs.Limits.{most_edges};
    ghost use Rattle.wl_replica.specs.State.{slots_of};
    ghost use Rattle.wl_replica.specs.Known.{run_length, horizon, wave};

    /// Returns how many of the node's first changes are known without a gap: their ticks strictly increase, and none lies inside a silence
    /// before it.
    pub fn run_length(&self, node: u8) -> u32
        requires { node < self.now.nodes }
        ensures length { result ≡ run_length (slots_of self.now) node }
        ensures few { result ≤ most_edges }
    {
        known_of(self.edge_numbers(node), self.silence_numbers(node))
            .run
            .length
    }

    /// Returns the tick below which the node's level is known, if all that was taken is true: past the last change of its run, or the end
    /// of a silence after at most this many changes (Chandy and Misra, 1979).
    pub fn horizon(&self, node: u8) -> u64
        requires { node < self.now.nodes }
        ensures { result ≡ horizon (slots_of self.now) node }
    {
        known_of(self.edge_numbers(node), self.silence_numbers(node)).horizon
    }

    /// Returns the ticks below the node's horizon at which it drives dominant, as far as its run says: from each first to each second
    /// change, an open last one up to the horizon. Refused out of memory.
    pub fn wave(&self, alloc: Global, node: u8) -> Result<Intervals, AllocError>
        requires { node < self.now.nodes }
        ensures { IfOk result (λ set. set ≡ wave (slots_of self.now) node) }
    {
        let edges = self.edge_numbers(node);
        wave_of(alloc, edges, known_of(edges, self.silence_numbers(node)), 0)
    }

    /// Takes a record that fits: joins what it says into its slot. Refused when out of memory; the rows
    /// are then as they were.
    #[inline(always)]
    pub fn take(&mut self, told: Record) -> Result<(), AllocError>
        requires { Fits self.old.nodes told }
        ensures ok { OnOk result (self.new ≡ state_with_record self.old told) }
        // What took some records, and takes this one, took both.
        ensures after { OnOk result ((before : List Record) → self.old ≡ state_of self.old.nodes before
            → self.new ≡ state_of self.old.nodes (before ++ told ∷ [])) }
        ensures err { OnErr result (self.new ≡ self.old) }
    {
        raise_told(&mut self.edges, &mut self.silences, told)?;
        Ok(())
    }

    /// Joins in what other rows of the same number of nodes know. It makes room for every slot that it lacks, and then joins. So when out
    /// of memory, the rows are as they were.
    pub fn join(&mut self, other: &Rows) -> Result<(), AllocError>
        requires { self.old.nodes ≡ other.now.nodes }
        ensures ok { OnOk result (self.new ≡ states_joined self.old other.now) }
        ensures err { OnErr result (self.new ≡ self.old) }
    {
        make_room_for(&mut self.edges.rows, &other.edges.rows, self.nodes)?;
        make_room_for(&mut self.silences.rows, &other.silences.rows, self.nodes)?;
        join_edge_rows(&mut self.edges.rows, &other.edges.rows, self.nodes);
        join_silence_rows(&mut self.silences.rows, &other.silences.rows, self.nodes);
        Ok(())
    }

    /// Makes room in these slots, so that records of them can be taken without memory. Refused when out of memory; it
    /// then gives the rows back as they were.
    pub fn prepare(self, slots: [Slot; PREPARED_SLOTS]) -> Result<PreparedRows, Rows>
        ensures known { IfOk result (λ prepared. prepared.known ≡ self) }
        ensures slots { IfOk result (λ prepared. prepared.slots ≡ slots) }
        ensures err { IfErr result (λ rows. rows ≡ self) }
    {
        let mut rows = self;
        match make_slots(&mut rows.edges, &mut rows.silences, &slots) {
            Ok(()) => Ok(PreparedRows {
                nodes: rows.nodes,
                edges: rows.edges,
                silences: rows.silences,
                slots,
            }),
            Err(_) => Err(rows),
        }
    }

    /// Returns the word of a change.
    pub fn edge(&self, node: u8, seq: u32) -> FlatWord
        ensures { result ≡ edge_at self.now (node, seq) }
    {
        self.edges.word(&(node, seq))
    }

    /// Returns the word of a silence after this many changes.
    pub fn silence(&self, node: u8, count: u32) -> MaxWord
        ensures { result ≡ silence_at self.now (node, count) }
    {
        self.silences.word(&(node, count))
    }

    ghost use Rattle.std.specs.Prelude.{All};
    ghost use Rattle.std.specs.List.{flat_map};
    ghost use Rattle.wl_replica.specs.Canonical.{canonical};

    /// Adds the records that make these rows to a sink, each slot once: node by node, the changes by number and then
    /// the silences by count. Refused if the sink refuses one.
    pub fn tell<S: RecordSink>(&self, sink: &mut S) -> Result<(), AllocError>
        ensures told { OnOk result (S.parts sink.new ≡ S.parts sink.old ++ flat_map S.line (canonical self.now)) }
        ensures fits { All (Fits self.now.nodes) (canonical self.now) }
    {
        for node in 0..self.nodes() {
            tell_edges(sink, node, self.edge_numbers(node))?;
            tell_silences(sink, node, self.silence_numbers(node))?;
        }
        Ok(())
    }
}

/// The number of slots in which a replica is prepared to take records. A node's next quantum may be about three: its next change, and the
/// silence without it and with it.
pub const PREPARED_SLOTS: usize = 3;

/// Rows that have room in some slots: they take records of those without memory.
#[derive(Drop)]
pub struct PreparedRows {
    nodes: u8,
    edges: EdgeRows,
    silences: SilenceRows,
    slots: [Slot; PREPARED_SLOTS],
}

impl Model for PreparedRows {
    ghost use Rattle.wl_replica.specs.Prepared.{PreparedState, coded_prepared};
    ghost use Rattle.wl_replica.specs.Dense.{shown_by_rows, ArePreparedRows};

    ghost Value = { PreparedState };

    ghost coded = { coded_prepared };

    ghost view = { λ p. record { known = shown_by_rows p.nodes p.edges.rows.items p.silences.rows.items; slots = p.slots } };

    ghost invariant = { λ p. ArePreparedRows p.nodes p.edges.rows.items p.silences.rows.items p.slots };
}

impl PreparedRows {
    ghost use Rattle.std.specs.Prelude.{Contains};
    ghost use Rattle.wl_replica.specs.Dense.{row_number, HasTicksWithin};
    ghost use Rattle.wl_replica.specs.State.{edge_at, silence_at, state_with_record};

    /// Takes a record that fits, of one of the slots: joins what it says into it. It takes no memory.
    pub fn take(&mut self, told: &Record)
        requires fits { Fits self.old.known.nodes told.now }
        requires room { Contains self.old.slots (slot_of told.now) }
        ensures known { self.new.known ≡ state_with_record self.old.known told.now }
        ensures slots { self.new.slots ≡ self.old.slots }
    {
        join_told(&mut self.edges, &mut self.silences, told);
    }

    /// Returns the numbers of a node's edges, as [`Rows::edge_numbers`] gives them.
    pub fn edge_numbers(&self, node: u8) -> &[u64]
        requires { node < self.now.known.nodes }
        ensures within { HasTicksWithin result.now }
        ensures words { (n : ℕ) → number_word (row_number result.now n) ≡ edge_at self.now.known (node, n) }
    {
        numbers_of(&self.edges.rows, node)
    }

    /// Returns how far a node's silences reach, as [`Rows::silence_numbers`] gives it.
    pub fn silence_numbers(&self, node: u8) -> &[u64]
        requires { node < self.now.known.nodes }
        ensures { (n : ℕ) → row_number result.now n ≡ (silence_at self.now.known (node, n)).word }
    {
        numbers_of(&self.silences.rows, node)
    }

    /// Returns the rows, which know the same.
    pub fn into_rows(self) -> Rows
        ensures { result ≡ self.known }
    {
        Rows {
            nodes: self.nodes,
            edges: self.edges,
            silences: self.silences,
        }
    }
}
