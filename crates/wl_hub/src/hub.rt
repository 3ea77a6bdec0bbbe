//! The hub: two tables of shared words, and the passes to them.
ghost use Rattle.std.specs.Prelude.{◌≡◌, ◌<◌, ◌≤◌, ◌+◌, ◌^◌, sum};
ghost use Rattle.wl_hub.specs.Places.{AreFirsts};
ghost use Rattle.wl_hub.specs.Words.{edge_widths, silence_widths};

use crate::board::{Board, Part};
use crate::place::{Firsts, edge_firsts, silence_firsts, totals, words_of};
use crate::truth::Truth;
use std::alloc::{AllocError, Global};
use wl_lattice::{FlatWord, MaxWord};
use wl_record_core::{Record, Slot};

/// Words that threads share, one for each change and each silence of some nodes: at every moment a
/// word is the join of all that was given to it.
///
/// An edge word is 0 for nothing, the tick plus 1 for a tick, and 2^64 - 1 for a clash. A silence
/// word is the tick that the silence reaches, 0 for none. `take`, `look`, `split` and `rejoin` borrow
/// the hub shared, wait for nobody and take no memory.
pub struct Hub<T: Truth> {
    edges: Board<T, FlatWord>,
    silences: Board<T, MaxWord>,
    shape: Vec<(u32, u32)>,
    edge_count: usize,
    silence_count: usize,
    edge_firsts: Firsts,
    silence_firsts: Firsts,
    pub ghost edge_shape: { edges.table.shared.key.shape.value.items ≡ shape.items },
    pub ghost silence_shape: { silences.table.shared.key.shape.value.items ≡ shape.items },
    pub ghost edges_counted: { (edge_count ≡ sum (edge_widths shape.items))
        × (edge_count ≤ edges.table.shared.key.words) },
    pub ghost silences_counted: { (silence_count ≡ sum (silence_widths shape.items))
        × (silence_count ≤ silences.table.shared.key.words) },
    pub ghost edges_placed: { AreFirsts (edge_widths shape.items) edge_firsts },
    pub ghost silences_placed: { AreFirsts (silence_widths shape.items) silence_firsts },
    pub ghost room: { edge_count + silence_count < 2 ^ 64 },
}

/// The token of what its holder gave to a hub and saw of it. It has the name that the hub was
/// started with.
#[derive(Drop)]
pub struct Pass<T> {
    edges: Part<T>,
    silences: Part<T>,
    pub ghost same_name: { edges.seat.me.0.name ≡ silences.seat.me.0.name },
    pub ghost same_shape: { edges.seat.me.0.shape ≡ silences.seat.me.0.shape },
}

impl<T: Truth> Drop for Hub<T> {
    fn drop(self) {
        let Self {
            edges,
            silences,
            shape,
            edge_count: _,
            silence_count: _,
            edge_firsts: _,
            silence_firsts: _,
        } = self;
        drop(edges);
        drop(silences);
        drop(shape);
    }
}

impl<T: Truth> Hub<T> {
    ghost use Rattle.std.specs.Prelude.{◌≡◌, ◌≢◌, ℕ, ◌<◌, ◌+◌, ◌-◌, ◌^◌, ◌++◌, [], ◌∷◌, ◌↔◌, IsTrue, IfOk, Some, None, length, sum};
    ghost use Rattle.wl_record_core.specs.declared.record.Record.TheVariants.{Edge, Clash, Silence};
    ghost use Rattle.wl_record_core.specs.declared.record.Slot.{Slot as Place};
    ghost use Rattle.wl_record_core.specs.declared.record.Slot.TheVariants.{EdgeAt, SilenceAt};
    ghost use Rattle.wl_hub.specs.Places.{place};
    ghost use Rattle.wl_hub.specs.Words.{edge_widths, silence_widths, HasWord, IsInShape, IsJoinOfTrue, answer_place};
    ghost use Rattle.wl_hub.specs.Passes.{pass_name, shape_of, seen, IsPassOf, IsNew, Gave, SawGift, Saw, GaveNothing, TookIn, Closes};

    /// Returns a hub whose words are all 0, and its first pass. `shape` has for each node its number of edge words and of silence words.
    /// Out of memory nothing is left.
    pub fn start(
        alloc: Global,
        shape: &[(u32, u32)],
        name: &T,
    ) -> Result<(Hub<T>, Pass<T>), AllocError>
        ensures here { IfOk result (λ r. IsPassOf r.0 r.1) }
        ensures shape { IfOk result (λ r. shape_of r.0 ≡ shape.now) }
        ensures pass { IfOk result (λ r. (pass_name r.1 ≡ Some name.now) × IsNew r.1) }
    {
        let (edge_count, silence_count) = totals(shape);
        let (edge_firsts, silence_firsts) = (edge_firsts(shape), silence_firsts(shape));
        let shape = Vec::from_slice(alloc, shape)?;
        let (edges, edge_part) = Board::open(alloc, name, &shape, edge_count.max(1))?;
        let (silences, silence_part) = Board::open(alloc, name, &shape, silence_count.max(1))?;
        let hub = Hub {
            edges,
            silences,
            shape,
            edge_count,
            silence_count,
            edge_firsts,
            silence_firsts,
        };
        let pass = Pass {
            edges: edge_part,
            silences: silence_part,
        };
        Ok((hub, pass))
    }

    /// True if the slot has a word.
    pub fn has_word(&self, slot: Slot) -> bool
        ensures { IsTrue result ↔ HasWord (shape_of self.now) slot }
    {
        match slot {
            Slot::EdgeAt { node, seq } => seq < words_of(self.shape.as_slice(), node).0,
            Slot::SilenceAt { node, count } => count < words_of(self.shape.as_slice(), node).1,
        }
    }

    /// True if the record's slot has a word and the record is within the wide limits.
    pub fn in_shape(&self, told: Record) -> bool
        ensures { IsTrue result ↔ IsInShape (shape_of self.now) told }
    {
        self.has_word(told.slot()) && told.is_wide()
    }

    fn edge_index(&self, node: u8, seq: u32) -> usize
        requires { HasWord (shape_of self.now) (EdgeAt node seq) }
        ensures place { place (edge_widths (shape_of self.now)) node seq ≡ Some result }
        ensures inside { result < self.now.edges.table.shared.key.words }
    {
        self.edge_firsts[node as usize] + seq as usize
    }

    fn silence_index(&self, node: u8, count: u32) -> usize
        requires { HasWord (shape_of self.now) (SilenceAt node count) }
        ensures place { place (silence_widths (shape_of self.now)) node count ≡ Some result }
        ensures inside { result < self.now.silences.table.shared.key.words }
    {
        self.silence_firsts[node as usize] + count as usize
    }

    fn take_edge(&self, pass: &mut Pass<T>, node: u8, seq: u32, tick: u64)
        requires here { IsPassOf self.now pass.old }
        requires in_shape { HasWord (shape_of self.now) (EdgeAt node seq) }
        requires small { tick < 2 ^ 64 - 1 }
        requires told { (n : _) → pass_name pass.old ≡ Some n → T.is_true n (Edge node seq tick) }
        ensures here { IsPassOf self.now pass.new }
        ensures gave { Gave (Edge node seq tick) pass.old pass.new }
        ensures seen { SawGift (Edge node seq tick) pass.old pass.new }
    {
        let i = self.edge_index(node, seq);
        self.edges
            .claim(&mut pass.edges, i, tick, Record::Edge { node, seq, tick });
    }

    fn take_clash(&self, pass: &mut Pass<T>, node: u8, seq: u32)
        requires here { IsPassOf self.now pass.old }
        requires in_shape { HasWord (shape_of self.now) (EdgeAt node seq) }
        requires told { (n : _) → pass_name pass.old ≡ Some n → T.is_true n (Clash node seq) }
        ensures here { IsPassOf self.now pass.new }
        ensures gave { Gave (Clash node seq) pass.old pass.new }
        ensures seen { SawGift (Clash node seq) pass.old pass.new }
    {
        let i = self.edge_index(node, seq);
        self.edges
            .clash(&mut pass.edges, i, Record::Clash { node, seq });
    }

    fn take_silence(&self, pass: &mut Pass<T>, node: u8, count: u32, until: u64)
        requires here { IsPassOf self.now pass.old }
        requires in_shape { HasWord (shape_of self.now) (SilenceAt node count) }
        requires told { (n : _) → pass_name pass.old ≡ Some n → T.is_true n (Silence node count until) }
        ensures here { IsPassOf self.now pass.new }
        ensures gave { Gave (Silence node count until) pass.old pass.new }
        ensures seen { SawGift (Silence node count until) pass.old pass.new }
    {
        let i = self.silence_index(node, count);
        self.silences.raise(
            &mut pass.silences,
            i,
            until,
            Record::Silence { node, count, until },
        );
    }

    /// Gives a record to its word, which is joined with it. The pass remembers the gift.
    pub fn take(&self, pass: &mut Pass<T>, gift: Record)
        requires here { IsPassOf self.now pass.old }
        requires in_shape { IsInShape (shape_of self.now) gift }
        requires told { (n : _) → pass_name pass.old ≡ Some n → T.is_true n gift }
        ensures here { IsPassOf self.now pass.new }
        ensures gave { Gave gift pass.old pass.new }
        ensures seen { SawGift gift pass.old pass.new }
    {
        match gift {
            Record::Edge { node, seq, tick } => self.take_edge(pass, node, seq, tick),
            Record::Clash { node, seq } => self.take_clash(pass, node, seq),
            Record::Silence { node, count, until } => self.take_silence(pass, node, count, until),
        }
    }

    fn look_edge(&self, pass: &mut Pass<T>, node: u8, seq: u32) -> u64
        requires here { IsPassOf self.now pass.old }
        requires in_shape { HasWord (shape_of self.now) (EdgeAt node seq) }
        ensures here { IsPassOf self.now pass.new }
        ensures given { GaveNothing pass.old pass.new }
        ensures saw { Saw (EdgeAt node seq) result pass.old pass.new }
        ensures told { (n : _) → pass_name pass.old ≡ Some n → IsJoinOfTrue (T.is_true n) (EdgeAt node seq) result }
    {
        let i = self.edge_index(node, seq);
        self.edges.look(&mut pass.edges, i)
    }

    fn look_silence(&self, pass: &mut Pass<T>, node: u8, count: u32) -> u64
        requires here { IsPassOf self.now pass.old }
        requires in_shape { HasWord (shape_of self.now) (SilenceAt node count) }
        ensures here { IsPassOf self.now pass.new }
        ensures given { GaveNothing pass.old pass.new }
        ensures saw { Saw (SilenceAt node count) result pass.old pass.new }
        ensures told { (n : _) → pass_name pass.old ≡ Some n
            → IsJoinOfTrue (T.is_true n) (SilenceAt node count) result }
    {
        let i = self.silence_index(node, count);
        self.silences.look(&mut pass.silences, i)
    }

    /// Returns what the pass has now seen of a slot: the join of records of that slot, all true of the pass's name; 0 for none.
    pub fn look(&self, pass: &mut Pass<T>, slot: Slot) -> u64
        requires here { IsPassOf self.now pass.old }
        requires in_shape { HasWord (shape_of self.now) slot }
        ensures here { IsPassOf self.now pass.new }
        ensures given { GaveNothing pass.old pass.new }
        ensures saw { Saw slot result pass.old pass.new }
        ensures told { (n : _) → pass_name pass.old ≡ Some n → IsJoinOfTrue (T.is_true n) slot result }
    {
        match slot {
            Slot::EdgeAt { node, seq } => self.look_edge(pass, node, seq),
            Slot::SilenceAt { node, count } => self.look_silence(pass, node, count),
        }
    }

    /// Returns a pass of the same name, whose list is empty and which has seen nothing.
    pub fn split(&self, pass: &mut Pass<T>) -> Pass<T>
        requires here { IsPassOf self.now pass.old }
        ensures here { IsPassOf self.now pass.new × IsPassOf self.now result }
        ensures same { GaveNothing pass.old pass.new × ((slot : Place) → seen pass.new slot ≡ seen pass.old slot) }
        ensures new { (pass_name result ≡ pass_name pass.old) × IsNew result }
    {
        let edges = self.edges.split(&mut pass.edges);
        let silences = self.silences.split(&mut pass.silences);
        Pass { edges, silences }
    }

    /// Takes in another pass, which is spent: the list is both lists, and what was seen of each slot
    /// is the join of what both saw.
    pub fn rejoin(&self, pass: &mut Pass<T>, other: Pass<T>)
        requires here { IsPassOf self.now pass.old }
        requires other { IsPassOf self.now other }
        ensures here { IsPassOf self.now pass.new }
        ensures both { TookIn other pass.old pass.new }
    {
        let Pass { edges, silences } = other;
        self.edges.rejoin(&mut pass.edges, edges);
        self.silences.rejoin(&mut pass.silences, silences);
    }

    /// Ends the hub. Returns its edge words node by node, then its silence words. Each is the join of some records of its slot that are
    /// true of the name, among them all that this pass gave. Hub and pass are spent, also out of memory.
    pub fn close(self, alloc: Global, pass: Pass<T>) -> Result<Vec<u64>, AllocError>
        requires here { IsPassOf self pass }
        ensures count { IfOk result
            (λ v. length v.items ≡ sum (edge_widths (shape_of self)) + sum (silence_widths (shape_of self))) }
        ensures words { IfOk result (λ v. Closes T.is_true (shape_of self) pass v.items) }
    {
        let words = Vec::with_capacity(alloc, self.edge_count + self.silence_count)?;
        let Hub {
            edges,
            silences,
            shape,
            edge_count,
            silence_count,
            edge_firsts: _,
            silence_firsts: _,
        } = self;
        drop(shape);
        let words = edges.close(pass.edges, edge_count, words);
        Ok(silences.close(pass.silences, silence_count, words))
    }
}
