//! The plain form: an ordered map of the words of changes and one of those of silences. Every answer is worked out from them.
ghost use Rattle.std.specs.Prelude.{◌≡◌, ◌<◌, IfOk, OnOk};

use crate::form::Form;
use std::alloc::{AllocError, Global};
use std::collections::BTreeMap;
use wl_intervals::Intervals;
use wl_lattice::{FlatWord, Join, MaxWord, Slots};
use wl_record_core::{MOST_EDGES, Record};

/// The words of some nodes, by node and number.
#[derive(Drop)]
pub struct Maps {
    nodes: u8,
    edges: BTreeMap<(u8, u32), FlatWord>,
    silences: BTreeMap<(u8, u32), MaxWord>,
}

/// A run of a node's first changes: how many, and the tick after the last.
#[derive(Clone, Copy)]
struct Run {
    length: u32,
    end: u64,
}

impl Maps {
    /// Returns up to which tick the silence after this many changes reaches.
    fn promise(&self, node: u8, count: u32) -> u64 {
        self.silences.word(&(node, count)).word
    }

    /// Returns the tick of a change that extends a run, if it does.
    fn next_tick(&self, node: u8, run: &Run) -> Option<u64> {
        match self.edges.word(&(node, run.length)) {
            FlatWord::Value(tick) if run.end <= tick && self.promise(node, run.length) <= tick => {
                Some(tick)
            }
            _ => None,
        }
    }

    /// Returns the longest run of a node.
    fn run(&self, node: u8) -> Run {
        let mut run = Run { length: 0, end: 0 };
        for seq in 0..MOST_EDGES {
            run.length = seq;
            match self.next_tick(node, &run) {
                Some(tick) => run.end = tick.saturating_add(1),
                None => return run,
            }
        }
        run.length = MOST_EDGES;
        run
    }
}

/// It keeps no run: each answer is worked out from all words.
impl Form for Maps {
    ghost count = { λ m. m.nodes };

    fn empty(alloc: Global, nodes: u8) -> Result<Maps, AllocError> {
        Ok(Maps {
            nodes,
            edges: BTreeMap::new(alloc),
            silences: BTreeMap::new(alloc),
        })
    }

    fn learn(&mut self, told: Record) -> Result<(), AllocError> {
        match told {
            Record::Edge { node, seq, tick } => {
                self.edges.raise((node, seq), &FlatWord::Value(tick))
            }
            Record::Clash { node, seq } => self.edges.raise((node, seq), &FlatWord::Clash),
            Record::Silence { node, count, until } => self
                .silences
                .raise((node, count), &MaxWord { word: until }),
        }
    }

    fn learn_from(&mut self, _alloc: Global, other: &Maps) -> Result<(), AllocError> {
        join_words(&mut self.edges, &other.edges)?;
        join_words(&mut self.silences, &other.silences)
    }

    fn records(&self, alloc: Global) -> Result<Vec<Record>, AllocError> {
        let mut all = Vec::new(alloc);
        for node in 0..self.nodes {
            push_edges(&mut all, &self.edges, node)?;
            push_silences(&mut all, &self.silences, node)?;
        }
        Ok(all)
    }

    fn run_of(&self, node: u8) -> u32 {
        self.run(node).length
    }

    fn horizon_of(&self, node: u8) -> u64 {
        let run = self.run(node);
        let mut until = run.end;
        for (key, silence) in &self.silences {
            if key.0 == node && key.1 <= run.length {
                until = until.max(silence.word);
            }
        }
        until
    }

    fn wave_of(&self, alloc: Global, node: u8) -> Result<Intervals, AllocError> {
        let length = self.run(node).length;
        let mut set = Intervals::new(alloc);
        let mut since = None;
        for seq in 0..length {
            if let FlatWord::Value(tick) = self.edges.word(&(node, seq)) {
                since = flipped(&mut set, since, tick)?;
            }
        }
        flipped(&mut set, since, self.horizon_of(node))?;
        Ok(set)
    }
}

/// Adds the interval up to this tick, if the node was dominant since one. An interval that can't be added counts as out of memory.
fn flipped(set: &mut Intervals, since: Option<u64>, tick: u64) -> Result<Option<u64>, AllocError> {
    match since {
        Some(from) => match set.push(from, tick) {
            Ok(()) => Ok(None),
            Err(_) => Err(AllocError),
        },
        None => Ok(Some(tick)),
    }
}

/// Joins in each word of the others.
fn join_words<W: Join + Copy>(
    words: &mut BTreeMap<(u8, u32), W>,
    others: &BTreeMap<(u8, u32), W>,
) -> Result<(), AllocError> {
    for (key, word) in others {
        words.raise(*key, word)?;
    }
    Ok(())
}

/// Adds the edges and clashes of a node, by number.
fn push_edges(
    all: &mut Vec<Record>,
    edges: &BTreeMap<(u8, u32), FlatWord>,
    node: u8,
) -> Result<(), AllocError> {
    for (key, word) in edges {
        if key.0 == node {
            match *word {
                FlatWord::Nothing => {}
                FlatWord::Value(tick) => all.push(Record::Edge {
                    node,
                    seq: key.1,
                    tick,
                })?,
                FlatWord::Clash => all.push(Record::Clash { node, seq: key.1 })?,
            }
        }
    }
    Ok(())
}

/// Adds the silences of a node, by count.
fn push_silences(
    all: &mut Vec<Record>,
    silences: &BTreeMap<(u8, u32), MaxWord>,
    node: u8,
) -> Result<(), AllocError> {
    for (key, word) in silences {
        if key.0 == node && word.word != 0 {
            all.push(Record::Silence {
                node,
                count: key.1,
                until: word.word,
            })?;
        }
    }
    Ok(())
}
