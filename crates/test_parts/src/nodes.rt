//! Nodes on one line: `nodes NODE.. : WORD..`. A node is `-`, or `2@107` if it has two data frames without bytes to send, of identifiers 0
//! and 1, ready at quantum 107. Bits have 1 + 3 + 3 + 3 quanta and the jump width is 2. All see what a node drives from one quantum on at
//! the next one.
//!
//! Words: `own*700` for quanta with the level that the nodes drive; `0*6` for quanta of this level. `changes` and `modes` answer each
//! change of a drive and of a mode from here on, with the number of the node and of the quantum. `readers`, `phases`, `frames` and
//! `samples` ask all nodes; `quiet` for how many quanta more each is sure to keep its drive, and `quiet>=8` whether that is at least 8.

use crate::answer::{Answer, after, bit};
use crate::counters::{mode_name, show_counters};
use crate::frames::show_frame;
use std::alloc::Global;
use wl_clock::Clock;
use wl_confine::Mode;
use wl_frame::frame::Frame;
use wl_level::{Level, Listed};
use wl_node::{Node, NodeSetup, Queue, QueueOrder, Queued, Samples};
use wl_segments::Segments;

/// More than any row runs.
const MOST_QUANTA: u64 = 100_000;

/// Nodes on one line, and what is written of each quantum.
#[derive(Drop)]
struct Line {
    nodes: Vec<Node>,
    changes: bool,
    modes: bool,
}

pub fn tell(alloc: Global, words: &[&str], answer: &mut Answer) {
    let colon = words.iter().position(|w| *w == ":").unwrap_or(words.len());
    let mut line = Line {
        nodes: nodes(alloc, words, colon, answer),
        changes: false,
        modes: false,
    };
    for word in after(words, colon.saturating_add(1)) {
        line.obey(alloc, word, answer);
    }
}

/// Returns a node for each of the first words.
fn nodes(alloc: Global, words: &[&str], count: usize, answer: &mut Answer) -> Vec<Node> {
    let mut nodes = Vec::new(alloc);
    for word in words.iter().take(count) {
        match node(alloc, queue(alloc, word, answer)) {
            Some(node) => if nodes.push(node).is_err() {
                answer.full();
            },
            None => answer.full(),
        }
    }
    nodes
}

/// Returns the frames that a node has to send.
fn queue(alloc: Global, word: &str, answer: &mut Answer) -> Queue {
    let mut queue = Listed::new(alloc);
    if let Some((frames, ready)) = word.split_once('@') {
        let ready = answer.number(ready);
        for id in 0..answer.read(frames.parse::<u32>()) {
            match Frame::base(id, false, 0, &[]) {
                Ok(frame) => if queue.push(Queued { frame, ready }).is_err() {
                    answer.full();
                },
                Err(_) => answer.unread(),
            }
        }
    }
    queue
}

/// Returns a node, if there is memory for it.
fn node(alloc: Global, queue: Queue) -> Option<Node> {
    let setup = NodeSetup {
        clock: Clock::new(0, 100, 1).ok()?,
        segments: Segments::new(3, 3, 3, 2).ok()?,
        queue,
        order: QueueOrder::Fifo,
        until: None,
    };
    Node::new(alloc, setup).ok()
}

impl Line {
    /// Does what a word says.
    fn obey(&mut self, alloc: Global, word: &str, answer: &mut Answer) {
        match word {
            "changes" => self.changes = true,
            "modes" => self.modes = true,
            "readers" | "phases" | "frames" | "samples" | "quiet" => self.ask(word, answer),
            _ => self.act(alloc, word, answer),
        }
    }

    /// Does what a word of several parts says.
    fn act(&mut self, alloc: Global, word: &str, answer: &mut Answer) {
        if let Some(least) = word.strip_prefix("quiet>=") {
            self.are_quiet(answer.read(least.parse::<u32>()), answer);
        } else if let Some(count) = word.strip_prefix("own*") {
            self.own(answer.read(count.parse::<u32>()), answer);
        } else {
            for level in answer.levels_of(alloc, &[word]) {
                self.quantum(level, answer);
            }
        }
    }

    fn ask(&self, word: &str, answer: &mut Answer) {
        for node in &self.nodes {
            ask(node, word, answer);
        }
    }

    /// Writes whether each node is sure to keep its drive for at least `N` quanta more, where the word is `quiet>=N`.
    fn are_quiet(&self, least: u32, answer: &mut Answer) {
        for node in &self.nodes {
            answer.say(if least <= node.quiet() {
                "yes; "
            } else {
                "no; "
            });
        }
    }

    /// Runs quanta of what the nodes drive.
    fn own(&mut self, count: u32, answer: &mut Answer) {
        for _ in 0..count {
            let level = self.level();
            self.quantum(level, answer);
        }
    }

    /// Returns dominant if some node drives dominant.
    fn level(&self) -> Level {
        if self.nodes.iter().any(|n| n.drive().is_dominant()) {
            Level::Dominant
        } else {
            Level::Recessive
        }
    }

    /// Runs one quantum of all nodes.
    fn quantum(&mut self, level: Level, answer: &mut Answer) {
        let (changes, modes) = (self.changes, self.modes);
        for (k, node) in self.nodes.iter_mut().enumerate() {
            let (quantum, drive, mode) = (node.quanta(), node.drive(), node.counters().mode());
            run(node, level, answer);
            let number = k.saturating_add(1);
            if changes && !node.drive().is(drive) {
                show_drive(number, node.drive(), quantum, answer);
            }
            if modes && node.counters().mode() != mode {
                show_mode(number, node.counters().mode(), quantum, answer);
            }
        }
    }
}

/// Runs one quantum of a node.
fn run(node: &mut Node, level: Level, answer: &mut Answer) {
    if node.quanta() >= MOST_QUANTA {
        answer.unread();
    } else if node.quantum(level).is_err() {
        answer.full();
    }
}

fn show_drive(number: usize, drive: Level, quantum: u64, answer: &mut Answer) {
    answer.put(&number);
    answer.say(".drive(");
    answer.say(bit(drive));
    answer.say(")@");
    answer.show(&quantum);
}

fn show_mode(number: usize, mode: Mode, quantum: u64, answer: &mut Answer) {
    answer.put(&number);
    answer.say(".");
    answer.say(mode_name(mode));
    answer.say("@");
    answer.show(&quantum);
}

/// Writes what a node answers.
fn ask(node: &Node, word: &str, answer: &mut Answer) {
    match word {
        "readers" => show_readers(node, answer),
        "phases" => show_phases(node, answer),
        "frames" => show_frames(node, answer),
        "quiet" => answer.put(&node.quiet()),
        _ => show_samples(node.samples(), answer),
    }
    answer.say("; ");
}

fn show_phases(node: &Node, answer: &mut Answer) {
    for (quantum, error) in node.phases() {
        answer.put(error);
        answer.say("@");
        answer.show(quantum);
    }
}

fn show_samples(samples: &Samples, answer: &mut Answer) {
    for k in 0..samples.len() {
        if let Some((quantum, level)) = samples.get(k) {
            answer.say(bit(level));
            answer.say("@");
            answer.show(&quantum);
        }
    }
}

/// Writes a node's counters, and how many of what it had.
fn show_readers(node: &Node, answer: &mut Answer) {
    show_counters(&node.counters(), answer);
    answer.name("quanta", &node.quanta());
    answer.name("drive", &bit(node.drive()));
    answer.name("errors", &node.errors());
    answer.name("hards", &node.hards());
    answer.name("samples", &node.sample_count());
    answer.name("unsent", &node.unsent());
}

/// Writes the frames that passed a node.
fn show_frames(node: &Node, answer: &mut Answer) {
    for passed in node.frames() {
        answer.say(if passed.sent { "sent@" } else { "received@" });
        answer.show(&passed.quantum);
        show_frame(&passed.frame, answer);
    }
}
