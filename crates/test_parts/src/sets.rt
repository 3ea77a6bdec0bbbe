//! Sets of ticks: `set`, then in order `push FROM..TO`, `join FROM..TO`, `join_shifted TICKS`, `shift TICKS`, `cut TICK`,
//! `at TICK`, `next_change TICK`. An answer says of each refused push why, of each question the answer, and at last the
//! intervals. `set_faults` asks for all faults as they are shown.

use crate::answer::{Answer, bit, word};
use std::alloc::Global;
use wl_intervals::{Intervals, IntervalsFault};

/// True if the subject is one of this module's.
pub fn tell(alloc: Global, subject: &str, words: &[&str], answer: &mut Answer) -> bool {
    match subject {
        "set" => tell_set(alloc, words, answer),
        "set_faults" => faults(answer),
        _ => return false,
    }
    true
}

fn tell_set(alloc: Global, words: &[&str], answer: &mut Answer) {
    let mut set = Intervals::new(alloc);
    for pair in words.chunks(2) {
        obey(alloc, &mut set, word(pair, 0), word(pair, 1), answer);
    }
    for (from, to) in set.as_slice() {
        answer.put(from);
        answer.say("..");
        answer.show(to);
    }
}

/// Does what a word says.
fn obey(alloc: Global, set: &mut Intervals, what: &str, word: &str, answer: &mut Answer) {
    match what {
        "push" => push(set, word, answer),
        "join" => join(alloc, set, word, answer),
        "at" => at(set, answer.number(word), answer),
        "next_change" => next_change(set, answer.number(word), answer),
        "join_shifted" => join_shifted(alloc, set, answer.number(word), answer),
        "shift" => shift(alloc, set, answer.number(word), answer),
        "cut" => cut(alloc, set, answer.number(word), answer),
        _ => answer.unread(),
    }
}

fn push(set: &mut Intervals, word: &str, answer: &mut Answer) {
    let (from, to) = answer.parts(word, "..");
    match set.push(answer.number(from), answer.number(to)) {
        Ok(()) => {}
        Err(IntervalsFault::Memory) => answer.full(),
        Err(fault) => answer.show(&fault),
    }
}

/// Joins an interval to a set.
fn join(alloc: Global, set: &mut Intervals, word: &str, answer: &mut Answer) {
    let mut other = Intervals::new(alloc);
    push(&mut other, word, answer);
    let joined = set.join(&other);
    answer.kept(joined);
}

fn at(set: &Intervals, tick: u64, answer: &mut Answer) {
    answer.say(bit(set.at(tick)));
    answer.say(" ");
}

fn next_change(set: &Intervals, tick: u64, answer: &mut Answer) {
    match set.next_change(tick) {
        Some(next) => answer.show(&next),
        None => answer.say("none "),
    }
}

fn join_shifted(alloc: Global, set: &mut Intervals, d: u64, answer: &mut Answer) {
    if let Some(later) = shifted(alloc, set, d, answer) {
        let joined = set.join(&later);
        answer.kept(joined);
    }
}

fn shift(alloc: Global, set: &mut Intervals, d: u64, answer: &mut Answer) {
    if let Some(later) = shifted(alloc, set, d, answer) {
        *set = later;
    }
}

fn cut(alloc: Global, set: &mut Intervals, tick: u64, answer: &mut Answer) {
    if let Some(rest) = answer.kept(set.cut(alloc, tick)) {
        *set = rest;
    }
}

/// Returns the set with each tick later by `d`, if its end may be so late.
fn shifted(alloc: Global, set: &Intervals, d: u64, answer: &mut Answer) -> Option<Intervals> {
    if let Some(end) = set.end() {
        if end > u64::MAX - d {
            answer.unread();
            return None;
        }
    }
    answer.kept(set.shift(alloc, d))
}

/// Writes the faults of a set, in the order in which they apply.
fn faults(answer: &mut Answer) {
    answer.show(&IntervalsFault::Empty);
    answer.show(&IntervalsFault::NotAfterLast);
    answer.show(&IntervalsFault::Memory);
}
