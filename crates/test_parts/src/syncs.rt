//! The bit clock: `sync PROP PS1 PS2 SJW`, then words, then the level of each quantum.
//!
//! Of these words a row has those that hold throughout it, in this order: `book` for the rules of the book; `idle` if the bus is idle to
//! the node; `awaits` if the next edge may be a start of frame to it; `integrates` if it integrates; `driving` if it drives dominant. The
//! answer has each quantum that begins a bit, samples one, or synchronises one.

use crate::answer::{Answer, after, bit, word};
use crate::segments::made;
use std::alloc::Global;
use wl_level::Level;
use wl_segments::{Segments, SyncRules};
use wl_sync::{Beat, BitClock, Seen, Sync};

/// What the node is throughout a row.
#[derive(Clone, Copy)]
struct Stays {
    idle: bool,
    awaits: bool,
    integrates: bool,
    driving: bool,
}

pub fn tell(alloc: Global, words: &[&str], answer: &mut Answer) {
    match made(words, answer) {
        Ok(segments) => tell_rules(alloc, segments, after(words, 4), answer),
        Err(_) => answer.unread(),
    }
}

fn tell_rules(alloc: Global, segments: Segments, words: &[&str], answer: &mut Answer) {
    if word(words, 0) == "book" {
        let segments = segments.with_sync(SyncRules::Book);
        tell_words(alloc, segments, after(words, 1), answer);
    } else {
        tell_words(alloc, segments, words, answer);
    }
}

fn tell_words(alloc: Global, segments: Segments, words: &[&str], answer: &mut Answer) {
    let (idle, rest) = taken("idle", words);
    let (awaits, rest) = taken("awaits", rest);
    let (integrates, rest) = taken("integrates", rest);
    let (driving, rest) = taken("driving", rest);
    let stays = Stays {
        idle,
        awaits,
        integrates,
        driving,
    };
    let levels = answer.levels_of(alloc, rest);
    tell_of(segments, stays, levels.as_slice(), answer);
}

/// Returns whether the words begin with this one, and the words after it.
fn taken<'a, 'b>(first: &str, words: &'a [&'b str]) -> (bool, &'a [&'b str]) {
    if word(words, 0) == first {
        (true, after(words, 1))
    } else {
        (false, words)
    }
}

fn tell_of(segments: Segments, stays: Stays, seen: &[Level], answer: &mut Answer) {
    let mut clock = BitClock::new(segments);
    for (quantum, level) in seen.iter().enumerate() {
        let (beat, sync) = clock.see(Seen {
            level: *level,
            idle: stays.idle,
            awaits: stays.awaits,
            integrates: stays.integrates,
            driving: stays.driving,
        });
        tell_sync(quantum, sync, answer);
        tell_beat(quantum, beat, answer);
    }
}

fn tell_sync(quantum: usize, sync: Option<Sync>, answer: &mut Answer) {
    match sync {
        Some(Sync::Hard) => {
            answer.put(&quantum);
            answer.say(":hard ");
        }
        Some(Sync::Error(error)) => {
            answer.put(&quantum);
            answer.say(":error(");
            answer.put(&error);
            answer.say(") ");
        }
        None => {}
    }
}

fn tell_beat(quantum: usize, beat: Beat, answer: &mut Answer) {
    match beat {
        Beat::Start => {
            answer.put(&quantum);
            answer.say(":start ");
        }
        Beat::Sample(level) => {
            answer.put(&quantum);
            answer.say(":sample(");
            answer.say(bit(level));
            answer.say(") ");
        }
        Beat::Plain => {}
    }
}
