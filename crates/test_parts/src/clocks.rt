//! Clocks.
//!
//! `clock OFFSET NUM DEN`, `ppm OFFSET QUANTUM PPM` or `rates OFFSET RATE..`. A rate is `FROM,NUM,DEN` or, by its deviation,
//! `FROM:QUANTUM:PPM`; `FROM,NUM,DEN*16` is sixteen of them. After them comes nothing, `at QUANTUM`, `first_not_before TICK`, `is` and
//! another clock of one rate, or `are` and another clock of such rates.

use crate::answer::{Answer, after, word};
use std::alloc::Global;
use wl_clock::{Clock, ClockFault, Rate};

/// The last quantum whose tick may be asked.
const LAST_QUANTUM: u64 = 2_147_483_648;

/// Up to which tick the quanta may be asked.
const TICK_END: u64 = 281_474_976_710_656;

/// True if the subject is one of this module's.
pub fn tell(alloc: Global, subject: &str, words: &[&str], answer: &mut Answer) -> bool {
    match subject {
        "clock" => tell_of(alloc, of_one(words, answer), after(words, 3), answer),
        "ppm" => tell_of(alloc, by_ppm(words, answer), after(words, 3), answer),
        "rates" => {
            let count = rate_words(words);
            tell_of(
                alloc,
                of_rates(alloc, words, answer),
                after(words, count),
                answer,
            );
        }
        _ => return false,
    }
    true
}

/// Returns how many words in front are an offset and rates.
fn rate_words(words: &[&str]) -> usize {
    words
        .iter()
        .skip(1)
        .position(|word| !is_rate(word))
        .map_or(words.len(), |place| place.saturating_add(1))
}

fn is_rate(word: &str) -> bool {
    word.contains(',') || word.contains(':')
}

/// Returns the clock of an offset and one rate.
fn of_one(words: &[&str], answer: &mut Answer) -> Result<Clock, ClockFault> {
    Clock::new(
        answer.at(words, 0),
        answer.at(words, 1),
        answer.at(words, 2),
    )
}

fn by_ppm(words: &[&str], answer: &mut Answer) -> Result<Clock, ClockFault> {
    let ppm = answer.read(word(words, 2).parse::<i64>());
    Clock::from_ppm(answer.at(words, 0), answer.at(words, 1), ppm)
}

/// Returns the clock of an offset and the rates after it.
fn of_rates(alloc: Global, words: &[&str], answer: &mut Answer) -> Result<Clock, ClockFault> {
    let mut rates: Vec<Rate> = Vec::new(alloc);
    for word in after(words, 1) {
        if !is_rate(word) {
            break;
        }
        let (word, count) = answer.repeated(word);
        let rate = rate(word, answer)?;
        answer.add(&mut rates, rate, count);
    }
    Clock::with_rates(answer.at(words, 0), rates.as_slice())
}

fn rate(word: &str, answer: &mut Answer) -> Result<Rate, ClockFault> {
    if word.contains(':') {
        rate_by_ppm(word, answer)
    } else {
        Ok(rate_of(word, answer))
    }
}

fn rate_by_ppm(word: &str, answer: &mut Answer) -> Result<Rate, ClockFault> {
    let (from, rest) = answer.parts(word, ":");
    let (quantum, ppm) = answer.parts(rest, ":");
    let ppm = answer.read(ppm.parse::<i64>());
    Rate::from_ppm(answer.number(from), answer.number(quantum), ppm)
}

fn rate_of(word: &str, answer: &mut Answer) -> Rate {
    let (from, rest) = answer.parts(word, ",");
    let (num, den) = answer.parts(rest, ",");
    Rate {
        from: answer.number(from),
        num: answer.read(num.parse::<u128>()),
        den: answer.number(den),
    }
}

fn tell_of(alloc: Global, made: Result<Clock, ClockFault>, asked: &[&str], answer: &mut Answer) {
    match made {
        Ok(clock) => ask(alloc, &clock, asked, answer),
        Err(fault) => answer.show(&fault),
    }
}

/// Writes what a clock answers.
fn ask(alloc: Global, clock: &Clock, asked: &[&str], answer: &mut Answer) {
    match word(asked, 0) {
        "" => answer.say("made"),
        "at" => at(clock, answer.at(asked, 1), answer),
        "first_not_before" => first(clock, answer.at(asked, 1), answer),
        "is" => is(clock, of_one(after(asked, 1), answer), answer),
        "are" => is(clock, of_rates(alloc, after(asked, 1), answer), answer),
        _ => answer.unread(),
    }
}

/// Writes the tick of a quantum.
fn at(clock: &Clock, quantum: u64, answer: &mut Answer) {
    if quantum > LAST_QUANTUM {
        answer.unread();
    } else {
        answer.show(&clock.at(quantum));
    }
}

/// Writes the first quantum at a tick or later.
fn first(clock: &Clock, tick: u64, answer: &mut Answer) {
    if tick >= TICK_END {
        answer.unread();
    } else {
        answer.show(&clock.first_not_before(tick));
    }
}

/// Writes whether a clock is another one.
fn is(clock: &Clock, other: Result<Clock, ClockFault>, answer: &mut Answer) {
    let is_same = other == Ok(*clock);
    answer.show(&is_same);
}
