//! Machines with their counters on one wire: `machines HEAD.. : WORD..`. A head is `-`, or the identifier of a frame in hexadecimal
//! (eight digits: extended), with `r` before it for a remote frame.
//!
//! Words: `own*53` for samples of what the machines drive; `0*6` and `0101` for samples of these levels; `count` counts the samples from 1
//! again. `drive`, `idle`, `awaits`, `counters` and `silence` ask all machines: `awaits` whether the next edge may be a start of frame to
//! them, and `silence` for how many samples more they are silent, with heads and without. `off` calls bus off of the first machine;
//! `head=ID` and `mode=Off` give it another head, and a mode that isn't its counters'. The answer has what happened, with the number of the
//! machine and of the sample, and the counters after it.

use crate::answer::{Answer, after, bit};
use crate::counters::show_counters;
use std::alloc::Global;
use wl_confine::{Counters, Happened, Mode};
use wl_frame::frame::Frame;
use wl_level::Level;
use wl_machine::{Done, Machine, Turn};

/// A machine with its counters and the frame that it is to send, as a node has them.
#[derive(Drop)]
struct Station {
    machine: Machine,
    counters: Counters,
    head: Option<Frame>,
    given: Option<Mode>,
    drive: Level,
}

impl Station {
    fn new(head: Option<Frame>) -> Station {
        Station {
            machine: Machine::new(),
            counters: Counters::new(),
            head,
            given: None,
            drive: Level::Recessive,
        }
    }

    /// Takes one sample: the machine, then the counters, then bus off if the mode becomes that.
    fn sample(&mut self, level: Level) -> Turn {
        let before = self.counters.mode();
        let mode = self.given.unwrap_or(before);
        let turn = self.machine.bit(level, self.head.as_ref(), mode);
        self.counters.apply(turn.happened);
        self.drive = turn.drive;
        if turn.done == Done::Sent {
            self.head = None;
        }
        if before != Mode::Off && self.counters.mode() == Mode::Off {
            self.off();
        }
        turn
    }

    fn off(&mut self) {
        self.machine.bus_off();
        self.drive = Level::Recessive;
    }

    /// Gives the machine another head or another mode.
    fn set(&mut self, alloc: Global, what: &str, value: &str, answer: &mut Answer) {
        match what {
            "head" => self.head = answer.head(alloc, value),
            "mode" => self.given = mode(value, answer),
            _ => answer.unread(),
        }
    }

    /// Writes what is asked.
    fn tell(&self, word: &str, answer: &mut Answer) {
        match word {
            "counters" => show_counters(&self.counters, answer),
            "silence" => self.tell_silence(answer),
            "drive" => asked(word, bit(self.drive), answer),
            "idle" => asked(word, truth(self.machine.idle()), answer),
            _ => asked(word, truth(self.machine.awaits_start()), answer),
        }
    }

    /// Writes for how many samples more the machine is silent: with heads, and without.
    fn tell_silence(&self, answer: &mut Answer) {
        answer.say("silence(");
        answer.show(&self.machine.silence(true));
        answer.put(&self.machine.silence(false));
        answer.say(") ");
    }
}

/// Writes what was asked, and what it is.
fn asked(what: &str, said: &str, answer: &mut Answer) {
    answer.say(what);
    answer.say("(");
    answer.say(said);
    answer.say(") ");
}

fn truth(holds: bool) -> &'static str {
    if holds { "true" } else { "false" }
}

fn mode(word: &str, answer: &mut Answer) -> Option<Mode> {
    match word {
        "Active" => Some(Mode::Active),
        "Passive" => Some(Mode::Passive),
        "Off" => Some(Mode::Off),
        _ => {
            answer.unread();
            None
        }
    }
}

/// Writes what happened, if something did, and the counters after it.
fn show_happened(
    number: usize,
    sample: u64,
    happened: Happened,
    counters: &Counters,
    answer: &mut Answer,
) {
    if happened != Happened::Nothing {
        answer.happened(number, happened);
        answer.show(&sample);
        show_counters(counters, answer);
    }
}

/// Writes which frame was completed, if one was.
fn show_done(number: usize, sample: u64, done: &Done, answer: &mut Answer) {
    match done {
        Done::Nothing => {}
        Done::Sent => {
            answer.put(&number);
            answer.say(".sent@");
            answer.show(&sample);
        }
        Done::Received(frame) => {
            answer.put(&number);
            answer.say(".received(");
            answer.identifier(frame);
            answer.say(")@");
            answer.show(&sample);
        }
    }
}

/// Machines on one wire, and how many samples were counted.
#[derive(Drop)]
struct Wire {
    stations: Vec<Station>,
    samples: u64,
}

pub fn tell(alloc: Global, words: &[&str], answer: &mut Answer) {
    let colon = words.iter().position(|w| *w == ":").unwrap_or(words.len());
    let mut wire = Wire {
        stations: stations(alloc, words, colon, answer),
        samples: 0,
    };
    for word in after(words, colon.saturating_add(1)) {
        wire.obey(alloc, word, answer);
    }
}

/// Returns a station for each of the first words.
fn stations(alloc: Global, words: &[&str], count: usize, answer: &mut Answer) -> Vec<Station> {
    let mut stations = Vec::new(alloc);
    for word in words.iter().take(count) {
        let station = Station::new(answer.head(alloc, word));
        if stations.push(station).is_err() {
            answer.full();
        }
    }
    stations
}

impl Wire {
    /// Does what a word says.
    fn obey(&mut self, alloc: Global, word: &str, answer: &mut Answer) {
        match word {
            "count" => self.samples = 0,
            "drive" | "idle" | "awaits" | "counters" | "silence" => self.ask(word, answer),
            "off" => self.off(answer),
            _ => self.act(alloc, word, answer),
        }
    }

    /// Does what a word of several parts says.
    fn act(&mut self, alloc: Global, word: &str, answer: &mut Answer) {
        if let Some((what, value)) = word.split_once('=') {
            self.set(alloc, what, value, answer);
        } else if let Some(count) = word.strip_prefix("own*") {
            self.own(answer.read(count.parse::<u32>()), answer);
        } else {
            for level in answer.levels_of(alloc, &[word]) {
                self.sample(level, answer);
            }
        }
    }

    /// Takes samples of what the machines drive.
    fn own(&mut self, count: u32, answer: &mut Answer) {
        for _ in 0..count {
            let level = self.level();
            self.sample(level, answer);
        }
    }

    /// Returns dominant if some machine drives dominant.
    fn level(&self) -> Level {
        if self.stations.iter().any(|s| s.drive.is_dominant()) {
            Level::Dominant
        } else {
            Level::Recessive
        }
    }

    /// Takes one sample of all machines.
    fn sample(&mut self, level: Level, answer: &mut Answer) {
        self.samples = self.samples.saturating_add(1);
        let samples = self.samples;
        for (k, station) in self.stations.iter_mut().enumerate() {
            let turn = station.sample(level);
            let number = k.saturating_add(1);
            show_happened(number, samples, turn.happened, &station.counters, answer);
            show_done(number, samples, &turn.done, answer);
        }
    }

    /// Writes what each machine drives, whether the bus is idle to it, whether it awaits a start of frame, its counters, or for how many
    /// samples more it is silent.
    fn ask(&self, word: &str, answer: &mut Answer) {
        for station in &self.stations {
            station.tell(word, answer);
        }
    }

    /// Takes the first machine off the bus.
    fn off(&mut self, answer: &mut Answer) {
        match self.stations.first_mut() {
            Some(station) => station.off(),
            None => answer.unread(),
        }
    }

    /// Gives the first machine another head or another mode.
    fn set(&mut self, alloc: Global, what: &str, value: &str, answer: &mut Answer) {
        match self.stations.first_mut() {
            Some(station) => station.set(alloc, what, value, answer),
            None => answer.unread(),
        }
    }
}
