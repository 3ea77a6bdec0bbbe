//! Machines on one wire, each with its head.

use std::alloc::Global;
use test_words::{Stop, Told, head};
use wl_confine::Mode;
use wl_frame::frame::Frame;
use wl_level::Level;
use wl_machine::{Done, Machine, Turn};
use wl_wire::{is_without_error, sample};

/// A machine, the frame that it is to send, and the level that it drives.
#[derive(Drop)]
struct Station {
    machine: Machine,
    head: Option<Frame>,
    drive: Level,
}

impl Station {
    /// Returns a machine that is idle, or that still integrates.
    fn new(head: Option<Frame>, integrates: bool) -> Station {
        let mut station = Station {
            machine: Machine::new(),
            head: None,
            drive: Level::Recessive,
        };
        if !integrates {
            for _ in 0..11_u32 {
                let _ = station.sample(Level::Recessive);
            }
        }
        station.head = head;
        station
    }

    fn sample(&mut self, level: Level) -> Turn {
        let turn = sample(&mut self.machine, level, self.head.as_ref(), Mode::Active);
        self.drive = turn.drive;
        if turn.done == Done::Sent {
            self.head = None;
        }
        turn
    }
}

/// Machines on one wire, how many bits the bus has had, and whether some machine found an error.
#[derive(Drop)]
struct Wire {
    stations: Vec<Station>,
    bits: u64,
    failed: bool,
}

/// Writes what happens to the machines of a row, and at last whether one found an error.
pub fn tell(alloc: Global, words: &[&str], out: &mut String) -> Told {
    let colon = words.iter().position(|w| *w == ":").ok_or(Stop::Unread)?;
    let mut wire = Wire {
        stations: stations(alloc, words, colon)?,
        bits: 0,
        failed: false,
    };
    wire.play(alloc, words, colon, out)
}

/// Returns a machine for each of the first words.
fn stations(alloc: Global, words: &[&str], count: usize) -> Result<Vec<Station>, Stop> {
    let mut stations = Vec::new(alloc);
    for word in words.iter().take(count) {
        stations.push(read_station(alloc, word)?)?;
    }
    Ok(stations)
}

fn read_station(alloc: Global, word: &str) -> Result<Station, Stop> {
    match word.strip_prefix('~') {
        Some(rest) => Ok(Station::new(head(alloc, rest)?, true)),
        None => Ok(Station::new(head(alloc, word)?, false)),
    }
}

/// Writes what happened to a machine, and which frame it completed.
fn write_turn(out: &mut String, number: usize, bits: u64, turn: &Turn) -> Told {
    if !is_without_error(turn.happened) {
        write!(out, "{number}.{:?}@{bits} ", turn.happened)?;
    }
    match &turn.done {
        Done::Nothing => {}
        Done::Sent => write!(out, "{number}.sent@{bits} ")?,
        Done::Received(frame) => write!(out, "{number}.received({:03x})@{bits} ", frame.id())?,
    }
    Ok(())
}

impl Wire {
    /// Does what the words after a place say, and writes whether a machine found an error.
    fn play(&mut self, alloc: Global, words: &[&str], place: usize, out: &mut String) -> Told {
        for word in words.iter().skip(place).skip(1) {
            self.obey(alloc, word, out)?;
        }
        let verdict = if self.failed { "error" } else { "no error" };
        Ok(out.push_str(verdict)?)
    }

    /// Does what a word says.
    fn obey(&mut self, alloc: Global, word: &str, out: &mut String) -> Told {
        if let Some((number, count)) = word.split_once('+') {
            for _ in 0..count.parse::<u32>()? {
                self.alone(number, out)?;
            }
            return Ok(());
        }
        if let Some((number, given)) = word.split_once('=') {
            let given = head(alloc, given)?;
            self.at(number)?.head = given;
            return Ok(());
        }
        for _ in 0..word.parse::<u32>()? {
            self.bit(out)?;
        }
        Ok(())
    }

    /// Returns the machine of a number, from 1 on.
    fn at(&mut self, number: &str) -> Result<&mut Station, Stop> {
        let number = number.parse::<usize>()?;
        let place = number.checked_sub(1).ok_or(Stop::Unread)?;
        self.stations.get_mut(place).ok_or(Stop::Unread)
    }

    /// Returns dominant if some machine drives dominant.
    fn level(&self) -> Level {
        if self.stations.iter().any(|s| s.drive.is_dominant()) {
            Level::Dominant
        } else {
            Level::Recessive
        }
    }

    /// Takes a bit of the bus, which all machines sample.
    fn bit(&mut self, out: &mut String) -> Told {
        let level = self.level();
        self.bits = self.bits.saturating_add(1);
        let bits = self.bits;
        for (k, station) in self.stations.iter_mut().enumerate() {
            let turn = station.sample(level);
            self.failed = self.failed || !is_without_error(turn.happened);
            write_turn(out, k.saturating_add(1), bits, &turn)?;
        }
        Ok(())
    }

    /// Takes a recessive bit that one machine samples by itself.
    fn alone(&mut self, number: &str, out: &mut String) -> Told {
        let bits = self.bits;
        let turn = self.at(number)?.sample(Level::Recessive);
        self.failed = self.failed || !is_without_error(turn.happened);
        write_turn(out, number.parse::<usize>()?, bits, &turn)
    }
}
