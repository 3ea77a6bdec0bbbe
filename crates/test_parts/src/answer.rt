//! The answer to a row, and what the words of rows say.

use std::alloc::{AllocError, Global};
use std::fmt::Display;
use std::num::ParseIntError;
use test_words::{Stop, head};
use wl_confine::Happened;
use wl_frame::frame::Frame;
use wl_level::Level;

/// What is written of an answer. A word that can't be read, or that says what may not be asked, and a lack of memory are kept until its end.
#[derive(Drop)]
pub struct Answer {
    text: String,
    is_unread: bool,
    is_full: bool,
}

impl Answer {
    pub fn new(alloc: Global) -> Answer {
        Answer {
            text: String::new(alloc),
            is_unread: false,
            is_full: false,
        }
    }

    /// Returns the answer to a whole row, or why it has none.
    pub fn told(&self) -> Result<&str, Stop> {
        if self.is_full {
            return Err(Stop::Memory);
        }
        if self.is_unread {
            return Err(Stop::Unread);
        }
        let said = self.text.as_str().trim_end();
        if said.is_empty() {
            Ok("nothing")
        } else {
            Ok(said)
        }
    }

    /// Notes that a word can't be read, or says what may not be asked.
    pub fn unread(&mut self) {
        self.is_unread = true;
    }

    /// Notes that memory is lacking.
    pub fn full(&mut self) {
        self.is_full = true;
    }

    /// Returns what was made, if there was memory for it.
    pub fn kept<T: Drop>(&mut self, made: Result<T, AllocError>) -> Option<T> {
        if made.is_err() {
            self.full();
        }
        made.ok()
    }

    /// Writes a text.
    pub fn say(&mut self, text: &str) {
        if self.text.push_str(text).is_err() {
            self.full();
        }
    }

    /// Writes a value.
    pub fn put<T: Display>(&mut self, value: &T) {
        if write!(self.text, "{value}").is_err() {
            self.full();
        }
    }

    /// Writes a value, and a blank after it.
    pub fn show<T: Display>(&mut self, value: &T) {
        self.put(value);
        self.say(" ");
    }

    /// Writes a name and a value, and a blank after each.
    pub fn name<T: Display>(&mut self, name: &str, value: &T) {
        self.say(name);
        self.say(" ");
        self.show(value);
    }

    /// Writes a CRC sequence.
    pub fn hexadecimal(&mut self, number: u16) {
        if write!(self.text, "{number:04x}").is_err() {
            self.full();
        }
    }

    /// Writes what happened to the machine of a number.
    pub fn happened(&mut self, number: usize, happened: Happened) {
        if write!(self.text, "{number}.{happened:?}@").is_err() {
            self.full();
        }
    }

    /// Writes a byte, and a blank after it.
    pub fn byte(&mut self, byte: u8) {
        if write!(self.text, "{byte:02x} ").is_err() {
            self.full();
        }
    }

    /// Writes the identifier of a frame: three digits, or eight if it is extended.
    pub fn identifier(&mut self, frame: &Frame) {
        let (id, is_extended) = (frame.id(), frame.is_extended());
        let written = if is_extended {
            write!(self.text, "{id:08x}")
        } else {
            write!(self.text, "{id:03x}")
        };
        if written.is_err() {
            self.full();
        }
    }

    /// Writes levels as bits.
    pub fn levels(&mut self, levels: &[Level]) {
        for level in levels {
            self.say(bit(*level));
        }
    }

    /// Notes it if a row has more words than its kind, or fewer.
    pub fn takes(&mut self, words: &[&str], count: usize) {
        if words.len() != count {
            self.unread();
        }
    }

    /// Returns the number at a place of words.
    pub fn at(&mut self, words: &[&str], place: usize) -> u64 {
        self.number(word(words, place))
    }

    /// Returns a number in decimal.
    pub fn number(&mut self, word: &str) -> u64 {
        self.read(word.parse::<u64>())
    }

    /// Returns what was read of a word, or 0.
    pub fn read<T: Default + Drop>(&mut self, said: Result<T, ParseIntError>) -> T {
        match said {
            Ok(number) => number,
            Err(_) => {
                self.unread();
                T::default()
            }
        }
    }

    /// Returns the two parts of a word.
    pub fn parts<'a>(&mut self, word: &'a str, between: &str) -> (&'a str, &'a str) {
        match word.split_once(between) {
            Some(parts) => parts,
            None => {
                self.unread();
                (word, "")
            }
        }
    }

    /// Returns the head that a word spells.
    pub fn head(&mut self, alloc: Global, word: &str) -> Option<Frame> {
        match head(alloc, word) {
            Ok(head) => return head,
            Err(Stop::Unread) => self.unread(),
            Err(Stop::Memory) => self.full(),
        }
        None
    }

    /// Returns a word such as `TxError*32`: what it repeats, and how often. Without a `*` it is once.
    pub fn repeated<'a>(&mut self, word: &'a str) -> (&'a str, u32) {
        match word.split_once('*') {
            Some((what, count)) => (what, self.read(count.parse::<u32>())),
            None => (word, 1),
        }
    }

    /// Adds an item as often as it is said.
    pub fn add<T: Copy + Drop>(&mut self, all: &mut Vec<T>, item: T, count: u32) {
        for _ in 0..count {
            if all.push(item).is_err() {
                self.full();
            }
        }
    }

    /// Returns the levels of words such as `0101` and `1*11`: 0 is dominant, 1 recessive.
    pub fn levels_of(&mut self, alloc: Global, words: &[&str]) -> Vec<Level> {
        let mut all = Vec::new(alloc);
        for word in words {
            let (bits, count) = self.repeated(word);
            for _ in 0..count {
                self.add_bits(&mut all, bits);
            }
        }
        all
    }

    fn add_bits(&mut self, all: &mut Vec<Level>, bits: &str) {
        for byte in bits.bytes() {
            match byte {
                b'0' => self.add(all, Level::Dominant, 1),
                b'1' => self.add(all, Level::Recessive, 1),
                _ => self.unread(),
            }
        }
    }
}

/// Returns the word at a place, or an empty one after the last.
pub fn word<'a>(words: &[&'a str], place: usize) -> &'a str {
    match words.get(place) {
        Some(word) => *word,
        None => "",
    }
}

/// Returns the words after the first ones.
pub fn after<'a, 'b>(words: &'a [&'b str], count: usize) -> &'a [&'b str] {
    let (_, rest) = words.split_at(words.len().min(count));
    rest
}

/// Returns the bit that a level carries.
pub fn bit(level: Level) -> &'static str {
    match level {
        Level::Dominant => "0",
        Level::Recessive => "1",
    }
}
