//! What the first line of a block says, and the text that the block gives.

use crate::spelling::spell_lines;
use std::alloc::{AllocError, Global};
use std::collections::BTreeMap;
use test_words::parts;

/// Where the text of a block comes from.
#[derive(Clone, Copy)]
pub enum Origin<'a> {
    /// Its lines as they are.
    Plain,
    /// What its lines spell.
    Raw,
    /// The text of this name.
    Of(&'a str),
}

/// The first line of a block.
#[derive(Clone, Copy)]
pub struct Block<'a> {
    /// Whether every line is a row of its own.
    pub each: bool,
    /// Where the text comes from.
    pub origin: Origin<'a>,
    /// Whether the reader fails after the text.
    pub fails: bool,
    /// What is asked.
    pub word: &'a str,
    /// What follows the word.
    pub rest: &'a str,
}

/// The text of a block, or why it has none.
#[derive(Drop)]
pub enum Text {
    Given(Vec<u8>),
    Wrong(&'static str),
}

/// Returns whether a line begins with a word, and what follows it.
fn after_word<'a>(line: &'a str, word: &str) -> (bool, &'a str) {
    match line.strip_prefix(word) {
        Some(rest) => (true, rest),
        None => (false, line),
    }
}

impl<'a> Block<'a> {
    /// Returns what this line says.
    pub fn of(line: &'a str) -> Block<'a> {
        let (each, line) = after_word(line, "each ");
        let (fails, line) = after_word(line, "failing ");
        let (origin, line) = if let Some(rest) = line.strip_prefix("raw ") {
            (Origin::Raw, rest)
        } else if let Some(rest) = line.strip_prefix("of ") {
            let (name, rest) = parts(rest, ' ');
            (Origin::Of(name), rest)
        } else {
            (Origin::Plain, line)
        };
        let (word, rest) = parts(line, ' ');
        Block {
            each,
            origin,
            fails,
            word,
            rest,
        }
    }
}

/// Returns the text of a block with these lines.
pub fn text_of(
    alloc: Global,
    block: &Block,
    body: &str,
    kept: &BTreeMap<String, String>,
) -> Result<Text, AllocError> {
    match block.origin {
        Origin::Plain => Ok(Text::Given(Vec::from_slice(alloc, body.as_bytes())?)),
        Origin::Raw => spell_lines(alloc, body),
        Origin::Of(name) => match kept.get(name) {
            Some(text) => Ok(Text::Given(Vec::from_slice(alloc, text.as_bytes())?)),
            None => Ok(Text::Wrong("no text of this name was kept")),
        },
    }
}
