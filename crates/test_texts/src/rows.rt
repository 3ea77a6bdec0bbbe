//! The blocks of a text, one after another.

use crate::answer::answer;
use crate::block::{Block, Text, text_of};
use std::alloc::{AllocError, Global};
use std::collections::BTreeMap;
use test_words::is_row;

/// What was read of the block that is open, the texts that were kept, and what was answered.
#[derive(Drop)]
pub struct Rows {
    alloc: Global,
    head: Option<String>,
    body: String,
    kept: BTreeMap<String, String>,
    pub said: String,
}

impl Rows {
    /// Returns the state in which no block is open, no text is kept, and nothing is answered.
    pub fn new(alloc: Global) -> Rows {
        Rows {
            alloc,
            head: None,
            body: String::new(alloc),
            kept: BTreeMap::new(alloc),
            said: String::new(alloc),
        }
    }

    /// Takes the next line.
    pub fn take(&mut self, line: &str) -> Result<(), AllocError> {
        if line == "---" {
            return self.end();
        }
        if self.head.is_some() {
            return push_line(&mut self.body, line);
        }
        if !is_row(line) {
            return push_line(&mut self.said, line);
        }
        self.head = Some(String::from_str(self.alloc, line)?);
        Ok(())
    }

    /// Takes the line after a block.
    fn end(&mut self) -> Result<(), AllocError> {
        match self.head.take() {
            Some(head) => self.close(head.as_str())?,
            None => self.said.push_str("row: no block is open\n")?,
        }
        self.body.clear();
        Ok(())
    }

    /// Answers the block that ends here. One that keeps its text answers nothing.
    fn close(&mut self, head: &str) -> Result<(), AllocError> {
        match head.strip_prefix("keep ") {
            Some(name) => self.keep(name),
            None => push_answers(
                self.alloc,
                &mut self.said,
                &Block::of(head),
                self.body.as_str(),
                &self.kept,
            ),
        }
    }

    /// Keeps the text of a block.
    fn keep(&mut self, name: &str) -> Result<(), AllocError> {
        let name = String::from_str(self.alloc, name)?;
        let text = self.body.clone()?;
        self.kept.insert(name, text)?;
        Ok(())
    }
}

/// Adds a line.
fn push_line(text: &mut String, line: &str) -> Result<(), AllocError> {
    text.push_str(line)?;
    text.push_str("\n")
}

/// Adds what is answered to a block with these lines, or to each of them.
fn push_answers(
    alloc: Global,
    said: &mut String,
    block: &Block,
    body: &str,
    kept: &BTreeMap<String, String>,
) -> Result<(), AllocError> {
    if block.each {
        for line in body.lines() {
            write!(said, "> {line}\n")?;
            push_answer(alloc, said, block, line, kept)?;
        }
    } else {
        push_answer(alloc, said, block, body, kept)?;
    }
    said.push_str("---\n")
}

/// Adds what is answered to a block with these lines.
fn push_answer(
    alloc: Global,
    said: &mut String,
    block: &Block,
    lines: &str,
    kept: &BTreeMap<String, String>,
) -> Result<(), AllocError> {
    match text_of(alloc, block, lines, kept)? {
        Text::Given(text) => said.push_str(answer(alloc, block, text.as_slice())?.as_str()),
        Text::Wrong(why) => write!(said, "row: {why}\n"),
    }
}
