//! Reading the lines before a plan.

use crate::watch::Rule;
use test_words::parts;
use wl_worker::LinkKind;

/// What a step does.
#[derive(Clone, Copy)]
pub enum Way {
    /// Runs by threads of the library.
    Simulate,
    /// Runs by threads of the library, over links that are made here.
    Over,
    /// Runs by `work` in threads of this crate.
    Work,
    /// Gives something by one link, and fetches by another one.
    Links,
    /// Runs over links that fail.
    Failing,
    /// Runs one worker over a link that brings nothing.
    Alone,
    /// Sends a letter after the reader was given up.
    ReaderGone,
    /// Receives letters after the writer was given up.
    WriterGone,
    /// Receives a letter of the plan.
    Letter,
    /// Receives a letter of another plan.
    ForeignLetter,
}

/// What a line asks for; the main file says what each word does.
#[derive(Clone, Copy)]
pub struct Step {
    pub way: Way,
    /// What links workers have.
    pub link: LinkKind,
    /// The numbers after the word, and 0 for those that are missing.
    pub numbers: [u64; 4],
    /// What the gate does.
    pub rule: Rule,
}

/// Returns the step of a line, if it is one.
pub fn read(line: &str) -> Option<Step> {
    let (asked, rule) = parts(line, ',');
    let (link, asked) = match asked.strip_prefix("mail ") {
        Some(rest) => (LinkKind::Mail, rest),
        None => (LinkKind::Hub, asked),
    };
    let (word, numbers) = spelled(asked)?;
    Some(Step {
        way: way_of(word)?,
        link,
        numbers,
        rule: rule_of(rule)?,
    })
}

/// Returns a word and up to four numbers after it.
fn spelled(text: &str) -> Option<(&str, [u64; 4])> {
    let mut words = text.split_whitespace();
    let word = words.next()?;
    let mut numbers = [0u64; 4];
    for i in 0..4 {
        if let Some(number) = words.next() {
            numbers[i] = number.parse().ok()?;
        }
    }
    Some((word, numbers))
}

/// Returns what a step of this word does.
fn way_of(word: &str) -> Option<Way> {
    match word {
        "simulate" => Some(Way::Simulate),
        "over" => Some(Way::Over),
        "work" => Some(Way::Work),
        "links" => Some(Way::Links),
        "failing" => Some(Way::Failing),
        "alone" => Some(Way::Alone),
        "reader-gone" => Some(Way::ReaderGone),
        "writer-gone" => Some(Way::WriterGone),
        "letter" => Some(Way::Letter),
        "foreign-letter" => Some(Way::ForeignLetter),
        _ => None,
    }
}

/// Returns what a gate of these words does.
fn rule_of(text: &str) -> Option<Rule> {
    if text.is_empty() {
        return Some(Rule::Any);
    }
    let (word, [first, second, third, fourth]) = spelled(text)?;
    match word {
        "stop" => Some(Rule::Stop(first, second, third)),
        "overlap" => Some(Rule::Overlap(first, second)),
        "restart" => Some(Rule::Restart(first, second, third, fourth)),
        "random" => Some(Rule::Random(first)),
        _ => None,
    }
}
