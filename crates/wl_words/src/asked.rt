//! What options of `settings` ask for in the place of a file.
ghost use Rattle.std.specs.Prelude.{◌≡◌, ◌++◌, codes, map, IfOk};
ghost use Rattle.std.specs.Str.{bytes_eq};
ghost use Rattle.clap.specs.Words.{found_of, rows_of, subcommand_rows_of};
ghost use Rattle.wl_words.specs.CommandLine.{asked_about, asked_by, asked_words_in, asked_about_each, asked_word};

use clap::ArgMatches;
use std::alloc::{AllocError, Global};
use wl_settings::{AskedWord, TOPICS, Topic};
use wl_setup::Text;

/// Returns words with the texts of an option that is about a topic.
fn with_texts(
    alloc: Global,
    mut words: Vec<AskedWord>,
    topic: Topic,
    texts: &[&str],
) -> Result<Vec<AskedWord>, AllocError>
    ensures { IfOk result (λ all. all.items ≡ words.items ++ map (asked_word topic) (map (λ w. w.now) texts.now)) }
{
    for text in texts {
        let text = Text::new(alloc, text)?;
        words.push(AskedWord { topic, text })?;
    }
    Ok(words)
}

/// Returns words with what a subcommand says of a topic.
fn with_topic(
    alloc: Global,
    words: Vec<AskedWord>,
    topic: Topic,
    matches: &ArgMatches,
) -> Result<Vec<AskedWord>, AllocError>
    ensures { IfOk result (λ all. all.items ≡ words.items ++ asked_about topic (rows_of (found_of matches.now))) }
{
    match matches.get_strs(topic.option()) {
        Some(texts) => with_texts(alloc, words, topic, texts),
        None => Ok(words),
    }
}

/// Returns words with what a subcommand says of these topics.
fn with_topics(
    alloc: Global,
    words: Vec<AskedWord>,
    topics: &[Topic],
    matches: &ArgMatches,
) -> Result<Vec<AskedWord>, AllocError>
    ensures { IfOk result (λ all. all.items
        ≡ words.items ++ asked_about_each topics.now (rows_of (found_of matches.now))) }
{
    match topics {
        [] => Ok(words),
        [first, rest @ ..] => {
            let more = with_topic(alloc, words, *first, matches)?;
            with_topics(alloc, more, rest, matches)
        }
    }
}

/// Returns what a subcommand of this word says in the place of a file.
fn asked_by(alloc: Global, word: &str, matches: &ArgMatches) -> Result<Vec<AskedWord>, AllocError>
    ensures { IfOk result (λ all. all.items ≡ asked_by word.now (rows_of (found_of matches.now))) }
{
    match word {
        "settings" => with_topics(alloc, Vec::new(alloc), &TOPICS, matches),
        _ => Ok(Vec::new(alloc)),
    }
}

/// Returns what the subcommand says in the place of a file, if there is one.
pub(crate) fn asked_of_subcommand(
    alloc: Global,
    matches: &ArgMatches,
) -> Result<Vec<AskedWord>, AllocError>
    ensures { IfOk result (λ all. all.items ≡ asked_words_in (subcommand_rows_of matches.now)) }
{
    match matches.subcommand() {
        Some((word, sub)) => asked_by(alloc, word, sub),
        None => Ok(Vec::new(alloc)),
    }
}
