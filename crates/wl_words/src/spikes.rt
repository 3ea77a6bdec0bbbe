//! What the options of a sweep say of a spike.
ghost use Rattle.std.specs.Prelude.{◌≡◌, ◌++◌, ◌∷◌, [], map, string_bytes, IfOk};
ghost use Rattle.clap.specs.Words.{first_of, found_of, rows_of};
ghost use Rattle.wl_words.specs.Spikes.{if_alone, is_said, is_whole_spike, said_texts, spike_alone, with_spike};

use crate::task::Swept;
use clap::ArgMatches;
use std::alloc::{AllocError, Global};

/// True if an option is there.
#[tactic(auto, using(crate::proofs::Spiked::said_text))]
pub(crate) fn is_said(matches: &ArgMatches, id: &str) -> bool
    ensures { result ≡ is_said id.now (rows_of (found_of matches.now)) }
{
    matches.get_str(id).is_some()
}

/// True if a spike has a length, and is swept over no range and written as text.
fn is_whole_spike(matches: &ArgMatches, swept: Swept) -> bool
    ensures { result ≡ is_whole_spike (rows_of (found_of matches.now)) swept }
{
    is_said(matches, "length")
        && !is_said(matches, "vary")
        && !swept.page
        && !swept.part.is_some()
        && !swept.join
}

/// True if a spike is whole, or there is none.
fn spike_alone(matches: &ArgMatches, swept: Swept) -> bool
    ensures { result ≡ spike_alone (rows_of (found_of matches.now)) swept }
{
    if swept.spike {
        is_whole_spike(matches, swept)
    } else {
        !is_said(matches, "length")
    }
}

/// Returns what is swept, if a spike is whole, or there is none.
pub(crate) fn if_alone(matches: &ArgMatches, swept: Swept) -> Option<Swept>
    ensures { result ≡ if_alone (rows_of (found_of matches.now)) swept }
{
    if spike_alone(matches, swept) {
        Some(swept)
    } else {
        None
    }
}

/// Returns words, and after them one more.
fn with_text(alloc: Global, mut words: Vec<String>, text: &str) -> Result<Vec<String>, AllocError>
    ensures { IfOk result (λ all. map string_bytes all.items ≡ map string_bytes words.items ++ text.now ∷ []) }
{
    words.push(String::from_str(alloc, text)?)?;
    Ok(words)
}

/// Returns words, and after them the text of an option, if it is there.
#[tactic(auto, using(crate::proofs::Spiked::texts_text))]
fn with_said(
    alloc: Global,
    words: Vec<String>,
    matches: &ArgMatches,
    id: &str,
) -> Result<Vec<String>, AllocError>
    ensures { IfOk result (λ all. map string_bytes all.items
        ≡ map string_bytes words.items ++ said_texts (first_of id.now (rows_of (found_of matches.now)))) }
{
    match matches.get_str(id) {
        Some(text) => with_text(alloc, words, text),
        None => Ok(words),
    }
}

/// Returns words, and after them where a spike is and how long it takes, if these are said.
pub(crate) fn with_spike(
    alloc: Global,
    words: Vec<String>,
    matches: &ArgMatches,
) -> Result<Vec<String>, AllocError>
    ensures { IfOk result (λ all. map string_bytes all.items
        ≡ with_spike (map string_bytes words.items) (rows_of (found_of matches.now))) }
{
    let placed = with_said(alloc, words, matches, "spike")?;
    with_said(alloc, placed, matches, "length")
}
