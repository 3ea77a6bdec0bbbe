//! What words of the command line ask for.
ghost use Rattle.std.specs.Prelude.{◌≡◌, ◌≤◌, IfOk, option_map, length};
ghost use Rattle.wl_settings.specs.Questions.{asked_by_words, nth_controller, controllers_below, controllers_wanted, count_said, in_range};
ghost use Rattle.wl_settings.specs.Questions.{number_by_word, number_in_text, number_about, plain_number, sample_by_word, word_scale, senders_by_word, text_or_default, topic_place, wanted_by_words};
ghost use Rattle.wl_settings.specs.Texts.{IsWantedAnswer};
ghost use Rattle.wl_settings.specs.Topics.{count_about, nth_text};
ghost use Rattle.wl_settings.specs.declared.fault.SettingsFault.TheVariants as fault;

use crate::asked::{Asked, Controller};
use crate::fault::SettingsFault;
use crate::keys::ValueKind;
use crate::read::Wanted;
use crate::registers::{bounds_of_kind, with_jump};
use crate::topics::{AskedWord, Topic};
use crate::values::{sample_said, senders_named};
use std::alloc::{AllocError, Global};
use wl_bound::Senders;
use wl_kinds::{ControllerKind, kind_named};
use wl_level::Listed;
use wl_setup::Text;
use wl_units::{MICROMETRES, Scale};

/// The longest tick by which texts are read, in picoseconds.
const LONGEST: u64 = 1_000_000_000_000;

/// Returns the n-th text about a topic, from 0 on.
fn nth_text(words: &[AskedWord], topic: Topic, n: usize) -> Option<&str>
    ensures { option_map (λ text. text.now) result ≡ nth_text topic n words.now }
{
    match words {
        [] => None,
        [first, rest @ ..] => {
            if !first.is_about(topic) {
                nth_text(rest, topic, n)
            } else if n == 0 {
                Some(first.text.as_str())
            } else {
                nth_text(rest, topic, n - 1)
            }
        }
    }
}

/// Returns how many words are about a topic.
fn count_about(words: &[AskedWord], topic: Topic) -> usize
    ensures value { result ≡ count_about topic words.now }
    ensures most { result ≤ length words.now }
{
    match words {
        [] => 0,
        [first, rest @ ..] => {
            let more = count_about(rest, topic);
            if first.is_about(topic) {
                1 + more
            } else {
                more
            }
        }
    }
}

/// Returns the text about a topic, or the one that is taken without the option.
fn text_of(words: &[AskedWord], topic: Topic) -> Option<&str>
    ensures { option_map (λ text. text.now) result ≡ text_or_default words.now topic }
{
    match nth_text(words, topic, 0) {
        Some(text) => Some(text),
        None => topic.default_text(),
    }
}

/// Returns the option that is about a topic, with its dashes.
fn place_of(alloc: Global, topic: Topic) -> Result<Text, AllocError>
    ensures { IfOk result (λ place. place ≡ topic_place topic) }
{
    let option = topic.option();
    let place = format!(in alloc; "--{option}")?;
    Text::new(alloc, place.as_str())
}

/// Returns the fault of an option that is absent.
fn missing(alloc: Global, topic: Topic) -> Result<SettingsFault, AllocError>
    ensures { IfOk result (λ it. it ≡ fault.Missing (topic_place topic)) }
{
    Ok(SettingsFault::Missing(place_of(alloc, topic)?))
}

/// Returns the fault of an option whose text says nothing of its kind.
fn unreadable(alloc: Global, topic: Topic) -> Result<SettingsFault, AllocError>
    ensures { IfOk result (λ it. it ≡ fault.Kind (topic_place topic)) }
{
    Ok(SettingsFault::Kind(place_of(alloc, topic)?))
}

/// Returns how words say ticks, of this number of picoseconds, and metres.
fn word_scale(tick: u64) -> Scale
    ensures { result ≡ word_scale tick }
{
    Scale {
        tick: 1_000 * tick.min(LONGEST),
        unit: MICROMETRES,
    }
}

/// Returns the number that a text has, if it has one.
fn plain_number(text: &str) -> Option<u64>
    ensures { result ≡ plain_number text.now }
{
    match text.parse::<u64>() {
        Ok(number) => Some(number),
        Err(_) => None,
    }
}

/// Returns the number that a text about a topic says, in ticks, metres, ticks a metre, Hz, bit/s or ppm.
fn count_said(tick: u64, topic: Topic, text: &str) -> Option<u64>
    ensures { result ≡ count_said tick topic text.now }
{
    match topic.measure() {
        Some(measure) => word_scale(tick).number_said(measure, text),
        None => plain_number(text),
    }
}

/// Returns a number that is within the bounds of a key.
fn in_range(kind: ValueKind, number: u64) -> Option<u32>
    ensures { result ≡ in_range kind number }
{
    match kind {
        ValueKind::Within(least, most) => {
            if least as u64 <= number && number <= most as u64 {
                Some(number as u32)
            } else {
                None
            }
        }
        _ => None,
    }
}

/// Returns the number that a text about a topic says, if it is within the bounds of its key.
fn number_in_text(tick: u64, topic: Topic, text: &str) -> Option<u32>
    ensures { result ≡ number_in_text tick topic text.now }
{
    match count_said(tick, topic, text) {
        Some(number) => in_range(topic.key().kind(), number),
        None => None,
    }
}

/// Returns the number that a text about a topic says, or what is wrong with it.
fn number_by_word(
    alloc: Global,
    tick: u64,
    topic: Topic,
    text: Option<&str>,
) -> Result<u32, SettingsFault>
    ensures { IsWantedAnswer (number_by_word tick topic (option_map (λ t. t.now) text.entry)) result }
{
    let Some(text) = text else {
        return Err(missing(alloc, topic)?);
    };
    match number_in_text(tick, topic, text) {
        Some(number) => Ok(number),
        None => Err(unreadable(alloc, topic)?),
    }
}

/// Returns who sends, as words say it, or what is wrong with them.
fn senders_by_word(alloc: Global, text: Option<&str>) -> Result<Senders, SettingsFault>
    ensures { IsWantedAnswer (senders_by_word (option_map (λ t. t.now) text.entry)) result }
{
    let Some(text) = text else {
        return Err(missing(alloc, Topic::Senders)?);
    };
    match senders_named(text) {
        Some(senders) => Ok(senders),
        None => Err(unreadable(alloc, Topic::Senders)?),
    }
}

/// Returns the sample point that a text wishes for, if there is one, or what is wrong with it.
fn sample_by_word(alloc: Global, text: Option<&str>) -> Result<Option<u32>, SettingsFault>
    ensures { IsWantedAnswer (sample_by_word (option_map (λ t. t.now) text.entry)) result }
{
    let Some(text) = text else {
        return Ok(None);
    };
    match sample_said(text) {
        Some(sample) => Ok(Some(sample)),
        None => Err(unreadable(alloc, Topic::SamplePoint)?),
    }
}

/// Returns the number that words say of a topic, or what is wrong with them.
fn number_about(
    alloc: Global,
    tick: u64,
    words: &[AskedWord],
    topic: Topic,
) -> Result<u32, SettingsFault>
    ensures { IsWantedAnswer (number_about tick words.now topic) result }
{
    number_by_word(alloc, tick, topic, text_of(words, topic))
}

/// Returns the bus that words ask for, or the first thing that is wrong with them.
fn asked_by_words(alloc: Global, tick: u64, words: &[AskedWord]) -> Result<Asked, SettingsFault>
    ensures { IsWantedAnswer (asked_by_words tick words.now) result }
{
    let bitrate = number_about(alloc, tick, words, Topic::Bitrate)?;
    let cable = number_about(alloc, tick, words, Topic::Cable)?;
    let per = number_about(alloc, tick, words, Topic::Per)?;
    let out_delay = number_about(alloc, tick, words, Topic::Out)?;
    let in_delay = number_about(alloc, tick, words, Topic::In)?;
    let tolerance = number_about(alloc, tick, words, Topic::Tolerance)?;
    let senders = senders_by_word(alloc, text_of(words, Topic::Senders))?;
    let rate_error = number_about(alloc, tick, words, Topic::RateError)?;
    let sample = sample_by_word(alloc, nth_text(words, Topic::SamplePoint, 0))?;
    let nodes = number_about(alloc, tick, words, Topic::Nodes)?;
    Ok(Asked {
        bitrate,
        cable,
        per,
        out_delay,
        in_delay,
        tolerance,
        senders,
        rate_error,
        sample,
        nodes,
        tick,
    })
}

/// Returns the n-th controller that words ask for, from 0 on, or what is wrong with them.
fn nth_controller(
    alloc: Global,
    tick: u64,
    words: &[AskedWord],
    n: usize,
) -> Result<Controller, SettingsFault>
    ensures { IsWantedAnswer (nth_controller tick words.now n) result }
{
    let Some(name) = nth_text(words, Topic::Kind, n) else {
        return Err(missing(alloc, Topic::Kind)?);
    };
    let Some(kind) = kind_named(name) else {
        return Err(unreadable(alloc, Topic::Kind)?);
    };
    let clock = number_by_word(alloc, tick, Topic::Clock, nth_text(words, Topic::Clock, n))?;
    let most = number_about(alloc, tick, words, Topic::Sjw)?;
    Ok(Controller {
        name: Text::new(alloc, name)?,
        clock,
        bounds: with_jump(bounds_of_kind(kind), most),
    })
}

/// Returns the first controllers that words ask for, or the first thing that is wrong with them.
fn controllers_below(
    alloc: Global,
    tick: u64,
    words: &[AskedWord],
    count: usize,
) -> Result<Listed<Controller>, SettingsFault>
    ensures { IsWantedAnswer (controllers_below tick words.now count) result }
{
    if count == 0 {
        return Ok(Listed::new(alloc));
    }
    let mut all = controllers_below(alloc, tick, words, count - 1)?;
    all.push(nth_controller(alloc, tick, words, count - 1)?)?;
    Ok(all)
}

/// Returns how many controllers words ask for: one at least.
fn controllers_wanted(words: &[AskedWord]) -> usize
    ensures { result ≡ controllers_wanted words.now }
{
    count_about(words, Topic::Kind)
        .max(count_about(words, Topic::Clock))
        .max(1)
}

/// Returns what words ask for, or the first thing that is wrong with them: of the bus in the order of `TOPICS`, then of each controller.
pub fn wanted_by_words(
    alloc: Global,
    tick: u64,
    words: &[AskedWord],
) -> Result<Wanted, SettingsFault>
    ensures { IsWantedAnswer (wanted_by_words tick words.now) result }
{
    let asked = asked_by_words(alloc, tick, words)?;
    let controllers = controllers_below(alloc, tick, words, controllers_wanted(words))?;
    Ok(Wanted { asked, controllers })
}
