//! The verdict: who misses a deadline, or why there is no bound.
ghost use Rattle.std.specs.Prelude.{◌≡◌, ◌≤◌, ◌<◌, length, IfOk, IfSome, OnOk};
ghost use Rattle.wl_level.specs.Places.{first_place};
ghost use Rattle.wl_margin.specs.Pieces.{each_below};
ghost use Rattle.wl_report.specs.Lines.{GrowsBy};
ghost use Rattle.wl_respond.specs.Asks.{has_no_period};
ghost use Rattle.wl_respond.specs.Texts.{bounded_line, beyond_load_words, is_missed, no_period_words, missed_line, load_words, missed_count, missed_name, missed_words, misses, open_line, open_words, outcome_in, verdict_line};
ghost use Rattle.wl_topology.specs.Driven.{any_below};

use crate::asked::Asked;
use crate::bounds::Waits;
use crate::message::MessageWait;
use crate::parts::{Line, Met};
use crate::premise::Lacking;
use crate::shapes::{late_shape, open_shape, verdict_shape};
use crate::words::{line_of_text, line_with};
use std::alloc::{AllocError, Global};
use wl_lines::TextLine;
use wl_margin::Hundredths;
use wl_report::push_id;
use wl_setup::Names;

/// True if a message may miss its deadline.
fn misses(lines: &[Line], e: usize) -> bool
    requires { e < length lines.now }
    ensures { result ≡ misses lines.now e }
{
    match lines[e].met {
        Met::InTime => false,
        Met::Late => true,
        Met::Open => false,
    }
}

/// Returns how many messages may miss their deadlines.
pub(crate) fn missed_count(lines: &[Line]) -> usize
    ensures value { result ≡ missed_count lines.now }
    ensures most { result ≤ length lines.now }
{
    let mut count = 0;
    for e in 0..lines.len() {
        if misses(lines, e) {
            count += 1;
        }
    }
    count
}

/// Adds a message that may miss its deadline.
fn push_late(
    text: &mut String,
    names: &Names,
    message: &MessageWait,
    later: bool,
) -> Result<(), AllocError>
    ensures { OnOk result (GrowsBy text.old text.new (missed_name names.now message.now later)) }
{
    text.push_str(if later { ", " } else { "" })?;
    push_id(text, &message.frame)?;
    text.push_str(" of ")?;
    text.push_str(names.name_of(message.node as usize))
}

/// Adds message `e` if it may miss its deadline.
fn push_missed(
    text: &mut String,
    names: &Names,
    asked: &[Asked],
    lines: &[Line],
    e: usize,
    later: bool,
) -> Result<(), AllocError>
    requires message { e < length asked.now }
    requires line { e < length lines.now }
    requires later { later ≡ any_below e (misses lines.now) }
    ensures { OnOk result (GrowsBy text.old text.new (missed_words names.now asked.now lines.now e)) }
{
    if misses(lines, e) {
        push_late(text, names, &asked[e].message, later)
    } else {
        Ok(())
    }
}

/// Adds the messages that may miss their deadlines.
fn push_all_missed(
    text: &mut String,
    names: &Names,
    asked: &[Asked],
    lines: &[Line],
) -> Result<(), AllocError>
    requires { length asked.now ≡ length lines.now }
    ensures { OnOk result (GrowsBy text.old text.new
        (each_below (missed_words names.now asked.now lines.now) (length lines.now))) }
{
    let mut later = false;
    for e in 0..lines.len() {
        push_missed(text, names, asked, lines, e, later)?;
        later = later || misses(lines, e);
    }
    Ok(())
}

/// Returns the verdict of messages some of which may miss their deadlines.
fn missed_line(
    alloc: Global,
    names: &Names,
    asked: &[Asked],
    lines: &[Line],
) -> Result<TextLine, AllocError>
    requires { length asked.now ≡ length lines.now }
    ensures { IfOk result (λ line. line ≡ missed_line names.now asked.now lines.now) }
{
    let mut missed = String::new(alloc);
    push_all_missed(&mut missed, names, asked, lines)?;
    let mut line = TextLine::new(alloc, late_shape());
    line.show(&missed_count(lines))?;
    line.show(&lines.len())?;
    line.add(missed)?;
    Ok(line)
}

/// Returns the verdict of messages with bounds.
fn bounded_line(
    alloc: Global,
    names: &Names,
    asked: &[Asked],
    lines: &[Line],
) -> Result<TextLine, AllocError>
    requires { length asked.now ≡ length lines.now }
    ensures { IfOk result (λ line. line ≡ bounded_line names.now asked.now lines.now) }
{
    if missed_count(lines) == 0 {
        line_of_text(alloc, verdict_shape(), "all deadlines met")
    } else {
        missed_line(alloc, names, asked, lines)
    }
}

/// Adds that a message's jitter leaves nothing of its period.
fn push_jittered(text: &mut String, a: &str, message: &MessageWait) -> Result<(), AllocError>
    ensures { OnOk result (GrowsBy text.old text.new (no_period_words a.now message.now)) }
{
    text.push_str("the jitter of ")?;
    push_id(text, &message.frame)?;
    write!(text, " of {a} isn't less than its period")
}

/// Adds that a bus may be full, or that the search found no bounds.
fn push_load(text: &mut String, load: u128) -> Result<(), AllocError>
    ensures { OnOk result (GrowsBy text.old text.new (load_words load)) }
{
    if load > 10_000 {
        let load = Hundredths(load);
        write!(text, "the bus load is up to {load} %")
    } else {
        text.push_str("the search found none")
    }
}

/// True if nothing is left of the period of message `e`.
fn has_no_period(asked: &[Asked], e: usize) -> bool
    requires { e < length asked.now }
    ensures { result ≡ has_no_period asked.now e }
{
    asked[e].message.every == 0
}

/// Returns the first message of whose period nothing is left.
pub(crate) fn first_jittered(asked: &[Asked]) -> Option<usize>
    ensures first { result ≡ first_place (has_no_period asked.now) (length asked.now) }
    ensures inside { IfSome result (λ e. e < length asked.now) }
{
    let mut first = None;
    for e in 0..asked.len() {
        if first.is_none() && has_no_period(asked, e) {
            first = Some(e);
        }
    }
    first
}

/// Adds why there is no bound, by the first message of whose period nothing is left.
fn push_open(
    text: &mut String,
    names: &Names,
    asked: &[Asked],
    load: u128,
    first: Option<usize>,
) -> Result<(), AllocError>
    requires { IfSome first (λ e. e < length asked.now) }
    ensures { OnOk result (GrowsBy text.old text.new (open_words names.now asked.now load first)) }
{
    match first {
        Some(e) => {
            let message = &asked[e].message;
            push_jittered(text, names.name_of(message.node as usize), message)
        }
        None => push_load(text, load),
    }
}

/// Returns the verdict of messages without bounds.
fn open_line(
    alloc: Global,
    names: &Names,
    asked: &[Asked],
    load: u128,
) -> Result<TextLine, AllocError>
    ensures { IfOk result (λ line. line ≡ open_line names.now asked.now load) }
{
    let mut reason = String::new(alloc);
    push_open(&mut reason, names, asked, load, first_jittered(asked))?;
    line_with(alloc, open_shape(), reason)
}

/// What the verdict is about.
#[derive(Clone, Copy)]
pub(crate) struct Outcome {
    /// The first premise that lacks.
    pub(crate) lacking: Option<Lacking>,
    /// Whether the messages have bounds.
    pub(crate) shown: bool,
    /// How busy the bus is at most, in hundredths of a per cent.
    pub(crate) load: u128,
}

/// Returns of waits what the verdict is about.
pub(crate) fn outcome_in(waits: &Waits) -> Outcome
    ensures { result ≡ outcome_in waits.now }
{
    Outcome {
        lacking: waits.lacking,
        shown: waits.shown,
        load: waits.load,
    }
}

/// Returns the verdict.
pub(crate) fn verdict_line(
    alloc: Global,
    names: &Names,
    asked: &[Asked],
    lines: &[Line],
    outcome: Outcome,
) -> Result<TextLine, AllocError>
    requires { length asked.now ≡ length lines.now }
    ensures { IfOk result (λ line. line
        ≡ verdict_line names.now asked.now lines.now outcome.shown outcome.load) }
{
    if outcome.shown {
        bounded_line(alloc, names, asked, lines)
    } else {
        open_line(alloc, names, asked, outcome.load)
    }
}
