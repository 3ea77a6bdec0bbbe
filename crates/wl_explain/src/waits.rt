//! Which messages may wait for too long.
ghost use Rattle.std.specs.Prelude.{◌≡◌, ◌<◌, length, IfSome, OnOk};
ghost use Rattle.wl_margin.specs.Pieces.{each_below};
ghost use Rattle.wl_report.specs.Lines.{GrowsBy};
ghost use Rattle.wl_respond.specs.Texts.{misses};
ghost use Rattle.wl_explain.specs.Waits.{doubts_of, full_doubt, jitter_tail, jitter_words, overdue_at, overdue_head, overdue_line, overdue_times, open_doubt, wait_doubts};

use std::alloc::AllocError;
use wl_margin::{Hundredths, Thousandths};
use wl_report::push_id;
use wl_respond::{Asked, Line, MessageWait, Met, Waits};
use wl_setup::Names;

/// Adds which message may miss its deadline.
fn push_head(text: &mut String, names: &Names, message: &MessageWait) -> Result<(), AllocError>
    ensures { OnOk result (GrowsBy text.old text.new (overdue_head names.now message.now)) }
{
    text.push_str("doubt: ")?;
    push_id(text, &message.frame)?;
    text.push_str(" of ")?;
    text.push_str(names.name_of(message.node as usize))
}

/// Adds how long it may take, and its deadline, in thousandths of a microsecond.
fn push_times(text: &mut String, time: u128, deadline: u128) -> Result<(), AllocError>
    ensures { OnOk result (GrowsBy text.old text.new (overdue_times time deadline)) }
{
    let time = Thousandths(time);
    let deadline = Thousandths(deadline);
    writeln!(
        text,
        " may take {time} us, and its deadline is {deadline} us"
    )
}

/// Adds the doubt of a message that may miss its deadline.
fn push_line(
    text: &mut String,
    names: &Names,
    message: &MessageWait,
    line: &Line,
) -> Result<(), AllocError>
    ensures { OnOk result (GrowsBy text.old text.new (overdue_line names.now message.now line.now)) }
{
    match (line.parts, line.deadline) {
        (Some(parts), Some(deadline)) => {
            let time = parts.bound.saturating_add(line.jitter);
            push_head(text, names, message)?;
            push_times(text, time, deadline)
        }
        _ => Ok(()),
    }
}

/// True if a message may miss its deadline.
fn misses(lines: &[Line], e: usize) -> bool
    requires { e < length lines.now }
    ensures { result ≡ misses lines.now e }
{
    match lines[e].met {
        Met::InTime => false,
        Met::Late => true,
        Met::Open => false,
    }
}

/// Adds the doubt of message `e`, if it may miss its deadline.
fn push_line_at(
    text: &mut String,
    names: &Names,
    asked: &[Asked],
    lines: &[Line],
    e: usize,
) -> Result<(), AllocError>
    requires message { e < length asked.now }
    requires line { e < length lines.now }
    ensures { OnOk result (GrowsBy text.old text.new (overdue_at names.now asked.now lines.now e)) }
{
    if misses(lines, e) {
        push_line(text, names, &asked[e].message, &lines[e])
    } else {
        Ok(())
    }
}

/// Adds the doubts of all messages.
fn push_lines(
    text: &mut String,
    names: &Names,
    asked: &[Asked],
    lines: &[Line],
) -> Result<(), AllocError>
    requires { length asked.now ≡ length lines.now }
    ensures { OnOk result (GrowsBy text.old text.new
        (each_below (overdue_at names.now asked.now lines.now) (length lines.now))) }
{
    for e in 0..lines.len() {
        push_line_at(text, names, asked, lines, e)?;
    }
    Ok(())
}

/// Adds whose message has a jitter that leaves nothing of its period.
fn push_jitter_tail(text: &mut String, a: &str) -> Result<(), AllocError>
    ensures { OnOk result (GrowsBy text.old text.new (jitter_tail a.now)) }
{
    writeln!(text, " of {a} isn't less than its period")
}

/// Adds a message whose jitter leaves nothing of its period.
fn push_jitter(text: &mut String, names: &Names, message: &MessageWait) -> Result<(), AllocError>
    ensures { OnOk result (GrowsBy text.old text.new (jitter_words names.now message.now)) }
{
    text.push_str("doubt: the jitter of ")?;
    push_id(text, &message.frame)?;
    push_jitter_tail(text, names.name_of(message.node as usize))
}

/// Adds a bus that may be full, in hundredths of a per cent.
fn push_full(text: &mut String, load: u128) -> Result<(), AllocError>
    ensures { OnOk result (GrowsBy text.old text.new (full_doubt load)) }
{
    if load > 10_000 {
        let load = Hundredths(load);
        writeln!(
            text,
            "doubt: the bus load is up to {load} %, so no wait is bounded"
        )
    } else {
        Ok(())
    }
}

/// Adds why no wait is bounded.
fn push_open(
    text: &mut String,
    names: &Names,
    asked: &[Asked],
    load: u128,
    jittered: Option<usize>,
) -> Result<(), AllocError>
    requires { IfSome jittered (λ e. e < length asked.now) }
    ensures { OnOk result (GrowsBy text.old text.new (open_doubt names.now asked.now load jittered)) }
{
    match jittered {
        Some(e) => push_jitter(text, names, &asked[e].message),
        None => push_full(text, load),
    }
}

/// Adds the doubts of a bus with these waits.
fn push_doubts(text: &mut String, names: &Names, waits: &Waits) -> Result<(), AllocError>
    requires lines { length waits.now.asked ≡ length waits.now.lines }
    requires jittered { IfSome waits.now.jittered (λ e. e < length waits.now.asked) }
    ensures { OnOk result (GrowsBy text.old text.new (doubts_of names.now waits.now.shown waits.now)) }
{
    let asked = waits.asked.as_slice();
    if waits.shown {
        push_lines(text, names, asked, waits.lines.as_slice())
    } else {
        push_open(text, names, asked, waits.load, waits.jittered)
    }
}

/// Adds which messages may wait for too long, if the waits of the bus are known.
pub(crate) fn push_waits(
    text: &mut String,
    names: &Names,
    waits: &Option<Waits>,
) -> Result<(), AllocError>
    requires lines { IfSome waits.now (λ w. length w.asked ≡ length w.lines) }
    requires jittered { IfSome waits.now (λ w. IfSome w.jittered (λ e. e < length w.asked)) }
    ensures { OnOk result (GrowsBy text.old text.new (wait_doubts names.now waits.now)) }
{
    match waits {
        Some(waits) => push_doubts(text, names, waits),
        None => Ok(()),
    }
}
