//! The lines of bounds: how long each message waits at most.
ghost use Rattle.std.specs.Prelude.{◌≡◌, ◌<◌, length, IfSome, OnOk};
ghost use Rattle.wl_margin.specs.Pieces.{each_below};
ghost use Rattle.wl_report.specs.Lines.{GrowsBy};
ghost use Rattle.wl_traffic.specs.Bounds.{bound_line_at, bound_head, bound_line, bound_lines, bound_times};

use std::alloc::AllocError;
use wl_margin::Thousandths;
use wl_report::push_id;
use wl_respond::{Asked, Line, MessageWait, ONCE, Parts, Waits};
use wl_setup::Names;

/// Adds which message has a bound.
fn push_head(text: &mut String, names: &Names, message: &MessageWait) -> Result<(), AllocError>
    ensures { OnOk result (GrowsBy text.old text.new (bound_head names.now message.now)) }
{
    let node = message.node;
    let name = names.name_of(node as usize);
    write!(text, "bound {node} {name} ")?;
    push_id(text, &message.frame)
}

/// Adds the bound.
fn push_times(text: &mut String, parts: Parts) -> Result<(), AllocError>
    ensures { OnOk result (GrowsBy text.old text.new (bound_times parts)) }
{
    let quanta = parts.quanta;
    let time = Thousandths(parts.bound);
    writeln!(text, " at most {quanta} quanta {time} us, proved")
}

/// Adds the line of a message, if it has a bound.
fn push_line(
    text: &mut String,
    names: &Names,
    message: &MessageWait,
    parts: Option<Parts>,
) -> Result<(), AllocError>
    ensures { OnOk result (GrowsBy text.old text.new (bound_line names.now message.now parts)) }
{
    match parts {
        Some(parts) => {
            push_head(text, names, message)?;
            push_times(text, parts)
        }
        None => Ok(()),
    }
}

/// Adds the line of message `e`, if it comes again.
fn push_line_at(
    text: &mut String,
    names: &Names,
    asked: &[Asked],
    lines: &[Line],
    e: usize,
) -> Result<(), AllocError>
    requires message { e < length asked.now }
    requires line { e < length lines.now }
    ensures { OnOk result (GrowsBy text.old text.new (bound_line_at names.now asked.now lines.now e)) }
{
    if asked[e].every == ONCE {
        return Ok(());
    }
    push_line(text, names, &asked[e].message, lines[e].parts)
}

/// Adds the lines of all messages that come again.
fn push_lines(
    text: &mut String,
    names: &Names,
    asked: &[Asked],
    lines: &[Line],
) -> Result<(), AllocError>
    requires { length asked.now ≡ length lines.now }
    ensures { OnOk result (GrowsBy text.old text.new
        (each_below (bound_line_at names.now asked.now lines.now) (length lines.now))) }
{
    for e in 0..lines.len() {
        push_line_at(text, names, asked, lines, e)?;
    }
    Ok(())
}

/// Adds the lines of a bus's messages, if their bounds are proved.
pub(crate) fn push_bounds(
    text: &mut String,
    names: &Names,
    waits: &Option<Waits>,
) -> Result<(), AllocError>
    requires { IfSome waits.now (λ w. length w.asked ≡ length w.lines) }
    ensures { OnOk result (GrowsBy text.old text.new (bound_lines names.now waits.now)) }
{
    match waits {
        Some(waits) => {
            if waits.lacking.is_some() {
                return Ok(());
            }
            push_lines(text, names, waits.asked.as_slice(), waits.lines.as_slice())
        }
        None => Ok(()),
    }
}
