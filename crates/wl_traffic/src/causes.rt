//! The lines before the verdict: what it rests on.
ghost use Rattle.std.specs.Prelude.{◌≡◌, OnOk};
ghost use Rattle.wl_report.specs.Lines.{GrowsBy};
ghost use Rattle.std.specs.List.{list_any};
ghost use Rattle.wl_views.specs.Ticks.{microseconds};
ghost use Rattle.wl_traffic.specs.Causes.{cause_lines, deaf_line, deaf_lines, full_line, full_words, late_lines, late_times, late_word, late_head, line_of_late};
ghost use Rattle.wl_traffic.specs.Reasons.{is_stuck};

use crate::found::Found;
use crate::late::LateMessage;
use crate::reason::{Reason, is_stuck, misses_frames, most_passed};
use std::alloc::AllocError;
use wl_report::push_id;
use wl_serial::NodeTotals;
use wl_setup::Names;
use wl_views::Tick;

/// Returns the whole microseconds that this many ticks take.
pub(crate) fn microseconds_of(tick: Tick, ticks: u64) -> u128
    ensures { result ≡ microseconds tick ticks }
{
    u128::from(ticks) * u128::from(tick.picoseconds()) / 1_000_000
}

/// Returns how the line of a late message begins.
fn late_word(beaten: bool) -> &'static str
    ensures { result.now ≡ late_word beaten }
{
    if beaten { "starved" } else { "overloads" }
}

/// Adds which message is late.
fn push_late_words(
    text: &mut String,
    names: &Names,
    message: &LateMessage,
) -> Result<(), AllocError>
    ensures { OnOk result (GrowsBy text.old text.new (late_head names.now message.now)) }
{
    let word = late_word(message.beaten);
    let name = names.name_of(message.node);
    write!(text, "{word} {name} ")?;
    push_id(text, &message.frame)
}

/// Adds for how long a late message waits, and for how long it may, both in microseconds.
fn push_late_times(text: &mut String, waited: u128, allowed: u128) -> Result<(), AllocError>
    ensures { OnOk result (GrowsBy text.old text.new (late_times waited allowed)) }
{
    writeln!(text, " waits {waited} us allowed {allowed} us")
}

/// Adds the line of a late message.
fn push_late_line(
    text: &mut String,
    tick: Tick,
    names: &Names,
    message: &LateMessage,
) -> Result<(), AllocError>
    ensures { OnOk result (GrowsBy text.old text.new (line_of_late tick names.now message.now)) }
{
    let waited = microseconds_of(tick, message.waited);
    let allowed = microseconds_of(tick, message.allowed);
    push_late_words(text, names, message)?;
    push_late_times(text, waited, allowed)
}

/// Adds the lines of late messages.
fn push_late_lines(
    text: &mut String,
    tick: Tick,
    names: &Names,
    late: &[LateMessage],
) -> Result<(), AllocError>
    ensures { OnOk result (GrowsBy text.old text.new (late_lines tick names.now late.now)) }
{
    for message in late {
        push_late_line(text, tick, names, message)?;
    }
    Ok(())
}

/// True if a late frame waits at the end, and the bus had no pause for longer than it may.
fn any_stuck(full: u64, late: &[LateMessage]) -> bool
    ensures { result ≡ list_any (is_stuck full) late.now }
{
    late.iter().any(|message| is_stuck(full, message))
}

/// Adds for how many microseconds the bus had no pause at the end.
fn push_full_words(text: &mut String, time: u128) -> Result<(), AllocError>
    ensures { OnOk result (GrowsBy text.old text.new (full_words time)) }
{
    writeln!(text, "full for the last {time} us")
}

/// Adds for how long the bus had no pause at the end, if a late frame waits there.
fn push_full(
    text: &mut String,
    tick: Tick,
    full: u64,
    late: &[LateMessage],
) -> Result<(), AllocError>
    ensures { OnOk result (GrowsBy text.old text.new (full_line tick full late.now)) }
{
    if !any_stuck(full, late) {
        return Ok(());
    }
    let time = microseconds_of(tick, full);
    push_full_words(text, time)
}

/// Adds the line of node `i` if fewer frames than this many passed through it.
fn push_deaf_line(
    text: &mut String,
    names: &Names,
    most: usize,
    i: usize,
    node: &NodeTotals,
) -> Result<(), AllocError>
    ensures { OnOk result (GrowsBy text.old text.new (deaf_line names.now most (i, node.now))) }
{
    if !misses_frames(most, node) {
        return Ok(());
    }
    let name = names.name_of(i);
    let passed = node.frames.len();
    writeln!(text, "deaf {name} {passed} of {most} frames")
}

/// Adds the lines of the nodes that missed frames.
fn push_deaf_lines(text: &mut String, names: &Names, nodes: &[NodeTotals]) -> Result<(), AllocError>
    ensures { OnOk result (GrowsBy text.old text.new (deaf_lines names.now nodes.now)) }
{
    let most = most_passed(nodes);
    for k in 0..nodes.len() {
        push_deaf_line(text, names, most, k, &nodes[k])?;
    }
    Ok(())
}

/// Adds the lines of what was found of a run with these nodes.
pub(crate) fn push_causes(
    text: &mut String,
    tick: Tick,
    names: &Names,
    found: &Found,
    nodes: &[NodeTotals],
) -> Result<(), AllocError>
    ensures { OnOk result (GrowsBy text.old text.new (cause_lines tick names.now found.now nodes.now)) }
{
    let late = found.late.as_slice();
    match found.reason {
        Reason::Overloaded => {
            push_full(text, tick, found.load.full, late)?;
            push_late_lines(text, tick, names, late)
        }
        Reason::Starved => push_late_lines(text, tick, names, late),
        Reason::Deaf => push_deaf_lines(text, names, nodes),
        _ => Ok(()),
    }
}
