//! A run in equal parts.
ghost use Rattle.std.specs.Prelude.{◌≡◌, ◌+◌, ◌≤◌, ◌<◌, OnOk, IfOk, string_bytes};
ghost use Rattle.wl_plan.specs.Limits.{latest_end};
ghost use Rattle.wl_report.specs.Lines.{GrowsBy};
ghost use Rattle.wl_serial.specs.Outcome.{counted_of, outcome_of};
ghost use Rattle.wl_views.specs.Parts.{between_text, bits_between, errors_between, unstuffed_bits, frames_between, is_between_ticks, part_begin, part_line, parts_by, thousandths_text};

use crate::laws::sent_in_time;
use crate::pick::Pick;
use crate::sent_frames::all_sent;
use crate::told::told_in_order;
use std::alloc::{AllocError, Global};
use wl_frame::frame::Frame;
use wl_plan::CheckedPlan;
use wl_serial::Counted;
use wl_trace::Noted;

/// True if a tick is between two, or the first of them.
fn is_between_ticks(from: u64, to: u64, tick: u64) -> bool
    ensures { result ≡ is_between_ticks from to tick }
{
    from <= tick && tick < to
}

/// Returns the bits of a frame and of the intermission after it, without stuff bits.
fn unstuffed_bits(frame: &Frame) -> u128
    ensures value { result ≡ unstuffed_bits frame.now }
    ensures most { result ≤ 131 }
{
    let bare = if frame.is_extended() { 67 } else { 47 };
    let carried = if frame.remote() {
        0
    } else {
        8 * frame.dlc().min(8)
    };
    bare + u128::from(carried)
}

/// Returns how many frames were completed between two ticks.
fn frames_between(from: u64, to: u64, sent: &[(u64, Frame)]) -> u128
    ensures { result ≡ frames_between from to sent.now }
{
    let mut count = 0;
    for (tick, _) in sent {
        count += if is_between_ticks(from, to, *tick) {
            1
        } else {
            0
        };
    }
    count
}

/// Returns how many bits these frames have.
fn bits_between(from: u64, to: u64, sent: &[(u64, Frame)]) -> u128
    ensures { result ≡ bits_between from to sent.now }
{
    let mut bits = 0;
    for (tick, frame) in sent {
        bits += if is_between_ticks(from, to, *tick) {
            unstuffed_bits(frame)
        } else {
            0
        };
    }
    bits
}

/// Returns how many errors were found between two ticks.
fn errors_between(from: u64, to: u64, errors: &[(u64, (usize, Noted))]) -> u128
    ensures { result ≡ errors_between from to errors.now }
{
    let mut count = 0;
    for (tick, _) in errors {
        count += if is_between_ticks(from, to, *tick) {
            1
        } else {
            0
        };
    }
    count
}

/// Adds what was sent and found between two ticks.
fn push_between(
    text: &mut String,
    sent: &[(u64, Frame)],
    errors: &[(u64, (usize, Noted))],
    from: u64,
    to: u64,
) -> Result<(), AllocError>
    ensures { OnOk result (GrowsBy text.old text.new (between_text sent.now errors.now from to)) }
{
    let frames = frames_between(from, to, sent);
    let bits = bits_between(from, to, sent);
    let found = errors_between(from, to, errors);
    writeln!(text, "{frames} {bits} {found}")
}

/// Returns the first tick of part `k` of a thousand.
fn part_begin(end: u64, k: u64) -> u64
    requires end { end ≤ latest_end }
    requires part { k ≤ 1000 }
    ensures { result ≡ part_begin end k }
{
    k * end / 1_000
}

/// Adds what was sent and found in part `k` of a thousand.
fn push_part(
    text: &mut String,
    end: u64,
    sent: &[(u64, Frame)],
    errors: &[(u64, (usize, Noted))],
    k: u64,
) -> Result<(), AllocError>
    requires end { end ≤ latest_end }
    requires part { k < 1000 }
    ensures { OnOk result (GrowsBy text.old text.new (part_line end sent.now errors.now k)) }
{
    let from = part_begin(end, k);
    let to = part_begin(end, k + 1);
    push_between(text, sent, errors, from, to)
}

/// Returns a line for each thousandth of a run with this end: how many frames were completed in it, how many bits they have, and how many
/// errors were found.
fn parts_by(
    alloc: Global,
    end: u64,
    sent: &[(u64, Frame)],
    errors: &[(u64, (usize, Noted))],
) -> Result<String, AllocError>
    requires { end ≤ latest_end }
    ensures { IfOk result (λ text. string_bytes text ≡ parts_by end sent.now errors.now) }
{
    let mut text = String::new(alloc);
    for k in 0..1_000 {
        push_part(&mut text, end, sent, errors, k)?;
    }
    Ok(text)
}

/// Returns a plan's simulation, in which this was counted, in a thousand equal parts, a line for each: how many frames were completed in it,
/// how many bits these have without stuff bits but with the intermission after each, and how many errors nodes found. Refused only when out of
/// memory.
pub fn thousandths(
    alloc: Global,
    plan: &CheckedPlan,
    counted: &Counted,
) -> Result<String, AllocError>
    requires { counted.now ≡ counted_of (outcome_of plan.now) }
    ensures { IfOk result (λ text. string_bytes text ≡ thousandths_text plan.now) }
{
    plan.laws();
    sent_in_time();
    let sent = all_sent(alloc, plan, counted.totals.as_slice())?;
    let errors = told_in_order(alloc, &Pick::errors(), plan, &counted.drives)?;
    let text = parts_by(alloc, plan.end, &sent, &errors)?;
    Ok(text)
}
