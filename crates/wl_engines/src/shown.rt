//! Which part of a run a page shows.
ghost use Rattle.std.specs.Prelude.{◌≡◌, ◌*◌, ◌<◌, ◌++◌, length, IfOk, OnOk, string_bytes};
ghost use Rattle.wl_engines.specs.Shown.{chosen_by, is_long_run, is_none, is_whole_run, run_parts, shown_by, shown_text, pick_of, shown_window, span_text, ten_bits};
ghost use Rattle.wl_report.specs.Lines.{GrowsBy};
ghost use Rattle.wl_serial.specs.Outcome.{counted_of, drives_of, outcome_of};
ghost use Rattle.wl_views.specs.Windows.{span_of};

use crate::view::WHOLE;
use std::alloc::{AllocError, Global};
use wl_plan::CheckedPlan;
use wl_serial::{Counted, Drives};
use wl_views::{Pick, Span, Window, first_error_tick, thousandths};

/// How many bits of all nodes together a page shows at once. That is some 5 MB; at half of them a page has half its bytes, at twice
/// the number twice.
const MOST_BITS: u64 = 100_000;

/// True if there is no such tick.
fn is_none(to: Option<u64>) -> bool
    ensures { result ≡ is_none to }
{
    match to {
        None => true,
        Some(_) => false,
    }
}

/// True if a window leaves out no tick.
pub(crate) fn is_whole_run(window: Window) -> bool
    ensures { result ≡ is_whole_run window }
{
    window.from == 0 && is_none(window.to)
}

/// Returns how many ticks ten bits of the first node take.
fn ten_bits(plan: &CheckedPlan) -> u64
    ensures { result ≡ ten_bits plan.now }
{
    plan.laws();
    let node = &plan.nodes.as_slice()[0];
    let quanta = node.segments.bit_quanta();
    node.clock.at(10 * quanta).saturating_sub(node.clock.at(0))
}

/// Returns ten times the number of nodes.
fn tens(plan: &CheckedPlan) -> u64
    ensures value { result ≡ 10 * length plan.now.nodes }
    ensures some { 0 < result }
{
    plan.laws();
    10 * plan.nodes.len() as u64
}

/// True if the bits of all nodes together are more than a page shows at once.
fn is_long_run(plan: &CheckedPlan) -> bool
    ensures { result ≡ is_long_run plan.now }
{
    let shown = MOST_BITS as u128 * ten_bits(plan) as u128;
    let all = tens(plan) as u128 * plan.end as u128;
    shown < all
}

/// Returns ten bits before an error and ten after it; or, if there is no error, the bits that a page shows.
fn chosen_by(plan: &CheckedPlan, error: Option<u64>) -> Window
    ensures { result ≡ chosen_by plan.now error }
{
    let ten = ten_bits(plan);
    let end = plan.end as u128;
    match error {
        Some(tick) => Window {
            from: tick.saturating_sub(ten),
            to: Some((tick as u128 + ten as u128).min(end) as u64),
        },
        None => Window {
            from: 0,
            to: Some((MOST_BITS as u128 * ten as u128 / tens(plan) as u128).min(end) as u64),
        },
    }
}

/// Returns the window of a page of a simulation, in which drives changed so: that which is asked for. If none is, and the run is long, it is the one
/// around its first error, or its begin.
fn shown_window(
    alloc: Global,
    window: Window,
    plan: &CheckedPlan,
    drives: &Drives,
) -> Result<Window, AllocError>
    requires drives { drives.now ≡ drives_of (outcome_of plan.now) }
    ensures { IfOk result (λ shown. shown ≡ shown_window window plan.now) }
{
    if is_whole_run(window) && is_long_run(plan) {
        let error = first_error_tick(alloc, plan, drives)?;
        return Ok(chosen_by(plan, error));
    }
    Ok(window)
}

/// Returns the window of a page of a simulation, in which drives changed so: the same if one is asked for, and else all of it.
pub(crate) fn shown_by(
    alloc: Global,
    asked: Option<Window>,
    plan: &CheckedPlan,
    drives: &Drives,
) -> Result<Window, AllocError>
    requires drives { drives.now ≡ drives_of (outcome_of plan.now) }
    ensures { IfOk result (λ shown. shown ≡ shown_by asked plan.now) }
{
    match asked {
        None => Ok(WHOLE),
        Some(window) => shown_window(alloc, window, plan, drives),
    }
}

/// Adds the ticks of a span, and the end of a run.
fn push_span(text: &mut String, span: Span, end: u64) -> Result<(), AllocError>
    ensures { OnOk result (GrowsBy text.old text.new (span_text span end)) }
{
    let (from, to) = (span.from, span.to);
    writeln!(text, "{from} {to} {end}")
}

/// Returns a simulation, in which this was counted, in a thousand parts.
fn parts_of(alloc: Global, plan: &CheckedPlan, counted: &Counted) -> Result<String, AllocError>
    requires counted { counted.now ≡ counted_of (outcome_of plan.now) }
    ensures { IfOk result (λ text. string_bytes text ≡ run_parts plan.now) }
{
    thousandths(alloc, plan, counted)
}

/// Returns which part of a simulation, in which this was counted, a window has, and the run in a thousand parts.
fn part_of(
    alloc: Global,
    window: Window,
    plan: &CheckedPlan,
    counted: &Counted,
) -> Result<String, AllocError>
    requires counted { counted.now ≡ counted_of (outcome_of plan.now) }
    ensures { IfOk result (λ text. string_bytes text
        ≡ span_text (span_of window plan.now.end) plan.now.end ++ run_parts plan.now) }
{
    let parts = parts_of(alloc, plan, counted)?;
    let mut text = String::new(alloc);
    push_span(&mut text, window.span(plan.end), plan.end)?;
    text.push_str(parts.as_str())?;
    Ok(text)
}

/// Returns the same; no letter if the window has all of it.
pub(crate) fn shown_text(
    alloc: Global,
    window: Window,
    plan: &CheckedPlan,
    counted: &Counted,
) -> Result<String, AllocError>
    requires counted { counted.now ≡ counted_of (outcome_of plan.now) }
    ensures { IfOk result (λ text. string_bytes text ≡ shown_text window plan.now) }
{
    if is_whole_run(window) {
        return Ok(String::new(alloc));
    }
    part_of(alloc, window, plan, counted)
}

/// Returns that all events of a window are picked.
pub(crate) fn pick_of(window: Window) -> Pick
    ensures { result ≡ pick_of window }
{
    Pick {
        window,
        node: None,
        only: None,
    }
}
