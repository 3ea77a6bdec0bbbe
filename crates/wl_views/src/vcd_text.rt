//! The waveform, written by pieces as it is found.
ghost use Rattle.std.specs.Prelude.{◌≡◌, ℕ, ◌+◌, ◌-◌, ◌<◌, ◌≤◌, ◌++◌};
ghost use Rattle.std.specs.List.{flat_map, range_with_len};
ghost use Rattle.arrayvec.specs.ArrayVec.{array_vec_len};
ghost use Rattle.wl_device.specs.Devices.{Writes};
ghost use Rattle.wl_serial.specs.Outcome.{drives_of, outcome_of};
ghost use Rattle.wl_views.specs.Limits.{full_piece, longest_piece};
ghost use Rattle.wl_views.specs.Probe.{AllWatched, IsCalendarOf};
ghost use Rattle.wl_views.specs.Signals.{signals};
ghost use Rattle.wl_views.specs.Streams.{Streams};
ghost use Rattle.wl_views.specs.Vcd.{tick_lines, time_line, vcd_text};

use crate::calendar::Calendar;
use crate::dump::front;
use crate::fault::ViewFault;
use crate::limits::FULL_PIECE;
use crate::lines::{Lines, push_time};
use crate::probe::Probe;
use crate::signals::{all_probes, calendar_of, first_signals, push_changes};
use crate::stamp::Stamp;
use crate::tick::Tick;
use crate::window::{Span, Window};
use arrayvec::ArrayVec;
use std::alloc::Global;
use wl_device::{Sink, WriteFault, send};
use wl_plan::CheckedPlan;
use wl_serial::Drives;
use wl_setup::Names;

/// Adds what changes at tick `t` under its time, and returns a later tick up to which nothing changes again.
fn push_tick(
    text: &mut Lines,
    stamp: &mut Stamp,
    tick: Tick,
    plan: &CheckedPlan,
    drives: &Drives,
    t: u64,
    probes: &mut [Probe],
    calendar: &mut Calendar,
) -> u64
    requires drives { drives.now ≡ drives_of (outcome_of plan.now) }
    requires some { 0 < t }
    requires early { t < plan.now.end }
    requires probes { AllWatched plan.now (t - 1) probes.old }
    requires calendar { IsCalendarOf plan.now.end probes.old calendar.old }
    requires room { array_vec_len text.old ≤ full_piece }
    ensures lines { text.new.items ≡ text.old.items ++ tick_lines tick (signals plan.now) t }
    ensures grown { array_vec_len text.new ≤ longest_piece }
    ensures later { t < result }
    ensures inside { result ≤ plan.now.end }
    ensures stays { (u : ℕ) → t ≤ u → u < result → signals plan.now u ≡ signals plan.now t }
    ensures probes { AllWatched plan.now (result - 1) probes.new }
    ensures calendar { IsCalendarOf plan.now.end probes.new calendar.new }
{
    plan.laws();
    let before = text.len();
    push_time(text, stamp, tick, t);
    let timed = text.len();
    let until = push_changes(text, plan, drives, t, probes, calendar);
    if text.len() == timed {
        text.truncate(before);
    }
    until
}

/// Writes this front, all that changes at ticks of a span after its first one, and the time of its end, by pieces and without memory.
fn write_from<W: Sink>(
    front: &[u8],
    tick: Tick,
    span: Span,
    plan: &CheckedPlan,
    drives: &Drives,
    probes: &mut [Probe],
    writer: &mut W,
) -> Result<(), WriteFault>
    requires drives { drives.now ≡ drives_of (outcome_of plan.now) }
    requires begun { span.from ≤ plan.now.end - 1 }
    requires ended { span.to ≤ plan.now.end }
    requires probes { AllWatched plan.now span.from probes.old }
    ensures { Writes W.takes writer.old
        (front.now ++ (flat_map (tick_lines tick (signals plan.now))
        (range_with_len (span.from + 1) (span.to - (span.from + 1))) ++ time_line tick span.to))
        result writer.new }
{
    plan.laws();
    let mut calls = match send(front, writer, 0) {
        Ok(made) => made,
        Err(fault) => return Err(fault),
    };
    let mut calendar = calendar_of(plan, probes);
    let mut text: Lines = ArrayVec::new();
    let mut stamp = Stamp::new();
    let mut t = span.from + 1;
    while t < span.to {
        if text.len() > FULL_PIECE {
            calls = match send(text.as_slice(), writer, calls) {
                Ok(made) => made,
                Err(fault) => return Err(fault),
            };
            text.clear();
        }
        t = push_tick(
            &mut text,
            &mut stamp,
            tick,
            plan,
            drives,
            t,
            probes,
            &mut calendar,
        );
    }
    push_time(&mut text, &mut stamp, tick, span.to);
    match send(text.as_slice(), writer, calls) {
        Ok(_) => Ok(()),
        Err(fault) => Err(fault),
    }
}

/// Writes the Value Change Dump of a window of a plan's simulation, under these names of its nodes, by pieces; `drives` are the changes of its
/// drives.
///
/// The dump has all values at the window's first tick, or at the last of the run if the window begins later. Then it has the changes at each
/// tick after it and below the window's end, or the run's.
///
/// Memory is asked for before the first write. If it runs out, the writer isn't called; if the writer fails, a prefix of the dump has been
/// written.
pub fn vcd<W: Sink>(
    alloc: Global,
    tick: Tick,
    window: Window,
    plan: &CheckedPlan,
    names: &Names,
    drives: &Drives,
    writer: &mut W,
) -> Result<(), ViewFault>
    requires drives { drives.now ≡ drives_of (outcome_of plan.now) }
    ensures { Streams W.takes writer.old (vcd_text tick window plan.now names.now) writer.new result }
{
    plan.laws();
    let span = window.span(plan.end);
    let mut probes = all_probes(alloc, plan, drives, span.from)?;
    let now = first_signals(alloc, plan, &probes)?;
    let front = front(alloc, tick, names, span.from, &now)?;
    let written = write_from(
        front.as_bytes(),
        tick,
        span,
        plan,
        drives,
        &mut probes,
        writer,
    );
    match written {
        Ok(()) => Ok(()),
        Err(fault) => Err(ViewFault::from(fault)),
    }
}
