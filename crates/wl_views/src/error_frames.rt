//! The log of can-utils with error frames.
ghost use Rattle.std.specs.Prelude.{◌≡◌, ◌<◌, ◌≤◌, ◌++◌, OnOk, IfOk};
ghost use Rattle.std.specs.List.{flat_map};
ghost use Rattle.wl_serial.specs.Outcome.{drives_of, outcome_of};
ghost use Rattle.wl_views.specs.Digits.{Extends, digits_of};
ghost use Rattle.wl_views.specs.ErrorFrames.{class_word, error_log, error_frame_words, event_line, kind_code, location_by, log_start, logged, mode_words, off_words, passive_code, status_words, logged_line, type_code};

use crate::digits::push_digits;
use crate::log::{push_line, push_time};
use crate::pick::{EventKind, Pick};
use crate::tick::Tick;
use crate::told::told_in_order;
use crate::window::Window;
use std::alloc::{AllocError, Global};
use wl_confine::{Counters, ErrorKind, Mode};
use wl_plan::CheckedPlan;
use wl_serial::Drives;
use wl_trace::{FrameField, FramePlace, NodeEvent, Noted};

/// Returns where in a frame a place is, by the numbers of linux/can/error.h.
fn location_by(place: FramePlace) -> u8
    ensures { result ≡ location_by place.field place.bit }
{
    let bit = place.bit;
    match place.field {
        FrameField::StartOfFrame => 0x03,
        FrameField::Identifier => if bit < 8 { 0x02 } else { 0x06 },
        FrameField::SubstituteRemoteRequest => 0x04,
        FrameField::IdentifierExtension => 0x05,
        FrameField::ExtendedIdentifier => {
            if bit < 5 {
                0x07
            } else if bit < 13 {
                0x0f
            } else {
                0x0e
            }
        }
        FrameField::RemoteRequest => 0x0c,
        FrameField::Reserved1 => 0x0d,
        FrameField::Reserved0 => 0x09,
        FrameField::DataLengthCode => 0x0b,
        FrameField::Data => 0x0a,
        FrameField::CrcSequence => 0x08,
        FrameField::CrcDelimiter => 0x18,
        FrameField::AckSlot => 0x19,
        FrameField::AckDelimiter => 0x1b,
        FrameField::EndOfFrame => 0x1a,
        FrameField::FlagDelimiter => 0x17,
    }
}

/// Returns what is wrong, by the bits of linux/can/error.h.
fn kind_code(kind: ErrorKind) -> u8
    ensures value { result ≡ kind_code kind }
    ensures most { result ≤ 4 }
{
    match kind {
        ErrorKind::Bit => 0x01,
        ErrorKind::Stuff => 0x04,
        ErrorKind::Form => 0x02,
        ErrorKind::Crc | ErrorKind::Ack => 0x00,
    }
}

/// Returns the same, with the bit of a transmitter.
fn type_code(kind: ErrorKind, sends: bool) -> u8
    ensures { result ≡ type_code kind sends }
{
    let code = kind_code(kind);
    if sends { code + 0x80 } else { code }
}

/// Returns the class of an error, and its first two bytes.
fn class_word(kind: ErrorKind) -> &'static str
    ensures { result.now ≡ class_word kind }
{
    match kind {
        ErrorKind::Bit | ErrorKind::Stuff | ErrorKind::Form | ErrorKind::Crc => "20000088#0000",
        ErrorKind::Ack => "200000A8#0000",
    }
}

/// Adds the class of an error and its bytes.
fn push_error(
    text: &mut Vec<u8>,
    kind: ErrorKind,
    sends: bool,
    place: FramePlace,
) -> Result<(), AllocError>
    ensures { OnOk result (Extends text.old text.new (error_frame_words kind sends place)) }
{
    text.extend_from_slice(class_word(kind).as_bytes())?;
    push_digits(text, 16, 2, u128::from(type_code(kind, sends)))?;
    push_digits(text, 16, 2, u128::from(location_by(place)))?;
    text.extend_from_slice(b"00000000\n")
}

/// Returns which counters are passive, by the bits of linux/can/error.h.
fn passive_code(counters: Counters) -> u8
    ensures { result ≡ passive_code counters }
{
    let tec = if 127 < counters.tec() { 0x20 } else { 0x00 };
    let rec = if 127 < counters.rec() { 0x10 } else { 0x00 };
    tec + rec
}

/// Adds a status of a controller with its counters.
fn push_status(text: &mut Vec<u8>, status: u8, counters: Counters) -> Result<(), AllocError>
    ensures { OnOk result (Extends text.old text.new (status_words status counters)) }
{
    text.extend_from_slice(b"20000204#00")?;
    push_digits(text, 16, 2, u128::from(status))?;
    text.extend_from_slice(b"00000000")?;
    push_digits(text, 16, 2, u128::from(counters.tec().min(255)))?;
    push_digits(text, 16, 2, u128::from(counters.rec().min(255)))?;
    text.extend_from_slice(b"\n")
}

/// Adds what a controller reports of a mode that these counters give.
fn push_mode(text: &mut Vec<u8>, mode: Mode, counters: Counters) -> Result<(), AllocError>
    ensures { OnOk result (Extends text.old text.new (mode_words mode counters)) }
{
    match mode {
        Mode::Active => push_status(text, 0x40, counters),
        Mode::Passive => push_status(text, passive_code(counters), counters),
        Mode::Off => text.extend_from_slice(b"20000040#0000000000000000\n"),
    }
}

/// Adds when, and on which interface.
fn push_start(text: &mut Vec<u8>, tick: Tick, from: u32, at: u64) -> Result<(), AllocError>
    ensures { OnOk result (Extends text.old text.new (log_start tick from at)) }
{
    text.extend_from_slice(b"(")?;
    push_time(text, from, tick.microseconds(at))?;
    text.extend_from_slice(b") can0 ")
}

/// Adds the line of an event, if it has one.
fn push_event(
    text: &mut Vec<u8>,
    tick: Tick,
    from: u32,
    at: u64,
    event: NodeEvent,
) -> Result<(), AllocError>
    ensures { OnOk result (Extends text.old text.new (event_line tick from at event)) }
{
    match event {
        NodeEvent::Sent(frame) => push_line(text, tick, from, at, &frame),
        NodeEvent::Error {
            kind,
            sends,
            place,
            ..
        } => {
            push_start(text, tick, from, at)?;
            push_error(text, kind, sends, place)
        }
        NodeEvent::ModeChanged(counters) => {
            push_start(text, tick, from, at)?;
            push_mode(text, counters.mode(), counters)
        }
        NodeEvent::ArbitrationLost(_)
        | NodeEvent::Flag(_)
        | NodeEvent::Received(_)
        | NodeEvent::HardSynchronised
        | NodeEvent::Resynchronised(_) => Ok(()),
    }
}

/// Adds the lines of these events.
fn push_events(
    text: &mut Vec<u8>,
    tick: Tick,
    from: u32,
    told: &[(u64, (usize, Noted))],
) -> Result<(), AllocError>
    ensures { OnOk result (Extends text.old text.new (flat_map (logged_line tick from) told.now)) }
{
    for (at, (_, noted)) in told {
        push_event(text, tick, from, *at, noted.event)?;
    }
    Ok(())
}

/// Returns that frames that were sent, errors and modes are picked within a window.
fn logged(window: Window) -> Pick
    ensures { result ≡ logged window }
{
    Pick {
        window,
        node: None,
        only: Some(EventKind::Logged),
    }
}

/// Returns the log of [`candump`](crate::candump) with error frames, of a plan's simulation in which drives changed so: also a line for each
/// error that a node finds, and for each mode of a node. These are in the order of their ticks; those of one tick node by node.
///
/// An error frame is as Linux has it (linux/can/error.h) and as `candump -L` writes it: its class with the flag `0x20000000`, and 8 bytes. Of an
/// error the third byte says what is wrong and whether its node sends, and the fourth where in a frame. Of a mode that isn't bus off the second
/// byte says which, and the last two are the counters, at most 255. Refused out of memory alone.
pub fn candump_errors(
    alloc: Global,
    tick: Tick,
    from: u32,
    window: Window,
    plan: &CheckedPlan,
    drives: &Drives,
) -> Result<Vec<u8>, AllocError>
    requires drives { drives.now ≡ drives_of (outcome_of plan.now) }
    ensures { IfOk result (λ text. text.items ≡ error_log tick from window plan.now) }
{
    let told = told_in_order(alloc, &logged(window), plan, drives)?;
    let mut text = Vec::new(alloc);
    push_events(&mut text, tick, from, &told)?;
    Ok(text)
}
