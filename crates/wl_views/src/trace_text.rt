//! The lines of a trace, one for each event.
ghost use Rattle.std.specs.Prelude.{◌≡◌, ◌+◌, ◌≤◌, ◌++◌, OnOk, IfOk, string_bytes};
ghost use Rattle.std.specs.Fmt.{decimal};
ghost use Rattle.arrayvec.specs.ArrayString.{array_string_len};
ghost use Rattle.wl_report.specs.Lines.{GrowsBy};
ghost use Rattle.wl_serial.specs.Outcome.{drives_of, outcome_of};
ghost use Rattle.wl_views.specs.TraceText.{error_kind_word, event_text, field_word, first_error_at, first_error_in, first_error_text, first_error_tick, flag_word, is_error, line_start, place_text, sample_words, trace_line};

use crate::pick::Pick;
use crate::told::told_in_order;
use arrayvec::ArrayString;
use itoa::Buffer;
use std::alloc::{AllocError, Global};
use wl_confine::{Counters, ErrorKind};
use wl_plan::CheckedPlan;
use wl_report::{mode_word, push_content};
use wl_serial::Drives;
use wl_setup::Names;
use wl_trace::{FlagForm, FrameField, FramePlace, NodeEvent, Noted};

/// Returns the word of a field.
fn field_word(field: FrameField) -> &'static str
    ensures { result.now ≡ field_word field }
{
    match field {
        FrameField::StartOfFrame => "sof",
        FrameField::Identifier => "id",
        FrameField::SubstituteRemoteRequest => "srr",
        FrameField::IdentifierExtension => "ide",
        FrameField::ExtendedIdentifier => "ext_id",
        FrameField::RemoteRequest => "rtr",
        FrameField::Reserved1 => "r1",
        FrameField::Reserved0 => "r0",
        FrameField::DataLengthCode => "dlc",
        FrameField::Data => "data",
        FrameField::CrcSequence => "crc",
        FrameField::CrcDelimiter => "crc_delimiter",
        FrameField::AckSlot => "ack_slot",
        FrameField::AckDelimiter => "ack_delimiter",
        FrameField::EndOfFrame => "eof",
        FrameField::FlagDelimiter => "delimiter",
    }
}

/// Returns the word of an error's kind.
fn error_kind_word(kind: ErrorKind) -> &'static str
    ensures { result.now ≡ error_kind_word kind }
{
    match kind {
        ErrorKind::Bit => "bit",
        ErrorKind::Stuff => "stuff",
        ErrorKind::Form => "form",
        ErrorKind::Crc => "crc",
        ErrorKind::Ack => "ack",
    }
}

/// Returns the word of a flag.
fn flag_word(form: FlagForm) -> &'static str
    ensures { result.now ≡ flag_word form }
{
    match form {
        FlagForm::Active => "active",
        FlagForm::Passive => "passive",
        FlagForm::Overload => "overload",
    }
}

/// Adds a field and which of its bits.
fn push_place(text: &mut String, place: FramePlace) -> Result<(), AllocError>
    ensures { OnOk result (GrowsBy text.old text.new (place_text place)) }
{
    let field = field_word(place.field);
    let bit = place.bit;
    write!(text, "{field} {bit}")
}

/// Adds an error.
fn push_error(
    text: &mut String,
    kind: ErrorKind,
    sends: bool,
    stuff: bool,
    place: FramePlace,
) -> Result<(), AllocError>
    ensures { OnOk result (GrowsBy text.old text.new (event_text (NodeEvent.Error kind sends stuff place))) }
{
    let kind = error_kind_word(kind);
    let role = if sends { "tx" } else { "rx" };
    let at = if stuff { "after" } else { "in" };
    write!(text, "error {kind} {role} {at} ")?;
    push_place(text, place)
}

/// Adds the mode that counters give, and the counters.
fn push_mode(text: &mut String, counters: Counters) -> Result<(), AllocError>
    ensures { OnOk result (GrowsBy text.old text.new (event_text (NodeEvent.ModeChanged counters))) }
{
    let mode = mode_word(counters.mode());
    let tec = counters.tec();
    let rec = counters.rec();
    write!(text, "mode {mode} tec {tec} rec {rec}")
}

/// Adds what happened.
fn push_event(text: &mut String, event: NodeEvent) -> Result<(), AllocError>
    ensures { OnOk result (GrowsBy text.old text.new (event_text event)) }
{
    match event {
        NodeEvent::ArbitrationLost(place) => {
            text.push_str("lost in ")?;
            push_place(text, place)
        }
        NodeEvent::Error {
            kind,
            sends,
            stuff,
            place,
        } => push_error(text, kind, sends, stuff, place),
        NodeEvent::Flag(form) => {
            text.push_str("flag ")?;
            text.push_str(flag_word(form))
        }
        NodeEvent::Sent(frame) => {
            text.push_str("sent ")?;
            push_content(text, &frame)
        }
        NodeEvent::Received(frame) => {
            text.push_str("received ")?;
            push_content(text, &frame)
        }
        NodeEvent::ModeChanged(counters) => push_mode(text, counters),
        NodeEvent::HardSynchronised => text.push_str("sync hard"),
        NodeEvent::Resynchronised(error) => {
            text.push_str("sync ")?;
            text.push_str(Buffer::new().format(error))
        }
    }
}

/// Some words, which need no memory.
type Words = ArrayString<64>;

/// Adds a number.
fn push_number(words: &mut Words, number: u64)
    requires { array_string_len words.old + 20 ≤ 64 }
    ensures bytes { words.new.bytes ≡ words.old.bytes ++ decimal number }
    ensures grown { array_string_len words.new ≤ array_string_len words.old + 20 }
{
    words.push_str(Buffer::new().format(number));
}

/// Adds a tick and a node's number.
fn push_start(text: &mut String, tick: u64, i: usize) -> Result<(), AllocError>
    ensures { OnOk result (GrowsBy text.old text.new (line_start tick i)) }
{
    let mut words = Words::new();
    push_number(&mut words, tick);
    words.push_str(" ");
    push_number(&mut words, i as u64);
    words.push_str(" ");
    text.push_str(words.as_str())
}

/// Adds a quantum and a bit.
fn push_sample_words(text: &mut String, quantum: u64, bit: u64) -> Result<(), AllocError>
    ensures { OnOk result (GrowsBy text.old text.new (sample_words quantum bit)) }
{
    let mut words = Words::new();
    words.push_str(" q ");
    push_number(&mut words, quantum);
    words.push_str(" b ");
    push_number(&mut words, bit);
    words.push_str(" ");
    text.push_str(words.as_str())
}

/// Adds the line of an event of node `i` at a tick.
pub(crate) fn push_line(
    text: &mut String,
    names: &Names,
    tick: u64,
    i: usize,
    noted: Noted,
) -> Result<(), AllocError>
    ensures { OnOk result (GrowsBy text.old text.new (trace_line names.now (tick, (i, noted)))) }
{
    push_start(text, tick, i)?;
    text.push_str(names.name_of(i))?;
    push_sample_words(text, noted.quantum, noted.bit)?;
    push_event(text, noted.event)?;
    text.push_str("\n")?;
    Ok(())
}

/// True if an event is an error.
fn is_error(event: NodeEvent) -> bool
    ensures { result ≡ is_error event }
{
    match event {
        NodeEvent::Error { .. } => true,
        _ => false,
    }
}

/// Adds the line of the first error of some events, if there is one.
fn push_first_error(
    text: &mut String,
    names: &Names,
    told: &[(u64, (usize, Noted))],
) -> Result<(), AllocError>
    ensures { OnOk result (GrowsBy text.old text.new (first_error_in names.now told.now)) }
{
    for (tick, (i, noted)) in told {
        if is_error(noted.event) {
            return push_line(text, names, *tick, *i, *noted);
        }
    }
    Ok(())
}

/// Returns the line that the trace of a plan's simulation, in which drives changed so, has of the first error; no letter if there was none.
/// Refused only when out of memory.
pub fn first_error(
    alloc: Global,
    plan: &CheckedPlan,
    names: &Names,
    drives: &Drives,
) -> Result<String, AllocError>
    requires drives { drives.now ≡ drives_of (outcome_of plan.now) }
    ensures { IfOk result (λ text. string_bytes text ≡ first_error_text plan.now names.now) }
{
    let errors = told_in_order(alloc, &Pick::errors(), plan, drives)?;
    let mut text = String::new(alloc);
    push_first_error(&mut text, names, &errors)?;
    Ok(text)
}

/// Returns the tick of the first error of some events, if there is one.
fn first_error_at(told: &[(u64, (usize, Noted))]) -> Option<u64>
    ensures { result ≡ first_error_at told.now }
{
    for (tick, (_, noted)) in told {
        if is_error(noted.event) {
            return Some(*tick);
        }
    }
    None
}

/// Returns the tick of the first error of a plan's simulation, in which drives changed so, if there was one. Refused only when out of memory.
pub fn first_error_tick(
    alloc: Global,
    plan: &CheckedPlan,
    drives: &Drives,
) -> Result<Option<u64>, AllocError>
    requires drives { drives.now ≡ drives_of (outcome_of plan.now) }
    ensures { IfOk result (λ tick. tick ≡ first_error_tick plan.now) }
{
    let errors = told_in_order(alloc, &Pick::errors(), plan, drives)?;
    Ok(first_error_at(&errors))
}
