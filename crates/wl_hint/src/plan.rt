//! Hints on plan texts.
ghost use Rattle.std.specs.Prelude.{◌≤◌, IfOk, IfSome, length, None, Some, option_map};
ghost use Rattle.wl_hint.specs.Hints.{PointsInto};

use crate::hint::{Hint, TextPlace};
use crate::place::{place_of, place_under};
use crate::remarks::remark;
use crate::scan::{key_end, value_behind, value_end};
use crate::toml_remarks::toml_remark;
use crate::units::{controller_name, home_of};
use std::alloc::{AllocError, Global};
use std::str;
use toml::Table;
use wl_clock::ClockFault;
use wl_explain::{TextForm, cause, cause_in, form_of, remedy, remedy_in, subject as about};
use wl_frame::frame::FrameFault;
use wl_plan::PlanFault;
use wl_segments::SegmentsFault;
use wl_setup::{NoDocument, SetupFault, TablePath, Text, bus_of_document, document_or_place};
use wl_topology::TopologyFault;

/// The most bytes of a value that a hint shows.
const MOST_SHOWN: usize = 60;

/// Returns the key of a clock that is refused.
fn clock_key(fault: ClockFault) -> &'static str {
    match fault {
        ClockFault::BigOffset => "offset",
        ClockFault::BadPpm => "ppm",
        ClockFault::ZeroDen | ClockFault::BigDen => "den",
        ClockFault::TooFast | ClockFault::TooSlow => "quantum",
        _ => "rates",
    }
}

/// Returns the key of segments that are refused.
fn segments_key(form: TextForm, fault: SegmentsFault) -> &'static str {
    match form {
        TextForm::Controller => match fault {
            SegmentsFault::Phase2 => "tseg2",
            SegmentsFault::Jump => "sjw",
            _ => "tseg1",
        },
        TextForm::Narrow | TextForm::Wide => match fault {
            SegmentsFault::Prop | SegmentsFault::Length => "prop",
            SegmentsFault::Phase1 => "ps1",
            SegmentsFault::Phase2 => "ps2",
            SegmentsFault::Jump => "sjw",
        },
    }
}

/// Returns the key of a frame that is refused.
fn frame_key(fault: FrameFault) -> &'static str {
    match fault {
        FrameFault::Dlc => "dlc",
        FrameFault::DataLength => "bytes",
        FrameFault::Id | FrameFault::ExtendedId => "id",
    }
}

/// Returns the table and the key that a fault of a whole plan is about.
fn plan_subject(fault: PlanFault) -> (TablePath, &'static str) {
    match fault {
        PlanFault::Nodes => (TablePath::Top, "node"),
        PlanFault::End | PlanFault::Quanta(_) => (TablePath::Top, "end"),
        PlanFault::Queue(i) => (TablePath::Node(i), "frame"),
        PlanFault::Disturbance(n) => (TablePath::Disturbance(n), ""),
    }
}

/// Returns the table and the key that a fault of the places is about.
fn topology_subject(fault: TopologyFault) -> (TablePath, &'static str) {
    match fault {
        TopologyFault::ZeroDelay(i, _) => (TablePath::Node(i as u64), "out"),
        TopologyFault::TooLong(i, _) => (TablePath::Node(i as u64), "x"),
        _ => (TablePath::Top, "node"),
    }
}

/// Returns the table and the key that a fault of numbers is about.
fn subject(form: TextForm, fault: &SetupFault) -> Option<(TablePath, &'static str)> {
    match fault {
        SetupFault::Version => Some((TablePath::Top, "version")),
        SetupFault::NodeClock(i, fault) => Some((TablePath::Node(*i), clock_key(*fault))),
        SetupFault::NodeSegments(i, fault) => {
            Some((TablePath::Node(*i), segments_key(form, *fault)))
        }
        SetupFault::NodeFrame(i, n, fault) => Some((TablePath::Frame(*i, *n), frame_key(*fault))),
        SetupFault::Topology(fault) => Some(topology_subject(*fault)),
        SetupFault::Plan(fault) => Some(plan_subject(*fault)),
        _ => None,
    }
}

/// Returns the table where the first fault of a document is; `None` if it has none.
fn first_path(alloc: Global, top: &Table) -> Result<Option<TablePath>, AllocError> {
    match bus_of_document(alloc, top) {
        Ok(_) => Ok(None),
        Err(placed) => match placed.fault {
            SetupFault::Memory => Err(AllocError),
            _ => Ok(Some(placed.path)),
        },
    }
}

/// Returns the table that a fault is about.
fn path_in(
    alloc: Global,
    top: &Table,
    form: TextForm,
    fault: &SetupFault,
) -> Result<Option<TablePath>, AllocError> {
    match subject(form, fault) {
        Some((path, _)) => Ok(Some(path)),
        None => first_path(alloc, top),
    }
}

/// Returns the key that a fault is about; none if the table lacks it.
fn key_in(form: TextForm, fault: &SetupFault) -> &str {
    match fault {
        SetupFault::Kind(key) => key.as_str(),
        SetupFault::Unknown(key) => key.as_str(),
        SetupFault::SameName => "name",
        other => match subject(form, other) {
            Some((_, key)) => key,
            None => "",
        },
    }
}

/// Returns what is written at the place of a key, up to the end of its line; nothing at that of a table.
fn written(alloc: Global, text: &[u8], at: usize) -> Result<String, AllocError> {
    let equals = key_end(text, at);
    let end = value_end(text, value_behind(text, equals)).min(at.saturating_add(MOST_SHOWN));
    let said = text.get(at..end).unwrap_or(b"");
    if said.starts_with(b"[") || said.starts_with(b"{") {
        return String::from_str(alloc, ": ");
    }
    match str::from_utf8(said) {
        Ok(said) => {
            let said = said.split('\n').next().unwrap_or("").trim_end();
            format!(in alloc; ", `{said}`: ")
        }
        Err(_) => String::from_str(alloc, ": "),
    }
}

/// Returns the hint on a text that isn't at hand.
fn without_text(alloc: Global, fault: &SetupFault) -> Result<Hint, AllocError>
    ensures { IfOk result (PointsInto None) }
{
    let (cause, remedy) = (cause(fault), remedy(fault));
    let said = format!(in alloc; "{cause}. {remedy}")?;
    Hint::anywhere(alloc, said.as_str())
}

/// Returns the hint on a text that is no TOML, where the parser stopped.
fn no_document(alloc: Global, text: &[u8], at: usize) -> Result<Hint, AllocError>
    requires { at ≤ length text.now }
    ensures { IfOk result (PointsInto (Some text.now)) }
{
    let (cause, remedy) = (cause(&SetupFault::Toml), remedy(&SetupFault::Toml));
    let remark = toml_remark(text, at);
    let said = format!(in alloc; ": {cause}{remark}. {remedy}")?;
    Ok(Hint {
        place: Some(TextPlace::of(text, at)),
        said: Text::new(alloc, said.as_str())?,
    })
}

/// Returns what is said of a fault in this table of a document, after what is written at its place.
fn said_of(
    alloc: Global,
    top: &Table,
    path: TablePath,
    fault: &SetupFault,
    written: &str,
) -> Result<Text, AllocError> {
    let about = about(alloc, top, path, fault)?;
    let remark = remark(alloc, top, path, fault)?;
    let form = form_of(top, fault);
    let (cause, remedy) = (cause_in(form, fault), remedy_in(form, fault));
    let said = format!(in alloc; "{written}{about}: {cause}{remark}. {remedy}")?;
    Text::new(alloc, said.as_str())
}

/// Returns the place of a key of a table: of a node's in the table of its controller, if it has the key from there.
fn place_in(text: &[u8], top: &Table, path: TablePath, key: &str) -> Option<usize>
    ensures { IfSome result (λ at. at ≤ length text.now) }
{
    match home_of(top, path, key) {
        TablePath::Controller(number) => {
            place_under(text, controller_name(top, number)?, key.as_bytes())
        }
        home => place_of(text, home, key.as_bytes()),
    }
}

/// Returns the hint on a fault in this table of a document.
fn in_table(
    alloc: Global,
    text: &[u8],
    top: &Table,
    path: TablePath,
    fault: &SetupFault,
) -> Result<Hint, AllocError>
    ensures { IfOk result (PointsInto (Some text.now)) }
{
    let key = key_in(form_of(top, fault), fault);
    match place_in(text, top, path, key) {
        Some(at) => {
            let written = written(alloc, text, at)?;
            Ok(Hint {
                place: Some(TextPlace::of(text, at)),
                said: said_of(alloc, top, path, fault, written.as_str())?,
            })
        }
        None => Ok(Hint {
            place: None,
            said: said_of(alloc, top, path, fault, "")?,
        }),
    }
}

/// Returns the hint on a document.
fn in_document(
    alloc: Global,
    text: &[u8],
    top: &Table,
    fault: &SetupFault,
) -> Result<Hint, AllocError>
    ensures { IfOk result (PointsInto (Some text.now)) }
{
    match path_in(alloc, top, form_of(top, fault), fault)? {
        Some(path) => in_table(alloc, text, top, path, fault),
        None => Ok(Hint {
            place: None,
            said: said_of(alloc, top, TablePath::Top, fault, "")?,
        }),
    }
}

/// Returns the hint on a text.
fn with_text(alloc: Global, text: &[u8], fault: &SetupFault) -> Result<Hint, AllocError>
    ensures { IfOk result (PointsInto (Some text.now)) }
{
    match document_or_place(alloc, text) {
        Ok(top) => in_document(alloc, text, &top, fault),
        Err(NoDocument::At(at)) => no_document(alloc, text, at),
        Err(NoDocument::Memory) => Err(AllocError),
    }
}

/// Returns what to change of a plan's text that is refused by this fault, its first: the place in the text, what is wrong there, and what
/// to change. Of a text that isn't at hand it has no place. Refused out of memory alone.
pub fn hint_of_plan(
    alloc: Global,
    text: Option<&[u8]>,
    fault: &SetupFault,
) -> Result<Hint, AllocError>
    ensures { IfOk result (PointsInto (option_map (λ t. t.now) text.entry)) }
{
    match text {
        Some(text) => with_text(alloc, text, fault),
        None => without_text(alloc, fault),
    }
}
