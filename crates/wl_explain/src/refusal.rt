//! The text on a plan that is refused: what is wrong, with its place, keys and values, and what to change.
ghost use Rattle.std.specs.Prelude.{◌≡◌, ◌+◌, ◌<◌, ◌≤◌, ◌^◌, ◌++◌, IfOk, OnOk, Some, length, is_some, option_and_then, option_map, string_bytes};
ghost use Rattle.toml.specs.Data.{get_member};
ghost use Rattle.toml.specs.View.{array_view, view, table_view};
ghost use Rattle.wl_setup.specs.Kinds.{list_of, value_at};
ghost use Rattle.wl_setup.specs.Shown.{shown};
ghost use Rattle.wl_setup.specs.TablePaths.{table_at};
ghost use Rattle.wl_explain.specs.Refusals.{begins_letter, beside_words, hexadecimal_words, keys_of_clock, column_behind, column_number, keys_of_frame, form_of, frame_called, has_controller_keys, is_four, is_wide, lacking, rate_called, valued, is_newline, key_words, keys_words, line_number, lines, missing_words, name_words, named_words, node_called, two_nodes, place_words, plan_subject, quanta_words, refusal_words, keys_of_segments, size_words, path_words, subject, subject_words, toml_words, topology_subject, value_words, wide_form};

use crate::remedies::{TextForm, cause, cause_in, remedy, remedy_in};
use std::alloc::{AllocError, Global};
use toml::value::Array;
use toml::{Table, Value};
use wl_clock::ClockFault;
use wl_frame::frame::FrameFault;
use wl_plan::PlanFault;
use wl_segments::SegmentsFault;
use wl_setup::{Key, SetupFault, TablePath, Text, table_at, value_named};
use wl_topology::TopologyFault;

/// The version in which limits are wide, and nodes may have the segments of controllers.
const WIDE_VERSION: u64 = 4;

/// Returns what a value is.
fn value_words(alloc: Global, value: &Value) -> Result<String, AllocError>
    ensures { IfOk result (λ text. string_bytes text ≡ value_words (view value.now)) }
{
    match value {
        Value::String(text) => {
            let shown = Text::new(alloc, text.as_str())?;
            format!(in alloc; "\"{shown}\"")
        }
        Value::Integer(number) => {
            let number = *number;
            format!(in alloc; "{number}")
        }
        Value::Float(_) => String::from_str(alloc, "a number with a fraction"),
        Value::Boolean(truth) => String::from_str(alloc, if *truth { "true" } else { "false" }),
        Value::Datetime(_) => String::from_str(alloc, "a date or a time"),
        Value::Array(items) => {
            let many = many_of(items);
            format!(in alloc; "an array of {many}")
        }
        Value::Table(_) => String::from_str(alloc, "a table"),
    }
}

/// Returns the number of an array's elements.
#[tactic(auto, using(crate::proofs::Counts::counted))]
fn many_of(items: &Array) -> usize
    ensures { result ≡ length (list_of (array_view items.now)) }
{
    items.len()
}

/// Adds a key and what its value is.
fn push_key(text: &mut String, label: &str, said: &str, beside: &str) -> Result<(), AllocError>
    ensures { OnOk result (string_bytes text.new ≡ string_bytes text.old ++ valued label.now said.now beside.now) }
{
    write!(text, ", {label} = {said}{beside}")
}

/// Returns a number in hexadecimal digits, in brackets; nothing of one below 0.
fn hexadecimal_words(alloc: Global, number: i64) -> Result<String, AllocError>
    ensures { IfOk result (λ text. string_bytes text ≡ hexadecimal_words number) }
{
    match u64::try_from(number) {
        Ok(number) => format!(in alloc; " (0x{number:X})"),
        Err(_) => Ok(String::new(alloc)),
    }
}

/// Returns what is said beside the value of a key: of an identifier its hexadecimal digits.
fn beside_words(alloc: Global, label: &str, value: &Value) -> Result<String, AllocError>
    ensures { IfOk result (λ text. string_bytes text ≡ beside_words label.now (view value.now)) }
{
    match value {
        Value::Integer(number) if label == Key::Id.text() => hexadecimal_words(alloc, *number),
        _ => Ok(String::new(alloc)),
    }
}

/// Returns a key with its value, if it is there.
fn key_words(alloc: Global, label: &str, value: Option<&Value>) -> Result<String, AllocError>
    ensures { IfOk result (λ text. string_bytes text ≡ key_words label.now (option_map (λ v. view v.now) value.entry)) }
{
    let mut text = String::new(alloc);
    if let Some(value) = value {
        let said = value_words(alloc, value)?;
        let beside = beside_words(alloc, label, value)?;
        push_key(&mut text, label, said.as_str(), beside.as_str())?;
    }
    Ok(text)
}

/// Returns some keys of a table with their values.
fn keys_in(alloc: Global, keys: &[Key], table: &Table) -> Result<String, AllocError>
    ensures { IfOk result (λ text. string_bytes text ≡ keys_words keys.now (Some (table_view table.now))) }
{
    let mut text = String::new(alloc);
    for key in keys {
        let label = key.text();
        let said = key_words(alloc, label, value_named(table, label))?;
        text.push_str(said.as_str())?;
    }
    Ok(text)
}

fn keys_words(alloc: Global, keys: &[Key], table: Option<&Table>) -> Result<String, AllocError>
    ensures { IfOk result (λ text. string_bytes text
        ≡ keys_words keys.now (option_map (λ t. table_view t.now) table.entry)) }
{
    match table {
        Some(table) => keys_in(alloc, keys, table),
        None => Ok(String::new(alloc)),
    }
}

/// Returns a name, if the value is one.
fn name_words(alloc: Global, value: Option<&Value>) -> Result<String, AllocError>
    ensures { IfOk result (λ text. string_bytes text ≡ name_words (option_map (λ v. view v.now) value.entry)) }
{
    match value {
        Some(Value::String(name)) => {
            let shown = Text::new(alloc, name.as_str())?;
            format!(in alloc; " {shown}")
        }
        _ => Ok(String::new(alloc)),
    }
}

/// Returns what is at the name of node `i`.
fn name_of_node(top: &Table, i: u64) -> Option<&Value>
    ensures { option_map (λ v. view v.now) result
        ≡ option_and_then (value_at Key.Name) (table_at (TablePath.Node i) (table_view top.now)) }
{
    match table_at(top, TablePath::Node(i)) {
        Some(node) => value_named(node, Key::Name.text()),
        None => None,
    }
}

/// Returns a node by its number, and its name if the text gives one.
fn node_called(alloc: Global, top: &Table, i: u64) -> Result<String, AllocError>
    ensures { IfOk result (λ text. string_bytes text ≡ node_called (table_view top.now) i) }
{
    let name = name_words(alloc, name_of_node(top, i))?;
    format!(in alloc; "node {i}{name}")
}

/// Adds a node's rate, by what the node is called and the rate's number.
fn push_rate(text: &mut String, node: &str, n: u64) -> Result<(), AllocError>
    ensures { OnOk result (string_bytes text.new ≡ string_bytes text.old ++ rate_called node.now n) }
{
    write!(text, "{node}, rate {n}")
}

/// Adds a node's frame likewise.
fn push_frame(text: &mut String, node: &str, n: u64) -> Result<(), AllocError>
    ensures { OnOk result (string_bytes text.new ≡ string_bytes text.old ++ frame_called node.now n) }
{
    write!(text, "{node}, frame {n}")
}

fn rate_of_node(alloc: Global, node: &str, n: u64) -> Result<String, AllocError>
    ensures { IfOk result (λ text. string_bytes text ≡ rate_called node.now n) }
{
    let mut text = String::new(alloc);
    push_rate(&mut text, node, n)?;
    Ok(text)
}

fn frame_of_node(alloc: Global, node: &str, n: u64) -> Result<String, AllocError>
    ensures { IfOk result (λ text. string_bytes text ≡ frame_called node.now n) }
{
    let mut text = String::new(alloc);
    push_frame(&mut text, node, n)?;
    Ok(text)
}

/// Returns a table of the document.
fn path_words(alloc: Global, top: &Table, path: TablePath) -> Result<String, AllocError>
    ensures { IfOk result (λ text. string_bytes text ≡ path_words (table_view top.now) path) }
{
    match path {
        TablePath::Top => String::from_str(alloc, "the plan"),
        TablePath::Controller(n) => format!(in alloc; "controller {n}"),
        TablePath::Node(i) => node_called(alloc, top, i),
        TablePath::Rate(i, n) => {
            let node = node_called(alloc, top, i)?;
            rate_of_node(alloc, node.as_str(), n)
        }
        TablePath::Frame(i, n) => {
            let node = node_called(alloc, top, i)?;
            frame_of_node(alloc, node.as_str(), n)
        }
        TablePath::Disturbance(n) => format!(in alloc; "disturbance {n}"),
    }
}

/// Returns a table, and what some of its keys say.
fn subject_words(
    alloc: Global,
    top: &Table,
    path: TablePath,
    keys: &[Key],
) -> Result<String, AllocError>
    ensures { IfOk result (λ text. string_bytes text ≡ subject_words (table_view top.now) path keys.now) }
{
    let place = path_words(alloc, top, path)?;
    let said = keys_words(alloc, keys, table_at(top, path))?;
    format!(in alloc; "{place}{said}")
}

/// Returns the keys that a refused clock is made of.
fn keys_of_clock(fault: ClockFault) -> &'static [Key]
    ensures { result.now ≡ keys_of_clock fault }
{
    match fault {
        ClockFault::BigOffset => &[Key::Offset],
        _ => &[Key::Quantum, Key::Ppm, Key::Num, Key::Den, Key::Rates],
    }
}

/// Returns the keys that refused segments are made of.
fn keys_of_segments(fault: SegmentsFault) -> &'static [Key]
    ensures { result.now ≡ keys_of_segments fault }
{
    match fault {
        SegmentsFault::Prop => &[Key::Prop],
        SegmentsFault::Phase1 => &[Key::Ps1, Key::Tseg1],
        SegmentsFault::Phase2 => &[Key::Ps2, Key::Tseg2],
        SegmentsFault::Jump => &[Key::Sjw, Key::Ps1, Key::Tseg1, Key::Tseg2],
        SegmentsFault::Length => &[Key::Prop, Key::Ps1, Key::Ps2, Key::Tseg1, Key::Tseg2],
    }
}

/// Returns the keys that a refused frame is made of.
fn keys_of_frame(fault: FrameFault) -> &'static [Key]
    ensures { result.now ≡ keys_of_frame fault }
{
    match fault {
        FrameFault::Dlc => &[Key::Dlc],
        FrameFault::DataLength => &[Key::Dlc, Key::Remote, Key::Bytes],
        FrameFault::Id | FrameFault::ExtendedId => &[Key::Id, Key::Extended],
    }
}

/// Returns a node that sends and one that receives.
fn two_nodes(alloc: Global, top: &Table, i: u64, j: u64) -> Result<String, AllocError>
    ensures { IfOk result (λ text. string_bytes text ≡ two_nodes (table_view top.now) i j) }
{
    let from = subject_words(alloc, top, TablePath::Node(i), &[Key::X, Key::Out])?;
    let to = subject_words(alloc, top, TablePath::Node(j), &[Key::X, Key::In])?;
    format!(in alloc; "{from}; {to}")
}

/// Returns what a fault of the topology is about.
fn topology_subject(alloc: Global, top: &Table, fault: TopologyFault) -> Result<String, AllocError>
    ensures { IfOk result (λ text. string_bytes text ≡ topology_subject (table_view top.now) fault) }
{
    match fault {
        TopologyFault::NoNodes | TopologyFault::TooManyNodes => {
            subject_words(alloc, top, TablePath::Top, &[Key::Node])
        }
        TopologyFault::ZeroDelay(i, j) | TopologyFault::TooLong(i, j) => {
            two_nodes(alloc, top, i as u64, j as u64)
        }
    }
}

/// Returns an end, and the clock of node `i`.
fn quanta_words(alloc: Global, top: &Table, i: u64) -> Result<String, AllocError>
    ensures { IfOk result (λ text. string_bytes text ≡ quanta_words (table_view top.now) i) }
{
    let end = subject_words(alloc, top, TablePath::Top, &[Key::End, Key::Sync])?;
    let keys = &[
        Key::Offset,
        Key::Quantum,
        Key::Ppm,
        Key::Num,
        Key::Den,
        Key::Rates,
    ];
    let node = subject_words(alloc, top, TablePath::Node(i), keys)?;
    format!(in alloc; "{end}; {node}")
}

/// Returns what a fault of the whole plan is about.
fn plan_subject(alloc: Global, top: &Table, fault: PlanFault) -> Result<String, AllocError>
    ensures { IfOk result (λ text. string_bytes text ≡ plan_subject (table_view top.now) fault) }
{
    match fault {
        PlanFault::Nodes => subject_words(alloc, top, TablePath::Top, &[Key::Node]),
        PlanFault::End => subject_words(alloc, top, TablePath::Top, &[Key::End]),
        PlanFault::Quanta(i) => quanta_words(alloc, top, i),
        PlanFault::Queue(i) => subject_words(alloc, top, TablePath::Node(i), &[Key::Frame]),
        PlanFault::Disturbance(n) => subject_words(
            alloc,
            top,
            TablePath::Disturbance(n),
            &[Key::X, Key::AtNode, Key::From, Key::To],
        ),
    }
}

/// Adds a table and a key that it lacks.
fn push_missing(text: &mut String, place: &str, key: &Text) -> Result<(), AllocError>
    ensures { OnOk result (string_bytes text.new ≡ string_bytes text.old ++ lacking place.now (shown key.now)) }
{
    write!(text, "{place}, no {key}")
}

/// Returns a table that lacks a key.
fn missing_words(
    alloc: Global,
    top: &Table,
    path: TablePath,
    key: &Text,
) -> Result<String, AllocError>
    ensures { IfOk result (λ text. string_bytes text ≡ missing_words (table_view top.now) path key.now) }
{
    let place = path_words(alloc, top, path)?;
    let mut text = String::new(alloc);
    push_missing(&mut text, place.as_str(), key)?;
    Ok(text)
}

/// Returns the value at a key of a table of the document.
fn value_in<'a>(top: &'a Table, path: TablePath, key: &Text) -> Option<&'a Value>
    ensures { option_map (λ v. view v.now) result
        ≡ option_and_then (get_member key.now) (table_at path (table_view top.now)) }
{
    match table_at(top, path) {
        Some(table) => value_named(table, key.as_str()),
        None => None,
    }
}

/// Returns a table, and a key of it with its value.
fn named_words(
    alloc: Global,
    top: &Table,
    path: TablePath,
    key: &Text,
) -> Result<String, AllocError>
    ensures { IfOk result (λ text. string_bytes text ≡ named_words (table_view top.now) path key.now) }
{
    let place = path_words(alloc, top, path)?;
    let label = format!(in alloc; "{key}")?;
    let said = key_words(alloc, label.as_str(), value_in(top, path, key))?;
    format!(in alloc; "{place}{said}")
}

/// Returns what a fault in a table of a document is about: the table with its number and, of a node, its name, and the keys with their values.
pub fn subject(
    alloc: Global,
    top: &Table,
    path: TablePath,
    fault: &SetupFault,
) -> Result<String, AllocError>
    ensures { IfOk result (λ text. string_bytes text ≡ subject (table_view top.now) path fault.now) }
{
    match fault {
        SetupFault::Version => subject_words(alloc, top, TablePath::Top, &[Key::Version]),
        SetupFault::Missing(key) => missing_words(alloc, top, path, key),
        SetupFault::Kind(key) => named_words(alloc, top, path, key),
        SetupFault::Unknown(key) => named_words(alloc, top, path, key),
        SetupFault::NodeClock(i, fault) => {
            subject_words(alloc, top, TablePath::Node(*i), keys_of_clock(*fault))
        }
        SetupFault::NodeSegments(i, fault) => {
            subject_words(alloc, top, TablePath::Node(*i), keys_of_segments(*fault))
        }
        SetupFault::NodeFrame(i, n, fault) => {
            subject_words(alloc, top, TablePath::Frame(*i, *n), keys_of_frame(*fault))
        }
        SetupFault::Topology(fault) => topology_subject(alloc, top, *fault),
        SetupFault::Plan(fault) => plan_subject(alloc, top, *fault),
        _ => String::from_str(alloc, "the plan"),
    }
}

/// Adds the two lines on what is wrong and what to change.
fn push_lines(text: &mut String, about: &str, wrong: &str, change: &str) -> Result<(), AllocError>
    ensures { OnOk result (string_bytes text.new ≡ string_bytes text.old ++ lines about.now wrong.now change.now) }
{
    write!(text, "wrong: {about}: {wrong}\nchange: {change}\n")
}

/// Returns the two lines on what is wrong and what to change.
fn lines(alloc: Global, about: &str, wrong: &str, change: &str) -> Result<String, AllocError>
    ensures { IfOk result (λ text. string_bytes text ≡ lines about.now wrong.now change.now) }
{
    let mut text = String::new(alloc);
    push_lines(&mut text, about, wrong, change)?;
    Ok(text)
}

/// True if a value is the number of version 4.
fn is_four(value: &Value) -> bool
    ensures { result ≡ is_four (view value.now) }
{
    match value {
        Value::Integer(number) => match u64::try_from(*number) {
            Ok(number) => number == WIDE_VERSION,
            Err(_) => false,
        },
        _ => false,
    }
}

/// True if a document is of version 4.
fn is_wide(top: &Table) -> bool
    ensures { result ≡ is_wide (table_view top.now) }
{
    match value_named(top, Key::Version.text()) {
        Some(value) => is_four(value),
        None => false,
    }
}

/// True if a table has a key.
fn has_key(table: &Table, key: Key) -> bool
    ensures { result ≡ is_some (value_at key (table_view table.now)) }
{
    value_named(table, key.text()).is_some()
}

/// True if a node's table has keys of a controller's segments.
fn has_controller_keys(node: Option<&Table>) -> bool
    ensures { result ≡ has_controller_keys (option_map (λ t. table_view t.now) node.entry) }
{
    match node {
        Some(node) => has_key(node, Key::Tseg1) || has_key(node, Key::Tseg2),
        None => false,
    }
}

/// Returns by which words a fault of a document of version 4 is explained.
fn wide_form(top: &Table, fault: &SetupFault) -> TextForm
    ensures { result ≡ wide_form (table_view top.now) fault.now }
{
    match fault {
        SetupFault::NodeSegments(i, _) => {
            if has_controller_keys(table_at(top, TablePath::Node(*i))) {
                TextForm::Controller
            } else {
                TextForm::Wide
            }
        }
        _ => TextForm::Wide,
    }
}

/// Returns by which words a fault of a document is explained.
pub fn form_of(top: &Table, fault: &SetupFault) -> TextForm
    ensures { result ≡ form_of (table_view top.now) fault.now }
{
    if is_wide(top) {
        wide_form(top, fault)
    } else {
        TextForm::Narrow
    }
}

/// Returns the text on a document that is refused by this fault, its first, in this table: two lines. The first one says what is wrong: what
/// the fault is about, and what of that is refused. The second one says what to change. Refused out of memory alone.
pub fn explain_fault(
    alloc: Global,
    top: &Table,
    path: TablePath,
    fault: &SetupFault,
) -> Result<String, AllocError>
    ensures { IfOk result (λ text. string_bytes text ≡ refusal_words (table_view top.now) path fault.now) }
{
    let about = subject(alloc, top, path, fault)?;
    let form = form_of(top, fault);
    lines(
        alloc,
        about.as_str(),
        cause_in(form, fault),
        remedy_in(form, fault),
    )
}

fn is_newline(byte: u8) -> bool
    ensures { result ≡ is_newline byte }
{
    byte == b'\n'
}

fn begins_letter(byte: u8) -> bool
    ensures { result ≡ begins_letter byte }
{
    byte < 128 || 192 <= byte
}

/// Returns the line, from 1, of the place after these bytes of a text. A newline byte ends a line, and nothing else does.
pub fn line_number(before: &[u8]) -> u64
    ensures { result ≡ line_number before.now }
{
    let _ = before.len();
    let mut line = 1;
    for byte in before {
        if is_newline(*byte) {
            line += 1;
        }
    }
    line
}

/// Returns the column of the byte after one in this column.
fn next_column(column: u64, byte: u8) -> u64
    requires { column < 2 ^ 63 }
    ensures value { result ≡ column_behind column byte }
    ensures most { result ≤ column + 1 }
{
    if is_newline(byte) {
        1
    } else if begins_letter(byte) {
        column + 1
    } else {
        column
    }
}

/// Returns the column of that place in its line, from 1, in characters.
pub fn column_number(before: &[u8]) -> u64
    ensures { result ≡ column_number before.now }
{
    let _ = before.len();
    let mut column = 1;
    for byte in before {
        column = next_column(column, *byte);
    }
    column
}

/// Adds a line and a column.
fn push_place(text: &mut String, line: u64, column: u64) -> Result<(), AllocError>
    ensures { OnOk result (string_bytes text.new ≡ string_bytes text.old ++ place_words line column) }
{
    write!(text, "line {line}, column {column}")
}

/// Returns the explanation of a text that isn't TOML: the same two lines, with the line and the column, from 1, of the parser's position.
/// `before` are the bytes before it.
pub fn explain_toml(alloc: Global, before: &[u8]) -> Result<String, AllocError>
    ensures { IfOk result (λ text. string_bytes text ≡ toml_words before.now) }
{
    let line = line_number(before);
    let column = column_number(before);
    let mut about = String::new(alloc);
    push_place(&mut about, line, column)?;
    let fault = SetupFault::Toml;
    lines(alloc, about.as_str(), cause(&fault), remedy(&fault))
}

/// Returns the text on a plan that is too long.
pub fn explain_size(alloc: Global) -> Result<String, AllocError>
    ensures { IfOk result (λ text. string_bytes text ≡ size_words) }
{
    let fault = SetupFault::Size;
    lines(alloc, "the plan", cause(&fault), remedy(&fault))
}
