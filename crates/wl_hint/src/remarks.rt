//! What a plan's document adds to the words of its explanation.
ghost use Rattle.std.specs.Prelude.{◌≡◌};

use crate::units::of_value;
use std::alloc::{AllocError, Global};
use toml::{Table, Value};
use wl_clock::{Clock, Rate};
use wl_explain::{TextForm, form_of};
use wl_limits::Limits;
use wl_plan::PlanFault;
use wl_segments::SegmentsFault;
use wl_setup::{SetupFault, TablePath, Text, table_at, value_named};

/// The keys that plans have.
#[rattlefmt::skip]
const KNOWN: [&str; 35] = [
    "version", "end", "per", "sync", "node", "disturbance", "name", "offset", "quantum", "ppm", "num", "den", "rates", "prop", "ps1",
    "ps2", "sjw", "x", "out", "in", "frame", "id", "dlc", "remote", "extended", "bytes", "ready", "from", "to",
    "tolerance", "every", "count", "listen", "tseg1", "tseg2",
];

/// The keys that plans of version 4 have besides.
#[rattlefmt::skip]
const KNOWN_WIDE: [&str; 14] = [
    "tick", "unit", "controller", "kind", "clock", "prescaler", "bitrate", "queue", "until", "cycle", "at", "deadline", "jitter", "noise",
];

/// Returns the first key of a table that no table of a plan has, which may be a misspelt one.
fn strange_key(is_wide: bool, table: &Table) -> Option<&str> {
    for key in table.keys() {
        if !KNOWN.contains(&key.as_str()) && !(is_wide && KNOWN_WIDE.contains(&key.as_str())) {
            return Some(key.as_str());
        }
    }
    None
}

/// Returns a whole number at a key.
fn number(table: &Table, key: &str) -> Option<i64> {
    value_named(table, key)?.as_integer()
}

/// Returns the limits of a document: the wide ones in version 4.
fn limits_of(top: &Table) -> Limits {
    if number(top, "version") == Some(4) {
        Limits::Wide
    } else {
        Limits::Narrow
    }
}

/// Returns the clock of a node with one rate, by these limits.
fn clock_of(node: &Table, limits: Limits) -> Option<Clock> {
    let offset = u64::try_from(number(node, "offset")?).ok()?;
    match number(node, "quantum") {
        Some(quantum) => {
            let quantum = u64::try_from(quantum).ok()?;
            let rate = Rate::from_ppm(0, quantum, number(node, "ppm")?).ok()?;
            Clock::within(limits, offset, &[rate]).ok()
        }
        None => {
            let num = u64::try_from(number(node, "num")?).ok()?;
            let den = u64::try_from(number(node, "den")?).ok()?;
            let num = num as u128;
            Clock::within(limits, offset, &[Rate { from: 0, num, den }]).ok()
        }
    }
}

/// True if a node's edges may make it sample each third quantum.
fn is_short(top: &Table, node: &Table) -> bool {
    let sync = value_named(top, "sync").and_then(Value::as_str);
    let follows = match sync {
        None | Some("after") => false,
        Some(_) => true,
    };
    let each = number(node, "prop") == Some(1) && number(node, "ps1") == Some(1);
    follows && (each || number(node, "tseg1") == Some(2))
}

/// Returns the greatest end that the clock of node `i` allows, if it has one rate.
fn latest_end(top: &Table, i: u64) -> Option<u64> {
    let node = table_at(top, TablePath::Node(i))?;
    let limits = limits_of(top);
    let most = if is_short(top, node) {
        limits.short_quanta_limit()
    } else {
        limits.quanta_limit()
    };
    Some(clock_of(node, limits)?.at(most))
}

/// Returns from which version on a key of a table may be in the place of a missing one; nothing if it has no such key.
fn later_form(table: &Table, missing: &str) -> &'static str {
    match missing {
        "num" if value_named(table, "rates").is_some() => {
            " (`rates` is a key from `version = 2` on)"
        }
        "x" if value_named(table, "node").is_some() => " (`node` is a key of `version = 3`)",
        "prop" if value_named(table, "tseg1").is_some() => {
            " (`tseg1` is a key of `version = 4`)"
        }
        _ => "",
    }
}

/// Returns what is remarked of a missing key.
fn of_missing(
    alloc: Global,
    is_wide: bool,
    table: Option<&Table>,
    missing: &str,
) -> Result<String, AllocError> {
    let later = match table {
        Some(table) => later_form(table, missing),
        None => "",
    };
    if !later.is_empty() {
        return String::from_str(alloc, later);
    }
    let strange = match table {
        Some(table) => strange_key(is_wide, table),
        None => None,
    };
    match strange {
        Some(key) => {
            let key = Text::new(alloc, key)?;
            format!(in alloc; " (is `{key}` meant for it?)")
        }
        None => Ok(String::new(alloc)),
    }
}

/// Returns what is remarked of an end that comes too late for node `i`.
fn of_quanta(alloc: Global, top: &Table, i: u64) -> Result<String, AllocError> {
    match latest_end(top, i) {
        Some(end) => format!(in alloc; " (with this clock the end is at most {end})"),
        None => Ok(String::new(alloc)),
    }
}

/// Returns the unit of a key of a table, whose value is a whole number.
fn unit_of(key: &str, path: TablePath) -> &'static str {
    match (key, path) {
        ("from", TablePath::Rate(_, _)) => " (it is in quanta)",
        ("end" | "offset" | "quantum" | "out" | "in" | "from" | "to", _) => " (it is in ticks)",
        ("ready" | "every" | "prop" | "ps1" | "ps2" | "tseg1" | "tseg2" | "sjw", _) => {
            " (it is in quanta)"
        }
        ("per", _) => " (it is in ticks a unit of length)",
        ("x", _) => " (it is in units of length)",
        _ => "",
    }
}

/// Returns where a key belongs that is in another table.
fn home_of(key: &str, path: TablePath) -> &'static str {
    match key {
        "version" | "end" | "per" | "sync" => {
            if matches!(path, TablePath::Top) {
                ""
            } else {
                " (it belongs above the first `[[node]]`)"
            }
        }
        "every" | "count" => {
            if is_beside_frames(path) {
                " (it belongs into a frame)"
            } else {
                ""
            }
        }
        "name"
        | "offset"
        | "prop"
        | "ps1"
        | "ps2"
        | "tseg1"
        | "tseg2"
        | "sjw"
        | "x"
        | "out"
        | "in"
        | "tolerance"
        | "listen" => {
            if is_in_node(path) {
                " (it belongs right under `[[node]]`, above the tables in it)"
            } else {
                ""
            }
        }
        _ => "",
    }
}

/// Returns what is remarked of a key that has no place in its table: where it belongs, or what is there in its place.
fn of_unknown(is_wide: bool, table: Option<&Table>, key: &str, path: TablePath) -> &'static str {
    let has_clock = match table {
        Some(table) => value_named(table, "clock").is_some(),
        None => false,
    };
    match key {
        "num" | "den" | "quantum" | "rates" if has_clock => {
            " (the node has `clock` in its place)"
        }
        "tick" | "unit" | "noise" if is_wide => " (it belongs above the first table)",
        "clock" | "prescaler" | "bitrate" | "queue" | "kind" if is_wide => {
            " (it belongs into a node or a `[controller.NAME]`)"
        }
        "until" if is_wide => " (it belongs right under `[[node]]`)",
        "cycle" | "at" | "deadline" | "jitter" if is_wide => " (it belongs into a frame)",
        _ => home_of(key, path),
    }
}

/// True of a table that is no frame and not the top one.
fn is_beside_frames(path: TablePath) -> bool {
    matches!(
        path,
        TablePath::Node(_) | TablePath::Rate(_, _) | TablePath::Disturbance(_)
    )
}

/// True of a table in a node.
fn is_in_node(path: TablePath) -> bool {
    matches!(path, TablePath::Frame(_, _) | TablePath::Rate(_, _))
}

/// Returns what is remarked of a segment: registers hold one quantum less, and a bit of too many quanta wants longer ones.
fn of_segment(table: Option<&Table>, key: &str, least: i64) -> &'static str {
    match table.and_then(|table| number(table, key)) {
        Some(quanta) if quanta < least => " (a register may hold one less than the quanta)",
        Some(_) => " (with a greater prescaler, so a longer quantum, there are fewer)",
        None => "",
    }
}

/// Returns what is remarked of segments.
fn of_segments(table: Option<&Table>, form: TextForm, fault: SegmentsFault) -> &'static str {
    let is_controller = form == TextForm::Controller;
    match fault {
        SegmentsFault::Prop => of_segment(table, "prop", 1),
        SegmentsFault::Phase1 if is_controller => of_segment(table, "tseg1", 2),
        SegmentsFault::Phase2 if is_controller => of_segment(table, "tseg2", 2),
        SegmentsFault::Phase1 => of_segment(table, "ps1", 1),
        SegmentsFault::Phase2 => of_segment(table, "ps2", 2),
        SegmentsFault::Length => " (with a shorter quantum there are more)",
        SegmentsFault::Jump => "",
    }
}

/// True if a text begins with a digit.
fn has_digit(text: &str) -> bool {
    match text.as_bytes().first() {
        Some(letter) => letter.is_ascii_digit(),
        None => false,
    }
}

/// Returns what is remarked of a value at a key in a plan without units: that it is below 0, that it has a unit, or which unit it is in.
fn of_number(table: Option<&Table>, key: &str, path: TablePath) -> &'static str {
    let unit = unit_of(key, path);
    match table.and_then(|table| value_named(table, key)) {
        Some(Value::Integer(number)) if *number < 0 => " (it is below 0)",
        Some(Value::String(text)) if !unit.is_empty() && has_digit(text.as_str()) => {
            " (texts with a unit are of `version = 4`, beside `tick = \"1ns\"`)"
        }
        _ => unit,
    }
}

/// Returns what is remarked of a value of another kind.
fn of_kind(alloc: Global, top: &Table, path: TablePath, key: &str) -> Result<String, AllocError> {
    if number(top, "version") == Some(4) {
        if let Some(said) = of_value(alloc, top, path, key)? {
            return Ok(said);
        }
    }
    String::from_str(alloc, of_number(table_at(top, path), key, path))
}

/// Returns what is remarked of a fault in the table where it is; nothing of most.
pub(crate) fn remark(
    alloc: Global,
    top: &Table,
    path: TablePath,
    fault: &SetupFault,
) -> Result<String, AllocError> {
    let table = table_at(top, path);
    match fault {
        SetupFault::Missing(key) => {
            of_missing(
                alloc,
                number(top, "version") == Some(4),
                table,
                key.as_str(),
            )
        }
        SetupFault::Plan(PlanFault::Quanta(i)) => of_quanta(alloc, top, *i),
        SetupFault::Kind(key) => of_kind(alloc, top, path, key.as_str()),
        SetupFault::Unknown(key) => {
            let is_wide = number(top, "version") == Some(4);
            String::from_str(alloc, of_unknown(is_wide, table, key.as_str(), path))
        }
        SetupFault::NodeSegments(_, segments) => {
            String::from_str(alloc, of_segments(table, form_of(top, fault), *segments))
        }
        _ => Ok(String::new(alloc)),
    }
}
