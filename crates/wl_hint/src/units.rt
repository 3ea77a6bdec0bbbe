//! What a hint adds on texts with units, on clocks by their frequency, and on kinds of controllers.
use crate::noise::of_noise;
use std::alloc::{AllocError, Global};
use toml::{Table, Value};
use wl_kinds::{KINDS, Range, kind_named};
use wl_setup::{TablePath, table_at, value_named};
use wl_units::{MICROMETRES, Measure, Quantity, Scale, quantity_of, tick_said, unit_said};

/// Returns the table of the controller that a node names, if there is one.
fn controller_of<'a>(top: &'a Table, node: &Table) -> Option<&'a Table> {
    let name = value_named(node, "controller")?.as_str()?;
    value_named(value_named(top, "controller")?.as_table()?, name)?.as_table()
}

/// Returns the number of a controller in the order of their names.
fn controller_number(top: &Table, name: &str) -> Option<u64> {
    let mut number = 0u64;
    for key in value_named(top, "controller")?.as_table()?.keys() {
        if key.as_str() == name {
            return Some(number);
        }
        number = number.saturating_add(1);
    }
    None
}

/// Returns the name of a controller by its number.
pub(crate) fn controller_name(top: &Table, number: u64) -> Option<&str> {
    let mut left = number;
    for key in value_named(top, "controller")?.as_table()?.keys() {
        if left == 0 {
            return Some(key.as_str());
        }
        left = left.saturating_sub(1);
    }
    None
}

/// Returns the table where a node has a key from: its own, or that of its controller.
pub(crate) fn home_of(top: &Table, path: TablePath, key: &str) -> TablePath {
    match elsewhere(top, path, key) {
        Some(number) => TablePath::Controller(number),
        None => path,
    }
}

/// Returns the number of the controller that has a key which a node lacks.
fn elsewhere(top: &Table, path: TablePath, key: &str) -> Option<u64> {
    if !matches!(path, TablePath::Node(_)) {
        return None;
    }
    let node = table_at(top, path)?;
    if value_named(node, key).is_some() {
        return None;
    }
    value_named(controller_of(top, node)?, key)?;
    controller_number(top, value_named(node, "controller")?.as_str()?)
}

/// Returns the value of a key of a node, or of its controller if the node lacks it.
fn said_at<'a>(top: &'a Table, table: &'a Table, key: &str) -> Option<&'a Value> {
    match value_named(table, key) {
        Some(value) => Some(value),
        None => value_named(controller_of(top, table)?, key),
    }
}

fn text_at<'a>(top: &'a Table, table: &'a Table, key: &str) -> Option<&'a str> {
    said_at(top, table, key)?.as_str()
}

fn whole_at(top: &Table, table: &Table, key: &str) -> Option<u64> {
    u64::try_from(said_at(top, table, key)?.as_integer()?).ok()
}

/// Returns the femtoseconds of a tick.
pub(crate) fn tick_in(top: &Table) -> Option<u64> {
    tick_said(value_named(top, "tick")?.as_str()?)
}

/// Returns the ticks that a text with a unit says, if they are whole.
pub(crate) fn time_said(top: &Table, text: &str) -> Option<u64> {
    let scale = Scale {
        tick: tick_in(top)?,
        unit: unit_in(top),
    };
    scale.number_said(Measure::Time, text)
}

/// Returns the units of length that a text with a unit says, if they are whole.
pub(crate) fn length_said(top: &Table, text: &str) -> Option<u64> {
    let scale = Scale {
        tick: 1,
        unit: unit_in(top),
    };
    scale.number_said(Measure::Length, text)
}

/// Returns the micrometres of a unit of length.
fn unit_in(top: &Table) -> u64 {
    match value_named(top, "unit").and_then(Value::as_str) {
        Some(text) => unit_said(text).unwrap_or(MICROMETRES),
        None => MICROMETRES,
    }
}

/// Returns the whole numbers below and above a quantity: of ticks, of units of length, or of ticks a unit.
fn around(quantity: Quantity, times: u64, over: u64) -> Option<(u128, u128)> {
    let num = u128::from(quantity.number.mantissa)
        .checked_mul(u128::from(quantity.factor))?
        .checked_mul(u128::from(times))?;
    let den = u128::from(quantity.number.divisor)
        .checked_mul(u128::from(quantity.divisor))?
        .checked_mul(u128::from(over))?;
    if den == 0 {
        return None;
    }
    let below = num / den;
    Some((below, below.checked_add(1)?))
}

/// The names of units, each with its size, from the greatest on.
#[rattlefmt::skip]
const TIMES: [(&str, u128); 6] = [
    ("s", 1_000_000_000_000_000), ("ms", 1_000_000_000_000), ("us", 1_000_000_000), ("ns", 1_000_000), ("ps", 1000), ("fs", 1),
];

#[rattlefmt::skip]
const LENGTHS: [(&str, u128); 5] = [("km", 1_000_000_000), ("m", 1_000_000), ("cm", 10_000), ("mm", 1000), ("um", 1)];

/// Returns the first unit that a number is at least thousandths of, and exact in.
fn unit_for(units: &'static [(&'static str, u128)], n: u128) -> (&'static str, u128) {
    for (word, size) in units {
        if n >= *size && n % (*size / 1000).max(1) == 0 {
            return (*word, *size);
        }
    }
    match units.last() {
        Some((word, size)) => (*word, *size),
        None => ("", 1),
    }
}

/// Adds a number of the smallest unit as a decimal number with a unit.
fn written(
    alloc: Global,
    units: &'static [(&'static str, u128)],
    n: u128,
) -> Result<String, AllocError> {
    let (word, size) = unit_for(units, n);
    let size = size.max(1);
    let (whole, part) = (n / size, n % size);
    let thousandth = (size / 1000).max(1);
    let thousandths = part / thousandth;
    if part == 0 {
        format!(in alloc; "{whole}{word}")
    } else {
        format!(in alloc; "{whole}.{thousandths:03}{word}")
    }
}

/// Returns what is remarked of a text of a measure: which ones are near, or how it is written.
fn of_quantity(
    alloc: Global,
    top: &Table,
    measure: Measure,
    text: &str,
) -> Result<String, AllocError> {
    let (times, over) = match measure {
        Measure::Time => (1, tick_in(top).unwrap_or(1)),
        Measure::PerLength => (unit_in(top), tick_in(top).unwrap_or(1)),
        _ => (1, unit_in(top)),
    };
    let near = match quantity_of(measure, text) {
        Some(quantity) => around(quantity, times, over),
        None => None,
    };
    let Some((below, above)) = near else {
        return String::from_str(alloc, how_written(measure));
    };
    match measure {
        Measure::Time => near_times(alloc, below, above, over),
        Measure::PerLength => {
            format!(in alloc;
                " (it is not whole in ticks a unit of length: the nearest are {below} and {above})"
            )
        }
        _ => near_lengths(alloc, below, above, over),
    }
}

fn near_times(alloc: Global, below: u128, above: u128, tick: u64) -> Result<String, AllocError> {
    let tick = u128::from(tick);
    let low = written(alloc, &TIMES, below.saturating_mul(tick))?;
    let high = written(alloc, &TIMES, above.saturating_mul(tick))?;
    format!(in alloc;
        " (it is no whole number of ticks: the nearest are {low} and {high}, {below} and {above} ticks)"
    )
}

fn near_lengths(alloc: Global, below: u128, above: u128, unit: u64) -> Result<String, AllocError> {
    let unit = u128::from(unit);
    let low = written(alloc, &LENGTHS, below.saturating_mul(unit))?;
    let high = written(alloc, &LENGTHS, above.saturating_mul(unit))?;
    format!(in alloc;
        " (it is no whole number of units of length: the nearest are {low} and {high}, {below} and {above} units)"
    )
}

/// Returns how a text of a measure is written.
fn how_written(measure: Measure) -> &'static str {
    match measure {
        Measure::Time => {
            " (a time is a number and fs, ps, ns, us, ms or s, as `10ms`; without quotes it is a number of ticks)"
        }
        Measure::PerLength => {
            " (a time along a length is a number and ns/m, ps/m, us/m, ps/mm, ps/cm, ns/cm, ns/km or us/km, as `5ns/m`)"
        }
        _ => {
            " (a length is a number and um, mm, cm, m or km, as `12.5m`; without quotes it is a number of units)"
        }
    }
}

/// Returns what a key of a table measures, if a text with a unit may be there.
fn measure_at(path: TablePath, key: &str) -> Option<Measure> {
    match (key, path) {
        ("from", TablePath::Rate(_, _)) => None,
        (
            "end"
            | "offset"
            | "out"
            | "in"
            | "quantum"
            | "until"
            | "from"
            | "to"
            | "deadline"
            | "jitter",
            _,
        ) => Some(Measure::Time),
        ("x", _) => Some(Measure::Length),
        ("per", _) => Some(Measure::PerLength),
        _ => None,
    }
}

/// Returns the quanta of a bit of a node.
fn quanta_of(top: &Table, table: &Table) -> Option<u64> {
    let (first, second) = match (whole_at(top, table, "tseg1"), whole_at(top, table, "tseg2")) {
        (Some(tseg1), Some(tseg2)) => (tseg1, tseg2),
        _ => {
            let prop = whole_at(top, table, "prop")?;
            let ps1 = whole_at(top, table, "ps1")?;
            (prop.checked_add(ps1)?, whole_at(top, table, "ps2")?)
        }
    };
    first.checked_add(second)?.checked_add(1)
}

/// Returns the number that a text of a frequency or of a bit rate says.
fn rate_in(measure: Measure, text: &str) -> Option<u64> {
    let scale = Scale { tick: 1, unit: 1 };
    scale.number_said(measure, text)
}

/// Returns the prescaler below a bit rate, and the bit rates at it and at the next one.
fn near_rates(top: &Table, table: &Table) -> Option<(u64, u64, u64, u64)> {
    let quanta = quanta_of(top, table)?;
    let clock = rate_in(Measure::Frequency, text_at(top, table, "clock")?)?;
    let rate = rate_in(Measure::BitRate, text_at(top, table, "bitrate")?)?;
    let bits = rate.checked_mul(quanta)?;
    if bits == 0 {
        return None;
    }
    let prescaler = (clock / bits).max(1);
    let next = prescaler.saturating_add(1);
    let high = clock / quanta.checked_mul(prescaler)?.max(1);
    let low = clock / quanta.checked_mul(next)?.max(1);
    Some((quanta, high, low, prescaler))
}

/// Returns what is remarked of a bit rate.
fn of_bit_rate(alloc: Global, top: &Table, table: &Table) -> Result<String, AllocError> {
    match near_rates(top, table) {
        Some((quanta, high, low, prescaler)) => {
            let next = prescaler.saturating_add(1);
            format!(in alloc;
                " (with this clock and {quanta} quanta a bit the nearest are {high} bit/s with a prescaler of {prescaler} and {low} bit/s with {next})"
            )
        }
        None => String::from_str(
            alloc,
            " (a bit rate is a number and bit/s, kbit/s, Mbit/s, k or M, as `500k`)",
        ),
    }
}

/// Returns how many ticks a quantum of a node takes, as a fraction, if it has one rate.
fn quantum_of(top: &Table, node: &Table) -> Option<(u64, u64)> {
    if value_named(node, "rates").is_some() {
        return None;
    }
    if let Some(text) = text_at(top, node, "clock") {
        let clock = rate_in(Measure::Frequency, text)?;
        let prescaler = match whole_at(top, node, "prescaler") {
            Some(prescaler) => prescaler,
            None => {
                let rate = rate_in(Measure::BitRate, text_at(top, node, "bitrate")?)?;
                clock.checked_div(rate.checked_mul(quanta_of(top, node)?)?)?
            }
        };
        return wl_units::ticks_of_quantum(clock, prescaler, tick_in(top)?);
    }
    match value_named(node, "quantum") {
        Some(quantum) => match quantum.as_str() {
            Some(text) => {
                let scale = Scale {
                    tick: tick_in(top)?,
                    unit: 1,
                };
                Some((scale.number_said(Measure::Time, text)?, 1))
            }
            None => Some((u64::try_from(quantum.as_integer()?).ok()?, 1)),
        },
        None => Some((whole_at(top, node, "num")?, whole_at(top, node, "den")?)),
    }
}

/// Returns the quanta below and above a cycle.
fn near_cycles(top: &Table, node: &Table, frame: &Table) -> Option<(u128, u128)> {
    let (num, den) = quantum_of(top, node)?;
    let cycle = value_named(frame, "cycle")?;
    match cycle.as_str() {
        Some(text) => {
            let mut quantity = quantity_of(Measure::Time, text)?;
            quantity.divisor = quantity.divisor.checked_mul(num)?;
            around(quantity, den, tick_in(top)?)
        }
        None => {
            let ticks = u128::from(u64::try_from(cycle.as_integer()?).ok()?);
            let below = ticks
                .checked_mul(u128::from(den))?
                .checked_div(u128::from(num))?;
            Some((below, below.checked_add(1)?))
        }
    }
}

/// Returns what is remarked of a cycle.
fn of_cycle(
    alloc: Global,
    top: &Table,
    path: TablePath,
    frame: &Table,
) -> Result<String, AllocError> {
    let node = match path {
        TablePath::Frame(i, _) => table_at(top, TablePath::Node(i)),
        _ => None,
    };
    let near = match node {
        Some(node) => near_cycles(top, node, frame),
        None => None,
    };
    match near {
        Some((below, above)) if value_named(frame, "every").is_none() => {
            format!(in alloc;
                " (it is no whole number of quanta: the nearest are `every = {below}` and `every = {above}`)"
            )
        }
        _ => Ok(String::new(alloc)),
    }
}

/// Returns the names of the known kinds of controllers.
fn of_kind(alloc: Global) -> Result<String, AllocError> {
    let mut names = String::from_str(alloc, " (the kinds are")?;
    for (name, _) in &KINDS {
        names.push_str(" ")?;
        names.push_str(*name)?;
    }
    names.push_str(")")?;
    Ok(names)
}

/// Returns what a kind of controllers takes at a key.
fn of_range(
    alloc: Global,
    name: &str,
    key: &str,
    range: Range,
    more: &str,
) -> Result<String, AllocError> {
    let (least, most) = (range.least, range.most);
    format!(in alloc; " ({name} takes `{key}` from {least} to {most}{more})")
}

/// Returns what is remarked of a value that the kind of a node forbids.
fn of_part(
    alloc: Global,
    top: &Table,
    table: &Table,
    key: &str,
) -> Result<Option<String>, AllocError> {
    let Some(name) = text_at(top, table, "kind") else {
        return Ok(None);
    };
    let Some(kind) = kind_named(name) else {
        return Ok(None);
    };
    let jump = if kind.is_sjw_below {
        " and below PHASE_SEG2"
    } else {
        " and up to PHASE_SEG2"
    };
    let second = if kind.is_tseg2_within {
        ", up to PROP_SEG and PHASE_SEG1"
    } else {
        ""
    };
    let even = if kind.is_even { ", even" } else { "" };
    let said = match key {
        "sjw" => of_range(alloc, name, key, kind.sjw, jump)?,
        "tseg1" => of_range(alloc, name, key, kind.tseg1, "")?,
        "ps1" => of_range(alloc, name, "prop + ps1", kind.tseg1, "")?,
        "tseg2" | "ps2" => of_range(alloc, name, key, kind.tseg2, second)?,
        "prescaler" | "bitrate" => of_range(alloc, name, "prescaler", kind.prescaler, even)?,
        _ => return Ok(None),
    };
    Ok(Some(said))
}

/// True if the value of a key is a whole number from 1 on, which is wrong for the kind of its controller alone.
fn is_number(top: &Table, table: &Table, key: &str) -> bool {
    match whole_at(top, table, key) {
        Some(n) => n > 0,
        None => false,
    }
}

/// Returns what is remarked of a value of a document of version 4; `None` of most.
pub(crate) fn of_value(
    alloc: Global,
    top: &Table,
    path: TablePath,
    key: &str,
) -> Result<Option<String>, AllocError> {
    let Some(table) = table_at(top, path) else {
        return Ok(None);
    };
    if let Some(measure) = measure_at(path, key) {
        return match text_at(top, table, key) {
            Some(text) => Ok(Some(of_quantity(alloc, top, measure, text)?)),
            None => Ok(None),
        };
    }
    match key {
        "bitrate" => Ok(Some(of_bit_rate(alloc, top, table)?)),
        "cycle" => Ok(Some(of_cycle(alloc, top, path, table)?)),
        "kind" => Ok(Some(of_kind(alloc)?)),
        "noise" => Ok(Some(of_noise(alloc, top)?)),
        "controller" => Ok(Some(String::from_str(
            alloc,
            " (no `[controller.NAME]` has this name)",
        )?)),
        _ if is_number(top, table, key) => of_part(alloc, top, table, key),
        _ => Ok(None),
    }
}
