//! The keys whose values may be texts with a unit, and what such a text says.
ghost use Rattle.std.specs.Prelude.{◌≡◌, ◌≤◌, IfOk, IfSome, OnOk, map};
ghost use Rattle.toml.specs.View.{view, table_view};
ghost use Rattle.wl_plain.specs.Measures.{asks_tick, converted, is_along, is_place_key, is_time, measure_at_key, number_or, plain_row, plain_row_of, put_row, said, said_by, scale_of, units_of};
ghost use Rattle.wl_plain.specs.Tables.{remade_at};

use crate::tables::{array_at, text_at, with_member};
use std::alloc::{AllocError, Global};
use toml::{Table, Value};
use wl_units::{LARGEST_WHOLE, MICROMETRES, Measure, Scale, tick_said, unit_said};

/// What a table of a plan describes.
#[derive(Clone, Copy, Debug, PartialEq, Eq)]
pub enum Row {
    /// The plan.
    Top,
    /// A controller that nodes name.
    Controller,
    /// A node.
    Node,
    /// A rate of a node.
    Rate,
    /// A frame of a node.
    Frame,
    /// A disturbance.
    Disturbance,
    /// The noise of the plan.
    Noise,
}

/// The lengths of a tick and of a unit of length.
#[derive(Clone, Copy, Debug, PartialEq, Eq)]
pub struct Units {
    /// The femtoseconds of a tick, if they are known.
    pub tick: Option<u64>,
    /// The micrometres of a unit of length.
    pub unit: u64,
}

/// True if a key of such a table is a time.
fn is_time(row: Row, key: &str) -> bool
    ensures { result ≡ is_time row key.now }
{
    match row {
        Row::Top => key == "end",
        Row::Controller => key == "out" || key == "in",
        Row::Node => {
            key == "offset" || key == "out" || key == "in" || key == "quantum" || key == "until"
        }
        Row::Rate => key == "quantum",
        Row::Frame => key == "cycle" || key == "at" || key == "deadline" || key == "jitter",
        Row::Disturbance => key == "from" || key == "to",
        Row::Noise => key == "length",
    }
}

/// True if it is a place.
fn is_place_key(row: Row, key: &str) -> bool
    ensures { result ≡ is_place_key row key.now }
{
    match row {
        Row::Node | Row::Disturbance | Row::Noise => key == "x",
        Row::Top | Row::Controller | Row::Rate | Row::Frame => false,
    }
}

/// True if it is a time along a length.
fn is_along(row: Row, key: &str) -> bool
    ensures { result ≡ is_along row key.now }
{
    match row {
        Row::Top => key == "per",
        Row::Controller | Row::Node | Row::Rate | Row::Frame | Row::Disturbance | Row::Noise => {
            false
        }
    }
}

/// Returns what a text with a unit measures at a key of such a table, if there may be one.
pub(crate) fn measure_at_key(row: Row, key: &str) -> Option<Measure>
    ensures { result ≡ measure_at_key row key.now }
{
    if is_time(row, key) {
        Some(Measure::Time)
    } else if is_place_key(row, key) {
        Some(Measure::Length)
    } else if is_along(row, key) {
        Some(Measure::PerLength)
    } else {
        None
    }
}

/// True if a measure asks for the length of a tick.
pub(crate) fn asks_tick(measure: Measure) -> bool
    ensures { result ≡ asks_tick measure }
{
    match measure {
        Measure::Time | Measure::PerLength => true,
        Measure::Length | Measure::Frequency | Measure::BitRate => false,
    }
}

impl Units {
    /// Returns the lengths that the top table says: of a unit 1 m if it says no other.
    pub(crate) fn of(top: &Table) -> Units
        ensures { result ≡ units_of (table_view top.now) }
    {
        let tick = match text_at(top, "tick") {
            Some(text) => tick_said(text),
            None => None,
        };
        let unit = match text_at(top, "unit") {
            Some(text) => unit_said(text).unwrap_or(MICROMETRES),
            None => MICROMETRES,
        };
        Units { tick, unit }
    }

    /// Returns them as a scale, whose tick has a femtosecond if its length is not known.
    fn scale(self) -> Scale
        ensures { result ≡ scale_of self }
    {
        Scale {
            tick: self.tick.unwrap_or(1),
            unit: self.unit,
        }
    }

    /// Returns the number that a text of a measure says, if it says one.
    pub(crate) fn said(self, measure: Measure, text: &str) -> Option<u64>
        ensures said { result ≡ said self measure text.now }
        ensures most { IfSome result (λ n. n ≤ LARGEST_WHOLE) }
    {
        if asks_tick(measure) && self.tick.is_none() {
            return None;
        }
        self.scale().number_said(measure, text)
    }

    /// Returns the number that the text at a key says, if it says one.
    fn said_at(self, row: Row, key: &str, text: &str) -> Option<u64>
        ensures said { result ≡ said_by self (measure_at_key row key.now) text.now }
        ensures most { IfSome result (λ n. n ≤ LARGEST_WHOLE) }
    {
        match measure_at_key(row, key) {
            Some(measure) => self.said(measure, text),
            None => None,
        }
    }

    /// Returns a value at a key, as the number that it says if it is a text with a unit.
    fn converted(self, row: Row, key: &str, value: &Value) -> Result<Value, AllocError>
        ensures { IfOk result (λ v. view v ≡ converted self row key.now (view value.now)) }
    {
        if let Some(text) = value.as_str() {
            if let Some(n) = self.said_at(row, key, text) {
                return Ok(Value::from(n as i64));
            }
        }
        Ok(value.clone()?)
    }
}

/// Puts the members of a table into another, each text with a unit as the number that it says.
pub(crate) fn put_row(
    alloc: Global,
    units: Units,
    row: Row,
    table: &Table,
    into: &mut Table,
) -> Result<(), AllocError>
    ensures { OnOk result (table_view into.new ≡ put_row units row (table_view table.now) (table_view into.old)) }
{
    for (key, value) in table.iter() {
        let plain = units.converted(row, key.as_str(), value)?;
        with_member(alloc, into, key.as_str(), plain)?;
    }
    Ok(())
}

/// Returns a table with each text with a unit as the number that it says.
pub(crate) fn plain_row(
    alloc: Global,
    units: Units,
    row: Row,
    table: &Table,
) -> Result<Table, AllocError>
    ensures { IfOk result (λ t. table_view t ≡ plain_row units row (table_view table.now)) }
{
    let mut plain = Table::new(alloc);
    put_row(alloc, units, row, table, &mut plain)?;
    Ok(plain)
}

/// Returns the same of a value that is a table, and any other as it is.
fn plain_value(alloc: Global, units: Units, row: Row, value: &Value) -> Result<Value, AllocError>
    ensures { IfOk result (λ v. view v ≡ plain_row_of units row (view value.now)) }
{
    match value.as_table() {
        Some(table) => Ok(Value::from(plain_row(alloc, units, row, table)?)),
        None => Ok(value.clone()?),
    }
}

fn plain_values(
    alloc: Global,
    units: Units,
    row: Row,
    values: &[Value],
) -> Result<Vec<Value>, AllocError>
    ensures { IfOk result (λ all. map view all.items ≡ map (plain_row_of units row) (map view values.now)) }
{
    let mut all = Vec::new(alloc);
    for value in values {
        all.push(plain_value(alloc, units, row, value)?)?;
    }
    Ok(all)
}

/// Makes the tables in the array at a key plain.
pub(crate) fn remake_rows(
    alloc: Global,
    units: Units,
    row: Row,
    table: &mut Table,
    key: &str,
) -> Result<(), AllocError>
    ensures { OnOk result (table_view table.new ≡ remade_at (plain_row_of units row) key.now (table_view table.old)) }
{
    let all = match array_at(table, key) {
        Some(values) => plain_values(alloc, units, row, values)?,
        None => return Ok(()),
    };
    with_member(alloc, table, key, Value::from(all))
}
