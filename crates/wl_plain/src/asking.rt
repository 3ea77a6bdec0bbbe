//! Whether a document has a text that asks for the length of a tick.
ghost use Rattle.std.specs.Prelude.{◌≡◌, codes, map};
ghost use Rattle.std.specs.List.{list_any};
ghost use Rattle.toml.specs.View.{view, table_view};
ghost use Rattle.wl_plain.specs.Asking.{asks_at, asks_controllers, asks_data, asks_measure, asks_node, asks_node_of, asks_row, asks_some, asks_tick, needs_tick};
ghost use Rattle.wl_plain.specs.Documents.{controllers_in};
ghost use Rattle.wl_plain.specs.Tables.{array_at};

use crate::measure::{Row, asks_tick as measure_asks, measure_at_key};
use crate::tables::{array_at, value_at};
use toml::{Table, Value};
use wl_units::Measure;

fn asks_measure(measure: Option<Measure>) -> bool
    ensures { result ≡ asks_measure measure }
{
    match measure {
        Some(measure) => measure_asks(measure),
        None => false,
    }
}

/// True of a key that asks for the length of a tick, whatever it holds: of a clock by its frequency, and of noise.
fn needs_tick(row: Row, key: &str) -> bool
    ensures { result ≡ needs_tick row key.now }
{
    match row {
        Row::Node | Row::Controller => key == "clock",
        Row::Top => key == "noise",
        Row::Rate | Row::Frame | Row::Disturbance | Row::Noise => false,
    }
}

/// True if a value is a text at the key of a time, or at a key that asks whatever it holds.
fn asks_at(row: Row, key: &str, value: &Value) -> bool
    ensures { result ≡ asks_at row key.now (view value.now) }
{
    value.as_str().is_some() && asks_measure(measure_at_key(row, key)) || needs_tick(row, key)
}

/// True if a table has such a value.
fn asks_row(row: Row, table: &Table) -> bool
    ensures { result ≡ asks_row row (table_view table.now) }
{
    for (key, value) in table.iter() {
        if asks_at(row, key.as_str(), value) {
            return true;
        }
    }
    false
}

/// True if a value is a table that has one.
fn asks_data(row: Row, value: &Value) -> bool
    ensures { result ≡ asks_data row (view value.now) }
{
    match value.as_table() {
        Some(table) => asks_row(row, table),
        None => false,
    }
}

/// True if a table in the array at a key has one.
fn asks_rows(row: Row, table: &Table, key: &str) -> bool
    ensures { result ≡ asks_some (asks_data row) (array_at key.now (table_view table.now)) }
{
    match array_at(table, key) {
        Some(values) => any_row(row, values),
        None => false,
    }
}

fn any_row(row: Row, values: &[Value]) -> bool
    ensures { result ≡ list_any (asks_data row) (map view values.now) }
{
    for value in values {
        if asks_data(row, value) {
            return true;
        }
    }
    false
}

/// True if a value is the table of a node that has one, or a rate or a frame in it.
fn asks_node(value: &Value) -> bool
    ensures { result ≡ asks_node_of (view value.now) }
{
    match value.as_table() {
        Some(table) => {
            asks_row(Row::Node, table)
                || asks_rows(Row::Rate, table, "rates")
                || asks_rows(Row::Frame, table, "frame")
        }
        None => false,
    }
}

fn any_node(values: &[Value]) -> bool
    ensures { result ≡ list_any asks_node_of (map view values.now) }
{
    for value in values {
        if asks_node(value) {
            return true;
        }
    }
    false
}

/// True if a node does.
fn asks_nodes(top: &Table) -> bool
    ensures { result ≡ asks_some asks_node_of (array_at (codes "node") (table_view top.now)) }
{
    match array_at(top, "node") {
        Some(values) => any_node(values),
        None => false,
    }
}

fn any_controller(table: &Table) -> bool
    ensures { result ≡ asks_controllers (table_view table.now) }
{
    for (_, value) in table.iter() {
        if asks_data(Row::Controller, value) {
            return true;
        }
    }
    false
}

/// True if a controller does.
#[tactic(auto, unfolding(crate::specs::Documents::controllers_in))]
fn asks_controllers(top: &Table) -> bool
    ensures { result ≡ asks_controllers (controllers_in (table_view top.now)) }
{
    match value_at(top, "controller") {
        Some(value) => match value.as_table() {
            Some(table) => any_controller(table),
            None => false,
        },
        None => false,
    }
}

/// True if a document has a text at the key of a time, a clock by its frequency or noise, which ask for the length of a tick.
#[tactic(auto, unfolding(crate::specs::Asking::asks_tick))]
pub fn asks_tick(top: &Table) -> bool
    ensures { result ≡ asks_tick (table_view top.now) }
{
    asks_row(Row::Top, top)
        || asks_controllers(top)
        || asks_nodes(top)
        || asks_rows(Row::Disturbance, top, "disturbance")
}
