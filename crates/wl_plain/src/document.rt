//! The plain form of a plan's document.
ghost use Rattle.std.specs.Prelude.{◌≡◌, IfOk, OnOk, option_map};
ghost use Rattle.toml.specs.View.{table_view};
ghost use Rattle.wl_plain.specs.Documents.{controllers_in, plain_document, plain_with, member_table, with_controllers, with_nodes};

use crate::controller::plain_controllers;
use crate::measure::{Row, Units, plain_row, remake_rows};
use crate::node::plain_nodes;
use crate::noise::remake_noise;
use crate::tables::{array_at, table_copy, value_at, with_member};
use std::alloc::{AllocError, Global};
use toml::{Table, Value};

/// Returns the table at a key, if it has one.
pub(crate) fn member_table<'a>(table: &'a Table, key: &str) -> Option<&'a Table>
    ensures { option_map (λ t. table_view t.now) result ≡ member_table key.now (table_view table.now) }
{
    match value_at(table, key) {
        Some(value) => value.as_table(),
        None => None,
    }
}

/// Makes the tables of controllers plain.
#[tactic(auto, unfolding(crate::specs::Documents::with_controllers))]
fn remake_controllers(alloc: Global, units: Units, top: &mut Table) -> Result<(), AllocError>
    ensures { OnOk result (table_view top.new ≡ with_controllers units (table_view top.old)) }
{
    let all = match member_table(top, "controller") {
        Some(table) => plain_controllers(alloc, units, table)?,
        None => return Ok(()),
    };
    with_member(alloc, top, "controller", Value::from(all))
}

/// Returns a copy of the tables of controllers, if there are any.
#[tactic(auto, unfolding(crate::specs::Documents::controllers_in))]
fn controllers_of(alloc: Global, top: &Table) -> Result<Table, AllocError>
    ensures { IfOk result (λ t. table_view t ≡ controllers_in (table_view top.now)) }
{
    table_copy(alloc, value_at(top, "controller"))
}

/// Makes the tables of nodes plain.
#[tactic(auto, unfolding(crate::specs::Documents::with_nodes))]
fn remake_nodes(alloc: Global, units: Units, top: &mut Table) -> Result<(), AllocError>
    ensures { OnOk result (table_view top.new ≡ with_nodes units (table_view top.old)) }
{
    let controllers = controllers_of(alloc, top)?;
    let all = match array_at(top, "node") {
        Some(values) => plain_nodes(alloc, units, &controllers, values)?,
        None => return Ok(()),
    };
    with_member(alloc, top, "node", Value::from(all))
}

/// Returns the plain form of a document with these lengths of a tick and of a unit.
#[tactic(auto, unfolding(crate::specs::Documents::plain_with))]
fn plain_with(alloc: Global, units: Units, top: &Table) -> Result<Table, AllocError>
    ensures { IfOk result (λ t. table_view t ≡ plain_with units (table_view top.now)) }
{
    let mut plain = plain_row(alloc, units, Row::Top, top)?;
    remake_controllers(alloc, units, &mut plain)?;
    remake_nodes(alloc, units, &mut plain)?;
    remake_rows(alloc, units, Row::Disturbance, &mut plain, "disturbance")?;
    remake_noise(alloc, units, &mut plain)?;
    Ok(plain)
}

/// Returns the plain form of a document of a plan of version 4: each time, length and time along a length as a number of ticks and units;
/// `num` and `den` in the place of a clock's frequency, prescaler and bit rate; `every` and `ready` in the place of `cycle` and `at`; at each
/// node the keys that it lacks from its controller; disturbances in the place of noise. What can't be had stays as a text, and the empty text is at a key whose value is wrong
/// beside others. Refused only when out of memory.
pub fn plain_document(alloc: Global, top: &Table) -> Result<Table, AllocError>
    ensures { IfOk result (λ t. table_view t ≡ plain_document (table_view top.now)) }
{
    plain_with(alloc, Units::of(top), top)
}
