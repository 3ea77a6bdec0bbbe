//! The plain form of a node's table: with the keys that it lacks from its controller, and its clock and its frames plain.
ghost use Rattle.std.specs.Prelude.{◌≡◌, IfOk, OnOk, map, option_map};
ghost use Rattle.toml.specs.View.{view, table_view};
ghost use Rattle.wl_plain.specs.Nodes.{found_or, named_value, plain_node, plain_node_of, with_clock, with_controller};

use crate::clock::{obey_kind, settle};
use crate::frame::remake_frames;
use crate::measure::{Row, Units, plain_row, put_row, remake_rows};
use crate::tables::{has, put_none, table_copy, text_at, value_at, without};
use std::alloc::{AllocError, Global};
use toml::{Table, Value};

/// Returns the value of the controller that a node names, if there is one.
fn named_controller<'a>(controllers: &'a Table, table: &Table) -> Option<&'a Value>
    ensures { option_map (λ v. view v.now) result ≡ named_value (table_view controllers.now) (table_view table.now) }
{
    value_at(controllers, text_at(table, "controller")?)
}

/// Returns the keys of a node's table, and those of its controller that it lacks.
#[tactic(auto, unfolding(crate::specs::Nodes::with_controller))]
fn with_controller(
    alloc: Global,
    units: Units,
    controllers: &Table,
    table: &Table,
) -> Result<Table, AllocError>
    ensures { IfOk result (λ t. table_view t ≡ with_controller units (table_view controllers.now) (table_view table.now)) }
{
    if !has(table, "controller") {
        return plain_row(alloc, units, Row::Node, table);
    }
    let found = named_controller(controllers, table);
    let is_found = match found {
        Some(value) => value.is_table(),
        None => false,
    };
    let mut plain = table_copy(alloc, found)?;
    put_row(alloc, units, Row::Node, table, &mut plain)?;
    if is_found {
        without(&mut plain, "controller");
    } else {
        put_none(alloc, &mut plain, "controller")?;
    }
    Ok(plain)
}

/// Makes the clock of a node plain, and obeys its kind.
#[tactic(auto, unfolding(crate::specs::Nodes::with_clock))]
fn remake_clock(alloc: Global, units: Units, table: &mut Table) -> Result<(), AllocError>
    ensures { OnOk result (table_view table.new ≡ with_clock units (table_view table.old)) }
{
    remake_rows(alloc, units, Row::Rate, table, "rates")?;
    obey_kind(alloc, units, table)?;
    settle(alloc, units, table)
}

/// Returns the plain form of a node's table.
#[tactic(auto, unfolding(crate::specs::Nodes::plain_node))]
fn plain_node(
    alloc: Global,
    units: Units,
    controllers: &Table,
    table: &Table,
) -> Result<Table, AllocError>
    ensures { IfOk result (λ t. table_view t ≡ plain_node units (table_view controllers.now) (table_view table.now)) }
{
    let mut plain = with_controller(alloc, units, controllers, table)?;
    remake_clock(alloc, units, &mut plain)?;
    remake_frames(alloc, units, &mut plain)?;
    Ok(plain)
}

/// Returns the plain form of a value that is a node's table; any other as it is.
fn plain_value(
    alloc: Global,
    units: Units,
    controllers: &Table,
    value: &Value,
) -> Result<Value, AllocError>
    ensures { IfOk result (λ v. view v ≡ plain_node_of units (table_view controllers.now) (view value.now)) }
{
    match value.as_table() {
        Some(table) => Ok(Value::from(plain_node(alloc, units, controllers, table)?)),
        None => Ok(value.clone()?),
    }
}

/// Returns the plain forms of the values of an array of nodes.
pub(crate) fn plain_nodes(
    alloc: Global,
    units: Units,
    controllers: &Table,
    values: &[Value],
) -> Result<Vec<Value>, AllocError>
    ensures { IfOk result (λ all. map view all.items
        ≡ map (plain_node_of units (table_view controllers.now)) (map view values.now)) }
{
    let mut all = Vec::new(alloc);
    for value in values {
        all.push(plain_value(alloc, units, controllers, value)?)?;
    }
    Ok(all)
}
