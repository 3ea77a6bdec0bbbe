//! The tables of controllers, which nodes name.
ghost use Rattle.std.specs.Prelude.{◌≡◌, IfOk, OnOk};
ghost use Rattle.toml.specs.Data.{no_members};
ghost use Rattle.toml.specs.View.{view, table_view};
ghost use Rattle.wl_plain.specs.Documents.{is_kind, plain_controller, plain_controller_of, put_controllers, unless_right};

use crate::clock::{bit_rate_at, hertz_at};
use crate::measure::{Row, Units, plain_row};
use crate::tables::{has, put_none, text_at, with_member};
use std::alloc::{AllocError, Global};
use toml::{Table, Value};
use wl_kinds::kind_named;

/// Puts no value at a key whose value is wrong.
fn put_unless(alloc: Global, table: &mut Table, key: &str, is_right: bool) -> Result<(), AllocError>
    ensures { OnOk result (table_view table.new ≡ unless_right key.now is_right (table_view table.old)) }
{
    if has(table, key) && !is_right {
        put_none(alloc, table, key)
    } else {
        Ok(())
    }
}

/// True if the word at `kind` names a kind that is known.
fn is_kind(table: &Table) -> bool
    ensures { result ≡ is_kind (table_view table.now) }
{
    match text_at(table, "kind") {
        Some(name) => kind_named(name).is_some(),
        None => false,
    }
}

/// Returns the plain form of a controller's table.
#[tactic(auto, unfolding(crate::specs::Documents::plain_controller))]
fn plain_controller(alloc: Global, units: Units, table: &Table) -> Result<Table, AllocError>
    ensures { IfOk result (λ t. table_view t ≡ plain_controller units (table_view table.now)) }
{
    let mut plain = plain_row(alloc, units, Row::Controller, table)?;
    let is_clock_key = hertz_at(units, &plain).is_some();
    let is_rate = bit_rate_at(units, &plain).is_some();
    let is_kind = is_kind(&plain);
    put_unless(alloc, &mut plain, "clock", is_clock_key)?;
    put_unless(alloc, &mut plain, "bitrate", is_rate)?;
    put_unless(alloc, &mut plain, "kind", is_kind)?;
    Ok(plain)
}

/// Returns the plain form of a value that is a controller's table; any other as it is.
fn plain_value(alloc: Global, units: Units, value: &Value) -> Result<Value, AllocError>
    ensures { IfOk result (λ v. view v ≡ plain_controller_of units (view value.now)) }
{
    match value.as_table() {
        Some(table) => Ok(Value::from(plain_controller(alloc, units, table)?)),
        None => Ok(value.clone()?),
    }
}

/// Returns the plain forms of the tables of controllers.
pub(crate) fn plain_controllers(
    alloc: Global,
    units: Units,
    table: &Table,
) -> Result<Table, AllocError>
    ensures { IfOk result (λ t. table_view t ≡ put_controllers units (table_view table.now) no_members) }
{
    let mut plain = Table::new(alloc);
    for (name, value) in table.iter() {
        let controller = plain_value(alloc, units, value)?;
        with_member(alloc, &mut plain, name.as_str(), controller)?;
    }
    Ok(plain)
}
