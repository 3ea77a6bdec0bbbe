//! Members of a TOML table: with one more, without one, and what one says.
ghost use Rattle.std.specs.Prelude.{◌≡◌, ◌≤◌, pos, map, option_map, IfOk, IfSome, OnOk, option_and_then, unwrap_or};
ghost use Rattle.toml.specs.Data.{as_table, get_member, integer, no_members};
ghost use Rattle.toml.specs.View.{view, table_view};
ghost use Rattle.wl_plain.specs.Tables.{array_at, elements, has, no_value, positive, positive_number_at, with_member, text_at, whole_number_at, whole_of, without};

use std::alloc::{AllocError, Global};
use toml::{Table, Value};
use wl_units::LARGEST_WHOLE;

/// Puts a value at a key, in the place of one that is there.
pub(crate) fn with_member(
    alloc: Global,
    table: &mut Table,
    key: &str,
    value: Value,
) -> Result<(), AllocError>
    ensures { OnOk result (table_view table.new ≡ with_member key.now (view value) (table_view table.old)) }
{
    let name = String::from_str(alloc, key)?;
    drop(table.insert(name, value)?);
    Ok(())
}

/// Puts a whole number at a key.
pub(crate) fn put_number(
    alloc: Global,
    table: &mut Table,
    key: &str,
    n: u64,
) -> Result<(), AllocError>
    requires { n ≤ LARGEST_WHOLE }
    ensures { OnOk result (table_view table.new ≡ with_member key.now (integer (pos n)) (table_view table.old)) }
{
    with_member(alloc, table, key, Value::from(n as i64))
}

/// Puts the empty text at a key, in the place of a value that is wrong there.
pub(crate) fn put_none(alloc: Global, table: &mut Table, key: &str) -> Result<(), AllocError>
    ensures { OnOk result (table_view table.new ≡ with_member key.now no_value (table_view table.old)) }
{
    with_member(alloc, table, key, Value::from(String::new(alloc)))
}

/// Takes away what is at a key.
pub(crate) fn without(table: &mut Table, key: &str)
    ensures { table_view table.new ≡ without key.now (table_view table.old) }
{
    drop(table.remove(key));
}

/// Returns the value at a key.
pub(crate) fn value_at<'a>(table: &'a Table, key: &str) -> Option<&'a Value>
    ensures { option_map (λ v. view v.now) result ≡ get_member key.now (table_view table.now) }
{
    table.get(key)
}

/// True if there is a value at a key.
pub(crate) fn has(table: &Table, key: &str) -> bool
    ensures { result ≡ has key.now (table_view table.now) }
{
    value_at(table, key).is_some()
}

/// Returns the text at a key, if it has one.
pub(crate) fn text_at<'a>(table: &'a Table, key: &str) -> Option<&'a str>
    ensures { option_map (λ t. t.now) result ≡ text_at key.now (table_view table.now) }
{
    match value_at(table, key) {
        Some(value) => value.as_str(),
        None => None,
    }
}

/// Returns a value's whole number from 0 on, if it is one and not too large.
pub(crate) fn whole_of(value: &Value) -> Option<u64>
    ensures whole { result ≡ whole_of (view value.now) }
    ensures most { IfSome result (λ n. n ≤ LARGEST_WHOLE) }
{
    match value.as_integer() {
        Some(n) if n >= 0 && n as u64 <= LARGEST_WHOLE => Some(n as u64),
        _ => None,
    }
}

/// Returns the whole number at a key, if it has one.
pub(crate) fn whole_number_at(table: &Table, key: &str) -> Option<u64>
    ensures whole { result ≡ whole_number_at key.now (table_view table.now) }
    ensures most { IfSome result (λ n. n ≤ LARGEST_WHOLE) }
{
    match value_at(table, key) {
        Some(value) => whole_of(value),
        None => None,
    }
}

/// Returns a number, if it is from 1 on.
pub(crate) fn positive(n: u64) -> Option<u64>
    ensures { result ≡ positive n }
{
    if n > 0 { Some(n) } else { None }
}

/// Returns the whole number from 1 on at a key, if it has one.
pub(crate) fn positive_number_at(table: &Table, key: &str) -> Option<u64>
    ensures whole { result ≡ positive_number_at key.now (table_view table.now) }
    ensures most { IfSome result (λ n. n ≤ LARGEST_WHOLE) }
{
    positive(whole_number_at(table, key)?)
}

/// Returns the elements of the array at a key, if it has one.
pub(crate) fn array_at<'a>(table: &'a Table, key: &str) -> Option<&'a [Value]>
    ensures { option_map (λ vs. map view vs.now) result ≡ array_at key.now (table_view table.now) }
{
    match value_at(table, key) {
        Some(value) => elements(value),
        None => None,
    }
}

/// Returns the elements of an array.
fn elements(value: &Value) -> Option<&[Value]>
    ensures { option_map (λ vs. map view vs.now) result ≡ elements (view value.now) }
{
    match value.as_array() {
        Some(array) => Some(array.as_slice()),
        None => None,
    }
}

/// Returns a copy of the table that a value is, if it is one; else an empty one.
pub(crate) fn table_copy(alloc: Global, value: Option<&Value>) -> Result<Table, AllocError>
    ensures { IfOk result (λ t. table_view t
        ≡ unwrap_or (option_and_then as_table (option_map (λ v. view v.now) value.entry)) no_members) }
{
    let Some(value) = value else {
        return Ok(Table::new(alloc));
    };
    match value.clone()? {
        Value::Table(table) => Ok(table),
        _ => Ok(Table::new(alloc)),
    }
}
