//! The first fault of a table, whatever its keys are.
ghost use Rattle.std.specs.Prelude.{◌≡◌, map, Some, None, option_map, Bool, true, false};
ghost use Rattle.toml.specs.View.{view, table_view};
ghost use Rattle.wl_setup.specs.Keys.{table_keys};
ghost use Rattle.wl_setup.specs.Faults.{first_some, key_fault, fault_at_key, fault_of_keys, is_among, required_fault, setup_fault, table_fault, unknown_key};
ghost use Rattle.wl_setup.specs.Document.{Passes};

use crate::fault::SetupFault;
use crate::keys::{Key, Keys};
use crate::text::Text;
use crate::values::value_at;
use std::alloc::Global;
use toml::{Table, Value};

/// A key of a table.
pub trait TableKey: Copy {
    ghost use Rattle.std.specs.Prelude.{ℕ, Bool, List};
    ghost use Rattle.toml.specs.Data.{Data};

    /// The key as it is written.
    ghost word: { Self → List ℕ };

    /// Whether a value is what the key's has to be.
    ghost takes: { Self → Data → Bool };

    /// Returns the key as it is written.
    fn word(self) -> &'static str
        ensures { result.now ≡ word self };

    /// True if a value is what the key's has to be.
    fn takes(self, value: &Value) -> bool
        ensures { result ≡ takes self (view value.now) };
}

/// What is wrong with a key.
#[derive(Clone, Copy)]
pub enum Wrong {
    /// A required key is not there.
    Missing,
    /// Its value isn't what it has to be.
    Kind,
    /// Its table should not have it.
    Unknown,
}

/// A fault of a table.
#[derive(Clone, Copy)]
pub struct KeyFault<'a> {
    /// What is wrong with the key.
    pub wrong: Wrong,
    /// The key as it is written.
    pub key: &'a str,
}

/// Returns the fault of a key, which is needed or not.
fn fault_at_key<K: TableKey>(table: &Table, key: K, needed: bool) -> Option<KeyFault<'static>>
    ensures { option_map key_fault result ≡ fault_at_key K.word K.takes needed (table_view table.now) key }
{
    let wrong = match value_at(table, key) {
        Some(value) if key.takes(value) => return None,
        Some(_) => Wrong::Kind,
        None if needed => Wrong::Missing,
        None => return None,
    };
    Some(KeyFault {
        wrong,
        key: key.word(),
    })
}

fn first_at_keys<K: TableKey>(table: &Table, keys: &[K], needed: bool) -> Option<KeyFault<'static>>
    ensures { option_map key_fault result
        ≡ first_some (map (fault_at_key K.word K.takes needed (table_view table.now)) keys.now) }
{
    for key in keys {
        if let Some(fault) = fault_at_key(table, *key, needed) {
            return Some(fault);
        }
    }
    None
}

fn is_among<K: TableKey>(keys: &[K], text: &str) -> bool
    ensures { result ≡ is_among K.word keys.now text.now }
{
    keys.iter().any(|key| key.word() == text)
}

/// Returns the first key, in the order of their bytes, that is none of these.
fn unknown_key<'a, K: TableKey>(table: &'a Table, required: &[K], optional: &[K]) -> Option<&'a str>
    ensures { option_map (λ t. t.now) result ≡ unknown_key K.word required.now optional.now (table_view table.now) }
{
    for key in table.keys() {
        let text = key.as_str();
        if !is_among(required, text) && !is_among(optional, text) {
            return Some(text);
        }
    }
    None
}

/// Returns the first fault of a table: of its required keys, then of its optional ones, then a key that it should not have.
pub fn fault_of_keys<'a, K: TableKey>(
    table: &'a Table,
    required: &[K],
    optional: &[K],
) -> Option<KeyFault<'a>>
    ensures { option_map key_fault result
        ≡ fault_of_keys K.word K.takes required.now optional.now (table_view table.now) }
{
    if let Some(fault) = first_at_keys(table, required, true) {
        return Some(fault);
    }
    if let Some(fault) = first_at_keys(table, optional, false) {
        return Some(fault);
    }
    match unknown_key(table, required, optional) {
        Some(key) => Some(KeyFault {
            wrong: Wrong::Unknown,
            key,
        }),
        None => None,
    }
}

/// Refuses a plan that has this fault.
fn refuse(alloc: Global, fault: Option<KeyFault>) -> Result<(), SetupFault>
    ensures { Passes (option_map setup_fault (option_map key_fault fault.entry)) result }
{
    let Some(fault) = fault else {
        return Ok(());
    };
    let key = Text::new(alloc, fault.key)?;
    Err(match fault.wrong {
        Wrong::Missing => SetupFault::Missing(key),
        Wrong::Kind => SetupFault::Kind(key),
        Wrong::Unknown => SetupFault::Unknown(key),
    })
}

/// Tests a key of a plan that has to be there.
pub(crate) fn check_required(alloc: Global, table: &Table, key: Key) -> Result<(), SetupFault>
    ensures { Passes (required_fault (table_view table.now) key) result }
{
    refuse(alloc, fault_at_key(table, key, true))
}

/// Tests one table of a plan.
pub(crate) fn check_table(alloc: Global, table: &Table, keys: Keys) -> Result<(), SetupFault>
    ensures { Passes (table_fault (table_keys keys.required.now keys.optional.now) (table_view table.now)) result }
{
    refuse(alloc, fault_of_keys(table, keys.required, keys.optional))
}
