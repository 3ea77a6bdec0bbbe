//! What the values of a table's keys are, and what they say.
ghost use Rattle.std.specs.Prelude.{◌≡◌, ◌≤◌, ◌^◌, ◌<◌, true, Some, None, option_map, option_copied, IsSome, IfOk, is_some, map};
ghost use Rattle.std.specs.List.{list_all};
ghost use Rattle.toml.specs.Data.{as_table, get_member};
ghost use Rattle.toml.specs.View.{view, table_view, items_view};
ghost use Rattle.wl_setup.specs.Kinds.{are_all_tables, is_filled, is_wide_kind, queue_at, queue_in, queue_named, some_number_at, tick_at, tick_value, unit_at, unit_value, number_within, number_in, positive_in, positive_at, some_name_at, byte_in, is_name, is_name_letter, is_ppm, has_kind, number_at, small_at, tolerance_at, ppm_at, truth_at, name_said, elements_of, elements_said, bytes_at, sync_named, sync_in, sync_choice_at};

use crate::keys::{Key, Kind};
use crate::limits::{
    LARGEST_BYTE, LARGEST_NUMBER, LARGEST_PPM, LARGEST_SMALL, LARGEST_TOLERANCE, LONGEST_NAME,
};
use crate::plan_text::QueueText;
use crate::tables::TableKey;
use crate::text::Text;
use std::alloc::{AllocError, Global};
use toml::{Table, Value};
use wl_level::Listed;
use wl_segments::SyncRules;
use wl_units::{tick_said, unit_said};

/// Returns the value at a key of this name.
pub fn value_named<'a>(table: &'a Table, name: &str) -> Option<&'a Value>
    ensures { option_map (λ v. view v.now) result ≡ get_member name.now (table_view table.now) }
{
    table.get(name)
}

/// Returns the value of a key.
pub fn value_at<K: TableKey>(table: &Table, key: K) -> Option<&Value>
    ensures { option_map (λ v. view v.now) result ≡ get_member (K.word key) (table_view table.now) }
{
    value_named(table, key.word())
}

/// Returns a whole number from 0 to the greatest.
fn number_in(most: u64, value: &Value) -> Option<u64>
    ensures { result ≡ number_in most (view value.now) }
{
    match value.as_integer() {
        Some(n) if n >= 0 && n as u64 <= most => Some(n as u64),
        _ => None,
    }
}

/// Returns a whole number from the least to the greatest.
pub fn number_within(least: u64, most: u64, value: &Value) -> Option<u64>
    ensures { result ≡ number_within least most (view value.now) }
{
    match number_in(most, value) {
        Some(n) if n >= least => Some(n),
        _ => None,
    }
}

/// Returns a whole number from 1 on.
#[tactic(auto, unfolding(crate::specs::Limits::largest_number))]
fn positive_in(value: &Value) -> Option<u64>
    ensures { result ≡ positive_in (view value.now) }
{
    number_within(1, LARGEST_NUMBER, value)
}

fn is_name_letter(letter: u8) -> bool
    ensures { result ≡ is_name_letter letter }
{
    letter.is_ascii_alphanumeric() || letter == b'_' || letter == b'-'
}

fn are_name_letters(text: &str) -> bool
    ensures { result ≡ list_all is_name_letter text.now }
{
    text.as_bytes().iter().all(|letter| is_name_letter(*letter))
}

fn is_name(text: &str) -> bool
    ensures { result ≡ is_name text.now }
{
    1 <= text.len() && text.len() <= LONGEST_NAME && are_name_letters(text)
}

#[tactic(auto, unfolding(crate::specs::Limits::largest_ppm))]
fn is_ppm(n: i64) -> bool
    ensures { result ≡ is_ppm n }
{
    n.unsigned_abs() <= LARGEST_PPM
}

fn are_bytes(values: &[Value]) -> bool
    ensures { result ≡ list_all (λ v. is_some (byte_in (view v))) values.now }
{
    values
        .iter()
        .all(|value| number_in(LARGEST_BYTE, value).is_some())
}

fn are_tables(values: &[Value]) -> bool
    ensures { result ≡ list_all (λ v. is_some (as_table (view v))) values.now }
{
    values.iter().all(|value| value.is_table())
}

/// Returns the elements of an array.
fn elements_of(value: &Value) -> Option<&[Value]>
    ensures { option_map (λ vs. map view vs.now) result ≡ elements_of (view value.now) }
{
    match value.as_array() {
        Some(array) => Some(array.as_slice()),
        None => None,
    }
}

/// Returns where SYNC_SEG lies, as a word says it.
fn sync_named(text: &str) -> Option<SyncRules>
    ensures { result ≡ sync_named text.now }
{
    if text == "after" {
        Some(SyncRules::After)
    } else if text == "book" {
        Some(SyncRules::Book)
    } else {
        None
    }
}

fn sync_in(value: &Value) -> Option<SyncRules>
    ensures { result ≡ sync_in (view value.now) }
{
    match value.as_str() {
        Some(text) => sync_named(text),
        None => None,
    }
}

/// Returns which frame a node sends first, as a word says it.
fn queue_named(text: &str) -> Option<QueueText>
    ensures { result ≡ queue_named text.now }
{
    if text == "fifo" {
        Some(QueueText::Fifo)
    } else if text == "priority" {
        Some(QueueText::Priority)
    } else {
        None
    }
}

fn queue_in(value: &Value) -> Option<QueueText>
    ensures { result ≡ queue_in (view value.now) }
{
    match value.as_str() {
        Some(text) => queue_named(text),
        None => None,
    }
}

/// Returns the length of a tick in femtoseconds.
fn tick_value(value: &Value) -> Option<u64>
    ensures { result ≡ tick_value (view value.now) }
{
    match value.as_str() {
        Some(text) => tick_said(text),
        None => None,
    }
}

/// Returns the length of a unit of length in micrometres.
fn unit_value(value: &Value) -> Option<u64>
    ensures { result ≡ unit_value (view value.now) }
{
    match value.as_str() {
        Some(text) => unit_said(text),
        None => None,
    }
}

fn is_filled(text: &str) -> bool
    ensures { result ≡ is_filled text.now }
{
    1 <= text.len()
}

/// True if each member is a table.
fn are_all_tables(table: &Table) -> bool
    ensures { result ≡ are_all_tables (table_view table.now) }
{
    for (_, value) in table.iter() {
        if !value.is_table() {
            return false;
        }
    }
    true
}

/// True if a value is of a kind that version 4 has besides.
fn has_wide_kind(kind: Kind, value: &Value) -> bool
    requires { is_wide_kind kind ≡ true }
    ensures { result ≡ has_kind kind (view value.now) }
{
    match kind {
        Kind::Queue => queue_in(value).is_some(),
        Kind::Tick => tick_value(value).is_some(),
        Kind::Unit => unit_value(value).is_some(),
        Kind::Filled => value.as_str().is_some_and(is_filled),
        _ => match value.as_table() {
            Some(table) => are_all_tables(table),
            None => false,
        },
    }
}

/// True if a value is of a kind.
#[tactic(auto, unfolding(crate::specs::Limits::largest_number, crate::specs::Limits::largest_small))]
pub fn has_kind(kind: Kind, value: &Value) -> bool
    ensures { result ≡ has_kind kind (view value.now) }
{
    match kind {
        Kind::Number => number_in(LARGEST_NUMBER, value).is_some(),
        Kind::Small => number_in(LARGEST_SMALL, value).is_some(),
        Kind::Ppm => value.as_integer().is_some_and(is_ppm),
        Kind::Truth => value.is_bool(),
        Kind::Name => value.as_str().is_some_and(is_name),
        Kind::Bytes => match elements_of(value) {
            Some(values) => are_bytes(values),
            None => false,
        },
        Kind::Sync => sync_in(value).is_some(),
        Kind::Tolerance => number_in(LARGEST_TOLERANCE, value).is_some(),
        Kind::Positive => positive_in(value).is_some(),
        Kind::Tables => match elements_of(value) {
            Some(values) => are_tables(values),
            None => false,
        },
        Kind::Queue | Kind::Tick | Kind::Unit | Kind::Filled | Kind::Named => {
            has_wide_kind(kind, value)
        }
    }
}

/// Returns the number at a key, 0 if it has none.
#[tactic(auto, unfolding(crate::specs::Limits::largest_number))]
pub(crate) fn number_at(table: &Table, key: Key) -> u64
    ensures { result ≡ number_at key (table_view table.now) }
{
    match value_at(table, key) {
        Some(value) => number_in(LARGEST_NUMBER, value).unwrap_or(0),
        None => 0,
    }
}

/// Returns the small number at a key, 0 if it has none.
#[tactic(auto, unfolding(crate::specs::Limits::largest_small))]
pub(crate) fn small_at(table: &Table, key: Key) -> u32
    ensures { result ≡ small_at key (table_view table.now) }
{
    match value_at(table, key) {
        Some(value) => match number_in(LARGEST_SMALL, value) {
            Some(n) => n as u32,
            None => 0,
        },
        None => 0,
    }
}

/// Returns the whole number at a key, 0 if it has none.
pub(crate) fn ppm_at(table: &Table, key: Key) -> i64
    ensures { result ≡ ppm_at key (table_view table.now) }
{
    match value_at(table, key) {
        Some(value) => value.as_integer().unwrap_or(0),
        None => 0,
    }
}

/// Returns the tolerance at a key in parts per million, if it has one.
pub(crate) fn tolerance_at(table: &Table, key: Key) -> Option<u32>
    ensures { result ≡ tolerance_at key (table_view table.now) }
{
    match number_in(LARGEST_TOLERANCE, value_at(table, key)?) {
        Some(ppm) => Some(ppm as u32),
        None => None,
    }
}

/// Returns the number from 1 on at a key, if it has one.
pub(crate) fn positive_at(table: &Table, key: Key) -> Option<u64>
    ensures { result ≡ positive_at key (table_view table.now) }
{
    positive_in(value_at(table, key)?)
}

/// Returns the number at a key, if it has one.
#[tactic(auto, unfolding(crate::specs::Limits::largest_number))]
pub(crate) fn some_number_at(table: &Table, key: Key) -> Option<u64>
    ensures { result ≡ some_number_at key (table_view table.now) }
{
    number_in(LARGEST_NUMBER, value_at(table, key)?)
}

/// Returns the length of a tick in femtoseconds at a key, if it has one.
pub(crate) fn tick_at(table: &Table, key: Key) -> Option<u64>
    ensures { result ≡ tick_at key (table_view table.now) }
{
    tick_value(value_at(table, key)?)
}

/// Returns the length of a unit of length in micrometres at a key, if it has one.
pub(crate) fn unit_at(table: &Table, key: Key) -> Option<u64>
    ensures { result ≡ unit_at key (table_view table.now) }
{
    unit_value(value_at(table, key)?)
}

/// Returns which frame a node sends first, at a key; the one that became ready first if it has none.
pub(crate) fn queue_at(table: &Table, key: Key) -> QueueText
    ensures { result ≡ queue_at key (table_view table.now) }
{
    match value_at(table, key) {
        Some(value) => queue_in(value).unwrap_or(QueueText::Fifo),
        None => QueueText::Fifo,
    }
}

/// Returns the truth value at a key, false if it has none.
pub(crate) fn truth_at(table: &Table, key: Key) -> bool
    ensures { result ≡ truth_at key (table_view table.now) }
{
    match value_at(table, key) {
        Some(value) => value.as_bool().unwrap_or(false),
        None => false,
    }
}

/// Returns where SYNC_SEG lies, at a key; after an edge if it has none.
pub(crate) fn sync_choice_at(table: &Table, key: Key) -> SyncRules
    ensures { result ≡ sync_choice_at key (table_view table.now) }
{
    match value_at(table, key) {
        Some(value) => sync_in(value).unwrap_or(SyncRules::After),
        None => SyncRules::After,
    }
}

/// Returns the text at a key, empty if it has none.
pub fn name_at<K: TableKey>(alloc: Global, table: &Table, key: K) -> Result<Text, AllocError>
    ensures { IfOk result (λ t. t ≡ name_said (get_member (K.word key) (table_view table.now))) }
{
    match value_at(table, key) {
        Some(value) => Text::new(alloc, value.as_str().unwrap_or("")),
        None => Text::new(alloc, ""),
    }
}

/// Returns the text at a key, if it has one.
pub(crate) fn some_name_at(
    alloc: Global,
    table: &Table,
    key: Key,
) -> Result<Option<Text>, AllocError>
    ensures { IfOk result (λ name. name ≡ some_name_at key (table_view table.now)) }
{
    let Some(value) = value_at(table, key) else {
        return Ok(None);
    };
    match value.as_str() {
        Some(text) => Ok(Some(Text::new(alloc, text)?)),
        None => Ok(None),
    }
}

/// Returns the elements of the array at a key, none if it has no array.
pub fn elements_at<K: TableKey>(table: &Table, key: K) -> &[Value]
    ensures { map view result.now ≡ elements_said (get_member (K.word key) (table_view table.now)) }
{
    match value_at(table, key) {
        Some(value) => elements_of(value).unwrap_or(&[]),
        None => &[],
    }
}

/// Returns the bytes in the array at a key.
pub(crate) fn bytes_at(alloc: Global, table: &Table, key: Key) -> Result<Listed<u8>, AllocError>
    ensures { IfOk result (λ bytes. bytes ≡ bytes_at key (table_view table.now)) }
{
    let mut bytes = Listed::new(alloc);
    for value in elements_at(table, key) {
        if let Some(byte) = number_in(LARGEST_BYTE, value) {
            bytes.push(byte as u8)?;
        }
    }
    Ok(bytes)
}
