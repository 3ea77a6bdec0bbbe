//! What the values of a table's keys are, and what they say.
ghost use Rattle.std.specs.Prelude.{◌≡◌, ◌≤◌, ◌<◌, ◌^◌};
ghost use Rattle.toml.specs.View.{view, table_view};
ghost use Rattle.wl_settings.specs.Kinds.{bounds_at, bounds_in, flag_at, has_joint_parts, is_of_kind, permille_of, wished_sample_at, sample_in, sample_said, whole_at, segment_at, senders_at, senders_in, senders_named};

use crate::asked::Bounds;
use crate::keys::{Key, VERSION_OF_CONTROLLERS, ValueKind};
use crate::registers::{bounds_of_kind, widest_bounds};
use toml::{Table, Value};
use wl_bound::Senders;
use wl_kinds::kind_named;
use wl_setup::{has_kind, number_within, value_at};

/// Returns who sends, as a word says it.
pub(crate) fn senders_named(text: &str) -> Option<Senders>
    ensures { result ≡ senders_named text.now }
{
    if text == "one" {
        Some(Senders::One)
    } else if text == "any" {
        Some(Senders::Any)
    } else {
        None
    }
}

fn senders_in(value: &Value) -> Option<Senders>
    ensures { result ≡ senders_in (view value.now) }
{
    match value.as_str() {
        Some(text) => senders_named(text),
        None => None,
    }
}

/// Returns a number of thousandths by its three digits, as ASCII.
fn permille_of(tens: u8, ones: u8, tenths: u8) -> Option<u32>
    ensures { result ≡ permille_of tens ones tenths }
{
    if tens.is_ascii_digit() && ones.is_ascii_digit() && tenths.is_ascii_digit() {
        Some((tens - b'0') as u32 * 100 + (ones - b'0') as u32 * 10 + (tenths - b'0') as u32)
    } else {
        None
    }
}

/// Returns the sample point that a text says, in thousandths of a bit: two digits, a point and a third one or neither, a space or none, and `%`.
pub(crate) fn sample_said(text: &str) -> Option<u32>
    ensures { result ≡ sample_said text.now }
{
    match text.as_bytes() {
        [tens, ones, b'%'] => permille_of(*tens, *ones, b'0'),
        [tens, ones, b' ', b'%'] => permille_of(*tens, *ones, b'0'),
        [tens, ones, b'.', tenths, b'%'] => permille_of(*tens, *ones, *tenths),
        [tens, ones, b'.', tenths, b' ', b'%'] => permille_of(*tens, *ones, *tenths),
        _ => None,
    }
}

fn sample_in(value: &Value) -> Option<u32>
    ensures { result ≡ sample_in (view value.now) }
{
    match value.as_str() {
        Some(text) => sample_said(text),
        None => None,
    }
}

/// Returns what controllers of a kind can be set to, as its word says it.
fn bounds_in(value: &Value) -> Option<Bounds>
    ensures { result ≡ bounds_in (view value.now) }
{
    match kind_named(value.as_str()?) {
        Some(kind) => Some(bounds_of_kind(kind)),
        None => None,
    }
}

/// True if a value is of a kind.
pub(crate) fn is_of_kind(kind: ValueKind, value: &Value) -> bool
    ensures { result ≡ is_of_kind kind (view value.now) }
{
    match kind {
        ValueKind::Within(least, most) => number_within(least as u64, most as u64, value).is_some(),
        ValueKind::Senders => senders_in(value).is_some(),
        ValueKind::Named => bounds_in(value).is_some(),
        ValueKind::Sample => sample_in(value).is_some(),
        ValueKind::OfPlan(kind) => has_kind(kind, value),
    }
}

/// Returns the number at a key; without the key, or if it is of another kind, this one.
pub(crate) fn number_at(table: &Table, key: Key, without: u32) -> u32
    ensures { result ≡ whole_at key without (table_view table.now) }
{
    match (value_at(table, key), key.kind()) {
        (Some(value), ValueKind::Within(least, most)) => {
            match number_within(least as u64, most as u64, value) {
                Some(n) => n as u32,
                None => without,
            }
        }
        _ => without,
    }
}

/// Returns the quanta at a key, at most 65,535; without the key this number.
pub(crate) fn segment_at(table: &Table, key: Key, without: u16) -> u16
    ensures { result ≡ segment_at key without (table_view table.now) }
{
    number_at(table, key, without as u32).min(65_535) as u16
}

/// Returns the truth at a key; false without the key.
pub(crate) fn flag_at(table: &Table, key: Key) -> bool
    ensures { result ≡ flag_at key (table_view table.now) }
{
    match value_at(table, key) {
        Some(value) => value.as_bool().unwrap_or(false),
        None => false,
    }
}

/// Returns what controllers of the kind at a key can be set to; without the key what the widest registers can.
pub(crate) fn bounds_at(table: &Table, key: Key) -> Bounds
    ensures { result ≡ bounds_at key (table_view table.now) }
{
    match value_at(table, key) {
        Some(value) => bounds_in(value).unwrap_or(widest_bounds()),
        None => widest_bounds(),
    }
}

/// Returns the sample point at a key, in thousandths of a bit; none without the key.
pub(crate) fn wished_sample_at(table: &Table, key: Key) -> Option<u32>
    ensures { result ≡ wished_sample_at key (table_view table.now) }
{
    match value_at(table, key) {
        Some(value) => sample_in(value),
        None => None,
    }
}

/// True if the text is one of controllers whose PROP_SEG and PHASE_SEG1 are one length.
pub(crate) fn has_joint_parts(top: &Table) -> bool
    ensures { result ≡ has_joint_parts (table_view top.now) }
{
    number_at(top, Key::Version, 0) == VERSION_OF_CONTROLLERS
}

/// Returns who sends, at a key; any without the key.
pub(crate) fn senders_at(table: &Table, key: Key) -> Senders
    ensures { result ≡ senders_at key (table_view table.now) }
{
    match value_at(table, key) {
        Some(value) => senders_in(value).unwrap_or(Senders::Any),
        None => Senders::Any,
    }
}
