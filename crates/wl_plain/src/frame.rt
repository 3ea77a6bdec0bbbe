//! Frames whose times are written as such: a cycle on the node's clock, and a tick of the plan.
ghost use Rattle.std.specs.Prelude.{◌≡◌, ◌≤◌, IfOk, IfSome, OnOk, map, codes, option_map};
ghost use Rattle.toml.specs.View.{view, table_view};
ghost use Rattle.wl_plain.specs.Nodes.{beat_at_node, beat_with, every_of, fraction_at, in_quanta, millionths_of, millionths_said, plain_frame, plain_frame_of, quanta_or, ready_of, with_every, with_frames, with_quanta, with_ready};
ghost use Rattle.toml.specs.Data.{get_member};

use crate::measure::{Row, Units, plain_row};
use crate::tables::{
    array_at, has, positive, positive_number_at, put_none, put_number, value_at, whole_number_at,
    whole_of, with_member, without,
};
use std::alloc::{AllocError, Global};
use toml::{Table, Value};
use wl_units::{LARGEST_WHOLE, quantum_from, whole_quanta};

/// The quanta of a node with one rate.
#[derive(Clone, Copy, Debug, PartialEq, Eq)]
pub struct Beat {
    /// The tick at which quantum 0 begins.
    pub offset: u64,
    /// A quantum takes `num / den` ticks without the deviation.
    pub num: u64,
    pub den: u64,
    /// How many millionths of this it lasts with it.
    pub millionths: u32,
}

/// Returns how many millionths of its length a quantum lasts with a deviation in parts per million, from -100,000 to 100,000.
fn millionths_of(ppm: i64) -> Option<u32>
    ensures { result ≡ millionths_of ppm }
{
    if ppm.unsigned_abs() > 100_000 {
        return None;
    }
    if ppm >= 0 {
        Some(1_000_000 + ppm.unsigned_abs() as u32)
    } else {
        Some(1_000_000 - ppm.unsigned_abs() as u32)
    }
}

/// Returns the same of the value of a key, which may be absent.
fn millionths_said(value: Option<&Value>) -> Option<u32>
    ensures { result ≡ millionths_said (option_map (λ v. view v.now) value.entry) }
{
    match value {
        Some(value) => millionths_of(value.as_integer()?),
        None => Some(1_000_000),
    }
}

/// Returns how many ticks a quantum takes by a node's own keys, without the deviation.
fn fraction_at(table: &Table) -> (Option<u64>, Option<u64>)
    ensures { result ≡ fraction_at (table_view table.now) }
{
    if has(table, "quantum") {
        (positive_number_at(table, "quantum"), Some(1))
    } else {
        (
            positive_number_at(table, "num"),
            positive_number_at(table, "den"),
        )
    }
}

/// Returns the quanta of a node, if it has one rate.
#[tactic(auto, unfolding(crate::specs::Nodes::beat_at_node))]
fn beat_at_node(table: &Table) -> Option<Beat>
    ensures { result ≡ beat_at_node (table_view table.now) }
{
    if has(table, "rates") {
        return None;
    }
    let (num, den) = fraction_at(table);
    let offset = whole_number_at(table, "offset")?;
    let (num, den) = (num?, den?);
    Some(Beat {
        offset,
        num,
        den,
        millionths: millionths_said(value_at(table, "ppm"))?,
    })
}

impl Beat {
    /// Returns how many quanta a time is, if it is one or more whole ones.
    fn every_of(self, ticks: u64) -> Option<u64>
        ensures every { result ≡ every_of self ticks }
        ensures most { IfSome result (λ n. n ≤ LARGEST_WHOLE) }
    {
        positive(whole_quanta(ticks, self.num, self.den)?)
    }

    /// Returns the first quantum that begins at a tick or later.
    fn ready_of(self, tick: u64) -> Option<u64>
        ensures ready { result ≡ ready_of self tick }
        ensures most { IfSome result (λ n. n ≤ LARGEST_WHOLE) }
    {
        quantum_from(
            tick.saturating_sub(self.offset),
            self.num,
            self.den,
            self.millionths,
        )
    }
}

/// Puts quanta at a key in the place of a time at another, or no value at that one if there are none.
fn put_quanta(
    alloc: Global,
    table: &mut Table,
    time: &str,
    quanta: &str,
    n: Option<u64>,
) -> Result<(), AllocError>
    requires { IfSome n (λ n. n ≤ LARGEST_WHOLE) }
    ensures { OnOk result (table_view table.new ≡ quanta_or time.now quanta.now n (table_view table.old)) }
{
    match n {
        Some(n) => {
            without(table, time);
            put_number(alloc, table, quanta, n)
        }
        None => put_none(alloc, table, time),
    }
}

/// Returns after how many quanta a frame becomes ready again, by the value of `cycle`.
fn every_in(beat: Option<Beat>, value: &Value) -> Option<u64>
    ensures every { result ≡ in_quanta every_of beat (view value.now) }
    ensures most { IfSome result (λ n. n ≤ LARGEST_WHOLE) }
{
    beat?.every_of(whole_of(value)?)
}

/// Returns from which quantum on it waits, by the value of `at`.
fn ready_in(beat: Option<Beat>, value: &Value) -> Option<u64>
    ensures ready { result ≡ in_quanta ready_of beat (view value.now) }
    ensures most { IfSome result (λ n. n ≤ LARGEST_WHOLE) }
{
    beat?.ready_of(whole_of(value)?)
}

/// Puts `every` in the place of `cycle`.
#[tactic(auto, unfolding(crate::specs::Nodes::with_every))]
fn put_every(alloc: Global, beat: Option<Beat>, table: &mut Table) -> Result<(), AllocError>
    ensures { OnOk result (table_view table.new ≡ with_every beat (table_view table.old)) }
{
    let every = match value_at(table, "cycle") {
        Some(value) => every_in(beat, value),
        None => return Ok(()),
    };
    if has(table, "every") {
        return put_none(alloc, table, "cycle");
    }
    put_quanta(alloc, table, "cycle", "every", every)
}

/// Puts `ready` in the place of `at`.
#[tactic(auto, unfolding(crate::specs::Nodes::with_ready))]
fn put_ready(alloc: Global, beat: Option<Beat>, table: &mut Table) -> Result<(), AllocError>
    ensures { OnOk result (table_view table.new ≡ with_ready beat (table_view table.old)) }
{
    let ready = match value_at(table, "at") {
        Some(value) => ready_in(beat, value),
        None => return Ok(()),
    };
    if has(table, "ready") {
        return put_none(alloc, table, "at");
    }
    put_quanta(alloc, table, "at", "ready", ready)
}

/// Returns the plain form of a frame's table.
#[tactic(auto, unfolding(crate::specs::Nodes::plain_frame))]
fn plain_frame(
    alloc: Global,
    units: Units,
    beat: Option<Beat>,
    table: &Table,
) -> Result<Table, AllocError>
    ensures { IfOk result (λ t. table_view t ≡ plain_frame units beat (table_view table.now)) }
{
    let mut plain = plain_row(alloc, units, Row::Frame, table)?;
    put_every(alloc, beat, &mut plain)?;
    put_ready(alloc, beat, &mut plain)?;
    Ok(plain)
}

/// Returns the plain form of a value that is a frame's table; any other as it is.
fn plain_value(
    alloc: Global,
    units: Units,
    beat: Option<Beat>,
    value: &Value,
) -> Result<Value, AllocError>
    ensures { IfOk result (λ v. view v ≡ plain_frame_of units beat (view value.now)) }
{
    match value.as_table() {
        Some(table) => Ok(Value::from(plain_frame(alloc, units, beat, table)?)),
        None => Ok(value.clone()?),
    }
}

fn plain_values(
    alloc: Global,
    units: Units,
    beat: Option<Beat>,
    values: &[Value],
) -> Result<Vec<Value>, AllocError>
    ensures { IfOk result (λ all. map view all.items ≡ map (plain_frame_of units beat) (map view values.now)) }
{
    let mut all = Vec::new(alloc);
    for value in values {
        all.push(plain_value(alloc, units, beat, value)?)?;
    }
    Ok(all)
}

/// Makes the frames of a node plain.
#[tactic(auto, unfolding(crate::specs::Nodes::with_frames))]
pub(crate) fn remake_frames(
    alloc: Global,
    units: Units,
    table: &mut Table,
) -> Result<(), AllocError>
    ensures { OnOk result (table_view table.new ≡ with_frames units (table_view table.old)) }
{
    let beat = beat_at_node(table);
    let all = match array_at(table, "frame") {
        Some(values) => plain_values(alloc, units, beat, values)?,
        None => return Ok(()),
    };
    with_member(alloc, table, "frame", Value::from(all))
}
