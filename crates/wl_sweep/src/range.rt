//! The ranges of a sweep: each gives a key one value after another. A row has one value of each.
ghost use Rattle.std.specs.Prelude.{◌≡◌, ◌+◌, ◌<◌, ◌≤◌, IfOk, drop, length, slice_index_or};
ghost use Rattle.wl_sweep.specs.Rows.{value_in, row_count, row_text};

use crate::change::{SweptKey, text_same, text_with};
use std::alloc::{AllocError, Global};
use wl_level::Listed;
use wl_setup::{PlanText, Text};

/// Values of a key, of the top table, of one node, or of each node that has it.
#[derive(Drop)]
pub struct SweptRange {
    /// What the range is called in what is written.
    pub called: Text,
    /// The key.
    pub key: SweptKey,
    /// The number of the node whose key it is; each that has it if none is named.
    pub named: Option<usize>,
    /// The values, in the order of the rows.
    pub values: Listed<i64>,
}

/// Returns how many rows ranges make, 2^64 - 1 if there are more: one for each choice of a value from each.
pub fn row_count(ranges: &[SweptRange]) -> u64
    ensures { result ≡ row_count ranges.now }
{
    let mut rows = 1u64;
    for range in ranges {
        rows = rows.saturating_mul(range.values.len() as u64);
    }
    rows
}

/// Returns the value of a range in a row, if `rows` rows go by before it takes the next one.
fn value_in(range: &SweptRange, later: u64, row: u64) -> i64
    ensures { result ≡ value_in range.now later row }
{
    let count = range.values.len() as u64;
    let place = row / later.max(1) % count.max(1);
    match range.values.as_slice().get(place as usize) {
        Some(value) => *value,
        None => 0,
    }
}

/// Returns the value of range `i` in a row: that of the last range changes the fastest.
pub fn row_value(ranges: &[SweptRange], i: usize, row: u64) -> i64
    requires { i < length ranges.now }
    ensures { (g : _) → g ≡ slice_index_or ranges.now i g
        → result ≡ value_in g (row_count (drop (i + 1) ranges.now)) row }
{
    let later = row_count(&ranges[i + 1..]);
    value_in(&ranges[i], later, row)
}

/// Returns the text of a row: in it each key of a range has the range's value.
pub(crate) fn row_text(
    alloc: Global,
    text: &PlanText,
    ranges: &[SweptRange],
    row: u64,
) -> Result<PlanText, AllocError>
    ensures { IfOk result (λ t. t ≡ row_text row ranges.now text.now) }
{
    let mut made = text_same(alloc, text)?;
    for i in 0..ranges.len() {
        let value = row_value(ranges, i, row);
        let range = &ranges[i];
        made = text_with(alloc, &made, range.key, range.named, value)?;
    }
    Ok(made)
}
