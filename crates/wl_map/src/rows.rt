//! One row of a sweep as a sweep of its own.
ghost use Rattle.std.specs.Prelude.{◌≡◌, ◌++◌, IfOk, OnOk, drop, map, take};
ghost use Rattle.wl_map.specs.Rows.{at_first, held_ranges, ranges_alone, with_one};

use std::alloc::{AllocError, Global};
use wl_level::Listed;
use wl_setup::Text;
use wl_sweep::{SweptRange, row_value};

/// How many ranges a map varies.
const AXES: usize = 2;

/// Returns a range with these values.
fn with_values(
    alloc: Global,
    range: &SweptRange,
    values: Listed<i64>,
) -> Result<SweptRange, AllocError>
    ensures { IfOk result (λ made. made ≡ record range.now { values = values }) }
{
    Ok(SweptRange {
        called: Text::new(alloc, range.called.as_str())?,
        key: range.key,
        named: range.named,
        values,
    })
}

/// Returns a range with one value.
fn with_one(alloc: Global, value: i64, range: &SweptRange) -> Result<SweptRange, AllocError>
    ensures { IfOk result (λ made. made ≡ with_one value range.now) }
{
    let mut values = Listed::new(alloc);
    values.push(value)?;
    with_values(alloc, range, values)
}

/// Returns a range with its first value.
fn at_first(alloc: Global, range: &SweptRange) -> Result<SweptRange, AllocError>
    ensures { IfOk result (λ made. made ≡ at_first range.now) }
{
    let value = match range.values.as_slice().first() {
        Some(value) => *value,
        None => 0,
    };
    with_one(alloc, value, range)
}

/// Returns an equal range.
fn same(alloc: Global, range: &SweptRange) -> Result<SweptRange, AllocError>
    ensures { IfOk result (λ made. made ≡ range.now) }
{
    let values = range.values.clone_in(alloc)?;
    with_values(alloc, range, values)
}

/// Returns the ranges that are varied, and those that are held.
pub(crate) fn split(ranges: &[SweptRange]) -> (&[SweptRange], &[SweptRange])
    ensures axes { result.0.now ≡ take 2 ranges.now }
    ensures held { result.1.now ≡ drop 2 ranges.now }
{
    ranges.split_at(AXES.min(ranges.len()))
}

/// Adds ranges as they are.
fn push_same(
    alloc: Global,
    made: &mut Listed<SweptRange>,
    ranges: &[SweptRange],
) -> Result<(), AllocError>
    ensures { OnOk result (made.new ≡ made.old ++ ranges.now) }
{
    for range in ranges {
        made.push(same(alloc, range)?)?;
    }
    Ok(())
}

/// Adds ranges, each with its first value.
fn push_first(
    alloc: Global,
    made: &mut Listed<SweptRange>,
    ranges: &[SweptRange],
) -> Result<(), AllocError>
    ensures { OnOk result (made.new ≡ made.old ++ map at_first ranges.now) }
{
    for range in ranges {
        made.push(at_first(alloc, range)?)?;
    }
    Ok(())
}

/// Returns the ranges that are varied as they are, and each other one with its first value.
pub(crate) fn held_ranges(
    alloc: Global,
    ranges: &[SweptRange],
) -> Result<Listed<SweptRange>, AllocError>
    ensures { IfOk result (λ made. made ≡ held_ranges ranges.now) }
{
    let (axes, others) = split(ranges);
    let mut made = Listed::new(alloc);
    push_same(alloc, &mut made, axes)?;
    push_first(alloc, &mut made, others)?;
    Ok(made)
}

/// Returns the ranges of a row, each with the value that it has there.
pub(crate) fn ranges_alone(
    alloc: Global,
    ranges: &[SweptRange],
    row: u64,
) -> Result<Listed<SweptRange>, AllocError>
    ensures { IfOk result (λ made. made ≡ ranges_alone row ranges.now) }
{
    let mut made = Listed::new(alloc);
    for i in 0..ranges.len() {
        let value = row_value(ranges, i, row);
        made.push(with_one(alloc, value, &ranges[i])?)?;
    }
    Ok(made)
}
