//! The least, the mean and the greatest of some numbers.
ghost use Rattle.std.specs.Prelude.{◌≡◌, ◌<◌, ◌≤◌, ◌*◌, sum, length, OnOk};
ghost use Rattle.wl_report.specs.Lines.{GrowsBy};
ghost use Rattle.wl_traffic.specs.Messages.{greatest_of, least_of, mean_hundredths, statistics_words};

use std::alloc::AllocError;
use wl_margin::Hundredths;

/// Returns the least of some numbers.
fn least(values: &[u64]) -> u64
    requires { 0 < length values.now }
    ensures { result ≡ least_of values.now }
{
    let mut least = values[0];
    for value in values {
        least = least.min(*value);
    }
    least
}

/// Returns the greatest of some numbers.
fn greatest(values: &[u64]) -> u64
    requires { 0 < length values.now }
    ensures { result ≡ greatest_of values.now }
{
    let mut greatest = values[0];
    for value in values {
        greatest = greatest.max(*value);
    }
    greatest
}

/// Returns the sum of some numbers. It is exact: a slice has fewer than 2^64 of them.
fn sum(values: &[u64]) -> u128
    ensures exact { result ≡ sum values.now }
    ensures most { result ≤ length values.now * 18446744073709551615 }
{
    let mut sum = 0u128;
    for value in values {
        sum += u128::from(*value);
    }
    sum
}

/// Returns the mean of some numbers in hundredths, rounded down.
fn mean(values: &[u64]) -> u128
    requires { 0 < length values.now }
    ensures { result ≡ mean_hundredths values.now }
{
    let sum = sum(values);
    let count = values.len() as u128;
    sum / count * 100 + sum % count * 100 / count
}

/// Adds the least, the mean and the greatest of some numbers.
pub(crate) fn push_statistics(text: &mut String, values: &[u64]) -> Result<(), AllocError>
    ensures { OnOk result (GrowsBy text.old text.new (statistics_words values.now)) }
{
    if values.is_empty() {
        return text.push_str("least - mean - greatest -");
    }
    let least = least(values);
    let mean = Hundredths(mean(values));
    let greatest = greatest(values);
    write!(text, "least {least} mean {mean} greatest {greatest}")
}
