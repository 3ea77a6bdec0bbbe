//! Words of units, as bytes.
ghost use Rattle.std.specs.Prelude.{◌≡◌};
ghost use Rattle.std.specs.Str.{bytes_eq};
ghost use Rattle.wl_units.specs.Units.{behind_space, bit_rate_factor, frequency_factor, length_factor, per_length_factors, time_factor};

/// True if these bytes are a word.
fn is(text: &[u8], word: &str) -> bool
    ensures { result ≡ bytes_eq text.now word.now }
{
    text == word.as_bytes()
}

/// Returns how many femtoseconds a unit of time has.
pub(crate) fn time_factor(text: &[u8]) -> Option<u64>
    ensures { result ≡ time_factor text.now }
{
    if is(text, "ns") {
        Some(1_000_000)
    } else if is(text, "us") {
        Some(1_000_000_000)
    } else if is(text, "ms") {
        Some(1_000_000_000_000)
    } else if is(text, "s") {
        Some(1_000_000_000_000_000)
    } else if is(text, "ps") {
        Some(1000)
    } else if is(text, "fs") {
        Some(1)
    } else {
        None
    }
}

/// Returns how many micrometres a unit of length has.
pub(crate) fn length_factor(text: &[u8]) -> Option<u64>
    ensures { result ≡ length_factor text.now }
{
    if is(text, "m") {
        Some(1_000_000)
    } else if is(text, "cm") {
        Some(10_000)
    } else if is(text, "mm") {
        Some(1000)
    } else if is(text, "km") {
        Some(1_000_000_000)
    } else if is(text, "um") {
        Some(1)
    } else {
        None
    }
}

/// Returns how many femtoseconds a time along a length has, and how many micrometres the length.
pub(crate) fn per_length_factors(text: &[u8]) -> Option<(u64, u64)>
    ensures { result ≡ per_length_factors text.now }
{
    if is(text, "ns/m") {
        Some((1_000_000, 1_000_000))
    } else if is(text, "ps/m") {
        Some((1000, 1_000_000))
    } else if is(text, "us/m") {
        Some((1_000_000_000, 1_000_000))
    } else if is(text, "ps/mm") {
        Some((1000, 1000))
    } else if is(text, "ps/cm") {
        Some((1000, 10_000))
    } else if is(text, "ns/cm") {
        Some((1_000_000, 10_000))
    } else if is(text, "us/km") {
        Some((1_000_000_000, 1_000_000_000))
    } else if is(text, "ns/km") {
        Some((1_000_000, 1_000_000_000))
    } else {
        None
    }
}

/// Returns how many Hz a unit of frequency has.
pub(crate) fn frequency_factor(text: &[u8]) -> Option<u64>
    ensures { result ≡ frequency_factor text.now }
{
    if is(text, "MHz") {
        Some(1_000_000)
    } else if is(text, "kHz") {
        Some(1000)
    } else if is(text, "Hz") {
        Some(1)
    } else {
        None
    }
}

/// Returns how many bit/s a unit of a bit rate has.
pub(crate) fn bit_rate_factor(text: &[u8]) -> Option<u64>
    ensures { result ≡ bit_rate_factor text.now }
{
    if is(text, "kbit/s") {
        Some(1000)
    } else if is(text, "k") {
        Some(1000)
    } else if is(text, "Mbit/s") {
        Some(1_000_000)
    } else if is(text, "M") {
        Some(1_000_000)
    } else if is(text, "bit/s") {
        Some(1)
    } else {
        None
    }
}

/// Returns a text without a space at its start, if it has one.
pub(crate) fn behind_space(text: &[u8]) -> &[u8]
    ensures { result.now ≡ behind_space text.now }
{
    match text.first() {
        Some(b' ') => &text[1..],
        _ => text,
    }
}
