//! Numbers of a fixed number of digits.
ghost use Rattle.std.specs.Prelude.{◌≡◌, ◌<◌, ◌≤◌, true, OnOk};
ghost use Rattle.std.specs.Fmt.{digit_glyph};
ghost use Rattle.wl_views.specs.Digits.{Extends, digits_of};

use std::alloc::AllocError;

/// Returns the letter of a digit, upper case above 9.
fn glyph(digit: u8) -> u8
    requires { digit < 16 }
    ensures { result ≡ digit_glyph true digit }
{
    if digit < 10 {
        b'0' + digit
    } else {
        b'A' + (digit - 10)
    }
}

/// Adds the last `count` digits of a number to a base, with leading zeros.
pub(crate) fn push_digits(
    text: &mut Vec<u8>,
    base: u128,
    count: u32,
    number: u128,
) -> Result<(), AllocError>
    requires some { 0 < base }
    requires few { base ≤ 16 }
    ensures { OnOk result (Extends text.old text.new (digits_of base count number)) }
{
    if count == 0 {
        return Ok(());
    }
    push_digits(text, base, count - 1, number / base)?;
    text.push(glyph((number % base) as u8))?;
    Ok(())
}
