//! Numbers, as JSON writes them.
ghost use Rattle.std.specs.Prelude.{◌≡◌, ◌<◌, IfSome, length};
ghost use Rattle.std.specs.List.{list_all};
ghost use Rattle.std.specs.Char.{is_ascii_digit};
ghost use Rattle.wl_lines.specs.Numbers.{is_dash, is_number, is_unsigned, is_whole, is_digits, point_in};

/// True if this is a dash, which says that there is no number.
pub fn is_dash(text: &[u8]) -> bool
    ensures { result ≡ is_dash text.now }
{
    text.len() == 1 && text.starts_with(b"-")
}

/// True if all of these are digits.
fn are_digits(text: &[u8]) -> bool
    ensures { result ≡ list_all is_ascii_digit text.now }
{
    text.iter().all(|byte| byte.is_ascii_digit())
}

/// True if these are digits, one at least.
fn is_digits(text: &[u8]) -> bool
    ensures { result ≡ is_digits text.now }
{
    !text.is_empty() && are_digits(text)
}

/// True if these are digits without a superfluous zero in front.
fn is_whole(text: &[u8]) -> bool
    ensures { result ≡ is_whole text.now }
{
    is_digits(text) && (text.len() == 1 || !text.starts_with(b"0"))
}

/// Returns where the point is.
fn point_in(text: &[u8]) -> Option<usize>
    ensures place { result ≡ point_in text.now }
    ensures within { IfSome result (λ at. at < length text.now) }
{
    text.iter().position(|byte| *byte == b'.')
}

/// True if this is a number without a sign.
fn is_unsigned(text: &[u8]) -> bool
    ensures { result ≡ is_unsigned text.now }
{
    match point_in(text) {
        Some(at) => is_whole(&text[..at]) && is_digits(&text[at + 1..]),
        None => is_whole(text),
    }
}

/// True if this is a number of JSON without an exponent.
pub fn is_number(text: &[u8]) -> bool
    ensures { result ≡ is_number text.now }
{
    if text.starts_with(b"-") {
        is_unsigned(&text[1..])
    } else {
        is_unsigned(text)
    }
}
