//! The parts of a TOML text, by where they begin and end (TOML 1.0). A text that is no TOML gives some place. A place after the text is its
//! end.
/// Returns the byte at a place; 0 after the text.
fn byte_at(text: &[u8], at: usize) -> u8 {
    text.get(at).copied().unwrap_or(0)
}

/// True if a text has these bytes at a place.
fn has_at(text: &[u8], at: usize, wanted: &[u8]) -> bool {
    match text.get(at..) {
        Some(rest) => rest.starts_with(wanted),
        None => false,
    }
}

/// Returns the place of the first of these bytes from a place on; the end of the text if there is none.
fn next_of(text: &[u8], from: usize, wanted: u8) -> usize {
    for at in from..text.len() {
        if text[at] == wanted {
            return at;
        }
    }
    text.len()
}

/// Returns the place after a string of three quotes, whose first is at a place.
fn long_string_end(text: &[u8], from: usize, quote: u8) -> usize {
    let marks = [quote, quote, quote];
    let mut escaped = false;
    for at in from.saturating_add(3)..text.len() {
        if escaped {
            escaped = false;
        } else if quote == b'"' && text[at] == b'\\' {
            escaped = true;
        } else if has_at(text, at, &marks) && byte_at(text, at.saturating_add(3)) != quote {
            return at.saturating_add(3).min(text.len());
        }
    }
    text.len()
}

/// Returns the place after a string of one quote on one line.
fn short_string_end(text: &[u8], from: usize, quote: u8) -> usize {
    let mut escaped = false;
    for at in from.saturating_add(1)..text.len() {
        if escaped {
            escaped = false;
        } else if quote == b'"' && text[at] == b'\\' {
            escaped = true;
        } else if text[at] == quote {
            return at + 1;
        } else if text[at] == b'\n' {
            return at;
        }
    }
    text.len()
}

/// Returns the place after a string that begins at a place with this quote.
fn string_end(text: &[u8], from: usize, quote: u8) -> usize {
    let marks = [quote, quote, quote];
    if has_at(text, from, &marks) {
        long_string_end(text, from, quote)
    } else {
        short_string_end(text, from, quote)
    }
}

/// Returns the place after the string, the comment or the byte at a place.
fn piece_end(text: &[u8], from: usize) -> usize {
    match byte_at(text, from) {
        b'"' => string_end(text, from, b'"'),
        b'\'' => string_end(text, from, b'\''),
        b'#' => next_of(text, from, b'\n'),
        _ => from.saturating_add(1).min(text.len()),
    }
}

/// Returns the first place from a place on where neither white space, nor a comment, nor a comma is.
pub(crate) fn skip_blanks(text: &[u8], from: usize) -> usize {
    let mut at = from;
    for _ in 0..text.len() {
        match byte_at(text, at) {
            b' ' | b'\t' | b'\r' | b'\n' | b',' | b'#' => at = piece_end(text, at),
            _ => return at,
        }
    }
    at
}

/// Returns the place after the value that begins at a place: a newline, a comma or a bracket that closes what it is in.
pub(crate) fn value_end(text: &[u8], from: usize) -> usize {
    let mut at = from;
    let mut depth = 0u32;
    for _ in 0..text.len() {
        match byte_at(text, at) {
            b'[' | b'{' => depth = depth.saturating_add(1),
            b']' | b'}' if depth == 0 => return at,
            b']' | b'}' => depth = depth.saturating_sub(1),
            b'\n' | b',' | b'#' if depth == 0 => return at,
            _ => {}
        }
        at = piece_end(text, at);
    }
    at
}

/// Returns the place of the `=` or `]` after the key that begins at a place; the end of its line if there is none.
pub(crate) fn key_end(text: &[u8], from: usize) -> usize {
    let mut at = from;
    for _ in 0..text.len() {
        match byte_at(text, at) {
            b'=' | b']' | b'\n' => return at,
            _ => at = piece_end(text, at),
        }
    }
    at
}

/// True if the key from one place to another is this word, bare or in quotes.
pub(crate) fn is_key(text: &[u8], from: usize, end: usize, word: &[u8]) -> bool {
    let Some(key) = text.get(from..end) else {
        return false;
    };
    let bare = key.trim_ascii();
    match bare {
        [b'"', inner @ .., b'"'] => inner == word,
        [b'\'', inner @ .., b'\''] => inner == word,
        _ => bare == word,
    }
}

/// Returns the place of the value after the `=` at a place.
pub(crate) fn value_behind(text: &[u8], equals: usize) -> usize {
    let mut at = equals.saturating_add(1).min(text.len());
    for _ in 0..text.len() {
        match byte_at(text, at) {
            b' ' | b'\t' => at = piece_end(text, at),
            _ => return at,
        }
    }
    at
}

/// Returns the place of element `n` of the array that begins at a place.
pub(crate) fn element_at(text: &[u8], array: usize, n: u64) -> Option<usize> {
    if byte_at(text, array) != b'[' {
        return None;
    }
    let mut at = skip_blanks(text, array.saturating_add(1).min(text.len()));
    for _ in 0..n {
        let end = value_end(text, at);
        if end == at {
            return None;
        }
        at = skip_blanks(text, end);
    }
    if byte_at(text, at) == b'{' {
        Some(at)
    } else {
        None
    }
}

/// Returns the place of a key of the inline table that begins at a place.
pub(crate) fn member_at(text: &[u8], table: usize, word: &[u8]) -> Option<usize> {
    let mut at = skip_blanks(text, table.saturating_add(1).min(text.len()));
    for _ in 0..text.len() {
        let equals = key_end(text, at);
        if byte_at(text, equals) != b'=' {
            return None;
        }
        if is_key(text, at, equals, word) {
            return Some(at);
        }
        at = skip_blanks(text, value_end(text, value_behind(text, equals)));
    }
    None
}
