//! Two mistakes in texts that are no TOML, which a hint names.

/// Returns the line of a text that a place is in.
fn line_at(text: &[u8], at: usize) -> &[u8] {
    let mut from = at.min(text.len());
    for _ in 0..text.len() {
        if from == 0 || text.get(from.saturating_sub(1)) == Some(&b'\n') {
            break;
        }
        from = from.saturating_sub(1);
    }
    let mut end = from;
    for _ in 0..text.len() {
        match text.get(end) {
            None | Some(b'\n') => break,
            _ => end = end.saturating_add(1),
        }
    }
    text.get(from..end).unwrap_or(b"")
}

/// True if a line is the header of one table where several may be.
fn is_single_header(line: &[u8]) -> bool {
    line.starts_with(b"[node]")
        || line.starts_with(b"[disturbance]")
        || line.starts_with(b"[node.frame]")
        || line.starts_with(b"[node.rates]")
}

/// True if a line has a number and then a letter, without quotes, after its `=`.
fn is_bare_quantity(line: &[u8]) -> bool {
    let mut is_value = false;
    let mut has_digit = false;
    for letter in line {
        match *letter {
            b'=' => is_value = true,
            b'#' | b'"' | b'\'' | b'[' | b'{' if is_value => return false,
            b'0'..=b'9' if is_value => has_digit = true,
            b'a'..=b'z' | b'A'..=b'Z' if is_value => return has_digit,
            _ => {}
        }
    }
    false
}

/// Returns what is remarked of a text that is no TOML from this place on.
pub(crate) fn toml_remark(text: &[u8], at: usize) -> &'static str {
    let line = line_at(text, at);
    if is_single_header(line) {
        " (a table that may come several times has two brackets, as `[[node]]`)"
    } else if is_bare_quantity(line) {
        " (a number with a unit is a text in quotes, as `quantum = \"125ns\"` in version 4)"
    } else {
        ""
    }
}
