//! Which kind of text an input is, by the keys at the start of its lines.

/// True if a line of a text begins with these bytes.
fn has_line(text: &[u8], start: &[u8]) -> bool {
    let mut is_start = true;
    for at in 0..text.len() {
        if is_start && text.get(at..).unwrap_or(b"").starts_with(start) {
            return true;
        }
        is_start = text.get(at) == Some(&b'\n');
    }
    false
}

/// True of a text with a key of plans that no text for `settings` has.
pub(crate) fn is_plan(text: &[u8]) -> bool {
    has_line(text, b"version") || has_line(text, b"[[node]]")
}

/// True of a text with a key of texts for `settings`, and none of plans.
pub(crate) fn is_settings(text: &[u8]) -> bool {
    !is_plan(text) && has_line(text, b"bitrate") && has_line(text, b"[[controller]]")
}
