//! Where a key of a plan's text is.
ghost use Rattle.std.specs.Prelude.{◌≤◌, length, IfSome};

use crate::scan::{element_at, is_key, key_end, member_at, skip_blanks, value_behind, value_end};
use wl_setup::TablePath;

/// The table that the statements of a text are in, and how many of each kind came before.
#[derive(Clone, Copy)]
struct Tables {
    here: Option<TablePath>,
    nodes: u64,
    rates: u64,
    frames: u64,
    disturbances: u64,
}

impl Tables {
    fn new() -> Tables {
        Tables {
            here: Some(TablePath::Top),
            nodes: 0,
            rates: 0,
            frames: 0,
            disturbances: 0,
        }
    }

    /// Returns the tables after the header `[[node]]`.
    fn node(self) -> Tables {
        Tables {
            here: Some(TablePath::Node(self.nodes)),
            nodes: self.nodes.saturating_add(1),
            rates: 0,
            frames: 0,
            disturbances: self.disturbances,
        }
    }

    /// Returns the tables after a header.
    fn behind(mut self, text: &[u8], from: usize, end: usize) -> Tables {
        let node = self.nodes.saturating_sub(1);
        if is_key(text, from, end, b"node") {
            return self.node();
        }
        if is_key(text, from, end, b"node.rates") {
            self.here = Some(TablePath::Rate(node, self.rates));
            self.rates = self.rates.saturating_add(1);
        } else if is_key(text, from, end, b"node.frame") {
            self.here = Some(TablePath::Frame(node, self.frames));
            self.frames = self.frames.saturating_add(1);
        } else if is_key(text, from, end, b"disturbance") {
            self.here = Some(TablePath::Disturbance(self.disturbances));
            self.disturbances = self.disturbances.saturating_add(1);
        } else {
            self.here = None;
        }
        self
    }
}

/// Returns the place of element `n` of the array at a key, if the key from one place to another is this word and its value an array.
fn element_of(text: &[u8], key: usize, equals: usize, word: &[u8], n: u64) -> Option<usize> {
    if is_key(text, key, equals, word) {
        element_at(text, value_behind(text, equals), n)
    } else {
        None
    }
}

/// Returns the place of element `n` of the array at a key of the inline table at a place.
fn element_in(text: &[u8], table: usize, word: &[u8], n: u64) -> Option<usize> {
    let key = member_at(text, table, word)?;
    element_at(text, value_behind(text, key_end(text, key)), n)
}

/// Returns the place of a table that is written in line at a key of the table `here`.
fn inline_table(
    text: &[u8],
    here: TablePath,
    key: usize,
    equals: usize,
    wanted: TablePath,
) -> Option<usize> {
    match (here, wanted) {
        (TablePath::Top, TablePath::Node(i)) => element_of(text, key, equals, b"node", i),
        (TablePath::Top, TablePath::Disturbance(n)) => element_of(
            text,
            key,
            equals,
            b"disturbance",
            n,
        ),
        (TablePath::Top, TablePath::Rate(i, n)) => {
            let node = element_of(text, key, equals, b"node", i)?;
            element_in(text, node, b"rates", n)
        }
        (TablePath::Top, TablePath::Frame(i, n)) => {
            let node = element_of(text, key, equals, b"node", i)?;
            element_in(text, node, b"frame", n)
        }
        (TablePath::Node(j), TablePath::Rate(i, n)) if i == j => element_of(
            text, key, equals, b"rates", n,
        ),
        (TablePath::Node(j), TablePath::Frame(i, n)) if i == j => element_of(
            text, key, equals, b"frame", n,
        ),
        _ => None,
    }
}

/// Returns the place of the key in a statement of the table `here` that begins at a place: its own, or one in a table in line.
fn found_in(
    text: &[u8],
    here: TablePath,
    key: usize,
    equals: usize,
    wanted: TablePath,
    word: &[u8],
) -> Option<usize> {
    if here == wanted {
        if is_key(text, key, equals, word) {
            return Some(key);
        }
        return None;
    }
    let table = inline_table(text, here, key, equals, wanted)?;
    match member_at(text, table, word) {
        Some(at) => Some(at),
        None => Some(table),
    }
}

/// Returns a place in a text: its end for one after it.
fn inside(text: &[u8], place: Option<usize>) -> Option<usize>
    ensures { IfSome result (λ at. at ≤ length text.now) }
{
    match place {
        Some(at) => Some(at.min(text.len())),
        None => None,
    }
}

/// Returns the place of a key in a plan's text, by its table; that of the table if the table hasn't the key. `None` if neither is found, as
/// of the top table, or of tables with other headers than `[[..]]`.
pub(crate) fn place_of(text: &[u8], wanted: TablePath, word: &[u8]) -> Option<usize>
    ensures { IfSome result (λ at. at ≤ length text.now) }
{
    let mut at = skip_blanks(text, 0);
    let mut tables = Tables::new();
    let mut header = None;
    for _ in 0..text.len() {
        if at >= text.len() {
            return inside(text, header);
        }
        if text[at] == b'[' {
            let name = at.saturating_add(2).min(text.len());
            let end = key_end(text, name);
            tables = tables.behind(text, name, end);
            if tables.here == Some(wanted) {
                header = Some(at);
            }
            at = skip_blanks(text, end.saturating_add(2).min(text.len()));
        } else {
            let equals = key_end(text, at);
            if let Some(here) = tables.here {
                let found = found_in(text, here, at, equals, wanted, word);
                if found.is_some() {
                    return inside(text, found);
                }
            }
            at = skip_blanks(text, value_end(text, value_behind(text, equals)));
        }
    }
    inside(text, header)
}

/// True if a header from one place to another is that of the controller of this name.
fn is_controller(text: &[u8], from: usize, end: usize, name: &[u8]) -> bool {
    let Some(said) = text.get(from..end) else {
        return false;
    };
    match said.strip_prefix(b"controller.") {
        Some(rest) => rest == name,
        None => false,
    }
}

/// Returns the place of a key under the header `[controller.NAME]`; that of the header if the table hasn't the key. `None` if there is no
/// such header, as of a table that is written otherwise.
pub(crate) fn place_under(text: &[u8], name: &str, word: &[u8]) -> Option<usize>
    ensures { IfSome result (λ at. at ≤ length text.now) }
{
    let mut at = skip_blanks(text, 0);
    let mut header = None;
    let mut is_here = false;
    for _ in 0..text.len() {
        if at >= text.len() {
            return inside(text, header);
        }
        if text[at] == b'[' {
            let end = key_end(text, at.saturating_add(1));
            is_here = is_controller(text, at.saturating_add(1), end, name.as_bytes());
            if is_here {
                header = Some(at);
            }
            at = skip_blanks(text, end.saturating_add(1).min(text.len()));
            if at < text.len() && text[at] == b']' {
                at = skip_blanks(text, at.saturating_add(1).min(text.len()));
            }
        } else {
            let equals = key_end(text, at);
            if is_here && is_key(text, at, equals, word) {
                return inside(text, Some(at));
            }
            at = skip_blanks(text, value_end(text, value_behind(text, equals)));
        }
    }
    inside(text, header)
}
