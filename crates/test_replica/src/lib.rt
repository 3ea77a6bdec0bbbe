//! Runs lists of takes and joins over each form in which what is known of all nodes is kept, and compares their answers.
//!
//! A row is a line of steps, parted by `;`, of two holders that know nothing at first. `E 0 1 20`, `C 0 1` and `S 0 2 30` are records that
//! the first holder takes. `join` joins in what the second one knows, and `tell` answers what the first one knows; after `+` the second one
//! does so. At the end the first one answers. An answer is its canonical records, and of each node that they name the run length, the
//! horizon and the wave: `H 0 1 21`, `D 0 20 21`.
//!
//! The row is written back, and after it the answer of all forms: a replica, which groups and worlds keep, rows, into which texts are read,
//! and ordered maps of this crate's own, the plain form. If two differ, `DIFFERS` is after the first, and the others are on lines of their own.
//! Lines that are empty or begin with `#` are written back as they are.
#![tactic(auto)]

mod form;
mod maps;
mod row;

use maps::Maps;
use row::{answers, steps};
use std::alloc::{AllocError, Global};
use test_words::{Stop, answer_lines};
use wl_replica::{Replica, Rows};

/// Returns what is written after a row.
fn answer_to(alloc: Global, row: &str) -> Result<String, Stop> {
    let steps = steps(alloc, row)?;
    let steps = steps.as_slice();
    let mut said = answers::<Replica>(alloc, steps)?;
    let by_rows = answers::<Rows>(alloc, steps)?;
    let by_maps = answers::<Maps>(alloc, steps)?;
    add_others(&mut said, by_rows.as_str(), by_maps.as_str())?;
    Ok(said)
}

/// Adds the answers of two forms, on lines of their own, if one of them isn't what is said.
fn add_others(said: &mut String, one: &str, other: &str) -> Result<(), AllocError> {
    if said.as_str() != one || said.as_str() != other {
        write!(said, " DIFFERS\n{one}\n{other}")?;
    }
    Ok(())
}

/// Returns the rows of a text with their answers. Refused only when out of memory.
pub fn answer_rows(alloc: Global, text: &str) -> Result<String, AllocError> {
    answer_lines(alloc, text, answer_to)
}
