//! A part of a sweep.

use crate::found::Findings;
use wl_level::Listed;

/// A part of a sweep: the sweep that it belongs to, and what it found.
#[derive(Drop)]
pub struct SweepPart {
    /// What is swept, and how: two parts with the same bytes here are of one sweep.
    pub of: Listed<u8>,
    /// Which part, counted from 1.
    pub number: u64,
    /// How many parts there are.
    pub count: u64,
    /// How the line of each row begins; none if rows have no line.
    pub words: Listed<Listed<u8>>,
    /// The line on how much of the family is run.
    pub members: Listed<u8>,
    /// What a sweep says last.
    pub tail: Listed<u8>,
    /// What was found of the members of this part.
    pub found: Findings,
}
