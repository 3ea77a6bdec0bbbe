//! What a sweep varies, and how many members it runs.

/// What a sweep varies beside its ranges, and how many members of each row it runs.
#[derive(Clone, Copy, Debug, PartialEq, Eq)]
pub struct Options {
    /// Ticks between two offsets of a node; a fifth of the shortest quantum, at least 1, if none is given.
    pub step: Option<u64>,
    /// Whether each offset stays as the plan has it.
    pub keep_offsets: bool,
    /// Whether each clock keeps the rates that the plan has.
    pub keep_ppm: bool,
    /// The most members of a row that are run: all that there are, else a random part.
    pub runs: u32,
    /// Which random part.
    pub seed: u32,
}
