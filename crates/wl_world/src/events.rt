//! What may happen in a world of groups.

/// One step of a schedule. Groups and nodes are numbered from 0, emitted records too, the oldest
/// first.
#[derive(Clone, Copy, Debug, PartialEq, Eq)]
pub enum Event {
    /// Group `.0` runs the next quantum of its node `.1`.
    Advance(u8, u8),
    /// Group `.0` takes emitted record number `.1`.
    Deliver(u8, u64),
    /// Group `.0` takes all that group `.1` has taken.
    Join(u8, u8),
    /// Group `.0` begins again.
    Restart(u8),
}

/// Whether an event happened.
#[derive(Clone, Copy, Debug, PartialEq, Eq)]
pub enum Answer {
    /// It happened.
    Done,
    /// It was not possible, and changed nothing.
    Idle,
}

/// A run that ended because memory ran out. The world is as the first `done` events left it.
#[derive(Clone, Copy, Debug, PartialEq, Eq)]
pub struct Stopped {
    /// How many events were handled, those that were not possible too.
    pub done: u64,
}
