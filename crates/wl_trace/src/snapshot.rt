//! A snapshot of a node: what a waveform shows of it.
use wl_confine::Mode;
use wl_level::Level;
use wl_machine::Doing;

/// What a node is at.
#[derive(Clone, Copy, Debug, PartialEq, Eq)]
pub struct NodeState {
    /// The transmit error counter (TEC), 0 to 256 (Bosch CAN 2.0 part B, section 8).
    pub tec: u64,
    /// The receive error counter (REC), 0 to 255.
    pub rec: u64,
    /// The mode that they give.
    pub mode: Mode,
    /// What it does.
    pub doing: Doing,
}

/// A snapshot of a node after the quanta that it saw: what a waveform shows of it.
#[derive(Clone, Copy, Debug, PartialEq, Eq)]
pub struct NodeSnapshot {
    /// The level that it drives.
    pub drive: Level,
    /// Low at first, and turned at each of its samples.
    pub sampled: bool,
    /// Low at first, and turned at each start of a bit.
    pub started: bool,
    /// What it is at: its error counters, and what it does.
    pub state: NodeState,
}
