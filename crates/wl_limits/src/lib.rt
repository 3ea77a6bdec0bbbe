//! The limits of plans and their parts: those of plan texts of versions 1 to 3, and the wider ones of version 4.
//!
//! What refuses takes the limits that it refuses by. What is known of a part, whatever limits it was made by, is known by the wide ones:
//! no narrow limit is above the wide one. All limits are this project's profile.
#![tactic(auto)]

mod laws;

ghost use Rattle.std.specs.Prelude.{◌≡◌};
ghost use Rattle.wl_limits.specs.Limits.{offset_limit, from_limit, node_limit, end_limit, quanta_limit, short_quanta_limit, edge_limit, queue_limit, disturbance_limit};

pub use laws::wide_limits_hold;

/// The most quanta that a node runs, and the last quantum for which a clock returns the tick: 2^31.
pub const MOST_RUN_QUANTA: u64 = 2_147_483_648;

/// By which limits something is refused.
#[derive(Clone, Copy, PartialEq, Eq)]
pub enum Limits {
    /// Those of plan texts of versions 1 to 3, and of the calls that take no limits.
    Narrow,
    /// Those of plan texts of version 4.
    Wide,
}

impl Limits {
    /// Returns the latest tick at which quantum 0 of a node may begin.
    pub fn offset_limit(self) -> u64
        ensures { result ≡ offset_limit self }
    {
        match self {
            Limits::Narrow => 1_048_576,
            Limits::Wide => 17_179_869_184,
        }
    }

    /// Returns the last quantum with which a rate of a clock may begin.
    pub fn from_limit(self) -> u64
        ensures { result ≡ from_limit self }
    {
        match self {
            Limits::Narrow => 1_048_576,
            Limits::Wide => 1_073_741_824,
        }
    }

    /// Returns the most nodes of a bus.
    pub fn node_limit(self) -> usize
        ensures { result ≡ node_limit self }
    {
        match self {
            Limits::Narrow => 16,
            Limits::Wide => 64,
        }
    }

    /// Returns the latest tick at which a plan or a disturbance may end.
    pub fn end_limit(self) -> u64
        ensures { result ≡ end_limit self }
    {
        match self {
            Limits::Narrow => 68_719_476_736,
            Limits::Wide => 1_099_511_627_776,
        }
    }

    /// Returns the most quanta of a node before the end of a plan.
    pub fn quanta_limit(self) -> u64
        ensures { result ≡ quanta_limit self }
    {
        match self {
            Limits::Narrow => 1_048_576,
            Limits::Wide => 1_073_741_824,
        }
    }

    /// Returns the most quanta before the end of a plan of a node that may sample every third quantum: three quarters of
    /// [`Limits::quanta_limit`]. It has no more changes than others then.
    pub fn short_quanta_limit(self) -> u64
        ensures { result ≡ short_quanta_limit self }
    {
        match self {
            Limits::Narrow => 786_432,
            Limits::Wide => 805_306_368,
        }
    }

    /// Returns the most changes of a node that records name: a quarter of [`Limits::quanta_limit`] and one.
    pub fn edge_limit(self) -> u32
        ensures { result ≡ edge_limit self }
    {
        match self {
            Limits::Narrow => 262_145,
            Limits::Wide => 268_435_457,
        }
    }

    /// Returns the most frames that wait at a node.
    pub fn queue_limit(self) -> usize
        ensures { result ≡ queue_limit self }
    {
        match self {
            Limits::Narrow => 4_096,
            Limits::Wide => 65_536,
        }
    }

    /// Returns the most disturbances of a plan.
    pub fn disturbance_limit(self) -> usize
        ensures { result ≡ disturbance_limit self }
    {
        match self {
            Limits::Narrow => 64,
            Limits::Wide => 256,
        }
    }
}
