//! The limits of records: the wide ones, and those of record texts.
ghost use Rattle.std.specs.Prelude.{◌≡◌};
ghost use Rattle.wl_record_core.specs.Limits.{record_nodes, record_edges};

use wl_limits::Limits;

/// The most nodes of a plan: a node's number is below it.
pub const MOST_NODES: u8 = 64;

/// The most changes of a node that records name: a change's number is below it, and a count is at most it.
pub const MOST_EDGES: u32 = 268_435_457;

/// The most nodes that a record text names: a node's number is below this.
pub const TEXT_NODES: u8 = 16;

/// The most changes of a node that a record text names.
pub const TEXT_EDGES: u32 = 262_145;

/// The end of the ticks that records name: every tick is below it.
pub const TICK_END: u64 = 1 << 48;

/// Returns the most nodes that records name by these limits.
#[tactic(auto, unfolding(crate::specs::Limits::most_nodes, crate::specs::Limits::text_nodes))]
pub fn record_nodes(limits: Limits) -> u8
    ensures { result ≡ record_nodes limits }
{
    match limits {
        Limits::Narrow => TEXT_NODES,
        Limits::Wide => MOST_NODES,
    }
}

/// Returns the most changes of a node that records name by these limits.
#[tactic(auto, unfolding(crate::specs::Limits::most_edges, crate::specs::Limits::text_edges))]
pub fn record_edges(limits: Limits) -> u32
    ensures { result ≡ record_edges limits }
{
    match limits {
        Limits::Narrow => TEXT_EDGES,
        Limits::Wide => MOST_EDGES,
    }
}
