//! What is known of one node, record by record.
ghost use Rattle.std.specs.Prelude.{◌≡◌, ◌↔◌, IsTrue, Some};

use crate::limits::{TICK_END, record_edges, record_nodes};
use std::fmt;
use wl_limits::Limits;

/// What is known of one node. Changes are counted from 0, and the first is to dominant.
#[derive(Clone, Copy, Debug, PartialEq, Eq)]
pub enum Record {
    /// Change number `seq` of the node is at this tick.
    Edge { node: u8, seq: u32, tick: u64 },
    /// Two different ticks were reported for change number `seq`.
    Clash { node: u8, seq: u32 },
    /// Exactly `count` changes of the node lie before the tick `until`.
    Silence { node: u8, count: u32, until: u64 },
}

/// A place for what is known: of a change, or of the silence after some changes.
#[derive(Clone, Copy, Debug, PartialEq, Eq)]
pub enum Slot {
    /// Of change number `seq` of the node: its tick, or a clash.
    EdgeAt { node: u8, seq: u32 },
    /// Of the silence after the node's first `count` changes: how far it reaches.
    SilenceAt { node: u8, count: u32 },
}

impl Record {
    ghost use Rattle.wl_record_core.specs.Within.{IsWide, IsWithin, IsWithinBy};

    /// True if the numbers are within the limits of record texts, which are this project's profile: a node below 16, a change's number
    /// below 262,145, a count at most 262,145, a tick below 2^48.
    pub fn within(&self) -> bool
        ensures { IsTrue result ↔ IsWithin self.now }
    {
        self.is_within(Limits::Narrow)
    }

    /// True if the numbers are within the wide limits, which are this project's profile: a node below 64, a change's number below
    /// 268,435,457, a count at most 268,435,457, a tick below 2^48.
    pub fn is_wide(&self) -> bool
        ensures { IsTrue result ↔ IsWide self.now }
    {
        self.is_within(Limits::Wide)
    }

    /// True if the numbers are within these limits.
    #[tactic(auto, unfolding(crate::specs::Limits::tick_end))]
    pub fn is_within(&self, limits: Limits) -> bool
        ensures { IsTrue result ↔ IsWithinBy limits self.now }
    {
        match *self {
            Record::Edge { node, seq, tick } => node < record_nodes(limits)
                && seq < record_edges(limits)
                && tick < TICK_END,
            Record::Clash { node, seq } => node < record_nodes(limits)
                && seq < record_edges(limits),
            Record::Silence { node, count, until } => node < record_nodes(limits)
                && count <= record_edges(limits)
                && until < TICK_END,
        }
    }

    ghost use Rattle.wl_record_core.specs.Slots.{node_of, slot_of};

    /// Returns the node that the record speaks of.
    pub fn node(&self) -> u8
        ensures { result ≡ node_of self.now }
    {
        match *self {
            Record::Edge { node, .. } | Record::Clash { node, .. } | Record::Silence { node, .. } =>
                node,
        }
    }

    /// Returns the slot that the record speaks of. An edge and a clash of one change share it.
    pub fn slot(&self) -> Slot
        ensures { result ≡ slot_of self.now }
    {
        match *self {
            Record::Edge { node, seq, .. } | Record::Clash { node, seq } => Slot::EdgeAt {
                node,
                seq,
            },
            Record::Silence { node, count, .. } => Slot::SilenceAt { node, count },
        }
    }
}

/// A silence of node 0 up to tick 0, which promises nothing. Lists of a fixed size hold it in the place of a record.
impl Default for Record {
    ghost use Rattle.wl_record_core.specs.declared.record.Record.TheVariants.{Silence};

    ghost is_default = { λ r. r ≡ Silence 0 0 0 };

    fn default() -> Self {
        Record::Silence {
            node: 0,
            count: 0,
            until: 0,
        }
    }
}

impl fmt::Display for Record {
    ghost use Rattle.wl_record_core.specs.Text.{words_of};

    ghost output = { λ r. Some (words_of r) };

    /// Writes the line of the record, without its newline.
    fn fmt<W: fmt::Write>(&self, f: &mut fmt::Formatter<W>) -> fmt::Result {
        match *self {
            Record::Edge { node, seq, tick } => write!(f, "E {node} {seq} {tick}"),
            Record::Clash { node, seq } => write!(f, "C {node} {seq}"),
            Record::Silence { node, count, until } => write!(f, "S {node} {count} {until}"),
        }
    }
}
