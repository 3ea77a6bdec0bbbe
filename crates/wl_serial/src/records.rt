//! The records of an outcome.
ghost use Rattle.std.specs.Prelude.{◌≡◌, ◌≤◌, ◌++◌, ◌↔◌, IsTrue, IfOk, OnOk, All, length};
ghost use Rattle.wl_record_core.specs.Limits.{most_edges};
ghost use Rattle.wl_serial.specs.Records.{IsRecordable, node_records, outcome_records};

use crate::outcome::{NodeOutcome, Outcome};
use std::alloc::{AllocError, Global};
use wl_record_core::{MOST_EDGES, MOST_NODES, Record, TICK_END};

impl Outcome {
    /// True if records can say all of it: there are at most 64 nodes and at most 268,435,457 changes of each, and the end is below 2^48.
    ///
    /// The outcome of a plan that passed its check is recordable.
    #[tactic(auto, unfolding(wl_record_core::specs::Limits::most_nodes, wl_record_core::specs::Limits::tick_end))]
    pub fn recordable(&self) -> bool
        ensures { IsTrue result ↔ IsRecordable self.now }
    {
        self.nodes.len() <= MOST_NODES as usize
            && self.end < TICK_END
            && have_few_changes(self.nodes.as_slice())
    }
}

/// True if each of the nodes has at most 268,435,457 changes.
#[tactic(auto, unfolding(wl_record_core::specs::Limits::most_edges))]
fn have_few_changes(nodes: &[NodeOutcome]) -> bool
    ensures { IsTrue result ↔ All (λ node. length node.changes ≤ most_edges) nodes.now }
{
    nodes
        .iter()
        .all(|node| node.changes.len() <= MOST_EDGES as usize)
}

/// Returns the records of an outcome that is recordable: for each node in order all its edges, then one silence with the number of its
/// changes and the end.
///
/// Refused only when out of memory.
pub fn records_of(alloc: Global, outcome: &Outcome) -> Result<Vec<Record>, AllocError>
    requires { IsRecordable outcome.now }
    ensures { IfOk result (λ records. records.items ≡ outcome_records outcome.now) }
{
    let mut records = Vec::new(alloc);
    for (i, node) in outcome.nodes.as_slice().iter().enumerate() {
        push_node(&mut records, i as u8, node.changes.as_slice(), outcome.end)?;
    }
    Ok(records)
}

/// Adds the records of one node after those that are there.
pub(crate) fn push_node(
    records: &mut Vec<Record>,
    node: u8,
    changes: &[u64],
    end: u64,
) -> Result<(), AllocError>
    requires { length changes.now ≤ most_edges }
    ensures { OnOk result (records.new.items ≡ records.old.items ++ node_records end node changes.now) }
{
    for (seq, tick) in changes.iter().enumerate() {
        records.push(Record::Edge {
            node,
            seq: seq as u32,
            tick: *tick,
        })?;
    }
    records.push(Record::Silence {
        node,
        count: changes.len() as u32,
        until: end,
    })?;
    Ok(())
}
