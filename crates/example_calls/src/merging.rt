//! Two lists of records, merged as two replicas of one line.

ghost use Rattle.std.specs.Prelude.{◌≡◌, IfOk};

use anyhow::Result;
use std::alloc::Global;
use wl_record_core::Record;
use wl_replica::Replica;

/// What one source knows of node 0: two changes.
const FIRST: [Record; 2] = [
    Record::Edge {
        node: 0,
        seq: 0,
        tick: 10,
    },
    Record::Edge {
        node: 0,
        seq: 1,
        tick: 20,
    },
];

/// What another knows: the second change again, and that a third doesn't come before tick 50.
const SECOND: [Record; 2] = [
    Record::Edge {
        node: 0,
        seq: 1,
        tick: 20,
    },
    Record::Silence {
        node: 0,
        count: 2,
        until: 50,
    },
];

/// Returns a replica of this many nodes that took these records, but for those that don't fit it.
pub fn replica_of(alloc: Global, nodes: u8, records: &[Record]) -> Result<Replica>
    ensures nodes { IfOk result (λ replica. replica.nodes ≡ nodes) }
{
    let mut replica = Replica::new(alloc, nodes)?;
    for record in records {
        if replica.fits(record) {
            replica.take(*record)?;
        }
    }
    Ok(replica)
}

/// Returns what both know, each record once and in order.
fn merged(alloc: Global) -> Result<Vec<Record>> {
    let mut all = replica_of(alloc, 1, &FIRST)?;
    let other = replica_of(alloc, 1, &SECOND)?;
    all.join(&other)?;
    Ok(all.canonical(alloc)?)
}

/// Writes what both know.
pub fn tell(alloc: Global, out: &mut String) -> Result<()> {
    for record in merged(alloc)?.as_slice() {
        writeln!(out, "{record}")?;
    }
    Ok(())
}
