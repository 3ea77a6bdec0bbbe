//! Up to which tick a node's level is known, the level below that tick, and what is found on the line.

ghost use Rattle.std.specs.Prelude.{◌≡◌};

use crate::merging::replica_of;
use anyhow::{Context, Result, bail};
use std::alloc::Global;
use wl_level::Level;
use wl_record_core::Record;
use wl_replica::Replica;
use wl_topology::{Place, Topology};

/// A change at tick 10, the next at tick 20, and silence after these two up to tick 50.
const RECORDS: [Record; 3] = [
    Record::Edge {
        node: 0,
        seq: 0,
        tick: 10,
    },
    Record::Edge {
        node: 0,
        seq: 1,
        tick: 20,
    },
    Record::Silence {
        node: 0,
        count: 2,
        until: 50,
    },
];

/// Writes what a replica that took these records knows of node 0.
pub fn tell(alloc: Global, out: &mut String) -> Result<()> {
    let replica = replica_of(alloc, 1, &RECORDS)?;
    tell_horizon(&replica, out)?;
    tell_wave(alloc, &replica, out)?;
    let found = found_at_16(&replica)?.is_dominant();
    writeln!(out, "at tick 16 it finds the line dominant: {found}")?;
    Ok(())
}

/// Writes how many changes are known without a gap, and the tick below which the node's level is known.
fn tell_horizon(replica: &Replica, out: &mut String) -> Result<()>
    requires { replica.now.nodes ≡ 1 }
{
    let (changes, horizon) = (replica.run_length(0), replica.horizon(0));
    writeln!(
        out,
        "node 0: {changes} changes in order, known below tick {horizon}"
    )?;
    Ok(())
}

/// Writes the level at tick 15, which is below the horizon, and how many intervals of the node's wave end after that tick.
fn tell_wave(alloc: Global, replica: &Replica, out: &mut String) -> Result<()>
    requires { replica.now.nodes ≡ 1 }
{
    let is_dominant = replica.wave(alloc, 0)?.at(15).is_dominant();
    writeln!(out, "at tick 15 it drives dominant: {is_dominant}")?;
    let intervals = replica.wave_after(alloc, 0, 15)?.as_slice().len();
    writeln!(
        out,
        "intervals of its wave that end after tick 15: {intervals}"
    )?;
    Ok(())
}

/// Returns what node 0 finds at tick 16 on a line of its own, on which a level takes a tick, if that is known.
fn found_at_16(replica: &Replica) -> Result<Level>
    requires { replica.now.nodes ≡ 1 }
{
    let place = Place {
        x: 0,
        out_delay: 0,
        in_delay: 1,
        listens: false,
    };
    let topology = Topology::new(&[place], 1).context("a place")?;
    if topology.nodes() != 1 || replica.place_horizon(&topology, 0) <= 16 {
        bail!("a line that is known up to tick 16");
    }
    Ok(replica.seen(&topology, 0, 16))
}
