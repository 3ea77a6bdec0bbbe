//! Two nodes 50 units apart: up to which tick each of them knows the line at its place, and what it finds there.

ghost use Rattle.std.specs.Prelude.{◌≡◌, IfOk};

use crate::merging::replica_of;
use anyhow::{Context, Result, bail};
use std::alloc::Global;
use wl_level::Level;
use wl_record_core::Record;
use wl_replica::Replica;
use wl_topology::{Place, Topology};

/// Returns a cable on which a level is found at its own node a tick after it is driven, and at the other node 51 ticks after.
fn topology() -> Result<Topology> {
    let near = Place {
        x: 0,
        out_delay: 0,
        in_delay: 1,
        listens: false,
    };
    let far = Place { x: 50, ..near };
    Ok(Topology::new(&[near, far], 1).context("two places")?)
}

/// Writes up to which tick the lines at the places are known, with node 1 still up to this tick, and what nodes find at ticks.
pub fn tell(alloc: Global, still: u64, asked: &[(u8, u64)], out: &mut String) -> Result<()> {
    let replica = two_known(alloc, still)?;
    tell_horizons(&replica, still, out)?;
    for (node, tick) in asked {
        let is_dominant = found(&replica, *node, *tick)?.is_dominant();
        writeln!(
            out,
            "at tick {tick} node {node} finds the line dominant: {is_dominant}"
        )?;
    }
    Ok(())
}

/// Writes up to which tick the lines at both places are known.
fn tell_horizons(replica: &Replica, still: u64, out: &mut String) -> Result<()>
    requires { replica.now.nodes ≡ 2 }
{
    let (first, second) = (known_until(replica, 0)?, known_until(replica, 1)?);
    write!(out, "with node 1 still up to {still}: ")?;
    writeln!(
        out,
        "the lines at the places are known below {first} and {second}"
    )?;
    Ok(())
}

/// Returns the tick up to which the line at node j's place is known.
fn known_until(replica: &Replica, j: u8) -> Result<u64>
    requires { replica.now.nodes ≡ 2 }
{
    let topology = topology()?;
    if topology.nodes() != 2 || j >= 2 {
        bail!("two nodes");
    }
    Ok(replica.place_horizon(&topology, j))
}

/// Returns what node j finds at tick t, if that is known.
fn found(replica: &Replica, j: u8, t: u64) -> Result<Level>
    requires { replica.now.nodes ≡ 2 }
{
    let topology = topology()?;
    if topology.nodes() != 2 || j >= 2 || replica.place_horizon(&topology, j) <= t {
        bail!("a place whose line is known up to that tick");
    }
    Ok(replica.seen(&topology, j, t))
}

/// Returns a replica that knows this: node 0 changes at tick 100 and not again before 150; an edge after a gap and a silence after it say
/// nothing yet. Node 1 keeps still up to this tick.
fn two_known(alloc: Global, still: u64) -> Result<Replica>
    ensures nodes { IfOk result (λ replica. replica.nodes ≡ 2) }
{
    replica_of(
        alloc,
        2,
        &[
            Record::Edge {
                node: 0,
                seq: 0,
                tick: 100,
            },
            Record::Silence {
                node: 0,
                count: 1,
                until: 150,
            },
            Record::Silence {
                node: 0,
                count: 3,
                until: 400,
            },
            Record::Edge {
                node: 0,
                seq: 2,
                tick: 300,
            },
            Record::Silence {
                node: 1,
                count: 0,
                until: still,
            },
        ],
    )
}
