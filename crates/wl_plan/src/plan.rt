//! Plans: what is to be simulated.
ghost use Rattle.std.specs.Prelude.{◌≡◌, ◌+◌, ◌<◌, ◌≤◌, ◌↔◌, nat_lt, nat_le, ◌&&◌, IsTrue, IfOk, length};
ghost use Rattle.wl_topology.specs.Limits.{never};
ghost use Rattle.wl_plan.specs.PlanLine.{delay_to};
ghost use Rattle.wl_plan.specs.Checked.{IsChecked, IsDisturbance};

use std::alloc::{AllocError, Global};
use wl_level::Listed;
use wl_node::NodeSetup;
use wl_topology::Topology;

/// A fault: the cable is dominant at the place `x`, or the input of one node is, from tick `from` up to tick `to`, which no longer counts.
///
/// What is on the cable arrives at each node a delay later: the way to the node's place, and what the node takes from the cable to a level
/// that it sees. What is at one node alone arrives there after that last time, and at no other node.
#[derive(Clone, Copy, Debug, Default, PartialEq, Eq)]
pub struct Disturbance {
    /// The one node at which it is, or that it is on the cable.
    pub node: Option<u8>,
    /// In units of length from the end of the cable from which the nodes' places count. What is at one node has none: it isn't asked for.
    pub x: u32,
    /// The first tick at which it is dominant there.
    pub from: u64,
    /// The first tick after it.
    pub to: u64,
}

impl Disturbance {
    /// Returns how many ticks it takes until node `j` finds it, on this cable.
    pub fn delay(&self, cable: &Topology, j: u8) -> u128
        requires { j < length cable.now.places }
        ensures { result ≡ delay_to cable.now self.now j }
    {
        match self.node {
            Some(n) => cable.local_delay(n, j) as u128,
            None => cable.place_delay(self.x, j),
        }
    }
}

/// The nodes of a plan: node `i` is the one at place `i`.
pub type Nodes = Listed<NodeSetup>;

/// The disturbances of a plan, in any order. They may overlap.
pub type Disturbances = Listed<Disturbance>;

/// What is to be simulated. Any plan can be written down; `check` says which ones can be run.
#[derive(Debug, Drop)]
pub struct Plan {
    /// The nodes: their clocks, bit segments and frames.
    pub nodes: Nodes,
    /// Returns where the nodes sit on the cable.
    pub topology: Topology,
    /// What makes the line dominant from outside.
    pub disturbances: Disturbances,
    /// The tick at which the simulation ends: a quantum that begins there or later is not run.
    pub end: u64,
}

impl Plan {
    ghost use Rattle.wl_plan.specs.PlanLine.{line_of};

    /// True if some disturbance, later by its delay to node `j`, makes the line dominant there at tick `t`.
    pub fn disturbed(&self, j: u8, t: u64) -> bool
        requires { j < length self.now.topology.places }
        ensures { result ≡ (line_of self.now).disturbed j t }
    {
        self.disturbances
            .as_slice()
            .iter()
            .any(|d| is_at(&self.topology, *d, j, t))
    }

    /// Returns how many ticks it takes until node `j` finds a disturbance: 0 to 1,048,576, or `NEVER` if it is at another node.
    #[tactic(auto, using(crate::proofs::NearProofs::near_by))]
    pub fn disturbance_delay(&self, d: Disturbance, j: u8) -> u64
        requires checked { IsChecked self.now }
        requires disturbance { IsDisturbance self.now d }
        requires node { j < length self.now.nodes }
        ensures ticks { result ≡ delay_to self.now.topology d j }
        ensures short { result ≤ never }
    {
        d.delay(&self.topology, j) as u64
    }

    /// Returns an equal plan. Refused only when out of memory.
    pub fn clone_in(&self, alloc: Global) -> Result<Plan, AllocError>
        ensures { IfOk result (λ copy. copy ≡ self.now) }
    {
        Ok(Plan {
            nodes: copied(alloc, self.nodes.as_slice())?,
            topology: self.topology,
            disturbances: self.disturbances.clone_in(alloc)?,
            end: self.end,
        })
    }
}

impl PartialEq for Plan {
    ghost use Rattle.wl_plan.specs.Same.{same_plan, same_plan_laws};

    ghost eq = { same_plan };

    ghost laws = { same_plan_laws };

    /// True if two plans have the same nodes, topology, disturbances and end.
    fn eq(&self, other: &Plan) -> bool
        ensures value { result ≡ same_plan self.now other.now }
        ensures same { IsTrue result ↔ (self.now ≡ other.now) }
    {
        self.nodes == other.nodes
            && self.topology == other.topology
            && self.disturbances == other.disturbances
            && self.end == other.end
    }
}

impl Eq for Plan {
    ghost use Rattle.wl_plan.specs.Same.{same_plan_equiv};

    ghost laws = { same_plan_equiv };
}

/// True if the disturbance has come to node `j` by tick `t` and is not yet over there.
fn is_at(topology: &Topology, d: Disturbance, j: u8, t: u64) -> bool
    requires { j < length topology.now.places }
    ensures { result ≡ (nat_le (d.from + delay_to topology.now d j) t && nat_lt t (d.to + delay_to topology.now d j)) }
{
    let delay = d.delay(topology, j);
    let now = t as u128;
    if now < delay {
        return false;
    }
    let then = now - delay;
    d.from as u128 <= then && then < d.to as u128
}

/// Returns equal setups, in the same order.
fn copied(alloc: Global, setups: &[NodeSetup]) -> Result<Nodes, AllocError>
    ensures { IfOk result (λ copy. copy ≡ setups.now) }
{
    let mut copy = Listed::new(alloc);
    for setup in setups {
        copy.push(setup.clone_in(alloc)?)?;
    }
    Ok(copy)
}
