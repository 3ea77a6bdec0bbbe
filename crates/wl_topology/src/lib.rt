//! Where the nodes of a bus sit on the cable, and how long a level takes from one to another.
//!
//! The cable is a straight line. A level goes along it at one speed, both ways, and never fades: this project's profile.
#![tactic(auto)]

mod laws;

ghost use Rattle.std.specs.Prelude.{◌≡◌, ◌<◌, ◌≤◌, length, IfSome};
ghost use Rattle.std.specs.Option.{option_map};
ghost use Rattle.wl_topology.specs.Limits.{most_places, longest_delay, never};
ghost use Rattle.wl_topology.specs.Delays.{IsTopology, IsLeastFrom, IsLeastDelay, delay_between, propagation_of, delay_of, disturbance_delay, local_delay, topology_of, topology_within, row, pairs};
ghost use Rattle.wl_topology.specs.Search.{is_flawed, first_flaw};
ghost use Rattle.wl_topology.specs.Stored.{padded_places};

pub use laws::{driven_laws, topology_law};
use std::marker::Model;
use thiserror::Error;
use wl_limits::Limits;

/// Where a node sits.
#[derive(Clone, Copy, Debug, Default, PartialEq, Eq)]
pub struct Place {
    /// In units of length from one end of the cable.
    pub x: u32,
    /// How many ticks a level takes from the node's drive to the cable.
    pub out_delay: u64,
    /// How many it takes from the cable to what the node sees.
    pub in_delay: u64,
    /// Whether its node only listens: what it drives comes back to itself and to no other node (ISO 11898-1, bus monitoring).
    pub listens: bool,
}

/// Why places make no topology. The numbers of nodes count from 0, and the pair is the first by its first node, then by its second.
#[derive(Clone, Copy, Debug, PartialEq, Eq, Error)]
pub enum TopologyFault {
    /// There is no place.
    #[error("NoNodes")]
    NoNodes,
    /// There are more than 16 places, by the wide limits more than 64.
    #[error("TooManyNodes")]
    TooManyNodes,
    /// A level would take no tick from the first node to the second.
    #[error("ZeroDelay({0}, {1})")]
    ZeroDelay(u8, u8),
    /// It would take more than 1,048,576 ticks.
    #[error("TooLong({0}, {1})")]
    TooLong(u8, u8),
}

/// The most nodes of a bus by the wide limits: this project's profile.
pub const MOST_NODES: usize = 64;

/// The longest propagation delay between two nodes, in ticks: this project's profile.
pub const LONGEST_DELAY: u64 = 1_048_576;

/// The delay, in ticks, of what arrives at no node: longer than any plan lasts. It is 2^41.
pub const NEVER: u64 = 2_199_023_255_552;

/// The places of the nodes of a bus, and the ticks that a level takes along one unit of length.
#[derive(Clone, Copy, Debug)]
pub struct Topology {
    places: [Place; MOST_NODES],
    nodes: u8,
    per: u64,
}

impl Model for Topology {
    ghost use Rattle.std.specs.Prelude.{length};
    ghost use Rattle.wl_topology.specs.Delays.{Cable};
    ghost use Rattle.wl_topology.specs.Stored.{cable_in, padded_places, IsStored};
    ghost use Rattle.wl_topology.specs.StoredLaws.{stored_again, stored_length};

    ghost Value = { Cable };

    ghost view = { λ t. cable_in t.places t.nodes t.per };

    ghost inverse = { λ c. record { places = padded_places c.places; nodes = length c.places; per = c.per } };

    ghost inverse_ok = { λ t h i. record {
      places = stored_again t.places t.nodes t.per h i;
      nodes = stored_length t.places t.nodes t.per h i;
      per = t.per;
    } };

    ghost invariant = { λ t. IsStored t.places t.nodes t.per };
}

impl PartialEq for Topology {
    ghost use Rattle.std.specs.Prelude.{◌≡◌, ◌↔◌, IsTrue};
    ghost use Rattle.wl_topology.specs.Same.{same_cable, same_cable_partial};

    ghost eq = { same_cable };

    ghost laws = { same_cable_partial };

    /// True if both have the same places in the same order, and the same ticks a unit of length.
    fn eq(&self, other: &Topology) -> bool
        ensures value { result ≡ same_cable self.now other.now }
        ensures same { IsTrue result ↔ (self.now ≡ other.now) }
    {
        self.places() == other.places() && self.per == other.per
    }
}

impl Eq for Topology {
    ghost use Rattle.wl_topology.specs.Same.{same_cable_equiv};

    ghost laws = { same_cable_equiv };
}

/// Why a pair of nodes is refused.
#[derive(Clone, Copy)]
enum Flaw {
    Zero,
    Long,
}

impl Flaw {
    fn is_in(self, delay: u128) -> bool
        ensures { result ≡ is_flawed self delay }
    {
        match self {
            Flaw::Zero => delay == 0,
            Flaw::Long => delay > LONGEST_DELAY as u128,
        }
    }
}

const NOWHERE: Place = Place {
    x: 0,
    out_delay: 0,
    in_delay: 0,
    listens: false,
};

impl Topology {
    /// Returns the topology of nodes at these places, node `i` at place `i`, on a cable along which a level takes `per` ticks a unit of
    /// length.
    ///
    /// A level takes 1 to 1,048,576 ticks along the cable from node to node, and back to the node that drives it too. That is asked of
    /// nodes that only listen as well. If several refusals apply, the answer is the first of `TopologyFault`.
    pub fn new(places: &[Place], per: u64) -> Result<Topology, TopologyFault>
        ensures { result ≡ topology_of places.now per }
    {
        Topology::within(Limits::Narrow, places, per)
    }

    /// Does the same by these limits: `TooManyNodes` comes by them.
    pub fn within(limits: Limits, places: &[Place], per: u64) -> Result<Topology, TopologyFault>
        ensures { result ≡ topology_within limits places.now per }
    {
        wl_limits::wide_limits_hold();
        if places.is_empty() {
            return Err(TopologyFault::NoNodes);
        }
        if places.len() > limits.node_limit() {
            return Err(TopologyFault::TooManyNodes);
        }
        if let Some((i, j)) = first_pair(places, per, Flaw::Zero) {
            return Err(TopologyFault::ZeroDelay(i as u8, j as u8));
        }
        if let Some((i, j)) = first_pair(places, per, Flaw::Long) {
            return Err(TopologyFault::TooLong(i as u8, j as u8));
        }
        Ok(Topology {
            places: stored(places),
            nodes: places.len() as u8,
            per,
        })
    }

    /// Returns how many nodes there are: 1 to 64.
    pub fn nodes(&self) -> u8
        ensures count { result ≡ length self.now.places }
        ensures topology { IsTopology self.now }
    {
        self.nodes
    }

    /// Returns the propagation delay from node `i` to node `j`, in ticks: 1 to 1,048,576. It is `out_delay` of `i`, then the distance times
    /// the ticks a unit of length, then `in_delay` of `j` (this project's profile).
    pub fn propagation(&self, i: u8, j: u8) -> u64
        requires from { i < length self.now.places }
        requires to { j < length self.now.places }
        ensures ticks { result ≡ propagation_of self.now i j }
        ensures positive { 1 ≤ result }
        ensures short { result ≤ longest_delay }
        ensures topology { IsTopology self.now }
    {
        let from = self.places[i as usize];
        let to = self.places[j as usize];
        from.out_delay + from.x.abs_diff(to.x) as u64 * self.per + to.in_delay
    }

    /// Returns how many ticks it takes until node `j` finds what node `i` drives: the propagation delay, or `NEVER` from a node that only
    /// listens to another one.
    pub fn delay(&self, i: u8, j: u8) -> u64
        requires from { i < length self.now.places }
        requires to { j < length self.now.places }
        ensures ticks { result ≡ delay_of self.now i j }
        ensures positive { 1 ≤ result }
        ensures short { result ≤ never }
        ensures topology { IsTopology self.now }
    {
        if self.places[i as usize].listens && i != j {
            NEVER
        } else {
            self.propagation(i, j)
        }
    }

    /// Returns the least delay of all pairs of nodes, in ticks. A node's own delay counts.
    pub fn least_delay(&self) -> u64
        ensures least { IsLeastDelay self.now result }
        ensures topology { IsTopology self.now }
    {
        let nodes = self.nodes();
        let mut least = self.least_from(0);
        for i in 1..nodes {
            least = least.min(self.least_from(i));
        }
        least
    }

    /// Returns how many ticks a disturbance at `x` takes to node `j`: the way along the cable and `in_delay` of `j`. It may be 0, and it
    /// may be more than any delay between nodes.
    pub fn place_delay(&self, x: u32, j: u8) -> u128
        requires { j < length self.now.places }
        ensures ticks { result ≡ disturbance_delay self.now x j }
        ensures topology { IsTopology self.now }
    {
        let to = self.places[j as usize];
        x.abs_diff(to.x) as u128 * self.per as u128 + to.in_delay as u128
    }

    /// Returns how many ticks a disturbance that is at node `n` alone takes to node `j`: `in_delay` of that node, or `NEVER` to another
    /// one.
    pub fn local_delay(&self, n: u8, j: u8) -> u64
        requires { j < length self.now.places }
        ensures { result ≡ local_delay self.now n j }
    {
        if n == j {
            self.places[j as usize].in_delay
        } else {
            NEVER
        }
    }

    /// Returns the places of the nodes, in order.
    fn places(&self) -> &[Place]
        ensures { result.now ≡ self.now.places }
    {
        &self.places[..self.nodes as usize]
    }

    /// Returns the least delay from node `i`.
    fn least_from(&self, i: u8) -> u64
        requires { i < length self.now.places }
        ensures least { IsLeastFrom self.now i (length self.now.places) result }
        ensures topology { IsTopology self.now }
    {
        let mut least = self.delay(i, 0);
        for j in 1..self.nodes {
            least = least.min(self.delay(i, j));
        }
        least
    }
}

/// Returns how many ticks a level takes from one place to another.
fn delay_between(per: u64, from: Place, to: Place) -> u128
    ensures { result ≡ delay_between per from to }
{
    from.out_delay as u128 + from.x.abs_diff(to.x) as u128 * per as u128 + to.in_delay as u128
}

/// Returns the first place, by number, to which place `i` has a delay with this flaw.
fn first_from(places: &[Place], per: u64, i: usize, flaw: Flaw) -> Option<usize>
    requires { i < length places.now }
    ensures first { option_map (λ j. (i, j)) result ≡ first_flaw flaw places.now per (row i (length places.now)) }
    ensures within { IfSome result (λ j. j < length places.now) }
{
    for (j, to) in places.iter().enumerate() {
        if flaw.is_in(delay_between(per, places[i], *to)) {
            return Some(j);
        }
    }
    None
}

/// Returns the first pair of places, by the first and then by the second, whose delay has this flaw.
fn first_pair(places: &[Place], per: u64, flaw: Flaw) -> Option<(usize, usize)>
    ensures first { result ≡ first_flaw flaw places.now per (pairs (record { places = places.now; per = per })) }
    ensures within { IfSome result (λ p. (p.0 < length places.now) × (p.1 < length places.now)) }
{
    for i in 0..places.len() {
        if let Some(j) = first_from(places, per, i, flaw) {
            return Some((i, j));
        }
    }
    None
}

/// Returns the places in an array, with places that are nowhere after them.
fn stored(places: &[Place]) -> [Place; MOST_NODES]
    requires { length places.now ≤ most_places }
    ensures { result ≡ padded_places places.now }
{
    let mut held = [NOWHERE; MOST_NODES];
    held[..places.len()].copy_from_slice(places);
    held
}
