//! What is worked out once of a bus: of each node, of each two, and in how many edges each node catches up.
ghost use Rattle.std.specs.Prelude.{◌≡◌, ◌+◌, ◌*◌, ◌<◌, ◌≤◌, IfOk, IfSome};
ghost use Rattle.std.specs.Option.{ForSome};
ghost use Rattle.wl_topology.specs.Limits.{most_places};
ghost use Rattle.wl_bound.specs.Kept.{AreChasesOfBus, AreOfPairs, AreTermsOfBus, IsOfNode, IsOfPair};
ghost use Rattle.wl_bound.specs.OneBuses.{the_bus};

use crate::bus::OneBus;
use std::alloc::AllocError;
use wl_level::Listed;
use wl_topology::MOST_NODES;

/// The terms of a node, in units: what each pair with it asks.
#[derive(Clone, Copy, Debug)]
pub(crate) struct NodeTerms {
    /// Whether it sends.
    pub(crate) sends: bool,
    /// Its shortest quantum, its longest one, and its bits of such quanta.
    pub(crate) shortest: u128,
    pub(crate) longest: u128,
    pub(crate) short_bit: u128,
    pub(crate) long_bit: u128,
    /// Its jump width in shortest quanta and in longest ones.
    pub(crate) jump: u128,
    pub(crate) long_jump: u128,
    /// Its quanta up to the sample, and its PHASE_SEG2.
    pub(crate) sample: u128,
    pub(crate) phase_two: u128,
    /// How much it can begin ahead of an edge, how much others get ahead of it, and how much longer its bits can be.
    pub(crate) look: u128,
    pub(crate) ahead: u128,
    pub(crate) strays: u128,
}

/// The terms of two nodes.
#[derive(Clone, Copy, Debug)]
pub(crate) struct PairTerms {
    /// How long a level takes from the first to the second, in units.
    pub(crate) delay: u128,
    /// Whether a third node sends.
    pub(crate) third_sends: bool,
    /// Whether the first one only listens, if they are two.
    pub(crate) listens: bool,
}

/// The terms of all nodes, and of each two of them. Those of nodes `i` and `j` have place `64 i + j`.
#[derive(Debug, Drop)]
pub(crate) struct KeptTerms {
    pub(crate) nodes: Listed<NodeTerms>,
    pub(crate) pairs: Listed<PairTerms>,
}

/// In how many edges, beyond the first, each node catches up.
#[derive(Clone, Copy, Debug)]
pub(crate) struct Chases {
    pub(crate) edges: [u128; MOST_NODES],
}

const NO_NODE: NodeTerms = NodeTerms {
    sends: false,
    shortest: 0,
    longest: 0,
    short_bit: 0,
    long_bit: 0,
    jump: 0,
    long_jump: 0,
    sample: 0,
    phase_two: 0,
    look: 0,
    ahead: 0,
    strays: 0,
};

const NO_PAIR: PairTerms = PairTerms {
    delay: 0,
    third_sends: false,
    listens: false,
};

/// Returns the place of nodes `i` and `j`.
pub(crate) fn place(i: u8, j: u8) -> usize
    requires one { i < most_places }
    requires other { j < most_places }
    ensures { result ≡ most_places * i + j }
{
    i as usize * MOST_NODES + j as usize
}

impl<'f> OneBus<'f> {
    /// Returns the kept terms of node `i`, if there are any.
    pub(crate) fn kept_node(&self, i: u8) -> Option<&NodeTerms>
        requires node { i < (the_bus self.now).nodes }
        ensures { IfSome result (λ t. IsOfNode (the_bus self.now) i t.now) }
    {
        match self.terms {
            Some(terms) => Some(&terms.nodes.as_slice()[i as usize]),
            None => None,
        }
    }

    /// Returns the kept terms of nodes `i` and `j`, if there are any.
    pub(crate) fn kept_pair(&self, i: u8, j: u8) -> Option<&PairTerms>
        requires one { i < (the_bus self.now).nodes }
        requires other { j < (the_bus self.now).nodes }
        ensures { IfSome result (λ t. IsOfPair (the_bus self.now) i j t.now) }
    {
        match self.terms {
            Some(terms) => Some(&terms.pairs.as_slice()[place(i, j)]),
            None => None,
        }
    }

    /// Returns the terms of the bus, if there is memory for them.
    pub(crate) fn terms_if_memory(&self) -> Option<KeptTerms>
        ensures { IfSome result (AreTermsOfBus (the_bus self.now)) }
    {
        match self.all_terms() {
            Ok(terms) => Some(terms),
            Err(_) => None,
        }
    }

    /// Returns the terms of the bus. Refused only when out of memory.
    pub(crate) fn all_terms(&self) -> Result<KeptTerms, AllocError>
        ensures { IfOk result (AreTermsOfBus (the_bus self.now)) }
    {
        let alloc = self.family.alloc();
        let nodes = self.nodes();
        let mut of_nodes = vec![in alloc; NO_NODE; nodes as usize]?;
        let mut of_pairs = vec![in alloc; NO_PAIR; MOST_NODES * nodes as usize]?;
        for i in 0..nodes {
            of_nodes[i as usize] = self.node_terms(i);
            self.put_pairs(i, of_pairs.as_mut_slice());
        }
        Ok(KeptTerms {
            nodes: Listed::from_vec(of_nodes),
            pairs: Listed::from_vec(of_pairs),
        })
    }

    /// Returns the terms of node `i`.
    fn node_terms(&self, i: u8) -> NodeTerms
        requires node { i < (the_bus self.now).nodes }
        ensures { IsOfNode (the_bus self.now) i result }
    {
        NodeTerms {
            sends: self.sends(i),
            shortest: self.shortest(i),
            longest: self.longest(i),
            short_bit: self.short_bit(i),
            long_bit: self.long_bit(i),
            jump: self.jump(i),
            long_jump: self.long_jump(i),
            sample: self.sample(i),
            phase_two: self.phase_two(i),
            look: self.look(i),
            ahead: self.ahead(i),
            strays: self.strays(i),
        }
    }

    /// Returns the terms of nodes `i` and `j`.
    fn pair_terms(&self, i: u8, j: u8) -> PairTerms
        requires one { i < (the_bus self.now).nodes }
        requires other { j < (the_bus self.now).nodes }
        ensures { IsOfPair (the_bus self.now) i j result }
    {
        PairTerms {
            delay: self.delay(i, j),
            third_sends: self.third_sends(i, j),
            listens: i != j && self.listens(i, j),
        }
    }

    /// Puts in the terms of node `i` and each other.
    fn put_pairs(&self, i: u8, pairs: &mut [PairTerms])
        requires node { i < (the_bus self.now).nodes }
        requires before { AreOfPairs i (the_bus self.now) pairs.old }
        ensures { AreOfPairs (i + 1) (the_bus self.now) pairs.new }
    {
        for j in 0..self.nodes() {
            pairs[place(i, j)] = self.pair_terms(i, j);
        }
    }

    /// Returns in how many edges each node catches up.
    pub(crate) fn all_chases(&self) -> Chases
        ensures { AreChasesOfBus (the_bus self.now) result }
    {
        let mut edges = [0; MOST_NODES];
        for k in 0..self.nodes() {
            edges[k as usize] = self.least_chase(k);
        }
        Chases { edges }
    }
}
