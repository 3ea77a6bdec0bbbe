// A replica: what is known of all nodes.
ghost use Rattle.std.specs.Prelude.{◌≡◌, ◌↔◌, ℕ, length, Contains, IsTrue, IfOk, IfErr, OnOk, OnErr};
ghost use Rattle.wl_record_core.specs.Slots.{slot_of};
ghost use Rattle.wl_replica.specs.State.{slots_of, state_with_record, Fits};
ghost use Rattle.wl_replica.specs.Runs.{AreInLimits, AreRuns};

use crate::dense::{PREPARED_SLOTS, PreparedRows, Rows};
use crate::known_run::{KnownRun, NOTHING, known_of, record_came};
use crate::laws::known_laws;
use crate::waves::{is_dominant_at, wave_after_of, wave_of};
use std::alloc::{AllocError, Global};
use std::marker::Model;
use wl_intervals::Intervals;
use wl_lattice::{FlatWord, MaxWord};
use wl_level::Level;
use wl_record_core::{Record, Slot};
use wl_topology::Topology;

/// What a replica has in one slot.
#[derive(Clone, Copy, Debug, PartialEq, Eq)]
pub enum Word {
    /// Of a change: nothing, its tick, or that two different ticks came.
    Edge(FlatWord),
    /// Of a silence: the greatest tick up to which it reaches; 0 promises nothing.
    Silence(MaxWord),
}

/// What is known of some nodes: for each change its tick, for each number of changes how far the silence after them reaches.
///
/// A slot that holds nothing counts as a slot that is absent. What is taken is joined in, so it doesn't matter in what order records come,
/// nor how often.
///
/// It has a place of 8 bytes for each slot of a node up to the greatest that was named. If records are true of a plan, these are no more
/// than its changes. A stranger's record of the last change of a node takes 2 MiB by the limits of record texts, and 2 GiB by the wide
/// ones.
#[derive(Drop)]
pub struct Replica {
    rows: Rows,
    runs: Vec<KnownRun>,
}

impl Model for Replica {
    ghost use Rattle.wl_replica.specs.State.{State, slots_of};
    ghost use Rattle.wl_replica.specs.Stored.{coded_state};
    ghost use Rattle.wl_replica.specs.Runs.{AreRuns};

    ghost Value = { State };

    ghost coded = { coded_state };

    ghost view = { λ r. r.rows };

    ghost invariant = { λ r. AreRuns r.rows.nodes (slots_of r.rows) r.runs.items };
}

impl Replica {
    ghost use Rattle.std.specs.Prelude.{◌<◌, ◌≤◌};
    ghost use Rattle.wl_replica.specs.State.{state_of, state_with_record, states_joined, Fits, IsOfRecords};
    ghost use Rattle.wl_replica.specs.Canonical.{canonical};
    ghost use Rattle.wl_replica.specs.Words.{word_at};
    ghost use Rattle.std.specs.Prelude.{List, [], ◌∷◌, ◌++◌, All};
    ghost use Rattle.wl_record_core.specs.declared.record.Record.{Record};
    ghost use Rattle.wl_record_core.specs.Truth.{IsIncreasing, IsTrueOf};
    ghost use Rattle.wl_replica.specs.State.{slots_of};
    ghost use Rattle.wl_replica.specs.Slots.{HoldsTrue};
    ghost use Rattle.wl_replica.specs.SlotsOf.{NoHorizonFalls, ChangesStand};

    /// Returns a replica of this many nodes that knows nothing. Refused only when out of memory.
    pub fn new(alloc: Global, nodes: u8) -> Result<Replica, AllocError>
        ensures { IfOk result (λ made. made ≡ state_of nodes []) }
    {
        let mut runs = Vec::new(alloc);
        runs.resize(nodes as usize, NOTHING)?;
        Ok(Replica {
            rows: Rows::new(alloc, nodes)?,
            runs,
        })
    }

    /// Returns a replica of no nodes. It takes no memory, so it can take the place of one that is moved out for a while.
    pub fn of_no_nodes(alloc: Global) -> Replica
        ensures { result ≡ state_of 0 [] }
    {
        Replica {
            rows: Rows::of_no_nodes(alloc),
            runs: Vec::new(alloc),
        }
    }

    /// Returns the number of nodes that it knows of. What it knows of them is what some records say.
    pub fn nodes(&self) -> u8
        ensures value { result ≡ self.now.nodes }
        ensures records { IsOfRecords self.now }
    {
        self.rows.nodes()
    }

    /// True if the replica can take a record: its node is one of the replica's, and its numbers are within the wide limits.
    pub fn fits(&self, told: &Record) -> bool
        ensures { IsTrue result ↔ Fits self.now.nodes told.now }
    {
        let node = told.node();
        node < self.rows.nodes() && told.is_wide()
    }

    /// Takes a record that fits: joins what it says into its slot. Refused when out of memory;
    /// the replica is then as it was.
    pub fn take(&mut self, told: Record) -> Result<(), AllocError>
        requires { Fits self.old.nodes told }
        ensures ok { OnOk result (self.new ≡ state_with_record self.old told) }
        // What took some records, and takes this one, took both.
        ensures after { OnOk result ((before : List Record) → self.old ≡ state_of self.old.nodes before
            → self.new ≡ state_of self.old.nodes (before ++ told ∷ [])) }
        ensures err { OnErr result (self.new ≡ self.old) }
        ensures keeps { OnOk result ((table : ℕ → List ℕ) → ((i : ℕ) → IsIncreasing (table i))
            → HoldsTrue self.old.nodes table (slots_of self.old) → IsTrueOf self.old.nodes table told → NoHorizonFalls self.old self.new) }
    {
        known_laws();
        self.rows.take(told)?;
        let node = told.node();
        let edges = self.rows.edge_numbers(node);
        record_came(
            &mut self.runs,
            edges,
            self.rows.silence_numbers(node),
            &told,
        );
        Ok(())
    }

    /// Makes room in these slots, so that records of them can be taken without memory. Refused if memory runs out; it then gives the
    /// replica back as it was.
    pub fn prepare(self, slots: [Slot; PREPARED_SLOTS]) -> Result<Prepared, Replica>
        ensures known { IfOk result (λ prepared. prepared.known ≡ self) }
        ensures slots { IfOk result (λ prepared. prepared.slots ≡ slots) }
        ensures err { IfErr result (λ replica. replica ≡ self) }
    {
        let Replica { rows, runs } = self;
        match rows.prepare(slots) {
            Ok(rows) => Ok(Prepared { rows, runs }),
            Err(rows) => Err(Replica { rows, runs }),
        }
    }

    /// Joins in what the other replica, of the same number of nodes, knows. It makes room for every slot that it lacks, and then joins. So
    /// when out of memory, the replica is as it was.
    pub fn join(&mut self, other: &Replica) -> Result<(), AllocError>
        requires { self.old.nodes ≡ other.now.nodes }
        ensures ok { OnOk result (self.new ≡ states_joined self.old other.now) }
        // What took some records, joined with what took others, took all of them.
        ensures after { OnOk result ((mine theirs : List Record) → self.old ≡ state_of self.old.nodes mine
            → other.now ≡ state_of self.old.nodes theirs → self.new ≡ state_of self.old.nodes (mine ++ theirs)) }
        ensures err { OnErr result (self.new ≡ self.old) }
        ensures keeps { OnOk result ((table : ℕ → List ℕ) → ((i : ℕ) → IsIncreasing (table i))
            → HoldsTrue self.old.nodes table (slots_of self.old) → HoldsTrue self.old.nodes table (slots_of other.now) → NoHorizonFalls self.old self.new) }
    {
        known_laws();
        self.rows.join(&other.rows)?;
        all_came(&mut self.runs, &self.rows);
        Ok(())
    }

    /// Returns what the replica has in a slot.
    pub fn slot(&self, slot: Slot) -> Word
        ensures { result ≡ word_at self.now slot }
    {
        match slot {
            Slot::EdgeAt { node, seq } => Word::Edge(self.rows.edge(node, seq)),
            Slot::SilenceAt { node, count } => Word::Silence(self.rows.silence(node, count)),
        }
    }

    /// Returns a replica that knows the same. Refused only when out of memory.
    pub fn clone_in(&self, alloc: Global) -> Result<Replica, AllocError>
        ensures { IfOk result (λ other. other ≡ self.now) }
    {
        let mut other = Replica::new(alloc, self.rows.nodes())?;
        other.join(self)?;
        Ok(other)
    }

    /// Returns the records that make this replica, each slot once: node by node, the changes by number and then the silences by count.
    /// Refused only when out of memory.
    pub fn canonical(&self, alloc: Global) -> Result<Vec<Record>, AllocError>
        ensures list { IfOk result (λ all. all.items ≡ canonical self.now) }
        ensures fits { IfOk result (λ all. All (Fits self.now.nodes) all.items) }
    {
        let mut all = Vec::new(alloc);
        self.rows.tell(&mut all)?;
        Ok(all)
    }

    ghost use Rattle.wl_record_core.specs.Limits.{most_edges, tick_end};
    ghost use Rattle.wl_replica.specs.Known.{run_length, horizon};

    /// Returns how many of the node's first changes are known without a gap: their ticks strictly increase, and none lies inside a silence
    /// before it.
    pub fn run_length(&self, node: u8) -> u32
        requires { node < self.now.nodes }
        ensures length { result ≡ run_length (slots_of self.now) node }
        ensures few { result ≤ most_edges }
    {
        self.runs[node as usize].run.length
    }

    /// Returns the tick below which the node's level is known, if all that was taken is true: past the last change of its run, or the end
    /// of a silence after at most this many changes (Chandy and Misra, 1979).
    pub fn horizon(&self, node: u8) -> u64
        requires { node < self.now.nodes }
        ensures tick { result ≡ horizon (slots_of self.now) node }
        ensures early { result ≤ tick_end }
        // If all that was taken is true, each of the node's changes before that tick stands in its slot.
        ensures changes { (table : ℕ → List ℕ) → IsIncreasing (table node)
            → HoldsTrue self.now.nodes table (slots_of self.now) → ChangesStand (slots_of self.now) node (table node) result }
    {
        known_laws();
        wl_record_core::table_laws();
        self.runs[node as usize].horizon
    }

    ghost use Rattle.wl_replica.specs.Known.{after_edges};

    /// Returns the tick after the last change of the node's run; 0 if the run has none.
    pub fn run_end(&self, node: u8) -> u64
        requires { node < self.now.nodes }
        ensures tick { result ≡ after_edges ((slots_of self.now).edge node) (run_length (slots_of self.now) node) }
        ensures early { result ≤ tick_end }
    {
        self.runs[node as usize].run.end
    }

    ghost use Rattle.wl_replica.specs.Known.{wave, wave_after, wave_at, place_horizon};
    ghost use Rattle.wl_level.specs.Levels.{level_of};
    ghost use Rattle.wl_intervals.specs.Pairs.{covers, last_end};
    ghost use Rattle.wl_topology.specs.Delays.{delay_of};
    ghost use Rattle.wl_topology.specs.Driven.{driven};
    ghost use Rattle.std.specs.Prelude.{◌+◌, ◌-◌, ◌&&◌, length, nat_le, IfSome};

    /// Returns the ticks below the node's horizon at which it drives dominant, as far as its run says: from each first to each second
    /// change, an open last one up to the horizon. Refused out of memory.
    pub fn wave(&self, alloc: Global, node: u8) -> Result<Intervals, AllocError>
        requires { node < self.now.nodes }
        ensures set { IfOk result (λ set. set ≡ wave (slots_of self.now) node) }
        ensures early { IfOk result (λ set. IfSome (last_end set) (λ end. end ≤ tick_end)) }
    {
        wave_of(
            alloc,
            self.rows.edge_numbers(node),
            self.runs[node as usize],
            0,
        )
    }

    /// Returns the intervals of the wave that end after a tick, without a walk over the changes before it. From that tick on they say the
    /// same levels. Refused out of memory.
    pub fn wave_after(&self, alloc: Global, node: u8, tick: u64) -> Result<Intervals, AllocError>
        requires { node < self.now.nodes }
        ensures set { IfOk result (λ set. set ≡ wave_after (slots_of self.now) node tick) }
        ensures level { IfOk result (λ set. (t : ℕ) → tick ≤ t → covers set t ≡ wave_at (slots_of self.now) node t) }
    {
        wave_after_of(
            alloc,
            self.rows.edge_numbers(node),
            self.runs[node as usize],
            tick,
        )
    }

    /// Returns the tick below which the line at node `j` is known: the least horizon of a node, later by its delay to `j`. `topology` has
    /// this replica's nodes.
    pub fn place_horizon(&self, topology: &Topology, j: u8) -> u64
        requires nodes { length topology.now.places ≡ self.now.nodes }
        requires place { j < self.now.nodes }
        ensures { result ≡ place_horizon self.now.nodes (delay_of topology.now) (slots_of self.now) j }
    {
        let mut least = self.known_until(topology, 0, j);
        for i in 1..self.rows.nodes() {
            least = least.min(self.known_until(topology, i, j));
        }
        least
    }

    /// Returns the tick below which what node `i` drives is known at node `j`.
    fn known_until(&self, topology: &Topology, i: u8, j: u8) -> u64
        requires nodes { length topology.now.places ≡ self.now.nodes }
        requires from { i < self.now.nodes }
        requires to { j < self.now.nodes }
        ensures { result ≡ horizon (slots_of self.now) i + delay_of topology.now i j }
    {
        self.horizon(i) + topology.delay(i, j)
    }

    /// Returns the level that node `j` finds at tick `t`, by the waves of all nodes, without disturbances: dominant if some node drove
    /// dominant its delay earlier. `topology` has this replica's nodes, and `t` is below the place horizon.
    pub fn seen(&self, topology: &Topology, j: u8, t: u64) -> Level
        requires nodes { length topology.now.places ≡ self.now.nodes }
        requires place { j < self.now.nodes }
        requires known { t < place_horizon self.now.nodes (delay_of topology.now) (slots_of self.now) j }
        ensures { result ≡ level_of (driven self.now.nodes (delay_of topology.now) (wave_at (slots_of self.now)) j t) }
    {
        for i in 0..self.rows.nodes() {
            if self.drove(topology, i, j, t) {
                return Level::Dominant;
            }
        }
        Level::Recessive
    }

    /// True if node `j` finds at tick `t` that node `i` drove dominant.
    fn drove(&self, topology: &Topology, i: u8, j: u8, t: u64) -> bool
        requires nodes { length topology.now.places ≡ self.now.nodes }
        requires from { i < self.now.nodes }
        requires to { j < self.now.nodes }
        requires known { t < horizon (slots_of self.now) i + delay_of topology.now i j }
        ensures { let delay = delay_of topology.now i j in
            result ≡ (nat_le delay t && wave_at (slots_of self.now) i (t - delay)) }
    {
        let delay = topology.delay(i, j);
        delay <= t && is_dominant_at(self.rows.edge_numbers(i), self.runs[i as usize], t - delay)
    }
}

/// Works the run of each node out again.
fn all_came(runs: &mut Vec<KnownRun>, rows: &Rows)
    requires count { length runs.old.items ≡ rows.now.nodes }
    requires limits { AreInLimits (slots_of rows.now) }
    ensures { AreRuns rows.now.nodes (slots_of rows.now) runs.new.items }
{
    for node in 0..rows.nodes() {
        runs[node as usize] = known_of(rows.edge_numbers(node), rows.silence_numbers(node));
    }
}

/// A replica that has room in some slots, made by [`Replica::prepare`]: it takes records of those without memory, and gives the replica.
///
/// It is for an owner who can't take back what the records say, and so has to have all memory before that happens.
#[derive(Drop)]
pub struct Prepared {
    rows: PreparedRows,
    runs: Vec<KnownRun>,
}

impl Model for Prepared {
    ghost use Rattle.wl_replica.specs.State.{slots_of};
    ghost use Rattle.wl_replica.specs.Prepared.{PreparedState, coded_prepared};
    ghost use Rattle.wl_replica.specs.Runs.{AreRuns};

    ghost Value = { PreparedState };

    ghost coded = { coded_prepared };

    ghost view = { λ p. p.rows };

    ghost invariant = { λ p. AreRuns p.rows.known.nodes (slots_of p.rows.known) p.runs.items };
}

/// Takes a record into the rows, and brings the run of its node up to date.
fn take_one(rows: &mut PreparedRows, runs: &mut Vec<KnownRun>, told: &Record)
    requires fits { Fits rows.old.known.nodes told.now }
    requires room { Contains rows.old.slots (slot_of told.now) }
    requires runs { AreRuns rows.old.known.nodes (slots_of rows.old.known) runs.old.items }
    ensures known { rows.new.known ≡ state_with_record rows.old.known told.now }
    ensures slots { rows.new.slots ≡ rows.old.slots }
    ensures runs { AreRuns rows.new.known.nodes (slots_of rows.new.known) runs.new.items }
{
    rows.take(told);
    let node = told.node();
    record_came(
        runs,
        rows.edge_numbers(node),
        rows.silence_numbers(node),
        told,
    );
}

impl Prepared {
    ghost use Rattle.std.specs.Prelude.{List, ◌++◌, All, Contains};
    ghost use Rattle.wl_record_core.specs.declared.record.Record.{Record};
    ghost use Rattle.wl_record_core.specs.Slots.{slot_of};
    ghost use Rattle.wl_record_core.specs.Truth.{IsIncreasing, AreTrueOf};
    ghost use Rattle.wl_replica.specs.State.{state_of, slots_of, state_with_records, Fits};
    ghost use Rattle.wl_replica.specs.Slots.{HoldsTrue};
    ghost use Rattle.wl_replica.specs.SlotsOf.{NoHorizonFalls};

    /// Takes each of the records, which fit and are of its slots: joins what they say into these. It
    /// takes no memory.
    pub fn take_all(self, told: &[Record]) -> Replica
        requires fits { All (Fits self.known.nodes) told.now }
        requires room { All (λ r. Contains self.slots (slot_of r)) told.now }
        ensures value { result ≡ state_with_records self.known told.now }
        // What took some records, and takes these, took all of them.
        ensures after { (before : List Record) → self.known ≡ state_of self.known.nodes before
            → result ≡ state_of self.known.nodes (before ++ told.now) }
        ensures keeps { (table : ℕ → List ℕ) → ((i : ℕ) → IsIncreasing (table i))
            → HoldsTrue self.known.nodes table (slots_of self.known) → AreTrueOf self.known.nodes table told.now
            → NoHorizonFalls self.known result }
    {
        known_laws();
        let Prepared { rows, runs } = self;
        let mut rows = rows;
        let mut runs = runs;
        for record in told {
            take_one(&mut rows, &mut runs, record);
        }
        Replica {
            rows: rows.into_rows(),
            runs,
        }
    }
}
