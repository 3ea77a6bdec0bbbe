//! A group of nodes that runs by itself, up to what it knows of the others.

ghost use Rattle.std.specs.Prelude.{◌≡◌, ◌<◌, ◌≤◌, ℕ, true, false, List, [], ◌∷◌, length, All, IfOk, OnOk, OnErr, Some};

use crate::begin::{Chosen, chosen_of, first_replica, fresh_cells};
use crate::cell::{Cell, Ways};
use crate::heard::{Heard, Sources, nothing_asked, nothing_heard};
use crate::laws::value_laws;
use std::alloc::{AllocError, Global};
use std::marker::Model;
use wl_node::Node;
use wl_plan::{CheckedPlan, Plan};
use wl_record_core::Record;
use wl_replica::Replica;
use wl_topology::MOST_NODES;

/// For how many emitted records a group has room from the start: 64 KiB.
const EMITTED_AT_FIRST: usize = 4_096;

/// Some nodes of a plan, each of them as far as the line at its place is known, and what is known of all nodes.
///
/// A group runs its nodes without waiting for others: a node may run its next quantum if all that the line can have at its place by then is
/// known (Chandy and Misra, 1979). Each member is where the one-thread simulation of the plan has it after the same number of quanta.
#[derive(Drop)]
pub struct Group {
    pub(crate) alloc: Global,
    pub(crate) plan: CheckedPlan,
    // Whether its nodes list their samples and phase errors.
    pub(crate) lists: bool,
    pub(crate) cells: Vec<Option<Cell>>,
    pub(crate) replica: Replica,
    pub(crate) emitted: Vec<Record>,
    // For each node the number of one that it waited for last: a guess, which decides nothing.
    pub(crate) awaited: [u8; MOST_NODES],
    // For each node how many stretches of the line it looks for ahead: a guess, which decides nothing.
    pub(crate) far: [u8; MOST_NODES],
    // The number of the node that was found to drive dominant last: a guess, which decides nothing.
    pub(crate) lead: u8,
    // For each place what it keeps of each node. They are in a `Vec`, since a group is often moved.
    pub(crate) sources: Vec<Sources>,
    pub(crate) heard: Heard,
    pub(crate) disturbances: Heard,
}

impl Model for Group {
    ghost use Rattle.wl_group.specs.GroupValue.{GroupValue};
    ghost use Rattle.wl_group.specs.Stored.{coded_group};

    ghost Value = { GroupValue };

    ghost coded = { coded_group };

    ghost use Rattle.wl_group.specs.Kept.{group_value};
    ghost use Rattle.wl_group.specs.Heard.{IsKeptWithStretches};

    ghost view = { λ g. group_value g.plan g.lists g.cells.items g.replica g.emitted.items };

    ghost invariant = { λ g. IsKeptWithStretches g.plan g.lists g.cells.items g.replica g.emitted.items
        g.heard g.disturbances g.sources.items };
}

impl Group {
    ghost use Rattle.wl_record_core.specs.declared.record.Record.{Record};
    ghost use Rattle.wl_replica.specs.State.{state_of, slots_of};
    ghost use Rattle.wl_replica.specs.Slots.{HoldsTrue};
    ghost use Rattle.wl_node.specs.Reached.{IsNode, keeps_lists, node_setup, quanta_of};
    ghost use Rattle.wl_plan.specs.Checked.{IsChecked};
    ghost use Rattle.wl_plan.specs.PlanLine.{setup_at, line_of, table_of, IsTrueOfPlan};
    ghost use Rattle.wl_group.specs.Party.{Party, initial_party, party_with};
    ghost use Rattle.wl_group.specs.Member.{next_tick};
    ghost use Rattle.wl_group.specs.Chosen.{is_chosen};
    ghost use Rattle.wl_group.specs.Said.{HasJoined};
    ghost use Rattle.wl_group.specs.Ways.{AreWays};
    ghost use Rattle.wl_topology.specs.Limits.{most_places};
    ghost use Rattle.wl_group.specs.GroupValue.{IsGroupValue, Matches, belongs, quanta_at, members_now, names, initial_group, may_run, has_ended, with_records, with_state};

    /// Returns a group of these nodes of a plan that passed its check, before their first quanta. It knows no more than that each of them
    /// keeps its first drive up to its first quantum. A number that comes twice counts once. Its nodes list their samples and phase errors.
    /// Refused only when out of memory.
    pub fn new(alloc: Global, plan: &Plan, members: &[u8]) -> Result<Group, AllocError>
        requires checked { IsChecked plan.now }
        requires nodes { All (λ m. m < length plan.now.nodes) members.now }
        ensures value { IfOk result (λ group. group ≡ initial_group true plan.now (names members.now)) }
        ensures begun { IfOk result (λ group. Matches (initial_party (line_of plan.now) (names members.now)) group) }
        ensures plan { IfOk result (λ group. group.plan ≡ plan.now) }
        ensures members { IfOk result (λ group. belongs group ≡ names members.now) }
    {
        Group::begin(alloc, plan, members, true)
    }

    /// Returns such a group whose nodes only count their samples and phase errors, which takes less memory and time. Refused only when out of
    /// memory.
    pub fn counting(alloc: Global, plan: &Plan, members: &[u8]) -> Result<Group, AllocError>
        requires checked { IsChecked plan.now }
        requires nodes { All (λ m. m < length plan.now.nodes) members.now }
        ensures value { IfOk result (λ group. group ≡ initial_group false plan.now (names members.now)) }
        ensures begun { IfOk result (λ group. Matches (initial_party (line_of plan.now) (names members.now)) group) }
        ensures plan { IfOk result (λ group. group.plan ≡ plan.now) }
        ensures members { IfOk result (λ group. belongs group ≡ names members.now) }
    {
        Group::begin(alloc, plan, members, false)
    }

    /// Returns such a group whose nodes list their samples and phase errors if `lists` is true, and else only count them.
    fn begin(alloc: Global, plan: &Plan, members: &[u8], lists: bool) -> Result<Group, AllocError>
        requires checked { IsChecked plan.now }
        requires nodes { All (λ m. m < length plan.now.nodes) members.now }
        ensures value { IfOk result (λ group. group ≡ initial_group lists plan.now (names members.now)) }
        ensures begun { IfOk result (λ group. Matches (initial_party (line_of plan.now) (names members.now)) group) }
        ensures plan { IfOk result (λ group. group.plan ≡ plan.now) }
        ensures members { IfOk result (λ group. belongs group ≡ names members.now) }
    {
        value_laws();
        let plan = CheckedPlan::of(plan.clone_in(alloc)?);
        let chosen = chosen_of(members);
        let cells = fresh_cells(alloc, &plan, &chosen, lists)?;
        let replica = first_replica(alloc, &plan, &chosen)?;
        let sources = nothing_asked(alloc)?;
        let emitted = Vec::with_capacity(alloc, EMITTED_AT_FIRST)?;
        Ok(Group {
            alloc,
            plan,
            lists,
            cells,
            replica,
            emitted,
            awaited: [0; MOST_NODES],
            far: [1; MOST_NODES],
            lead: 0,
            sources,
            heard: nothing_heard(),
            disturbances: nothing_heard(),
        })
    }

    /// Begins again: fresh nodes, which list their samples and phase errors if those before did, and an empty replica that has taken the
    /// members' first silences. Refused when out of memory, the group is as it was.
    pub fn restart(&mut self) -> Result<(), AllocError>
        ensures ok { OnOk result (self.new ≡ initial_group self.old.lists self.old.plan (belongs self.old)) }
        ensures begun { OnOk result (Matches (initial_party (line_of self.old.plan) (belongs self.old)) self.new) }
        ensures lists { self.new.lists ≡ self.old.lists }
        ensures members { belongs self.new ≡ belongs self.old }
        ensures err { OnErr result (self.new ≡ self.old) }
    {
        value_laws();
        let chosen = self.chosen();
        let cells = fresh_cells(self.alloc, &self.plan, &chosen, self.lists)?;
        let replica = first_replica(self.alloc, &self.plan, &chosen)?;
        self.cells = cells;
        self.replica = replica;
        self.emitted.clear();
        Ok(())
    }

    /// Takes a record that is true of the plan, as all that its groups emit. Refused when out of memory, the group is as it was.
    pub fn take(&mut self, entry: Record) -> Result<(), AllocError>
        requires { IsTrueOfPlan self.old.plan entry }
        ensures ok { OnOk result (self.new ≡ with_records (entry ∷ []) self.old) }
        ensures after { OnOk result ((p : Party) → Matches p self.old → Matches (party_with (entry ∷ []) p) self.new) }
        ensures err { OnErr result (self.new ≡ self.old) }
    {
        value_laws();
        self.replica.take(entry)?;
        Ok(())
    }

    /// Takes all that another replica of the plan's nodes knows, if that is true of the plan. Refused when out of memory, the group is as
    /// it was.
    pub fn join(&mut self, other: &Replica) -> Result<(), AllocError>
        requires nodes { other.now.nodes ≡ length self.old.plan.nodes }
        requires truth { HoldsTrue (length self.old.plan.nodes) (table_of self.old.plan) (slots_of other.now) }
        ensures ok { OnOk result (self.new ≡ with_state other.now self.old) }
        ensures after { OnOk result (HasJoined other.now self.old self.new) }
        ensures err { OnErr result (self.new ≡ self.old) }
    {
        value_laws();
        // (what it knows is what some records say)
        let _ = other.nodes();
        self.replica.join(other)?;
        Ok(())
    }

    /// True if node `i` is a member.
    pub fn has(&self, i: u8) -> bool
        ensures { result ≡ belongs self.now i }
    {
        (i as usize) < self.cells.len() && self.cells[i as usize].is_some()
    }

    /// True if an advance of this node would run a quantum: it is a member, and its next quantum's tick is below the end and below what is
    /// known of the line at its place. Any number may be asked.
    pub fn can_advance(&self, node: u8) -> bool
        ensures { result ≡ may_run self.now node }
    {
        value_laws();
        if !self.has(node) {
            return false;
        }
        let due = self.due(node);
        due < self.plan.end && due < self.replica.place_horizon(&self.plan.topology, node)
    }

    /// True if this node is at the end: it is a member, and its next quantum isn't below the end. A node that is no member is not. Any
    /// number may be asked.
    pub fn has_ended(&self, node: u8) -> bool
        ensures { result ≡ has_ended self.now node }
    {
        self.has(node) && self.due(node) >= self.plan().end
    }

    /// Returns, for each number that a node may have, whether it is a member.
    pub fn chosen(&self) -> [bool; MOST_NODES]
        ensures { (i : ℕ) → is_chosen result i ≡ belongs self.now i }
    {
        let mut chosen = [false; MOST_NODES];
        for i in 0..MOST_NODES as u8 {
            chosen[i as usize] = self.has(i);
        }
        // (reading a part gives the proof what the type keeps)
        let _ = &self.plan;
        chosen
    }

    /// Returns the tick of a member's next quantum.
    pub(crate) fn due(&self, node: u8) -> u64
        requires { belongs self.now node ≡ true }
        ensures { result ≡ next_tick (line_of self.now.plan) node (members_now self.now node) }
    {
        value_laws();
        wl_plan::simulation_laws();
        match &self.cells[node as usize] {
            Some(cell) => cell.next,
            None => unreachable!(),
        }
    }

    /// Returns how many ticks a level takes from each node to a member.
    pub(crate) fn ways(&self, node: u8) -> &Ways
        requires { belongs self.now node ≡ true }
        ensures ways { AreWays self.now.plan node result.now }
        ensures some { 0 < self.now.replica.nodes }
        ensures few { self.now.replica.nodes ≤ most_places }
    {
        match &self.cells[node as usize] {
            Some(cell) => &cell.ways,
            None => unreachable!(),
        }
    }

    /// Returns what is known of all nodes. All of it is true of the plan.
    pub fn replica(&self) -> &Replica
        ensures value { result.now ≡ self.now.replica }
        ensures holds { IsGroupValue self.now }
    {
        &self.replica
    }

    /// Returns a member's node. It is where the one-thread simulation has it after the same number of quanta. It lists its
    /// samples if the group's nodes do.
    pub fn node(&self, i: u8) -> &Node
        requires { belongs self.now i ≡ true }
        ensures node { IsNode (members_now self.now i).saw result.now }
        ensures setup { node_setup result.now ≡ setup_at self.now.plan i }
        ensures quanta { quanta_at self.now i ≡ Some (quanta_of result.now) }
        ensures keeps { self.now.lists ≡ true → keeps_lists result.now ≡ true }
        ensures holds { IsGroupValue self.now }
    {
        match &self.cells[i as usize] {
            Some(cell) => &cell.node,
            None => unreachable!(),
        }
    }

    /// Returns what the group's advances have emitted since it began or began again, in order. Each record is true of the plan.
    pub fn emitted(&self) -> &[Record]
        ensures value { result.now ≡ self.now.emitted }
        ensures holds { IsGroupValue self.now }
    {
        &self.emitted
    }

    /// Returns the plan whose nodes these are.
    pub fn plan(&self) -> &CheckedPlan
        ensures value { result.now ≡ self.now.plan }
        ensures holds { IsGroupValue self.now }
    {
        &self.plan
    }
}
