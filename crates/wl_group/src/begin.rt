//! What a group begins with.
ghost use Rattle.std.specs.Prelude.{◌≡◌, ◌<◌, ◌≤◌, ◌++◌, ℕ, Bool, true, if◌then◌else◌, Option, List, [], ◌∷◌, length, All, IfOk, OnOk, map, None, Some};
ghost use Rattle.wl_record_core.specs.declared.record.Record.{Record as Told};
ghost use Rattle.wl_record_core.specs.declared.record.Record.TheVariants.{Silence};
ghost use Rattle.wl_replica.specs.State.{state_of};
ghost use Rattle.wl_topology.specs.Limits.{most_places};
ghost use Rattle.wl_node.specs.Reached.{IsNode, keeps_lists, node_setup};
ghost use Rattle.wl_plan.specs.Line.{reach};
ghost use Rattle.wl_plan.specs.PlanLine.{line_of, IsTrueOfPlan};
ghost use Rattle.wl_plan.specs.Checked.{IsChecked};
ghost use Rattle.wl_group.specs.GroupValue.{names, initial_group};
ghost use Rattle.wl_group.specs.Kept.{quanta_kept, ran_of, IsCell, AreCells, AreListing};
ghost use Rattle.wl_group.specs.declared.cell.Cell.{Cell as KeptCell};
ghost use Rattle.wl_group.specs.Chosen.{is_chosen};
ghost use Rattle.wl_group.specs.Party.{initial_silences};
ghost use Rattle.wl_group.specs.Ways.{AreWays};

use crate::cell::{Cell, Ways};
use std::alloc::{AllocError, Global};
use wl_node::{Node, NodeSetup};
use wl_plan::CheckedPlan;
use wl_record_core::Record;
use wl_replica::Replica;
use wl_topology::MOST_NODES;

/// For each number that a node may have, whether it is chosen.
pub(crate) type Chosen = [bool; MOST_NODES];

/// Returns the numbers of a list.
pub(crate) fn chosen_of(members: &[u8]) -> Chosen
    requires { All (λ m. m < most_places) members.now }
    ensures { (i : ℕ) → is_chosen result i ≡ names members.now i }
{
    let mut chosen = [false; MOST_NODES];
    for i in 0..MOST_NODES as u8 {
        chosen[i as usize] = is_named(members, i);
    }
    chosen
}

/// True if the list has this number.
fn is_named(members: &[u8], i: u8) -> bool
    ensures { result ≡ names members.now i }
{
    members.iter().any(|m| *m == i)
}

/// Returns, for each node of the plan that is chosen, the node before its first quantum. The nodes list their samples and phase errors if
/// `lists` is true, and else only count them.
pub(crate) fn fresh_cells(
    alloc: Global,
    plan: &CheckedPlan,
    chosen: &Chosen,
    lists: bool,
) -> Result<Vec<Option<Cell>>, AllocError>
    ensures ran { IfOk result
        (λ cells. ran_of cells.items ≡ (initial_group lists plan.now (is_chosen chosen.now)).ran) }
    ensures cells { IfOk result (λ cells. AreCells plan.now cells.items) }
    ensures listing { IfOk result (λ cells. AreListing lists cells.items) }
{
    let mut cells = Vec::new(alloc);
    for i in 0..plan.nodes() {
        cells.push(fresh_cell(alloc, plan, chosen, lists, i)?)?;
    }
    Ok(cells)
}

/// Returns node `i` before its first quantum, if it is chosen. It lists its samples and phase errors if `lists` is true, and else only
/// counts them.
fn fresh_cell(
    alloc: Global,
    plan: &CheckedPlan,
    chosen: &Chosen,
    lists: bool,
    i: u8,
) -> Result<Option<Cell>, AllocError>
    requires node { i < length plan.now.nodes }
    ensures ran { IfOk result (λ cell. quanta_kept cell ≡ (if is_chosen chosen.now i then Some 0 else None)) }
    ensures cell { IfOk result (λ cell. (member : KeptCell) → cell ≡ Some member → IsCell plan.now i member) }
    ensures keeps { IfOk result (λ cell. (member : KeptCell) → cell ≡ Some member → keeps_lists member.node ≡ lists) }
{
    plan.laws();
    wl_plan::simulation_laws();
    wl_node::node_laws();
    if !chosen[i as usize] {
        return Ok(None);
    }
    let setup = plan.node(i).clone_in(alloc)?;
    let node = fresh_node(alloc, setup, lists)?;
    let next = node.setup().clock.at(0);
    Ok(Some(Cell {
        node,
        changed: 0,
        next,
        ways: ways_to(plan, i),
    }))
}

/// Returns a node of this setup that has run no quantum. It lists its samples and phase errors if `lists` is true, and else only counts
/// them.
fn fresh_node(alloc: Global, setup: NodeSetup, lists: bool) -> Result<Node, AllocError>
    ensures node { IfOk result (λ node. IsNode [] node) }
    ensures setup { IfOk result (λ node. node_setup node ≡ setup) }
    ensures keeps { IfOk result (λ node. keeps_lists node ≡ lists) }
{
    if lists {
        return Node::new(alloc, setup);
    }
    Node::counting(alloc, setup)
}

/// Returns how many ticks a level takes from each node to node `j`.
fn ways_to(plan: &CheckedPlan, j: u8) -> Ways
    requires node { j < length plan.now.nodes }
    ensures { AreWays plan.now j result }
{
    let mut ways = [0; MOST_NODES];
    for i in 0..plan.nodes() {
        ways[i as usize] = plan.topology.delay(i, j);
    }
    ways
}

/// Returns a replica of the plan's nodes that has taken the first silence of each node that is
/// chosen: that it keeps its first drive up to its first quantum.
pub(crate) fn first_replica(
    alloc: Global,
    plan: &CheckedPlan,
    chosen: &Chosen,
) -> Result<Replica, AllocError>
    ensures { IfOk result (λ replica. replica ≡ state_of (length plan.now.nodes)
        (initial_silences (line_of plan.now) (is_chosen chosen.now) (length plan.now.nodes))) }
{
    let mut replica = Replica::new(alloc, plan.nodes())?;
    for i in 0..plan.nodes() {
        take_first(&mut replica, plan, chosen, i)?;
    }
    Ok(replica)
}

/// Returns what a node says before its first quantum: that it keeps its first drive up to then. It
/// is true of the plan.
pub fn first_silence(plan: &CheckedPlan, node: u8) -> Record
    requires node { node < length plan.now.nodes }
    ensures value { result ≡ Silence node 0 (reach (line_of plan.now) node []) }
    ensures truth { IsTrueOfPlan plan.now result }
{
    wl_plan::simulation_laws();
    plan.laws();
    let setup = plan.node(node);
    let until = setup.clock.at(setup.first_quiet() as u64);
    Record::Silence {
        node,
        count: 0,
        until,
    }
}

/// Takes the first silence of node `i`, if it is chosen.
fn take_first(
    replica: &mut Replica,
    plan: &CheckedPlan,
    chosen: &Chosen,
    i: u8,
) -> Result<(), AllocError>
    requires node { i < length plan.now.nodes }
    requires nodes { replica.old.nodes ≡ length plan.now.nodes }
    ensures { OnOk result ((before : List Told) → replica.old ≡ state_of (length plan.now.nodes) before
        → replica.new ≡ state_of (length plan.now.nodes) (before
        ++ (if is_chosen chosen.now i then Silence i 0 (reach (line_of plan.now) i []) ∷ [] else []))) }
{
    plan.laws();
    if !chosen[i as usize] {
        return Ok(());
    }
    replica.take(first_silence(plan, i))?;
    Ok(())
}
