//! A member of a group, as the group keeps it, and its next quanta.

ghost use Rattle.std.specs.Prelude.{◌≡◌, ◌+◌, ◌<◌, ◌≤◌, length, IfOk, OnErr};
ghost use Rattle.wl_level.specs.declared.Level.{Level as GivenLevel};
ghost use Rattle.wl_record_core.specs.Limits.{most_edges};
ghost use Rattle.wl_node.specs.Limits.{most_quiet, most_run_quanta};
ghost use Rattle.wl_node.specs.Reached.{quanta_of, keeps_lists, node_setup, HasGone as NodeHasGone, IsSameNode};
ghost use Rattle.wl_plan.specs.Limits.{most_quanta};
ghost use Rattle.wl_plan.specs.PlanLine.{line_of};
ghost use Rattle.wl_plan.specs.Simulation.{AreInside};

use crate::answer::Emission;
use arrayvec::ArrayVec;
use std::alloc::AllocError;
use wl_level::Level;
use wl_node::Node;
use wl_plan::CheckedPlan;
use wl_record_core::{Record, Slot};
use wl_replica::PREPARED_SLOTS;
use wl_topology::MOST_NODES;

/// How many ticks a level takes from each node to one of them.
pub(crate) type Ways = [u64; MOST_NODES];

/// A node of the plan, how often its drive has changed, the tick of its next quantum, and the ways to it.
#[derive(Drop)]
pub(crate) struct Cell {
    pub(crate) node: Node,
    pub(crate) changed: u32,
    pub(crate) next: u64,
    pub(crate) ways: Ways,
}

/// Runs quanta of one level, up to the first that changes the drive: one at least, `most` at most. Returns how many ran, also if memory ran
/// out after some. Refused if it ran out before the first, and the node is where it was.
fn run_some(node: &mut Node, level: Level, most: u64) -> Result<u64, AllocError>
    requires some { 0 < most }
    requires short { quanta_of node.old + most ≤ most_run_quanta }
    ensures gone { IfOk result (λ n. NodeHasGone level n node.old node.new) }
    ensures some { IfOk result (λ n. 0 < n) }
    ensures few { IfOk result (λ n. n ≤ most) }
    ensures same { OnErr result (IsSameNode node.old node.new) }
    ensures setup { OnErr result (node_setup node.new ≡ node_setup node.old) }
    ensures quanta { OnErr result (quanta_of node.new ≡ quanta_of node.old) }
    ensures keeps { keeps_lists node.new ≡ keeps_lists node.old }
{
    let before = node.quanta();
    match node.go(level, most) {
        Ok(ran) => Ok(ran),
        Err(_) => {
            let ran = node.quanta() - before;
            if ran == 0 {
                return Err(AllocError);
            }
            Ok(ran)
        }
    }
}

impl Cell {
    ghost use Rattle.wl_group.specs.Kept.{IsCell};
    ghost use Rattle.wl_group.specs.Running.{HasGone, HasNotGone, slots_ahead};
    ghost use Rattle.wl_group.specs.Through.{said_last, turned_last};

    /// Returns the slots about which node `i` may say something at its next quanta, up to one that changes its drive: that change, and the
    /// silence without it and with it.
    pub(crate) fn next_slots(&self, i: u8) -> [Slot; PREPARED_SLOTS]
        requires { self.now.changed ≤ most_edges }
        ensures { result ≡ slots_ahead i self.now.changed }
    {
        let (node, seq) = (i, self.changed);
        [
            Slot::EdgeAt { node, seq },
            Slot::SilenceAt { node, count: seq },
            Slot::SilenceAt {
                node,
                count: seq + 1,
            },
        ]
    }

    /// Runs quanta in a row, at which the node reads this level: one at least, `most` at most, and none after one that changes its drive.
    /// Returns true if the last one changed it. Refused if memory runs out before the first, and the member is where it was.
    pub(crate) fn go(&mut self, level: Level, most: u64) -> Result<bool, AllocError>
        requires some { 0 < most }
        requires quanta { quanta_of self.old.node + most ≤ most_quanta }
        requires changed { self.old.changed ≤ most_edges }
        ensures gone { IfOk result (λ turned. HasGone level most self.old self.new turned) }
        ensures err { OnErr result (HasNotGone self.old self.new) }
    {
        let quanta = self.node.quanta();
        let before = self.node.drive();
        let ran = run_some(&mut self.node, level, most)?;
        self.next = self.node.setup().clock.at(quanta + ran);
        if self.node.drive().is(before) {
            return Ok(false);
        }
        self.changed += 1;
        Ok(true)
    }

    /// Returns what node `i` says after its last quantum, at which its drive changed or didn't: that change, if it did, and up to which tick
    /// it is sure to keep its drive from then on.
    pub(crate) fn speak(&self, plan: &CheckedPlan, i: u8, turned: bool) -> Emission
        requires node { i < length plan.now.nodes }
        requires cell { IsCell plan.now i self.now }
        requires some { 0 < quanta_of self.now.node }
        requires inside { AreInside (line_of plan.now) i (quanta_of self.now.node) }
        requires turned { turned ≡ turned_last plan.now i self.now }
        ensures { result.items ≡ said_last plan.now i self.now }
    {
        plan.laws();
        wl_plan::simulation_laws();
        let quanta = self.node.quanta();
        let clock = &self.node.setup().clock;
        let mut emission = ArrayVec::new();
        if turned {
            emission.push(Record::Edge {
                node: i,
                seq: self.changed - 1,
                tick: clock.at(quanta - 1),
            });
        }
        emission.push(Record::Silence {
            node: i,
            count: self.changed,
            until: clock.at(quanta + self.node.quiet() as u64),
        });
        emission
    }
}
