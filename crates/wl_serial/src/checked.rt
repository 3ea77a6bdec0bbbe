//! Plans that passed their check, as the engine borrows them.
ghost use Rattle.std.specs.Prelude.{◌≡◌, ◌<◌, ◌≤◌, length};
ghost use Rattle.wl_plan.specs.Checked.{IsChecked};
ghost use Rattle.wl_plan.specs.PlanLine.{line_of, setup_at};
ghost use Rattle.wl_plan.specs.Sound.{IsSound};
ghost use Rattle.wl_topology.specs.Delays.{delay_of};
ghost use Rattle.wl_topology.specs.Limits.{most_places};

use std::marker::Model;
use std::ops::Deref;
use wl_node::NodeSetup;
use wl_plan::Plan;

/// A borrowed plan that passed its check. Contracts see the plan.
#[derive(Drop)]
pub(crate) struct Checked<'p> {
    plan: &'p Plan,
}

impl<'p> Model for Checked<'p> {
    ghost use Rattle.wl_plan.specs.declared.plan.Plan.{Plan};
    ghost use Rattle.wl_plan.specs.Checked.{IsChecked};

    ghost Value = { Plan };

    ghost view = { λ c. c.plan.now };

    ghost invariant = { λ c. IsChecked c.plan.now };
}

impl<'p> Checked<'p> {
    /// Returns the plan as a checked one.
    pub(crate) fn new(plan: &'p Plan) -> Checked<'p>
        requires { IsChecked plan.now }
        ensures { result ≡ plan.now }
    {
        Checked { plan }
    }

    /// Returns the number of nodes: 1 to 64.
    pub(crate) fn nodes(&self) -> usize
        ensures value { result ≡ length self.now.nodes }
        ensures some { 0 < result }
        ensures few { result ≤ most_places }
    {
        self.plan.nodes.len()
    }

    /// Returns what node `i` is made of.
    pub(crate) fn node(&self, i: usize) -> &NodeSetup
        requires { i < length self.now.nodes }
        ensures { result.now ≡ setup_at self.now i }
    {
        let nodes = self.plan.nodes.as_slice();
        &nodes[i]
    }

    /// Returns the end, in ticks.
    pub(crate) fn end(&self) -> u64
        ensures { result ≡ self.now.end }
    {
        self.plan.end
    }

    /// Returns the delay from node `i` to node `j`, in ticks.
    pub(crate) fn delay(&self, i: usize, j: usize) -> u64
        requires from { i < length self.now.nodes }
        requires to { j < length self.now.nodes }
        ensures ticks { result ≡ delay_of self.now.topology i j }
        ensures positive { 1 ≤ result }
    {
        self.plan.topology.delay(i as u8, j as u8)
    }

    /// Law: the plan can be run, and its line is sound (`checked_is_sound`).
    pub(crate) fn laws(&self)
        ensures checked { IsChecked self.now }
        ensures sound { IsSound (line_of self.now) }
    {
        wl_plan::checked_is_sound();
        let _ = &self.plan;
    }
}

impl<'p> Deref for Checked<'p> {
    type Target = Plan;

    ghost use Rattle.std.specs.Prelude.{◌≡◌};
    ghost use Rattle.wl_plan.specs.Checked.{IsChecked};

    ghost deref_gives = { λ checked plan. (plan ≡ checked) × IsChecked checked };

    /// Returns the plan.
    fn deref(&self) -> &Plan {
        self.plan
    }
}
