//! Plans that passed their check.
ghost use Rattle.std.specs.Prelude.{◌≡◌, ◌<◌, ◌≤◌, IfOk, length};
ghost use Rattle.std.specs.Result.{result_err};
ghost use Rattle.wl_plan.specs.Checked.{IsChecked, fault_of, fault_within};
ghost use Rattle.wl_limits.specs.Limits.{queue_limit};
ghost use Rattle.wl_plan.specs.PlanLine.{line_of, setup_at};
ghost use Rattle.wl_plan.specs.Sound.{IsSound};
ghost use Rattle.wl_topology.specs.Limits.{most_places};

use crate::check::PlanFault;
use crate::laws::checked_is_sound;
use crate::limits::FEW_QUEUED;
use crate::plan::Plan;
use std::marker::Model;
use std::ops::Deref;
use wl_limits::Limits;
use wl_node::NodeSetup;

/// A plan that passed its check, so that it can be run.
///
/// It is used as a plan: contracts see the plan, and each use of a part of it ensures that it was checked.
#[derive(Debug, Drop)]
pub struct CheckedPlan {
    plan: Plan,
}

impl Model for CheckedPlan {
    ghost use Rattle.wl_plan.specs.declared.plan.Plan.{Plan};
    ghost use Rattle.wl_plan.specs.Checked.{IsChecked};

    ghost Value = { Plan };

    ghost view = { λ c. c.plan };

    ghost invariant = { λ c. IsChecked c.plan };
}

impl CheckedPlan {
    /// Returns the plan as a checked one, or its first refusal, as `Plan::check` returns it. It takes no memory.
    pub fn new(plan: Plan) -> Result<CheckedPlan, PlanFault>
        ensures fault { result_err result ≡ fault_of plan }
        ensures ok { IfOk result (λ checked. checked ≡ plan) }
    {
        CheckedPlan::within(plan, Limits::Narrow, FEW_QUEUED)
    }

    /// Returns the plan as a checked one by these limits if at most `queued` frames may wait at a node, or its first refusal, as
    /// `Plan::check_within` returns it. It takes no memory.
    pub fn within(plan: Plan, limits: Limits, queued: usize) -> Result<CheckedPlan, PlanFault>
        requires { queued ≤ queue_limit limits }
        ensures fault { result_err result ≡ fault_within limits queued plan }
        ensures ok { IfOk result (λ checked. checked ≡ plan) }
    {
        match plan.check_within(limits, queued) {
            Ok(()) => Ok(CheckedPlan { plan }),
            Err(fault) => Err(fault),
        }
    }

    /// Returns a plan that is known to pass its check as a checked one. It takes no time.
    pub fn of(plan: Plan) -> CheckedPlan
        requires { IsChecked plan }
        ensures { result ≡ plan }
    {
        CheckedPlan { plan }
    }

    /// Returns the number of nodes: 1 to 64.
    pub fn nodes(&self) -> u8
        ensures value { result ≡ length self.now.nodes }
        ensures some { 0 < result }
        ensures few { result ≤ most_places }
    {
        self.plan.nodes.len() as u8
    }

    /// Returns what node `i` is made of.
    pub fn node(&self, i: u8) -> &NodeSetup
        requires { i < length self.now.nodes }
        ensures { result.now ≡ setup_at self.now i }
    {
        let nodes = self.plan.nodes.as_slice();
        let place = i as usize;
        &nodes[place]
    }

    /// Law: the plan can be run, and its line is sound (`checked_is_sound`).
    pub fn laws(&self)
        ensures checked { IsChecked self.now }
        ensures sound { IsSound (line_of self.now) }
    {
        checked_is_sound();
        let _ = &self.plan;
    }

    /// Returns the plan itself, for calls that take one.
    pub fn into_plan(self) -> Plan
        ensures same { result ≡ self }
        ensures checked { IsChecked self }
    {
        self.plan
    }
}

impl Deref for CheckedPlan {
    type Target = Plan;

    ghost use Rattle.std.specs.Prelude.{◌≡◌};
    ghost use Rattle.wl_plan.specs.Checked.{IsChecked};

    ghost deref_gives = { λ checked plan. (plan ≡ checked) × IsChecked checked };

    /// Returns the plan.
    fn deref(&self) -> &Plan {
        &self.plan
    }
}
