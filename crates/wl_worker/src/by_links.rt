//! All workers of a plan, by either link.
ghost use Rattle.std.specs.Prelude.{◌≡◌, ◌≢◌, ◌<◌, ◌⊎◌, ◌↔◌, Err, IfOk};
ghost use Rattle.wl_plan.specs.Checked.{IsChecked};
ghost use Rattle.wl_serial.specs.Outcome.{outcome_of};

use crate::bell::{Bell, MOST_WORKERS};
use crate::hub_link::hub_links;
use crate::link::{Fault, Gate};
use crate::mail_link::mail_links;
use crate::plan_name::{PlanName, shape_of_plan};
use crate::threads::simulate_links;
use std::alloc::Global;
use std::sync::Wait;
use std::thread::Threads;
use wl_hub::Hub;
use wl_mail::posts;
use wl_plan::{CheckedPlan, Plan};
use wl_serial::Outcome;

/// What workers hand records to one another by.
#[derive(Clone, Copy, Debug, PartialEq, Eq)]
pub enum LinkKind {
    /// The words of one hub.
    Hub,
    /// Letters.
    Mail,
}

/// Returns the outcome of the one-thread simulation of a plan, by this many workers over one hub: `simulate_by` with the hub.
pub fn simulate<R: Threads + Wait + Sync, G: Gate + Sync>(
    rt: &R,
    alloc: Global,
    plan: Plan,
    workers: u8,
    gate: &G,
) -> Result<Outcome, Fault>
    requires { IsChecked plan }
    ensures outcome { IfOk result (λ outcome. outcome ≡ outcome_of plan) }
    ensures workers { result ≡ Err Fault.Workers ↔ (workers ≡ 0) ⊎ (8 < workers) }
{
    simulate_by(rt, alloc, plan, workers, LinkKind::Hub, gate)
}

/// Returns the outcome of the one-thread simulation of a plan, by this many workers that hand records over by this kind of link. Its
/// refusals are those of `simulate_over`.
pub fn simulate_by<R: Threads + Wait + Sync, G: Gate + Sync>(
    rt: &R,
    alloc: Global,
    plan: Plan,
    workers: u8,
    kind: LinkKind,
    gate: &G,
) -> Result<Outcome, Fault>
    requires { IsChecked plan }
    ensures outcome { IfOk result (λ outcome. outcome ≡ outcome_of plan) }
    ensures workers { result ≡ Err Fault.Workers ↔ (workers ≡ 0) ⊎ (8 < workers) }
{
    if workers == 0 || usize::from(workers) > MOST_WORKERS {
        return Err(Fault::Workers);
    }
    let plan = CheckedPlan::of(plan);
    match kind {
        LinkKind::Hub => simulate_over_hub(rt, alloc, &plan, workers, gate),
        LinkKind::Mail => simulate_over_mail(rt, alloc, &plan, workers, gate),
    }
}

/// Returns that outcome, by 1 to 8 workers over one hub.
fn simulate_over_hub<R: Threads + Wait + Sync, G: Gate + Sync>(
    rt: &R,
    alloc: Global,
    plan: &CheckedPlan,
    workers: u8,
    gate: &G,
) -> Result<Outcome, Fault>
    requires { (0 < workers) × (workers < 9) }
    ensures outcome { IfOk result (λ outcome. outcome ≡ outcome_of plan.now) }
    ensures cause { result ≢ Err Fault.Workers }
{
    let shape = shape_of_plan(alloc, plan)?;
    let name = PlanName {
        plan: plan.clone_in(alloc)?,
    };
    let (hub, pass) = Hub::start(alloc, shape.as_slice(), &name)?;
    let bell = Bell::new(alloc, workers)?;
    let links = hub_links(rt, alloc, &hub, pass, &bell, workers)?;
    simulate_links(rt, alloc, plan, links, gate)
}

/// Returns that outcome, by 1 to 8 workers that send letters. All receivers are held until the workers have ended, so that nobody's letter
/// is refused because its reader ended before.
fn simulate_over_mail<R: Threads + Wait + Sync, G: Gate + Sync>(
    rt: &R,
    alloc: Global,
    plan: &CheckedPlan,
    workers: u8,
    gate: &G,
) -> Result<Outcome, Fault>
    requires { (0 < workers) × (workers < 9) }
    ensures outcome { IfOk result (λ outcome. outcome ≡ outcome_of plan.now) }
    ensures cause { result ≢ Err Fault.Workers }
{
    let (posts, _hold) = posts(alloc, workers)?;
    let bell = Bell::new(alloc, workers)?;
    let links = mail_links(rt, alloc, posts, plan, &bell)?;
    simulate_links(rt, alloc, plan, links, gate)
}
