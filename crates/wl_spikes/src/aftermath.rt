//! What a spike costs: what is found of a member.
ghost use Rattle.std.specs.Prelude.{◌≡◌, ◌≤◌, ◌^◌, ◌<◌, IfOk};
ghost use Rattle.std.specs.List.{list_any};
ghost use Rattle.wl_traffic.specs.Reasons.{has_unsent};
ghost use Rattle.wl_spikes.specs.Aftermaths.{aftermath_at, aftermath_of, class_of, if_closed, most_rec, most_tec, rank_of};

use crate::spike::Spikes;
use std::alloc::{AllocError, Global};
use wl_plan::CheckedPlan;
use wl_serial::{NodeTotals, run_counted};
use wl_setup::SetupFault;
use wl_traffic::{Reason, verdict_of};

/// The class of a member, from the best to the worst.
#[derive(Clone, Copy, Debug, PartialEq, Eq)]
pub enum Class {
    /// `traffic` says that the run works.
    Clean,
    /// There were errors. Each frame got through once, no node missed one, and all flags were over at the end.
    Healed,
    /// There was no error, but a message is late, or a node is deaf.
    Late,
    /// Frames were left to send, or some node was at a flag at the end.
    Unhealed,
    /// Some node has taken a frame twice.
    Twice,
    /// Some node misses a frame that was sent while the node took part.
    Missed,
    /// Some node was bus off at some time.
    Off,
    /// The plan can't be run.
    Refused,
}

impl Class {
    /// Returns the place of the class among the classes: 0 is the best.
    pub(crate) fn rank(self) -> u8
        ensures { result ≡ rank_of self }
    {
        match self {
            Class::Clean => 0,
            Class::Healed => 1,
            Class::Late => 2,
            Class::Unhealed => 3,
            Class::Twice => 4,
            Class::Missed => 5,
            Class::Off => 6,
            Class::Refused => 7,
        }
    }
}

/// What is found of a member.
#[derive(Clone, Copy, Debug, PartialEq, Eq)]
pub struct Aftermath {
    /// Its class.
    pub class: Class,
    /// The ticks from the spike's end until no node is at an error or overload flag or its delimiter any more.
    pub trouble: u64,
    /// The greatest transmit error counter of a node at the end.
    pub tec: u64,
    /// The greatest receive error counter of a node at the end.
    pub rec: u64,
}

/// Returns a class, unless something is open at the end.
fn if_closed(pending: bool, class: Class) -> Class
    ensures { result ≡ if_closed pending class }
{
    if pending { Class::Unhealed } else { class }
}

/// Returns the class of a run that didn't work for this reason, at whose end something is open or not.
fn class_of(reason: Reason, pending: bool) -> Class
    ensures { result ≡ class_of reason pending }
{
    match reason {
        Reason::BusOff => Class::Off,
        Reason::Missed => Class::Missed,
        Reason::TakenTwice => Class::Twice,
        Reason::Errors => if_closed(pending, Class::Healed),
        Reason::Works => if_closed(pending, Class::Clean),
        Reason::Overloaded | Reason::Starved | Reason::EndsTooEarly | Reason::Deaf => {
            if_closed(pending, Class::Late)
        }
    }
}

/// True if a node has a frame left to send.
fn any_left(nodes: &[NodeTotals]) -> bool
    ensures { result ≡ list_any has_unsent nodes.now }
{
    nodes.iter().any(|node| 0 < node.unsent)
}

/// Returns the greatest transmit error counter of some nodes.
fn most_tec(nodes: &[NodeTotals]) -> u64
    ensures { result ≡ most_tec nodes.now }
{
    let mut most = 0u64;
    for node in nodes {
        most = most.max(node.counters.tec());
    }
    most
}

/// Returns the greatest receive error counter of some nodes.
fn most_rec(nodes: &[NodeTotals]) -> u64
    ensures { result ≡ most_rec nodes.now }
{
    let mut most = 0u64;
    for node in nodes {
        most = most.max(node.counters.rec());
    }
    most
}

/// Returns what is found of a plan whose spike is over at tick `to`.
fn aftermath_of(alloc: Global, to: u64, plan: &CheckedPlan) -> Result<Aftermath, AllocError>
    ensures { IfOk result (λ found. found ≡ aftermath_of to plan.now) }
{
    let counted = run_counted(alloc, plan)?;
    let verdict = verdict_of(alloc, plan, &counted)?;
    let nodes = counted.totals.as_slice();
    let pending = any_left(nodes) || plan.end <= verdict.trouble;
    Ok(Aftermath {
        class: class_of(verdict.reason, pending),
        trouble: verdict.trouble.saturating_sub(to),
        tec: most_tec(nodes),
        rec: most_rec(nodes),
    })
}

impl Spikes {
    /// Returns what is found of member `n`.
    pub(crate) fn aftermath(&self, alloc: Global, n: u32) -> Result<Aftermath, AllocError>
        ensures { IfOk result (λ found. found ≡ aftermath_at self.now.spike self.now.text n) }
    {
        let text = self.plan_text(alloc, n)?;
        match text.plan(alloc) {
            Ok(plan) => aftermath_of(alloc, self.spike.end_tick(n), &plan),
            Err(SetupFault::Memory) => Err(AllocError),
            Err(_) => Ok(Aftermath {
                class: Class::Refused,
                trouble: 0,
                tec: 0,
                rec: 0,
            }),
        }
    }
}
