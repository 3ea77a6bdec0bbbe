//! What a sweep finds of one member.
ghost use Rattle.std.specs.Prelude.{◌≡◌, ◌↔◌, IsTrue, IfOk, map, List, drop};
ghost use Rattle.wl_node.specs.declared.setup.Passed.{Passed};
ghost use Rattle.wl_plan.specs.Checked.{IsChecked};
ghost use Rattle.wl_serial.specs.Outcome.{outcome_of};
ghost use Rattle.wl_setup.specs.Plans.{plan_of_text};
ghost use Rattle.wl_sweep.specs.Findings.{CleanIsClean, all_like, finding_of_totals, finding_of_result, finding_of_text, is_clean, is_early, is_off_bus, is_refused, is_unclean, some_off, like};

use std::alloc::{AllocError, Global};
use wl_confine::Mode;
use wl_node::Passed;
use wl_report::{all_errors, all_unsent};
use wl_serial::{NodeTotals, Totals, run_totals};
use wl_setup::{PlanText, SetupFault};

/// What a sweep finds of one member: the first of these that applies.
#[derive(Debug, Drop)]
pub enum Finding {
    /// No error, no node off the bus, no frame left to send, and the same frames, in one order, passed through every node.
    Clean,
    /// Errors were found: how many, and how many frames were left to send.
    Faulty(u128, u128),
    /// A node is off the bus.
    Off,
    /// No error was found, but this many frames were left to send: the plan ends too early.
    Early(u128),
    /// A frame that passed through one node passed through another at another place of its order, or not at all.
    Missed,
    /// The plan text was refused, by this fault.
    Refused(SetupFault),
}

impl Finding {
    /// True if the bus worked.
    pub fn is_clean(&self) -> bool
        ensures { result ≡ is_clean self.now }
    {
        match self {
            Finding::Clean => true,
            _ => false,
        }
    }

    /// True if the plan only ends too early.
    pub fn is_early(&self) -> bool
        ensures { result ≡ is_early self.now }
    {
        match self {
            Finding::Early(_) => true,
            _ => false,
        }
    }

    /// True if the text was refused.
    pub fn is_refused(&self) -> bool
        ensures { result ≡ is_refused self.now }
    {
        match self {
            Finding::Refused(_) => true,
            _ => false,
        }
    }

    /// True if a bus was run, and isn't clean.
    pub fn is_unclean(&self) -> bool
        ensures { result ≡ is_unclean self.now }
    {
        match self {
            Finding::Clean | Finding::Refused(_) => false,
            _ => true,
        }
    }
}

/// True if a node is off the bus.
fn is_off_bus(node: &NodeTotals) -> bool
    ensures { result ≡ is_off_bus node.now }
{
    match node.counters.mode() {
        Mode::Off => true,
        _ => false,
    }
}

/// True if one of the nodes is off the bus.
fn some_off(nodes: &[NodeTotals]) -> bool
    ensures { result ≡ some_off nodes.now }
{
    for node in nodes {
        if is_off_bus(node) {
            return true;
        }
    }
    false
}

/// True if the same frames passed through two nodes, in the same order.
#[tactic(auto, using(crate::proofs::Frames::unlike_length))]
fn like(one: &[Passed], other: &[Passed]) -> bool
    ensures { result ≡ like one.now other.now }
{
    if one.len() != other.len() {
        return false;
    }
    for i in 0..one.len() {
        if one[i].frame != other[i].frame {
            return false;
        }
    }
    true
}

/// True if the same frames passed through all nodes, in the same order.
fn all_like(nodes: &[NodeTotals]) -> bool
    ensures { result ≡ all_like nodes.now }
{
    let first = match nodes.first() {
        Some(first) => first,
        None => return true,
    };
    for node in nodes {
        if !like(first.frames.as_slice(), node.frames.as_slice()) {
            return false;
        }
    }
    true
}

/// Returns what an outcome shows of its bus, by what it says of each node.
pub fn finding_of(totals: &Totals) -> Finding
    ensures { result ≡ finding_of_totals totals.now }
{
    let nodes = totals.as_slice();
    let errors = all_errors(nodes);
    let unsent = all_unsent(nodes);
    if errors != 0 {
        Finding::Faulty(errors, unsent)
    } else if some_off(nodes) {
        Finding::Off
    } else if unsent != 0 {
        Finding::Early(unsent)
    } else if !all_like(nodes) {
        Finding::Missed
    } else {
        Finding::Clean
    }
}

/// Returns what is found of a plan text.
pub(crate) fn finding_of_text(alloc: Global, text: &PlanText) -> Result<Finding, AllocError>
    ensures { IfOk result (λ finding. finding ≡ finding_of_text text.now) }
{
    match text.plan(alloc) {
        Ok(plan) => {
            let totals = run_totals(alloc, &plan)?;
            Ok(finding_of(&totals))
        }
        Err(SetupFault::Memory) => Err(AllocError),
        Err(fault) => Ok(Finding::Refused(fault)),
    }
}

/// Law: a member is clean exactly if four things hold. No node found an error, none is off the bus, none has a frame left to send, and the
/// same frames passed through all nodes, in one order.
pub fn clean_is_a_working_bus()
    ensures { CleanIsClean }
{}
