//! What a node that goes on has done, and what a report says of that.
ghost use Rattle.std.specs.Prelude.{◌≡◌, ℕ, true, List, IfOk};
ghost use Rattle.wl_level.specs.declared.Level.{Level};
ghost use Rattle.wl_node.specs.History.{history_of};
ghost use Rattle.wl_node.specs.Reached.{IsNode, keeps_lists, node_setup};
ghost use Rattle.wl_serial.specs.Outcome.{outcome_of_history, node_totals as totals_of_outcome};

use crate::outcome::{Changes, NodeOutcome, NodeTotals};
use std::alloc::{AllocError, Global};
use wl_level::Listed;
use wl_node::Node;

/// Returns what a node that lists its samples has done so far, with the ticks at which its drive changed, which it doesn't keep itself. The node stays as it is.
/// Refused only when out of memory.
pub fn node_outcome(alloc: Global, node: &Node, changes: Changes) -> Result<NodeOutcome, AllocError>
    ensures { IfOk result (λ outcome. keeps_lists node.now ≡ true → (levels : List Level) → IsNode levels node.now
        → outcome ≡ outcome_of_history (node_setup node.now) changes (history_of (node_setup node.now) levels)) }
{
    Ok(NodeOutcome {
        changes,
        samples: node.samples().copy(alloc)?,
        frames: Listed::from_vec(Vec::from_slice(alloc, node.frames())?),
        counters: node.counters(),
        phases: Listed::from_vec(Vec::from_slice(alloc, node.phases())?),
        hards: node.hards(),
        errors: node.errors(),
        unsent: node.unsent(),
    })
}

/// Returns what a report says of what a node has done so far, whether it lists its samples or only counts them. The node stays as it is. Refused
/// only when out of memory.
pub fn node_totals(alloc: Global, node: &Node) -> Result<NodeTotals, AllocError>
    ensures { IfOk result (λ totals. (changes : List ℕ) (levels : List Level) → IsNode levels node.now
        → totals ≡ totals_of_outcome
        (outcome_of_history (node_setup node.now) changes (history_of (node_setup node.now) levels))) }
{
    let frames = Vec::from_slice(alloc, node.frames())?;
    Ok(NodeTotals {
        samples: node.sample_count(),
        frames: Listed::from_vec(frames),
        counters: node.counters(),
        phases: node.phase_totals(),
        hards: node.hards(),
        errors: node.errors(),
        unsent: node.unsent(),
    })
}
