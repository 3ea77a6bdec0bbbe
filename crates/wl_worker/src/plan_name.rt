//! A plan as the name of a hub, and the words that it needs there.
ghost use Rattle.std.specs.Prelude.{◌≡◌, ◌<◌, IfOk, length};
ghost use Rattle.wl_worker.specs.PlanName.{HasWords, IsShapeOf};

use std::alloc::{AllocError, Global};
use wl_hub::Truth;
use wl_plan::{CheckedPlan, Plan};

/// A plan as the name of a hub's passes: of it those records are true that are true of the plan.
#[derive(Drop)]
pub struct PlanName {
    pub plan: Plan,
}

impl Truth for PlanName {
    ghost use Rattle.wl_worker.specs.PlanName.{is_told};

    ghost is_true = { is_told };
}

/// Returns the shape of a hub for a plan that passed its check: a node `k` of whose quanta begin before the end has
/// `k / (least_way + 1) + 1` edge words, rounded down, and one silence word more. Refused only when out of memory.
pub fn shape_of_plan(alloc: Global, plan: &CheckedPlan) -> Result<Vec<(u32, u32)>, AllocError>
    ensures { IfOk result (λ shape. IsShapeOf plan.now shape.items) }
{
    let mut shape = Vec::new(alloc);
    for i in 0..plan.nodes() {
        shape.push(words_of(plan, i))?;
    }
    Ok(shape)
}

/// Returns the numbers of edge words and of silence words of node `i`.
fn words_of(plan: &CheckedPlan, i: u8) -> (u32, u32)
    requires node { i < length plan.now.nodes }
    ensures { HasWords plan.now i result }
{
    plan.laws();
    let node = plan.node(i);
    let quanta = node.clock.first_not_before(plan.end);
    let edges = (quanta / (node.segments.least_way() + 1)) as u32 + 1;
    (edges, edges + 1)
}
