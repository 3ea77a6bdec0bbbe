//! What the types of a plan keep of every plan that there is.
ghost use Rattle.std.specs.Prelude.{All};
ghost use Rattle.wl_frame.specs.Grammar.{IsContent};
ghost use Rattle.wl_proved.specs.PlansOfFamily.{IsRunnable};

use wl_node::{NodeSetup, Queued};
use wl_plan::CheckedPlan;

/// Law: what waits in each queue are frames.
fn all_are_frames(queue: &[Queued])
    ensures { All (λ q. IsContent q.frame) queue.now }
{
    match queue {
        [] => {}
        [first, later @ ..] => {
            let _ = first.frame.id();
            all_are_frames(later);
        }
    }
}

/// Law: so it is at each node.
fn all_have_frames(nodes: &[NodeSetup])
    ensures { All (λ node. All (λ q. IsContent q.frame) node.queue) nodes.now }
{
    match nodes {
        [] => {}
        [first, later @ ..] => {
            all_are_frames(first.queue.as_slice());
            all_have_frames(later);
        }
    }
}

/// Law: each checked plan can be run, and what waits in its queues are frames, since the types keep that. It changes nothing.
pub fn a_checked_plan_is_runnable(plan: &CheckedPlan)
    ensures { IsRunnable plan.now }
{
    plan.laws();
    all_have_frames(plan.nodes.as_slice());
}
