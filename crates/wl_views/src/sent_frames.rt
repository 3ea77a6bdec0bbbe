//! The frames that were sent, each with the tick of its completion.
ghost use Rattle.std.specs.Prelude.{◌≡◌, ◌≤◌, ◌++◌, OnOk, IfOk};
ghost use Rattle.std.specs.List.{All};
ghost use Rattle.wl_level.specs.ByTick.{by_tick};
ghost use Rattle.wl_node.specs.Limits.{most_run_quanta};
ghost use Rattle.wl_views.specs.SentFrames.{AreInTime, all_sent, sent_by};

use std::alloc::{AllocError, Global};
use wl_clock::Clock;
use wl_frame::frame::Frame;
use wl_node::Passed;
use wl_plan::Plan;
use wl_serial::NodeTotals;

/// Adds the frames that a node with this clock sent.
fn push_sent(
    sent: &mut Vec<(u64, Frame)>,
    clock: &Clock,
    frames: &[Passed],
) -> Result<(), AllocError>
    requires { All (λ p. p.quantum ≤ most_run_quanta) frames.now }
    ensures { OnOk result (sent.new.items ≡ sent.old.items ++ sent_by clock.now frames.now) }
{
    for passed in frames {
        if passed.sent {
            sent.push((clock.at(passed.quantum), passed.frame))?;
        }
    }
    Ok(())
}

/// Returns the frames that all nodes sent, node by node.
pub(crate) fn all_sent(
    alloc: Global,
    plan: &Plan,
    totals: &[NodeTotals],
) -> Result<Vec<(u64, Frame)>, AllocError>
    requires { AreInTime plan.now totals.now }
    ensures { IfOk result (λ sent. sent.items ≡ all_sent plan.now totals.now) }
{
    let mut sent = Vec::new(alloc);
    let setups = plan.nodes.as_slice();
    for (i, node) in totals.iter().enumerate() {
        push_sent(&mut sent, &setups[i].clock, node.frames.as_slice())?;
    }
    Ok(sent)
}

/// Returns the frames that all nodes sent in the order of their ticks; those of one tick node by
/// node.
pub(crate) fn sent_by_tick(
    alloc: Global,
    plan: &Plan,
    totals: &[NodeTotals],
) -> Result<Vec<(u64, Frame)>, AllocError>
    requires { AreInTime plan.now totals.now }
    ensures { IfOk result (λ sent. sent.items ≡ by_tick plan.now.end (all_sent plan.now totals.now)) }
{
    let mut sent = all_sent(alloc, plan, totals)?;
    sent.sort_by_key(|(tick, _)| *tick)?;
    Ok(sent)
}
