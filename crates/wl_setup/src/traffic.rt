//! Frames that become ready again and again.
ghost use Rattle.std.specs.Prelude.{◌≡◌, ◌≤◌, ◌++◌, suc, length, IfOk, OnOk};
ghost use Rattle.wl_plan.specs.Limits.{latest_end, most_queued};
ghost use Rattle.wl_setup.specs.Plans.{instances_of, queue_of};

use crate::plan_text::FrameText;
use std::alloc::{AllocError, Global};
use wl_clock::Clock;
use wl_frame::frame::Frame;
use wl_level::Listed;
use wl_node::{Queue, Queued};
use wl_plan::MOST_QUEUED;

/// Adds the instances of a frame, each with the quantum at which it becomes ready.
fn push_instances(
    all: &mut Vec<(u64, Frame)>,
    text: &FrameText,
    queued: Queued,
    clock: &Clock,
    end: u64,
) -> Result<(), AllocError>
    requires { end ≤ latest_end }
    ensures { OnOk result (all.new.items ≡ all.old.items ++ instances_of clock.now end text.now queued) }
{
    let Some(every) = text.every else {
        all.push((queued.ready, queued.frame))?;
        return Ok(());
    };
    let enough = MOST_QUEUED as u64 + 1;
    let most = text.count.unwrap_or(enough).min(enough);
    let last = clock.first_not_before(end);
    wl_clock::ticks_increase();
    let mut ready = queued.ready;
    for _ in 0..most {
        if ready >= last {
            return Ok(());
        }
        all.push((ready, queued.frame))?;
        ready = ready.saturating_add(every);
    }
    Ok(())
}

/// Returns the instances of all frames of a node, in the order in which they become ready. At most one more than may wait.
pub(crate) fn in_order(
    alloc: Global,
    clock: &Clock,
    end: u64,
    texts: &[FrameText],
    queue: &[Queued],
) -> Result<Queue, AllocError>
    requires end { end ≤ latest_end }
    requires frames { length texts.now ≡ length queue.now }
    ensures { IfOk result (λ q. q ≡ queue_of clock.now end texts.now queue.now) }
{
    let mut all = Vec::new(alloc);
    for (n, text) in texts.iter().enumerate() {
        if all.len() <= MOST_QUEUED {
            push_instances(&mut all, text, queue[n], clock, end)?;
        }
    }
    all.truncate(MOST_QUEUED + 1);
    all.sort_by_key(|(ready, _)| *ready)?;
    let mut waiting = Listed::new(alloc);
    for (ready, frame) in all.as_slice() {
        waiting.push(Queued {
            frame: *frame,
            ready: *ready,
        })?;
    }
    Ok(waiting)
}
