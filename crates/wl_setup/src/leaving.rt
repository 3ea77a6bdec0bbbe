//! Which frame a node sends first, and with which quantum it leaves the bus.
ghost use Rattle.std.specs.Prelude.{◌≡◌};
ghost use Rattle.wl_setup.specs.Plans.{order_of, until_in};

use crate::plan_text::QueueText;
use wl_clock::Clock;
use wl_node::QueueOrder;
use wl_plan::LATEST_END;

/// Returns the order in which a node sends the frames that wait.
pub(crate) fn order_of(queue: QueueText) -> QueueOrder
    ensures { result ≡ order_of queue }
{
    match queue {
        QueueText::Fifo => QueueOrder::Fifo,
        QueueText::Priority => QueueOrder::Priority,
    }
}

/// Returns the first quantum of a node that begins at this tick or later, if there is such a tick. A tick after the latest end is that end.
pub(crate) fn leaves(clock: &Clock, until: Option<u64>) -> Option<u64>
    ensures { result ≡ until_in clock.now until }
{
    match until {
        Some(tick) => Some(clock.first_not_before(tick.min(LATEST_END))),
        None => None,
    }
}
