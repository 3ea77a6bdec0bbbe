//! How many frames of a message a node misses, and how many it takes twice.
ghost use Rattle.std.specs.Prelude.{◌≡◌, ◌≤◌, IfOk, IfSome, count_by};
ghost use Rattle.wl_node.specs.Limits.{most_run_quanta};
ghost use Rattle.wl_delivery.specs.Deliveries.{delivery_of, misses_instance, is_twice, presence_of};
ghost use Rattle.wl_delivery.specs.Instances.{taken_instances};

use crate::instances::{Instance, taken_instances};
use std::alloc::{AllocError, Global};
use wl_clock::Clock;

/// From when to when a node takes part, in ticks: after `from`, and up to `until`.
#[derive(Clone, Copy)]
pub struct Presence {
    /// The tick of its eleventh recessive sample in a row.
    pub(crate) from: u64,
    /// The tick of its last sample.
    pub(crate) until: u64,
}

/// How many frames of a message a node misses, and how many it takes twice or more often.
#[derive(Clone, Copy)]
pub struct Delivery {
    /// How many it misses.
    pub missed: u64,
    /// How many it takes twice or more often.
    pub twice: u64,
}

/// Returns from when to when a node with this clock takes part, by the quantum of its eleventh recessive sample in a row and of its last one.
pub fn presence_of(clock: &Clock, joined: Option<u64>, last: Option<u64>) -> Presence
    requires joined { IfSome joined (λ quantum. quantum ≤ most_run_quanta) }
    requires last { IfSome last (λ quantum. quantum ≤ most_run_quanta) }
    ensures { result ≡ presence_of clock.now joined last }
{
    match (joined, last) {
        (Some(joined), Some(last)) => Presence {
            from: clock.at(joined),
            until: clock.at(last),
        },
        _ => Presence { from: 0, until: 0 },
    }
}

/// True if a node takes part when a frame is sent, and doesn't take the frame.
fn misses_instance(presence: Presence, instance: &Instance) -> bool
    ensures { result ≡ misses_instance presence instance.now }
{
    instance.taken == 0 && presence.from < instance.sent && instance.sent <= presence.until
}

/// Returns how many frames a node misses.
fn missed_count(presence: Presence, instances: &[Instance]) -> u64
    ensures { result ≡ count_by (misses_instance presence) instances.now }
{
    let mut count = 0;
    for instance in instances {
        if misses_instance(presence, instance) {
            count += 1;
        }
    }
    count
}

/// Returns how many frames a node takes twice or more often.
fn twice_count(instances: &[Instance]) -> u64
    ensures { result ≡ count_by is_twice instances.now }
{
    let mut count = 0;
    for instance in instances {
        if 1 < instance.taken {
            count += 1;
        }
    }
    count
}

/// Returns how many frames of a message a node misses, and how many it takes twice. The frames were sent at the ticks of `sent`, and the node
/// has taken some at the ticks of `taken`.
pub fn delivery_of(
    alloc: Global,
    presence: Presence,
    sent: &[u64],
    taken: &[u64],
) -> Result<Delivery, AllocError>
    ensures { IfOk result (λ found. found ≡ delivery_of presence sent.now taken.now) }
{
    let instances = taken_instances(alloc, sent, taken)?;
    Ok(Delivery {
        missed: missed_count(presence, &instances),
        twice: twice_count(&instances),
    })
}
