//! How often a node has taken each frame that another node has sent.
ghost use Rattle.std.specs.Prelude.{◌≡◌, ◌<◌, List, map, take, IfOk};
ghost use Rattle.std.specs.List.{All};
ghost use Rattle.wl_delivery.specs.declared.instances.Instance.{Instance as Sent};
ghost use Rattle.wl_delivery.specs.Instances.{taken_instances, new_instance, with_taken};

use std::alloc::{AllocError, Global};

/// A frame that a node has sent, and how often another node has taken it.
#[derive(Clone, Copy)]
pub struct Instance {
    /// The tick at which it was sent.
    pub(crate) sent: u64,
    /// How often it was taken.
    pub(crate) taken: u64,
}

/// Returns the frames that were sent at these ticks, which nobody has taken yet.
fn new_instances(alloc: Global, sent: &[u64]) -> Result<Vec<Instance>, AllocError>
    ensures { IfOk result (λ made. made.items ≡ map new_instance sent.now) }
{
    let mut made = Vec::new(alloc);
    for tick in sent {
        made.push(Instance {
            sent: *tick,
            taken: 0,
        })?;
    }
    Ok(made)
}

/// Returns from which place on a frame can be that was sent at `tick` or later, if none of those before `place` was sent at `before` or later.
fn start(tick: u64, before: u64, place: usize) -> usize
    ensures { (all : List Sent)
        → All (λ i. i.sent < before) (take place all) → All (λ i. i.sent < tick) (take result all) }
{
    if tick < before { 0 } else { place }
}

/// Notes that a frame was taken at this tick: the first of these that was sent then or later. Returns its place, or how many there are if none was.
/// Those before place `from` were sent before the tick.
fn note_taken(instances: &mut Vec<Instance>, from: usize, tick: u64) -> usize
    requires early { All (λ i. i.sent < tick) (take from instances.old.items) }
    ensures noted { instances.new.items ≡ with_taken tick instances.old.items }
    ensures early { All (λ i. i.sent < tick) (take result instances.new.items) }
{
    for k in from..instances.len() {
        if tick <= instances[k].sent {
            let taken = instances[k].taken.saturating_add(1);
            instances[k].taken = taken;
            return k;
        }
    }
    instances.len()
}

/// Returns the frames that were sent at these ticks, and how often each was taken, if frames were taken at those.
pub(crate) fn taken_instances(
    alloc: Global,
    sent: &[u64],
    taken: &[u64],
) -> Result<Vec<Instance>, AllocError>
    ensures { IfOk result (λ instances. instances.items ≡ taken_instances sent.now taken.now) }
{
    let mut instances = new_instances(alloc, sent)?;
    let mut before = 0;
    let mut place = 0;
    for tick in taken {
        let from = start(*tick, before, place);
        place = note_taken(&mut instances, from, *tick);
        before = *tick;
    }
    Ok(instances)
}
