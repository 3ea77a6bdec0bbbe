//! How long frames waited, and how many at once.
ghost use Rattle.std.specs.Prelude.{◌≡◌, ◌≤◌, ◌<◌, ◌^◌, ◌∷◌, [], Some, IfOk, count_by};
ghost use Rattle.std.specs.List.{All};
ghost use Rattle.wl_clock.specs.Timing.{tick_of};
ghost use Rattle.wl_node.specs.Limits.{most_run_quanta};
ghost use Rattle.wl_plan.specs.Limits.{latest_end};
ghost use Rattle.wl_views.specs.Ticks.{microseconds};
ghost use Rattle.wl_traffic.specs.Waits.{is_in_time, more_waiting, most_waiting, quanta_waited, time_by, time_waited, waits_at};
ghost use Rattle.wl_traffic.specs.Known.{IsKnown, IsSoon};

use crate::entries::Entry;
use std::alloc::{AllocError, Global};
use wl_clock::Clock;
use wl_views::Tick;

/// Returns for how many quanta each frame waited that was sent.
pub(crate) fn quanta_waited(alloc: Global, mine: &[Entry]) -> Result<Vec<u64>, AllocError>
    ensures { IfOk result (λ waits. waits.items ≡ quanta_waited mine.now) }
{
    let mut waits = Vec::new(alloc);
    for entry in mine {
        if let Some(sent) = entry.sent {
            waits.push(sent.saturating_sub(entry.ready))?;
        }
    }
    Ok(waits)
}

/// Returns the whole microseconds that this many ticks take.
fn microseconds(tick: Tick, ticks: u64) -> u64
    requires { ticks < 2 ^ 43 }
    ensures { result ≡ microseconds tick ticks }
{
    (u128::from(ticks) * u128::from(tick.picoseconds()) / 1_000_000) as u64
}

/// Returns how many whole microseconds a frame waited that was sent at this quantum.
fn time_waited_by(tick: Tick, clock: &Clock, ready: u64, sent: u64) -> u64
    requires known { sent ≤ most_run_quanta }
    requires soon { tick_of clock.now sent < latest_end }
    ensures { time_by tick clock.now ready (Some sent) ≡ result ∷ [] }
{
    let ticks = clock.at(sent).saturating_sub(clock.at(ready.min(sent)));
    microseconds(tick, ticks)
}

/// Returns how many whole microseconds each frame waited that was sent.
pub(crate) fn time_waited(
    alloc: Global,
    tick: Tick,
    clock: &Clock,
    mine: &[Entry],
) -> Result<Vec<u64>, AllocError>
    requires known { All IsKnown mine.now }
    requires soon { All (IsSoon clock.now) mine.now }
    ensures { IfOk result (λ waits. waits.items ≡ time_waited tick clock.now mine.now) }
{
    let mut waits = Vec::new(alloc);
    for entry in mine {
        if let Some(sent) = entry.sent {
            waits.push(time_waited_by(tick, clock, entry.ready, sent))?;
        }
    }
    Ok(waits)
}

/// True if a frame is ready at a quantum, and wasn't sent before it or at it.
fn waits_at(quantum: u64, entry: &Entry) -> bool
    ensures { result ≡ waits_at quantum entry.now }
{
    let unsent = match entry.sent {
        None => true,
        Some(sent) => quantum < sent,
    };
    entry.ready <= quantum && unsent
}

/// Returns how many frames wait at a quantum.
fn waiting_at(quantum: u64, mine: &[Entry]) -> u64
    ensures { result ≡ count_by (waits_at quantum) mine.now }
{
    let mut waiting = 0;
    for entry in mine {
        if waits_at(quantum, entry) {
            waiting += 1;
        }
    }
    waiting
}

/// True if a frame became ready by the last sample.
pub(crate) fn is_in_time(last: Option<u64>, ready: u64) -> bool
    ensures { result ≡ is_in_time last ready }
{
    match last {
        Some(last) => ready <= last,
        None => false,
    }
}

/// Returns the greater of a number and of how many frames wait when this one becomes ready, if it does in time.
fn more_waiting(mine: &[Entry], last: Option<u64>, most: u64, entry: &Entry) -> u64
    ensures { result ≡ more_waiting mine.now last most entry.now }
{
    if is_in_time(last, entry.ready) {
        most.max(waiting_at(entry.ready, mine))
    } else {
        most
    }
}

/// Returns the greatest number of frames that wait at once.
pub(crate) fn most_waiting(last: Option<u64>, mine: &[Entry]) -> u64
    ensures { result ≡ most_waiting last mine.now }
{
    let mut most = 0;
    for entry in mine {
        most = more_waiting(mine, last, most, entry);
    }
    most
}
