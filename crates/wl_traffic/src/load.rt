//! How busy a bus was, by the ticks at which it was busy.
ghost use Rattle.std.specs.Prelude.{◌≡◌, ◌+◌, ◌<◌, ◌≤◌, ◌^◌, ℕ, Bool};
ghost use Rattle.wl_intervals.specs.Pairs.{covers};
ghost use Rattle.wl_traffic.specs.Bus.{load_below, share_of};

use wl_intervals::Intervals;

/// How busy a bus was up to a tick, in ticks.
#[derive(Clone, Copy, Debug)]
pub struct Load {
    /// For how long it was busy.
    pub(crate) busy: u64,
    /// For how long it hasn't been busy at the end.
    pub(crate) pause: u64,
    /// The longest time for which it wasn't busy.
    pub(crate) gap: u64,
    /// For how long it has been busy at the end.
    pub(crate) full: u64,
}

/// Returns the load after `ticks` more. The bus is busy at each, or at none.
fn load_after(load: Load, is_busy: bool, ticks: u64) -> Load
    ensures { (busy : ℕ → Bool) (n : ℕ) → load ≡ load_below busy n → n + ticks < 2 ^ 64
        → ((t : ℕ) → n ≤ t → t < n + ticks → busy t ≡ is_busy) → result ≡ load_below busy (n + ticks) }
{
    if ticks == 0 {
        return load;
    }
    if is_busy {
        return Load {
            busy: load.busy.saturating_add(ticks),
            pause: 0,
            gap: load.gap,
            full: load.full.saturating_add(ticks),
        };
    }
    let pause = load.pause.saturating_add(ticks);
    Load {
        busy: load.busy,
        pause,
        gap: load.gap.max(pause),
        full: 0,
    }
}

/// Returns the first tick after `at` at which the bus becomes busy or ceases to be, or `end` if that comes first.
fn next_after(busy: &Intervals, at: u64, end: u64) -> u64
    requires { at < end }
    ensures later { at < result }
    ensures within { result ≤ end }
    ensures stays { (t : ℕ) → at ≤ t → t < result → covers busy.now t ≡ covers busy.now at }
{
    match busy.next_change(at) {
        Some(tick) => tick.min(end),
        None => end,
    }
}

/// Returns the load by the ticks below `end`, of a bus that is busy at these ticks.
pub(crate) fn load_below(busy: &Intervals, end: u64) -> Load
    ensures { result ≡ load_below (covers busy.now) end }
{
    let mut load = Load {
        busy: 0,
        pause: 0,
        gap: 0,
        full: 0,
    };
    let mut at = 0;
    while at < end {
        let next = next_after(busy, at, end);
        load = load_after(load, busy.at(at).is_dominant(), next - at);
        at = next;
    }
    load
}

/// Returns the share of a time in the whole, in hundredths of a per cent, rounded down.
pub(crate) fn share(time: u64, whole: u64) -> u64
    ensures { result ≡ share_of time whole }
{
    if whole == 0 {
        return 0;
    }
    (10_000 * u128::from(time.min(whole)) / u128::from(whole)) as u64
}
