//! What a node's changes make at a place, and for how long that stays.
ghost use Rattle.std.specs.Prelude.{◌≡◌, ◌+◌, ◌-◌, ◌<◌, ◌≤◌, ◌^◌, true, length, slice_index_or};
ghost use Rattle.wl_record_core.specs.Truth.{count_below, IsIncreasing};
ghost use Rattle.wl_pulse.specs.Pulses.{IsPulse, drove};

use crate::pulse::Pulse;

/// Returns whether a node with these changes drove dominant `delay` ticks before tick `t`, and up to which tick that stays. `come` is how
/// many changes had arrived when it was last asked for. It speeds up the next time, and decides nothing.
pub fn pulse_of(changes: &[u64], delay: u64, t: u64, come: &mut usize) -> Pulse
    requires order { IsIncreasing changes.now }
    requires early { t < 2 ^ 63 }
    ensures from { result.from ≡ t }
    ensures until { t < result.until }
    ensures dominant { IsPulse (drove changes.now delay) result }
{
    wl_record_core::table_laws();
    if t < delay {
        return Pulse {
            from: t,
            until: delay,
            dominant: false,
        };
    }
    let count = count_until(changes, t - delay, *come);
    *come = count;
    Pulse {
        from: t,
        until: change_at(changes, count).saturating_add(delay),
        dominant: count % 2 == 1,
    }
}

/// Returns the tick of the change of this number, and if there is none the last tick of all.
pub fn change_at(changes: &[u64], number: usize) -> u64
    ensures there { number < length changes.now → result ≡ slice_index_or changes.now number 0 }
    ensures none { length changes.now ≤ number → result ≡ 2 ^ 64 - 1 }
{
    if number < changes.len() {
        return changes[number];
    }
    u64::MAX
}

/// Returns how many of the changes are not after this tick; `guess` of them were not after an earlier one.
pub fn count_until(changes: &[u64], tick: u64, guess: usize) -> usize
    requires { IsIncreasing changes.now }
    ensures { result ≡ count_below (tick + 1) changes.now }
{
    wl_record_core::table_laws();
    if have_all_come(changes, tick) {
        return changes.len();
    }
    let mut count = sure(changes, tick, guess);
    while count < changes.len() && changes[count] <= tick {
        count += 1;
    }
    count
}

/// True if there are changes, and none of them is after this tick.
fn have_all_come(changes: &[u64], tick: u64) -> bool
    requires { IsIncreasing changes.now }
    ensures { result ≡ true → count_below (tick + 1) changes.now ≡ length changes.now }
{
    wl_record_core::table_laws();
    let all = changes.len();
    if all == 0 || tick < changes[all - 1] {
        return false;
    }
    true
}

/// Returns the guess, if this number of the changes is surely not after this tick, and else none.
fn sure(changes: &[u64], tick: u64, guess: usize) -> usize
    requires { IsIncreasing changes.now }
    ensures { result ≤ count_below (tick + 1) changes.now }
{
    wl_record_core::table_laws();
    if guess == 0 || guess > changes.len() {
        return 0;
    }
    if tick < changes[guess - 1] {
        return 0;
    }
    guess
}
