//! The inequalities that bound how long messages wait.
ghost use Rattle.std.specs.Prelude.{◌≡◌, ◌^◌, ◌-◌, ◌<◌, ◌≤◌, min, length};
ghost use Rattle.wl_respond.specs.Inequalities.{are_enough, blocked_for, head_start, instance_demand, instance_share, instances, is_enough, is_instance_enough, is_room_enough, is_wait_enough, is_whole_enough, is_window_enough, lacks_instance, window_at, window_demand, window_share};
ghost use Rattle.wl_respond.specs.Rows.{cost_limit, row_at, wait_limit};
ghost use Rattle.wl_topology.specs.Driven.{any_below};

use crate::row::{Row, WAIT_LIMIT};

/// The times that are the same for all messages, in millionths of a tick.
#[derive(Clone, Copy)]
pub(crate) struct Common {
    /// Less than this before a frame's beginning a node may have decided not to take part in it.
    pub(crate) lead: u128,
    /// After a gap a ready frame begins within this.
    pub(crate) wake: u128,
    pub(crate) ghost lead_fits: { lead < cost_limit },
    pub(crate) ghost wake_fits: { wake < cost_limit },
}

/// An instance of a message in a window, from 0 on, and the length of its window in millionths of a tick.
#[derive(Clone, Copy)]
pub(crate) struct Instance {
    pub(crate) j: u128,
    pub(crate) window: u128,
    pub(crate) ghost short: { window < wait_limit },
}

/// Returns how long before the instant of a window of `m` a frame of `e` may have become ready.
pub(crate) fn head_start(common: Common, m: &Row, e: &Row) -> u128
    ensures value { result ≡ head_start common.lead m.now e.now }
    ensures most { result < 2 ^ 106 }
{
    let wait = if m.level() < e.level() { e.wait() } else { 0 };
    common.lead + wait
}

/// Returns how long the frames of `e` in a window of `m` with this length take, up to the greatest number.
pub(crate) fn window_share(common: Common, window: u128, m: &Row, e: &Row) -> u128
    requires { window < wait_limit }
    ensures { result ≡ min (window_share common.lead window m.now e.now) (2 ^ 128 - 1) }
{
    if e.field() > m.level() {
        return 0;
    }
    let length = head_start(common, m, e) + window;
    let period = e.period();
    let count = (length + (period - 1)) / period;
    count.saturating_mul(e.cost())
}

/// Returns how long all frames in a window of `m` take, up to the greatest number.
pub(crate) fn window_demand(common: Common, rows: &[Row], m: &Row) -> u128
    ensures { result ≡ min (window_demand common.lead common.wake rows.now m.now) (2 ^ 128 - 1) }
{
    let mut demand: u128 = 0;
    let window = m.window();
    for e in 0..rows.len() {
        demand = demand.saturating_add(window_share(common, window, m, &rows[e]));
    }
    demand
}

/// Returns how long a frame beyond the level of `m` blocks, or a gap.
pub(crate) fn blocked_for(common: Common, rows: &[Row], m: &Row) -> u128
    ensures value { result ≡ blocked_for common.lead common.wake rows.now m.now }
    ensures most { result < cost_limit }
{
    let mut longest = 0;
    for e in 0..rows.len() {
        if !(rows[e].field() <= m.level()) {
            longest = rows[e].cost().max(longest);
        }
    }
    common.wake.max(longest)
}

/// True if the frames of a window of `m` fit into it.
fn is_window_enough(common: Common, rows: &[Row], m: &Row) -> bool
    ensures { result ≡ is_window_enough common.lead common.wake rows.now m.now }
{
    let demand = window_demand(common, rows, m);
    blocked_for(common, rows, m).saturating_add(demand) <= m.window()
}

/// Returns how many frames of `m` a window has at most that has all its frames.
pub(crate) fn instances(common: Common, m: &Row) -> u128
    ensures { result ≡ instances common.lead m.now }
{
    let length = head_start(common, m, m) + m.window();
    let period = m.period();
    (length + (period - 1)) / period
}

/// True if the window with all frames of `m` is enough for the wait of each.
pub(crate) fn is_whole_enough(common: Common, m: &Row) -> bool
    ensures { result ≡ is_whole_enough common.lead m.now }
{
    head_start(common, m, m) + m.window() + m.tail() <= m.wait() + m.cost()
}

/// Returns how long the frames of message `e` take in the window of an instance of message `k`, which isn't counted.
fn instance_share(common: Common, rows: &[Row], k: usize, it: Instance, e: usize) -> u128
    requires message { k < length rows.now }
    requires other { e < length rows.now }
    ensures { result ≡ min (instance_share common.lead common.wake rows.now k it.j it.window e) (2 ^ 128 - 1) }
{
    let m = &rows[k];
    if e == k {
        it.j.saturating_mul(m.cost())
    } else {
        window_share(common, it.window, m, &rows[e])
    }
}

/// Returns how long all frames take in the window of an instance of message `k`, which isn't counted.
pub(crate) fn instance_demand(common: Common, rows: &[Row], k: usize, it: Instance) -> u128
    requires { k < length rows.now }
    ensures { result ≡ min (instance_demand common.lead common.wake rows.now k it.j it.window) (2 ^ 128 - 1) }
{
    let mut demand: u128 = 0;
    for e in 0..rows.len() {
        demand = demand.saturating_add(instance_share(common, rows, k, it, e));
    }
    demand
}

/// True if the frames before an instance of message `k` fit into its window.
fn is_room_enough(common: Common, rows: &[Row], k: usize, it: Instance) -> bool
    requires { k < length rows.now }
    ensures { result ≡ is_room_enough common.lead common.wake rows.now k it.j it.window }
{
    let demand = instance_demand(common, rows, k, it);
    blocked_for(common, rows, &rows[k]).saturating_add(demand) <= it.window
}

/// True if an instance of `m` is sent within its wait.
fn is_wait_enough(common: Common, m: &Row, it: Instance) -> bool
    ensures { result ≡ is_wait_enough common.lead m.now it.j it.window }
{
    let late = it.j.saturating_mul(m.period());
    head_start(common, m, m) + it.window + m.tail() <= m.wait().saturating_add(late)
}

/// Returns instance `j` of `m`, with its window.
pub(crate) fn instance_at(windows: &[u128], m: &Row, j: usize) -> Instance
    ensures number { result.j ≡ j }
    ensures window { result.window ≡ window_at windows.now m.now j }
{
    let place = m.first().saturating_add(j);
    let window = if place < windows.len() {
        windows[place]
    } else {
        0
    };
    Instance {
        j: j as u128,
        window: window.min(WAIT_LIMIT - 1),
    }
}

/// True if the window of instance `j` of message `k` passes.
fn is_instance_enough(common: Common, rows: &[Row], windows: &[u128], k: usize, j: usize) -> bool
    requires { k < length rows.now }
    ensures { result ≡ is_instance_enough common.lead common.wake rows.now windows.now k j }
{
    let m = &rows[k];
    let it = instance_at(windows, m, j);
    is_room_enough(common, rows, k, it) && is_wait_enough(common, m, it)
}

/// True if one of the first `count` instances of message `k` lacks something.
fn lacks_instances(common: Common, rows: &[Row], windows: &[u128], k: usize, count: usize) -> bool
    requires { k < length rows.now }
    ensures { result ≡ any_below count (lacks_instance common.lead common.wake rows.now windows.now k) }
{
    let mut lacks = false;
    for j in 0..count {
        lacks = lacks || !is_instance_enough(common, rows, windows, k, j);
    }
    lacks
}

/// True if the numbers of message `k` pass.
fn is_enough(common: Common, rows: &[Row], windows: &[u128], k: usize) -> bool
    requires { k < length rows.now }
    ensures { result ≡ is_enough common.lead common.wake rows.now windows.now k }
{
    let m = &rows[k];
    if !is_window_enough(common, rows, m) {
        return false;
    }
    if is_whole_enough(common, m) {
        return true;
    }
    let count = instances(common, m);
    count <= windows.len() as u128 && !lacks_instances(common, rows, windows, k, count as usize)
}

/// True if the numbers of all messages pass.
pub(crate) fn are_enough(common: Common, rows: &[Row], windows: &[u128]) -> bool
    ensures { result ≡ are_enough common.lead common.wake rows.now windows.now }
{
    let mut lacks = false;
    for k in 0..rows.len() {
        lacks = lacks || !is_enough(common, rows, windows, k);
    }
    !lacks
}
