//! A search for bounds that pass the test.
ghost use Rattle.std.specs.Prelude.{◌≡◌, ◌<◌, IfOk, IfSome, length};
ghost use Rattle.wl_bound.specs.Rooms.{plain_bus};
ghost use Rattle.wl_respond.specs.Rows.{wait_limit};
ghost use Rattle.wl_respond.specs.Tests.{pass};

use crate::inequality::{
    Common, Instance, blocked_for, head_start, instance_demand, instances, window_demand,
};
use crate::message::{MessageWait, pass, rows};
use crate::row::{Row, WAIT_LIMIT};
use std::alloc::{AllocError, Global};
use wl_bound::Family;

/// How often the window of a message is widened at most.
const MOST_STEPS: u32 = 1 << 24;

/// How many shares are counted at most in the windows of all instances: a share is one message in a window of another. With half of it more messages
/// of a great bus have the bound by one window. With twice of it 256 messages may take 0.3 s longer.
const MOST_SHARES: usize = 1 << 26;

/// A load of 100 %.
const FULL: u128 = 1 << 40;

/// What the search found.
#[derive(Drop)]
pub struct Found {
    /// The messages with their bounds.
    pub messages: Vec<MessageWait>,
    /// The windows of the instances of all messages, in millionths of a tick.
    pub windows: Vec<u128>,
    /// Whether these pass the test.
    pub passes: bool,
}

/// True if the messages take all of the bus in the long run, even rounded down. Then no window has room for all frames.
fn is_full(rows: &[Row]) -> bool {
    let mut load: u128 = 0;
    for row in rows {
        load = load.saturating_add(row.cost().saturating_mul(FULL) / row.period());
    }
    load >= FULL
}

/// The turn of a message: those of a greater level come first, since their waits count in the windows of others.
#[derive(Clone, Copy)]
struct Turn {
    level: u64,
    k: usize,
}

impl Turn {
    /// True if it comes after another turn.
    fn is_after(self, other: Turn) -> bool {
        self.level < other.level || self.level == other.level && self.k < other.k
    }
}

/// Returns the turn after the last one, if there is one.
fn next_turn(rows: &[Row], last: Turn) -> Option<Turn> {
    let mut next: Option<Turn> = None;
    for k in 0..rows.len() {
        let turn = Turn {
            level: rows[k].level(),
            k,
        };
        let is_first = match next {
            Some(other) => other.is_after(turn),
            None => true,
        };
        if turn.is_after(last) && is_first {
            next = Some(turn);
        }
    }
    next
}

/// Returns the window of the messages of a level, or 0 if none of them has one yet. It is the same for all.
fn known_window(rows: &[Row], level: u64) -> u128
    ensures { result < wait_limit }
{
    let mut known = 0;
    for e in 0..rows.len() {
        if rows[e].level() == level {
            known = rows[e].window().max(known);
        }
    }
    known
}

/// Returns the least window, from a known one on, into which all frames of message `k` fit. None if there is none, or if it takes too many steps.
fn settled(common: Common, rows: &[Row], k: usize) -> Option<u128>
    requires { k < length rows.now }
    ensures { IfSome result (λ window. window < wait_limit) }
{
    let mut row = rows[k].with(known_window(rows, rows[k].level()), 0, 0);
    let blocked = blocked_for(common, rows, &row);
    for _ in 0..MOST_STEPS {
        let needed = blocked.saturating_add(window_demand(common, rows, &row));
        if needed <= row.window() {
            return Some(row.window());
        }
        if needed >= WAIT_LIMIT {
            return None;
        }
        row = row.with(needed, 0, 0);
    }
    None
}

/// An instance with its window, and how many steps of the search are left after it.
#[derive(Clone, Copy)]
struct Attempt {
    it: Instance,
    left: usize,
}

/// Returns an instance of message `k` with the least window, from its own on, into which all frames before it fit. If no steps are left then, its
/// window may be too short.
fn settled_instance(common: Common, rows: &[Row], k: usize, from: Attempt) -> Attempt
    requires { k < length rows.now }
{
    let j = from.it.j;
    let mut window = from.it.window;
    let blocked = blocked_for(common, rows, &rows[k]);
    for step in 0..from.left {
        let it = Instance { j, window };
        let needed = blocked.saturating_add(instance_demand(common, rows, k, it));
        if needed <= window || needed >= WAIT_LIMIT {
            let left = from.left - step - 1;
            return Attempt { it, left };
        }
        window = needed;
    }
    Attempt {
        it: Instance { j, window },
        left: 0,
    }
}

/// Returns the least window that the next instance of a row may have: one frame more is before it.
fn next_window(row: &Row, it: Instance) -> u128
    ensures { result < wait_limit }
{
    (it.window + row.cost()).min(WAIT_LIMIT - 1)
}

/// Returns how long an instance of a row waits at most.
fn wait_of(common: Common, row: &Row, it: Instance) -> u128
    ensures { result < wait_limit }
{
    let late = it.j.saturating_mul(row.period());
    let length = head_start(common, row, row) + it.window + row.tail();
    length.saturating_sub(late).min(WAIT_LIMIT - 1)
}

/// Returns how long each instance of a row waits at most, by the window that has all its frames.
fn whole_wait(common: Common, row: &Row) -> u128
    ensures { result < wait_limit }
{
    let length = head_start(common, row, row) + row.window() + row.tail();
    length.saturating_sub(row.cost()).min(WAIT_LIMIT - 1)
}

/// How long any instance of a message waits at most, and how many steps of the search are left.
#[derive(Clone, Copy)]
struct Longest {
    wait: u128,
    left: usize,
}

/// Adds the windows of all instances of message `k`, and returns the greatest wait of any: by the window that has all its frames, if there are
/// too few steps. Refused only when out of memory.
fn longest_wait(
    windows: &mut Vec<u128>,
    common: Common,
    rows: &[Row],
    k: usize,
    steps: usize,
) -> Result<Longest, AllocError>
    requires { k < length rows.now }
    ensures { IfOk result (λ longest. longest.wait < wait_limit) }
{
    let row = rows[k];
    let whole = whole_wait(common, &row);
    let count = instances(common, &row);
    if count >= steps as u128 {
        return Ok(Longest {
            wait: whole,
            left: steps,
        });
    }
    let mut longest = 0;
    let mut window = 0;
    let mut left = steps;
    for j in 0..count as usize {
        let first = Instance {
            j: j as u128,
            window,
        };
        let settled = settled_instance(common, rows, k, Attempt { it: first, left });
        windows.push(settled.it.window)?;
        longest = wait_of(common, &row, settled.it).max(longest);
        window = next_window(&row, settled.it);
        left = settled.left;
    }
    let wait = if left == 0 { whole } else { longest };
    Ok(Longest { wait, left })
}

/// Sets the window and the wait of message `k`, and adds the windows of its instances. Returns how many steps of the search are left. None if no
/// window was found. Refused only when out of memory.
fn bound(
    windows: &mut Vec<u128>,
    common: Common,
    rows: &mut Vec<Row>,
    k: usize,
    steps: usize,
) -> Result<Option<usize>, AllocError>
    requires { k < length rows.now.items }
{
    let Some(window) = settled(common, rows.as_slice(), k) else {
        return Ok(None);
    };
    let first = windows.len();
    rows[k] = rows[k].with(window, 0, first);
    let longest = longest_wait(windows, common, rows.as_slice(), k, steps)?;
    rows[k] = rows[k].with(window, longest.wait, first);
    Ok(Some(longest.left))
}

/// Sets windows and waits of all messages, as far as they have any, and returns the windows of their instances. Each message has the same part of the
/// steps that those before it left. Refused only when out of memory.
fn search(alloc: Global, common: Common, rows: &mut Vec<Row>) -> Result<Vec<u128>, AllocError> {
    let mut windows = Vec::new(alloc);
    if is_full(rows.as_slice()) {
        return Ok(windows);
    }
    let count = rows.len();
    let mut steps = MOST_SHARES / count.max(1);
    let mut last = Turn {
        level: u64::MAX,
        k: usize::MAX,
    };
    for n in 0..count {
        let Some(turn) = next_turn(rows.as_slice(), last) else {
            break;
        };
        if turn.k >= rows.len() {
            break;
        }
        let part = steps / (count - n);
        let Some(left) = bound(&mut windows, common, rows, turn.k, part)? else {
            break;
        };
        steps = steps.saturating_sub(part).saturating_add(left);
        last = turn;
    }
    Ok(windows)
}

/// Returns the messages with the bounds of rows. Refused only when out of memory.
fn bounded(
    alloc: Global,
    messages: &[MessageWait],
    rows: &[Row],
) -> Result<Vec<MessageWait>, AllocError> {
    let mut all = Vec::new(alloc);
    for (message, row) in messages.iter().zip(rows.iter()) {
        all.push(MessageWait {
            window: row.window(),
            wait: row.wait(),
            first: row.first(),
            ..*message
        })?;
    }
    Ok(all)
}

/// Returns the messages with bounds, and whether these pass the test. The least ones are searched from below: the window that has all frames of a
/// message, and that of each instance. If these take too many steps, the wait is by the first. No message has bounds if one has no window of less
/// than 2^90 millionths of a tick, or takes too many steps. Refused only when out of memory.
pub fn bounds_of(
    alloc: Global,
    family: &Family,
    messages: &[MessageWait],
) -> Result<Found, AllocError>
    ensures { IfOk result (λ found. found.passes
        ≡ pass (plain_bus family.now) found.messages.items found.windows.items) }
{
    let times = family.times();
    let common = Common {
        lead: times.lead,
        wake: times.wake,
    };
    let unbounded = rows(alloc, family, times, messages)?;
    let mut table = Vec::from_slice(alloc, unbounded.as_slice())?;
    let windows = search(alloc, common, &mut table)?;
    let messages = bounded(alloc, messages, table.as_slice())?;
    let passes = pass(alloc, family, messages.as_slice(), windows.as_slice())?;
    Ok(Found {
        messages,
        windows,
        passes,
    })
}
