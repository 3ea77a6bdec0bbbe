//! How long a message waits, and for what.
ghost use Rattle.std.specs.Prelude.{◌≡◌, ℕ, ◌-◌, ◌*◌, ◌<◌, ◌≤◌, ◌^◌, min, true, false, List, length, map, IfOk};
ghost use Rattle.wl_bound.specs.Rooms.{plain_bus};
ghost use Rattle.wl_bound.specs.Limits.{drift_limit};
ghost use Rattle.wl_level.specs.Places.{first_place};
ghost use Rattle.wl_respond.specs.Inequalities.{blocked_for, instances};
ghost use Rattle.wl_respond.specs.Parts.{blocker_of, counted_time, deadline_of, is_blocker, told_line, load_at_most, load_of, met_by, nanoseconds_around, nanoseconds_within, parts_late, parts_of, reaches, share_before, shares_of_node, total_load, within_of, worst_of};
ghost use Rattle.wl_respond.specs.Rows.{MessageTerms, row_at};
ghost use Rattle.wl_respond.specs.Tests.{row_for, shortest_at};

use crate::asked::Asked;
use crate::inequality::{
    Common, Instance, blocked_for, head_start, instance_at, instances, is_whole_enough,
    window_share,
};
use crate::message::{MessageWait, row, shortest_at};
use crate::row::{Row, WAIT_LIMIT};
use crate::table::ONCE;
use std::alloc::{AllocError, Global};
use wl_bound::{BusTimes, Family};
use wl_level::Listed;

/// The parts of a bound, in thousandths of a microsecond. They add up to it.
#[derive(Clone, Copy, Debug, PartialEq, Eq)]
pub struct Parts {
    /// The bound.
    pub bound: u128,
    /// The same in quanta of the message's node, rounded down.
    pub quanta: u128,
    /// For how long the node may not have taken part in what went before.
    pub start: u128,
    /// For how long a frame of a lesser priority, or a gap, blocks.
    pub blocked: u128,
    /// For how long frames of its own node go before.
    pub queued: u128,
    /// For how long frames of other nodes go before.
    pub others: u128,
    /// Its own frame.
    pub frame: u128,
    /// The message that blocks, if it is a message.
    pub by: Option<usize>,
}

/// Whether a message meets its deadline.
#[derive(Clone, Copy, Debug, PartialEq, Eq)]
pub enum Met {
    /// It does.
    InTime,
    /// It may not.
    Late,
    /// It has no deadline, or no bound.
    Open,
}

/// What is said of a message.
#[derive(Clone, Copy, Debug, PartialEq, Eq)]
pub struct Line {
    /// Its jitter, in thousandths of a microsecond.
    pub jitter: u128,
    /// Its deadline, if it has one.
    pub deadline: Option<u128>,
    /// Whether it meets that.
    pub met: Met,
    /// Its bound and the parts, if it has one.
    pub parts: Option<Parts>,
}

/// Returns a time in thousandths of a microsecond, rounded down, for ticks of that many picoseconds.
fn nanoseconds_within(tick: u64, time: u128) -> u128
    requires { tick < 2 ^ 36 }
    ensures { result ≡ nanoseconds_within tick time }
{
    time.min(WAIT_LIMIT) * tick as u128 / 1_000_000_000
}

/// Returns a time in thousandths of a microsecond, rounded up.
fn nanoseconds_around(tick: u64, time: u128) -> u128
    requires { tick < 2 ^ 36 }
    ensures { result ≡ nanoseconds_around tick time }
{
    (time.min(WAIT_LIMIT) * tick as u128).div_ceil(1_000_000_000)
}

/// Returns how long frames of message `e` take in a window of `m`, up to this instance of `m`.
fn share_before(common: Common, m: &Row, it: Instance, e: &Row) -> u128
    ensures { (rows : List MessageTerms) (k : ℕ) → e.now ≡ row_at rows k
        → result ≡ min (share_before common.lead common.wake rows m.now it.j it.window k) (2 ^ 128 - 1) }
{
    if e.node() == m.node() && e.field() == m.field() {
        it.j.saturating_mul(m.cost())
    } else {
        window_share(common, it.window, m, e)
    }
}

/// Returns how long the frames of the node of `m`, or of all others, take in its window up to this instance of `m`.
fn shares_of_node(common: Common, rows: &[Row], own: bool, m: &Row, it: Instance) -> u128
    ensures { result ≡ shares_of_node common.lead common.wake rows.now own m.now it.j it.window }
{
    let mut shares: u128 = 0;
    for e in 0..rows.len() {
        let is_own = rows[e].node() == m.node();
        if is_own == own {
            shares = shares.saturating_add(share_before(common, m, it, &rows[e]));
        }
    }
    shares
}

/// True if a frame of message `e` may block `m` as long as any does.
fn is_blocker(common: Common, rows: &[Row], m: &Row, e: usize) -> bool
    requires { e < length rows.now }
    ensures { result ≡ is_blocker common.lead common.wake rows.now m.now e }
{
    let blocked = blocked_for(common, rows, m);
    !(rows[e].field() <= m.level()) && rows[e].cost() == blocked
}

/// Returns the first message that may block `m` so long.
fn blocker_of(common: Common, rows: &[Row], m: &Row) -> Option<usize>
    ensures { result ≡ blocker_of common.lead common.wake rows.now m.now }
{
    let mut first = None;
    for e in 0..rows.len() {
        if first.is_none() && is_blocker(common, rows, m, e) {
            first = Some(e);
        }
    }
    first
}

/// What is known of all messages.
#[derive(Clone, Copy)]
pub(crate) struct Case<'a> {
    /// How many picoseconds a tick takes.
    pub(crate) tick: u64,
    pub(crate) family: &'a Family,
    pub(crate) times: BusTimes,
    pub(crate) common: Common,
    /// The messages in numbers.
    pub(crate) rows: &'a [Row],
    /// The windows of the instances of all messages.
    pub(crate) windows: &'a [u128],
    /// Whether they have bounds.
    pub(crate) shown: bool,
}

/// True if instance `j` of `m` waits as long as its bound says.
fn reaches(case: &Case, m: &Row, j: usize) -> bool
    ensures { result ≡ reaches case.now.common.lead case.now.common.wake case.now.rows.now case.now.windows.now
        m.now j }
{
    let it = instance_at(case.windows, m, j);
    let late = (j as u128).saturating_mul(m.period());
    m.wait().saturating_add(late) <= head_start(case.common, m, m) + it.window + m.tail()
}

/// Returns the instance of `m` that waits longest: the first whose wait is that of the bound.
fn worst_of(case: &Case, m: &Row) -> usize
    ensures { result ≡ worst_of case.now.common.lead case.now.common.wake case.now.rows.now case.now.windows.now m.now }
{
    let mut first = None;
    let count = instances(case.common, m).min(case.windows.len() as u128);
    for j in 0..count as usize {
        if first.is_none() && reaches(case, m, j) {
            first = Some(j);
        }
    }
    first.unwrap_or(0)
}

/// For how long a frame waits for others.
#[derive(Clone, Copy)]
struct Shares {
    /// By how much it is ready later than the first instance of its window.
    late: u128,
    /// How long a frame of a lesser priority, or a gap, blocks.
    blocked: u128,
    /// How long frames of its own node take, and those of other nodes.
    own: u128,
    others: u128,
}

/// Returns for how long an instance of `m` waits for others.
fn shares_at(case: &Case, m: &Row, it: Instance) -> Shares
    ensures { result ≡ record {
      late = counted_time (it.j * m.now.period);
      blocked = blocked_for case.now.common.lead case.now.common.wake case.now.rows.now m.now;
      own = shares_of_node case.now.common.lead case.now.common.wake case.now.rows.now true m.now it.j it.window;
      others = shares_of_node case.now.common.lead case.now.common.wake case.now.rows.now false m.now it.j it.window;
    } }
{
    Shares {
        late: it.j.saturating_mul(m.period()),
        blocked: blocked_for(case.common, case.rows, m),
        own: shares_of_node(case.common, case.rows, true, m, it),
        others: shares_of_node(case.common, case.rows, false, m, it),
    }
}

/// Returns the parts of the bound of `m`, whose node has this shortest quantum, by what its instance waits for.
fn parts_late(case: &Case, shortest: u128, m: &Row, by: Shares) -> Parts
    requires { case.now.tick < 2 ^ 36 }
    ensures { result ≡ parts_late case.now.common.lead case.now.common.wake case.now.rows.now case.now.tick shortest
        m.now by.late by.blocked by.own by.others }
{
    let tick = case.tick;
    let bound = nanoseconds_around(tick, m.wait());
    let over = by.late.saturating_sub(by.blocked);
    let blocked = nanoseconds_within(tick, by.blocked.saturating_sub(by.late));
    let queued = nanoseconds_within(tick, by.own.saturating_sub(over));
    let others = nanoseconds_within(tick, by.others.saturating_sub(over.saturating_sub(by.own)));
    let frame = nanoseconds_within(tick, m.tail());
    Parts {
        bound,
        quanta: m.wait() / shortest.max(1),
        start: bound.saturating_sub(blocked + queued + others + frame),
        blocked,
        queued,
        others,
        frame,
        by: blocker_of(case.common, case.rows, m),
    }
}

/// Returns for how long the last instance of `m` waits for others in a window that has all its frames, if it is ready as early as the first.
fn shares_whole(case: &Case, m: &Row) -> Shares
    ensures { result ≡ record {
      late = 0;
      blocked = blocked_for case.now.common.lead case.now.common.wake case.now.rows.now m.now;
      own = shares_of_node case.now.common.lead case.now.common.wake case.now.rows.now true m.now
          (instances case.now.common.lead m.now - 1) m.now.window;
      others = shares_of_node case.now.common.lead case.now.common.wake case.now.rows.now false m.now
          (instances case.now.common.lead m.now - 1) m.now.window;
    } }
{
    let it = Instance {
        j: instances(case.common, m).saturating_sub(1),
        window: m.window(),
    };
    Shares {
        late: 0,
        ..shares_at(case, m, it)
    }
}

/// Returns the parts of the bound of `m`, whose node has this shortest quantum: by the window that has all its frames, or of the instance that
/// waits longest.
fn parts_of(case: &Case, shortest: u128, m: &Row) -> Parts
    requires { case.now.tick < 2 ^ 36 }
    ensures { result ≡ parts_of case.now.common.lead case.now.common.wake case.now.rows.now case.now.windows.now
        case.now.tick shortest m.now }
{
    if is_whole_enough(case.common, m) {
        return parts_late(case, shortest, m, shares_whole(case, m));
    }
    let it = instance_at(case.windows, m, worst_of(case, m));
    parts_late(case, shortest, m, shares_at(case, m, it))
}

/// Returns within which time a frame of a message has to be sent, in millionths of a tick.
fn deadline_of(family: &Family, asked: &Asked) -> Option<u128>
    ensures { result ≡ deadline_of (plain_bus family.now) asked.now }
{
    match asked.deadline {
        Some(ticks) => Some(ticks as u128 * 1_000_000),
        None => {
            if asked.every == ONCE {
                None
            } else {
                Some(asked.every as u128 * shortest_at(family, asked.message.node))
            }
        }
    }
}

/// Returns whether a wait and a jitter in ticks are within a deadline.
fn met_by(wait: u128, jitter: u64, deadline: Option<u128>) -> Met
    requires { wait < 2 ^ 90 }
    ensures { result ≡ met_by wait jitter deadline }
{
    match deadline {
        None => Met::Open,
        Some(deadline) => {
            if wait + jitter as u128 * 1_000_000 <= deadline {
                Met::InTime
            } else {
                Met::Late
            }
        }
    }
}

/// Returns what is said of a message with a bound.
fn bounded_line(case: &Case, asked: &Asked) -> (Met, Parts)
    requires tick { case.now.tick < 2 ^ 36 }
    requires bit { case.now.times.bit < drift_limit }
    requires sample { case.now.times.sample < drift_limit }
    requires shift { case.now.times.shift < drift_limit }
    ensures met { result.0 ≡ met_by (row_for (plain_bus case.now.family.now) case.now.times asked.now.message).wait
        asked.now.jitter (deadline_of (plain_bus case.now.family.now) asked.now) }
    ensures parts { result.1 ≡ parts_of case.now.common.lead case.now.common.wake case.now.rows.now
        case.now.windows.now case.now.tick (shortest_at (plain_bus case.now.family.now) asked.now.message.node)
        (row_for (plain_bus case.now.family.now) case.now.times asked.now.message) }
{
    let family = case.family;
    let m = row(family, case.times, &asked.message);
    let met = met_by(m.wait(), asked.jitter, deadline_of(family, asked));
    let shortest = shortest_at(family, asked.message.node);
    let parts = parts_of(case, shortest, &m);
    (met, parts)
}

/// Returns a deadline in thousandths of a microsecond, rounded down.
fn within_of(tick: u64, time: Option<u128>) -> Option<u128>
    requires { tick < 2 ^ 36 }
    ensures { result ≡ within_of tick time }
{
    match time {
        Some(time) => Some(nanoseconds_within(tick, time)),
        None => None,
    }
}

/// Returns what is said of a message.
fn told_line(case: &Case, asked: &Asked) -> Line
    requires tick { case.now.tick < 2 ^ 36 }
    requires bit { case.now.times.bit < drift_limit }
    requires sample { case.now.times.sample < drift_limit }
    requires shift { case.now.times.shift < drift_limit }
    requires lead { case.now.common.lead ≡ case.now.times.lead }
    requires wake { case.now.common.wake ≡ case.now.times.wake }
    ensures { result ≡ told_line case.now.tick (plain_bus case.now.family.now) case.now.times case.now.rows.now
        case.now.windows.now case.now.shown asked.now }
{
    let jitter = nanoseconds_around(case.tick, asked.jitter as u128 * 1_000_000);
    let deadline = within_of(case.tick, deadline_of(case.family, asked));
    if !case.shown {
        return Line {
            jitter,
            deadline,
            met: Met::Open,
            parts: None,
        };
    }
    let (met, parts) = bounded_line(case, asked);
    Line {
        jitter,
        deadline,
        met,
        parts: Some(parts),
    }
}

/// Returns what is said of each message. Refused only when out of memory.
pub(crate) fn lines_of(
    alloc: Global,
    case: &Case,
    asked: &[Asked],
) -> Result<Listed<Line>, AllocError>
    requires tick { case.now.tick < 2 ^ 36 }
    requires bit { case.now.times.bit < drift_limit }
    requires sample { case.now.times.sample < drift_limit }
    requires shift { case.now.times.shift < drift_limit }
    requires lead { case.now.common.lead ≡ case.now.times.lead }
    requires wake { case.now.common.wake ≡ case.now.times.wake }
    ensures { IfOk result (λ lines. lines ≡ map (told_line case.now.tick (plain_bus case.now.family.now) case.now.times
        case.now.rows.now case.now.windows.now case.now.shown) asked.now) }
{
    let mut lines = Listed::new(alloc);
    for one in asked {
        lines.push(told_line(case, one))?;
    }
    Ok(lines)
}

/// Returns the share of the time that frames of a message take, in hundred-millionths.
fn load_of(family: &Family, times: BusTimes, message: &MessageWait) -> u128
    requires { times.bit < drift_limit }
    ensures { result ≡ load_of (plain_bus family.now) times message.now }
{
    let frame = (message.bits as u128 + 13) * times.bit;
    let period = message.every as u128 * shortest_at(family, message.node);
    (frame.min(WAIT_LIMIT) * 100_000_000).div_ceil(period.max(1))
}

/// Returns the share of the time that all frames take, in hundred-millionths.
fn total_load(family: &Family, times: BusTimes, messages: &[MessageWait]) -> u128
    requires { times.bit < drift_limit }
    ensures { result ≡ total_load (plain_bus family.now) times messages.now }
{
    match messages {
        [] => 0,
        [first, later @ ..] => {
            let load = load_of(family, times, first);
            load.saturating_add(total_load(family, times, later))
        }
    }
}

/// Returns the share of the time that all frames take in the long run, at most, in hundredths of a per cent.
pub(crate) fn load_at_most(family: &Family, messages: &[MessageWait]) -> u128
    ensures { result ≡ load_at_most (plain_bus family.now) messages.now }
{
    total_load(family, family.times(), messages).div_ceil(10_000)
}
