//! What a place finds: whether the line is dominant there, and for how long it stays so, as far as that is known.

ghost use Rattle.std.specs.Prelude.{◌≡◌, ◌+◌, ◌-◌, ◌<◌, ◌≤◌, ◌^◌, ℕ, IfOk, length};
ghost use Rattle.wl_record_core.specs.Limits.{tick_end};
ghost use Rattle.wl_record_core.specs.Truth.{odd};
ghost use Rattle.wl_replica.specs.State.{slots_of};
ghost use Rattle.wl_topology.specs.Limits.{most_places, never};
ghost use Rattle.wl_replica.specs.Known.{tick_in, horizon, place_horizon};
ghost use Rattle.wl_replica.specs.Slots.{HoldsTrue};
ghost use Rattle.wl_plan.specs.Line.{Line};
ghost use Rattle.wl_plan.specs.PlanLine.{line_of, table_of};
ghost use Rattle.wl_plan.specs.declared.plan.Plan.{Plan as GivenPlan};
ghost use Rattle.wl_group.specs.Heard.{AreNotAfter, edge_tick, AreStretches, AreDisturbed, HasComeBy, IsDrive, IsHeardOf, AreHeardOf, ArePlaceSources, IsDriven, IsDisturbed, IsStretch};
ghost use Rattle.wl_group.specs.Ways.{AreWays, way_in};

use crate::cell::Ways;
use crate::laws::true_replicas_agree;
use std::alloc::{AllocError, Global};
use wl_lattice::FlatWord;
use wl_plan::CheckedPlan;
use wl_pulse::{Pulse, SILENCE, disturbed_at};
use wl_record_core::Slot;
use wl_replica::{Replica, Word};
use wl_topology::MOST_NODES;

/// What a place keeps of a node: what it found of it last while a known change was under way, and a guess how many of its changes will have
/// come when it asks next. The guess decides nothing but speed.
#[derive(Clone, Copy)]
pub(crate) struct Source {
    pub(crate) heard: Pulse,
    pub(crate) come: u32,
}

/// What a place keeps of a node that it hasn't asked yet.
const NO_SOURCE: Source = Source {
    heard: SILENCE,
    come: 0,
};

/// For each node what a place keeps of it.
pub(crate) type Sources = [Source; MOST_NODES];

/// For each node a pulse: of the line where it read it last, or of the disturbances there.
pub(crate) type Heard = [Pulse; MOST_NODES];

/// Returns the state in which no place has heard anything.
pub(crate) fn nothing_heard() -> Heard
    ensures heard { (l : Line) → AreStretches l result }
    ensures disturbances { (plan : GivenPlan) → AreDisturbed plan result }
{
    [SILENCE; MOST_NODES]
}

/// Returns for each place the state in which it has asked no node. Refused only when out of memory.
pub(crate) fn nothing_asked(alloc: Global) -> Result<Vec<Sources>, AllocError>
    ensures { IfOk result (λ places. (l : Line) → ArePlaceSources l places.items) }
{
    let mut places = Vec::with_capacity(alloc, MOST_NODES)?;
    for _made in 0..MOST_NODES {
        places.push([NO_SOURCE; MOST_NODES])?;
    }
    Ok(places)
}

/// Returns the tick of a node's change; 0 if it isn't known.
fn change_at(replica: &Replica, node: u8, seq: u32) -> u64
    ensures { result ≡ tick_in ((slots_of replica.now).edge node seq) }
{
    match replica.slot(Slot::EdgeAt { node, seq }) {
        Word::Edge(FlatWord::Value(tick)) => tick,
        _ => 0,
    }
}

/// Returns the greatest number of a node's first changes, up to a guess, whose last one is not after a tick.
fn sure(replica: &Replica, node: u8, tick: u64, guess: u32) -> u32
    ensures few { result ≤ guess }
    ensures come { 0 < result → tick_in ((slots_of replica.now).edge node (result - 1)) ≤ tick }
{
    let mut count = guess;
    while count > 0 {
        if change_at(replica, node, count - 1) <= tick {
            return count;
        }
        count -= 1;
    }
    count
}

/// Returns a guess how many of a node's first `run` changes are not after a tick: all but two, if these have come, or else another one.
fn near(replica: &Replica, node: u8, run: u32, tick: u64, guess: u32) -> u32
    ensures { result ≤ run }
{
    let most = run.saturating_sub(2);
    if guess < most && change_at(replica, node, most - 1) <= tick {
        return most;
    }
    guess.min(run)
}

/// Returns how many of a node's first `run` changes are not after a tick, and the tick below which it has no more, as far as that is known. A
/// guess says how many it may be.
fn changes_until(
    replica: &Replica,
    node: u8,
    run: u32,
    tick: u64,
    known: u64,
    guess: u32,
) -> (u32, u64)
    ensures count { AreNotAfter (slots_of replica.now) node run tick result.0 }
    ensures few { result.1 ≤ known }
    ensures change { result.0 < run → result.1 ≤ edge_tick replica.now node result.0 }
    ensures later { tick < known → tick < result.1 }
{
    let mut count = sure(replica, node, tick, near(replica, node, run, tick, guess));
    while count < run {
        let next = change_at(replica, node, count);
        if tick < next {
            return (count, known.min(next));
        }
        count += 1;
    }
    (count, known)
}

/// Returns what node `i` drives from tick `t` on, at which that is known: up to its next change, or as far as it is known. The guess for the
/// next time is that one change more has come.
fn drive_at(plan: &CheckedPlan, replica: &Replica, i: u8, t: u64, guess: &mut u32) -> Pulse
    requires nodes { replica.now.nodes ≡ length plan.now.nodes }
    requires truth { HoldsTrue (length plan.now.nodes) (table_of plan.now) (slots_of replica.now) }
    requires from { i < length plan.now.nodes }
    requires early { t < horizon (slots_of replica.now) i }
    ensures from { result.from ≡ t }
    ensures until { t < result.until }
    ensures drive { IsDrive (line_of plan.now) i result }
{
    plan.laws();
    wl_plan::simulation_laws();
    wl_record_core::table_laws();
    wl_replica::known_laws();
    true_replicas_agree();
    let run = replica.run_length(i);
    let (count, until) = changes_until(replica, i, run, t, replica.horizon(i), *guess);
    *guess = count + 1;
    Pulse {
        from: t,
        until,
        dominant: count % 2 == 1,
    }
}

/// Returns what node `j` finds of node `i` alone from tick `t` on, at which that is known: `delay` ticks later what it drives.
#[cold]
#[inline(never)]
fn heard_at(
    plan: &CheckedPlan,
    replica: &Replica,
    i: u8,
    j: u8,
    t: u64,
    delay: u64,
    guess: &mut u32,
) -> Pulse
    requires nodes { replica.now.nodes ≡ length plan.now.nodes }
    requires truth { HoldsTrue (length plan.now.nodes) (table_of plan.now) (slots_of replica.now) }
    requires from { i < length plan.now.nodes }
    requires way { delay ≡ (line_of plan.now).delay i j }
    requires early { t < horizon (slots_of replica.now) i + (line_of plan.now).delay i j }
    requires short { t < 2 ^ 64 - 1 }
    ensures from { result.from ≡ t }
    ensures until { t < result.until }
    ensures heard { IsHeardOf (line_of plan.now) i j result }
{
    if t < delay {
        return Pulse {
            from: t,
            until: delay,
            dominant: false,
        };
    }
    let own = drive_at(plan, replica, i, t - delay, guess);
    Pulse {
        from: t,
        until: own.until.saturating_add(delay),
        dominant: own.dominant,
    }
}

/// Returns what node `j` finds of node `i` alone from tick `t` on, if the last of that node's changes that are known has come there by
/// then: its level stays as far as it is known.
fn heard_last(plan: &CheckedPlan, replica: &Replica, ways: &Ways, i: u8, j: u8, t: u64) -> Pulse
    requires nodes { replica.now.nodes ≡ length plan.now.nodes }
    requires truth { HoldsTrue (length plan.now.nodes) (table_of plan.now) (slots_of replica.now) }
    requires from { i < length plan.now.nodes }
    requires early { t < horizon (slots_of replica.now) i + (line_of plan.now).delay i j }
    requires last { HasComeBy (line_of plan.now) (slots_of replica.now) i j t }
    requires ways { AreWays plan.now j ways.now }
    ensures from { result.from ≡ t }
    ensures until { t < result.until }
    ensures heard { IsHeardOf (line_of plan.now) i j result }
{
    plan.laws();
    wl_plan::simulation_laws();
    wl_record_core::table_laws();
    wl_replica::known_laws();
    true_replicas_agree();
    Pulse {
        from: t,
        until: known_of(replica, ways, i),
        dominant: replica.run_length(i) % 2 == 1,
    }
}

/// Returns what node `j` finds of node `i` alone from tick `t` on, at which that is known, by what is kept of it. If that doesn't say it for
/// the tick, slots are looked up, and what they say is kept.
fn heard_again(
    plan: &CheckedPlan,
    replica: &Replica,
    i: u8,
    j: u8,
    t: u64,
    delay: u64,
    source: &mut Source,
) -> Pulse
    requires nodes { replica.now.nodes ≡ length plan.now.nodes }
    requires truth { HoldsTrue (length plan.now.nodes) (table_of plan.now) (slots_of replica.now) }
    requires from { i < length plan.now.nodes }
    requires way { delay ≡ (line_of plan.now).delay i j }
    requires early { t < horizon (slots_of replica.now) i + (line_of plan.now).delay i j }
    requires short { t < 2 ^ 64 - 1 }
    requires source { IsHeardOf (line_of plan.now) i j source.old.heard }
    ensures from { result.from ≡ t }
    ensures until { t < result.until }
    ensures heard { IsHeardOf (line_of plan.now) i j result }
    ensures source { IsHeardOf (line_of plan.now) i j source.new.heard }
{
    if source.heard.from <= t && t < source.heard.until {
        return Pulse {
            from: t,
            until: source.heard.until,
            dominant: source.heard.dominant,
        };
    }
    let heard = heard_at(plan, replica, i, j, t, delay, &mut source.come);
    source.heard = heard;
    heard
}

/// Returns what node `j` finds of node `i` alone from tick `t` on, at which that is known.
#[inline(always)]
fn heard_of(
    plan: &CheckedPlan,
    replica: &Replica,
    sources: &mut Sources,
    ways: &Ways,
    i: u8,
    j: u8,
    t: u64,
) -> Pulse
    requires nodes { replica.now.nodes ≡ length plan.now.nodes }
    requires truth { HoldsTrue (length plan.now.nodes) (table_of plan.now) (slots_of replica.now) }
    requires from { i < length plan.now.nodes }
    requires early { t < horizon (slots_of replica.now) i + (line_of plan.now).delay i j }
    requires short { t < 2 ^ 64 - 1 }
    requires ways { AreWays plan.now j ways.now }
    requires sources { AreHeardOf (line_of plan.now) j sources.old }
    ensures from { result.from ≡ t }
    ensures until { t < result.until }
    ensures heard { IsHeardOf (line_of plan.now) i j result }
    ensures sources { AreHeardOf (line_of plan.now) j sources.new }
{
    plan.laws();
    let delay = ways[i as usize];
    if replica.run_end(i) + delay <= t + 1 {
        return heard_last(plan, replica, ways, i, j, t);
    }
    heard_again(plan, replica, i, j, t, delay, &mut sources[i as usize])
}

/// Returns the node after another one, round and round.
fn node_after(i: u8, nodes: u8) -> u8
    requires { i < nodes }
    ensures next { i + 1 < nodes → result ≡ i + 1 }
    ensures round { nodes ≤ i + 1 → result ≡ 0 }
{
    if i + 1 < nodes {
        return i + 1;
    }
    0
}

/// Returns what node `j` finds of all nodes from tick `t` on, at which that is known. It asks them round and round up to one that is
/// dominant, first the one that was found to drive dominant last.
fn driven_from(
    plan: &CheckedPlan,
    replica: &Replica,
    sources: &mut Sources,
    ways: &Ways,
    lead: &mut u8,
    j: u8,
    t: u64,
) -> Pulse
    requires nodes { replica.now.nodes ≡ length plan.now.nodes }
    requires truth { HoldsTrue (length plan.now.nodes) (table_of plan.now) (slots_of replica.now) }
    requires place { j < length plan.now.nodes }
    requires known { let l = line_of plan.now in t < place_horizon l.nodes l.delay (slots_of replica.now) j }
    requires early { t < 2 ^ 64 - 1 }
    requires ways { AreWays plan.now j ways.now }
    requires sources { AreHeardOf (line_of plan.now) j sources.old }
    ensures from { result.from ≡ t }
    ensures until { t < result.until }
    ensures driven { IsDriven (line_of plan.now) j result }
    ensures sources { AreHeardOf (line_of plan.now) j sources.new }
{
    wl_replica::known_laws();
    wl_topology::driven_laws();
    plan.laws();
    let nodes = plan.nodes();
    let first = if *lead < nodes { *lead } else { 0 };
    let mut i = first;
    let mut until = u64::MAX;
    for _asked in 0..nodes {
        let one = heard_of(plan, replica, sources, ways, i, j, t);
        if one.dominant {
            *lead = i;
            return one;
        }
        until = until.min(one.until);
        i = node_after(i, nodes);
    }
    Pulse {
        from: t,
        until,
        dominant: false,
    }
}

/// Returns the tick below which what node `i` drives is known at the place to which these are the ways.
pub(crate) fn known_of(replica: &Replica, ways: &Ways, i: u8) -> u64
    requires node { i < replica.now.nodes }
    requires few { replica.now.nodes ≤ most_places }
    requires short { (k : ℕ) → way_in ways.now k ≤ never }
    ensures { result ≡ horizon (slots_of replica.now) i + way_in ways.now i }
{
    replica.horizon(i) + ways[i as usize]
}

/// Returns the tick below which the line is known at the place to which these are the ways.
pub(crate) fn known_by(replica: &Replica, ways: &Ways) -> u64
    requires some { 0 < replica.now.nodes }
    requires few { replica.now.nodes ≤ most_places }
    requires short { (k : ℕ) → way_in ways.now k ≤ never }
    ensures { result ≡ place_horizon replica.now.nodes (λ i j. way_in ways.now i) (slots_of replica.now) 0 }
{
    let mut least = known_of(replica, ways, 0);
    for i in 1..replica.nodes() {
        least = least.min(known_of(replica, ways, i));
    }
    least
}

/// Returns the stretch of the disturbances at node `j` that has tick `t`: this one, or one that is found again.
pub(crate) fn disturbance_around(plan: &CheckedPlan, disturbance: Pulse, j: u8, t: u64) -> Pulse
    requires node { j < length plan.now.nodes }
    requires early { t < 2 ^ 64 - 1 }
    requires disturbance { IsDisturbed plan.now j disturbance }
    ensures from { result.from ≤ t }
    ensures until { t < result.until }
    ensures disturbance { IsDisturbed plan.now j result }
{
    if disturbance.from <= t && t < disturbance.until {
        return disturbance;
    }
    disturbed_at(plan, j as usize, t)
}

/// Returns the level of the line at node `j` from tick `t` on, at which it is known there, while the disturbances stay as they are.
fn found_from(
    plan: &CheckedPlan,
    replica: &Replica,
    sources: &mut Sources,
    ways: &Ways,
    lead: &mut u8,
    disturbance: Pulse,
    j: u8,
    t: u64,
) -> Pulse
    requires nodes { replica.now.nodes ≡ length plan.now.nodes }
    requires truth { HoldsTrue (length plan.now.nodes) (table_of plan.now) (slots_of replica.now) }
    requires place { j < length plan.now.nodes }
    requires known { let l = line_of plan.now in t < place_horizon l.nodes l.delay (slots_of replica.now) j }
    requires early { t < 2 ^ 64 - 1 }
    requires disturbance { IsDisturbed plan.now j disturbance }
    requires disturbance_from { disturbance.from ≤ t }
    requires disturbance_until { t < disturbance.until }
    requires ways { AreWays plan.now j ways.now }
    requires sources { AreHeardOf (line_of plan.now) j sources.old }
    ensures from { result.from ≡ t }
    ensures until { t < result.until }
    ensures found { IsStretch (line_of plan.now) j result }
    ensures sources { AreHeardOf (line_of plan.now) j sources.new }
{
    if disturbance.dominant {
        return Pulse {
            from: t,
            until: disturbance.until,
            dominant: true,
        };
    }
    let driven = driven_from(plan, replica, sources, ways, lead, j, t);
    Pulse {
        from: t,
        until: driven.until.min(disturbance.until),
        dominant: driven.dominant,
    }
}

/// Returns the stretch in which node `j` finds the line at tick `t`: this one, or one that is found again, while the disturbances stay as
/// they are.
pub(crate) fn stretch_around(
    plan: &CheckedPlan,
    replica: &Replica,
    sources: &mut Sources,
    ways: &Ways,
    lead: &mut u8,
    heard: Pulse,
    disturbance: Pulse,
    j: u8,
    t: u64,
) -> Pulse
    requires nodes { replica.now.nodes ≡ length plan.now.nodes }
    requires truth { HoldsTrue (length plan.now.nodes) (table_of plan.now) (slots_of replica.now) }
    requires place { j < length plan.now.nodes }
    requires known { let l = line_of plan.now in t < place_horizon l.nodes l.delay (slots_of replica.now) j }
    requires early { t < 2 ^ 64 - 1 }
    requires heard { IsStretch (line_of plan.now) j heard }
    requires disturbance { IsDisturbed plan.now j disturbance }
    requires disturbance_from { disturbance.from ≤ t }
    requires disturbance_until { t < disturbance.until }
    requires ways { AreWays plan.now j ways.now }
    requires sources { AreHeardOf (line_of plan.now) j sources.old }
    ensures from { result.from ≤ t }
    ensures until { t < result.until }
    ensures found { IsStretch (line_of plan.now) j result }
    ensures sources { AreHeardOf (line_of plan.now) j sources.new }
{
    if heard.from <= t && t < heard.until {
        return heard;
    }
    found_from(plan, replica, sources, ways, lead, disturbance, j, t)
}
