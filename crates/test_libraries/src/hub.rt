// The row of one node with two edge words and three silence words, by one thread and by two; a hub of no node; words at
// their largest values; a clash that is given, and steps after a pass was spent; passes that were split and taken in.
ghost use Rattle.std.specs.Prelude.{◌≡◌, List};
ghost use Rattle.wl_hub.specs.Passes.{IsPassOf, shape_of};
ghost use Rattle.wl_hub.specs.Words.{IsInShape};

use std::test::Fail;
use std::thread::{Threads, join};
use wl_hub::{Hub, Pass, Truth};
use wl_lattice::CLASH;
use wl_record_core::{Record, Slot};

/// A name whose records are all true.
struct Anything;

impl Truth for Anything {
    ghost is_true = { λ _ _. Unit {0} };
}

const FIRST: Slot = Slot::EdgeAt { node: 0, seq: 0 };

const SILENT: Slot = Slot::SilenceAt { node: 0, count: 1 };

fn edge(seq: u32, tick: u64) -> Record {
    Record::Edge { node: 0, seq, tick }
}

fn silence(count: u32, until: u64) -> Record {
    Record::Silence {
        node: 0,
        count,
        until,
    }
}

fn give(hub: &Hub<Anything>, pass: &mut Pass<Anything>, told: Record) -> bool
    requires { IsPassOf hub.now pass.old }
    ensures { IsPassOf hub.now pass.new }
{
    if !hub.in_shape(told) {
        return false;
    }
    hub.take(pass, told);
    true
}

fn read(hub: &Hub<Anything>, pass: &mut Pass<Anything>, slot: Slot) -> Option<u64>
    requires { IsPassOf hub.now pass.old }
    ensures { IsPassOf hub.now pass.new }
{
    if !hub.has_word(slot) {
        return None;
    }
    Some(hub.look(pass, slot))
}

#[test]
fn two_ticks_clash_and_the_longer_silence_stays(rt: HostRuntime) -> Result<(), Fail> {
    let (hub, mut a) = Hub::start(rt.alloc(), &[(2, 3)], &Anything)?;
    let mut b = hub.split(&mut a);
    assert!(rt; read(&hub, &mut a, FIRST) == Some(0));
    assert!(rt; give(&hub, &mut a, edge(0, 100)));
    assert!(rt; read(&hub, &mut a, FIRST) == Some(101));
    assert!(rt; give(&hub, &mut b, edge(0, 101)));
    assert!(rt; read(&hub, &mut a, FIRST) == Some(CLASH));
    assert!(rt; read(&hub, &mut b, FIRST) == Some(CLASH));
    assert!(rt; give(&hub, &mut a, silence(1, 150)) && give(&hub, &mut b, silence(1, 120)));
    assert!(rt; read(&hub, &mut b, SILENT) == Some(150));
    let words = hub.close(rt.alloc(), a)?;
    assert!(rt; words.as_slice() == [CLASH, 0, 0, 150, 0].as_slice());
    Ok(())
}

#[test]
fn a_hub_of_no_node_starts_and_has_no_word(rt: HostRuntime) -> Result<(), Fail> {
    let (hub, mut a) = Hub::start(rt.alloc(), &[], &Anything)?;
    assert!(rt; read(&hub, &mut a, FIRST) == None && read(&hub, &mut a, SILENT) == None);
    assert!(rt; !give(&hub, &mut a, edge(0, 100)) && !give(&hub, &mut a, silence(1, 150)));
    let words = hub.close(rt.alloc(), a)?;
    assert!(rt; words.len() == 0);
    Ok(())
}

#[test]
fn takes_on_two_threads_meet_in_one_word(rt: HostRuntime) -> Result<(), Fail> {
    let (hub, mut a) = Hub::start(rt.alloc(), &[(2, 3)], &Anything)?;
    let b = hub.split(&mut a);
    let (mut a, b) = both_give(&rt, &hub, a, b);
    hub.rejoin(&mut a, b);
    assert!(rt; read(&hub, &mut a, FIRST) == Some(CLASH));
    let words = hub.close(rt.alloc(), a)?;
    assert!(rt; words.as_slice() == [CLASH, 0, 0, 150, 0].as_slice());
    Ok(())
}

fn give_two(hub: &Hub<Anything>, mut pass: Pass<Anything>, tick: u64, until: u64) -> Pass<Anything>
    requires { IsPassOf hub.now pass }
    ensures { IsPassOf hub.now result }
{
    give(hub, &mut pass, edge(0, tick));
    give(hub, &mut pass, silence(1, until));
    pass
}

fn both_give<R: Threads>(
    rt: &R,
    hub: &Hub<Anything>,
    first: Pass<Anything>,
    second: Pass<Anything>,
) -> (Pass<Anything>, Pass<Anything>)
    requires { IsPassOf hub.now first × IsPassOf hub.now second }
    ensures { IsPassOf hub.now result.0 × IsPassOf hub.now result.1 }
{
    join(
        rt,
        || give_two(hub, first, 100, 150),
        || give_two(hub, second, 101, 120),
    )
}

#[test]
fn words_reach_their_largest_values(rt: HostRuntime) -> Result<(), Fail> {
    let last = (1u64 << 48) - 1;
    let (hub, mut a) = Hub::start(rt.alloc(), &[(0, 0), (1, 1)], &Anything)?;
    let late = Record::Edge {
        node: 1,
        seq: 0,
        tick: last,
    };
    let long = Record::Silence {
        node: 1,
        count: 0,
        until: last,
    };
    assert!(rt; give(&hub, &mut a, late) && give(&hub, &mut a, late) && give(&hub, &mut a, long));
    assert!(rt; !give(&hub, &mut a, edge(0, 0)) && !give(&hub, &mut a, silence(0, 0)));
    let words = hub.close(rt.alloc(), a)?;
    assert!(rt; words.as_slice() == [last + 1, last].as_slice());
    Ok(())
}

#[test]
fn a_clash_stays_after_a_pass_is_spent(rt: HostRuntime) -> Result<(), Fail> {
    let (hub, mut a) = Hub::start(rt.alloc(), &[(1, 0)], &Anything)?;
    let mut b = hub.split(&mut a);
    assert!(rt; give(&hub, &mut b, edge(0, 7)));
    hub.rejoin(&mut a, b);
    assert!(rt; give(&hub, &mut a, Record::Clash { node: 0, seq: 0 }));
    assert!(rt; read(&hub, &mut a, FIRST) == Some(CLASH));
    assert!(rt; give(&hub, &mut a, edge(0, 7)));
    let words = hub.close(rt.alloc(), a)?;
    assert!(rt; words.as_slice() == [CLASH].as_slice());
    Ok(())
}

#[test]
fn a_hub_without_words_closes_with_none(rt: HostRuntime) -> Result<(), Fail> {
    let (hub, mut a) = Hub::start(rt.alloc(), &[], &Anything)?;
    let b = hub.split(&mut a);
    hub.rejoin(&mut a, b);
    assert!(rt; !hub.in_shape(edge(0, 0)) && !hub.has_word(SILENT));
    let words = hub.close(rt.alloc(), a)?;
    assert!(rt; words.is_empty());
    Ok(())
}
