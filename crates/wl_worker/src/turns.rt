//! One worker: its turns, from the first silences of its members to their end.
ghost use Rattle.std.specs.Prelude.{◌≡◌, ◌≢◌, ◌++◌, ◌<◌, true, List, IsTrue, IfOk, IfErr, OnOk};
ghost use Rattle.wl_record_core.specs.declared.record.Record.{Record as Told};
ghost use Rattle.wl_plan.specs.declared.plan.Plan.{Plan as GivenPlan};
ghost use Rattle.wl_group.specs.GroupValue.{GroupValue, belongs, may_run, initial_group};
ghost use Rattle.wl_group.specs.Running.{quanta_left};
ghost use Rattle.wl_group.specs.Led.{LedTo};
ghost use Rattle.wl_worker.specs.Handed.{AreTrueOfPlan};
ghost use Rattle.wl_worker.specs.Finished.{MembersEnded, HasFinished};
ghost use Rattle.wl_worker.specs.Waiting.{IsBlocked};
ghost use Rattle.wl_worker.specs.Given.{first_silences_of, Gives, GaveFirst, GaveMore, GaveSince};

use crate::link::{Fault, Gate, Link, LinkFault};
use std::alloc::{AllocError, Global};
use std::sync::Wait;
use wl_group::{Group, first_silence};
use wl_record_core::Record;

/// A worker has no turn of this number: there it ends with its fault.
const MOST_TURNS: u64 = 1 << 63;

/// Runs a group to its end, with what comes by its link.
///
/// The worker gives its members' first silences. Then in each turn it asks the gate, fetches, runs its members until none may run, and
/// gives what they said, if anything. It waits if nothing was fetched or said. It ends when all its members are at the end. If it fails,
/// it lets the others know by `stop`.
///
/// If the gate asks a restart of a turn, the group begins again before it: fresh nodes that know nothing, to which the link hands again
/// what it handed, and which give their first silences again.
///
/// Whatever the threads do, the group is led to its end by events of the machine of groups alone: it takes records that are true, members
/// that may run their next quanta, and it begins again.
pub fn work<R: Wait, L: Link + Drop, G: Gate>(
    rt: &R,
    alloc: Global,
    group: Group,
    link: L,
    gate: &G,
) -> Result<Group, Fault>
    requires { L.is_of link group.plan }
    ensures finished { IfOk result (λ done. HasFinished group done) }
    ensures began { IfOk result (λ done. (next : L) × GaveFirst L.gave group link next) }
    ensures gave { IfOk result (GaveSince L.gave group) }
    ensures fault { IfErr result (λ fault. fault ≢ Fault.Workers) }
{
    let _ = rt;
    let mut group = group;
    let mut link = link;
    match run(alloc, &mut group, &mut link, gate) {
        Ok(()) => Ok(group),
        Err(fault) => {
            link.stop();
            Err(fault)
        }
    }
}

/// Runs all turns of a worker.
#[tactic(auto, using(crate::proofs::Emitted::gave_nothing, crate::proofs::Steps::led_nowhere, crate::proofs::Steps::led_on))]
fn run<L: Link, G: Gate>(
    alloc: Global,
    group: &mut Group,
    link: &mut L,
    gate: &G,
) -> Result<(), Fault>
    requires { L.is_of link.old group.old.plan }
    ensures same { (p : GivenPlan) → L.is_of link.old p → L.is_of link.new p }
    ensures finished { OnOk result (HasFinished group.old group.new) }
    ensures began { OnOk result ((next : L) × GaveFirst L.gave group.old link.old next) }
    ensures gave { OnOk result (GaveSince L.gave group.old group.new) }
    ensures fault { IfErr result (λ fault. fault ≢ Fault.Workers) }
{
    wl_group::led_laws();
    let worker = link.worker();
    begin(alloc, group, link)?;
    for turn in 0..MOST_TURNS {
        if have_turn(alloc, group, link, gate, turn)? {
            return Ok(());
        }
    }
    Err(Fault::Worker(worker))
}

/// Begins a worker: gives the first silences of its members.
fn begin<L: Link>(alloc: Global, group: &Group, link: &mut L) -> Result<(), Fault>
    requires { L.is_of link.old group.now.plan }
    ensures same { (p : GivenPlan) → L.is_of link.old p → L.is_of link.new p }
    ensures gave { OnOk result (GaveFirst L.gave group.now link.old link.new) }
    ensures fault { IfErr result (λ fault. fault ≢ Fault.Workers) }
{
    let worker = link.worker();
    give_first(alloc, group, link).map_err(|fault| fault_of(fault, worker))
}

/// Has one turn of a worker, of this number: asks the gate, begins again if that says so, fetches, runs members, and gives what they said.
/// If nothing was fetched or said, and not all members are at their ends, it waits. Returns whether they are.
#[tactic(auto, using(crate::proofs::Emitted::gave_more, crate::proofs::Steps::led_on))]
fn have_turn<L: Link, G: Gate>(
    alloc: Global,
    group: &mut Group,
    link: &mut L,
    gate: &G,
    turn: u64,
) -> Result<bool, Fault>
    requires { L.is_of link.old group.old.plan }
    ensures same { (p : GivenPlan) → L.is_of link.old p → L.is_of link.new p }
    ensures ended { IfOk result (λ ended. IsTrue ended → MembersEnded group.new) }
    ensures led { OnOk result (LedTo group.old group.new) }
    ensures gave { OnOk result ((first : GroupValue) → GaveSince L.gave first group.old
        → GaveSince L.gave first group.new) }
    ensures fault { IfErr result (λ fault. fault ≢ Fault.Workers) }
{
    wl_group::led_laws();
    let worker = link.worker();
    if !gate.turn(worker, turn) {
        return Err(Fault::Worker(worker));
    }
    restart_if_asked(alloc, group, link, gate, turn)?;
    let is_idle = step(alloc, group, link).map_err(|fault| fault_of(fault, worker))?;
    if have_ended(group) {
        return Ok(true);
    }
    if is_idle {
        wait(link)?;
    }
    Ok(false)
}

/// Waits as the link waits. It is a fault if some worker stopped.
fn wait<L: Link>(link: &mut L) -> Result<(), Fault>
    ensures same { (p : GivenPlan) → L.is_of link.old p → L.is_of link.new p }
    ensures fault { IfErr result (λ fault. fault ≢ Fault.Workers) }
{
    match link.wait() {
        Some(stopped) => Err(Fault::Worker(stopped)),
        None => Ok(()),
    }
}

/// Begins again before a turn, if the gate asks it.
#[tactic(auto, using(crate::proofs::Steps::led_nowhere))]
fn restart_if_asked<L: Link, G: Gate>(
    alloc: Global,
    group: &mut Group,
    link: &mut L,
    gate: &G,
    turn: u64,
) -> Result<(), Fault>
    requires { L.is_of link.old group.old.plan }
    ensures same { (p : GivenPlan) → L.is_of link.old p → L.is_of link.new p }
    ensures led { OnOk result (LedTo group.old group.new) }
    ensures gave { OnOk result ((first : GroupValue) → GaveSince L.gave first group.old
        → GaveSince L.gave first group.new) }
    ensures fault { IfErr result (λ fault. fault ≢ Fault.Workers) }
{
    wl_group::led_laws();
    let worker = link.worker();
    if !gate.restart(worker, turn) {
        return Ok(());
    }
    match begin_anew(alloc, group, link) {
        Ok(()) => Ok(()),
        Err(fault) => Err(fault_of(fault, worker)),
    }
}

/// Returns the worker's fault if its link has this one.
fn fault_of(fault: LinkFault, worker: u8) -> Fault
    ensures { result ≢ Fault.Workers }
{
    match fault {
        LinkFault::Foreign => Fault::Foreign,
        LinkFault::Gone => Fault::Worker(worker),
        LinkFault::Memory => Fault::Memory,
    }
}

/// Begins again: restarts the group, rewinds the link, and gives the members' first silences.
#[tactic(auto, using(crate::proofs::Steps::led_back))]
fn begin_anew<L: Link>(alloc: Global, group: &mut Group, link: &mut L) -> Result<(), LinkFault>
    requires { L.is_of link.old group.old.plan }
    ensures same { (p : GivenPlan) → L.is_of link.old p → L.is_of link.new p }
    ensures fresh { OnOk result (group.new ≡ initial_group group.old.lists group.old.plan (belongs group.old)) }
    ensures rewound { OnOk result (L.is_rewound link.new) }
    ensures began { OnOk result ((rewound : L) × L.is_rewound rewound × GaveFirst L.gave group.new rewound link.new) }
    ensures led { OnOk result (LedTo group.old group.new) }
{
    wl_group::led_laws();
    // (reading a part gives the proof what the type keeps)
    let _ = group.plan();
    group.restart()?;
    link.rewind();
    give_first(alloc, group, link)
}

/// Gives the first silences of the group's members.
fn give_first<L: Link>(alloc: Global, group: &Group, link: &mut L) -> Result<(), LinkFault>
    requires { L.is_of link.old group.now.plan }
    ensures same { (p : GivenPlan) → L.is_of link.old p → L.is_of link.new p }
    ensures rewound { L.is_rewound link.old → L.is_rewound link.new }
    ensures gave { OnOk result (GaveFirst L.gave group.now link.old link.new) }
{
    let first = first_silences(alloc, group)?;
    hand(alloc, group, link, first.as_slice())
}

/// Returns what the members say before their first quanta.
#[tactic(auto, using(crate::proofs::Steps::pushed_true))]
fn first_silences(alloc: Global, group: &Group) -> Result<Vec<Record>, AllocError>
    ensures truth { IfOk result (λ first. AreTrueOfPlan group.now.plan first.items) }
    ensures value { IfOk result (λ first. first.items ≡ first_silences_of group.now) }
{
    let plan = group.plan();
    let mut first = Vec::new(alloc);
    for i in 0..plan.nodes() {
        if group.has(i) {
            first.push(first_silence(plan, i))?;
        }
    }
    Ok(first)
}

/// Fetches, runs members until none may run, and gives what they said, if anything. Returns whether nothing was fetched or said.
#[tactic(auto, using(crate::proofs::Steps::led_on))]
fn step<L: Link>(alloc: Global, group: &mut Group, link: &mut L) -> Result<bool, LinkFault>
    requires { L.is_of link.old group.old.plan }
    ensures same { (p : GivenPlan) → L.is_of link.old p → L.is_of link.new p }
    ensures led { OnOk result (LedTo group.old group.new) }
    ensures blocked { OnOk result (IsBlocked group.new) }
    ensures gave { OnOk result (GaveMore L.gave group.old group.new) }
{
    wl_group::led_laws();
    let came = come(alloc, group, link)?;
    let said = say(alloc, group)?;
    hand(alloc, group, link, said.as_slice())?;
    Ok(!came && said.is_empty())
}

/// Fetches what others gave. Returns whether the group knows more by it.
#[tactic(auto, using(crate::proofs::Steps::took_led, crate::proofs::Emitted::took_emitted))]
fn come<L: Link>(alloc: Global, group: &mut Group, link: &mut L) -> Result<bool, LinkFault>
    requires { L.is_of link.old group.old.plan }
    ensures same { (p : GivenPlan) → L.is_of link.old p → L.is_of link.new p }
    ensures led { LedTo group.old group.new }
    ensures emitted { group.new.emitted ≡ group.old.emitted }
{
    wl_group::led_laws();
    link.fetch(alloc, group)
}

/// Runs members, each time the first that may run, until none may. Returns what they said.
#[tactic(auto, using(crate::proofs::Steps::led_nowhere))]
fn say(alloc: Global, group: &mut Group) -> Result<Vec<Record>, AllocError>
    ensures truth { IfOk result (λ said. AreTrueOfPlan group.old.plan said.items) }
    ensures led { OnOk result (LedTo group.old group.new) }
    ensures blocked { OnOk result (IsBlocked group.new) }
    ensures emitted { IfOk result (λ said. group.new.emitted ≡ group.old.emitted ++ said.items) }
{
    wl_group::led_laws();
    let mut said = Vec::new(alloc);
    while let Some(i) = group.ready() {
        run_member(group, i, &mut said)?;
    }
    Ok(said)
}

/// Runs a row of quanta of a member that may run, and puts what it says after the rest: its change, if there is one, and one promise.
#[tactic(auto, using(crate::proofs::Steps::appended_true, crate::proofs::Steps::gone_true, crate::proofs::Steps::gone_led, crate::proofs::Emitted::gone_emitted, crate::proofs::Emitted::said_more))]
fn run_member(group: &mut Group, i: u8, said: &mut Vec<Record>) -> Result<(), AllocError>
    requires may { may_run group.old i ≡ true }
    requires truth { AreTrueOfPlan group.old.plan said.old.items }
    ensures truth { AreTrueOfPlan group.old.plan said.new.items }
    ensures led { OnOk result (LedTo group.old group.new) }
    ensures fewer { OnOk result (quanta_left group.new < quanta_left group.old) }
    ensures said { OnOk result ((before : List Told) → group.old.emitted ≡ before ++ said.old.items
        → group.new.emitted ≡ before ++ said.new.items) }
{
    let Some(emission) = group.go(i)? else {
        unreachable!()
    };
    said.extend_from_slice(&emission)
}

/// Gives what members of the group said, if anything.
fn hand<L: Link>(
    alloc: Global,
    group: &Group,
    link: &mut L,
    said: &[Record],
) -> Result<(), LinkFault>
    requires of { L.is_of link.old group.now.plan }
    requires truth { AreTrueOfPlan group.now.plan said.now }
    ensures same { (p : GivenPlan) → L.is_of link.old p → L.is_of link.new p }
    ensures rewound { L.is_rewound link.old → L.is_rewound link.new }
    ensures gave { OnOk result (Gives L.gave link.old link.new said.now) }
{
    let _ = group;
    if said.is_empty() {
        return Ok(());
    }
    link.give(alloc, said)
}

/// True if all members of a group are at their ends.
#[tactic(auto, using(crate::proofs::Waiting::all_nodes))]
fn have_ended(group: &Group) -> bool
    ensures { IsTrue result → MembersEnded group.now }
{
    wl_group::value_laws();
    for i in 0..group.replica().nodes() {
        if group.has(i) && !group.has_ended(i) {
            return false;
        }
    }
    true
}
