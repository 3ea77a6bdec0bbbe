//! What posts answer.
ghost use Rattle.std.specs.Prelude.{◌≡◌, ◌≤◌, IfOk, length};

use crate::runs::Task;
use crate::steps::Way;
use std::alloc::{AllocError, Global};
use std::fmt::Write;
use std::sync::Wait;
use test_words::Stop;
use wl_group::{Group, first_silence, value_laws};
use wl_mail::{Hold, MailFault, Post, posts};
use wl_plan::CheckedPlan;

/// Returns what posts answer to letters of a plan, as a step says.
pub fn exchanged<R: Wait>(rt: &R, alloc: Global, task: Task<'_>) -> Result<String, Stop> {
    let plan = task.plan;
    if plan.nodes() < 2 {
        return Err(Stop::Unread);
    }
    match task.step.way {
        Way::ReaderGone => reader_gone(rt, alloc, plan),
        Way::WriterGone => writer_gone(rt, alloc, plan),
        Way::ForeignLetter => foreign_letter(rt, alloc, plan),
        _ => letter(rt, alloc, plan, plan),
    }
}

/// The posts of two workers, and the hold on what they read.
#[derive(Drop)]
struct Office {
    first: Post,
    second: Post,
    hold: Hold,
}

/// Returns the posts of two workers.
fn open(alloc: Global) -> Result<Office, Stop> {
    let (mut all, hold) = posts(alloc, 2)?;
    match (all.pop(), all.pop()) {
        (Some(second), Some(first)) => Ok(Office {
            first,
            second,
            hold,
        }),
        _ => Err(Stop::Unread),
    }
}

/// Sends a letter of node 0's first silence to all other workers, and returns what that is called.
fn send_first<R: Wait>(rt: &R, alloc: Global, plan: &CheckedPlan, post: &mut Post) -> &'static str
    requires nodes { 2 ≤ length plan.now.nodes }
{
    match post.send(rt, alloc, plan, &[first_silence(plan, 0)]) {
        Ok(()) => "sent",
        Err(fault) => named(fault),
    }
}

/// Returns what is answered to two letters after their reader was given up.
fn reader_gone<R: Wait>(rt: &R, alloc: Global, plan: &CheckedPlan) -> Result<String, Stop>
    requires nodes { 2 ≤ length plan.now.nodes }
{
    let office = open(alloc)?;
    let (held, unheld) = send_to_none(rt, alloc, plan, office);
    Ok(format!(in alloc; ": {held}, then {unheld}")?)
}

/// Gives up a reader and sends two letters: the first while its reader is held, the second after that.
fn send_to_none<R: Wait>(
    rt: &R,
    alloc: Global,
    plan: &CheckedPlan,
    office: Office,
) -> (&'static str, &'static str)
    requires nodes { 2 ≤ length plan.now.nodes }
{
    let Office {
        first,
        second,
        hold,
    } = office;
    let mut first = first;
    drop(second);
    let held = send_first(rt, alloc, plan, &mut first);
    drop(hold);
    (held, send_first(rt, alloc, plan, &mut first))
}

/// Returns what a reader is answered after the writer was given up, which sent a letter before.
fn writer_gone<R: Wait>(rt: &R, alloc: Global, plan: &CheckedPlan) -> Result<String, Stop>
    requires nodes { 2 ≤ length plan.now.nodes }
{
    let (sent, last, none) = heard_of_none(rt, alloc, plan)?;
    Ok(format!(in alloc; ": {sent}, {last}, then {none}")?)
}

/// Returns what is answered to that letter and to two calls that receive.
fn heard_of_none<R: Wait>(
    rt: &R,
    alloc: Global,
    plan: &CheckedPlan,
) -> Result<(&'static str, &'static str, &'static str), Stop>
    requires nodes { 2 ≤ length plan.now.nodes }
{
    let mut group = Group::new(alloc, plan, &[1])?;
    let office = open(alloc)?;
    Ok(receive_of_none(rt, alloc, plan, office, &mut group))
}

/// Sends a letter, gives up its writer and receives twice.
fn receive_of_none<R: Wait>(
    rt: &R,
    alloc: Global,
    plan: &CheckedPlan,
    office: Office,
    group: &mut Group,
) -> (&'static str, &'static str, &'static str)
    requires nodes { 2 ≤ length plan.now.nodes }
{
    let Office {
        first,
        second,
        hold,
    } = office;
    let (mut first, mut second) = (first, second);
    let sent = send_first(rt, alloc, plan, &mut first);
    drop(first);
    let last = came(second.receive(rt, alloc, group));
    let none = came(second.receive(rt, alloc, group));
    drop(hold);
    (sent, last, none)
}

/// Returns what a letter of all that node 0 of a plan emits says to a group of node 1 of the same plan, or of another one.
fn letter<R: Wait>(
    rt: &R,
    alloc: Global,
    from: &CheckedPlan,
    plan: &CheckedPlan,
) -> Result<String, Stop>
    requires from { 2 ≤ length from.now.nodes }
    requires nodes { 2 ≤ length plan.now.nodes }
{
    let mut group = Group::new(alloc, plan, &[1])?;
    let mut office = open(alloc)?;
    hand_over(rt, alloc, from, &mut office, &mut group)
}

/// Hands it over by two posts.
fn hand_over<R: Wait>(
    rt: &R,
    alloc: Global,
    from: &CheckedPlan,
    office: &mut Office,
    group: &mut Group,
) -> Result<String, Stop>
    requires from { 2 ≤ length from.now.nodes }
{
    send_all(rt, alloc, from, &mut office.first)?;
    receive(rt, alloc, &mut office.second, group)
}

/// Returns what a group says to a letter, and how much it knows then. If memory is refused meanwhile, the letter comes again.
fn receive<R: Wait>(
    rt: &R,
    alloc: Global,
    post: &mut Post,
    group: &mut Group,
) -> Result<String, Stop> {
    let mut told = String::new(alloc);
    for _ in 0..2 {
        let answer = post.receive(rt, alloc, group);
        tell_known(alloc, came(answer), group, &mut told)?;
        if answer != Err(MailFault::Memory) {
            break;
        }
    }
    Ok(told)
}

/// Writes what a letter was called, and how many records a group knows.
fn tell_known(
    alloc: Global,
    called: &str,
    group: &Group,
    told: &mut String,
) -> Result<(), AllocError> {
    let known = group.replica().canonical(alloc)?.len();
    write!(told, ": {called}, {known} known")
}

/// Sends all that node 0 alone emits.
fn send_all<R: Wait>(rt: &R, alloc: Global, plan: &CheckedPlan, post: &mut Post) -> Result<(), Stop>
    requires nodes { 2 ≤ length plan.now.nodes }
{
    let mut group = Group::new(alloc, plan, &[0])?;
    run_on(alloc, &mut group)?;
    post_emitted(rt, alloc, &group, post)
}

/// Advances a group as far as it can.
fn run_on(alloc: Global, group: &mut Group) -> Result<(), AllocError>
    ensures { group.new.plan ≡ group.old.plan }
{
    value_laws();
    // (reading a part gives the proof what the type keeps)
    let _ = group.plan();
    group.advance_all(alloc)?;
    Ok(())
}

/// Sends by a post what a group emitted.
#[tactic(auto, using(crate::proofs::Handing::emitted_true))]
fn post_emitted<R: Wait>(
    rt: &R,
    alloc: Global,
    group: &Group,
    post: &mut Post,
) -> Result<(), Stop> {
    match post.send(rt, alloc, group.plan(), group.emitted()) {
        Ok(()) => Ok(()),
        Err(_) => Err(Stop::Memory),
    }
}

/// Returns what a letter of another plan says to a group.
fn foreign_letter<R: Wait>(rt: &R, alloc: Global, plan: &CheckedPlan) -> Result<String, Stop>
    requires nodes { 2 ≤ length plan.now.nodes }
{
    let later = later_end(alloc, plan)?;
    letter(rt, alloc, &later, plan)
}

/// Returns a plan with its end one tick later, and with two nodes at least.
fn later_end(alloc: Global, plan: &CheckedPlan) -> Result<CheckedPlan, Stop>
    ensures { IfOk result (λ later. 2 ≤ length later.nodes) }
{
    let mut later = plan.clone_in(alloc)?;
    later.end = later.end.saturating_add(1);
    match CheckedPlan::new(later) {
        Ok(later) if later.nodes() >= 2 => Ok(later),
        _ => Err(Stop::Unread),
    }
}

/// Returns what it is called that a letter was taken, or was not.
fn came(answer: Result<bool, MailFault>) -> &'static str {
    match answer {
        Ok(true) => "news",
        Ok(false) => "nothing new",
        Err(fault) => named(fault),
    }
}

/// Returns the name of a fault.
fn named(fault: MailFault) -> &'static str {
    match fault {
        MailFault::Foreign => "Foreign",
        MailFault::Gone => "Gone",
        MailFault::Memory => "Memory",
    }
}
