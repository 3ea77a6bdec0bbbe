//! The events of a world, one at a time and in lists.
ghost use Rattle.std.specs.Prelude.{◌≡◌, ◌+◌, ◌<◌, ◌≤◌, ◌++◌, [], ◌∷◌, length, IfOk, IfErr, OnErr, vec_len, vec_capacity};

use crate::events::{Answer, Event, Stopped};
use crate::world::World;
use crate::{headline, worlds_are_faithful};
use std::alloc::{AllocError, Global};
use wl_group::Advance;
use wl_record_core::Record;

/// The most records that one advance emits.
const MOST_EMITTED: usize = 2;

impl World {
    ghost use Rattle.wl_world.specs.declared.events.Event.TheVariants as events;
    ghost use Rattle.wl_world.specs.Faithful.{IsFaithfulValue, HasGrown};
    ghost use Rattle.wl_world.specs.WorldSteps.{StepsBy, RunsEvents, StopsAfter};
    ghost use Rattle.wl_world.specs.WorldValue.{IsWorldValue};

    /// Handles events in order, and returns for each whether it was possible; one that is not
    /// changes nothing. Refused when out of memory, the world is as the first `done` events left
    /// it.
    pub fn run(&mut self, alloc: Global, events: &[Event]) -> Result<Vec<Answer>, Stopped>
        ensures ok { IfOk result (λ answers. RunsEvents events.now self.old self.new answers.items) }
        ensures stopped { IfErr result (λ s. StopsAfter events.now self.old self.new s.done) }
        ensures faithful { IsFaithfulValue self.new }
        ensures grows { HasGrown self.old self.new }
        ensures plan { self.new.plan ≡ self.old.plan }
        ensures grouping { self.new.numbers ≡ self.old.numbers }
    {
        worlds_are_faithful();
        // (reading a part gives the proof what the type keeps)
        let _ = &self.plan;
        let answers = self.handle(alloc, events);
        let _ = &self.plan;
        answers
    }

    /// Handles events in order.
    fn handle(&mut self, alloc: Global, events: &[Event]) -> Result<Vec<Answer>, Stopped>
        ensures ok { IfOk result (λ answers. RunsEvents events.now self.old self.new answers.items) }
        ensures stopped { IfErr result (λ s. StopsAfter events.now self.old self.new s.done) }
        ensures plan { self.new.plan ≡ self.old.plan }
        ensures grouping { self.new.numbers ≡ self.old.numbers }
    {
        let mut answers = Vec::new(alloc);
        if events.is_empty() {
            return Ok(answers);
        }
        match answers.reserve(events.len()) {
            Ok(()) => {}
            Err(_) => return Err(Stopped { done: 0 }),
        }
        for (i, event) in events.iter().enumerate() {
            match self.step(*event) {
                Ok(answer) => push_within(&mut answers, answer),
                Err(_) => return Err(Stopped { done: i as u64 }),
            }
        }
        Ok(answers)
    }

    /// Handles one event. Refused when out of memory, the world is as it was.
    fn step(&mut self, event: Event) -> Result<Answer, AllocError>
        ensures ok { IfOk result (λ a. StepsBy event self.old self.new a) }
        ensures err { OnErr result (self.new ≡ self.old) }
        ensures plan { self.new.plan ≡ self.old.plan }
        ensures grouping { self.new.numbers ≡ self.old.numbers }
    {
        match event {
            Event::Advance(group, node) => self.advance(group, node),
            Event::Deliver(group, number) => self.deliver(group, number),
            Event::Join(group, other) => self.join(group, other),
            Event::Restart(group) => self.restart(group),
        }
    }

    /// Lets a group run the next quantum of its node, and keeps what it emits.
    pub(crate) fn advance(&mut self, group: u8, node: u8) -> Result<Answer, AllocError>
        ensures ok { IfOk result (λ a. StepsBy (events.Advance group node) self.old self.new a) }
        ensures err { OnErr result (self.new ≡ self.old) }
        ensures plan { self.new.plan ≡ self.old.plan }
        ensures grouping { self.new.numbers ≡ self.old.numbers }
    {
        wl_plan::grouping_laws();
        wl_group::advance_laws();
        wl_group::party_laws();
        if group as usize >= self.groups.len() {
            return Ok(Answer::Idle);
        }
        self.emitted.reserve(MOST_EMITTED)?;
        let runner = &mut self.groups[group as usize];
        match runner.advance(node)? {
            Advance::Emitted(emission) => {
                append(&mut self.emitted, &emission);
                Ok(Answer::Done)
            }
            Advance::Blocked => Ok(Answer::Idle),
            Advance::Ended => Ok(Answer::Idle),
        }
    }

    /// Lets a group take an emitted record.
    pub(crate) fn deliver(&mut self, group: u8, number: u64) -> Result<Answer, AllocError>
        ensures ok { IfOk result (λ a. StepsBy (events.Deliver group number) self.old self.new a) }
        ensures err { OnErr result (self.new ≡ self.old) }
        ensures plan { self.new.plan ≡ self.old.plan }
        ensures grouping { self.new.numbers ≡ self.old.numbers }
    {
        headline();
        wl_plan::checked_is_sound();
        wl_group::party_laws();
        if group as usize >= self.groups.len() || number >= self.emitted.len() as u64 {
            return Ok(Answer::Idle);
        }
        let entry = self.emitted[number as usize];
        let taker = &mut self.groups[group as usize];
        taker.take(entry)?;
        Ok(Answer::Done)
    }

    /// Lets a group take all that another has taken.
    fn join(&mut self, group: u8, other: u8) -> Result<Answer, AllocError>
        ensures ok { IfOk result (λ a. StepsBy (events.Join group other) self.old self.new a) }
        ensures err { OnErr result (self.new ≡ self.old) }
        ensures plan { self.new.plan ≡ self.old.plan }
        ensures grouping { self.new.numbers ≡ self.old.numbers }
    {
        wl_group::party_laws();
        if group as usize >= self.groups.len() || other as usize >= self.groups.len() {
            return Ok(Answer::Idle);
        }
        let alloc = self.alloc;
        let giver = &self.groups[other as usize];
        let given = giver.replica().clone_in(alloc)?;
        let taker = &mut self.groups[group as usize];
        taker.join(&given)?;
        Ok(Answer::Done)
    }

    /// Lets a group begin again.
    fn restart(&mut self, group: u8) -> Result<Answer, AllocError>
        ensures ok { IfOk result (λ a. StepsBy (events.Restart group) self.old self.new a) }
        ensures err { OnErr result (self.new ≡ self.old) }
        ensures plan { self.new.plan ≡ self.old.plan }
        ensures grouping { self.new.numbers ≡ self.old.numbers }
    {
        wl_group::party_laws();
        if group as usize >= self.groups.len() {
            return Ok(Answer::Idle);
        }
        let again = &mut self.groups[group as usize];
        again.restart()?;
        Ok(Answer::Done)
    }
}

/// Appends records for which there is room.
fn append(emitted: &mut Vec<Record>, more: &[Record])
    requires { vec_len emitted.old + length more.now ≤ vec_capacity emitted.old }
    ensures { emitted.new.items ≡ emitted.old.items ++ more.now }
{
    match emitted.extend_from_slice(more) {
        Ok(()) => {}
        Err(_) => unreachable!(),
    }
}

/// Adds an answer, for which there is room.
fn push_within(answers: &mut Vec<Answer>, answer: Answer)
    requires { vec_len answers.old < vec_capacity answers.old }
    ensures items { answers.new.items ≡ answers.old.items ++ answer ∷ [] }
    ensures len { vec_len answers.new ≡ vec_len answers.old + 1 }
    ensures capacity { vec_capacity answers.old ≤ vec_capacity answers.new }
{
    match answers.push(answer) {
        Ok(()) => {}
        Err(_) => unreachable!(),
    }
}
