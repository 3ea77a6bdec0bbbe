//! Posts: the ends of the channels between workers.
ghost use Rattle.std.specs.Prelude.{◌≡◌, ◌≢◌, ◌⊎◌, ℕ, suc, ◌-◌, ◌<◌, Err, All, IfOk, OnOk, OnErr, map, vec_len, length};
ghost use Rattle.std.specs.Arc.{arc_value};
ghost use Rattle.wl_mail.specs.Truth.{AreTrueOfPlan};
ghost use Rattle.wl_mail.specs.Handed.{Took, TellsNews};
ghost use Rattle.wl_mail.specs.Posts.{initial_post, with_sent, rewound, KeepsLetters, HandedOut};
ghost use Rattle.wl_mail.specs.Senders.{one_letter_more, one_letter_more_to};
ghost use Rattle.wl_mail.specs.declared.fault.MailFault.TheVariants.{Foreign, Gone, Memory};

use crate::fault::MailFault;
use crate::letter::Letter;
use crate::senders::{Senders, senders_of};
use crossbeam_channel::{Receiver, unbounded};
use std::alloc::{AllocError, Global};
use std::marker::Model;
use std::sync::{Arc, Wait};
use wl_group::Group;
use wl_plan::Plan;
use wl_record_core::Record;

/// A worker's post: by it the worker sends letters to all other workers, and receives theirs. It keeps every letter that it received.
///
/// Contracts see how many letters went to each of the other workers, and the letters that it received. They also see how many of these it
/// has handed out since it began or was last rewound.
#[derive(Drop)]
pub struct Post {
    senders: Senders,
    from: Receiver<Letter>,
    kept: Vec<Letter>,
    handed: usize,
}

impl Model for Post {
    ghost use Rattle.std.specs.Prelude.{◌≤◌, length};
    ghost use Rattle.wl_mail.specs.Posts.{PostValue};

    ghost Value = { PostValue };

    ghost view = { λ post. record { sent = post.senders; kept = post.kept.items; handed = post.handed } };

    ghost invariant = { λ post. post.handed ≤ length post.kept.items };
}

/// Keeps the receivers of all posts alive, so that no letter is refused because its reader has ended.
#[derive(Drop)]
pub struct Hold {
    receivers: Vec<Receiver<Letter>>,
}

impl Post {
    /// Sends a letter of these records, which are true of the plan, to every other worker. `Gone` if a receiver was given up, which a
    /// `Hold` keeps from coming. A refused `send` may have reached some workers, the first ones.
    pub fn send<R: Wait>(
        &mut self,
        rt: &R,
        alloc: Global,
        plan: &Plan,
        records: &[Record],
    ) -> Result<(), MailFault>
        requires { AreTrueOfPlan plan.now records.now }
        ensures all { OnOk result (self.new ≡ with_sent (map one_letter_more self.old.sent) self.old) }
        ensures some { (k : ℕ) × (self.new ≡ with_sent (one_letter_more_to k self.old.sent) self.old) }
        ensures cause { result ≢ Err Foreign }
    {
        let letter = Letter::new(alloc, plan, records)?;
        self.senders.send(rt, &letter)
    }

    /// Sends a letter of a plan that the letters of many calls share, as `send` does.
    pub fn send_shared<R: Wait>(
        &mut self,
        rt: &R,
        alloc: Global,
        plan: &Arc<Plan>,
        records: &[Record],
    ) -> Result<(), MailFault>
        requires { AreTrueOfPlan (arc_value plan.now) records.now }
        ensures all { OnOk result (self.new ≡ with_sent (map one_letter_more self.old.sent) self.old) }
        ensures some { (k : ℕ) × (self.new ≡ with_sent (one_letter_more_to k self.old.sent) self.old) }
        ensures cause { result ≢ Err Foreign }
    {
        let letter = Letter::of(alloc, plan, records)?;
        self.senders.send(rt, &letter)
    }

    /// Lets the group take the records of the next letter, and returns whether that changed what the group knows. The next letter is the
    /// first received one that it hasn't handed out since it was last rewound. If it has handed out all, it waits for a new one.
    ///
    /// `Foreign` if the letter's plan isn't the group's, and `Gone` if the posts of all other workers were given up; then the group is as
    /// it was. A foreign letter counts as handed out. If memory is refused the group keeps the records that it took before, and the letter
    /// comes again.
    pub fn receive<R: Wait>(
        &mut self,
        rt: &R,
        _alloc: Global,
        group: &mut Group,
    ) -> Result<bool, MailFault>
        ensures kept { KeepsLetters self.old self.new }
        ensures handed { OnOk result (HandedOut self.old self.new group.old group.new) }
        ensures took { Took group.old group.new }
        ensures changed { IfOk result (λ b. TellsNews group.old group.new b) }
        ensures untouched { (result ≡ Err Foreign) ⊎ (result ≡ Err Gone) → group.new ≡ group.old }
        ensures foreign { result ≡ Err Foreign → self.new.handed ≡ suc self.old.handed }
        ensures gone { result ≡ Err Gone → self.new ≡ self.old × (self.old.handed ≡ length self.old.kept) }
        ensures memory { result ≡ Err Memory → self.new.handed ≡ self.old.handed }
    {
        wl_replica::joining_is_a_join();
        self.await_next(rt)?;
        match self.kept[self.handed].hand_to(group) {
            Ok(news) => {
                self.handed += 1;
                Ok(news)
            }
            Err(MailFault::Foreign) => {
                self.handed += 1;
                Err(MailFault::Foreign)
            }
            Err(MailFault::Gone) => unreachable!(),
            Err(MailFault::Memory) => Err(MailFault::Memory),
        }
    }

    /// Begins again with the letters that it received: `receive` hands them out in their order, before any new one.
    pub fn rewind(&mut self)
        ensures { self.new ≡ rewound self.old }
    {
        self.handed = 0;
    }

    /// Returns how many letters it received.
    pub fn received(&self) -> usize
        ensures { result ≡ length self.now.kept }
    {
        self.kept.len()
    }

    /// Returns how many of the letters that it received it has handed out since it began or was last rewound.
    pub fn handed(&self) -> usize
        ensures { result ≡ self.now.handed }
    {
        self.handed
    }

    /// Waits for one more letter if all that it received were handed out, and makes room for it before.
    fn await_next<R: Wait>(&mut self, rt: &R) -> Result<(), MailFault>
        ensures kept { KeepsLetters self.old self.new }
        ensures handed { self.new.handed ≡ self.old.handed }
        ensures next { OnOk result (self.new.handed < length self.new.kept) }
        ensures err { OnErr result (self.new ≡ self.old × (self.old.handed ≡ length self.old.kept)) }
        ensures cause { result ≢ Err Foreign }
    {
        if self.handed < self.kept.len() {
            return Ok(());
        }
        self.kept.reserve(1)?;
        match self.from.recv(rt) {
            Ok(letter) => {
                self.kept.push_reserved(letter);
                Ok(())
            }
            Err(_) => Err(MailFault::Gone),
        }
    }
}

/// Returns a post for each of this many workers, over one channel of any length each, and a hold on all receivers. Refused only when out of
/// memory.
pub fn posts(alloc: Global, workers: u8) -> Result<(Vec<Post>, Hold), AllocError>
    ensures count { IfOk result (λ r. vec_len r.0 ≡ workers) }
    ensures others { IfOk result (λ r. All (λ post. post ≡ initial_post (workers - 1)) r.0.items) }
{
    let mut senders = Vec::new(alloc);
    let mut receivers = Vec::new(alloc);
    for _ in 0..workers {
        let (to, from) = unbounded(alloc)?;
        senders.push(to)?;
        receivers.push(from)?;
    }
    let mut posts = Vec::new(alloc);
    for worker in 0..workers {
        let at = usize::from(worker);
        posts.push(Post {
            senders: senders_of(alloc, &senders, at)?,
            from: receivers[at].clone()?,
            kept: Vec::new(alloc),
            handed: 0,
        })?;
    }
    Ok((posts, Hold { receivers }))
}
