//! The link by letters.
ghost use Rattle.std.specs.Prelude.{◌≡◌, ◌≤◌, All, IfOk, OnOk, vec_len};
ghost use Rattle.std.specs.Arc.{arc_value};
ghost use Rattle.wl_worker.specs.Handed.{Took, TellsNews};
ghost use Rattle.wl_worker.specs.Letters.{HandsAll};
ghost use Rattle.wl_worker.specs.PlanName.{AreNumbered};

use crate::bell::Bell;
use crate::giving::give_letter;
use crate::link::{Link, LinkFault};
use std::alloc::{AllocError, Global};
use std::sync::{Arc, Wait};
use wl_group::Group;
use wl_mail::{MailFault, Post};
use wl_plan::Plan;
use wl_record_core::Record;

/// A link over a post. It waits at a bell, whose counts say how many letters are still to come.
#[derive(Drop)]
pub struct MailLink<'h, R: Wait> {
    rt: &'h R,
    post: Post,
    // All letters of the link share it.
    plan: Arc<Plan>,
    bell: &'h Bell,
    worker: u8,
    // How often the others had given something when the last fetch began; none before the first one and after a rewind.
    heard: Option<u64>,
}

impl From<MailFault> for LinkFault {
    ghost use Rattle.std.specs.Prelude.{◌≡◌};
    ghost use Rattle.wl_worker.specs.Letters.{fault_of_mail};

    ghost from_gives = { λ fault given. given ≡ fault_of_mail fault };

    fn from(fault: MailFault) -> LinkFault {
        match fault {
            MailFault::Foreign => LinkFault::Foreign,
            MailFault::Gone => LinkFault::Gone,
            MailFault::Memory => LinkFault::Memory,
        }
    }
}

impl<'h, R: Wait> MailLink<'h, R> {
    /// Returns the link of a worker over its post, of a plan. All links of a run share one bell, at which each gives as often as it sends.
    /// Refused only when out of memory; then the post is given up.
    pub fn new(
        rt: &'h R,
        alloc: Global,
        post: Post,
        plan: &Plan,
        bell: &'h Bell,
        worker: u8,
    ) -> Result<MailLink<'h, R>, AllocError>
        ensures plan { IfOk result (λ link. arc_value link.plan ≡ plan.now) }
        ensures post { IfOk result (λ link. link.post ≡ post) }
        ensures number { IfOk result (λ link. link.worker ≡ worker) }
    {
        Ok(MailLink {
            rt,
            post,
            plan: Arc::new(alloc, plan.clone_in(alloc)?)?,
            bell,
            worker,
            heard: None,
        })
    }
}

impl<'h, R: Wait> Link for MailLink<'h, R> {
    ghost use Rattle.std.specs.Prelude.{◌≡◌, IfOk, IsSome, OnOk, map};
    ghost use Rattle.std.specs.Arc.{arc_value};
    ghost use Rattle.wl_plan.specs.declared.plan.Plan.{Plan as GivenPlan};
    ghost use Rattle.wl_mail.specs.Posts.{with_sent};
    ghost use Rattle.wl_mail.specs.Senders.{one_letter_more};
    ghost use Rattle.wl_worker.specs.Handed.{AreTrueOfPlan, Took, TellsNews};
    ghost use Rattle.wl_worker.specs.Letters.{HandsAll};

    ghost is_of = { λ link plan. arc_value link.plan ≡ plan };

    ghost number = { λ link. link.worker };

    ghost is_rewound = { λ link. link.post.handed ≡ 0 };

    ghost gave = { λ old new records. new.post ≡ with_sent (map one_letter_more old.post.sent) old.post };

    fn worker(&self) -> u8 {
        self.worker
    }

    /// Sends a letter of these records to every other worker, and then rings the bell. The post counts one letter more for each.
    fn give(&mut self, alloc: Global, records: &[Record]) -> Result<(), LinkFault> {
        let given = give_letter(self.rt, alloc, &mut self.post, &self.plan, records)?;
        self.bell.give(self.rt, self.worker, given);
        Ok(())
    }

    /// Hands the group all letters that the post received and hasn't handed out, and then all new ones that the others have sent, by the
    /// bell. If there are none it waits for nobody.
    fn fetch(&mut self, alloc: Global, group: &mut Group) -> Result<bool, LinkFault>
        requires { arc_value self.old.plan ≡ group.old.plan }
        ensures same { (p : GivenPlan) → arc_value self.old.plan ≡ p → arc_value self.new.plan ≡ p }
        ensures number { self.new.worker ≡ self.old.worker }
        ensures took { Took group.old group.new }
        ensures changed { IfOk result (λ b. TellsNews group.old group.new b) }
        ensures heard { OnOk result (IsSome self.new.heard) }
        ensures letters { OnOk result (HandsAll self.old.post self.new.post group.old group.new) }
    {
        let sent = self.bell.gives_of_others(self.rt, self.worker);
        let came = receive_all(self.rt, alloc, &mut self.post, group, sent)?;
        self.heard = Some(sent);
        Ok(came)
    }

    fn rewind(&mut self) {
        self.post.rewind();
        self.heard = None;
    }

    fn wait(&mut self) -> Option<u8> {
        self.bell.wait_past(self.rt, self.worker, self.heard)
    }

    fn stop(&mut self) {
        self.bell.stop(self.rt, self.worker);
    }
}

/// Hands a group all letters that a post received and hasn't handed out, and then new ones, until this many were handed out together.
/// Returns whether that changed what the group knows.
fn receive_all<R: Wait>(
    rt: &R,
    alloc: Global,
    post: &mut Post,
    group: &mut Group,
    sent: u64,
) -> Result<bool, MailFault>
    ensures took { Took group.old group.new }
    ensures changed { IfOk result (λ b. TellsNews group.old group.new b) }
    ensures letters { OnOk result (HandsAll post.old post.new group.old group.new) }
{
    wl_mail::taking_laws();
    let end = sent.max(post.received() as u64);
    let mut came = false;
    for _ in post.handed() as u64..end {
        let news = post.receive(rt, alloc, group)?;
        came |= news;
    }
    Ok(came)
}

/// Returns a link for each post, of a plan: the posts are those of workers 0, 1 and so on, at most 256. Refused only when out of memory.
pub fn mail_links<'h, R: Wait>(
    rt: &'h R,
    alloc: Global,
    posts: Vec<Post>,
    plan: &Plan,
    bell: &'h Bell,
) -> Result<Vec<MailLink<'h, R>>, AllocError>
    ensures count { IfOk result (λ links. vec_len links ≡ vec_len posts) }
    ensures of { IfOk result (λ links. All (λ link. arc_value link.plan ≡ plan.now) links.items) }
    ensures numbered { IfOk result (λ links. vec_len posts ≤ 256 → AreNumbered (λ link. link.worker) links.items) }
{
    let mut links = Vec::new(alloc);
    let mut worker = 0u8;
    for post in posts {
        let link = MailLink::new(rt, alloc, post, plan, bell, worker)?;
        links.push(link)?;
        worker = worker.saturating_add(1);
    }
    Ok(links)
}
