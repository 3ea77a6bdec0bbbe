//! The link over a hub.
ghost use Rattle.std.specs.Prelude.{◌≡◌, All, IfOk, vec_len};
ghost use Rattle.wl_plan.specs.declared.plan.Plan.{Plan as GivenPlan};
ghost use Rattle.wl_hub.specs.Passes.{IsPassOf};
ghost use Rattle.wl_worker.specs.PlanName.{AreNumbered, IsOfPlan};

use crate::bell::Bell;
use crate::fetch::{Handed, learn_all, nothing_handed};
use crate::giving::give_words;
use crate::link::{Link, LinkFault};
use crate::plan_name::PlanName;
use std::alloc::{AllocError, Global};
use std::sync::Wait;
use wl_group::Group;
use wl_hub::{Hub, Pass};
use wl_record_core::Record;

/// A link over a pass of a hub, whose name is the link's plan. It waits at a bell.
#[derive(Drop)]
pub struct HubLink<'h, R: Wait> {
    rt: &'h R,
    hub: &'h Hub<PlanName>,
    pass: Pass<PlanName>,
    bell: &'h Bell,
    worker: u8,
    // How often the others had given something when the last fetch began; none before the first one and after a rewind.
    heard: Option<u64>,
    // For each node, how many of its changes were handed over; none after a rewind.
    handed: Handed,
    pub ghost here: { IsPassOf hub.now pass },
}

impl<'h, R: Wait> HubLink<'h, R> {
    /// Returns the link of a worker over a pass of a hub that has the words of the plan that is the pass's name. All links of a run share
    /// one bell. Refused only when out of memory.
    pub fn new(
        rt: &'h R,
        _alloc: Global,
        hub: &'h Hub<PlanName>,
        pass: Pass<PlanName>,
        bell: &'h Bell,
        worker: u8,
    ) -> Result<HubLink<'h, R>, AllocError>
        requires { IsPassOf hub.now pass }
        ensures plan { IfOk result (λ link. (plan : GivenPlan) → IsOfPlan hub.now pass plan
            → IsOfPlan link.hub.now link.pass plan) }
        ensures number { IfOk result (λ link. link.worker ≡ worker) }
    {
        Ok(HubLink {
            rt,
            hub,
            pass,
            bell,
            worker,
            heard: None,
            handed: nothing_handed(),
        })
    }
}

impl<'h, R: Wait> Link for HubLink<'h, R> {
    ghost use Rattle.std.specs.Prelude.{◌≡◌, All, None, IfOk, IsSome, OnOk};
    ghost use Rattle.wl_plan.specs.declared.plan.Plan.{Plan as GivenPlan};
    ghost use Rattle.wl_worker.specs.Handed.{AreTrueOfPlan, Took, TellsNews};
    ghost use Rattle.wl_worker.specs.Seen.{HandsSeen};
    ghost use Rattle.wl_worker.specs.PlanName.{IsOfPlan, PassGave};

    ghost is_of = { λ link plan. IsOfPlan link.hub.now link.pass plan };

    ghost number = { λ link. link.worker };

    ghost is_rewound = { λ link. (link.heard ≡ None) × All (λ count. count ≡ 0) link.handed };

    ghost gave = { λ old new records. PassGave old.pass new.pass records };

    fn worker(&self) -> u8 {
        self.worker
    }

    /// Gives records to the hub's words, and then rings the bell. The pass's list grows by exactly these records.
    fn give(&mut self, _alloc: Global, records: &[Record]) -> Result<(), LinkFault> {
        let given = give_words(self.hub, &mut self.pass, records);
        self.bell.give(self.rt, self.worker, given);
        Ok(())
    }

    /// Takes what the hub has of the nodes that are no members. If the group has the first changes of a node that were handed over, it then
    /// has all that the pass has seen of it. The bell is asked before the words are looked at, so that no later give is slept through.
    fn fetch(&mut self, _alloc: Global, group: &mut Group) -> Result<bool, LinkFault>
        requires { IsOfPlan self.old.hub.now self.old.pass group.old.plan }
        ensures same { (p : GivenPlan) → IsOfPlan self.old.hub.now self.old.pass p
            → IsOfPlan self.new.hub.now self.new.pass p }
        ensures number { self.new.worker ≡ self.old.worker }
        ensures took { Took group.old group.new }
        ensures changed { IfOk result (λ b. TellsNews group.old group.new b) }
        ensures heard { OnOk result (IsSome self.new.heard) }
        ensures known { OnOk result
            (HandsSeen self.new.hub.now self.new.pass self.old.handed self.new.handed group.old group.new) }
    {
        let heard = self.bell.gives_of_others(self.rt, self.worker);
        let came = learn_all(self.hub, &mut self.pass, group, &mut self.handed)?;
        self.heard = Some(heard);
        Ok(came)
    }

    /// Begins again: the next fetch hands over all that the pass has seen, and a wait before it ends at once.
    fn rewind(&mut self) {
        self.heard = None;
        self.handed = nothing_handed();
    }

    fn wait(&mut self) -> Option<u8> {
        self.bell.wait_past(self.rt, self.worker, self.heard)
    }

    fn stop(&mut self) {
        self.bell.stop(self.rt, self.worker);
    }
}

/// Returns a link for each of this many workers, over a pass of its own that is split off a pass of the hub. Refused only when out of
/// memory.
pub fn hub_links<'h, R: Wait>(
    rt: &'h R,
    alloc: Global,
    hub: &'h Hub<PlanName>,
    pass: Pass<PlanName>,
    bell: &'h Bell,
    workers: u8,
) -> Result<Vec<HubLink<'h, R>>, AllocError>
    requires { IsPassOf hub.now pass }
    ensures count { IfOk result (λ links. vec_len links ≡ workers) }
    ensures of { IfOk result (λ links. (plan : GivenPlan) → IsOfPlan hub.now pass plan
        → All (λ link. IsOfPlan link.hub.now link.pass plan) links.items) }
    ensures numbered { IfOk result (λ links. AreNumbered (λ link. link.worker) links.items) }
{
    let mut pass = pass;
    let mut links = Vec::with_capacity(alloc, usize::from(workers))?;
    for worker in 0..workers {
        let own = hub.split(&mut pass);
        let link = HubLink::new(rt, alloc, hub, own, bell, worker)?;
        links.push_reserved(link);
    }
    Ok(links)
}
