//! Giving: what a worker says goes out, and then a bell may ring for it.
ghost use Rattle.std.specs.Prelude.{◌≡◌, ◌≢◌, Err, OnOk, map};
ghost use Rattle.std.specs.Arc.{arc_value};
ghost use Rattle.wl_plan.specs.declared.plan.Plan.{Plan as GivenPlan};
ghost use Rattle.wl_hub.specs.Passes.{IsPassOf, pass_name};
ghost use Rattle.wl_mail.specs.Posts.{with_sent};
ghost use Rattle.wl_mail.specs.Senders.{one_letter_more, one_letter_more_to};
ghost use Rattle.wl_mail.specs.declared.fault.MailFault.TheVariants.{Foreign};
ghost use Rattle.wl_worker.specs.Handed.{AreTrueOfPlan};
ghost use Rattle.wl_worker.specs.PlanName.{IsOfPlan, PassGave};

use crate::plan_name::PlanName;
use std::alloc::Global;
use std::sync::{Arc, Wait};
use wl_hub::{Hub, Pass};
use wl_mail::{MailFault, Post};
use wl_plan::Plan;
use wl_record_core::Record;

/// That records went out: their words have them, or a letter of them was sent. Only the functions that give make one, so that no bell rings
/// before.
#[derive(Drop)]
pub struct Given {
    out: (),
}

/// Gives all of these records to their words.
pub(crate) fn give_words(
    hub: &Hub<PlanName>,
    pass: &mut Pass<PlanName>,
    records: &[Record],
) -> Given
    requires here { IsPassOf hub.now pass.old }
    requires truth { (plan : GivenPlan) × IsOfPlan hub.now pass.old plan × AreTrueOfPlan plan records.now }
    ensures here { IsPassOf hub.now pass.new }
    ensures name { pass_name pass.new ≡ pass_name pass.old }
    ensures gave { PassGave pass.old pass.new records.now }
{
    wl_record_core::table_laws();
    wl_plan::simulation_laws();
    wl_plan::changes_are_few();
    wl_plan::checked_is_sound();
    for i in 0..records.len() {
        hub.take(pass, records[i]);
    }
    Given { out: () }
}

/// Sends a letter of these records, which are true of the plan, to every other worker.
pub(crate) fn give_letter<R: Wait>(
    rt: &R,
    alloc: Global,
    post: &mut Post,
    plan: &Arc<Plan>,
    records: &[Record],
) -> Result<Given, MailFault>
    requires { AreTrueOfPlan (arc_value plan.now) records.now }
    ensures all { OnOk result (post.new ≡ with_sent (map one_letter_more post.old.sent) post.old) }
    ensures some { (k : _) × (post.new ≡ with_sent (one_letter_more_to k post.old.sent) post.old) }
    ensures cause { result ≢ Err Foreign }
{
    post.send_shared(rt, alloc, plan, records)?;
    Ok(Given { out: () })
}
