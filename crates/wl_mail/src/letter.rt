//! A letter: a plan and records that are true of it.
ghost use Rattle.std.specs.Prelude.{◌≡◌, ◌≢◌, ◌↔◌, ℕ, Err, IfOk, OnOk, take, true};
ghost use Rattle.std.specs.Arc.{arc_value};
ghost use Rattle.wl_group.specs.GroupValue.{with_records};
ghost use Rattle.wl_mail.specs.Truth.{AreTrueOfPlan, are_true_of_plan};
ghost use Rattle.wl_mail.specs.Handed.{Took, TellsNews};
ghost use Rattle.wl_mail.specs.declared.fault.MailFault.TheVariants.{Foreign, Gone};

use crate::fault::MailFault;
use crate::hand_over::take_all;
use std::alloc::{AllocError, Global};
use std::sync::Arc;
use wl_group::Group;
use wl_plan::Plan;
use wl_record_core::Record;

/// Records that are true of the plan beside them: no letter has others. Letters share both, so one more reader costs no copy.
#[derive(Drop)]
pub struct Letter {
    /// The plan.
    pub plan: Arc<Plan>,
    /// The records, in any order.
    pub records: Arc<Vec<Record>>,
    pub ghost truth: { are_true_of_plan (arc_value plan) (arc_value records).items ≡ true },
}

impl Letter {
    /// Returns a letter of a plan, with records that are true of it. Refused only when out of memory.
    pub fn new(alloc: Global, plan: &Plan, records: &[Record]) -> Result<Letter, AllocError>
        requires { AreTrueOfPlan plan.now records.now }
        ensures plan { IfOk result (λ letter. arc_value letter.plan ≡ plan.now) }
        ensures records { IfOk result (λ letter. (arc_value letter.records).items ≡ records.now) }
    {
        let plan = Arc::new(alloc, plan.clone_in(alloc)?)?;
        Letter::of(alloc, &plan, records)
    }

    /// Returns a letter of a plan that others share, with records that are true of it. Refused only when out of memory.
    pub fn of(alloc: Global, plan: &Arc<Plan>, records: &[Record]) -> Result<Letter, AllocError>
        requires { AreTrueOfPlan (arc_value plan.now) records.now }
        ensures plan { IfOk result (λ letter. arc_value letter.plan ≡ arc_value plan.now) }
        ensures records { IfOk result (λ letter. (arc_value letter.records).items ≡ records.now) }
    {
        wl_plan::test_of_truth();
        let records = Arc::new(alloc, Vec::from_slice(alloc, records)?)?;
        Ok(Letter {
            plan: Arc::try_clone(plan)?,
            records,
        })
    }

    /// Returns the same letter for one more reader, which shares the plan and the records.
    pub fn share(&self) -> Result<Letter, AllocError>
        ensures plan { IfOk result (λ letter. arc_value letter.plan ≡ arc_value self.now.plan) }
        ensures records { IfOk result (λ letter. arc_value letter.records ≡ arc_value self.now.records) }
    {
        Ok(Letter {
            plan: Arc::try_clone(&self.plan)?,
            records: Arc::try_clone(&self.records)?,
        })
    }

    /// Lets a group take the records, and returns whether that changed what the group knows. If the letter's plan isn't the group's it is
    /// refused as `Foreign`, and nothing changes. If memory is refused the group keeps the records that it took before.
    pub fn hand_to(&self, group: &mut Group) -> Result<bool, MailFault>
        ensures all { OnOk result (group.new ≡ with_records (arc_value self.now.records).items group.old) }
        ensures first { (k : ℕ) × (group.new ≡ with_records (take k (arc_value self.now.records).items) group.old) }
        ensures took { Took group.old group.new }
        ensures changed { IfOk result (λ b. TellsNews group.old group.new b) }
        ensures plan { OnOk result (arc_value self.now.plan ≡ group.old.plan) }
        ensures foreign { result ≡ Err Foreign ↔ (arc_value self.now.plan ≢ group.old.plan) }
        ensures untouched { result ≡ Err Foreign → group.new ≡ group.old }
        ensures there { result ≢ Err Gone }
    {
        wl_plan::test_of_truth();
        wl_replica::joining_is_a_join();
        if *self.plan == **group.plan() {
            return Ok(take_all(group, self.records.as_slice())?);
        }
        Err(MailFault::Foreign)
    }
}
