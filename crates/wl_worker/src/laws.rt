//! Laws of what links hand over.
ghost use Rattle.wl_worker.specs.Handed.{NothingIsTaken};
ghost use Rattle.wl_worker.specs.Waiting.{BlockedHaveEnded};

/// Law: a group that is as it was has taken some records, namely none. That is what a link that
/// brings nothing owes.
#[tactic(auto, using(crate::proofs::Took::took_nothing))]
pub fn nothing_is_taken()
    ensures { NothingIsTaken }
{
    wl_mail::taking_laws();
}

/// Law: workers don't wait for one another for ever. If what each said has arrived at all others, and in no group a member may run, all
/// members are at their ends.
#[tactic(auto, using(crate::proofs::Waiting::blocked_have_ended))]
pub fn blocked_workers_have_ended()
    ensures { BlockedHaveEnded }
{
    wl_group::value_laws();
    wl_replica::known_laws();
    wl_plan::checked_is_sound();
}
