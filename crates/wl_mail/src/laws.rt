//! Laws of what groups take.
ghost use Rattle.wl_mail.specs.Laws.{TakingLaws};

/// Law: a group that takes no record is as it was. To take some records and then others is to take both, and that changed what the group
/// knows if one of the two did.
#[tactic(auto, using(crate::proofs::Taken::taking_laws))]
pub fn taking_laws()
    ensures { TakingLaws }
{
    wl_replica::joining_is_a_join();
    wl_replica::taking_is_joining();
}
