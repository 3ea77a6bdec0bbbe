//! What lacks of the premises under which the bounds are proved.
ghost use Rattle.std.specs.Prelude.{◌≡◌, ℕ, List, length};
ghost use Rattle.std.specs.Bool.{Decides};
ghost use Rattle.wl_bound.specs.Rooms.{plain_bus};
ghost use Rattle.wl_respond.specs.Premises.{FirstLack, IsForAny, IsOnTable};
ghost use Rattle.wl_respond.specs.Tests.{pass};

use crate::level::has_levels;
use crate::message::MessageWait;
use crate::plan::keeps_table;
use wl_bound::{Family, Verdict, is_covered, judge};
use wl_margin::{first_stray, first_turning};
use wl_plan::CheckedPlan;
use wl_setup::Deviation;

/// The first premise that lacks.
#[derive(Clone, Copy, Debug, PartialEq, Eq)]
pub enum Lacking {
    /// The clock of this node is outside of its tolerance.
    Astray(u8),
    /// The clock of this node has several rates.
    Turning(u8),
    /// `margin` doesn't say of the plan that it holds for any senders, proved.
    Margin,
    /// This node may decide a second time.
    Deciding(u8),
    /// Some frame is ready before its node's eleventh sample, or waits out of order.
    Table,
    /// No bounds pass the test.
    Bounds,
}

/// True if `margin` says of a plan that it holds for any senders, proved, and only then.
fn is_for_any(plan: &CheckedPlan, family: &Family) -> bool
    ensures { Decides result (IsForAny plan.now family.now) }
{
    judge(plan, family) == Verdict::ForAny && is_covered(plan) && family.leaves_room()
}

/// True if a plan keeps a table whose messages have the levels of their queues, and only then.
fn is_on_table(plan: &CheckedPlan, messages: &[MessageWait]) -> bool
    ensures { Decides result (IsOnTable plan.now messages.now) }
{
    keeps_table(plan, messages) && has_levels(plan, messages)
}

/// Returns the first premise that lacks of a plan with a table of messages, in the order of [`Lacking`].
pub fn first_lacking(
    deviations: &[Deviation],
    plan: &CheckedPlan,
    family: &Family,
    messages: &[MessageWait],
    passes: bool,
) -> Option<Lacking>
    requires deviations { length deviations.now ≡ length plan.now.nodes }
    requires members { length family.now.members ≡ length plan.now.nodes }
    ensures { (windows : List ℕ) → passes ≡ pass (plain_bus family.now) messages.now windows
        → FirstLack deviations.now plan.now family.now messages.now windows result }
{
    if let Some(i) = first_stray(deviations, plan, family) {
        return Some(Lacking::Astray(i));
    }
    if let Some(i) = first_turning(deviations, plan) {
        return Some(Lacking::Turning(i));
    }
    if !is_for_any(plan, family) {
        return Some(Lacking::Margin);
    }
    if let Some(i) = family.first_to_decide_twice() {
        return Some(Lacking::Deciding(i));
    }
    if !is_on_table(plan, messages) {
        return Some(Lacking::Table);
    }
    if !passes {
        return Some(Lacking::Bounds);
    }
    None
}
