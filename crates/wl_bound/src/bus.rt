//! One bus of a family: its nodes and its cable in a setting, and what of it is worked out once.
ghost use Rattle.std.specs.Option.{ForSome};
ghost use Rattle.wl_bound.specs.Families.{bus_of};
ghost use Rattle.wl_bound.specs.Kept.{AreChasesOfBus, AreTermsOfBus};

use crate::family::{Family, Setting};
use crate::kept::{Chases, KeptTerms};

/// One bus of a family: its nodes and its cable in a setting. The condition and the room are asked of it. Times are in units: a tick has
/// 1,000,000 of them for each tick of the setting's length. It may have its terms, and in how many edges each node catches up: then they are
/// not worked out again.
#[derive(Clone, Copy)]
pub(crate) struct OneBus<'f> {
    pub(crate) family: &'f Family,
    pub(crate) setting: Setting,
    pub(crate) terms: Option<&'f KeptTerms>,
    pub(crate) chases: Option<&'f Chases>,
    pub(crate) ghost kept: { ForSome terms (λ t. AreTermsOfBus (bus_of family.now setting) t.now) },
    pub(crate) ghost chased: { ForSome chases (λ c. AreChasesOfBus (bus_of family.now setting) c.now) },
}
