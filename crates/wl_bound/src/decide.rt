//! Whether a bus has room that no node decides a second time.
ghost use Rattle.std.specs.Prelude.{◌≡◌, ◌<◌, IfSome};
ghost use Rattle.wl_level.specs.Places.{first_place};
ghost use Rattle.wl_topology.specs.Driven.{any_below};
ghost use Rattle.wl_bound.specs.Decides.{comes_late, decides_twice, first_to_decide_twice, is_there};
ghost use Rattle.wl_bound.specs.OneBuses.{the_bus};
ghost use Rattle.wl_bound.specs.Rooms.{plain_bus};

use crate::bus::OneBus;
use crate::family::Family;

impl<'f> OneBus<'f> {
    /// True if a bit of node `k` is there at each sample of node `i`, twelve bits after the last edge.
    fn is_there(&self, i: u8, k: u8) -> bool
        requires one { i < (the_bus self.now).nodes }
        requires other { k < (the_bus self.now).nodes }
        ensures { result ≡ is_there (the_bus self.now) i k }
    {
        let late = self.said_early(k, i) + 12 * self.drift(k, i);
        let round = self.delay(i, k) + self.delay(k, i);
        round + late <= self.sample(i)
    }

    /// True if a bit of another node may come too late to node `i`, so that it may decide a second time.
    fn decides_twice(&self, i: u8) -> bool
        requires node { i < (the_bus self.now).nodes }
        ensures { result ≡ decides_twice (the_bus self.now) i }
    {
        let mut late = false;
        for k in 0..self.nodes() {
            late = late || k != i && !self.is_there(i, k);
        }
        late
    }

    /// Returns the first node that may decide a second time.
    fn first_to_decide_twice(&self) -> Option<u8>
        ensures first { result ≡ first_place (decides_twice (the_bus self.now)) (the_bus self.now).nodes }
        ensures inside { IfSome result (λ i. i < (the_bus self.now).nodes) }
    {
        let mut first = None;
        for i in 0..self.nodes() {
            if first.is_none() && self.decides_twice(i) {
                first = Some(i);
            }
        }
        first
    }
}

impl Family {
    /// Returns the first node that may decide a second time to begin a frame, if there is one: after twelve bits' drift a bit of another node
    /// may not be there at its sample.
    pub fn first_to_decide_twice(&self) -> Option<u8>
        ensures first { result ≡ first_to_decide_twice self.now }
        ensures inside { IfSome result (λ i. i < (plain_bus self.now).nodes) }
    {
        let plain = self.plain_bus();
        let chases = plain.all_chases();
        let bus = OneBus {
            family: plain.family,
            setting: plain.setting,
            terms: plain.terms,
            chases: Some(&chases),
        };
        bus.first_to_decide_twice()
    }
}
