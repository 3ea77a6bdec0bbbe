//! What a bus lacks if it has no room.
ghost use Rattle.std.specs.Prelude.{◌≡◌, ◌<◌, IfSome};
ghost use Rattle.wl_level.specs.Places.{first_place};
ghost use Rattle.wl_bound.specs.Lacks.{falls_short, first_lack, lack_of, lack_of_node, pair_lack, room_left, room_right};
ghost use Rattle.wl_bound.specs.OneBuses.{the_bus};
ghost use Rattle.wl_bound.specs.Rooms.{falls_behind, is_crowded, lacks_room};

use crate::bus::OneBus;
use crate::condition::Sides;
use crate::family::Family;
use crate::room::LONGEST_SAID;

/// What of the room lacks.
#[derive(Clone, Copy, Debug, PartialEq, Eq)]
pub enum Shortage {
    /// The node's own bit isn't back by its sample.
    OwnBit,
    /// The node doesn't catch up with the other one: no edge brings it nearer.
    CatchingUp,
    /// Ten bits of the other node's drift don't.
    DriftInJump,
    /// A bit of the other node isn't there by the node's sample.
    WayToSample,
    /// Twelve bits after an edge the other node's next bit comes before the node's sample: too soon to rest after a frame.
    Rest,
}

/// What of the room lacks for a pair of nodes.
#[derive(Clone, Copy, Debug, PartialEq, Eq)]
pub struct Lack {
    /// Which test of the room fails.
    pub shortage: Shortage,
    /// The node that has no room.
    pub node: u8,
    /// The other node; the same one if it is its own bit.
    pub other: u8,
    /// What takes time and the time that there is, in millionths of a tick. What gathers counts up to 2^100, what an edge
    /// leaves up to 2^99.
    pub sides: Sides,
}

/// True if a test fails.
fn falls_short(lack: &Lack) -> bool
    ensures { result ≡ falls_short lack.now }
{
    !(lack.sides.left <= lack.sides.right)
}

impl<'f> OneBus<'f> {
    /// Returns what takes time in a test of the room.
    fn room_left(&self, shortage: Shortage, i: u8, k: u8) -> u128
        requires one { i < (the_bus self.now).nodes }
        requires other { k < (the_bus self.now).nodes }
        ensures { result ≡ room_left (the_bus self.now) shortage i k }
    {
        match shortage {
            Shortage::OwnBit => self.delay(i, i),
            Shortage::CatchingUp => self.distance(i, k),
            Shortage::DriftInJump => 10 * self.drift(k, i),
            Shortage::WayToSample => {
                let round = self.delay(i, k) + self.delay(k, i);
                round + self.said_early(k, i) + 10 * self.drift(k, i)
            }
            Shortage::Rest => {
                let drift = 12 * self.drift(i, k);
                self.said_early(i, k) + drift + self.tick()
            }
        }
    }

    /// Returns the time that there is in a test of the room.
    fn room_right(&self, shortage: Shortage, i: u8, k: u8) -> u128
        requires one { i < (the_bus self.now).nodes }
        requires other { k < (the_bus self.now).nodes }
        ensures { result ≡ room_right (the_bus self.now) shortage i k }
    {
        match shortage {
            Shortage::OwnBit | Shortage::WayToSample => self.sample(i),
            Shortage::CatchingUp => {
                let edges = self.least_chase(i) + 1;
                let gained = edges.saturating_mul(self.gain(i, k));
                gained.min(LONGEST_SAID)
            }
            Shortage::DriftInJump => self.jump(i),
            Shortage::Rest => self.phase_two(i),
        }
    }

    /// Returns a test of the room with its sides.
    fn lack_of(&self, shortage: Shortage, i: u8, k: u8) -> Lack
        requires one { i < (the_bus self.now).nodes }
        requires other { k < (the_bus self.now).nodes }
        ensures { result ≡ lack_of (the_bus self.now) shortage i k }
    {
        Lack {
            shortage,
            node: i,
            other: k,
            sides: Sides {
                left: self.room_left(shortage, i, k),
                right: self.room_right(shortage, i, k),
            },
        }
    }

    /// Returns the first test that fails for two nodes without room.
    fn pair_lack(&self, i: u8, k: u8) -> Lack
        requires one { i < (the_bus self.now).nodes }
        requires other { k < (the_bus self.now).nodes }
        ensures { result ≡ pair_lack (the_bus self.now) i k }
    {
        let drift = self.lack_of(Shortage::DriftInJump, i, k);
        if falls_short(&drift) {
            return drift;
        }
        let way = self.lack_of(Shortage::WayToSample, i, k);
        if falls_short(&way) {
            return way;
        }
        self.lack_of(Shortage::Rest, i, k)
    }

    /// Returns the first sender with which node `i` doesn't catch up.
    fn first_ahead(&self, i: u8) -> Option<u8>
        requires { i < (the_bus self.now).nodes }
        ensures first { result ≡ first_place (falls_behind (the_bus self.now) i) (the_bus self.now).nodes }
        ensures inside { IfSome result (λ w. w < (the_bus self.now).nodes) }
    {
        let mut first = None;
        for w in 0..self.nodes() {
            if first.is_none() && self.falls_behind(i, w) {
                first = Some(w);
            }
        }
        first
    }

    /// Returns the first node that has no room with node `i`.
    fn first_crowding(&self, i: u8) -> Option<u8>
        requires { i < (the_bus self.now).nodes }
        ensures first { result ≡ first_place (is_crowded (the_bus self.now) i) (the_bus self.now).nodes }
        ensures inside { IfSome result (λ k. k < (the_bus self.now).nodes) }
    {
        let mut first = None;
        for k in 0..self.nodes() {
            if first.is_none() && self.is_crowded(i, k) {
                first = Some(k);
            }
        }
        first
    }

    /// Returns the first node that lacks room.
    fn first_lacking(&self) -> Option<u8>
        ensures first { result ≡ first_place (lacks_room (the_bus self.now)) (the_bus self.now).nodes }
        ensures inside { IfSome result (λ i. i < (the_bus self.now).nodes) }
    {
        let mut first = None;
        for i in 0..self.nodes() {
            if first.is_none() && self.lacks_room(i) {
                first = Some(i);
            }
        }
        first
    }

    /// Returns what node `i` lacks.
    fn lack_of_node(&self, i: u8) -> Option<Lack>
        requires { i < (the_bus self.now).nodes }
        ensures { result ≡ lack_of_node (the_bus self.now) i }
    {
        let own = self.lack_of(Shortage::OwnBit, i, i);
        if falls_short(&own) {
            return Some(own);
        }
        if let Some(w) = self.first_ahead(i) {
            return Some(self.lack_of(Shortage::CatchingUp, i, w));
        }
        match self.first_crowding(i) {
            Some(k) => Some(self.pair_lack(i, k)),
            None => None,
        }
    }
}

impl Family {
    /// Returns what the bus of a family lacks of the room for acknowledgements of any senders and for rest after each frame: the first test
    /// that fails, by its first node, which has no room. `None` if no node lacks any.
    pub fn first_lack(&self) -> Option<Lack>
        ensures { result ≡ first_lack self.now }
    {
        let plain = self.plain_bus();
        let chases = plain.all_chases();
        let bus = OneBus {
            family: plain.family,
            setting: plain.setting,
            terms: plain.terms,
            chases: Some(&chases),
        };
        match bus.first_lacking() {
            Some(i) => bus.lack_of_node(i),
            None => None,
        }
    }
}
