//! The times of frames on a bus, wherever within its tolerance each clock lies.
ghost use Rattle.std.specs.Prelude.{◌≡◌, ◌+◌, ◌-◌, ◌*◌, ◌<◌, ◌≤◌};
ghost use Rattle.wl_segments.specs.Lengths.{bit_quanta, sample_at};
ghost use Rattle.wl_bound.specs.BusTimes.{following_time, greatest_bit, greatest_delay, greatest_lag, greatest_lead, greatest_sample, greatest_shift, greatest_wake, lag_time, times_of, way_time};
ghost use Rattle.wl_bound.specs.Limits.{delay_limit, drift_limit, fast_limit, trip_limit};
ghost use Rattle.wl_bound.specs.OneBuses.{the_bus};
ghost use Rattle.wl_bound.specs.Rooms.{plain_bus};
ghost use Rattle.wl_bound.specs.Terms.{greatest, sends_but};

use crate::bus::OneBus;
use crate::family::Family;

/// The times of frames on a bus, in millionths of a tick.
#[derive(Clone, Copy, Debug, PartialEq, Eq)]
pub struct BusTimes {
    /// The longest bit of any node.
    pub bit: u128,
    /// The longest time from the beginning of a bit to its sample.
    pub sample: u128,
    /// What a frame takes beyond its bits, from its winner to the next one.
    pub shift: u128,
    /// Less than this before a frame's beginning a node may have decided not to take part in it.
    pub lead: u128,
    /// The longest PHASE_SEG2.
    pub wake: u128,
}

impl<'f> OneBus<'f> {
    /// Returns the longest time that node `i` takes for so many quanta.
    fn bit_of(&self, i: u8) -> u128
        requires { i < (the_bus self.now).nodes }
        ensures value { result ≡ bit_quanta ((the_bus self.now).lengths i) * (the_bus self.now).longest i }
        ensures most { result < drift_limit }
    {
        self.segments(i).bit_quanta() as u128 * self.longest(i)
    }

    /// Returns the longest bit of any node.
    fn longest_bit(&self) -> u128
        ensures value { result ≡ greatest_bit (the_bus self.now) }
        ensures most { result < drift_limit }
    {
        let mut longest = 0;
        for i in 0..self.nodes() {
            longest = longest.max(self.bit_of(i));
        }
        longest
    }

    /// Returns the longest time from place 0 of node `i` to its sample.
    fn sample_of(&self, i: u8) -> u128
        requires { i < (the_bus self.now).nodes }
        ensures value { result ≡ sample_at ((the_bus self.now).lengths i) * (the_bus self.now).longest i }
        ensures most { result < drift_limit }
    {
        self.segments(i).sample_at() as u128 * self.longest(i)
    }

    /// Returns the longest of any node.
    fn longest_sample(&self) -> u128
        ensures value { result ≡ greatest_sample (the_bus self.now) }
        ensures most { result < drift_limit }
    {
        let mut longest = 0;
        for i in 0..self.nodes() {
            longest = longest.max(self.sample_of(i));
        }
        longest
    }

    /// Returns how long after its own a bit of node `i` may reach node `k`, over the edge of node `a`.
    fn following_time(&self, k: u8, i: u8, a: u8) -> u128
        requires one { k < (the_bus self.now).nodes }
        requires other { i < (the_bus self.now).nodes }
        requires edge { a < (the_bus self.now).nodes }
        ensures value { result ≡ following_time (the_bus self.now) k i a }
        ensures most { result < trip_limit }
    {
        if a == i {
            return self.longest(k) + self.tick();
        }
        let comes = self.delay(a, i) + self.delay(i, k) + self.longest(k) + self.tick();
        comes.saturating_sub(self.delay(a, k))
    }

    /// Returns the most of this over the senders.
    fn longest_following(&self, k: u8, i: u8) -> u128
        requires one { k < (the_bus self.now).nodes }
        requires other { i < (the_bus self.now).nodes }
        ensures value { result ≡ greatest (the_bus self.now).nodes (sends_but (the_bus self.now) k)
            (following_time (the_bus self.now) k i) }
        ensures most { result < trip_limit }
    {
        let mut longest = 0;
        for a in 0..self.nodes() {
            if self.sends(a) && a != k {
                longest = longest.max(self.following_time(k, i, a));
            }
        }
        longest
    }

    /// Returns how long after its own a bit of node `i` may reach node `k`.
    fn way_time(&self, k: u8, i: u8) -> u128
        requires one { k < (the_bus self.now).nodes }
        requires other { i < (the_bus self.now).nodes }
        ensures value { result ≡ way_time (the_bus self.now) k i }
        ensures most { result < trip_limit }
    {
        let back = if self.sends(k) {
            self.delay(k, i) + self.delay(i, k)
        } else {
            0
        };
        back.max(self.longest_following(k, i))
    }

    /// Returns how much later than the bit of node `k` that of another node may begin.
    fn greatest_lag(&self, k: u8) -> u128
        requires { k < (the_bus self.now).nodes }
        ensures value { result ≡ greatest_lag (the_bus self.now) k }
        ensures most { result < trip_limit }
    {
        let mut lag = 0;
        for i in 0..self.nodes() {
            if i != k {
                let later = self.way_time(k, i).saturating_sub(self.delay(i, k));
                lag = lag.max(later);
            }
        }
        lag
    }

    /// Returns the longest jump of node `k`.
    fn longest_jump(&self, k: u8) -> u128
        requires { k < (the_bus self.now).nodes }
        ensures value { result ≡ ((the_bus self.now).lengths k).sjw * (the_bus self.now).longest k }
        ensures most { result < drift_limit }
    {
        self.segments(k).sjw() as u128 * self.longest(k)
    }

    /// Returns what a frame takes beyond its bits.
    fn greatest_shift(&self) -> u128
        ensures value { result ≡ greatest_shift (the_bus self.now) }
        ensures most { result < drift_limit }
    {
        let mut shift = 0;
        for k in 0..self.nodes() {
            if self.sends(k) {
                let moved = self.greatest_lag(k).max(self.longest_jump(k));
                shift = shift.max(moved);
            }
        }
        shift
    }

    /// Returns the longest way of a level from node `i` to another one.
    fn greatest_delay(&self, i: u8) -> u128
        requires { i < (the_bus self.now).nodes }
        ensures value { result ≡ greatest_delay (the_bus self.now) i }
        ensures most { result < delay_limit }
    {
        let mut delay = 0;
        for k in 0..self.nodes() {
            if k != i {
                delay = delay.max(self.delay(i, k));
            }
        }
        delay
    }

    /// Returns a quantum less than a bit of node `i`, and the way.
    fn lead_of(&self, i: u8) -> u128
        requires { i < (the_bus self.now).nodes }
        ensures value { result ≡ (bit_quanta ((the_bus self.now).lengths i) - 1) * (the_bus self.now).longest i
            + greatest_delay (the_bus self.now) i }
        ensures most { result < drift_limit }
    {
        let quanta = self.segments(i).bit_quanta() as u128 - 1;
        quanta * self.longest(i) + self.greatest_delay(i)
    }

    /// Returns how long before a frame's beginning a node may have decided not to take part in it: less than this.
    fn greatest_lead(&self) -> u128
        ensures value { result ≡ greatest_lead (the_bus self.now) }
        ensures most { result ≤ drift_limit }
    {
        let mut lead = 0;
        for i in 0..self.nodes() {
            lead = lead.max(self.lead_of(i));
        }
        lead + 1
    }

    /// Returns the longest PHASE_SEG2 of node `i`.
    fn wake_of(&self, i: u8) -> u128
        requires { i < (the_bus self.now).nodes }
        ensures value { result ≡ ((the_bus self.now).lengths i).ps2 * (the_bus self.now).longest i }
        ensures most { result < drift_limit }
    {
        self.segments(i).ps2() as u128 * self.longest(i)
    }

    /// Returns the longest PHASE_SEG2.
    fn greatest_wake(&self) -> u128
        ensures value { result ≡ greatest_wake (the_bus self.now) }
        ensures most { result < drift_limit }
    {
        let mut wake = 0;
        for i in 0..self.nodes() {
            wake = wake.max(self.wake_of(i));
        }
        wake
    }
}

impl Family {
    /// Returns the times of frames on the bus, wherever within its tolerance each clock lies.
    pub fn times(&self) -> BusTimes
        ensures value { result ≡ times_of (plain_bus self.now) }
        ensures bit { result.bit < drift_limit }
        ensures sample { result.sample < drift_limit }
        ensures shift { result.shift < drift_limit }
        ensures lead { result.lead ≤ drift_limit }
        ensures wake { result.wake < drift_limit }
    {
        let bus = self.plain_bus();
        BusTimes {
            bit: bus.longest_bit(),
            sample: bus.longest_sample(),
            shift: bus.greatest_shift(),
            lead: bus.greatest_lead(),
            wake: bus.greatest_wake(),
        }
    }

    /// Returns the shortest quantum of node `i`, in millionths of a tick.
    #[tactic(auto, unfolding(crate::specs::Families::shortest_in))]
    pub fn shortest_quantum(&self, i: u8) -> u128
        requires { i < (plain_bus self.now).nodes }
        ensures value { result ≡ (plain_bus self.now).shortest i }
        ensures most { result < fast_limit }
    {
        self.member(i).oscillator.shortest()
    }
}
