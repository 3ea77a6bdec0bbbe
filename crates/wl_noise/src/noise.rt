//! Bursts of noise, by the words of the generator SplitMix64.
ghost use Rattle.std.specs.Prelude.{◌≡◌, ◌≤◌, ◌<◌, ◌*◌, All, IfOk, IfSome};
ghost use Rattle.wl_noise.specs.Noise.{IsBurst, IsNoise, bursts, gap_by, mean_gap};
ghost use Rattle.rand_xoshiro.specs.SplitMix64.{mix_u64};

use rand_core::SeedableRng;
use rand_core::utils::NextWord;
use rand_xoshiro::SplitMix64;
use std::alloc::{AllocError, Global};

/// The femtoseconds of a second.
pub const SECOND: u64 = 1_000_000_000_000_000;

/// The greatest number of ticks that noise is about: 2^50.
pub const LARGEST_TICK: u64 = 1 << 50;

/// How often bursts of noise come, how long each lasts, and at how many places they are.
#[derive(Clone, Copy, Debug, PartialEq, Eq)]
pub struct Noise {
    /// The number that the generator begins with.
    pub seed: u64,
    /// The mean number of ticks from the end of a burst to the start of the next, from 1 on.
    pub gap: u64,
    /// The ticks that a burst lasts, from 1 on.
    pub length: u64,
    /// The number of places, from 1 on.
    pub places: u64,
}

/// A burst of noise: a dominant interval at a place.
#[derive(Clone, Copy, Debug, PartialEq, Eq)]
pub struct Burst {
    /// The tick from which on it is dominant.
    pub from: u64,
    /// The tick at which it ends.
    pub to: u64,
    /// The number of its place, from 0 on.
    pub place: u64,
}

/// Returns the mean number of ticks between bursts, if `per_second` of them begin in a second and each lasts `length` ticks; `tick` is the length
/// of a tick in femtoseconds. The ticks from one beginning to the next are rounded down. `None` if there is no tick between bursts, or a number
/// is 0.
pub fn mean_gap(tick: u64, per_second: u64, length: u64) -> Option<u64>
    ensures gap { result ≡ mean_gap tick per_second length }
    ensures some { IfSome result (λ gap. 0 < gap) }
    ensures most { IfSome result (λ gap. gap ≤ LARGEST_TICK) }
{
    let ticks = tick as u128 * per_second as u128;
    if ticks == 0 || length == 0 {
        return None;
    }
    let period = SECOND as u128 / ticks;
    if (length as u128) < period {
        Some((period - length as u128) as u64)
    } else {
        None
    }
}

impl Noise {
    /// Returns the ticks between two bursts, by a word of the generator.
    fn gap_by(self, word: u64) -> u64
        requires { IsNoise self }
        ensures gap { result ≡ gap_by self word }
        ensures most { result ≤ 2 * LARGEST_TICK }
    {
        1 + word % (2 * self.gap - 1)
    }
}

/// Returns the bursts among the first `most` that begin before the tick `end`. Each lasts its whole length, or until `end`.
pub fn bursts(alloc: Global, noise: Noise, end: u64, most: usize) -> Result<Vec<Burst>, AllocError>
    requires noise { IsNoise noise }
    requires end { end ≤ LARGEST_TICK }
    ensures bursts { IfOk result (λ all. all.items ≡ bursts noise end most) }
    ensures each { IfOk result (λ all. All (IsBurst noise end) all.items) }
{
    let mut words = SplitMix64::seed_from_u64(noise.seed);
    let mut all = Vec::new(alloc);
    let mut ended = 0;
    for k in 0..most {
        let from = ended + noise.gap_by(words.next_word());
        if end <= from {
            return Ok(all);
        }
        ended = from + noise.length;
        all.push(Burst {
            from,
            to: ended.min(end),
            place: words.next_word() % noise.places,
        })?;
    }
    Ok(all)
}
