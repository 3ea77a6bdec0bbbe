//! Members of a sweep of spikes, side by side.
ghost use Rattle.std.specs.Prelude.{◌≡◌, ◌-◌, ◌^◌, ◌<◌, ◌≤◌, IfOk};
ghost use Rattle.wl_sweep.specs.Tallies.{part_start};
ghost use Rattle.wl_spikes.specs.Tallies.{AreSpikeTallies, IsSpikeTally, aftermaths_from, all_aftermaths, spike_tally};

use crate::spike::Spikes;
use crate::tally::SpikeTally;
use std::alloc::{AllocError, Global};
use std::thread::{self, Threads};
use std::time::Clock;
use wl_sweep::{SweepProgress, Workers};

/// The most members between two looks at the clock. With half of it threads are begun and joined twice as often; with the double the lines
/// of a slow sweep come half as often.
const BATCH: u32 = 512;

/// Returns the most members that are cut among threads at once: all, unless lines of progress come between.
fn batch_of(reports: bool) -> u32
    ensures { 1 ≤ result }
{
    if reports { BATCH } else { u32::MAX }
}

/// Returns the first member of part `w` of those from one on up to another, which are cut into parts of a size.
fn part_start(from: u32, to: u32, size: u32, w: usize) -> u32
    ensures { result ≡ part_start from to size w }
{
    let before = u64::from(size).saturating_mul(w as u64);
    u64::from(from).saturating_add(before).min(u64::from(to)) as u32
}

impl Spikes {
    /// Returns the tally of the members from one on, up to another.
    fn part(&self, alloc: Global, from: u32, to: u32) -> Result<SpikeTally, AllocError>
        requires { from ≤ to }
        ensures { IfOk result (λ tally. tally ≡ spike_tally (aftermaths_from self.now from (to - from))) }
    {
        let mut tally = SpikeTally::new();
        for n in from..to {
            let found = self.aftermath(alloc, n)?;
            tally = tally.then(SpikeTally::of(found));
        }
        Ok(tally)
    }

    /// Returns the tallies of the parts of some members, each by a thread of its own.
    fn parts<R: Threads + Sync>(
        &self,
        rt: &R,
        alloc: Global,
        from: u32,
        to: u32,
        size: u32,
        workers: u8,
    ) -> Result<Vec<Result<SpikeTally, AllocError>>, AllocError>
        requires { from ≤ to }
        ensures { IfOk result (λ parts. AreSpikeTallies self.now from to size workers parts.items) }
    {
        thread::map_indices(
            rt,
            alloc,
            usize::from(workers),
            &|w: usize| -> Result<SpikeTally, AllocError>
                requires { (from ≤ to) × (w < 2 ^ 8) }
                ensures { IsSpikeTally self.entry.now from to size w result }
            {
                self.part(
                    alloc,
                    part_start(from, to, size, w),
                    part_start(from, to, size, w + 1),
                )
            },
        )
    }

    /// Returns the tally of the members from one on, up to another, by this many threads.
    fn batch<R: Threads + Sync>(
        &self,
        rt: &R,
        alloc: Global,
        from: u32,
        to: u32,
        workers: u8,
    ) -> Result<SpikeTally, AllocError>
        requires { from ≤ to }
        ensures { IfOk result (λ tally. tally ≡ spike_tally (aftermaths_from self.now from (to - from))) }
    {
        if workers < 2 || to - from < 2 {
            return self.part(alloc, from, to);
        }
        let size = (to - from).div_ceil(u32::from(workers));
        let parts = self.parts(rt, alloc, from, to, size, workers)?;
        let mut tally = SpikeTally::new();
        for w in 0..parts.len() {
            match &parts[w] {
                Ok(part) => tally = tally.then(*part),
                Err(_) => return Err(AllocError),
            }
        }
        Ok(tally)
    }

    /// Returns the tally of all members, by this many threads. If that is asked for, lines on standard error say how many members are done
    /// and how many of these are clean or heal; no clause speaks of them.
    pub(crate) fn tally<R: Threads + Sync + Eprint + Clock>(
        &self,
        rt: &R,
        alloc: Global,
        workers: Workers,
    ) -> Result<SpikeTally, AllocError>
        ensures { IfOk result (λ tally. tally ≡ spike_tally (all_aftermaths self.now)) }
    {
        let mut progress = if workers.progress {
            SweepProgress::begin(rt, 1)
        } else {
            None
        };
        if let Some(progress) = &mut progress {
            progress.next_row();
        }
        let mut tally = SpikeTally::new();
        let count = self.count();
        let mut done = 0;
        let batch = batch_of(progress.is_some());
        while done < count {
            let next = done.saturating_add(batch).min(count);
            tally = tally.then(self.batch(rt, alloc, done, next, workers.count)?);
            done = next;
            if let Some(progress) = &mut progress {
                progress.report(rt, done, count, tally.sound);
            }
        }
        Ok(tally)
    }
}
