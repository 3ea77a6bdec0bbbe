//! Runs of a family, side by side.
ghost use Rattle.std.specs.Prelude.{◌≡◌, ◌-◌, ◌^◌, ◌<◌, ◌≤◌, IfOk};
ghost use Rattle.wl_sweep.specs.Tallies.{ArePartTallies, IsPartTally, finding_at, findings_from, part_start, tally_of};

use crate::family::TextFamily;
use crate::finding::{Finding, finding_of_text};
use crate::tally::Tally;
use std::alloc::{AllocError, Global};
use std::thread::{self, Threads};
use std::time::{Clock, Duration, Instant};

/// The most runs between two looks at the clock. With half of it threads are begun and joined twice as often; with the double the lines
/// of a slow sweep come half as often.
const BATCH: u32 = 512;

/// How long a sweep takes before its first line of progress, in milliseconds.
const FIRST: u64 = 1000;

/// How long after a line of progress the next one comes, at the earliest, in milliseconds.
const PAUSE: u64 = 200;

/// The progress of a sweep: how far it is, for lines on standard error. No clause speaks of it.
#[derive(Clone, Copy, Debug)]
pub struct SweepProgress {
    /// The row, counted from 1.
    row: u64,
    /// How many rows there are.
    rows: u64,
    /// When the sweep began.
    begun: Instant,
    /// How long after that the next line may come.
    next: Duration,
}

impl SweepProgress {
    /// Begins to report on this many rows, if there is a clock.
    pub fn begin<R: Clock>(rt: &R, rows: u64) -> Option<SweepProgress> {
        let begun = Instant::now(rt).ok()?;
        Some(SweepProgress {
            row: 0,
            rows,
            begun,
            next: Duration::from_millis(FIRST),
        })
    }

    /// Goes on to the next row.
    pub fn next_row(&mut self) {
        self.row = self.row.saturating_add(1);
    }

    /// Writes a line to standard error if one is due; one that can't be written is left out.
    pub fn report<R: Eprint + Clock>(&mut self, rt: &R, done: u32, runs: u32, clean: u64) {
        let Ok(taken) = self.begun.elapsed(rt) else {
            return;
        };
        if taken < self.next {
            return;
        }
        self.next = taken.saturating_add(Duration::from_millis(PAUSE));
        let (row, rows, seconds) = (self.row, self.rows, taken.as_secs());
        let _ = eprintln!(rt;
            "progress: row {row} of {rows}, {done} of {runs} runs, {clean} clean, {seconds} s"
        );
    }
}

/// Runs of a family: from one on, up to another.
#[derive(Clone, Copy, Debug, PartialEq, Eq)]
pub(crate) struct RunRange {
    /// The first run.
    pub(crate) from: u32,
    /// The run after the last one.
    pub(crate) to: u32,
}

/// Returns the most runs that are cut among threads at once: all, unless lines of progress come between.
fn batch_of(reports: bool) -> u32
    ensures { 1 ≤ result }
{
    if reports { BATCH } else { u32::MAX }
}

/// Returns the first run of part `w` of those from one on up to another, which are cut into parts of a size.
fn part_start(from: u32, to: u32, size: u32, w: usize) -> u32
    ensures { result ≡ part_start from to size w }
{
    let before = u64::from(size).saturating_mul(w as u64);
    u64::from(from).saturating_add(before).min(u64::from(to)) as u32
}

impl TextFamily {
    /// Returns what is found of the member that a run is of.
    pub(crate) fn finding(&self, alloc: Global, run: u32) -> Result<Finding, AllocError>
        ensures { IfOk result (λ found. found ≡ finding_at self.now.options self.now.text run) }
    {
        let text = self.member(alloc, run)?;
        finding_of_text(alloc, &text)
    }

    /// Returns the tally of the runs from one on, up to another.
    fn part(&self, alloc: Global, from: u32, to: u32) -> Result<Tally, AllocError>
        requires { from ≤ to }
        ensures { IfOk result (λ tally. tally
            ≡ tally_of (findings_from self.now.options self.now.text from (to - from))) }
    {
        let mut tally = Tally::new();
        for run in from..to {
            let finding = self.finding(alloc, run)?;
            tally = tally.then(Tally::of(&finding));
        }
        Ok(tally)
    }

    /// Returns the tallies of the parts of some runs, each by a thread of its own.
    fn parts<R: Threads + Sync>(
        &self,
        rt: &R,
        alloc: Global,
        from: u32,
        to: u32,
        size: u32,
        workers: u8,
    ) -> Result<Vec<Result<Tally, AllocError>>, AllocError>
        requires { from ≤ to }
        ensures { IfOk result (λ parts.
            ArePartTallies self.now.options self.now.text from to size workers parts.items) }
    {
        thread::map_indices(
            rt,
            alloc,
            usize::from(workers),
            &|w: usize| -> Result<Tally, AllocError>
                requires { (from ≤ to) × (w < 2 ^ 8) }
                ensures { IsPartTally self.entry.now.options self.entry.now.text from to size w result }
            {
                self.part(
                    alloc,
                    part_start(from, to, size, w),
                    part_start(from, to, size, w + 1),
                )
            },
        )
    }

    /// Returns the tally of the runs from one on, up to another, by this many threads.
    fn batch<R: Threads + Sync>(
        &self,
        rt: &R,
        alloc: Global,
        from: u32,
        to: u32,
        workers: u8,
    ) -> Result<Tally, AllocError>
        requires { from ≤ to }
        ensures { IfOk result (λ tally. tally
            ≡ tally_of (findings_from self.now.options self.now.text from (to - from))) }
    {
        if workers < 2 || to - from < 2 {
            return self.part(alloc, from, to);
        }
        let size = (to - from).div_ceil(u32::from(workers));
        let parts = self.parts(rt, alloc, from, to, size, workers)?;
        let mut tally = Tally::new();
        for w in 0..parts.len() {
            match &parts[w] {
                Ok(part) => tally = tally.then(*part),
                Err(_) => return Err(AllocError),
            }
        }
        Ok(tally)
    }

    /// Returns the tally of the runs of a text from one on, up to another, by this many threads. If that is asked for, lines on standard
    /// error say how many runs are done and how many of these are clean; no clause speaks of them.
    pub(crate) fn tally<R: Threads + Sync + Eprint + Clock>(
        &self,
        rt: &R,
        alloc: Global,
        runs: RunRange,
        workers: u8,
        progress: &mut Option<SweepProgress>,
    ) -> Result<Tally, AllocError>
        requires { runs.from ≤ runs.to }
        ensures { IfOk result (λ tally. tally
            ≡ tally_of (findings_from self.now.options self.now.text runs.from (runs.to - runs.from))) }
    {
        let RunRange { from, to } = runs;
        let mut tally = Tally::new();
        let mut done = from;
        let batch = batch_of(progress.is_some());
        while done < to {
            let next = done.saturating_add(batch).min(to);
            tally = tally.then(self.batch(rt, alloc, done, next, workers)?);
            done = next;
            if let Some(progress) = progress {
                progress.report(rt, done - from, to - from, tally.clean);
            }
        }
        Ok(tally)
    }
}
