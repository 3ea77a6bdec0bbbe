//! Samples, kept by runs: samples of one level that are a bit apart. A line at rest is a run for each 255 bits, and the equal bits of a
//! frame that a node takes at once are one. A node that only counts its samples lists no run.

ghost use Rattle.std.specs.Prelude.{◌≡◌, ◌*◌, ◌+◌, ◌<◌, ◌≤◌, ◌++◌, ℕ, [], ◌∷◌, true, false, length, take, min, slice_get, IfOk, OnOk, vec_len, vec_capacity};
ghost use Rattle.wl_node.specs.Limits.{most_run_quanta};
ghost use Rattle.wl_node.specs.Runs.{run_samples, samples_by, samples_from};

use crate::room::more_room;
use std::alloc::{AllocError, Global};
use std::marker::Model;
use wl_level::{Level, Listed};

/// Samples of one level: the first at quantum `from`, and each other one `step` quanta later. A run takes 8 bytes, and at most 255 samples.
#[derive(Clone, Copy, Debug)]
pub(crate) struct Run {
    pub(crate) from: u32,
    pub(crate) step: u16,
    pub(crate) count: u8,
    pub(crate) level: Level,
}

/// The samples that a node lists, each with its quantum, given up by it or copied. Contracts see them as their list.
#[derive(Debug, Drop)]
pub struct SampleList {
    runs: Vec<Run>,
    count: u64,
}

impl Model for SampleList {
    ghost use Rattle.std.specs.Prelude.{◌≡◌, List, ℕ, length};
    ghost use Rattle.wl_level.specs.declared.Level.{Level};
    ghost use Rattle.wl_node.specs.Runs.{samples_by};

    ghost Value = { List (ℕ × Level) };

    ghost view = { λ s. samples_by s.runs.items };

    ghost invariant = { λ s. s.count ≡ length (samples_by s.runs.items) };
}

impl SampleList {
    /// Returns the number of samples.
    pub fn len(&self) -> usize
        ensures { result ≡ length self.now }
    {
        self.count as usize
    }

    /// Returns the samples one by one. Refused only when out of memory.
    pub fn list(&self, alloc: Global) -> Result<Listed<(u64, Level)>, AllocError>
        ensures { IfOk result (λ list. list ≡ self.now) }
    {
        Ok(Listed::from_vec(unrolled(alloc, &self.runs)?))
    }
}

/// Returns the samples of these runs one by one.
fn unrolled(alloc: Global, runs: &[Run]) -> Result<Vec<(u64, Level)>, AllocError>
    ensures { IfOk result (λ list. list.items ≡ samples_by runs.now) }
{
    let mut list = Vec::new(alloc);
    for k in 0..runs.len() {
        unroll(&mut list, runs[k])?;
    }
    Ok(list)
}

/// Returns sample `k` of these runs, if they have more than `k`.
fn sample_at(runs: &[Run], k: usize) -> Option<(u64, Level)>
    ensures { result ≡ slice_get (samples_by runs.now) k }
{
    let mut before = 0;
    for i in 0..runs.len() {
        let run = runs[i];
        let count = run.count as usize;
        if k - before < count {
            let quantum = run.from as u64 + (k - before) as u64 * run.step as u64;
            return Some((quantum, run.level));
        }
        before += count;
    }
    None
}

/// Adds the samples of a run.
fn unroll(list: &mut Vec<(u64, Level)>, run: Run) -> Result<(), AllocError>
    ensures { OnOk result (list.new.items ≡ list.old.items ++ run_samples run) }
{
    for k in 0..run.count as u64 {
        let quantum = run.from as u64 + k * run.step as u64;
        list.push((quantum, run.level))?;
    }
    Ok(())
}

/// The samples that a node keeps, each with its quantum. The node lends them ([`Node::samples`](crate::Node::samples)). Contracts see their
/// list by `samples_of`, and the room for more of them.
#[derive(Drop)]
pub struct Samples {
    /// How many quanta a bit has that nothing moves.
    pub(crate) step: u16,
    /// True if the samples are listed, false if they are only counted.
    pub(crate) keeps: bool,
    pub(crate) runs: Vec<Run>,
    pub(crate) count: u64,
    ghost counted: { keeps ≡ true → count ≡ length (samples_by runs.items) },
    ghost none: { keeps ≡ false → samples_by runs.items ≡ [] },
}

impl Samples {
    ghost use Rattle.wl_node.specs.Samples.{samples_of};

    /// Returns no samples of a node whose bits have this many quanta, with room for some runs. If `keeps` is true, samples are listed, and
    /// otherwise they are only counted.
    pub(crate) fn new(
        alloc: Global,
        step: u16,
        room: usize,
        keeps: bool,
    ) -> Result<Samples, AllocError>
        ensures samples { IfOk result (λ kept. samples_by kept.runs.items ≡ []) }
        ensures none { IfOk result (λ kept. kept.count ≡ 0) }
        ensures keeps { IfOk result (λ kept. kept.keeps ≡ keeps) }
    {
        Ok(Samples {
            step,
            keeps,
            runs: Vec::with_capacity(alloc, room)?,
            count: 0,
        })
    }

    /// Makes room for one more sample. The list grows to four times what it has: so little of it is copied.
    pub(crate) fn prepare(&mut self) -> Result<(), AllocError>
        ensures room { OnOk result (vec_len self.new.runs < vec_capacity self.new.runs) }
        ensures samples { samples_by self.new.runs.items ≡ samples_by self.old.runs.items }
        ensures count { self.new.count ≡ self.old.count }
        ensures keeps { self.new.keeps ≡ self.old.keeps }
    {
        if self.runs.len() == self.runs.capacity() {
            self.runs.reserve(more_room(self.runs.len()))?;
        }
        Ok(())
    }

    /// Makes room for this many runs more, if they are listed.
    pub(crate) fn reserve(&mut self, runs: usize) -> Result<(), AllocError>
        ensures samples { samples_by self.new.runs.items ≡ samples_by self.old.runs.items }
        ensures count { self.new.count ≡ self.old.count }
        ensures keeps { self.new.keeps ≡ self.old.keeps }
    {
        if self.keeps {
            self.runs.reserve(runs)?;
        }
        Ok(())
    }

    /// Adds a sample.
    #[inline(always)]
    pub(crate) fn push(&mut self, quantum: u64, level: Level)
        requires room { vec_len self.old.runs < vec_capacity self.old.runs }
        requires early { quantum < most_run_quanta }
        requires few { self.old.count ≤ quantum }
        ensures samples { self.old.keeps ≡ true
            → samples_by self.new.runs.items ≡ samples_by self.old.runs.items ++ (quantum, level) ∷ [] }
        ensures count { self.new.count ≡ self.old.count + 1 }
        ensures keeps { self.new.keeps ≡ self.old.keeps }
    {
        self.count += 1;
        if self.keeps {
            add(&mut self.runs, quantum, self.step, level);
        }
    }

    /// Adds a run of this many samples: the first at quantum `from`, and each other one `step` quanta later.
    pub(crate) fn push_run(&mut self, from: u64, step: u16, level: Level, bits: u8)
        requires room { vec_len self.old.runs < vec_capacity self.old.runs }
        requires early { from < most_run_quanta }
        requires few { self.old.count ≤ from }
        ensures samples { self.old.keeps ≡ true → samples_by self.new.runs.items
            ≡ samples_by self.old.runs.items ++ samples_from from step level bits }
        ensures count { self.new.count ≡ self.old.count + bits }
        ensures keeps { self.new.keeps ≡ self.old.keeps }
    {
        self.count += bits as u64;
        if self.keeps {
            self.runs.push_reserved(Run {
                from: from as u32,
                step,
                count: bits,
                level,
            });
        }
    }

    /// Keeps this many samples, the first ones.
    pub(crate) fn truncate(&mut self, most: u64)
        ensures samples { self.old.keeps ≡ true
            → samples_by self.new.runs.items ≡ take most (samples_by self.old.runs.items) }
        ensures count { self.new.count ≡ min self.old.count most }
        ensures keeps { self.new.keeps ≡ self.old.keeps }
    {
        if self.count <= most {
            return;
        }
        let count = self.count;
        self.count = most;
        if self.keeps {
            cut(&mut self.runs, count, most);
        }
    }

    /// Sets the number of samples, which are only counted.
    pub(crate) fn recount(&mut self, count: u64)
        requires { self.old.keeps ≡ false }
        ensures runs { self.new.runs ≡ self.old.runs }
        ensures count { self.new.count ≡ count }
        ensures keeps { self.new.keeps ≡ self.old.keeps }
    {
        self.count = count;
    }

    /// Returns the samples that are listed, and leaves nothing.
    pub(crate) fn into_list(self) -> SampleList
        ensures { result ≡ samples_by self.runs.items }
    {
        SampleList {
            count: self.listed(),
            runs: self.runs,
        }
    }

    /// Returns the number of samples that are listed.
    pub fn len(&self) -> usize
        ensures { result ≡ length (samples_of self.now) }
    {
        self.listed() as usize
    }

    /// Returns sample `k` of those that are listed, and nothing if there are no more than `k`. It takes no memory. It looks at the runs up to
    /// the sample, so [`Samples::list`] is quicker for all of them.
    pub fn get(&self, k: usize) -> Option<(u64, Level)>
        ensures { result ≡ slice_get (samples_of self.now) k }
    {
        sample_at(&self.runs, k)
    }

    /// Returns the samples that are listed one by one. Refused only when out of memory.
    pub fn list(&self, alloc: Global) -> Result<Listed<(u64, Level)>, AllocError>
        ensures { IfOk result (λ list. list ≡ samples_of self.now) }
    {
        Ok(Listed::from_vec(unrolled(alloc, &self.runs)?))
    }

    /// Returns a copy of the samples that are listed. Refused only when out of memory.
    pub fn copy(&self, alloc: Global) -> Result<SampleList, AllocError>
        ensures { IfOk result (λ copy. copy ≡ samples_of self.now) }
    {
        Ok(SampleList {
            runs: Vec::from_slice(alloc, &self.runs)?,
            count: self.listed(),
        })
    }

    /// Returns how many samples are listed.
    fn listed(&self) -> u64
        ensures { result ≡ length (samples_by self.now.runs.items) }
    {
        if self.keeps { self.count } else { 0 }
    }
}

impl Run {
    /// True only if such a sample is one more of this run.
    #[inline(always)]
    fn goes_on(&self, quantum: u64, level: Level) -> bool
        ensures level { result ≡ true → self.now.level ≡ level }
        ensures quantum { result ≡ true → quantum ≡ self.now.from + self.now.count * self.now.step }
        ensures few { result ≡ true → self.now.count < 255 }
    {
        self.level.is(level)
            && self.count < u8::MAX
            && self.from as u64 + self.count as u64 * self.step as u64 == quantum
    }
}

/// Adds a sample to the last run, or begins another run.
#[inline(always)]
fn add(runs: &mut Vec<Run>, quantum: u64, step: u16, level: Level)
    requires room { vec_len runs.old < vec_capacity runs.old }
    requires early { quantum < most_run_quanta }
    ensures { samples_by runs.new.items ≡ samples_by runs.old.items ++ (quantum, level) ∷ [] }
{
    let one = Run {
        from: quantum as u32,
        step,
        count: 1,
        level,
    };
    let n = runs.len();
    if 0 < n && runs[n - 1].goes_on(quantum, level) {
        runs[n - 1].count += 1;
        return;
    }
    runs.push_reserved(one);
}

/// Keeps this many samples of `count`, the first ones.
fn cut(runs: &mut Vec<Run>, count: u64, most: u64)
    requires counted { count ≡ length (samples_by runs.old.items) }
    ensures { samples_by runs.new.items ≡ take most (samples_by runs.old.items) }
{
    let mut left = count;
    while most < left {
        let Some(last) = runs.pop() else {
            return;
        };
        if left - most < last.count as u64 {
            runs.push_reserved(Run {
                count: last.count - (left - most) as u8,
                ..last
            });
            return;
        }
        left -= last.count as u64;
    }
}
