//! A part of a sweep: what is found of some of its members.
ghost use Rattle.std.specs.Prelude.{◌≡◌, ◌+◌, ◌-◌, ◌*◌, ◌/◌, ◌^◌, ◌<◌, ◌≤◌, ◌++◌, min, true, length, map, Some, IfOk, OnOk, option_map};
ghost use Rattle.std.specs.List.{range_with_len};
ghost use Rattle.wl_parts.specs.Whole.{cut, found_between, part_of, rows_between, slice};
ghost use Rattle.wl_sweep.specs.Family.{capped};
ghost use Rattle.wl_sweep.specs.Parts.{SaysTheSweep, kinds_of, share_named, small_or_zero, whole_of, row_beginnings};
ghost use Rattle.wl_sweep.specs.Rows.{row_count};
ghost use Rattle.wl_sweep.specs.Sweeps.{all_findings, all_rows, first_line, is_small, row_findings, rows_findings, rows_members, text_in};
ghost use Rattle.wl_sweep.specs.Tallies.{counts_of, tally_of};
ghost use Rattle.wl_sweep.specs.Vary.{parted};
ghost use Rattle.wl_sweep.specs.Words.{members_line, row_words};

use crate::family::TextFamily;
use crate::range::row_count;
use crate::runs::{RunRange, SweepProgress};
use crate::sweep::{Sweep, Workers};
use crate::tally::Tally;
use crate::text::{push_members, push_values};
use crate::vary::size_of;
use std::alloc::{AllocError, Global};
use std::thread::Threads;
use std::time::Clock;
use wl_level::Listed;
use wl_parts::{Findings, FirstMember, RowCounts, SweepPart};

/// Which part of a sweep, counted from 1, and how many parts there are.
#[derive(Clone, Copy, Debug, PartialEq, Eq)]
pub struct Share {
    /// Which part.
    pub number: u32,
    /// How many parts there are.
    pub count: u32,
}

/// Returns a number of 32 bits; 0 if there is none.
fn small_or_zero(number: Option<u64>) -> u32
    ensures { result ≡ small_or_zero number }
{
    match number {
        Some(number) => u32::try_from(number).unwrap_or(0),
        None => 0,
    }
}

/// Returns a text before and after its first `/`.
fn parted_at_slash(text: &str) -> Option<(&str, &str)>
    ensures { option_map (λ parts. (parts.0.now, parts.1.now)) result ≡ parted 47 text.now }
{
    text.split_once('/')
}

impl Share {
    /// Returns the share that a word is: `K/N`, with numbers of 32 bits. A number that isn't one of these is 0, and so are both if there is
    /// no `/`.
    pub fn of_word(word: &str) -> Share
        ensures { result ≡ share_named word.now }
    {
        match parted_at_slash(word) {
            Some((number, count)) => Share {
                number: small_or_zero(size_of(number)),
                count: small_or_zero(size_of(count)),
            },
            None => Share {
                number: 0,
                count: 0,
            },
        }
    }
}

/// Numbers of members: from one on, below another.
#[derive(Clone, Copy, Debug, PartialEq, Eq)]
struct Numbers {
    from: u64,
    to: u64,
}

/// How many members a sweep runs, and how many it has.
#[derive(Clone, Copy, Debug, PartialEq, Eq)]
struct Size {
    runs: u64,
    members: u128,
}

/// Returns how many members of `total` come before part `number` + 1 of `count`.
fn cut(total: u64, count: u32, number: u32) -> u64
    requires { number ≤ count }
    ensures value { result ≡ cut total count number }
    ensures most { result ≤ total }
{
    (u128::from(total) * u128::from(number) / u128::from(count.max(1))) as u64
}

/// Returns the runs of a row whose numbers, counted from the row's first, are these.
fn runs_of(runs: u32, numbers: Numbers) -> RunRange
    requires { numbers.from ≤ numbers.to }
    ensures from { result.from ≡ min numbers.from runs }
    ensures to { result.to ≡ min numbers.to runs }
{
    RunRange {
        from: numbers.from.min(u64::from(runs)) as u32,
        to: numbers.to.min(u64::from(runs)) as u32,
    }
}

/// Returns these bytes as a list.
fn listed(alloc: Global, text: &str) -> Result<Listed<u8>, AllocError>
    ensures { IfOk result (λ bytes. bytes ≡ text.now) }
{
    Ok(Listed::from_vec(Vec::from_slice(alloc, text.as_bytes())?))
}

impl Sweep {
    /// Returns how many members the sweep runs, and how many it has.
    fn size(&self, alloc: Global) -> Result<Size, AllocError>
        requires { is_small self.now ≡ true }
        ensures runs { IfOk result (λ size. size.runs ≡ length (all_findings self.now)) }
        ensures members { IfOk result (λ size. size.members ≡ rows_members self.now (all_rows self.now)) }
    {
        let mut size = Size {
            runs: 0,
            members: 0,
        };
        for row in 0..row_count(self.ranges.as_slice()) {
            let family = self.family(alloc, row)?;
            size.runs = size.runs.saturating_add(u64::from(family.runs()));
            size.members = size.members.saturating_add(family.count());
        }
        Ok(size)
    }

    /// Returns how the line of each row begins; none if there are no ranges.
    fn words(&self, alloc: Global) -> Result<Listed<Listed<u8>>, AllocError>
        ensures { IfOk result (λ words. words ≡ row_beginnings self.now.ranges (all_rows self.now)) }
    {
        let mut words = Listed::new(alloc);
        if self.ranges.is_empty() {
            return Ok(words);
        }
        for row in 0..row_count(self.ranges.as_slice()) {
            let mut text = String::new(alloc);
            push_values(&mut text, self.ranges.as_slice(), row)?;
            words.push(listed(alloc, text.as_str())?)?;
        }
        Ok(words)
    }

    /// Returns the line on how much of the family is run.
    fn members(&self, alloc: Global, size: Size) -> Result<Listed<u8>, AllocError>
        ensures { IfOk result (λ line. line ≡ members_line self.now.options size.runs size.members) }
    {
        let mut text = String::new(alloc);
        push_members(&mut text, self.options, size.runs, size.members)?;
        listed(alloc, text.as_str())
    }

    /// Returns the first member of a kind, by its place among the members from a number on.
    fn first_member(
        &self,
        alloc: Global,
        label: &str,
        from: u64,
        place: Option<u64>,
    ) -> Result<Option<FirstMember>, AllocError>
        ensures { IfOk result (λ first. first
            ≡ option_map (λ n. record { number = n; line = first_line self.now label.now (Some n) })
            (option_map (λ n. capped (from + n)) place)) }
    {
        let number = match place {
            Some(place) => from.saturating_add(place),
            None => return Ok(None),
        };
        let mut text = String::new(alloc);
        self.push_first(alloc, &mut text, label, Some(number))?;
        let line = listed(alloc, text.as_str())?;
        Ok(Some(FirstMember { number, line }))
    }

    /// Runs the members with these numbers, adds the counts of each row, and returns the tally of all.
    fn run_numbers<R: Threads + Sync + Eprint + Clock>(
        &self,
        rt: &R,
        alloc: Global,
        numbers: Numbers,
        workers: Workers,
        rows: &mut Listed<RowCounts>,
    ) -> Result<Tally, AllocError>
        requires order { numbers.from ≤ numbers.to }
        requires few { length (all_findings self.now) < 2 ^ 64 }
        ensures rows { OnOk result (rows.new ≡ rows.old ++ rows_between (kinds_of self.now) numbers.from numbers.to
            (map (row_findings self.now) (all_rows self.now))) }
        ensures tally { IfOk result (λ tally. tally
            ≡ tally_of (slice numbers.from numbers.to (all_findings self.now))) }
    {
        let mut left = numbers;
        let mut tally = Tally::new();
        let mut progress = self.progress(rt, workers);
        for row in 0..row_count(self.ranges.as_slice()) {
            let family = self.family(alloc, row)?;
            let runs = runs_of(family.runs(), left);
            if let Some(progress) = &mut progress {
                progress.next_row();
            }
            let more = family.tally(rt, alloc, runs, workers.count, &mut progress)?;
            rows.push(more.counts())?;
            tally = tally.then(more);
            left.from = left.from.saturating_sub(u64::from(family.runs()));
            left.to = left.to.saturating_sub(u64::from(family.runs()));
        }
        Ok(tally)
    }

    /// Returns what is found of the members with these numbers.
    fn found<R: Threads + Sync + Eprint + Clock>(
        &self,
        rt: &R,
        alloc: Global,
        numbers: Numbers,
        workers: Workers,
    ) -> Result<Findings, AllocError>
        requires small { is_small self.now ≡ true }
        requires order { numbers.from ≤ numbers.to }
        requires most { numbers.to ≤ length (all_findings self.now) }
        requires few { length (all_findings self.now) < 2 ^ 64 }
        ensures { IfOk result (λ found. found ≡ found_between (kinds_of self.now) numbers.from numbers.to
            (map (row_findings self.now) (all_rows self.now))) }
    {
        let mut rows = Listed::new(alloc);
        let tally = self.run_numbers(rt, alloc, numbers, workers, &mut rows)?;
        let unclean = self.first_member(alloc, "first that isn't", numbers.from, tally.first)?;
        let refused = self.first_member(alloc, "first refused", numbers.from, tally.first_refused)?;
        Ok(Findings {
            rows,
            unclean,
            refused,
        })
    }

    /// Returns a part of a sweep, by this many threads: what is found of its members, and what names the sweep and is said after all else.
    ///
    /// Part `number` of `count` has the members whose numbers are from `runs * (number - 1) / count` on and below
    /// `runs * number / count`, if the sweep runs `runs` members. Refused only out of memory.
    pub fn part<R: Threads + Sync + Eprint + Clock>(
        &self,
        rt: &R,
        alloc: Global,
        share: Share,
        workers: Workers,
        of: Listed<u8>,
        tail: Listed<u8>,
    ) -> Result<SweepPart, AllocError>
        requires small { is_small self.now ≡ true }
        requires first { 1 ≤ share.number }
        requires last { share.number ≤ share.count }
        ensures { IfOk result (λ part. part
            ≡ part_of (kinds_of self.now) (whole_of self.now of tail) share.count share.number) }
    {
        let size = self.size(alloc)?;
        let numbers = Numbers {
            from: cut(size.runs, share.count, share.number - 1),
            to: cut(size.runs, share.count, share.number),
        };
        Ok(SweepPart {
            of,
            number: u64::from(share.number),
            count: u64::from(share.count),
            words: self.words(alloc)?,
            members: self.members(alloc, size)?,
            tail,
            found: self.found(rt, alloc, numbers, workers)?,
        })
    }
}

/// Law: the parts of a sweep as a whole say what the sweep says, and after it what they say last. The whole is clean exactly if each member is.
pub fn a_whole_says_the_sweep()
    ensures { SaysTheSweep }
{}
