//! A sweep: rows of families, and what is said of them.
ghost use Rattle.std.specs.Prelude.{◌≡◌, ◌∷◌, [], true, IfOk, OnOk, string_bytes};
ghost use Rattle.std.specs.List.{range_with_len};
ghost use Rattle.wl_report.specs.Lines.{GrowsBy};
ghost use Rattle.wl_sweep.specs.Family.{member_count};
ghost use Rattle.wl_sweep.specs.Rows.{row_count, row_text};
ghost use Rattle.wl_sweep.specs.Tallies.{findings_of, tally_of};
ghost use Rattle.wl_sweep.specs.Sweeps.{all_findings, first_line, is_small, located, member_at, member_in_row, members_in, row_findings, rows_findings, rows_lines, rows_members, sweep_text};

use crate::family::TextFamily;
use crate::options::Options;
use crate::range::{SweptRange, row_count, row_text};
use crate::runs::{RunRange, SweepProgress};
use crate::tally::Tally;
use crate::text::{push_change, push_member, push_members, push_row, push_tally_line};
use std::alloc::{AllocError, Global};
use std::thread::Threads;
use std::time::Clock;
use wl_level::Listed;
use wl_setup::{PlanText, Text};

/// The most rows of a sweep.
pub const MOST_ROWS: u64 = 10_000;

/// What is swept: a text, its ranges, and the options.
#[derive(Drop)]
pub struct Sweep {
    /// The text of the plan as it is.
    pub text: PlanText,
    /// The ranges, each with a value.
    pub ranges: Listed<SweptRange>,
    /// What is varied beside.
    pub options: Options,
}

/// What the rows result in, so far.
#[derive(Clone, Copy, Debug, PartialEq, Eq)]
struct Sum {
    /// The tally of all members that were run.
    tally: Tally,
    /// How many members there are.
    members: u128,
}

/// Returns the most members of a row that are run.
fn most_runs(options: Options) -> u32
    ensures { result ≡ options.runs }
{
    options.runs
}

impl Sweep {
    /// True if there are at most 10,000 rows.
    pub fn is_small(&self) -> bool
        ensures { result ≡ is_small self.now }
    {
        row_count(self.ranges.as_slice()) <= MOST_ROWS
    }

    /// Returns the family of a row.
    pub(crate) fn family(&self, alloc: Global, row: u64) -> Result<TextFamily, AllocError>
        ensures text { IfOk result (λ family. family.text ≡ row_text row self.now.ranges self.now.text) }
        ensures options { IfOk result (λ family. family.options ≡ self.now.options) }
    {
        let text = row_text(alloc, &self.text, self.ranges.as_slice(), row)?;
        TextFamily::new(alloc, text, self.options)
    }

    /// Returns how far the sweep is, if lines of progress are asked for.
    pub(crate) fn progress<R: Clock>(&self, rt: &R, workers: Workers) -> Option<SweepProgress> {
        if workers.progress {
            SweepProgress::begin(rt, row_count(self.ranges.as_slice()))
        } else {
            None
        }
    }

    /// Runs one row, by this many threads, and adds its line if there are ranges.
    fn run_row<R: Threads + Sync + Eprint + Clock>(
        &self,
        rt: &R,
        alloc: Global,
        row: u64,
        workers: u8,
        progress: &mut Option<SweepProgress>,
        text: &mut String,
    ) -> Result<Sum, AllocError>
        ensures tally { IfOk result (λ sum. sum.tally ≡ tally_of (row_findings self.now row)) }
        ensures members { IfOk result (λ sum. sum.members ≡ members_in self.now row) }
        ensures text { OnOk result (GrowsBy text.old text.new (rows_lines self.now (row ∷ []))) }
    {
        let family = self.family(alloc, row)?;
        if let Some(progress) = progress {
            progress.next_row();
        }
        let runs = RunRange {
            from: 0,
            to: family.runs(),
        };
        let tally = family.tally(rt, alloc, runs, workers, progress)?;
        if !self.ranges.is_empty() {
            push_row(text, self.ranges.as_slice(), row, tally)?;
        }
        Ok(Sum {
            tally,
            members: family.count(),
        })
    }

    /// Runs all rows.
    fn run_rows<R: Threads + Sync + Eprint + Clock>(
        &self,
        rt: &R,
        alloc: Global,
        workers: Workers,
        text: &mut String,
    ) -> Result<Sum, AllocError>
        requires { is_small self.now ≡ true }
        ensures tally { IfOk result (λ sum. sum.tally ≡ tally_of (all_findings self.now)) }
        ensures members { IfOk result (λ sum. sum.members
            ≡ rows_members self.now (range_with_len 0 (row_count self.now.ranges))) }
        ensures text { OnOk result (GrowsBy text.old text.new
            (rows_lines self.now (range_with_len 0 (row_count self.now.ranges)))) }
    {
        // That its type keeps this number below 2^32 is wanted by the proof.
        let _ = most_runs(self.options);
        let mut sum = Sum {
            tally: Tally::new(),
            members: 0,
        };
        let mut progress = self.progress(rt, workers);
        for row in 0..row_count(self.ranges.as_slice()) {
            let more = self.run_row(rt, alloc, row, workers.count, &mut progress, text)?;
            sum.tally = sum.tally.then(more.tally);
            sum.members = sum.members.saturating_add(more.members);
        }
        Ok(sum)
    }

    /// Returns the row and the run of a member, by its number.
    fn locate(&self, alloc: Global, number: u64) -> Result<Option<(u64, u32)>, AllocError>
        ensures { IfOk result (λ place. place
            ≡ located self.now (range_with_len 0 (row_count self.now.ranges)) number) }
    {
        let mut left = number;
        for row in 0..row_count(self.ranges.as_slice()) {
            let runs = self.family(alloc, row)?.runs();
            if left < u64::from(runs) {
                return Ok(Some((row, left as u32)));
            }
            left -= u64::from(runs);
        }
        Ok(None)
    }

    /// Adds the line of a member, by its number, if there is one.
    pub(crate) fn push_first(
        &self,
        alloc: Global,
        text: &mut String,
        label: &str,
        number: Option<u64>,
    ) -> Result<(), AllocError>
        ensures { OnOk result (GrowsBy text.old text.new (first_line self.now label.now number)) }
    {
        let number = match number {
            Some(number) => number,
            None => return Ok(()),
        };
        if let Some((row, run)) = self.locate(alloc, number)? {
            let family = self.family(alloc, row)?;
            let finding = family.finding(alloc, run)?;
            write!(text, "{label}: member {number}")?;
            push_member(text, self.ranges.as_slice(), row, &family, run, &finding)?;
        }
        Ok(())
    }

    /// Returns what a member changes, and its plan's text, by the number that the member has in what a sweep says; none if the sweep has no such
    /// member. Refused only out of memory.
    pub fn member(&self, alloc: Global, number: u64) -> Result<Option<(Text, PlanText)>, AllocError>
        ensures { IfOk result (λ member. member ≡ member_at self.now number) }
    {
        match self.locate(alloc, number)? {
            None => Ok(None),
            Some((row, run)) => Ok(Some(self.member_in_row(alloc, row, run)?)),
        }
    }

    /// Returns what a member changes, and its plan's text.
    fn member_in_row(
        &self,
        alloc: Global,
        row: u64,
        run: u32,
    ) -> Result<(Text, PlanText), AllocError>
        ensures { IfOk result (λ member. member ≡ member_in_row self.now (row, run)) }
    {
        let family = self.family(alloc, row)?;
        let mut change = String::new(alloc);
        push_change(&mut change, self.ranges.as_slice(), row, &family, run)?;
        Ok((
            Text::new(alloc, change.as_str())?,
            family.member(alloc, run)?,
        ))
    }

    /// Returns what a sweep says, and its tally, by this many threads.
    ///
    /// For each row it has a line `{range} {value} .. clean in {n} of {n}`, with `, too early in {n}` and `, refused in {n}` if there are
    /// such. One line is for all rows together, and one on how much of the family was run. Then come a line on the first member that isn't
    /// clean, and one on the first that was refused, if there is one. Refused only out of memory.
    pub fn run<R: Threads + Sync + Eprint + Clock>(
        &self,
        rt: &R,
        alloc: Global,
        workers: Workers,
    ) -> Result<(String, Tally), AllocError>
        requires { is_small self.now ≡ true }
        ensures text { IfOk result (λ r. string_bytes r.0 ≡ sweep_text self.now) }
        ensures tally { IfOk result (λ r. r.1 ≡ tally_of (all_findings self.now)) }
    {
        let mut text = String::new(alloc);
        let sum = self.run_rows(rt, alloc, workers, &mut text)?;
        push_tally_line(&mut text, sum.tally)?;
        push_members(&mut text, self.options, sum.tally.runs, sum.members)?;
        self.push_first(alloc, &mut text, "first that isn't", sum.tally.first)?;
        self.push_first(alloc, &mut text, "first refused", sum.tally.first_refused)?;
        Ok((text, sum.tally))
    }
}

/// By how many threads a sweep is run, and whether it says how far it is.
#[derive(Clone, Copy, Debug, PartialEq, Eq)]
pub struct Workers {
    /// The threads; 0 and 1 are the caller's own.
    pub count: u8,
    /// Whether lines of progress go to standard error.
    pub progress: bool,
}
