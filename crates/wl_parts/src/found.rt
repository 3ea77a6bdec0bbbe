//! What is found of some members of a sweep, and how two findings join.
ghost use Rattle.std.specs.Prelude.{◌≡◌, ◌++◌, IfOk, OnOk, string_bytes};
ghost use Rattle.wl_parts.specs.Lines.{unclean_words, counts_line, clean_words};
ghost use Rattle.wl_parts.specs.Found.{counts_sum, first_of, joined_findings, no_row_counts, nothing, rows_sum, total_of};

use std::alloc::{AllocError, Global};
use wl_level::Listed;

/// How many members of a row are what.
#[derive(Clone, Copy, Debug, PartialEq, Eq)]
pub struct RowCounts {
    /// The members that were run or refused.
    pub runs: u64,
    /// Those that are clean.
    pub clean: u64,
    /// Those that only end too early.
    pub early: u64,
    /// Those that were refused.
    pub refused: u64,
}

/// The first member of a kind.
#[derive(Drop)]
pub struct FirstMember {
    /// Its number in the sweep.
    pub number: u64,
    /// The line that a sweep says of it.
    pub line: Listed<u8>,
}

/// What is found of some members of a sweep.
#[derive(Drop)]
pub struct Findings {
    /// The counts of each row.
    pub rows: Listed<RowCounts>,
    /// The first member that was run and isn't clean.
    pub unclean: Option<FirstMember>,
    /// The first member that was refused.
    pub refused: Option<FirstMember>,
}

impl RowCounts {
    /// Returns the counts of no member.
    pub fn none() -> RowCounts
        ensures { result ≡ no_row_counts }
    {
        RowCounts {
            runs: 0,
            clean: 0,
            early: 0,
            refused: 0,
        }
    }

    /// Adds the line of these counts: how many members are clean.
    pub fn push_line(self, text: &mut String) -> Result<(), AllocError>
        ensures { OnOk result (string_bytes text.new ≡ string_bytes text.old ++ counts_line self) }
    {
        self.push_tally(text)?;
        text.push_str("\n")
    }

    /// Adds how many members are clean.
    fn push_tally(self, text: &mut String) -> Result<(), AllocError>
        ensures { OnOk result (string_bytes text.new ≡ string_bytes text.old ++ clean_words self) }
    {
        let (clean, runs) = (self.clean, self.runs);
        write!(text, "clean in {clean} of {runs}")?;
        push_count(text, "too early", self.early)?;
        push_count(text, "refused", self.refused)?;
        Ok(())
    }

    /// Returns the counts of these members and of others, 2^64 - 1 if there are more.
    pub fn plus(self, other: RowCounts) -> RowCounts
        ensures { result ≡ counts_sum self other }
    {
        RowCounts {
            runs: self.runs.saturating_add(other.runs),
            clean: self.clean.saturating_add(other.clean),
            early: self.early.saturating_add(other.early),
            refused: self.refused.saturating_add(other.refused),
        }
    }
}

/// Adds a count of what isn't clean, if there is such.
fn push_count(text: &mut String, what: &str, count: u64) -> Result<(), AllocError>
    ensures { OnOk result (string_bytes text.new ≡ string_bytes text.old ++ unclean_words what.now count) }
{
    if count == 0 {
        return Ok(());
    }
    write!(text, ", {what} in {count}")
}

/// Returns the counts of all rows together.
pub(crate) fn total_of(rows: &[RowCounts]) -> RowCounts
    ensures { result ≡ total_of rows.now }
{
    let mut total = RowCounts::none();
    for row in rows {
        total = total.plus(*row);
    }
    total
}

/// Adds rows after others.
fn push_rows(rows: &mut Listed<RowCounts>, more: &[RowCounts]) -> Result<(), AllocError>
    ensures { OnOk result (rows.new ≡ rows.old ++ more.now) }
{
    for row in more {
        rows.push(*row)?;
    }
    Ok(())
}

/// Returns the counts of rows and of others, row by row.
fn rows_sum(
    alloc: Global,
    one: &[RowCounts],
    other: &[RowCounts],
) -> Result<Listed<RowCounts>, AllocError>
    ensures { IfOk result (λ rows. rows ≡ rows_sum one.now other.now) }
{
    let mut rows = Listed::new(alloc);
    let common = one.len().min(other.len());
    for i in 0..common {
        rows.push(one[i].plus(other[i]))?;
    }
    push_rows(&mut rows, one.split_at(common).1)?;
    push_rows(&mut rows, other.split_at(common).1)?;
    Ok(rows)
}

/// Returns an equal first member, if there is one.
fn first_again(
    alloc: Global,
    first: &Option<FirstMember>,
) -> Result<Option<FirstMember>, AllocError>
    ensures { IfOk result (λ copy. copy ≡ first.now) }
{
    match first {
        Some(member) => Ok(Some(FirstMember {
            number: member.number,
            line: member.line.clone_in(alloc)?,
        })),
        None => Ok(None),
    }
}

/// Returns of two first members the one with the lesser number.
fn first_of(
    alloc: Global,
    one: &Option<FirstMember>,
    other: &Option<FirstMember>,
) -> Result<Option<FirstMember>, AllocError>
    ensures { IfOk result (λ first. first ≡ first_of one.now other.now) }
{
    match (one, other) {
        (Some(m), Some(n)) => first_again(alloc, if n.number < m.number { other } else { one }),
        (Some(_), None) => first_again(alloc, one),
        (None, _) => first_again(alloc, other),
    }
}

impl Findings {
    /// Returns what no member says.
    pub fn nothing(alloc: Global) -> Findings
        ensures { result ≡ nothing }
    {
        Findings {
            rows: Listed::new(alloc),
            unclean: None,
            refused: None,
        }
    }

    /// Returns what these findings and others say together. Refused only out of memory.
    pub fn join(&self, alloc: Global, other: &Findings) -> Result<Findings, AllocError>
        ensures { IfOk result (λ both. both ≡ joined_findings self.now other.now) }
    {
        Ok(Findings {
            rows: rows_sum(alloc, self.rows.as_slice(), other.rows.as_slice())?,
            unclean: first_of(alloc, &self.unclean, &other.unclean)?,
            refused: first_of(alloc, &self.refused, &other.refused)?,
        })
    }
}
