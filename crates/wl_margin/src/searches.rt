//! What the searches over a family find, and its text.
ghost use Rattle.std.specs.Prelude.{◌≡◌, ◌++◌, Bool, false, Some, string_bytes, OnOk};
ghost use Rattle.wl_bound.specs.Families.{Buses};
ghost use Rattle.wl_bound.specs.Searches.{IsLongerCable, IsWiderTolerance, cable_ticks};
ghost use Rattle.wl_bound.specs.declared.condition.Senders.TheVariants.{Any, One};
ghost use Rattle.wl_bound.specs.declared.search.Growth.TheVariants.{Longer, Wider};
ghost use Rattle.wl_margin.specs.Margins.{AreSearchResults, IsHeadroom, IsProvedGrowth, TellsHeadroom, change_words, figure_words, results_words, growth_words, help_line, help_words, headroom_words, IsHeadroomFound, unproved};

use std::alloc::AllocError;
use std::fmt;
use wl_bound::{Change, Family, Growth, Senders};

/// The headroom of a cable's length or of a tolerance: how much it may grow; `None` if it may not.
#[derive(Clone, Copy, Debug)]
pub struct Headroom {
    /// For one sender at a time.
    pub one: Option<u32>,
    /// For any senders.
    pub any: Option<u32>,
    /// For any senders, and so that it stays proved; `None` too if it isn't asked.
    pub proved: Option<u32>,
}

impl Headroom {
    /// Returns it without how much may grow so that it stays proved.
    fn unproved(self) -> Headroom
        ensures { result ≡ unproved self }
    {
        Headroom {
            one: self.one,
            any: self.any,
            proved: None,
        }
    }
}

/// What the searches find.
#[derive(Clone, Copy, Debug)]
pub(crate) struct SearchResults {
    /// How much longer the cable may be, in units of length.
    longer: Headroom,
    /// How much wider every tolerance, in parts per million.
    wider: Headroom,
    /// Which change helps most for one sender at a time.
    help_one: Option<Change>,
    /// And for any senders.
    help_any: Option<Change>,
}

/// Returns how much longer the cable may be and have room, up to the number with which the condition holds for any senders.
fn proved_longer(family: &Family, proved: bool, most: Option<u32>) -> Option<u32>
    requires { IsLongerCable family.now Any most }
    ensures { IsProvedGrowth proved family.now (Longer (cable_ticks family.now) family.now.cable.per) most result }
{
    match most {
        Some(most) if proved => family.roomy_growth(family.cable_growth(), most),
        _ => None,
    }
}

/// Returns how much wider every tolerance may be and have room, up to that number.
fn proved_wider(family: &Family, proved: bool, most: Option<u32>) -> Option<u32>
    ensures { IsProvedGrowth proved family.now Wider most result }
{
    match most {
        Some(most) if proved => family.roomy_growth(Growth::Wider, most),
        _ => None,
    }
}

/// Returns how much longer the cable may be.
fn longer(family: &Family, proved: bool) -> Headroom
    ensures one { IsLongerCable family.now One result.one }
    ensures any { IsLongerCable family.now Any result.any }
    ensures proved { IsProvedGrowth proved family.now (Longer (cable_ticks family.now) family.now.cable.per)
        result.any result.proved }
{
    let any = family.longer_cable(Senders::Any);
    Headroom {
        one: family.longer_cable(Senders::One),
        any,
        proved: proved_longer(family, proved, any),
    }
}

/// Returns how much wider every tolerance may be.
fn wider(family: &Family, proved: bool) -> Headroom
    ensures one { IsWiderTolerance family.now One result.one }
    ensures any { IsWiderTolerance family.now Any result.any }
    ensures proved { IsProvedGrowth proved family.now Wider result.any result.proved }
{
    let any = family.wider_tolerance(Senders::Any);
    Headroom {
        one: family.wider_tolerance(Senders::One),
        any,
        proved: proved_wider(family, proved, any),
    }
}

/// Returns how much longer the cable may be, and how much wider every tolerance.
fn headrooms(family: &Family, proved: bool) -> (Headroom, Headroom)
    ensures { IsHeadroom proved family.now result.0 result.1 }
{
    (longer(family, proved), wider(family, proved))
}

/// Returns what the searches over a family find. `proved`: it is proved that it works for any senders.
pub(crate) fn search(family: &Family, proved: bool) -> SearchResults
    ensures { AreSearchResults proved family.now result }
{
    let (longer, wider) = headrooms(family, proved);
    SearchResults {
        longer,
        wider,
        help_one: family.first_help(Senders::One),
        help_any: family.first_help(Senders::Any),
    }
}

impl SearchResults {
    /// Returns how much longer the cable may be and how much wider every tolerance, as `push_headroom` asks it.
    pub(crate) fn headroom(&self) -> (Headroom, Headroom)
        ensures { (proved : Bool) → (f : Buses) → AreSearchResults proved f self.now
            → IsHeadroom false f result.0 result.1 }
    {
        (self.longer.unproved(), self.wider.unproved())
    }
}

/// A figure with its unit, or `none`.
#[derive(Clone, Copy)]
struct Figure<'a> {
    number: Option<u32>,
    unit: &'a str,
}

impl fmt::Display for Figure<'_> {
    ghost use Rattle.std.specs.Prelude.{Some};
    ghost use Rattle.wl_margin.specs.Margins.{figure_words};

    ghost output = { λ f. Some (figure_words f.unit.now f.number) };

    fn fmt<W: fmt::Write>(&self, f: &mut fmt::Formatter<W>) -> fmt::Result {
        match self.number {
            Some(number) => {
                let unit = self.unit;
                write!(f, "{number}{unit}")
            }
            None => f.write_str("none"),
        }
    }
}

/// A figure that stays proved, or no words.
#[derive(Clone, Copy)]
struct ProvedFigure(Option<u32>);

impl fmt::Display for ProvedFigure {
    ghost use Rattle.std.specs.Prelude.{Some};
    ghost use Rattle.wl_margin.specs.Margins.{proved_words};

    ghost output = { λ f. Some (proved_words f.0) };

    fn fmt<W: fmt::Write>(&self, f: &mut fmt::Formatter<W>) -> fmt::Result {
        match self.0 {
            Some(number) => write!(f, ", proved {number}"),
            None => Ok(()),
        }
    }
}

/// Adds the line of what may grow.
fn push_growth(
    text: &mut String,
    what: &str,
    unit: &str,
    headroom: Headroom,
) -> Result<(), AllocError>
    ensures { OnOk result (string_bytes text.new ≡ string_bytes text.old ++ growth_words what.now unit.now headroom) }
{
    let one = Figure {
        number: headroom.one,
        unit,
    };
    let any = Figure {
        number: headroom.any,
        unit,
    };
    let proved = ProvedFigure(headroom.proved);
    writeln!(
        text,
        "{what}: one sender at a time {one}, any senders {any}{proved}"
    )
}

/// Adds the lines of a cable and of tolerances.
fn push_headroom_lines(
    text: &mut String,
    longer: Headroom,
    wider: Headroom,
) -> Result<(), AllocError>
    ensures { OnOk result (string_bytes text.new ≡ string_bytes text.old ++ headroom_words longer wider) }
{
    push_growth(text, "cable", " units longer", longer)?;
    push_growth(text, "tolerance", " ppm wider", wider)
}

/// Returns what a change by a quantum is.
fn change_words(change: Option<Change>) -> &'static str
    ensures { result.now ≡ change_words change }
{
    match change {
        None => "none",
        Some(Change::WiderJump) => "a jump width wider by a quantum",
        Some(Change::NarrowerJump) => "a jump width narrower by a quantum",
        Some(Change::LaterSample) => "a sample point later by a quantum",
        Some(Change::EarlierSample) => "a sample point earlier by a quantum",
    }
}

/// Adds the line of two changes.
fn push_help_line(text: &mut String, one: &str, any: &str) -> Result<(), AllocError>
    ensures { OnOk result (string_bytes text.new ≡ string_bytes text.old ++ help_line one.now any.now) }
{
    writeln!(text, "help: one sender at a time {one}, any senders {any}")
}

/// Adds the line of what helps most.
fn push_help(text: &mut String, one: Option<Change>, any: Option<Change>) -> Result<(), AllocError>
    ensures { OnOk result (string_bytes text.new ≡ string_bytes text.old ++ help_words one any) }
{
    push_help_line(text, change_words(one), change_words(any))
}

/// Adds what the searches found.
pub(crate) fn push_results(text: &mut String, found: SearchResults) -> Result<(), AllocError>
    ensures { OnOk result (string_bytes text.new ≡ string_bytes text.old ++ results_words found) }
{
    push_headroom_lines(text, found.longer, found.wider)?;
    push_help(text, found.help_one, found.help_any)
}

/// Returns how much longer the cable of a family may be, and how much wider every tolerance, as it is found already, or else searched.
fn found_or_searched(family: &Family, found: Option<(Headroom, Headroom)>) -> (Headroom, Headroom)
    requires { IsHeadroomFound found (Some family.now) }
    ensures { IsHeadroom false family.now result.0 result.1 }
{
    match found {
        Some(found) => found,
        None => headrooms(family, false),
    }
}

/// Adds how much longer the cable of a family may be, and how much wider every tolerance, a line each. That is searched unless it is found
/// already (`margin_of`).
pub fn push_headroom(
    text: &mut String,
    family: &Family,
    found: Option<(Headroom, Headroom)>,
) -> Result<(), AllocError>
    requires { IsHeadroomFound found (Some family.now) }
    ensures { OnOk result (TellsHeadroom family.now (string_bytes text.old) (string_bytes text.new)) }
{
    let (longer, wider) = found_or_searched(family, found);
    push_headroom_lines(text, longer, wider)
}
