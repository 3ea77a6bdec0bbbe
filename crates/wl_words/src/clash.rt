//! Options of `settings` that mean nothing beside `--apply`.
ghost use Rattle.std.specs.Prelude.{◌≡◌, codes};
ghost use Rattle.clap.specs.Words.{found_of, rows_of, subcommand_rows_of};
ghost use Rattle.wl_words.specs.CommandLine.{clash_among, clash_beside, clash_in, is_listed, is_stream, is_text};

use crate::values::{flag_in, format_in, small_number_in};
use clap::ArgMatches;

/// What is wrong with the options beside `--apply`.
#[derive(Clone, Copy)]
pub(crate) enum Clash {
    /// The plan that gets settings is no file.
    Stream,
    /// Another plan is asked for.
    Plan,
    /// A list with a number of settings is asked for.
    Best,
    /// A plan has no other format than text.
    Format,
}

impl Clash {
    /// Returns what is wrong, and what to change.
    pub(crate) fn said(self) -> &'static str {
        match self {
            Clash::Stream => "--apply wants the file of a plan, and - is none",
            Clash::Plan => "--apply and --plan each write a plan: leave out one of them",
            Clash::Best => "--apply writes a plan, and --best is of a list: leave out one of them",
            Clash::Format => "--apply writes a plan, which has no other format: leave out --format",
        }
    }
}

/// True if a text means a standard stream.
fn is_stream(text: &str) -> bool
    ensures { result ≡ is_stream text.now }
{
    text == "-"
}

/// True if a number of settings is asked for.
fn is_listed(matches: &ArgMatches) -> bool
    ensures { result ≡ is_listed (rows_of (found_of matches.now)) }
{
    small_number_in(matches, "best").is_some()
}

/// True if the output is text.
fn is_text(matches: &ArgMatches) -> bool
    ensures { result ≡ is_text (rows_of (found_of matches.now)) }
{
    match format_in(matches) {
        Some(Some(_)) => false,
        _ => true,
    }
}

/// Returns what is wrong with the options beside `--apply` with this text.
fn clash_beside(matches: &ArgMatches, plan: &str) -> Option<Clash>
    ensures { result ≡ clash_beside (rows_of (found_of matches.now)) plan.now }
{
    if is_stream(plan) {
        Some(Clash::Stream)
    } else if flag_in(matches, "plan") {
        Some(Clash::Plan)
    } else if is_listed(matches) {
        Some(Clash::Best)
    } else if !is_text(matches) {
        Some(Clash::Format)
    } else {
        None
    }
}

/// Returns what is wrong with the options of a subcommand beside `--apply`.
#[tactic(auto, using(crate::proofs::Words::clash_text))]
fn clash_among(matches: &ArgMatches) -> Option<Clash>
    ensures { result ≡ clash_among (rows_of (found_of matches.now)) }
{
    match matches.get_str("apply") {
        Some(plan) => clash_beside(matches, plan),
        None => None,
    }
}

/// Returns what is wrong with the options of the subcommand beside `--apply`.
pub(crate) fn clash_of_subcommand(matches: &ArgMatches) -> Option<Clash>
    ensures { result ≡ clash_in (subcommand_rows_of matches.now) }
{
    match matches.subcommand() {
        Some((_, sub)) => clash_among(sub),
        None => None,
    }
}
