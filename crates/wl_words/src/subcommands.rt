//! The command line of the program, made of its table.
ghost use Rattle.std.specs.Prelude.{◌≡◌, map, string_bytes, IfSome, IfOk, IfErr, false, fold};
ghost use Rattle.clap.specs.Words.{app_of};
ghost use Rattle.clap.specs.declared.builder.command.Command.TheViews.{out-Command};
ghost use Rattle.wl_words.specs.CommandLine.{FailsByMemory, MatchesWords, bare_program, input_rules, program, reads_nothing, with_rules};
ghost use Rattle.wl_words.specs.Options.{AreTaskRows, IsTaskRow, row_app, with_row};

use crate::options::with_options;
use crate::tables::{INPUTS, SHARED, SUBCOMMANDS, SubcommandRow};
use clap::{ArgMatches, Command, Error};
use std::alloc::{AllocError, Global};

/// What the help says of the script that finds or makes a build.
const SCRIPT: &str = "The script ./wireline hands its words to the program. It has two words more:
  ./wireline build              proves and builds the program, once
  ./wireline completions SHELL  the completions of these words for bash, zsh or fish
docs/use/first-hour.md leads from a data sheet to a report.";

/// True if a subcommand reads no file: `init` alone.
fn reads_nothing(word: &str) -> bool
    ensures { result ≡ reads_nothing word.now }
{
    word == "init"
}

/// Returns a subcommand with the argument that names the file to read, unless it reads none.
fn with_input<'a>(alloc: Global, sub: Command<'a>, word: &str) -> Result<Command<'a>, AllocError>
    requires { (out-Command sub).has_globals ≡ false }
    ensures app { IfOk result (λ all. app_of all ≡ with_rules (app_of sub.entry) (input_rules word.now)) }
    ensures local { IfOk result (λ all. (out-Command all).has_globals ≡ false) }
{
    if reads_nothing(word) {
        Ok(sub)
    } else {
        with_options(alloc, sub, &INPUTS)
    }
}

/// Returns the subcommand of a row, with its options.
fn subcommand<'a>(alloc: Global, row: &SubcommandRow) -> Result<Command<'a>, AllocError>
    ensures app { IfOk result (λ sub. app_of sub ≡ row_app row.now) }
    ensures local { IfOk result (λ sub. (out-Command sub).has_globals ≡ false) }
{
    let named = Command::new(alloc, row.word).about(row.about);
    let reading = with_input(alloc, named, row.word)?;
    let filed = with_options(alloc, reading, &SHARED)?;
    with_options(alloc, filed, row.options)
}

/// Returns a command with the subcommand of this row.
fn with_row<'a>(
    alloc: Global,
    all: Command<'a>,
    row: &SubcommandRow,
) -> Result<Command<'a>, AllocError>
    ensures { IfOk result (λ more. app_of more ≡ with_row (app_of all.entry) row.now) }
{
    let sub = subcommand(alloc, row)?;
    all.subcommand(sub)
}

/// Returns the program's command without its subcommands.
fn bare<'a>(alloc: Global) -> Command<'a>
    ensures { app_of result ≡ bare_program }
{
    Command::new(alloc, "wl_sim")
        .version("0.1.0")
        .about("Simulates CAN 2.0 buses at the level of time quanta")
        .after_help(SCRIPT)
        .subcommand_required(true)
}

/// Returns a command with the subcommands of these rows.
fn with_rows<'a>(
    alloc: Global,
    mut all: Command<'a>,
    rows: &[SubcommandRow],
) -> Result<Command<'a>, AllocError>
    ensures { IfOk result (λ more. app_of more ≡ fold with_row (app_of all.entry) rows.now) }
{
    for row in rows {
        all = with_row(alloc, all, row)?;
    }
    Ok(all)
}

/// Returns the command line with the subcommands of these rows.
fn command_of<'a>(alloc: Global, rows: &[SubcommandRow]) -> Result<Command<'a>, AllocError>
    ensures { IfOk result (λ all. app_of all ≡ fold with_row bare_program rows.now) }
{
    with_rows(alloc, bare(alloc), rows)
}

/// Returns the whole command line.
fn command<'a>(alloc: Global) -> Result<Command<'a>, AllocError>
    ensures { IfOk result (λ all. app_of all ≡ program) }
{
    command_of(alloc, &SUBCOMMANDS)
}

/// Returns the row of a word, if it names a subcommand among these.
fn row_of<'a>(rows: &'a [SubcommandRow], word: &str) -> Option<&'a SubcommandRow>
    requires { AreTaskRows rows.now }
    ensures { IfSome result (λ row. IsTaskRow word.now row.now) }
{
    for row in rows {
        if row.word == word {
            return Some(row);
        }
    }
    None
}

/// Returns the command line with the subcommand of this row alone.
fn alone<'a>(alloc: Global, row: &SubcommandRow) -> Result<Command<'a>, AllocError>
    ensures { IfOk result (λ all. app_of all ≡ with_row bare_program row.now) }
{
    with_row(alloc, bare(alloc), row)
}

/// Returns what clap finds at words that name a subcommand, by that one alone; `None` if they name none, it finds a fault in them, or memory
/// ran out.
fn matches_alone<'a>(alloc: Global, words: &'a [String]) -> Option<ArgMatches<'a>>
    ensures { IfSome result (MatchesWords (map string_bytes words.now)) }
{
    let word = words.get(1)?.as_str();
    let row = row_of(&SUBCOMMANDS, word)?;
    match alone(alloc, row) {
        Ok(all) => match all.try_get_matches_from(words) {
            Ok(matches) => Some(matches),
            Err(_) => None,
        },
        Err(_) => None,
    }
}

/// Returns what clap finds at these words; an error that isn't out of memory is what it says to them.
pub(crate) fn matches_of<'a>(alloc: Global, words: &'a [String]) -> Result<ArgMatches<'a>, Error>
    ensures found { IfOk result (MatchesWords (map string_bytes words.now)) }
    ensures memory { IfErr result (FailsByMemory (map string_bytes words.now)) }
{
    match matches_alone(alloc, words) {
        Some(matches) => Ok(matches),
        None => command(alloc)?.try_get_matches_from(words),
    }
}
