//! Options of subcommands, as rows of a table.
ghost use Rattle.std.specs.Prelude.{◌≡◌, map, IfOk, false, option_map};
ghost use Rattle.clap.specs.Words.{app_of, rule_of, with_rule};
ghost use Rattle.clap.specs.declared.builder.command.Command.TheViews.{out-Command};
ghost use Rattle.wl_words.specs.CommandLine.{with_rules};
ghost use Rattle.wl_words.specs.Options.{defaulting_rule, row_rule, spelled_rule, taking_rule};

use clap::builder::ValueParser;
use clap::{Arg, ArgAction, Command};
use std::alloc::{AllocError, Global};

/// How an option is spelled.
#[derive(Clone, Copy)]
pub(crate) enum Spelling {
    /// By its place among the words alone.
    Place,
    /// By a letter after a dash.
    Short(char),
    /// By a name after two dashes.
    Long(&'static str),
}

/// What an option takes. The name of a value is that in the help.
#[derive(Clone, Copy)]
pub(crate) enum Takes {
    /// Nothing: the option is a flag.
    Nothing,
    /// A text.
    Value(&'static str),
    /// A text, each time that the option is there.
    Values(&'static str),
    /// A number from the first on, up to the second.
    Signed(&'static str, i64, i64),
    /// The same of numbers up to 2^64.
    Unsigned(&'static str, u64, u64),
}

/// An option of a subcommand.
#[derive(Clone, Copy)]
pub(crate) struct OptionRow {
    /// The name that what is found has.
    pub(crate) id: &'static str,
    /// How it is spelled.
    pub(crate) spelling: Spelling,
    /// What it takes.
    pub(crate) takes: Takes,
    /// The text that it has if it isn't given.
    pub(crate) default: Option<&'static str>,
    /// What the help says of it.
    pub(crate) help: &'static str,
}

/// Returns an argument as it is spelled.
fn spelled<'a>(arg: Arg<'a>, spelling: Spelling) -> Arg<'a>
    ensures rule { rule_of result ≡ spelled_rule spelling (rule_of arg.entry) }
    ensures local { result.global ≡ arg.entry.global }
{
    match spelling {
        Spelling::Place => arg,
        Spelling::Short(letter) => arg.short(letter),
        Spelling::Long(name) => arg.long(name),
    }
}

/// Returns an argument with what it takes.
fn taking<'a>(arg: Arg<'a>, takes: Takes) -> Arg<'a>
    ensures rule { rule_of result ≡ taking_rule takes (rule_of arg.entry) }
    ensures local { result.global ≡ arg.entry.global }
{
    match takes {
        Takes::Nothing => arg.action(ArgAction::SetTrue),
        Takes::Value(name) => arg.value_name(name),
        Takes::Values(name) => arg.value_name(name).action(ArgAction::Append),
        Takes::Signed(name, least, most) => arg
            .value_name(name)
            .value_parser(ValueParser::signed(least, most)),
        Takes::Unsigned(name, least, most) => arg
            .value_name(name)
            .value_parser(ValueParser::unsigned(least, most)),
    }
}

/// Returns an argument with the text that it has if it isn't given.
fn defaulting<'a>(arg: Arg<'a>, default: Option<&'static str>) -> Arg<'a>
    ensures rule { rule_of result ≡ defaulting_rule (option_map (λ s. s.now) default.entry) (rule_of arg.entry) }
    ensures local { result.global ≡ arg.entry.global }
{
    match default {
        Some(text) => arg.default_value(text),
        None => arg,
    }
}

/// Returns the argument of a row.
fn option_of<'a>(alloc: Global, row: &OptionRow) -> Arg<'a>
    ensures rule { rule_of result ≡ row_rule row.now }
    ensures local { result.global ≡ false }
{
    let named = spelled(Arg::new(alloc, row.id).help(row.help), row.spelling);
    defaulting(taking(named, row.takes), row.default)
}

/// Returns a subcommand with one option more.
fn with<'a>(sub: Command<'a>, option: Arg<'a>) -> Result<Command<'a>, AllocError>
    requires sub { (out-Command sub).has_globals ≡ false }
    requires option { option.global ≡ false }
    ensures app { IfOk result (λ all. app_of all ≡ with_rule (app_of sub.entry) (rule_of option.entry)) }
    ensures local { IfOk result (λ all. (out-Command all).has_globals ≡ false) }
{
    sub.arg(option)
}

/// Returns a subcommand with the options of these rows.
pub(crate) fn with_options<'a>(
    alloc: Global,
    mut sub: Command<'a>,
    rows: &[OptionRow],
) -> Result<Command<'a>, AllocError>
    requires { (out-Command sub).has_globals ≡ false }
    ensures app { IfOk result (λ all. app_of all ≡ with_rules (app_of sub.entry) (map row_rule rows.now)) }
    ensures local { IfOk result (λ all. (out-Command all).has_globals ≡ false) }
{
    for row in rows {
        sub = with(sub, option_of(alloc, row))?;
    }
    Ok(sub)
}
