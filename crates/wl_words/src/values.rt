//! What a parse of the command line found, by the options of a subcommand.
ghost use Rattle.std.specs.Prelude.{◌≡◌, if◌then◌else◌, nat_lt, map, string_bytes, IfOk, Some, None, false, option_and_then, option_map};
ghost use Rattle.std.specs.Option.{option_map_or};
ghost use Rattle.clap.specs.Words.{found_of, rows_of, subcommand_rows_of};
ghost use Rattle.wl_words.specs.CommandLine.{limits_among, file_among, file_named, is_flagged, is_set, link_among, node_among, said_name, said_name_among, node_number, number_among, only_among, pick_among, ranges_among, ranges_in, varied_among};
ghost use Rattle.wl_words.specs.CommandLine.{end_among, end_said, tick_scale, ticks_said, wave_among, wave_by};
ghost use Rattle.wl_words.specs.CommandLine.{cable_among, kind_among, nodes_among, rate_among, wish_among};
ghost use Rattle.wl_words.specs.CommandLine.{format_among, format_in, read_format, read_link, read_only, shown_among, swept_among, swept_by, tick_among, values_among, window_among, workers_among, share_among};

use crate::spikes::{if_alone, is_said, with_spike};
use crate::task::Swept;
use clap::ArgMatches;
use std::alloc::{AllocError, Global};
use wl_init::{Wish, cable_said, kind_said, rate_said};
use wl_limits::Limits;
use wl_lines::Format;
use wl_settings::Shown;
use wl_setup::Text;
use wl_sweep::{Options, Share};
use wl_units::{Measure, Scale};
use wl_views::{EventKind, Pick, Tick, Window};
use wl_worker::LinkKind;

/// How many nodes a plan may have.
const NODES: u8 = 64;

/// What the options of a subcommand say that only some tasks have.
#[derive(Clone, Copy)]
pub struct Values {
    /// How long a tick takes.
    pub tick: Option<Tick>,
    /// How many workers simulate the plan.
    pub workers: Option<u8>,
    /// The kind of link between them.
    pub link: Option<LinkKind>,
    /// What is swept.
    pub swept: Option<Swept>,
    /// What is written of the settings of a bus.
    pub shown: Shown,
    /// Whether the status says if a bus works, or what else a command is about.
    pub strict: bool,
    /// Whether each part of an answer has the command that says it.
    pub explain: bool,
    /// Whether all nodes send that don't only listen.
    pub all_send: bool,
    /// Whether frames may have any data.
    pub any_data: bool,
    /// By which limits a record text is refused.
    pub limits: Limits,
    /// The second of tick 0.
    pub from: Option<u32>,
    /// Which part of a run is written.
    pub window: Window,
    /// Which part of a run is drawn.
    pub wave: Option<Window>,
    /// Which events of a trace are written.
    pub pick: Option<Pick>,
    /// Whether a report has no lines of frames.
    pub brief: bool,
    /// Whether a log has error frames.
    pub errors: bool,
    /// What is asked for of a plan to begin from.
    pub wish: Option<Wish>,
}

/// Returns the tick that a subcommand's option gives.
#[tactic(auto, using(crate::proofs::Words::tick_text))]
fn tick_in(matches: &ArgMatches) -> Option<Tick>
    ensures { result ≡ tick_among (rows_of (found_of matches.now)) }
{
    match matches.get_str("tick") {
        Some(text) => Tick::from_text(text.as_bytes()),
        None => None,
    }
}

/// Returns the number of workers that a subcommand's option gives. Its range keeps out what is no number from 1 to 8.
fn workers_in(matches: &ArgMatches) -> Option<u8>
    ensures { result ≡ workers_among (rows_of (found_of matches.now)) }
{
    let text = matches.get_str("workers")?;
    Some(text.parse().unwrap_or(0))
}

/// Returns the kind of link that a text names.
fn link_named(text: &str) -> Option<LinkKind>
    ensures { result ≡ read_link text.now }
{
    match text {
        "hub" => Some(LinkKind::Hub),
        "mail" => Some(LinkKind::Mail),
        _ => None,
    }
}

/// Returns the kind of link that a subcommand's option gives.
#[tactic(auto, using(crate::proofs::Words::link_text))]
fn link_in(matches: &ArgMatches) -> Option<LinkKind>
    ensures { result ≡ link_among (rows_of (found_of matches.now)) }
{
    match matches.get_str("link") {
        Some(text) => link_named(text),
        None => None,
    }
}

/// Returns the format that a text names: `None` within is text. `None` if there is no such format.
fn format_named(text: &str) -> Option<Option<Format>>
    ensures { result ≡ read_format text.now }
{
    match text {
        "text" => Some(None),
        "json" => Some(Some(Format::Json)),
        "csv" => Some(Some(Format::Csv)),
        "table" => Some(Some(Format::Table)),
        "coloured" => Some(Some(Format::Coloured)),
        _ => None,
    }
}

/// Returns the format that a subcommand's option gives, text if it has no such option.
#[tactic(auto, using(crate::proofs::Words::format_text))]
pub(crate) fn format_in(matches: &ArgMatches) -> Option<Option<Format>>
    ensures { result ≡ format_among (rows_of (found_of matches.now)) }
{
    match matches.get_str("format") {
        Some(text) => format_named(text),
        None => Some(None),
    }
}

/// Returns the format that the subcommand's option gives, text if there is none.
pub(crate) fn format_of_subcommand(matches: &ArgMatches) -> Option<Option<Format>>
    ensures { result ≡ format_in (subcommand_rows_of matches.now) }
{
    match matches.subcommand() {
        Some((_, sub)) => format_in(sub),
        None => Some(None),
    }
}

/// Returns the file that a text names in the place of a standard stream, which `-` means.
fn file_named(alloc: Global, text: &str) -> Result<Option<Text>, AllocError>
    ensures { IfOk result (λ name. name ≡ file_named text.now) }
{
    match text {
        "-" => Ok(None),
        _ => Ok(Some(Text::new(alloc, text)?)),
    }
}

/// Returns the file that an argument of a subcommand names.
#[tactic(auto, using(crate::proofs::Words::file_text))]
fn file_in(alloc: Global, matches: &ArgMatches, id: &str) -> Result<Option<Text>, AllocError>
    ensures { IfOk result (λ name. name ≡ file_among id.now (rows_of (found_of matches.now))) }
{
    match matches.get_str(id) {
        Some(text) => file_named(alloc, text),
        None => Ok(None),
    }
}

/// Returns the file that an argument of the subcommand names, if it has one.
pub(crate) fn file_of_subcommand(
    alloc: Global,
    matches: &ArgMatches,
    id: &str,
) -> Result<Option<Text>, AllocError>
    ensures { IfOk result (λ name. name
        ≡ option_and_then (file_among id.now) (option_map (λ p. p.1) (subcommand_rows_of matches.now))) }
{
    match matches.subcommand() {
        Some((_, sub)) => file_in(alloc, sub, id),
        None => Ok(None),
    }
}

/// True if a flag is set, by its text.
fn is_set(text: &str) -> bool
    ensures { result ≡ is_set text.now }
{
    match text {
        "true" => true,
        _ => false,
    }
}

/// True if a flag of a subcommand is set.
#[tactic(auto, using(crate::proofs::Words::flag_text))]
pub(crate) fn flag_in(matches: &ArgMatches, id: &str) -> bool
    ensures { result ≡ is_flagged id.now (rows_of (found_of matches.now)) }
{
    match matches.get_str(id) {
        Some(text) => is_set(text),
        None => false,
    }
}

/// True if a flag of the subcommand is set, if it has one.
pub(crate) fn flag_of_subcommand(matches: &ArgMatches, id: &str) -> bool
    ensures { result ≡ option_map_or (λ p. is_flagged id.now p.1) (subcommand_rows_of matches.now) false }
{
    match matches.subcommand() {
        Some((_, sub)) => flag_in(sub, id),
        None => false,
    }
}

/// Returns the number that an option of a subcommand gives, below 2^64; `None` if it isn't given. Its parser keeps out what is no number.
fn number_in(matches: &ArgMatches, id: &str) -> Option<u64>
    ensures { result ≡ number_among 64 id.now (rows_of (found_of matches.now)) }
{
    let text = matches.get_str(id)?;
    Some(text.parse().unwrap_or(0))
}

/// Returns the same of a number below 2^32.
pub(crate) fn small_number_in(matches: &ArgMatches, id: &str) -> Option<u32>
    ensures { result ≡ number_among 32 id.now (rows_of (found_of matches.now)) }
{
    let text = matches.get_str(id)?;
    Some(text.parse().unwrap_or(0))
}

/// Returns the part of a sweep that a subcommand's option gives.
#[tactic(auto, using(crate::proofs::Words::part_text))]
fn share_in(matches: &ArgMatches) -> Option<Share>
    ensures { result ≡ share_among (rows_of (found_of matches.now)) }
{
    match matches.get_str("part") {
        Some(text) => Some(Share::of_word(text)),
        None => None,
    }
}

/// Returns what the options of a subcommand say of a sweep, with this many runs and this seed.
fn swept_by(matches: &ArgMatches, runs: u32, seed: u32) -> Swept
    ensures { result ≡ swept_by (rows_of (found_of matches.now)) runs seed }
{
    let options = Options {
        step: number_in(matches, "step"),
        keep_offsets: flag_in(matches, "keep-offsets"),
        keep_ppm: flag_in(matches, "keep-ppm"),
        runs,
        seed,
    };
    Swept {
        options,
        worst: flag_in(matches, "worst"),
        workers: workers_in(matches),
        print: number_in(matches, "print"),
        page: flag_in(matches, "page"),
        part: share_in(matches),
        join: flag_in(matches, "join"),
        spike: is_said(matches, "spike"),
    }
}

/// Returns what the options of a subcommand say of a sweep, if it is one.
fn swept_in(matches: &ArgMatches) -> Option<Swept>
    ensures { result ≡ swept_among (rows_of (found_of matches.now)) }
{
    let runs = small_number_in(matches, "runs")?;
    let seed = small_number_in(matches, "seed")?;
    if_alone(matches, swept_by(matches, runs, seed))
}

/// Returns what the options of a subcommand say of the settings of a bus: its plan if that is asked for, else the list.
fn shown_in(matches: &ArgMatches) -> Shown
    ensures { result ≡ shown_among (rows_of (found_of matches.now)) }
{
    if flag_in(matches, "plan") {
        Shown::Plan
    } else {
        Shown::Best(small_number_in(matches, "best"))
    }
}

/// Returns the limits of a record text that the options of a subcommand say: with `--wide` those of plans of version 4.
fn limits_in(matches: &ArgMatches) -> Limits
    ensures { result ≡ limits_among (rows_of (found_of matches.now)) }
{
    if flag_in(matches, "wide") {
        Limits::Wide
    } else {
        Limits::Narrow
    }
}

/// Returns the window that the options of a subcommand say: from tick 0 on if no first tick is given.
fn window_in(matches: &ArgMatches) -> Window
    ensures { result ≡ window_among (rows_of (found_of matches.now)) }
{
    Window {
        from: number_in(matches, "since").unwrap_or(0),
        to: number_in(matches, "until"),
    }
}

/// Returns how a text says ticks that take so long.
fn tick_scale(tick: Tick) -> Scale
    ensures { result ≡ tick_scale tick }
{
    Scale {
        tick: 1_000 * tick.picoseconds(),
        unit: 1,
    }
}

/// Returns how many ticks a text says: a number of them, or a time with its unit. `None` if it says neither, or if the time isn't whole in
/// ticks or has 2^48 of them.
fn ticks_said(tick: Tick, text: &str) -> Option<u64>
    ensures { result ≡ ticks_said tick text.now }
{
    match text.parse::<u64>() {
        Ok(ticks) => Some(ticks),
        Err(_) => tick_scale(tick).number_said(Measure::Time, text),
    }
}

/// Returns the end of a window that a text says. `None` if it says none.
fn end_said(tick: Tick, text: &str) -> Option<Option<u64>>
    ensures { result ≡ end_said tick text.now }
{
    let ticks = ticks_said(tick, text)?;
    Some(Some(ticks))
}

/// Returns the end of a window that a subcommand's option gives, if it gives one. `None` if its text says none.
#[tactic(auto, using(crate::proofs::Words::end_text))]
fn end_in(matches: &ArgMatches, tick: Tick, id: &str) -> Option<Option<u64>>
    ensures { result ≡ end_among tick id.now (rows_of (found_of matches.now)) }
{
    match matches.get_str(id) {
        Some(text) => end_said(tick, text),
        None => Some(None),
    }
}

/// Returns the window that the options of a subcommand say by ticks that take so long.
fn wave_by(matches: &ArgMatches, tick: Tick) -> Option<Window>
    ensures { result ≡ wave_by (rows_of (found_of matches.now)) tick }
{
    let from = end_in(matches, tick, "begin")?;
    let to = end_in(matches, tick, "stop")?;
    Some(Window {
        from: from.unwrap_or(0),
        to,
    })
}

/// Returns the window that the options of `vcd` and `page` say.
fn wave_in(matches: &ArgMatches) -> Option<Window>
    ensures { result ≡ wave_among (rows_of (found_of matches.now)) }
{
    wave_by(matches, tick_in(matches)?)
}

/// Returns the kind of events that a text names. `None` if there is no such kind.
fn only_named(text: &str) -> Option<Option<EventKind>>
    ensures { result ≡ read_only text.now }
{
    match text {
        "lost" => Some(Some(EventKind::Lost)),
        "error" => Some(Some(EventKind::Error)),
        "flag" => Some(Some(EventKind::Flag)),
        "frame" => Some(Some(EventKind::Frame)),
        "mode" => Some(Some(EventKind::Mode)),
        "sync" => Some(Some(EventKind::Sync)),
        _ => None,
    }
}

/// Returns the kind of events that a subcommand's option gives, if it gives one. `None` if there is no such kind.
#[tactic(auto, using(crate::proofs::Words::only_text))]
fn only_in(matches: &ArgMatches) -> Option<Option<EventKind>>
    ensures { result ≡ only_among (rows_of (found_of matches.now)) }
{
    match matches.get_str("only") {
        Some(text) => only_named(text),
        None => Some(None),
    }
}

/// Returns a number if a node may have it: one from 0 to 63.
fn as_node(number: u8) -> Option<u8>
    ensures { result ≡ (if nat_lt number 64 then Some number else None) }
{
    if number < NODES { Some(number) } else { None }
}

/// Returns the number of a node that a text writes, from 0 to 63. `None` if it is another text, as a name.
fn node_number(text: &str) -> Option<u8>
    ensures { result ≡ node_number text.now }
{
    match text.parse::<u8>() {
        Ok(number) => as_node(number),
        Err(_) => None,
    }
}

/// Returns the number of a node that a subcommand's option gives, if it gives one.
#[tactic(auto, using(crate::proofs::Words::node_text))]
fn node_in(matches: &ArgMatches) -> Option<u8>
    ensures { result ≡ node_among (rows_of (found_of matches.now)) }
{
    match matches.get_str("node") {
        Some(text) => node_number(text),
        None => None,
    }
}

/// Returns which events the options of a subcommand ask for.
fn pick_in(matches: &ArgMatches) -> Option<Pick>
    ensures { result ≡ pick_among (rows_of (found_of matches.now)) }
{
    let only = only_in(matches)?;
    Some(Pick {
        window: window_in(matches),
        node: node_in(matches),
        only,
    })
}

/// Returns how many nodes a subcommand's option gives. Its range keeps out what is no number from 2 to 64.
fn nodes_in(matches: &ArgMatches) -> Option<u8>
    ensures { result ≡ nodes_among (rows_of (found_of matches.now)) }
{
    let text = matches.get_str("nodes")?;
    Some(text.parse().unwrap_or(0))
}

/// Returns the bit rate that a subcommand's option gives.
#[tactic(auto, using(crate::proofs::Words::rate_text))]
fn rate_in(matches: &ArgMatches) -> Option<u32>
    ensures { result ≡ rate_among (rows_of (found_of matches.now)) }
{
    match matches.get_str("bitrate") {
        Some(text) => rate_said(text),
        None => None,
    }
}

/// Returns the length of the cable that a subcommand's option gives.
#[tactic(auto, using(crate::proofs::Words::cable_text))]
fn cable_in(matches: &ArgMatches) -> Option<u32>
    ensures { result ≡ cable_among (rows_of (found_of matches.now)) }
{
    match matches.get_str("cable") {
        Some(text) => cable_said(text),
        None => None,
    }
}

/// Returns the kind of controllers that a subcommand's option gives.
#[tactic(auto, using(crate::proofs::Words::kind_text))]
fn kind_in(matches: &ArgMatches) -> Option<usize>
    ensures { result ≡ kind_among (rows_of (found_of matches.now)) }
{
    match matches.get_str("kind") {
        Some(text) => kind_said(text),
        None => None,
    }
}

/// Returns what the options of a subcommand ask for of a plan to begin from.
fn wish_in(matches: &ArgMatches) -> Option<Wish>
    ensures { result ≡ wish_among (rows_of (found_of matches.now)) }
{
    let nodes = nodes_in(matches)?;
    Some(Wish {
        nodes,
        rate: rate_in(matches),
        cable: cable_in(matches),
        kind: kind_in(matches),
    })
}

/// Returns what the options of a subcommand say.
fn values_in(matches: &ArgMatches) -> Values
    ensures { result ≡ values_among (rows_of (found_of matches.now)) }
{
    Values {
        tick: tick_in(matches),
        workers: workers_in(matches),
        link: link_in(matches),
        swept: swept_in(matches),
        shown: shown_in(matches),
        strict: flag_in(matches, "strict"),
        explain: flag_in(matches, "explain"),
        all_send: flag_in(matches, "all-send"),
        any_data: flag_in(matches, "any-data"),
        limits: limits_in(matches),
        from: small_number_in(matches, "from"),
        window: window_in(matches),
        wave: wave_in(matches),
        pick: pick_in(matches),
        brief: flag_in(matches, "brief"),
        errors: flag_in(matches, "errors"),
        wish: wish_in(matches),
    }
}

/// Returns what the options of the subcommand say, if there is one.
pub(crate) fn values_of_subcommand(matches: &ArgMatches) -> Option<Values>
    ensures { result ≡ option_map (λ p. values_among p.1) (subcommand_rows_of matches.now) }
{
    match matches.subcommand() {
        Some((_, sub)) => Some(values_in(sub)),
        None => None,
    }
}

/// Returns texts of words as strings.
fn strings(alloc: Global, words: &[&str]) -> Result<Vec<String>, AllocError>
    ensures { IfOk result (λ strings. map string_bytes strings.items ≡ map (λ w. w.now) words.now) }
{
    let mut strings = Vec::new(alloc);
    for word in words {
        strings.push(String::from_str(alloc, word)?)?;
    }
    Ok(strings)
}

/// Returns the name of a node that a text says, unless that is a node's number.
fn said_name(alloc: Global, text: &str) -> Result<Vec<String>, AllocError>
    ensures { IfOk result (λ names. map string_bytes names.items ≡ said_name text.now) }
{
    match node_number(text) {
        Some(_) => Ok(Vec::new(alloc)),
        None => strings(alloc, &[text]),
    }
}

/// Returns the name of a node that a subcommand's option gives, if it gives one.
#[tactic(auto, using(crate::proofs::Words::said_name_text))]
fn said_name_in(alloc: Global, matches: &ArgMatches) -> Result<Vec<String>, AllocError>
    ensures { IfOk result (λ names. map string_bytes names.items ≡ said_name_among (rows_of (found_of matches.now))) }
{
    match matches.get_str("node") {
        Some(text) => said_name(alloc, text),
        None => Ok(Vec::new(alloc)),
    }
}

/// Returns the ranges of a sweep that a subcommand's words give, or the name of a node.
#[tactic(auto, using(crate::proofs::Words::ranges_text))]
fn varied_of(alloc: Global, matches: &ArgMatches) -> Result<Vec<String>, AllocError>
    ensures { IfOk result (λ ranges. map string_bytes ranges.items ≡ varied_among (rows_of (found_of matches.now))) }
{
    match matches.get_strs("vary") {
        Some(words) => strings(alloc, words),
        None => said_name_in(alloc, matches),
    }
}

/// Returns what a subcommand's words say that the plan has to have: the ranges of a sweep, the name of a node, or a spike.
fn ranges_of(alloc: Global, matches: &ArgMatches) -> Result<Vec<String>, AllocError>
    ensures { IfOk result (λ ranges. map string_bytes ranges.items ≡ ranges_among (rows_of (found_of matches.now))) }
{
    with_spike(alloc, varied_of(alloc, matches)?, matches)
}

/// Returns what the words of the subcommand say that the plan has to have, if there is one.
pub(crate) fn ranges_of_subcommand(
    alloc: Global,
    matches: &ArgMatches,
) -> Result<Vec<String>, AllocError>
    ensures { IfOk result (λ ranges. map string_bytes ranges.items ≡ ranges_in (subcommand_rows_of matches.now)) }
{
    match matches.subcommand() {
        Some((_, sub)) => ranges_of(alloc, sub),
        None => Ok(Vec::new(alloc)),
    }
}
