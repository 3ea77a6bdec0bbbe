//! A listing as text.
ghost use Rattle.std.specs.Prelude.{◌≡◌, ◌++◌, ◌<◌, ◌≤◌, ◌^◌, string_bytes, IfOk, OnOk, unwrap_or};
ghost use Rattle.wl_settings.specs.Words.{controller_line, grown_words, error_words, failing_words, head_words, words_of_inequality, listing_words, line_at, words_of_spare, nearest_words, none_words, words_for_both, picoseconds_up, picoseconds_down, said_rate, near_rate_words, setting_line, row_lines, words_of_rate_instead, words_of_sample, setting_words, unless_rows, words_of_parts};

use crate::asked::{Asked, Controller, Setting};
use crate::judged::{Refusal, WorkingSetting};
use crate::listing::Listing;
use crate::parts::Parts;
use crate::rates::{NearRate, rate_error};
use std::alloc::AllocError;
use wl_bound::{Failure, Inequality};
use wl_margin::Thousandths;

/// Millionths in one.
const MILLION: u128 = 1_000_000;

/// The longest time that is written, in millionths of a tick.
const LONGEST: u128 = 1 << 80;

/// Adds the segments but for the jump width.
fn push_parts(text: &mut String, parts: Parts) -> Result<(), AllocError>
    ensures { OnOk result (string_bytes text.new ≡ string_bytes text.old ++ words_of_parts parts) }
{
    match parts {
        Parts::Each { prop, ps1, ps2 } => write!(text, " prop {prop} ps1 {ps1} ps2 {ps2}"),
        Parts::Joint { tseg1, tseg2 } => write!(text, " tseg1 {tseg1} tseg2 {tseg2}"),
    }
}

/// Adds the registers of a setting.
fn push_setting(text: &mut String, setting: Setting) -> Result<(), AllocError>
    ensures { OnOk result (string_bytes text.new ≡ string_bytes text.old ++ setting_words setting) }
{
    let (prescaler, sjw) = (setting.prescaler, setting.sjw);
    write!(text, "prescaler {prescaler}")?;
    push_parts(text, setting.parts)?;
    write!(text, " sjw {sjw}")
}

/// Adds the quanta of a bit and the sample point, in tenths of a percent.
fn push_sample(text: &mut String, setting: Setting) -> Result<(), AllocError>
    ensures { OnOk result (string_bytes text.new ≡ string_bytes text.old ++ words_of_sample setting) }
{
    let quanta = setting.quanta();
    let sample = setting.sample_permille();
    let (whole, tenth) = (sample / 10, sample % 10);
    write!(text, " quanta {quanta} sample {whole}.{tenth} %")
}

/// Adds by how much the bit rate deviates, in parts per million.
fn push_error(
    text: &mut String,
    asked: &Asked,
    controller: &Controller,
    setting: Setting,
) -> Result<(), AllocError>
    ensures { OnOk result (string_bytes text.new
        ≡ string_bytes text.old ++ error_words asked.now controller.now setting) }
{
    let error = rate_error(asked, controller, setting);
    write!(text, " error {error} ppm")
}

/// Adds how much there may be, or `none`.
fn push_figure(text: &mut String, asked: u32, growth: Option<u32>) -> Result<(), AllocError>
    ensures { OnOk result (string_bytes text.new ≡ string_bytes text.old ++ grown_words asked growth) }
{
    match growth {
        None => text.push_str("none"),
        Some(n) => {
            let figure = asked as u64 + n as u64;
            write!(text, "{figure}")
        }
    }
}

/// Adds how much there may be of something for one sender at a time, and for any.
fn push_pair(
    text: &mut String,
    what: &str,
    asked: u32,
    one: Option<u32>,
    any: Option<u32>,
) -> Result<(), AllocError>
    ensures { OnOk result (string_bytes text.new ≡ string_bytes text.old ++ words_for_both what.now asked one any) }
{
    text.push_str(what)?;
    push_figure(text, asked, one)?;
    text.push_str(" one ")?;
    push_figure(text, asked, any)?;
    text.push_str(" any")
}

/// Adds the number of a row and its setting.
fn push_head(text: &mut String, number: u64, setting: Setting) -> Result<(), AllocError>
    ensures { OnOk result (string_bytes text.new ≡ string_bytes text.old ++ head_words number setting) }
{
    write!(text, "setting {number} ")?;
    push_setting(text, setting)?;
    push_sample(text, setting)
}

/// Adds the margins of a row.
fn push_margins(text: &mut String, asked: &Asked, row: &WorkingSetting) -> Result<(), AllocError>
    ensures { OnOk result (string_bytes text.new ≡ string_bytes text.old ++ words_of_spare asked.now row.now) }
{
    push_pair(
        text,
        " tolerance ",
        asked.tolerance,
        row.one.wider,
        row.any.wider,
    )?;
    push_pair(text, " cable ", asked.cable, row.one.longer, row.any.longer)?;
    let margin = Thousandths(row.margin as u128);
    text.push_str(" margin ")?;
    write!(text, "{margin}")?;
    text.push_str("\n")
}

/// Adds the line of a row.
fn push_row(
    text: &mut String,
    asked: &Asked,
    controller: &Controller,
    number: u64,
    row: &WorkingSetting,
) -> Result<(), AllocError>
    ensures { OnOk result (string_bytes text.new
        ≡ string_bytes text.old ++ setting_line asked.now controller.now number row.now) }
{
    push_head(text, number, row.setting)?;
    push_error(text, asked, controller, row.setting)?;
    push_margins(text, asked, row)
}

/// Adds the line of the row at a place, from 0 on.
fn push_row_at(
    text: &mut String,
    asked: &Asked,
    controller: &Controller,
    rows: &[WorkingSetting],
    place: usize,
) -> Result<(), AllocError>
    ensures { OnOk result (string_bytes text.new
        ≡ string_bytes text.old ++ line_at asked.now controller.now rows.now place) }
{
    match rows.get(place) {
        Some(row) => push_row(text, asked, controller, place as u64 + 1, row),
        None => Ok(()),
    }
}

/// Adds the lines of rows, up to the last one that is asked for.
fn push_rows(
    text: &mut String,
    asked: &Asked,
    controller: &Controller,
    best: usize,
    rows: &[WorkingSetting],
) -> Result<(), AllocError>
    ensures { OnOk result (string_bytes text.new
        ≡ string_bytes text.old ++ row_lines asked.now controller.now best rows.now) }
{
    for place in 0..best.min(rows.len()) {
        push_row_at(text, asked, controller, rows, place)?;
    }
    Ok(())
}

/// Returns a time in picoseconds, rounded up. The time is in millionths of a tick of `tick` picoseconds; what is above 2^80 is taken for
/// that.
fn picoseconds_around(tick: u64, time: u128) -> u128
    ensures { result ≡ picoseconds_up tick time }
{
    let time = time.min(LONGEST);
    time / MILLION * tick as u128 + (time % MILLION * tick as u128).div_ceil(MILLION)
}

/// Returns a time in picoseconds, rounded down.
fn picoseconds_within(tick: u64, time: u128) -> u128
    ensures { result ≡ picoseconds_down tick time }
{
    let time = time.min(LONGEST);
    time / MILLION * tick as u128 + time % MILLION * tick as u128 / MILLION
}

/// Returns the name of an inequality.
fn inequality_words(inequality: Inequality) -> &'static str
    ensures { result.now ≡ words_of_inequality inequality }
{
    match inequality {
        Inequality::DriftFitsJump => ": drift_fits_jump takes ",
        Inequality::BitIsThereAtSample => ": bit_is_there_at_sample takes ",
        Inequality::NoBitTooEarly => ": no_bit_too_early takes ",
    }
}

/// Adds which inequality fails, and by what.
fn push_failure(text: &mut String, tick: u64, failure: Failure) -> Result<(), AllocError>
    ensures { OnOk result (string_bytes text.new ≡ string_bytes text.old ++ failing_words tick failure) }
{
    let taken = Thousandths(picoseconds_around(tick, failure.sides.left));
    let there = Thousandths(picoseconds_within(tick, failure.sides.right));
    text.push_str(inequality_words(failure.inequality))?;
    writeln!(text, "{taken} ns and has {there} ns")
}

/// Adds the line of a setting that is refused.
fn push_nearest(text: &mut String, tick: u64, refusal: &Refusal) -> Result<(), AllocError>
    ensures { OnOk result (string_bytes text.new ≡ string_bytes text.old ++ nearest_words tick refusal.now) }
{
    text.push_str("nearest ")?;
    push_setting(text, refusal.setting)?;
    push_failure(text, tick, refusal.failure)
}

/// Returns the bit rate of a setting in thousandths of a bit/s, rounded down.
fn said_rate(controller: &Controller, setting: Setting) -> u128
    ensures { result ≡ said_rate controller.now setting }
{
    let periods = setting.prescaler as u128 * setting.quanta() as u128;
    controller.clock as u128 * 1000 / periods.max(1)
}

/// Adds the line of the nearest bit rate.
fn push_rate(
    text: &mut String,
    controller: &Controller,
    nearest: &NearRate,
) -> Result<(), AllocError>
    ensures { OnOk result (string_bytes text.new
        ≡ string_bytes text.old ++ near_rate_words controller.now nearest.now) }
{
    let (rate, error) = (
        Thousandths(said_rate(controller, nearest.setting)),
        nearest.error,
    );
    write!(text, "nearest rate {rate} bit/s error {error} ppm: ")?;
    push_setting(text, nearest.setting)?;
    text.push_str("\n")
}

/// Adds the line of the nearest bit rate, if there is one.
fn push_rate_instead(
    text: &mut String,
    controller: &Controller,
    nearest: Option<NearRate>,
) -> Result<(), AllocError>
    ensures { OnOk result (string_bytes text.new
        ≡ string_bytes text.old ++ words_of_rate_instead controller.now nearest) }
{
    match nearest {
        Some(nearest) => push_rate(text, controller, &nearest),
        None => Ok(()),
    }
}

/// Adds why there is no setting, and none that an inequality refuses.
fn push_none(text: &mut String, asked: &Asked, possible: u64) -> Result<(), AllocError>
    ensures { OnOk result (string_bytes text.new ≡ string_bytes text.old ++ none_words asked.now possible) }
{
    if possible == 0 {
        let (bitrate, error) = (asked.bitrate, asked.rate_error);
        return writeln!(text, "no setting has {bitrate} bit/s within {error} ppm");
    }
    writeln!(
        text,
        "{possible} settings have the bit rate, and the plan of none can be run"
    )
}

/// Adds why there is no setting.
fn push_why(text: &mut String, asked: &Asked, listing: &Listing) -> Result<(), AllocError>
    ensures { OnOk result (string_bytes text.new
        ≡ string_bytes text.old ++ unless_rows asked.now listing.now listing.now.rows) }
{
    if !listing.rows.is_empty() {
        return Ok(());
    }
    match &listing.nearest {
        Some(refusal) => push_nearest(text, asked.tick, refusal),
        None => push_none(text, asked, listing.possible),
    }
}

/// Adds the line of a controller.
fn push_controller(
    text: &mut String,
    controller: &Controller,
    count: usize,
) -> Result<(), AllocError>
    ensures { OnOk result (string_bytes text.new ≡ string_bytes text.old ++ controller_line controller.now count) }
{
    let (name, clock) = (controller.name.as_str(), controller.clock);
    writeln!(text, "controller {name} clock {clock} Hz: {count} settings")
}

/// Adds what was found for a controller: at most this many rows.
pub(crate) fn push_listing(
    text: &mut String,
    asked: &Asked,
    controller: &Controller,
    best: u32,
    listing: &Listing,
) -> Result<(), AllocError>
    ensures { OnOk result (string_bytes text.new
        ≡ string_bytes text.old ++ listing_words asked.now controller.now best listing.now) }
{
    push_controller(text, controller, listing.rows.len())?;
    push_rows(
        text,
        asked,
        controller,
        best as usize,
        listing.rows.as_slice(),
    )?;
    push_why(text, asked, listing)?;
    push_rate_instead(text, controller, listing.rate)
}
