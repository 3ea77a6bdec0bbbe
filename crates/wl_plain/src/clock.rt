//! The clock of a node or a controller by its frequency, and what its kind allows.
ghost use Rattle.std.specs.Prelude.{◌≡◌, ◌≤◌, IfSome, OnOk, Some, None, option_map, if◌then◌else◌};
ghost use Rattle.toml.specs.View.{table_view};
ghost use Rattle.wl_plain.specs.Clocks.{IsSmall, bit_quanta_at, bit_rate_at, by_bit_rate, by_both, by_hertz, keys_by_prescaler, clock_keys_of, clock_word, gives_rate, hertz_at, is_it, known_prescaler, marked, of_kind, other_clock_keys, part_word, prescaler_for, with_quantum, settled_by, sum_if_known, taken_of, taken_with, tseg1_at, tseg2_at, with_fraction, wrong_by, wrong_by_taken, wrong_key};
ghost use Rattle.wl_plain.specs.Tables.{has, has_any};

use crate::measure::Units;
use crate::tables::{
    has, positive, positive_number_at, put_none, put_number, text_at, whole_number_at, without,
};
use std::alloc::{AllocError, Global};
use toml::Table;
use wl_kinds::{ControllerKind, Part, Taken, kind_named};
use wl_units::{LARGEST_WHOLE, Measure, ticks_of_quantum, whole};

/// A key of a clock by its frequency.
#[derive(Clone, Copy, Debug, PartialEq, Eq)]
pub enum ClockKey {
    /// `clock`.
    Clock,
    /// `prescaler`.
    Prescaler,
    /// `bitrate`.
    BitRate,
}

impl ClockKey {
    /// Returns the key as it is written.
    fn word(self) -> &'static str
        ensures { result.now ≡ clock_word self }
    {
        match self {
            ClockKey::Clock => "clock",
            ClockKey::Prescaler => "prescaler",
            ClockKey::BitRate => "bitrate",
        }
    }
}

/// A quantum of `num / den` ticks, and how many periods of the clock it has.
#[derive(Clone, Copy, Debug, PartialEq, Eq)]
pub struct Quantum {
    pub num: u64,
    pub den: u64,
    pub prescaler: u64,
}

/// What the clock keys of a table make.
#[derive(Clone, Copy, Debug, PartialEq, Eq)]
pub enum ClockKeys {
    /// Nothing: some are missing, or in a wrong place.
    Unresolved,
    /// Nothing, since the value of this key is wrong.
    Wrong(ClockKey),
    /// A quantum.
    Resolved(Quantum),
}

/// Returns the frequency of the clock in Hz, if there is one.
pub(crate) fn hertz_at(units: Units, table: &Table) -> Option<u64>
    ensures hertz { result ≡ hertz_at units (table_view table.now) }
    ensures most { IfSome result (λ n. n ≤ LARGEST_WHOLE) }
{
    positive(units.said(Measure::Frequency, text_at(table, "clock")?)?)
}

/// Returns the bit rate in bit/s, if there is one.
pub(crate) fn bit_rate_at(units: Units, table: &Table) -> Option<u64>
    ensures rate { result ≡ bit_rate_at units (table_view table.now) }
    ensures most { IfSome result (λ n. n ≤ LARGEST_WHOLE) }
{
    positive(units.said(Measure::BitRate, text_at(table, "bitrate")?)?)
}

/// Returns the sum of two numbers, if both are there.
fn sum_if_known(a: Option<u64>, b: Option<u64>) -> Option<u64>
    requires a { IfSome a (λ n. n ≤ 1125899906842624) }
    requires b { IfSome b (λ n. n ≤ 1125899906842624) }
    ensures sum { result ≡ sum_if_known a b }
    ensures most { IfSome result (λ n. n ≤ 2251799813685248) }
{
    match (a, b) {
        (Some(a), Some(b)) => Some(a + b),
        _ => None,
    }
}

/// Returns the quanta of PROP_SEG and PHASE_SEG1, if they are known.
fn tseg1_at(table: &Table) -> Option<u64>
    ensures quanta { result ≡ tseg1_at (table_view table.now) }
    ensures most { IfSome result (λ n. n ≤ 1125899906842624) }
{
    if has(table, "tseg1") {
        whole_number_at(table, "tseg1")
    } else {
        sum_if_known(
            whole_number_at(table, "prop"),
            whole_number_at(table, "ps1"),
        )
    }
}

/// Returns the quanta of PHASE_SEG2, if they are known.
fn tseg2_at(table: &Table) -> Option<u64>
    ensures quanta { result ≡ tseg2_at (table_view table.now) }
    ensures most { IfSome result (λ n. n ≤ LARGEST_WHOLE) }
{
    if has(table, "tseg2") {
        whole_number_at(table, "tseg2")
    } else {
        whole_number_at(table, "ps2")
    }
}

/// Returns the quanta of a bit, if they are known.
fn bit_quanta_at(table: &Table) -> Option<u64>
    ensures quanta { result ≡ bit_quanta_at (table_view table.now) }
    ensures most { IfSome result (λ n. n ≤ 4503599627370496) }
{
    match sum_if_known(tseg1_at(table), tseg2_at(table)) {
        Some(quanta) => Some(1 + quanta),
        None => None,
    }
}

/// Returns the prescaler that gives a bit rate exactly, if there is one.
fn prescaler_for(hertz: u64, rate: u64, quanta: u64) -> Option<u64>
    ensures prescaler { result ≡ prescaler_for hertz rate quanta }
    ensures most { IfSome result (λ n. n ≤ LARGEST_WHOLE) }
{
    positive(whole(hertz as u128, rate as u128 * quanta as u128)?)
}

/// Returns what a prescaler makes of a clock in Hz, by the length of a tick.
fn keys_by_prescaler(tick: u64, hertz: u64, prescaler: u64) -> ClockKeys
    ensures keys { result ≡ keys_by_prescaler tick hertz prescaler }
    ensures small { IsSmall result }
{
    match ticks_of_quantum(hertz, prescaler, tick) {
        Some((num, den)) => ClockKeys::Resolved(Quantum {
            num,
            den,
            prescaler,
        }),
        None => ClockKeys::Wrong(ClockKey::Prescaler),
    }
}

/// Returns what a bit rate makes of a clock in Hz, with bits of these quanta.
fn by_bit_rate(tick: u64, hertz: u64, rate: Option<u64>, quanta: Option<u64>) -> ClockKeys
    ensures keys { result ≡ by_bit_rate tick hertz rate quanta }
    ensures small { IsSmall result }
{
    match (rate, quanta) {
        (_, None) => ClockKeys::Unresolved,
        (None, Some(_)) => ClockKeys::Wrong(ClockKey::BitRate),
        (Some(rate), Some(quanta)) => match prescaler_for(hertz, rate, quanta) {
            Some(prescaler) => keys_by_prescaler(tick, hertz, prescaler),
            None => ClockKeys::Wrong(ClockKey::BitRate),
        },
    }
}

/// True if a number is there, and is this one.
fn is_it(prescaler: u64, number: Option<u64>) -> bool
    ensures { result ≡ is_it prescaler number }
{
    match number {
        Some(n) => n == prescaler,
        None => false,
    }
}

/// True if a prescaler gives the bit rate with bits of these quanta, as far as they are known.
fn gives_rate(hertz: u64, prescaler: u64, rate: Option<u64>, quanta: Option<u64>) -> bool
    ensures { result ≡ gives_rate hertz prescaler rate quanta }
{
    match (rate, quanta) {
        (_, None) => true,
        (None, Some(_)) => false,
        (Some(rate), Some(quanta)) => is_it(prescaler, prescaler_for(hertz, rate, quanta)),
    }
}

/// Returns what a prescaler, which may be none, makes of a clock in Hz; a bit rate beside it has to be the one that it gives.
fn by_both(units: Units, table: &Table, tick: u64, hertz: u64, prescaler: Option<u64>) -> ClockKeys
    ensures keys { result ≡ by_both units (table_view table.now) tick hertz prescaler }
    ensures small { IsSmall result }
{
    let Some(prescaler) = prescaler else {
        return ClockKeys::Wrong(ClockKey::Prescaler);
    };
    let rate = bit_rate_at(units, table);
    let quanta = bit_quanta_at(table);
    if has(table, "bitrate") && !gives_rate(hertz, prescaler, rate, quanta) {
        ClockKeys::Wrong(ClockKey::BitRate)
    } else {
        keys_by_prescaler(tick, hertz, prescaler)
    }
}

/// Returns what the keys of a table make of a clock in Hz.
fn by_hertz(units: Units, table: &Table, tick: u64, hertz: u64) -> ClockKeys
    ensures keys { result ≡ by_hertz units (table_view table.now) tick (Some hertz) }
    ensures small { IsSmall result }
{
    if has(table, "prescaler") {
        by_both(
            units,
            table,
            tick,
            hertz,
            positive_number_at(table, "prescaler"),
        )
    } else if has(table, "bitrate") {
        by_bit_rate(tick, hertz, bit_rate_at(units, table), bit_quanta_at(table))
    } else {
        ClockKeys::Unresolved
    }
}

/// True if another key of a clock is there.
fn has_other(table: &Table) -> bool
    ensures { result ≡ has_any other_clock_keys (table_view table.now) }
{
    has(table, "num") || has(table, "den") || has(table, "quantum") || has(table, "rates")
}

/// Returns what the clock keys of a table make: nothing without `clock`, without the length of a tick, or beside other keys of a clock.
fn clock_keys_of(units: Units, table: &Table) -> ClockKeys
    ensures keys { result ≡ clock_keys_of units (table_view table.now) }
    ensures small { IsSmall result }
{
    if !has(table, "clock") || has_other(table) {
        return ClockKeys::Unresolved;
    }
    match units.tick {
        None => ClockKeys::Unresolved,
        Some(tick) => match hertz_at(units, table) {
            Some(hertz) => by_hertz(units, table, tick, hertz),
            None => ClockKeys::Wrong(ClockKey::Clock),
        },
    }
}

/// Puts `num` and `den` in the place of the clock keys.
fn settle_by(alloc: Global, quantum: Quantum, table: &mut Table) -> Result<(), AllocError>
    requires num { quantum.num ≤ LARGEST_WHOLE }
    requires den { quantum.den ≤ LARGEST_WHOLE }
    ensures { OnOk result (table_view table.new ≡ settled_by (ClockKeys.Resolved quantum) (table_view table.old)) }
{
    without(table, "clock");
    without(table, "prescaler");
    without(table, "bitrate");
    put_number(alloc, table, "den", quantum.den)?;
    put_number(alloc, table, "num", quantum.num)
}

/// Puts `num` and `den` in the place of the clock keys, or no value at the one that is wrong.
#[tactic(auto, unfolding(crate::specs::Clocks::with_quantum))]
pub(crate) fn settle(alloc: Global, units: Units, table: &mut Table) -> Result<(), AllocError>
    ensures { OnOk result (table_view table.new ≡ with_quantum units (table_view table.old)) }
{
    match clock_keys_of(units, table) {
        ClockKeys::Unresolved => Ok(()),
        ClockKeys::Wrong(key) => put_none(alloc, table, key.word()),
        ClockKeys::Resolved(quantum) => settle_by(alloc, quantum, table),
    }
}

impl ClockKeys {
    /// Returns the prescaler, as far as it is known.
    fn known_prescaler(self) -> Option<u64>
        ensures { result ≡ known_prescaler self }
    {
        match self {
            ClockKeys::Resolved(quantum) => Some(quantum.prescaler),
            ClockKeys::Unresolved | ClockKeys::Wrong(_) => None,
        }
    }
}

/// Returns what a controller is set to by a node's keys, if its segments are known.
fn taken_of(units: Units, table: &Table) -> Option<Taken>
    ensures { result ≡ taken_of units (table_view table.now) }
{
    let prescaler = clock_keys_of(units, table).known_prescaler();
    match (
        tseg1_at(table),
        tseg2_at(table),
        whole_number_at(table, "sjw"),
    ) {
        (Some(tseg1), Some(tseg2), Some(sjw)) => Some(Taken {
            prescaler,
            tseg1,
            tseg2,
            sjw,
        }),
        _ => None,
    }
}

/// Returns one of two keys: the first if it is there.
fn either(table: &Table, first: &'static str, second: &'static str) -> &'static str
    ensures { result.now ≡ (if has first.now (table_view table.now) then first.now else second.now) }
{
    if has(table, first) { first } else { second }
}

/// Returns the key of a part.
fn part_word(table: &Table, part: Part) -> &'static str
    ensures { result.now ≡ part_word (table_view table.now) part }
{
    match part {
        Part::Prescaler => either(table, "prescaler", "bitrate"),
        Part::Tseg1 => either(table, "tseg1", "ps1"),
        Part::Tseg2 => either(table, "tseg2", "ps2"),
        Part::Sjw => "sjw",
    }
}

/// Returns the key of what a kind of controllers can't be set to.
fn wrong_by(units: Units, table: &Table, kind: ControllerKind) -> Option<&'static str>
    ensures { option_map (λ k. k.now) result ≡ wrong_by units (table_view table.now) (Some kind) }
{
    match kind.first_wrong(taken_of(units, table)?) {
        Some(part) => Some(part_word(table, part)),
        None => None,
    }
}

/// Returns the key whose value the kind at `kind` forbids; of an unknown kind `kind`.
fn wrong_key(units: Units, table: &Table) -> Option<&'static str>
    ensures { option_map (λ k. k.now) result ≡ wrong_key units (table_view table.now) }
{
    let kind = match text_at(table, "kind") {
        Some(name) => kind_named(name),
        None => None,
    };
    match kind {
        Some(kind) => wrong_by(units, table, kind),
        None => Some("kind"),
    }
}

/// Takes `kind` away, and the value that it forbids.
#[tactic(auto, unfolding(crate::specs::Clocks::of_kind))]
pub(crate) fn obey_kind(alloc: Global, units: Units, table: &mut Table) -> Result<(), AllocError>
    ensures { OnOk result (table_view table.new ≡ of_kind units (table_view table.old)) }
{
    if !has(table, "kind") {
        return Ok(());
    }
    let wrong = wrong_key(units, table);
    without(table, "kind");
    match wrong {
        Some(key) => put_none(alloc, table, key),
        None => Ok(()),
    }
}
