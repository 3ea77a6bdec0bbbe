//! The settings with which a bus works.
ghost use Rattle.std.specs.Prelude.{◌≡◌, ◌++◌, ◌<◌, ◌^◌, IfOk, OnOk, Some, filter};
ghost use Rattle.wl_settings.specs.Judged.{works};
ghost use Rattle.wl_settings.specs.Rankings.{AreFoundRows, AreOrdered, AreRefusals, IsListing, IsNearest, IsRanking, found_one, least_refusal, lesser_of, order_of_parts, place_in_order, rate_instead, row_distance, row_rank};
ghost use Rattle.std.specs.List.Sorted.{IsPermutation, IsSortedByKey, IsStableByKey};
ghost use Rattle.std.specs.Ordering.{nat_cmp};
ghost use Rattle.wl_settings.specs.Settings.{possible_settings};

use crate::asked::{Asked, Controller, Setting};
use crate::judged::{Refusal, WorkingSetting, find_refusal, find_row};
use crate::parts::Parts;
use crate::possible::possible_settings;
use crate::rates::{NearRate, nearest_rate};
use std::alloc::{AllocError, Global};
use wl_level::Listed;

/// The greatest margin, in thousandths.
const MOST: u64 = 100_000_000;

/// What is found for a controller.
#[derive(Drop)]
pub struct Listing {
    /// How many settings have the bit rate.
    pub possible: u64,
    /// The settings with which the bus works, the one with most to spare first.
    pub rows: Listed<WorkingSetting>,
    /// If there are none, the setting that an inequality refuses by least.
    pub nearest: Option<Refusal>,
    /// If no setting has the bit rate, the one whose rate is nearest, if it is at most a tenth off.
    pub rate: Option<NearRate>,
}

/// Adds a row, if there is one.
fn push_found(rows: &mut Vec<WorkingSetting>, row: Option<WorkingSetting>) -> Result<(), AllocError>
    ensures { OnOk result (rows.new.items ≡ rows.old.items ++ found_one row) }
{
    match row {
        Some(row) => {
            rows.push(row)?;
            Ok(())
        }
        None => Ok(()),
    }
}

/// Adds a refusal, if there is one.
fn push_refusal(all: &mut Vec<Refusal>, refusal: Option<Refusal>) -> Result<(), AllocError>
    ensures { OnOk result (all.new.items ≡ all.old.items ++ found_one refusal) }
{
    match refusal {
        Some(refusal) => {
            all.push(refusal)?;
            Ok(())
        }
        None => Ok(()),
    }
}

/// Returns the rows of the settings with which the bus works, in the order of the settings.
fn find_rows(
    alloc: Global,
    asked: &Asked,
    controller: &Controller,
    settings: &[Setting],
) -> Result<Vec<WorkingSetting>, AllocError>
    ensures { IfOk result (λ rows. AreFoundRows asked.now controller.now settings.now rows.items) }
{
    let mut rows = Vec::new(alloc);
    for setting in settings {
        let row = find_row(alloc, asked, controller, *setting)?;
        push_found(&mut rows, row)?;
    }
    Ok(rows)
}

/// Returns what refuses those that an inequality refuses, in the order of the settings.
fn find_refusals(
    alloc: Global,
    asked: &Asked,
    controller: &Controller,
    settings: &[Setting],
) -> Result<Vec<Refusal>, AllocError>
    ensures { IfOk result (λ all. AreRefusals asked.now controller.now settings.now all.items) }
{
    let mut all = Vec::new(alloc);
    for setting in settings {
        let refusal = find_refusal(alloc, asked, controller, *setting)?;
        push_refusal(&mut all, refusal)?;
    }
    Ok(all)
}

/// Returns the place of segments in the order of settings.
fn place_of_parts(parts: Parts) -> u64
    ensures value { result ≡ order_of_parts parts }
    ensures most { result < 2 ^ 48 }
{
    match parts {
        Parts::Each { prop, ps1, ps2 } => prop as u64 * (1 << 32)
            + ps1 as u64 * (1 << 16)
            + ps2 as u64,
        Parts::Joint { tseg1, .. } => parts.quanta() * (1 << 16) + tseg1 as u64,
    }
}

/// Returns the place of a setting in the order of settings.
fn place_of(setting: Setting) -> u128
    ensures value { result ≡ place_in_order setting }
    ensures most { result < 2 ^ 96 }
{
    setting.prescaler as u128 * (1 << 64)
        + place_of_parts(setting.parts) as u128 * (1 << 16)
        + (65_535 - setting.sjw) as u128
}

/// Returns a number by which the rows are in order.
fn rank(row: &WorkingSetting) -> u128
    ensures { result ≡ row_rank row.now }
{
    MOST.saturating_sub(row.margin) as u128 * (1 << 96) + place_of(row.setting)
}

/// Sorts rows by their rank.
fn sort_by_rank(rows: &mut Vec<WorkingSetting>) -> Result<(), AllocError>
    ensures rows { OnOk result (IsPermutation rows.old.items rows.new.items) }
    ensures order { OnOk result (IsSortedByKey row_rank nat_cmp rows.new.items) }
{
    rows.sort_by_key(|row| rank(row))?;
    Ok(())
}

/// Sorts rows by the distance to the sample point that is wished for. Rows with the same distance stay in their order.
fn sort_by_distance(wish: Option<u32>, rows: &mut Vec<WorkingSetting>) -> Result<(), AllocError>
    ensures rows { OnOk result (IsPermutation rows.old.items rows.new.items) }
    ensures order { OnOk result (IsSortedByKey (row_distance wish) nat_cmp rows.new.items) }
    ensures stable { OnOk result (IsStableByKey (row_distance wish) nat_cmp rows.old.items rows.new.items) }
{
    rows.sort_by_key(|row| row.setting.distance_to(wish))?;
    Ok(())
}

/// Sorts rows: by the distance to the sample point that is wished for, and those with the same distance by their rank.
fn sort_rows(wish: Option<u32>, rows: &mut Vec<WorkingSetting>) -> Result<(), AllocError>
    ensures rows { OnOk result (IsPermutation rows.old.items rows.new.items) }
    ensures order { OnOk result (AreOrdered wish rows.new.items) }
{
    sort_by_rank(rows)?;
    sort_by_distance(wish, rows)?;
    Ok(())
}

/// Returns the rows: those nearest to the sample point that is wished for come first; of those alike the one with most to spare. Of those with the same margin the one comes first that comes first in the order of
/// settings.
fn ranked_rows(
    alloc: Global,
    asked: &Asked,
    controller: &Controller,
    settings: &[Setting],
) -> Result<Listed<WorkingSetting>, AllocError>
    ensures { IfOk result (IsRanking asked.now controller.now
        (filter (works asked.now controller.now) settings.now)) }
{
    let mut rows = find_rows(alloc, asked, controller, settings)?;
    sort_rows(asked.sample, &mut rows)?;
    Ok(Listed::from_vec(rows))
}

/// Returns the one that an inequality refuses by less, the first of two alike.
fn lesser_of(one: Refusal, other: Refusal) -> Refusal
    ensures { result ≡ lesser_of one (Some other) }
{
    if other.shortage < one.shortage {
        other
    } else {
        one
    }
}

/// Returns the first of those that an inequality refuses by least.
fn least_refusal(refusals: &[Refusal]) -> Option<Refusal>
    ensures { result ≡ least_refusal refusals.now }
{
    let mut least = None;
    for refusal in refusals {
        least = match least {
            None => Some(*refusal),
            Some(so_far) => Some(lesser_of(so_far, *refusal)),
        };
    }
    least
}

/// Returns the setting that an inequality refuses by least, if the bus works with none.
fn nearest(
    alloc: Global,
    asked: &Asked,
    controller: &Controller,
    settings: &[Setting],
    rows: &[WorkingSetting],
) -> Result<Option<Refusal>, AllocError>
    requires { settings.now ≡ possible_settings asked.now controller.now }
    ensures { IfOk result (IsNearest asked.now controller.now rows.now) }
{
    match rows {
        [] => {
            let refusals = find_refusals(alloc, asked, controller, settings)?;
            Ok(least_refusal(refusals.as_slice()))
        }
        [..] => Ok(None),
    }
}

/// Returns the nearest bit rate, if no setting has the one asked for.
fn rate_instead(
    alloc: Global,
    asked: &Asked,
    controller: &Controller,
    settings: &[Setting],
) -> Result<Option<NearRate>, AllocError>
    ensures { IfOk result (λ rate. rate ≡ rate_instead asked.now controller.now settings.now) }
{
    match settings {
        [] => nearest_rate(alloc, asked, controller),
        [..] => Ok(None),
    }
}

/// Returns the settings of a controller with which a bus works, the one with most to spare first; or what refuses the best.
///
/// The bus of a setting is that of its plan (`plan_text`): two nodes at the ends of the cable. It works if the condition for a sound bus holds
/// with the senders that are asked for. Refused only when out of memory.
pub fn list(alloc: Global, asked: &Asked, controller: &Controller) -> Result<Listing, AllocError>
    ensures { IfOk result (IsListing asked.now controller.now) }
{
    let settings = possible_settings(alloc, asked, controller)?;
    let rows = ranked_rows(alloc, asked, controller, settings.as_slice())?;
    let nearest = nearest(
        alloc,
        asked,
        controller,
        settings.as_slice(),
        rows.as_slice(),
    )?;
    let rate = rate_instead(alloc, asked, controller, settings.as_slice())?;
    Ok(Listing {
        possible: settings.len() as u64,
        rows,
        nearest,
        rate,
    })
}
