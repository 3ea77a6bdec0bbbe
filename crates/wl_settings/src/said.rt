//! What is written of what a text asks for.
ghost use Rattle.std.specs.Prelude.{◌≡◌, ◌≢◌, ◌&&◌, true, Ok, Err, IfOk, IfErr, string_bytes};
ghost use Rattle.wl_settings.specs.Said.{GrowsByFound, GrowsBySaid, IsListText, IsPlanSaid, IsShown, plan_said};
ghost use Rattle.wl_settings.specs.declared.fault.SettingsFault.TheVariants.{Memory};

use crate::asked::{Asked, Controller};
use crate::fault::SettingsFault;
use crate::judged::WorkingSetting;
use crate::listing::list;
use crate::plan::plan_text;
use crate::read::Wanted;
use crate::words::push_listing;
use std::alloc::{AllocError, Global};

/// What is written.
#[derive(Clone, Copy, Debug, PartialEq, Eq)]
pub enum Shown {
    /// The settings of each controller: at most this many, or all of them without a number.
    Best(Option<u32>),
    /// The plan of the first controller's first setting.
    Plan,
}

/// What is written, with what goes with it.
#[derive(Drop)]
pub(crate) struct Written {
    /// The text.
    pub(crate) text: String,
    /// Whether each controller that was asked about has a setting with which the bus works.
    pub(crate) all: bool,
}

/// Adds what is found for one controller, and returns whether it has a setting.
fn push_found(
    alloc: Global,
    text: &mut String,
    asked: &Asked,
    best: u32,
    controller: &Controller,
) -> Result<bool, AllocError>
    ensures { IfOk result (GrowsByFound asked.now controller.now best
        (string_bytes text.old) (string_bytes text.new)) }
{
    let listing = list(alloc, asked, controller)?;
    push_listing(text, asked, controller, best, &listing)?;
    Ok(listing.rows.len() > 0)
}

/// True if some controllers and one more have settings.
fn have_both(all: bool, has: bool) -> bool
    ensures { result ≡ (all && has) }
{
    all && has
}

/// Adds what is found for each controller, and returns whether each has a setting.
fn push_each(
    alloc: Global,
    text: &mut String,
    asked: &Asked,
    best: u32,
    controllers: &[Controller],
) -> Result<bool, AllocError>
    ensures { IfOk result (GrowsBySaid asked.now best controllers.now
        (string_bytes text.old) (string_bytes text.new)) }
{
    let mut all = true;
    for controller in controllers {
        let has = push_found(alloc, text, asked, best, controller)?;
        all = have_both(all, has);
    }
    Ok(all)
}

/// Returns what is found for each controller as text.
fn list_text(alloc: Global, best: u32, wanted: &Wanted) -> Result<Written, AllocError>
    ensures { IfOk result (λ said. IsListText best wanted.now (string_bytes said.text) said.all) }
{
    let mut text = String::new(alloc);
    let all = push_each(
        alloc,
        &mut text,
        &wanted.asked,
        best,
        wanted.controllers.as_slice(),
    )?;
    Ok(Written { text, all })
}

/// Returns the plan of the first of these rows, if there is one.
fn plan_of_rows(
    alloc: Global,
    asked: &Asked,
    controller: &Controller,
    rows: &[WorkingSetting],
) -> Result<String, SettingsFault>
    ensures ok { IfOk result (λ text. plan_said asked.now controller.now rows.now ≡ Ok (string_bytes text)) }
    ensures fault { IfErr result (λ e. e ≢ Memory → plan_said asked.now controller.now rows.now ≡ Err e) }
{
    match rows {
        [] => Err(SettingsFault::NoSetting),
        [first, ..] => Ok(plan_text(alloc, asked, controller, first.setting)?),
    }
}

/// Returns the plan of the first setting of the first controller.
fn first_plan(
    alloc: Global,
    asked: &Asked,
    controllers: &[Controller],
) -> Result<String, SettingsFault>
    ensures ok { IfOk result (λ text. IsPlanSaid asked.now controllers.now (Ok (string_bytes text))) }
    ensures fault { IfErr result (λ e. e ≢ Memory → IsPlanSaid asked.now controllers.now (Err e)) }
{
    match controllers {
        [] => Err(SettingsFault::NoSetting),
        [first, ..] => {
            let listing = list(alloc, asked, first)?;
            plan_of_rows(alloc, asked, first, listing.rows.as_slice())
        }
    }
}

/// Returns what is to be shown of what a text asks for; `NoSetting` if it is a plan, and there is none.
pub(crate) fn said(alloc: Global, shown: Shown, wanted: &Wanted) -> Result<Written, SettingsFault>
    ensures ok { IfOk result (λ said. IsShown shown wanted.now (Ok (string_bytes said.text)) said.all) }
    ensures fault { IfErr result (λ e. e ≢ Memory → IsShown shown wanted.now (Err e) true) }
{
    match shown {
        Shown::Best(best) => Ok(list_text(alloc, best.unwrap_or(u32::MAX), wanted)?),
        Shown::Plan => {
            let text = first_plan(alloc, &wanted.asked, wanted.controllers.as_slice())?;
            Ok(Written { text, all: true })
        }
    }
}
