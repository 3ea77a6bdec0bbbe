//! The first setting of each controller, as the nodes of a plan get it.
ghost use Rattle.std.specs.Prelude.{◌≡◌, ◌≢◌, All, IfOk, IfErr};
ghost use Rattle.wl_apply.specs.Applied.{IsWritable};
ghost use Rattle.wl_settings.specs.Choices.{AreFirstChosen, GrowsByChosen, IsFirstChosen, LacksSetting, chosen_among, chosen_of};
ghost use Rattle.wl_settings.specs.declared.fault.SettingsFault.TheVariants.{Memory, NoSetting};

use crate::asked::{Asked, Controller, Setting};
use crate::fault::SettingsFault;
use crate::judged::WorkingSetting;
use crate::listing::list;
use crate::plan::{quantum_of, segments_text};
use crate::read::Wanted;
use std::alloc::{AllocError, Global};
use wl_apply::Chosen;
use wl_level::Listed;
use wl_setup::Text;

/// Returns a setting of a controller as the nodes of a plan get it.
fn chosen_of(
    alloc: Global,
    asked: &Asked,
    controller: &Controller,
    setting: Setting,
) -> Result<Chosen, AllocError>
    ensures chosen { IfOk result (λ chosen. chosen ≡ chosen_of asked.now controller.now setting) }
    ensures keys { IfOk result IsWritable }
{
    Ok(Chosen {
        name: Text::new(alloc, controller.name.as_str())?,
        clock: controller.clock as u64,
        quantum: quantum_of(asked, controller.clock, setting),
        segments: segments_text(setting.parts),
        sjw: setting.sjw as u64,
    })
}

/// Returns the first of these rows, if there is one.
fn chosen_among(
    alloc: Global,
    asked: &Asked,
    controller: &Controller,
    rows: &[WorkingSetting],
) -> Result<Chosen, SettingsFault>
    ensures ok { IfOk result (λ chosen. chosen_among asked.now controller.now rows.now ≡ Ok chosen) }
    ensures keys { IfOk result IsWritable }
    ensures fault { IfErr result (λ e. e ≢ Memory → chosen_among asked.now controller.now rows.now ≡ Err e) }
{
    match rows {
        [] => Err(SettingsFault::NoSetting),
        [first, ..] => Ok(chosen_of(alloc, asked, controller, first.setting)?),
    }
}

/// Returns the first setting of a controller with which the bus works.
fn first_chosen(
    alloc: Global,
    asked: &Asked,
    controller: &Controller,
) -> Result<Chosen, SettingsFault>
    ensures ok { IfOk result (λ chosen. IsFirstChosen asked.now controller.now (Ok chosen)) }
    ensures keys { IfOk result IsWritable }
    ensures fault { IfErr result (λ e. e ≢ Memory → IsFirstChosen asked.now controller.now (Err e)) }
{
    let listing = list(alloc, asked, controller)?;
    chosen_among(alloc, asked, controller, listing.rows.as_slice())
}

/// Returns settings, and after them the first one of each of these controllers.
fn with_chosen(
    alloc: Global,
    mut chosen: Listed<Chosen>,
    asked: &Asked,
    controllers: &[Controller],
) -> Result<Listed<Chosen>, SettingsFault>
    ensures ok { IfOk result (λ all. GrowsByChosen asked.now controllers.now chosen all) }
    ensures keys { IfOk result (λ all. All IsWritable chosen → All IsWritable all) }
    ensures fault { IfErr result (λ e. e ≢ Memory → (e ≡ NoSetting) × LacksSetting asked.now controllers.now) }
{
    match controllers {
        [] => Ok(chosen),
        [first, rest @ ..] => {
            chosen.push(first_chosen(alloc, asked, first)?)?;
            with_chosen(alloc, chosen, asked, rest)
        }
    }
}

/// Returns the first setting of each controller, in order, as the nodes of a plan get it; `NoSetting` if the bus works with none of one.
pub fn chosen_settings(alloc: Global, wanted: &Wanted) -> Result<Listed<Chosen>, SettingsFault>
    ensures ok { IfOk result (λ all. AreFirstChosen wanted.now.asked wanted.now.controllers all) }
    ensures keys { IfOk result (λ all. All IsWritable all) }
    ensures fault { IfErr result (λ e. e ≢ Memory
        → (e ≡ NoSetting) × LacksSetting wanted.now.asked wanted.now.controllers) }
{
    with_chosen(
        alloc,
        Listed::new(alloc),
        &wanted.asked,
        wanted.controllers.as_slice(),
    )
}
