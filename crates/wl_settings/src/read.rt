//! What a text asks for.
ghost use Rattle.std.specs.Prelude.{◌≡◌, ◌≢◌, Ok, Err, IfOk, IfErr, map};
ghost use Rattle.toml.specs.View.{view, table_view};
ghost use Rattle.wl_settings.specs.Faults.{AnswersFault, PassesTest, bus_fault, controller_fault, wanted_fault};
ghost use Rattle.wl_settings.specs.Keys.{bus_optional, controller_optional};
ghost use Rattle.wl_settings.specs.Texts.{AnswersControllers, IsWantedAnswer, ReadsWanted, asked_of, bounds_of, controller_of, lesser_bounds, lesser_parts, single_bounds_of, wanted_in_text, wanted_of};

use crate::asked::{Asked, Bounds, Controller};
use crate::fault::SettingsFault;
use crate::keys::Key;
use crate::parts::Parts;
use crate::tables::check_table;
use crate::values::{
    bounds_at, flag_at, has_joint_parts, number_at, segment_at, senders_at, wished_sample_at,
};
use std::alloc::{AllocError, Global};
use toml::{Table, Value};
use wl_device::{Ended, Source};
use wl_level::Listed;
use wl_setup::{NoDocument, document_or_place, elements_at, name_at, read_bytes};

/// What a text asks for.
#[derive(Drop)]
pub struct Wanted {
    /// The bus.
    pub asked: Asked,
    /// The controllers, at least one, in the order of their tables.
    pub controllers: Listed<Controller>,
}

/// Returns what a controller can be set to, each segment by itself.
fn single_bounds_of(table: &Table) -> Bounds
    ensures { result ≡ single_bounds_of (table_view table.now) }
{
    Bounds {
        prescaler: number_at(table, Key::Prescaler, 1024),
        parts: Parts::Each {
            prop: segment_at(table, Key::Prop, 8),
            ps1: segment_at(table, Key::Ps1, 8),
            ps2: segment_at(table, Key::Ps2, 8),
        },
        sjw: segment_at(table, Key::Sjw, 4),
        is_sjw_free: flag_at(table, Key::SjwFree),
        kind: None,
    }
}

/// Returns the lesser ones of these parts and of TSEG1 and TSEG2.
fn lesser_parts(parts: Parts, tseg1: u16, tseg2: u16) -> Parts
    ensures { result ≡ lesser_parts parts tseg1 tseg2 }
{
    match parts {
        Parts::Each { .. } => parts,
        Parts::Joint { tseg1: a, tseg2: b } => Parts::Joint {
            tseg1: a.min(tseg1),
            tseg2: b.min(tseg2),
        },
    }
}

/// Returns what a controller can be set to that its registers and these bounds allow.
fn lesser_bounds(bounds: Bounds, table: &Table) -> Bounds
    ensures { result ≡ lesser_bounds bounds (table_view table.now) }
{
    let tseg1 = segment_at(table, Key::Tseg1, 256);
    let tseg2 = segment_at(table, Key::Tseg2, 128);
    Bounds {
        prescaler: bounds.prescaler.min(number_at(table, Key::Prescaler, 1024)),
        parts: lesser_parts(bounds.parts, tseg1, tseg2),
        sjw: bounds.sjw.min(segment_at(table, Key::WideSjw, 128)),
        is_sjw_free: bounds.is_sjw_free,
        kind: bounds.kind,
    }
}

/// Returns what a controller can be set to.
fn bounds_of(joint: bool, table: &Table) -> Bounds
    ensures { result ≡ bounds_of joint (table_view table.now) }
{
    if joint {
        lesser_bounds(bounds_at(table, Key::Kind), table)
    } else {
        single_bounds_of(table)
    }
}

/// Returns the optional keys of a controller.
fn controller_optional(joint: bool) -> &'static [Key]
    ensures { result.now ≡ controller_optional joint }
{
    if joint {
        &[
            Key::Kind,
            Key::Prescaler,
            Key::Tseg1,
            Key::Tseg2,
            Key::WideSjw,
        ]
    } else {
        &[
            Key::Prescaler,
            Key::Prop,
            Key::Ps1,
            Key::Ps2,
            Key::Sjw,
            Key::SjwFree,
        ]
    }
}

/// Returns the controller of a table, or the table's first fault.
fn read_controller(alloc: Global, joint: bool, table: &Table) -> Result<Controller, SettingsFault>
    ensures { AnswersFault (controller_fault joint (table_view table.now))
        (controller_of joint (table_view table.now)) result }
{
    check_table(
        alloc,
        table,
        &[Key::Name, Key::Clock],
        controller_optional(joint),
    )?;
    Ok(Controller {
        name: name_at(alloc, table, Key::Name)?,
        clock: number_at(table, Key::Clock, 0),
        bounds: bounds_of(joint, table),
    })
}

/// Returns the controllers of the tables in an array. What is no table is passed over.
fn read_controllers(
    alloc: Global,
    joint: bool,
    values: &[Value],
) -> Result<Listed<Controller>, SettingsFault>
    ensures { AnswersControllers joint (map view values.now) result }
{
    let mut all = Listed::new(alloc);
    for value in values {
        if let Some(table) = value.as_table() {
            all.push(read_controller(alloc, joint, table)?)?;
        }
    }
    Ok(all)
}

/// Returns the bus that the top table asks for.
fn asked_of(table: &Table, tick: u64) -> Asked
    ensures { result ≡ asked_of tick (table_view table.now) }
{
    Asked {
        bitrate: number_at(table, Key::Bitrate, 0),
        cable: number_at(table, Key::Cable, 0),
        per: number_at(table, Key::Per, 0),
        out_delay: number_at(table, Key::Out, 0),
        in_delay: number_at(table, Key::In, 0),
        tolerance: number_at(table, Key::Tolerance, 0),
        senders: senders_at(table, Key::Senders),
        rate_error: number_at(table, Key::RateError, 0),
        sample: wished_sample_at(table, Key::SamplePoint),
        nodes: number_at(table, Key::Nodes, 2),
        tick,
    }
}

/// Returns the optional keys of the top table.
fn bus_optional(joint: bool) -> &'static [Key]
    ensures { result.now ≡ bus_optional joint }
{
    if joint {
        &[Key::Version, Key::RateError, Key::SamplePoint, Key::Nodes]
    } else {
        &[Key::RateError, Key::SamplePoint, Key::Nodes]
    }
}

/// Tests the top table.
#[tactic(auto, unfolding(crate::specs::Faults::bus_fault))]
fn check_bus(alloc: Global, top: &Table) -> Result<(), SettingsFault>
    ensures { PassesTest (bus_fault (table_view top.now)) result }
{
    let joint = has_joint_parts(top);
    let required = &[
        Key::Bitrate,
        Key::Cable,
        Key::Per,
        Key::Out,
        Key::In,
        Key::Tolerance,
        Key::Senders,
        Key::Controller,
    ];
    check_table(alloc, top, required, bus_optional(joint))
}

/// Returns what a document asks for, or its first fault.
fn read_document(alloc: Global, tick: u64, top: &Table) -> Result<Wanted, SettingsFault>
    ensures { AnswersFault (wanted_fault (table_view top.now)) (wanted_of tick (table_view top.now)) result }
{
    let joint = has_joint_parts(top);
    check_bus(alloc, top)?;
    let controllers = read_controllers(alloc, joint, elements_at(top, Key::Controller))?;
    if controllers.is_empty() {
        return Err(SettingsFault::NoController);
    }
    Ok(Wanted {
        asked: asked_of(top, tick),
        controllers,
    })
}

/// Returns what a text asks for, or its first fault.
fn wanted_of_bytes(alloc: Global, tick: u64, text: &[u8]) -> Result<Wanted, SettingsFault>
    ensures { IsWantedAnswer (wanted_in_text tick text.now) result }
{
    match document_or_place(alloc, text) {
        Ok(top) => read_document(alloc, tick, &top),
        Err(NoDocument::At(_)) => Err(SettingsFault::Toml),
        Err(NoDocument::Memory) => Err(SettingsFault::Memory),
    }
}

/// Reads what is asked for: TOML of at most 1,048,576 bytes.
///
/// Returns it, or the first fault: `Read` or `Size`, whichever the reading meets first; `Toml`; then of the top table, and of each
/// `[[controller]]` in order, a missing key or one of another kind, and an unknown one; then `NoController`. `Memory` may be returned at any point.
pub fn read_wanted<R: Source>(
    alloc: Global,
    tick: u64,
    reader: &mut R,
) -> Result<Wanted, SettingsFault>
    ensures { result ≢ Err SettingsFault.Memory → ReadsWanted R.gives tick reader.old result reader.new }
{
    let (text, ended) = read_bytes(alloc, reader)?;
    match ended {
        Ended::End => wanted_of_bytes(alloc, tick, text.as_slice()),
        Ended::Broken => Err(SettingsFault::Read),
        Ended::Full => Err(SettingsFault::Size),
    }
}
