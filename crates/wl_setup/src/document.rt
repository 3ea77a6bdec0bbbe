//! The plan text of a parsed document.
ghost use Rattle.std.specs.Prelude.{◌≡◌, map};
ghost use Rattle.toml.specs.View.{view, table_view};
ghost use Rattle.wl_setup.specs.declared.keys.Key.TheVariants as key;
ghost use Rattle.wl_setup.specs.Kinds.{tables_at};
ghost use Rattle.wl_setup.specs.Faults.{fault_of_controller, table_fault, version_fault};
ghost use Rattle.wl_setup.specs.Keys.{controller_keys};
ghost use Rattle.wl_setup.specs.TablePaths.{controller_faults, controller_tables, disturbance_fault_at, first_in, frame_fault_at, node_fault_at, rate_fault_at};
ghost use Rattle.wl_setup.specs.Texts.{frame_of, disturbance_of, clock_of, rate_of, rates_of, segments_text_of, node_text_of};
ghost use Rattle.wl_setup.specs.Document.{AnswersAt, AnswersEach, Passes, first_fault, head_fault, named_plain, named_text_of, plain_fault};

use crate::fault::SetupFault;
use crate::keys::{self, Key};
use crate::names::Names;
use crate::plan_text::{
    ClockText, DisturbanceText, FrameText, NodeText, PlanText, RateText, SegmentsText,
};
use crate::table_path::{PlacedFault, TablePath, controllers};
use crate::tables::{check_required, check_table};
use crate::values::{
    bytes_at, elements_at, name_at, number_at, positive_at, ppm_at, queue_at, small_at,
    some_name_at, some_number_at, sync_choice_at, tick_at, tolerance_at, truth_at, unit_at,
    value_at,
};
use crate::version::{has_controllers, is_known_version};
use std::alloc::Global;
use toml::{Table, Value};
use wl_level::Listed;
use wl_plain::plain_document;

fn check_version(alloc: Global, top: &Table) -> Result<(), SetupFault>
    ensures { Passes (version_fault (table_view top.now)) result }
{
    check_required(alloc, top, Key::Version)?;
    if is_known_version(number_at(top, Key::Version)) {
        Ok(())
    } else {
        Err(SetupFault::Version)
    }
}

/// What a table of an array is read as.
pub(crate) trait TableText: Drop {
    ghost use Rattle.std.specs.Prelude.{ℕ, Option};
    ghost use Rattle.toml.specs.Data.{Members};
    ghost use Rattle.wl_setup.specs.declared.table_path.PlacedFault.{PlacedFault};

    /// The first fault of such a table, by the version of the text, the number of its node if it is in one, and its own.
    ghost fault: { ℕ → ℕ → ℕ → Members → Option PlacedFault };

    /// What such a table says.
    ghost make: { ℕ → Members → Self };

    fn read(
        alloc: Global,
        version: u64,
        node: u64,
        number: u64,
        table: &Table,
    ) -> Result<Self, PlacedFault>
        ensures { AnswersAt (Self.fault version node number (table_view table.now))
            (Self.make version (table_view table.now)) result };
}

/// Returns the tables in an array, which is in this node if it is in one. What is no table is passed over.
fn rows<T: TableText>(
    alloc: Global,
    version: u64,
    node: u64,
    values: &[Value],
) -> Result<Listed<T>, PlacedFault>
    ensures { AnswersEach (T.fault version node) (T.make version) (map view values.now) result }
{
    let mut rows = Listed::new(alloc);
    for value in values {
        if let Some(table) = value.as_table() {
            let number = rows.len() as u64;
            rows.push(T::read(alloc, version, node, number, table)?)?;
        }
    }
    Ok(rows)
}

impl TableText for FrameText {
    ghost fault = { frame_fault_at };

    ghost make = { λ _. frame_of };

    fn read(
        alloc: Global,
        version: u64,
        node: u64,
        number: u64,
        table: &Table,
    ) -> Result<FrameText, PlacedFault> {
        let keys = keys::frame_keys(version, table);
        TablePath::Frame(node, number).placed(check_table(alloc, table, keys))?;
        Ok(FrameText {
            id: small_at(table, Key::Id),
            dlc: small_at(table, Key::Dlc),
            remote: truth_at(table, Key::Remote),
            bytes: bytes_at(alloc, table, Key::Bytes)?,
            ready: number_at(table, Key::Ready),
            extended: truth_at(table, Key::Extended),
            every: positive_at(table, Key::Every),
            count: positive_at(table, Key::Count),
            deadline: some_number_at(table, Key::Deadline),
            jitter: some_number_at(table, Key::Jitter),
        })
    }
}

impl TableText for DisturbanceText {
    ghost fault = { λ version _. disturbance_fault_at version };

    ghost make = { λ _. disturbance_of };

    fn read(
        alloc: Global,
        version: u64,
        _node: u64,
        number: u64,
        table: &Table,
    ) -> Result<DisturbanceText, PlacedFault> {
        let keys = keys::disturbance_keys(version, table);
        TablePath::Disturbance(number).placed(check_table(alloc, table, keys))?;
        Ok(DisturbanceText {
            node: some_name_at(alloc, table, Key::AtNode)?,
            x: small_at(table, Key::X),
            from: number_at(table, Key::From),
            to: number_at(table, Key::To),
        })
    }
}

/// Returns how fast a clock goes, by the keys of this table.
fn clock(table: &Table) -> ClockText
    ensures { result ≡ clock_of (table_view table.now) }
{
    if value_at(table, Key::Quantum).is_some() {
        ClockText::Ppm {
            quantum: number_at(table, Key::Quantum),
            ppm: ppm_at(table, Key::Ppm),
        }
    } else if value_at(table, Key::Ppm).is_some() {
        ClockText::Fraction {
            num: number_at(table, Key::Num),
            den: number_at(table, Key::Den),
            ppm: ppm_at(table, Key::Ppm),
        }
    } else {
        ClockText::Rate {
            num: number_at(table, Key::Num),
            den: number_at(table, Key::Den),
        }
    }
}

impl TableText for RateText {
    ghost fault = { λ _. rate_fault_at };

    ghost make = { λ _. rate_of };

    fn read(
        alloc: Global,
        _version: u64,
        node: u64,
        number: u64,
        table: &Table,
    ) -> Result<RateText, PlacedFault> {
        let keys = keys::rate_keys(table);
        TablePath::Rate(node, number).placed(check_table(alloc, table, keys))?;
        Ok(RateText {
            from: number_at(table, Key::From),
            clock: clock(table),
        })
    }
}

/// Returns the rates of a node whose table has the keys that it should have.
fn rates(
    alloc: Global,
    version: u64,
    node: u64,
    table: &Table,
) -> Result<Listed<RateText>, PlacedFault>
    ensures { AnswersAt (first_in (rate_fault_at node) (tables_at key.Rates (table_view table.now)))
        (rates_of version (table_view table.now)) result }
{
    let written = rows(alloc, version, node, elements_at(table, Key::Rates))?;
    if keys::has_rates(version, table) {
        return Ok(written);
    }
    let mut rates = Listed::new(alloc);
    rates.push(RateText {
        from: 0,
        clock: clock(table),
    })?;
    Ok(rates)
}

/// Returns the segments of a node whose table has the keys that it should have.
fn segments(version: u64, table: &Table) -> SegmentsText
    ensures { result ≡ segments_text_of version (table_view table.now) }
{
    if keys::has_tseg(version, table) {
        SegmentsText::Controller {
            tseg1: number_at(table, Key::Tseg1),
            tseg2: number_at(table, Key::Tseg2),
        }
    } else {
        SegmentsText::Each {
            prop: number_at(table, Key::Prop),
            ps1: number_at(table, Key::Ps1),
            ps2: number_at(table, Key::Ps2),
        }
    }
}

impl TableText for NodeText {
    ghost fault = { λ version _. node_fault_at version };

    ghost make = { node_text_of };

    fn read(
        alloc: Global,
        version: u64,
        _node: u64,
        number: u64,
        table: &Table,
    ) -> Result<NodeText, PlacedFault> {
        let keys = keys::node_keys(version, table);
        TablePath::Node(number).placed(check_table(alloc, table, keys))?;
        let rates = rates(alloc, version, number, table)?;
        let frame = rows(alloc, version, number, elements_at(table, Key::Frame))?;
        Ok(NodeText {
            name: name_at(alloc, table, Key::Name)?,
            offset: number_at(table, Key::Offset),
            rates,
            segments: segments(version, table),
            sjw: number_at(table, Key::Sjw),
            x: small_at(table, Key::X),
            out_delay: number_at(table, Key::Out),
            in_delay: number_at(table, Key::In),
            frame,
            tolerance: tolerance_at(table, Key::Tolerance),
            listens: truth_at(table, Key::Listen),
            queue: queue_at(table, Key::Queue),
            until: some_number_at(table, Key::Until),
        })
    }
}

/// Tests the table of a controller.
fn check_controller_table(alloc: Global, table: &Table) -> Result<(), SetupFault>
    ensures { Passes (table_fault controller_keys (table_view table.now)) result }
{
    check_table(alloc, table, keys::controller_keys())
}

/// Tests the value of a controller: what is no table has no fault.
fn check_controller(alloc: Global, value: &Value) -> Result<(), SetupFault>
    ensures { Passes (fault_of_controller (view value.now)) result }
{
    match value.as_table() {
        Some(table) => check_controller_table(alloc, table),
        None => Ok(()),
    }
}

/// Tests the tables of controllers.
fn check_controllers(alloc: Global, table: &Table) -> Result<(), PlacedFault>
    ensures { AnswersAt (controller_faults 0 (table_view table.now)) tt result }
{
    for (n, (_, value)) in table.iter().enumerate() {
        TablePath::Controller(n as u64).placed(check_controller(alloc, value))?;
    }
    Ok(())
}

/// Tests the controllers of a document.
fn check_all_controllers(alloc: Global, top: &Table) -> Result<(), PlacedFault>
    ensures { AnswersAt (controller_faults 0 (controller_tables (table_view top.now))) tt result }
{
    match controllers(top) {
        Some(table) => check_controllers(alloc, table),
        None => Ok(()),
    }
}

/// Tests the version, the top table and the controllers of a plain document.
fn check_top(alloc: Global, top: &Table) -> Result<(), PlacedFault>
    ensures { AnswersAt (head_fault (table_view top.now)) tt result }
{
    TablePath::Top.placed(check_version(alloc, top))?;
    let keys = keys::top_keys(number_at(top, Key::Version), top);
    TablePath::Top.placed(check_table(alloc, top, keys))?;
    check_all_controllers(alloc, top)
}

/// Returns the plan text of a plain document's top table, and the names of its nodes; or the first fault, with the table where it is.
fn plain_text(alloc: Global, top: &Table) -> Result<(PlanText, Names), PlacedFault>
    ensures { AnswersAt (plain_fault (table_view top.now)) (named_plain (table_view top.now)) result }
{
    check_top(alloc, top)?;
    let version = number_at(top, Key::Version);
    let plan = PlanText {
        version,
        end: number_at(top, Key::End),
        per: number_at(top, Key::Per),
        node: rows(alloc, version, 0, elements_at(top, Key::Node))?,
        disturbance: rows(alloc, version, 0, elements_at(top, Key::Disturbance))?,
        sync: sync_choice_at(top, Key::Sync),
        tick: tick_at(top, Key::Tick),
        unit: unit_at(top, Key::Unit),
    };
    let names = plan.placed_names(alloc)?;
    Ok((plan, names))
}

/// Returns the plan text of a document's top table, and the names of its nodes; or the first fault, with the table where it is.
pub(crate) fn plan_text(alloc: Global, top: &Table) -> Result<(PlanText, Names), PlacedFault>
    ensures { AnswersAt (first_fault (table_view top.now)) (named_text_of (table_view top.now)) result }
{
    if has_controllers(number_at(top, Key::Version)) {
        let plain = plain_document(alloc, top)?;
        plain_text(alloc, &plain)
    } else {
        plain_text(alloc, top)
    }
}
