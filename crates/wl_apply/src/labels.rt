//! Which nodes get a setting: by the names and the clocks of their controllers, as the plan's document says them.
ghost use Rattle.std.specs.Prelude.{◌≡◌, map, option_map, IfOk};
ghost use Rattle.toml.specs.View.{view, table_view};
ghost use Rattle.wl_apply.specs.Labels.{hertz_of_node, clock_said, controller_name, node_controller, first_fitting, is_meant_for, fits_clock, fits_name, fits_node, is_for_some, label_of, labels_in, labels_of};

use crate::chosen::Chosen;
use std::alloc::{AllocError, Global};
use toml::{Table, Value};
use wl_level::Listed;
use wl_setup::{Key, NodeText, Text, elements_at, value_named};
use wl_units::{Measure, Scale};

/// What a node's table says of its controller.
#[derive(Drop)]
pub(crate) struct Label {
    /// The name of its controller, if it names one.
    pub(crate) controller: Option<Text>,
    /// The frequency of its clock in Hz, if it is said.
    pub(crate) clock: Option<u64>,
}

/// Returns the name of the controller that a node's table names.
fn controller_name(table: &Table) -> Option<&str>
    ensures { option_map (λ t. t.now) result ≡ controller_name (table_view table.now) }
{
    match value_named(table, "controller") {
        Some(value) => value.as_str(),
        None => None,
    }
}

/// Returns the table of the controller that a node's table names, if there is one.
fn node_controller<'a>(top: &'a Table, table: &Table) -> Option<&'a Table>
    ensures { option_map (λ t. table_view t.now) result ≡ node_controller (table_view top.now) (table_view table.now) }
{
    let controllers = value_named(top, "controller")?.as_table()?;
    let name = controller_name(table)?;
    value_named(controllers, name)?.as_table()
}

/// Returns the frequency of the clock that a table says, in Hz.
fn clock_said(table: &Table) -> Option<u64>
    ensures { result ≡ clock_said (table_view table.now) }
{
    let text = value_named(table, "clock")?.as_str()?;
    let scale = Scale { tick: 1, unit: 1 };
    scale.number_said(Measure::Frequency, text)
}

/// Returns the frequency of a node's clock in Hz: its own, or that of its controller.
fn hertz_of_node(top: &Table, table: &Table) -> Option<u64>
    ensures { result ≡ hertz_of_node (table_view top.now) (table_view table.now) }
{
    match clock_said(table) {
        Some(clock) => Some(clock),
        None => clock_said(node_controller(top, table)?),
    }
}

/// Returns what a node's table says of its controller.
fn label_of(alloc: Global, top: &Table, table: &Table) -> Result<Label, AllocError>
    ensures { IfOk result (λ label. label ≡ label_of (table_view top.now) (table_view table.now)) }
{
    let controller = match controller_name(table) {
        Some(name) => Some(Text::new(alloc, name)?),
        None => None,
    };
    Ok(Label {
        controller,
        clock: hertz_of_node(top, table),
    })
}

/// Returns what each table of an array says of its controller. What is no table is passed over.
fn labels_in(alloc: Global, top: &Table, values: &[Value]) -> Result<Listed<Label>, AllocError>
    ensures { IfOk result (λ labels. labels ≡ labels_in (table_view top.now) (map view values.now)) }
{
    let mut labels = Listed::new(alloc);
    for value in values {
        if let Some(table) = value.as_table() {
            labels.push(label_of(alloc, top, table)?)?;
        }
    }
    Ok(labels)
}

/// Returns what the tables of a plan's nodes say of their controllers, in order.
pub(crate) fn labels_of(alloc: Global, top: &Table) -> Result<Listed<Label>, AllocError>
    ensures { IfOk result (λ labels. labels ≡ labels_of (table_view top.now)) }
{
    labels_in(alloc, top, elements_at(top, Key::Node))
}

/// True if a name is that of a setting.
fn fits_name(chosen: &Chosen, name: &Option<Text>) -> bool
    ensures { result ≡ fits_name chosen.now name.now }
{
    match name {
        Some(name) => chosen.name.as_str() == name.as_str(),
        None => false,
    }
}

/// True if a clock, as far as it is said, is that of a setting.
fn fits_clock(chosen: &Chosen, clock: Option<u64>) -> bool
    ensures { result ≡ fits_clock chosen.now clock }
{
    match clock {
        Some(clock) => clock == chosen.clock,
        None => true,
    }
}

/// True if a setting is for this node, by its name or that of its controller, and by its clock.
fn is_meant_for(chosen: &Chosen, label: &Label, node: &NodeText) -> bool
    ensures { result ≡ is_meant_for chosen.now label.now node.now }
{
    (chosen.name.as_str() == node.name.as_str() || fits_name(chosen, &label.controller))
        && fits_clock(chosen, label.clock)
}

/// True if a setting is for node `i`.
fn fits_node(chosen: &Chosen, labels: &[Label], i: usize, node: &NodeText) -> bool
    ensures { result ≡ fits_node labels.now chosen.now (i, node.now) }
{
    match labels.get(i) {
        Some(label) => is_meant_for(chosen, label, node),
        None => false,
    }
}

/// Returns the first setting that is for node `i`.
pub(crate) fn first_fitting<'a>(
    chosen: &'a [Chosen],
    labels: &[Label],
    i: usize,
    node: &NodeText,
) -> Option<&'a Chosen>
    ensures { option_map (λ c. c.now) result ≡ first_fitting labels.now (i, node.now) chosen.now }
{
    match chosen {
        [] => None,
        [first, rest @ ..] => {
            if fits_node(first, labels, i, node) {
                Some(first)
            } else {
                first_fitting(rest, labels, i, node)
            }
        }
    }
}

/// True if a setting is for some node.
pub(crate) fn is_for_some(chosen: &Chosen, labels: &[Label], nodes: &[NodeText]) -> bool
    ensures { result ≡ is_for_some labels.now nodes.now chosen.now }
{
    for (i, node) in nodes.iter().enumerate() {
        if fits_node(chosen, labels, i, node) {
            return true;
        }
    }
    false
}
