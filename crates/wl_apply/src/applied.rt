//! A plan with other settings.
ghost use Rattle.std.specs.Prelude.{◌≡◌, ◌≢◌, map, option_map, string_bytes, IfOk, IfErr, All};
ghost use Rattle.std.specs.List.{enumerate_from};
ghost use Rattle.toml.specs.View.{table_view};
ghost use Rattle.wl_apply.specs.declared.fault.ApplyFault.TheVariants.{Memory};
ghost use Rattle.wl_apply.specs.Answers.{AnswersMade, each_made};
ghost use Rattle.wl_apply.specs.Applied.{IsWritten, IsReadBack, applied, is_tick_said, if_made_runs, named_all, node_at, set_plan};
ghost use Rattle.wl_apply.specs.Labels.{first_unnamed, labels_of};

use crate::chosen::Chosen;
use crate::fault::ApplyFault;
use crate::labels::{Label, first_fitting, is_for_some, labels_of};
use crate::node::node_by;
use std::alloc::Global;
use toml::Table;
use wl_level::Listed;
use wl_print::{plan_text, read_is_printable};
use wl_setup::{NodeText, PlanText, Text};

/// The version that has all segments and clocks.
const VERSION_OF_CONTROLLERS: u64 = 4;

/// How many femtoseconds a picosecond has.
const FEMTOSECONDS: u128 = 1_000;

/// True if a tick of a plan takes `tick` picoseconds, as far as the plan says it.
fn is_tick_said(tick: u64, said: Option<u64>) -> bool
    ensures { result ≡ is_tick_said tick said }
{
    match said {
        Some(said) => said as u128 == tick as u128 * FEMTOSECONDS,
        None => true,
    }
}

/// Returns the first setting that is for no node.
fn first_unnamed<'a>(
    chosen: &'a [Chosen],
    labels: &[Label],
    nodes: &[NodeText],
) -> Option<&'a Chosen>
    ensures { option_map (λ c. c.now) result ≡ first_unnamed labels.now nodes.now chosen.now }
{
    match chosen {
        [] => None,
        [first, rest @ ..] => {
            if is_for_some(first, labels, nodes) {
                first_unnamed(rest, labels, nodes)
            } else {
                Some(first)
            }
        }
    }
}

/// Tests whether each setting is for some node.
fn name_all(
    alloc: Global,
    chosen: &[Chosen],
    labels: &[Label],
    nodes: &[NodeText],
) -> Result<(), ApplyFault>
    ensures { AnswersMade (named_all (first_unnamed labels.now nodes.now chosen.now)) result }
{
    match first_unnamed(chosen, labels, nodes) {
        Some(chosen) => Err(ApplyFault::NoNode(Text::new(alloc, chosen.name.as_str())?)),
        None => Ok(()),
    }
}

/// Returns the nodes with their settings, or the first that can't have its own.
fn nodes_with(
    alloc: Global,
    wide: bool,
    chosen: &[Chosen],
    labels: &[Label],
    nodes: &[NodeText],
) -> Result<Listed<NodeText>, ApplyFault>
    ensures { AnswersMade (each_made (node_at wide chosen.now labels.now) (enumerate_from 0 nodes.now)) result }
{
    let mut made = Listed::new(alloc);
    for (i, node) in nodes.iter().enumerate() {
        let found = first_fitting(chosen, labels, i, node);
        made.push(node_by(alloc, wide, found, i as u64, node)?)?;
    }
    Ok(made)
}

/// Returns a plan with the settings of its nodes, and each time as it was.
fn set_plan(
    alloc: Global,
    chosen: &[Chosen],
    labels: &[Label],
    read: PlanText,
) -> Result<PlanText, ApplyFault>
    ensures { AnswersMade (set_plan chosen.now labels.now read) result }
{
    let wide = read.version == VERSION_OF_CONTROLLERS;
    name_all(alloc, chosen, labels, read.node.as_slice())?;
    let node = nodes_with(alloc, wide, chosen, labels, read.node.as_slice())?;
    Ok(PlanText { node, ..read })
}

/// Returns a plan that can be run with the settings of its nodes, as such a plan.
fn applied(
    alloc: Global,
    tick: u64,
    chosen: &[Chosen],
    top: &Table,
    read: PlanText,
) -> Result<PlanText, ApplyFault>
    ensures { AnswersMade (applied tick chosen.now (table_view top.now) read) result }
{
    read.plan(alloc)?;
    if !is_tick_said(tick, read.tick) {
        return Err(ApplyFault::Tick);
    }
    let labels = labels_of(alloc, top)?;
    let made = set_plan(alloc, chosen, labels.as_slice(), read)?;
    made.plan(alloc)?;
    Ok(made)
}

/// Returns the text of a plan with other settings: a setting is for each node that has its name, or whose controller has it, and whose clock,
/// as far as the document says it, is its own. The first one in order counts. `tick` is the length of a tick in picoseconds, in which the
/// settings count their quanta.
///
/// Such a node has the quantum, the segments and the jump width of the setting; its clock's own deviation stays. Each frame becomes ready, and
/// comes again, when it did, in new quanta. The document is that of the plan. The first of these faults: `Setup`, as the plan is; `Tick`;
/// `NoNode`; of the nodes in order `Rates`, `WantsVersion4` and `Time`; `Setup` of the plan with the settings.
pub fn applied_text(
    alloc: Global,
    tick: u64,
    chosen: &[Chosen],
    top: &Table,
    read: PlanText,
) -> Result<String, ApplyFault>
    ensures text { IfOk result (λ text. IsWritten (applied tick chosen.now (table_view top.now) read)
        (string_bytes text)) }
    ensures fault { IfErr result (λ e. e ≢ Memory → applied tick chosen.now (table_view top.now) read ≡ Err e) }
    ensures reads_back { IfOk result (λ text. IsReadBack tick chosen.now (table_view top.now) read
        (string_bytes text)) }
{
    read_is_printable();
    let made = applied(alloc, tick, chosen, top, read)?;
    Ok(plan_text(alloc, &made)?)
}
