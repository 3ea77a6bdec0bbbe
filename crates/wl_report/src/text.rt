//! The report of an outcome.
ghost use Rattle.std.specs.Prelude.{◌≡◌, OnOk, IfOk};
ghost use Rattle.std.specs.List.{enumerate_from, flat_map};
ghost use Rattle.wl_report.specs.Lines.{GrowsBy};
ghost use Rattle.wl_report.specs.Report.{node_report_lines, report_text};
ghost use Rattle.wl_serial.specs.Outcome.{totals_of};

use crate::nodes::push_node;
use crate::verdict::push_verdict;
use std::alloc::{AllocError, Global};
use wl_serial::{NodeTotals, Outcome, Totals};

/// For how many bytes there is room at first: most reports have fewer. What isn't written is never touched.
const FIRST_ROOM: usize = 65_536;

/// Adds the lines of all nodes.
fn push_nodes(text: &mut String, nodes: &[NodeTotals]) -> Result<(), AllocError>
    ensures { OnOk result (GrowsBy text.old text.new (flat_map node_report_lines (enumerate_from 0 nodes.now))) }
{
    for (number, node) in nodes.iter().enumerate() {
        push_node(text, number, node)?;
    }
    Ok(())
}

/// Returns the report of an outcome. Refused only when out of memory.
///
/// For each node in order it has a line
/// `node {i} tec {n} rec {n} mode {active|passive|off} errors {n} samples {n} hard {n} sync {n} least {e} greatest {e}`; phase errors are
/// in quanta, and `-` if there are none. Then comes a line for each frame in the order in which they passed,
/// `frame {i} {sent|received} {quantum} {id} {data|remote} {dlc} {bytes}`; identifier and bytes are in hexadecimal digits, `-` for no byte.
/// Last comes `verdict clean` if no node has an error and none has an unsent frame, else `verdict faulty errors {sum} unsent {sum}`.
pub fn report(alloc: Global, outcome: &Outcome) -> Result<Vec<u8>, AllocError>
    ensures { IfOk result (λ text. text.items ≡ report_text (totals_of outcome.now)) }
{
    let totals = outcome.totals(alloc)?;
    report_of_totals(alloc, &totals)
}

/// Returns the report of an outcome, by what it says of each node. Refused only when out of memory.
pub fn report_of_totals(alloc: Global, totals: &Totals) -> Result<Vec<u8>, AllocError>
    ensures { IfOk result (λ text. text.items ≡ report_text totals.now) }
{
    let mut text = String::with_capacity(alloc, FIRST_ROOM)?;
    let nodes = totals.as_slice();
    push_nodes(&mut text, nodes)?;
    push_verdict(&mut text, nodes)?;
    Ok(text.into_bytes())
}
