//! The verdict on all nodes.
ghost use Rattle.std.specs.Prelude.{◌≡◌, OnOk};
ghost use Rattle.std.specs.List.{sum_by};
ghost use Rattle.wl_report.specs.Lines.{GrowsBy};
ghost use Rattle.wl_report.specs.Report.{verdict_line};

use std::alloc::AllocError;
use wl_serial::NodeTotals;

/// Returns the errors of all nodes together. The sum is exact: a slice has fewer than 2^64 nodes.
pub fn all_errors(nodes: &[NodeTotals]) -> u128
    ensures { result ≡ sum_by (λ n. n.errors) nodes.now }
{
    let mut sum = 0u128;
    for node in nodes {
        sum += u128::from(node.errors);
    }
    sum
}

/// Returns the unsent frames of all nodes together.
pub fn all_unsent(nodes: &[NodeTotals]) -> u128
    ensures { result ≡ sum_by (λ n. n.unsent) nodes.now }
{
    let mut sum = 0u128;
    for node in nodes {
        sum += u128::from(node.unsent);
    }
    sum
}

/// Adds the verdict.
#[tactic(auto, using(crate::proofs::Sums::verdict_clean, crate::proofs::Sums::verdict_faulty))]
pub(crate) fn push_verdict(text: &mut String, nodes: &[NodeTotals]) -> Result<(), AllocError>
    ensures { OnOk result (GrowsBy text.old text.new (verdict_line nodes.now)) }
{
    let errors = all_errors(nodes);
    let unsent = all_unsent(nodes);
    if errors == 0 && unsent == 0 {
        writeln!(text, "verdict clean")
    } else {
        writeln!(text, "verdict faulty errors {errors} unsent {unsent}")
    }
}
