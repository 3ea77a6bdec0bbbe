//! What a check of a plan prints.
ghost use Rattle.std.specs.Prelude.{◌≡◌, ◌<◌, ◌++◌, ◌∷◌, [], length, string_bytes, IfOk, IfErr};
ghost use Rattle.std.specs.List.{enumerate_from};
ghost use Rattle.wl_setup.specs.Check.{node_words, pair_words, pair_line, pair_lines_of, pair_lines, IsNodeLine, AreNodeLines, IsPlanCheck};

use crate::names::Names;
use std::alloc::{AllocError, Global};
use std::fmt;
use wl_node::NodeSetup;
use wl_plan::Plan;
use wl_segments::Segments;
use wl_topology::Topology;

/// What is printed of a node.
#[derive(Clone, Copy)]
struct NodeLine<'a> {
    number: u64,
    name: &'a str,
    quanta: u64,
    sample: u64,
    jump: u64,
    ppm: u32,
}

impl fmt::Display for NodeLine<'_> {
    ghost use Rattle.std.specs.Prelude.{Some};
    ghost use Rattle.wl_setup.specs.Check.{node_words};

    ghost output = { λ l. Some (node_words l) };

    fn fmt<W: fmt::Write>(&self, f: &mut fmt::Formatter<W>) -> fmt::Result {
        let NodeLine {
            number,
            name,
            quanta,
            sample,
            jump,
            ppm,
        } = *self;
        write!(
            f,
            "node {number} {name} quanta {quanta} sample {sample} jump {jump} ppm {ppm}"
        )
    }
}

/// What is printed of a pair of nodes.
#[derive(Clone, Copy)]
struct PairLine {
    i: u8,
    j: u8,
    there: u64,
    back: u64,
}

impl fmt::Display for PairLine {
    ghost use Rattle.std.specs.Prelude.{Some};
    ghost use Rattle.wl_setup.specs.Check.{pair_words};

    ghost output = { λ l. Some (pair_words l) };

    fn fmt<W: fmt::Write>(&self, f: &mut fmt::Formatter<W>) -> fmt::Result {
        let PairLine { i, j, there, back } = *self;
        write!(f, "pair {i} {j} delay {there} back {back}")
    }
}

fn spelled_node(alloc: Global, line: &NodeLine) -> Result<String, AllocError>
    ensures { IfOk result (λ text. string_bytes text ≡ node_words line.now ++ 10 ∷ []) }
{
    format!(in alloc; "{line}\n")
}

fn spelled_pair(alloc: Global, line: &PairLine) -> Result<String, AllocError>
    ensures { IfOk result (λ text. string_bytes text ≡ pair_words line.now ++ 10 ∷ []) }
{
    format!(in alloc; "{line}\n")
}

/// Returns the line of node `i`.
fn node_line(alloc: Global, names: &Names, i: usize, node: &NodeSetup) -> Result<String, AllocError>
    ensures { IfOk result (λ line. IsNodeLine names.now (i, node.now) (string_bytes line)) }
{
    let segments = &node.segments;
    let line = NodeLine {
        number: i as u64,
        name: names.name_of(i),
        quanta: segments.bit_quanta(),
        sample: segments.sample_at(),
        jump: segments.sjw(),
        ppm: segments.greatest_ppm(),
    };
    spelled_node(alloc, &line)
}

/// Returns the lines of the nodes.
fn node_lines(alloc: Global, nodes: &[NodeSetup], names: &Names) -> Result<String, AllocError>
    ensures { IfOk result (λ text. AreNodeLines names.now (enumerate_from 0 nodes.now) (string_bytes text)) }
{
    let mut text = String::new(alloc);
    for (i, node) in nodes.iter().enumerate() {
        let line = node_line(alloc, names, i, node)?;
        text.push_str(line.as_str())?;
    }
    Ok(text)
}

/// Returns the line of nodes `i` and `j`.
fn pair_line(alloc: Global, topology: &Topology, i: u8, j: u8) -> Result<String, AllocError>
    requires first { i < length topology.now.places }
    requires second { j < length topology.now.places }
    ensures { IfOk result (λ line. string_bytes line ≡ pair_line topology.now (i, j)) }
{
    let line = PairLine {
        i,
        j,
        there: topology.propagation(i, j),
        back: topology.propagation(j, i),
    };
    spelled_pair(alloc, &line)
}

/// Adds the lines of node `i` and the nodes after it.
fn push_pairs_of(
    alloc: Global,
    topology: &Topology,
    i: u8,
    text: &mut String,
) -> Result<(), AllocError>
    requires { i < length topology.now.places }
    ensures { IfOk result (λ _. string_bytes text.new ≡ string_bytes text.old ++ pair_lines_of topology.now i) }
{
    for j in 0..topology.nodes() {
        if i < j {
            let line = pair_line(alloc, topology, i, j)?;
            text.push_str(line.as_str())?;
        }
    }
    Ok(())
}

/// Adds the lines of all pairs.
fn push_pairs(alloc: Global, topology: &Topology, text: &mut String) -> Result<(), AllocError>
    ensures { IfOk result (λ _. string_bytes text.new ≡ string_bytes text.old ++ pair_lines topology.now) }
{
    for i in 0..topology.nodes() {
        push_pairs_of(alloc, topology, i, text)?;
    }
    Ok(())
}

/// Returns what a check prints of a plan.
///
/// For each node it has the number and name, the quanta of a bit, the quantum of the sample and the resynchronisation jump width. The last
/// number is the greatest deviation in parts per million that both oscillators of a pair may have. Then it has for each pair of nodes the
/// ticks that a level takes from the first to the second, and those back. Pairs come by the first node and then by the second. A node
/// without a name has an empty one. Refused only when out of memory.
pub fn check_plan(alloc: Global, plan: &Plan, names: &Names) -> Result<String, AllocError>
    ensures { IfOk result (λ text. IsPlanCheck plan.now names.now (string_bytes text)) }
{
    let mut text = node_lines(alloc, plan.nodes.as_slice(), names)?;
    push_pairs(alloc, &plan.topology, &mut text)?;
    Ok(text)
}
