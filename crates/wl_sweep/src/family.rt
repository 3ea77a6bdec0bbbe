//! The members of a family of plan texts.
ghost use Rattle.std.specs.Prelude.{◌≡◌, IfOk, is_ok};
ghost use Rattle.std.specs.List.{enumerate_from};
ghost use Rattle.wl_setup.specs.Plans.{plan_of_text};
ghost use Rattle.wl_sweep.specs.Family.{bit_in, choice_count, chosen, draws_of, kept, least_quantum, member_count, member_of, member_nodes, offset_count, offset_step, quanta_in, quantum_at, quantum_in, run_count, side_of, sign_count, varied};

use crate::change::{Side, moved_node, text_again};
use crate::digit_source::DigitSource;
use crate::options::Options;
use rand_core::SeedableRng;
use rand_xoshiro::SplitMix64;
use std::alloc::{AllocError, Global};
use wl_level::Listed;
use wl_setup::{ClockText, NodeText, PlanText, SegmentsText, SetupFault};

/// The most ticks of a bit over which offsets go.
const LONGEST_BIT: u128 = 1 << 48;

/// Returns the ticks of a quantum at a rate, rounded down, at least one.
fn quantum_at(clock: ClockText) -> u64
    ensures { result ≡ quantum_at clock }
{
    match clock {
        ClockText::Rate { num, den } | ClockText::Fraction { num, den, .. } => (num
            / den.max(1)).max(1),
        ClockText::Ppm { quantum, .. } => quantum.max(1),
    }
}

/// Returns the ticks of a node's quantum, at its first rate.
fn quantum_in(node: &NodeText) -> u64
    ensures { result ≡ quantum_in node.now }
{
    match node.rates.as_slice().first() {
        Some(rate) => quantum_at(rate.clock),
        None => 1,
    }
}

/// Returns the quanta of a bit.
fn quanta_in(segments: SegmentsText) -> u128
    ensures { result ≡ quanta_in segments }
{
    match segments {
        SegmentsText::Each { prop, ps1, ps2 } => {
            1 + u128::from(prop) + u128::from(ps1) + u128::from(ps2)
        }
        SegmentsText::Controller { tseg1, tseg2 } => 1 + u128::from(tseg1) + u128::from(tseg2),
    }
}

/// Returns the ticks of a node's bit at its first rate, at most 2^48.
pub fn bit_in(node: &NodeText) -> u64
    ensures { result ≡ bit_in node.now }
{
    let ticks = u128::from(quantum_in(node)).saturating_mul(quanta_in(node.segments));
    ticks.min(LONGEST_BIT) as u64
}

/// Returns the shortest quantum of some nodes.
fn least_quantum(nodes: &[NodeText]) -> u64
    ensures { result ≡ least_quantum nodes.now }
{
    let mut least = u64::MAX;
    for node in nodes {
        least = least.min(quantum_in(node));
    }
    least
}

/// Returns the ticks between two offsets of a node.
fn offset_step(options: Options, text: &PlanText) -> u64
    ensures { result ≡ offset_step options text.now }
{
    match options.step {
        None => (least_quantum(text.node.as_slice()) / 5).max(1),
        Some(step) => step,
    }
}

/// Returns how many offsets node `i` has.
fn offset_count(options: Options, step: u64, i: usize, node: &NodeText) -> u64
    ensures { result ≡ offset_count options step (i, node.now) }
{
    if options.keep_offsets || i == 0 {
        1
    } else {
        bit_in(node).div_ceil(step.max(1))
    }
}

/// Returns how many signs the deviation of a node has.
fn sign_count(options: Options, node: &NodeText) -> u64
    ensures { result ≡ sign_count options node.now }
{
    if options.keep_ppm || node.tolerance.unwrap_or(0) == 0 {
        1
    } else {
        2
    }
}

/// Returns on which side of its rates a clock is, by its sign.
fn side_of(options: Options, tolerance: Option<u32>, sign: u64) -> Side
    ensures { result ≡ side_of options tolerance sign }
{
    match tolerance {
        None => Side::Own,
        Some(ppm) => {
            if options.keep_ppm {
                Side::Own
            } else if sign == 0 {
                Side::Slow(ppm)
            } else {
                Side::Fast(ppm)
            }
        }
    }
}

/// What a member changes of a node.
#[derive(Clone, Copy, Debug, PartialEq, Eq)]
pub(crate) struct Choice {
    /// The ticks by which it begins later.
    pub(crate) by: u64,
    /// On which side of its rates its clock is.
    pub(crate) side: Side,
}

/// Returns what a member changes of node `i`.
pub(crate) fn choose(
    options: Options,
    step: u64,
    i: usize,
    node: &NodeText,
    draws: &mut DigitSource,
) -> Choice
    ensures { (result, draws.new) ≡ chosen options step (i, node.now) draws.old }
{
    let place = draws.below(offset_count(options, step, i, node));
    let sign = draws.below(sign_count(options, node));
    Choice {
        by: step.saturating_mul(place),
        side: side_of(options, node.tolerance, sign),
    }
}

/// Returns how many members nodes make.
fn choice_count(options: Options, step: u64, nodes: &[NodeText]) -> u128
    ensures { result ≡ choice_count options step (enumerate_from 0 nodes.now) }
{
    let mut count = 1u128;
    for (i, node) in nodes.iter().enumerate() {
        let offsets = offset_count(options, step, i, node);
        let signs = sign_count(options, node);
        count = count
            .saturating_mul(u128::from(offsets))
            .saturating_mul(u128::from(signs));
    }
    count
}

/// True if a text is accepted.
fn is_accepted(alloc: Global, text: &PlanText) -> Result<bool, AllocError>
    ensures { IfOk result (λ accepted. accepted ≡ is_ok (plan_of_text text.now)) }
{
    match text.plan(alloc) {
        Ok(_) => Ok(true),
        Err(SetupFault::Memory) => Err(AllocError),
        Err(_) => Ok(false),
    }
}

/// Returns what is varied of a text: nothing if it is refused, so that its one member is the text
/// itself.
fn varied(alloc: Global, options: Options, text: &PlanText) -> Result<Options, AllocError>
    ensures { IfOk result (λ all. all ≡ varied options text.now) }
{
    if is_accepted(alloc, text)? {
        Ok(options)
    } else {
        Ok(Options {
            keep_offsets: true,
            keep_ppm: true,
            ..options
        })
    }
}

/// A family of plan texts: the text that its members are made of, and what is varied.
#[derive(Drop)]
pub(crate) struct TextFamily {
    /// The text as it is.
    pub(crate) text: PlanText,
    pub(crate) options: Options,
    free: Options,
    step: u64,
    count: u128,
    pub(crate) ghost free_is: { free ≡ varied options text },
    pub(crate) ghost step_is: { step ≡ offset_step options text },
    pub(crate) ghost count_is: { count ≡ member_count options text },
}

impl TextFamily {
    /// Returns the family of a text.
    pub(crate) fn new(
        alloc: Global,
        text: PlanText,
        options: Options,
    ) -> Result<TextFamily, AllocError>
        ensures text { IfOk result (λ family. family.text ≡ text) }
        ensures options { IfOk result (λ family. family.options ≡ options) }
    {
        let free = varied(alloc, options, &text)?;
        let step = offset_step(options, &text);
        let count = choice_count(free, step, text.node.as_slice());
        Ok(TextFamily {
            text,
            options,
            free,
            step,
            count,
        })
    }

    /// Returns how many members it has, 2^128 - 1 if there are more.
    pub(crate) fn count(&self) -> u128
        ensures { result ≡ member_count self.now.options self.now.text }
    {
        self.count
    }

    /// Returns what is varied.
    pub(crate) fn varied(&self) -> Options
        ensures { result ≡ varied self.now.options self.now.text }
    {
        self.free
    }

    /// Returns the ticks between two offsets.
    pub(crate) fn step(&self) -> u64
        ensures { result ≡ offset_step self.now.options self.now.text }
    {
        self.step
    }

    /// Returns how many members are run.
    pub(crate) fn runs(&self) -> u32
        ensures { result ≡ run_count self.now.options self.now.text }
    {
        self.count.min(u128::from(self.options.runs)) as u32
    }

    /// Returns what the digits of a run are taken from.
    pub(crate) fn draws(&self, run: u32) -> DigitSource
        ensures { result ≡ draws_of self.now.options (member_count self.now.options self.now.text) run }
    {
        if self.count <= u128::from(self.options.runs) || run == 0 {
            DigitSource::Number(u64::from(run))
        } else {
            let seed = (u64::from(self.options.seed) << 32) + u64::from(run);
            DigitSource::Words(SplitMix64::seed_from_u64(seed))
        }
    }

    /// Returns the nodes of the member that a run is of.
    fn member_nodes(&self, alloc: Global, run: u32) -> Result<Listed<NodeText>, AllocError>
        ensures { IfOk result (λ nodes. nodes ≡ (member_of self.now.options self.now.text run).node) }
    {
        let mut draws = self.draws(run);
        let mut nodes = Listed::new(alloc);
        for (i, node) in self.text.node.as_slice().iter().enumerate() {
            let choice = choose(self.free, self.step, i, node, &mut draws);
            nodes.push(moved_node(alloc, node, choice.by, choice.side)?)?;
        }
        Ok(nodes)
    }

    /// Returns the member that a run is of.
    pub(crate) fn member(&self, alloc: Global, run: u32) -> Result<PlanText, AllocError>
        ensures { IfOk result (λ text. text ≡ member_of self.now.options self.now.text run) }
    {
        let nodes = self.member_nodes(alloc, run)?;
        text_again(alloc, &self.text, nodes)
    }
}
