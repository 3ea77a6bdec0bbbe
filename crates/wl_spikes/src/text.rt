//! What a sweep of spikes says.
ghost use Rattle.std.specs.Prelude.{◌≡◌, ◌++◌, IfOk, OnOk, string_bytes, true};
ghost use Rattle.std.specs.List.{list_all};
ghost use Rattle.wl_report.specs.Lines.{GrowsBy};
ghost use Rattle.wl_spikes.specs.Members.{spiked_name};
ghost use Rattle.wl_spikes.specs.Tallies.{all_aftermaths, is_sound, spike_tally};
ghost use Rattle.wl_spikes.specs.Words.{bits_of_ticks, class_words, classes_words, clean_member_words, spike_bit, first_spike_words, firsts_words, spiked_node_words, said_of_spikes, spike_change, swept_spike_words, spiked_at, spiked_change, spikes_text, target_words, worst_words};

use crate::spike::{Spikes, Target};
use crate::tally::{ClassTally, SpikeTally};
use std::alloc::{AllocError, Global};
use std::thread::Threads;
use std::time::Clock;
use wl_setup::{NodeText, PlanText, Text};
use wl_sweep::{Workers, bit_in};

/// Adds the name of node `i`.
fn push_node(text: &mut String, nodes: &[NodeText], i: usize) -> Result<(), AllocError>
    ensures { OnOk result (GrowsBy text.old text.new (spiked_node_words (spiked_name nodes.now i))) }
{
    match nodes.get(i) {
        Some(node) => text.push_str(node.name.as_str()),
        None => text.push_str("?"),
    }
}

/// Adds where a spike is: the name of its node, or its place on the cable.
fn push_target(text: &mut String, nodes: &[NodeText], target: Target) -> Result<(), AllocError>
    ensures { OnOk result (GrowsBy text.old text.new (target_words nodes.now target)) }
{
    match target {
        Target::Node(i) => push_node(text, nodes, i),
        Target::Place(x) => write!(text, "x={x}"),
    }
}

/// Returns the ticks of a bit of the first node.
fn spike_bit(nodes: &[NodeText]) -> u64
    ensures { result ≡ spike_bit nodes.now }
{
    match nodes.first() {
        Some(node) => bit_in(node),
        None => 1,
    }
}

/// Returns ticks in bits, rounded up.
fn bits_of_ticks(bit: u64, ticks: u64) -> u64
    ensures { result ≡ bits_of_ticks bit ticks }
{
    ticks.div_ceil(bit.max(1))
}

/// Adds how many members are of a class.
fn push_class(text: &mut String, name: &str, tally: ClassTally) -> Result<(), AllocError>
    ensures { OnOk result (GrowsBy text.old text.new (class_words name.now tally)) }
{
    let count = tally.count;
    write!(text, ", {name} in {count}")
}

/// Adds which spike is swept.
fn push_spike(text: &mut String, spikes: &Spikes) -> Result<(), AllocError>
    ensures { OnOk result (GrowsBy text.old text.new (swept_spike_words spikes.now)) }
{
    let (length, step) = (spikes.spike.length, spikes.spike.step);
    text.push_str("spike ")?;
    push_target(text, spikes.text.node.as_slice(), spikes.spike.target)?;
    write!(text, " length {length} step {step} ")
}

/// Adds how many members are clean.
fn push_clean(text: &mut String, tally: SpikeTally) -> Result<(), AllocError>
    ensures { OnOk result (GrowsBy text.old text.new (clean_member_words tally)) }
{
    let (clean, runs) = (tally.clean.count, tally.runs);
    write!(text, "clean in {clean} of {runs}")
}

/// Adds how many members are of each class other than clean.
fn push_classes(text: &mut String, tally: SpikeTally) -> Result<(), AllocError>
    ensures { OnOk result (GrowsBy text.old text.new (classes_words tally)) }
{
    push_class(text, "healed", tally.healed)?;
    push_class(text, "late", tally.late)?;
    push_class(text, "unhealed", tally.unhealed)?;
    push_class(text, "twice", tally.twice)?;
    push_class(text, "missed", tally.missed)?;
    push_class(text, "bus off", tally.off)?;
    push_class(text, "refused", tally.refused)
}

/// Adds the longest trouble, and the greatest error counters.
fn push_worst(text: &mut String, bit: u64, tally: SpikeTally) -> Result<(), AllocError>
    ensures { OnOk result (GrowsBy text.old text.new (worst_words bit tally)) }
{
    let bits = bits_of_ticks(bit, tally.longest);
    let (tec, rec) = (tally.tec, tally.rec);
    writeln!(text, "; longest {bits} bits; tec {tec}, rec {rec}")
}

/// Adds at which tick the spike of member `n` begins.
fn push_from(text: &mut String, spikes: &Spikes, n: u32) -> Result<(), AllocError>
    ensures { OnOk result (GrowsBy text.old text.new (spike_change spikes.now n)) }
{
    let from = spikes.spike.first_tick(n);
    write!(text, ", from = {from}")
}

/// Adds the first member of a class, if there is one.
fn push_first(
    text: &mut String,
    spikes: &Spikes,
    name: &str,
    tally: ClassTally,
) -> Result<(), AllocError>
    ensures { OnOk result (GrowsBy text.old text.new (first_spike_words spikes.now name.now tally.first)) }
{
    match tally.first {
        Some(number) => {
            let from = spikes.spike.step.saturating_mul(number);
            writeln!(text, "first {name}: member {number}, from = {from}")
        }
        None => Ok(()),
    }
}

/// Adds the first members of the classes, the worst first.
fn push_firsts(text: &mut String, spikes: &Spikes, tally: SpikeTally) -> Result<(), AllocError>
    ensures { OnOk result (GrowsBy text.old text.new (firsts_words spikes.now tally)) }
{
    push_first(text, spikes, "refused", tally.refused)?;
    push_first(text, spikes, "bus off", tally.off)?;
    push_first(text, spikes, "missed", tally.missed)?;
    push_first(text, spikes, "twice", tally.twice)?;
    push_first(text, spikes, "unhealed", tally.unhealed)?;
    push_first(text, spikes, "late", tally.late)?;
    push_first(text, spikes, "healed", tally.healed)
}

/// Adds all that is said of a tally.
fn push_said(text: &mut String, spikes: &Spikes, tally: SpikeTally) -> Result<(), AllocError>
    ensures { OnOk result (GrowsBy text.old text.new (said_of_spikes spikes.now tally)) }
{
    push_spike(text, spikes)?;
    push_clean(text, tally)?;
    push_classes(text, tally)?;
    push_worst(text, spike_bit(spikes.text.node.as_slice()), tally)?;
    push_firsts(text, spikes, tally)
}

impl Spikes {
    /// Returns what the sweep says, and whether each member is clean or heals, by this many threads.
    ///
    /// The first line has how many members each class has, the longest trouble, and the greatest error counters. Then comes a line for
    /// the first member of each class that isn't clean. Refused only out of memory.
    pub fn run<R: Threads + Sync + Eprint + Clock>(
        &self,
        rt: &R,
        alloc: Global,
        workers: Workers,
    ) -> Result<(String, bool), AllocError>
        ensures text { IfOk result (λ r. string_bytes r.0 ≡ spikes_text self.now) }
        ensures sound { IfOk result (λ r. r.1 ≡ list_all is_sound (all_aftermaths self.now)) }
    {
        let tally = self.tally(rt, alloc, workers)?;
        let mut text = String::new(alloc);
        push_said(&mut text, self, tally)?;
        Ok((text, tally.all_sound()))
    }

    /// Adds what member `n` changes.
    fn push_change(&self, text: &mut String, n: u32) -> Result<(), AllocError>
        ensures { OnOk result (GrowsBy text.old text.new (spiked_change self.now n)) }
    {
        let length = self.spike.length;
        text.push_str(", spike ")?;
        push_target(text, self.text.node.as_slice(), self.spike.target)?;
        write!(text, " length {length}")?;
        push_from(text, self, n)
    }

    /// Returns what member `n` changes, and its plan's text; none if there is no such member. Refused only out of memory.
    pub fn member(&self, alloc: Global, n: u64) -> Result<Option<(Text, PlanText)>, AllocError>
        ensures { IfOk result (λ member. member ≡ spiked_at self.now n) }
    {
        if n >= u64::from(self.count()) {
            return Ok(None);
        }
        let n = n as u32;
        let mut change = String::new(alloc);
        self.push_change(&mut change, n)?;
        Ok(Some((
            Text::new(alloc, change.as_str())?,
            self.plan_text(alloc, n)?,
        )))
    }
}
