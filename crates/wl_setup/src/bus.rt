//! Buses: plans with what the clocks of their nodes may do.
ghost use Rattle.std.specs.Prelude.{◌≡◌, ◌≢◌, Err, IfOk, length, map};
ghost use Rattle.std.specs.List.{enumerate_from};
ghost use Rattle.toml.specs.View.{table_view};
ghost use Rattle.wl_setup.specs.Names.{names_of};
ghost use Rattle.wl_setup.specs.Plans.{after, each, rate_in, IsAnswer};
ghost use Rattle.wl_setup.specs.Buses.{nominal, nominal_clock, rate_texts, deviation_of, bus_of_text, GivesBus, IsBusOf};
ghost use Rattle.wl_setup.specs.Reading.{text_answer};

use crate::document::plan_text;
use crate::fault::SetupFault;
use crate::names::Names;
use crate::plan::rates;
use crate::plan_text::{ClockText, NodeText, PlanText, RateText};
use crate::read::{parse, read_named};
use crate::table_path::{PlacedFault, TablePath};
use std::alloc::{AllocError, Global};
use toml::Table;
use wl_clock::Rate;
use wl_device::Source;
use wl_level::Listed;
use wl_plan::CheckedPlan;

/// From which rates the clock of a node deviates, and by how much at most.
#[derive(Debug, Drop)]
pub struct Deviation {
    /// The rates in the order of their quanta: without `ppm` if the node has the key `tolerance`, else its own.
    pub rates: Listed<Rate>,
    /// Parts per million either way: at most 100,000, and 0 without the key.
    pub tolerance: u32,
}

/// A bus as its text describes it: a plan that can be run, and what no run of it uses.
#[derive(Drop)]
pub struct Bus {
    /// The plan.
    pub plan: CheckedPlan,
    /// The names of the nodes, node i's at place i.
    pub names: Names,
    /// What the clocks of the nodes may do, node i's at place i.
    pub deviations: Listed<Deviation>,
}

impl ClockText {
    /// Returns how fast the clock goes without `ppm`.
    fn nominal(self) -> ClockText
        ensures { result ≡ nominal_clock self }
    {
        match self {
            ClockText::Ppm { quantum, ppm: _ } => ClockText::Ppm { quantum, ppm: 0 },
            ClockText::Fraction { num, den, ppm: _ } => ClockText::Rate { num, den },
            ClockText::Rate { .. } => self,
        }
    }
}

/// Returns the rates without `ppm`.
fn nominal_rates(alloc: Global, texts: &[RateText]) -> Result<Listed<RateText>, AllocError>
    ensures { IfOk result (λ all. all ≡ map nominal texts.now) }
{
    let mut all = Listed::new(alloc);
    for text in texts {
        all.push(RateText {
            from: text.from,
            clock: text.clock.nominal(),
        })?;
    }
    Ok(all)
}

impl NodeText {
    /// Returns the rates from which the clock of node `i` deviates, or the first that is none.
    fn deviating(&self, alloc: Global, i: u64) -> Result<Listed<Rate>, SetupFault>
        ensures { IsAnswer (each (rate_in i) (rate_texts self.now)) result }
    {
        if self.tolerance.is_none() {
            return rates(alloc, i, self.rates.as_slice());
        }
        let texts = nominal_rates(alloc, self.rates.as_slice())?;
        rates(alloc, i, texts.as_slice())
    }

    /// Returns what the clock of node `i` may do, or its first rate that is none.
    fn deviation(&self, alloc: Global, i: u64) -> Result<Deviation, SetupFault>
        ensures { IsAnswer (deviation_of (i, self.now)) result }
    {
        Ok(Deviation {
            rates: self.deviating(alloc, i)?,
            tolerance: self.tolerance.unwrap_or(0),
        })
    }
}

/// Returns what the clocks of the nodes may do, or the first rate that is none.
fn deviations(alloc: Global, nodes: &[NodeText]) -> Result<Listed<Deviation>, SetupFault>
    ensures { IsAnswer (each deviation_of (enumerate_from 0 nodes.now)) result }
{
    let mut all = Listed::new(alloc);
    for (i, node) in nodes.iter().enumerate() {
        all.push(node.deviation(alloc, i as u64)?)?;
    }
    Ok(all)
}

impl PlanText {
    /// Returns the bus that the keys make, with these names, which are those of its nodes; or the first fault, as `plan` answers it.
    fn bus(&self, alloc: Global, names: Names) -> Result<Bus, SetupFault>
        requires { names ≡ names_of self.now }
        ensures answer { IsAnswer (bus_of_text self.now) result }
        ensures deviations { IfOk result (λ bus. length bus.deviations ≡ length bus.plan.nodes) }
        ensures names { IfOk result (λ bus. length bus.names ≡ length bus.plan.nodes) }
    {
        let plan = self.plan(alloc)?;
        let deviations = deviations(alloc, self.node.as_slice())?;
        Ok(Bus {
            plan,
            names,
            deviations,
        })
    }
}

/// Reads a plan's text as `read_plan` does. Returns the plan, the names of its nodes and what their clocks may do; or the text's first
/// fault, which is that of `read_plan`.
pub fn read_bus<R: Source>(alloc: Global, reader: &mut R) -> Result<Bus, SetupFault>
    ensures answer { result ≢ Err SetupFault.Memory → GivesBus R.gives reader.old result reader.new }
    ensures deviations { IfOk result (λ bus. length bus.deviations ≡ length bus.plan.nodes) }
    ensures names { IfOk result (λ bus. length bus.names ≡ length bus.plan.nodes) }
{
    let (text, names) = read_named(alloc, reader)?;
    text.bus(alloc, names)
}

/// Returns the bus of a text, or the text's first fault, as `read_bus` does of a text that was read.
pub fn bus_of_bytes(alloc: Global, text: &[u8]) -> Result<Bus, SetupFault>
    ensures answer { IsAnswer (after (text_answer text.now) bus_of_text) result }
    ensures deviations { IfOk result (λ bus. length bus.deviations ≡ length bus.plan.nodes) }
    ensures names { IfOk result (λ bus. length bus.names ≡ length bus.plan.nodes) }
{
    let (text, names) = parse(alloc, text)?;
    text.bus(alloc, names)
}

/// Returns the bus of a document; or its first fault, as `bus_of_bytes` returns it of a text with this document, with its place: the table
/// where the document's first fault is, or the top table for a fault of the plan that it describes.
pub fn bus_of_document(alloc: Global, top: &Table) -> Result<Bus, PlacedFault>
    ensures answer { IsBusOf (table_view top.now) result }
    ensures deviations { IfOk result (λ bus. length bus.deviations ≡ length bus.plan.nodes) }
    ensures names { IfOk result (λ bus. length bus.names ≡ length bus.plan.nodes) }
{
    let (text, names) = plan_text(alloc, top)?;
    match text.bus(alloc, names) {
        Ok(bus) => Ok(bus),
        Err(fault) => Err(PlacedFault {
            path: TablePath::Top,
            fault,
        }),
    }
}
