// The walk over what rows know, record by record.
ghost use Rattle.std.specs.Prelude.{◌≡◌, ◌≤◌, ◌∷◌, ◌++◌, [], List, length, OnOk};
ghost use Rattle.std.specs.List.{filter_map, flat_map};
ghost use Rattle.wl_lattice.specs.Words.{max_word};
ghost use Rattle.wl_record_core.specs.declared.record.Record.{Record};
ghost use Rattle.wl_replica.specs.Canonical.{edge_record, silence_record};
ghost use Rattle.wl_replica.specs.Dense.{row_entries, most_row_places};
ghost use Rattle.wl_lattice.specs.Numbers.{number_word};

use std::alloc::AllocError;
use wl_lattice::CLASH;
use wl_record_core::Record;

/// What records are added to, one after the other: a list of them, or a text.
pub trait RecordSink {
    /// What it consists of: records of a list, bytes of a text.
    ghost Part: { Type 0 };

    /// All of it.
    ghost parts: { Self → List Part };

    /// What one record adds.
    ghost line: { Record → List Part };

    /// Adds a record. Refused when out of memory.
    fn push_record(&mut self, told: &Record) -> Result<(), AllocError>
        ensures { OnOk result (parts self.new ≡ parts self.old ++ line told.now) };
}

/// A list of records.
impl RecordSink for Vec<Record> {
    ghost Part = { Record };

    ghost parts = { λ all. all.items };

    ghost line = { λ r. r ∷ [] };

    fn push_record(&mut self, told: &Record) -> Result<(), AllocError> {
        self.push(*told)?;
        Ok(())
    }
}

/// Adds the record of an edge's number, if it says something.
#[inline(always)]
fn tell_edge<S: RecordSink>(sink: &mut S, node: u8, seq: u32, number: u64) -> Result<(), AllocError>
    ensures { OnOk result (S.parts sink.new ≡ S.parts sink.old
        ++ flat_map S.line (filter_map edge_record (((node, seq), number_word number) ∷ []))) }
{
    if number == 0 {
        return Ok(());
    }
    if number == CLASH {
        return sink.push_record(&Record::Clash { node, seq });
    }
    let tick = number - 1;
    sink.push_record(&Record::Edge { node, seq, tick })
}

/// Adds the record of a silence, if it reaches past tick 0.
#[inline(always)]
fn tell_silence<S: RecordSink>(
    sink: &mut S,
    node: u8,
    count: u32,
    until: u64,
) -> Result<(), AllocError>
    ensures { OnOk result (S.parts sink.new ≡ S.parts sink.old
        ++ flat_map S.line (filter_map silence_record (((node, count), max_word until) ∷ []))) }
{
    if until == 0 {
        return Ok(());
    }
    sink.push_record(&Record::Silence { node, count, until })
}

/// Adds a node's edges and clashes, by number.
pub fn tell_edges<S: RecordSink>(sink: &mut S, node: u8, numbers: &[u64]) -> Result<(), AllocError>
    requires { length numbers.now ≤ most_row_places }
    ensures { OnOk result (S.parts sink.new ≡ S.parts sink.old
        ++ flat_map S.line (filter_map edge_record (row_entries number_word node 0 numbers.now []))) }
{
    for (seq, number) in numbers.iter().enumerate() {
        tell_edge(sink, node, seq as u32, *number)?;
    }
    Ok(())
}

/// Adds a node's silences, by count.
pub fn tell_silences<S: RecordSink>(
    sink: &mut S,
    node: u8,
    numbers: &[u64],
) -> Result<(), AllocError>
    requires { length numbers.now ≤ most_row_places }
    ensures { OnOk result (S.parts sink.new ≡ S.parts sink.old
        ++ flat_map S.line (filter_map silence_record (row_entries max_word node 0 numbers.now []))) }
{
    for (count, until) in numbers.iter().enumerate() {
        tell_silence(sink, node, count as u32, *until)?;
    }
    Ok(())
}
