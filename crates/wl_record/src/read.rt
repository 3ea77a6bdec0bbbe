//! Reading records from a reader, piece by piece.
ghost use Rattle.std.specs.Prelude.{◌≡◌, ◌↔◌, ◌<◌, ◌≤◌, ◌+◌, ◌++◌, ◌-◌, ◌^◌, length, take, drop, List, IfOk, IfErr, Err, IsTrue};

use crate::fault::TextFault;
use crate::limits::MOST_BYTES;
use crate::parse::{LineFault, Stop, take_lines};
use std::alloc::{AllocError, Global};
use std::marker::Model;
use std::vec;
use wl_device::{Got, MOST_CALLS, Source};
use wl_limits::Limits;
use wl_record_core::Record;

/// How many bytes are asked for in one call.
const PIECE: usize = 65_536;

ghost use Rattle.wl_device.specs.Devices.{read_answer, FitsBuffer};

/// Makes one call that asks for at most `most` bytes, after the first `have` of the buffer.
fn read_behind<R: Source>(reader: &mut R, buffer: &mut Vec<u8>, have: usize, most: usize) -> Got
    requires room { have < length buffer.old.items }
    requires some { 0 < most }
    ensures gives { R.gives reader.old (read_answer result (drop have buffer.new.items)) reader.new }
    ensures fits { FitsBuffer result (take most (drop have buffer.new.items)) }
    ensures kept { take have buffer.new.items ≡ take have buffer.old.items }
    ensures len { length buffer.new.items ≡ length buffer.old.items }
{
    let end = have + (buffer.len() - have).min(most);
    reader.read(&mut buffer[have..end])
}

ghost use Rattle.wl_record_core.specs.declared.record.Record.{Record};
ghost use Rattle.wl_record.specs.declared.parse.Stop.TheVariants.{Open};
ghost use Rattle.wl_record.specs.Parsing.{TakesPiece, IsPieceFault, Appends, stop_fault};

fn is_open(stop: Stop) -> bool
    ensures { IsTrue result ↔ (stop ≡ Open) }
{
    match stop {
        Stop::Open => true,
        Stop::Long | Stop::Refused(_) => false,
    }
}

/// Returns the fault of a stop in the line with this number.
fn fault_of(stop: Stop, line: u64) -> TextFault
    ensures { result ≡ stop_fault stop line }
{
    match stop {
        Stop::Open | Stop::Long => TextFault::TooLong(line),
        Stop::Refused(LineFault::Grammar) => TextFault::Line(line),
        Stop::Refused(LineFault::Beyond) => TextFault::Range(line),
    }
}

/// Takes the whole lines of the first `filled` bytes, which come after `lines` others, and moves what is left to the front. If `past`, the
/// last of these bytes is one that a text doesn't have. Returns how many are left, and how many lines there are now.
fn take_piece(
    limits: Limits,
    buffer: &mut Vec<u8>,
    filled: usize,
    past: bool,
    lines: u64,
    records: &mut Vec<Record>,
) -> Result<(usize, u64), TextFault>
    requires within { filled ≤ length buffer.old.items }
    requires some { 0 < filled }
    requires few { lines < 2 ^ 63 - length buffer.old.items }
    ensures ok { IfOk result (λ r. (rs : List Record)
        × TakesPiece limits (take filled buffer.old.items) past rs (take r.0 buffer.new.items)
        × (r.0 ≡ length (take r.0 buffer.new.items)) × (r.1 ≡ lines + length rs)
        × (records.new.items ≡ records.old.items ++ rs)) }
    ensures fault { IfErr result (λ fault. IsPieceFault limits (take filled buffer.old.items) past lines fault) }
    ensures grows { IfErr result (λ _. Appends limits records.old.items records.new.items) }
    ensures len { length buffer.new.items ≡ length buffer.old.items }
{
    let before = records.len();
    let allowed = if past { filled - 1 } else { filled };
    let Ok((rest, stop)) = take_lines(limits, &buffer[..allowed], records) else {
        return Err(TextFault::Memory);
    };
    let left = rest.len();
    let lines = lines + (records.len() - before) as u64;
    if past || !is_open(stop) {
        return Err(fault_of(stop, lines + 1));
    }
    buffer.copy_within(allowed - left..allowed, 0);
    Ok((left, lines))
}

/// What a step of reading answers.
#[derive(Clone, Copy, Debug, PartialEq, Eq)]
pub enum Came {
    /// There may be more.
    More,
    /// These were the last: the text is whole.
    All,
}

/// Reads a record text piece by piece. It holds one piece, whatever the text's length.
#[derive(Drop)]
pub struct RecordReader {
    limits: Limits,
    buffer: Vec<u8>,
    begun: usize,
    calls: u32,
    bytes: usize,
    lines: u64,
}

impl Model for RecordReader {
    ghost use Rattle.std.specs.Prelude.{◌+◌, ◌^◌, ◌<◌, ◌≤◌, length, take};
    ghost use Rattle.wl_device.specs.Limits.{most_calls};
    ghost use Rattle.wl_record.specs.Limits.{most_record_bytes, most_line};
    ghost use Rattle.wl_record.specs.Reading.{ReadProgress};

    ghost Value = { ReadProgress };

    ghost view = { λ r. record {
      limits = r.limits;
      calls = r.calls;
      bytes = r.bytes;
      lines = r.lines;
      begun = take r.begun r.buffer.items;
    } };

    ghost invariant = { λ r. (r.begun ≤ most_line) × (most_line < length r.buffer.items)
        × (length r.buffer.items < 2 ^ 32) × (r.calls ≤ most_calls) × (r.bytes ≤ most_record_bytes)
        × (r.lines + r.begun ≤ r.bytes) };
}

impl RecordReader {
    ghost use Rattle.wl_record.specs.Reading.{beginning, GoesOnWith, FaultsWith, CountsCalls, IsSpent};
    ghost use Rattle.wl_record.specs.declared.fault.TextFault.TheVariants.{Read};
    ghost use Rattle.wl_limits.specs.declared.Limits.TheVariants.{Narrow};

    /// Returns a reading of a narrow text that has made no call yet. Takes memory for one piece, and is refused only when out of memory.
    pub fn new(alloc: Global) -> Result<RecordReader, AllocError>
        ensures { IfOk result (λ r. r ≡ beginning Narrow) }
    {
        RecordReader::within(alloc, Limits::Narrow)
    }

    /// Returns a reading of a text whose records are within these limits, as `new` does.
    pub fn within(alloc: Global, limits: Limits) -> Result<RecordReader, AllocError>
        ensures { IfOk result (λ r. r ≡ beginning limits) }
    {
        Ok(RecordReader {
            limits,
            buffer: vec![in alloc; 0u8; PIECE]?,
            begun: 0,
            calls: 0,
            bytes: 0,
            lines: 0,
        })
    }

    /// Makes one step: one call of the reader. Appends the records of the lines that are whole now. All of them are within, also if the
    /// step ends in a fault. After `All` or a fault there is nothing more to ask: each later step is refused as `Read`, and makes no call.
    pub fn next<R: Source>(
        &mut self,
        reader: &mut R,
        records: &mut Vec<Record>,
    ) -> Result<Came, TextFault>
        ensures came { IfOk result (λ came. (rs : List Record) × (records.new.items ≡ records.old.items ++ rs)
            × GoesOnWith R.gives self.old reader.old came rs self.new reader.new) }
        ensures steps { IfOk result (λ came. CountsCalls came self.old self.new) }
        ensures fault { IfErr result (λ fault. FaultsWith R.gives self.old reader.old fault reader.new) }
        ensures grows { IfErr result (λ _. Appends self.old.limits records.old.items records.new.items) }
        ensures limits { self.new.limits ≡ self.old.limits }
        ensures spent { IfErr result (λ _. IsSpent self.new) }
        ensures over { IsSpent self.old → (result ≡ Err Read) × (self.new ≡ self.old) × (reader.new ≡ reader.old)
            × (records.new.items ≡ records.old.items) }
    {
        if self.calls >= MOST_CALLS {
            return Err(TextFault::Read);
        }
        let calls = self.calls + 1;
        // Spent, unless this step succeeds.
        self.calls = MOST_CALLS;
        match read_behind(
            reader,
            &mut self.buffer,
            self.begun,
            MOST_BYTES + 1 - self.bytes,
        ) {
            Got::Again => {
                self.calls = calls;
                Ok(Came::More)
            }
            Got::Failed => Err(TextFault::Read),
            Got::End => {
                if self.begun > 0 {
                    return Err(TextFault::Truncated);
                }
                Ok(Came::All)
            }
            Got::Bytes(n) => {
                let bytes = self.bytes + n;
                let past = bytes > MOST_BYTES;
                let taken = take_piece(
                    self.limits,
                    &mut self.buffer,
                    self.begun + n,
                    past,
                    self.lines,
                    records,
                );
                let (left, lines) = match taken {
                    Ok(taken) => taken,
                    Err(fault) => return Err(fault),
                };
                self.calls = calls;
                self.begun = left;
                self.bytes = bytes;
                self.lines = lines;
                Ok(Came::More)
            }
        }
    }
}

ghost use Rattle.wl_limits.specs.declared.Limits.TheVariants.{Narrow};
ghost use Rattle.wl_record.specs.Reading.{RecordsOf, FaultOf};

/// Returns the records of the narrow text that the reader gives up to its end, or the first fault of it.
pub fn read_records<R: Source>(alloc: Global, reader: &mut R) -> Result<Vec<Record>, TextFault>
    ensures ok { IfOk result (λ records. RecordsOf Narrow R.gives reader.old records.items reader.new) }
    ensures fault { IfErr result (λ fault. FaultOf Narrow R.gives reader.old fault reader.new) }
{
    read_records_within(alloc, reader, Limits::Narrow)
}

/// Returns the records of a text whose records are within these limits, as `read_records` does.
pub fn read_records_within<R: Source>(
    alloc: Global,
    reader: &mut R,
    limits: Limits,
) -> Result<Vec<Record>, TextFault>
    ensures ok { IfOk result (λ records. RecordsOf limits R.gives reader.old records.items reader.new) }
    ensures fault { IfErr result (λ fault. FaultOf limits R.gives reader.old fault reader.new) }
{
    let Ok(mut text) = RecordReader::within(alloc, limits) else {
        return Err(TextFault::Memory);
    };
    let mut records = Vec::new(alloc);
    loop {
        match text.next(reader, &mut records) {
            Ok(Came::More) => {}
            Ok(Came::All) => return Ok(records),
            Err(fault) => return Err(fault),
        }
    }
}
