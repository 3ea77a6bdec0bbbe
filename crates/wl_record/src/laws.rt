//! Laws of record text: each is the contract of a function that does nothing.
ghost use Rattle.std.specs.Prelude.{◌≡◌, ◌++◌, ◌↔◌, List, [], ℕ, Result};
ghost use Rattle.wl_limits.specs.declared.Limits.{Limits};
ghost use Rattle.wl_record_core.specs.declared.record.Record.{Record};
ghost use Rattle.wl_record.specs.declared.fault.TextFault.{TextFault};
ghost use Rattle.wl_record_core.specs.Within.{IsWithinBy};
ghost use Rattle.wl_record_core.specs.Text.{words_of, text_of};
ghost use Rattle.wl_record.specs.Grammar.{Spells, IsText};
ghost use Rattle.wl_device.specs.Readings.{Ending, going_on};
ghost use Rattle.wl_record.specs.Faults.{IsFirstFault, IsTextAnswer};
ghost use Rattle.wl_record.specs.Reading.{HasRead, beginning};

use wl_device::Source;

/// Law: by some limits, bytes and their ending have at most one answer: the records of a text, or one fault.
pub fn one_answer_law()
    ensures { (limits : Limits) (text : List ℕ) (e : Ending) (a b : Result (List Record) TextFault)
        → IsTextAnswer limits text e a → IsTextAnswer limits text e b → a ≡ b }
{}

/// Law: a fault of bytes that go on is that of all the bytes, whatever comes after them and however they end.
pub fn fault_stays_law()
    ensures { (limits : Limits) (text more : List ℕ) (e : Ending) (fault : TextFault)
        → IsFirstFault limits text going_on fault → IsFirstFault limits (text ++ more) e fault }
{}

/// Law: a record that is within is spelled exactly as it is written.
pub fn spelling_law()
    ensures { (limits : Limits) (line : List ℕ) (r : Record) → IsWithinBy limits r → Spells line r ↔ (line ≡ words_of r) }
{}

/// Law: the text of records is that in which they are written, and no other.
pub fn text_law()
    ensures { (limits : Limits) (text : List ℕ) (rs : List Record) → IsText limits text rs → text ≡ text_of rs }
{}

/// Law: when a reading begins no call was made, and no record and no part of a line has come.
pub fn nothing_read_law<R: Source>(_reader: &R)
    ensures { (limits : Limits) → HasRead R.gives _reader.now [] [] (beginning limits) _reader.now }
{}
