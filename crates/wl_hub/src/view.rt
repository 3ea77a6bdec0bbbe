//! What a pass knows, and what a table is given once.
use std::collections::LinkedList;
use std::marker::Brand;
use std::snapshot::Snapshot;
use wl_lattice::{FlatWord, Join, MaxWord};
use wl_record_core::Record;

/// What a pass knows. No value of it is made. A spent one has no name.
pub struct View<T> {
    pub name: Option<T>,
    pub shape: LinkedList<(u32, u32)>,
    pub given: LinkedList<Record>,
    pub told: LinkedList<Record>,
}

/// The name and the shape of a table.
pub struct About<T> {
    pub name: Snapshot<T>,
    pub shape: Snapshot<Vec<(u32, u32)>>,
    pub words: usize,
}

impl<T> Drop for About<T> {
    fn drop(self) {
        let Self {
            name: _,
            shape: _,
            words: _,
        } = self;
    }
}

/// A join whose values lie in one word each, for a table of the records of one kind.
pub trait Cell: Join {
    ghost use Rattle.std.specs.Prelude.{◌≡◌, ℕ, List, Bool, true};
    ghost use Rattle.wl_record_core.specs.declared.record.Record.{Record};

    /// The number of a value.
    ghost word: { Self → ℕ };

    /// What a record gives to its word.
    ghost value: { Record → Self };

    /// Whether a word of a table of this shape is the record's.
    ghost at: { List (ℕ × ℕ) → ℕ → Record → Bool };

    ghost apart: { (shape : List (ℕ × ℕ)) (i j : ℕ) (r : Record)
        → at shape i r ≡ true → at shape j r ≡ true → i ≡ j };

    ghost starts: { word Self.least ≡ 0 };

    /// A table of arrays would ask their length.
    ghost whole: { (x : Self) → Self.is_word x };
}

impl Cell for MaxWord {
    ghost use Rattle.wl_hub.specs.Places.{max_number, silence_value, is_silence_at, silence_apart};
    ghost use Rattle.std.specs.Prelude.{refl};

    ghost word = { max_number };

    ghost value = { silence_value };

    ghost at = { is_silence_at };

    ghost apart = { silence_apart };

    ghost starts = { refl };

    ghost whole = { λ x. tt };
}

impl Cell for FlatWord {
    ghost use Rattle.wl_lattice.specs.Numbers.{word_number};
    ghost use Rattle.wl_hub.specs.Places.{edge_value, is_edge_at, edge_apart};
    ghost use Rattle.std.specs.Prelude.{refl};

    ghost word = { word_number };

    ghost value = { edge_value };

    ghost at = { is_edge_at };

    ghost apart = { edge_apart };

    ghost starts = { refl };

    ghost whole = { λ x. tt };
}

/// The record of one gift. Each call picks it.
pub trait Gift {
    ghost use Rattle.wl_record_core.specs.declared.record.Record.{Record};

    ghost gift: { Record };
}

impl Gift for Brand {
    ghost use Rattle.wl_hub.specs.Places.{no_record};

    ghost gift = { no_record };
}
