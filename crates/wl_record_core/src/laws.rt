//! Laws of records that are true of a table of changes, and of such tables.
ghost use Rattle.std.specs.Prelude.{◌≡◌, ◌↔◌, ◌<◌, ◌≤◌, ℕ, List, length, IsTrue};
ghost use Rattle.wl_limits.specs.declared.Limits.{Limits};
ghost use Rattle.wl_record_core.specs.Limits.{record_nodes, record_edges};
ghost use Rattle.wl_record_core.specs.declared.record.Record.{Record};
ghost use Rattle.wl_record_core.specs.Truth.{IsTrueOf, is_true_of};
ghost use Rattle.wl_record_core.specs.TableLaws.{TableLaws};
ghost use Rattle.wl_record_core.specs.Within.{IsWide, IsWithinBy};

/// Law: the test of truth and truth by cases agree.
#[tactic(auto, using(crate::proofs::TruthProofs::truth_is_its_test))]
pub fn truth_is_its_test()
    ensures { (nodes : ℕ) (table : ℕ → List ℕ) (r : Record)
        → IsTrue (is_true_of nodes table r) ↔ IsTrueOf nodes table r }
{}

/// Law: what is within some limits is within the wide ones.
#[tactic(auto, using(crate::proofs::WithinProofs::wide_record_limits_hold))]
pub fn wide_record_limits_hold()
    ensures { (limits : Limits) (r : Record) → IsWithinBy limits r → IsWide r }
{}

/// Law: what is true of a table is within the limits within which its nodes and each node's changes are.
#[tactic(auto, using(crate::proofs::WithinProofs::true_is_within))]
pub fn true_is_within()
    ensures { (limits : Limits) (nodes : ℕ) (table : ℕ → List ℕ) (r : Record) → nodes ≤ record_nodes limits
        → ((i : ℕ) → i < nodes → length (table i) ≤ record_edges limits) → IsTrueOf nodes table r → IsWithinBy limits r }
{}

/// Law: a clash is true of no table.
pub fn clash_is_never_true()
    ensures { (nodes : ℕ) (table : ℕ → List ℕ) (node seq : ℕ) → ¬ (IsTrueOf nodes table (Record.Clash node seq)) }
{}

/// Law: two true edges of one slot have one tick.
#[tactic(auto, using(crate::proofs::TruthProofs::one_tick_a_slot))]
pub fn one_tick_a_slot()
    ensures { (nodes : ℕ) (table : ℕ → List ℕ) (node seq t u : ℕ) → IsTrueOf nodes table (Record.Edge node seq t)
        → IsTrueOf nodes table (Record.Edge node seq u) → t ≡ u }
{}

/// Law: counts below ticks, and entries of strictly increasing lists.
#[tactic(auto, using(crate::proofs::TableProofs::table_laws))]
pub fn table_laws()
    ensures { TableLaws }
{}
