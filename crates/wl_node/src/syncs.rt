//! What a node keeps of its synchronisations.

ghost use Rattle.std.specs.Prelude.{◌≡◌, ◌+◌, ◌<◌, ◌≤◌, ◌++◌, [], ◌∷◌, ℕ, ℤ, true, List, OnOk, vec_len, vec_capacity};
ghost use Rattle.wl_sync.specs.declared.Sync.{Sync};
ghost use Rattle.wl_node.specs.Extremes.{phase_totals};
ghost use Rattle.wl_node.specs.History.{syncs_at};
ghost use Rattle.wl_node.specs.Kept.{AreSyncs, sync_count};
ghost use Rattle.wl_node.specs.Limits.{most_run_quanta};

use crate::phase_totals::PhaseTotals;
use crate::room::more_room;
use std::alloc::AllocError;
use wl_sync::Sync;

/// The resynchronising edges, each as its quantum and its phase error in quanta, what a report says of
/// them, and the number of hard synchronisations.
#[derive(Drop)]
pub struct Syncs {
    /// True if the edges are listed, false if only what a report says of them is kept.
    pub keeps: bool,
    pub phases: Vec<(u64, i16)>,
    pub totals: PhaseTotals,
    pub hards: u64,
}

impl Syncs {
    /// Makes room for one more. The list grows to four times what it has: so little of it is copied.
    pub fn prepare(&mut self) -> Result<(), AllocError>
        ensures room { OnOk result (vec_len self.new.phases < vec_capacity self.new.phases) }
        ensures phases { self.new.phases.items ≡ self.old.phases.items }
        ensures totals { self.new.totals ≡ self.old.totals }
        ensures hards { self.new.hards ≡ self.old.hards }
        ensures keeps { self.new.keeps ≡ self.old.keeps }
    {
        if self.phases.len() == self.phases.capacity() {
            self.phases.reserve(more_room(self.phases.len()))?;
        }
        Ok(())
    }

    /// Makes room for this many resynchronising edges more, if they are listed.
    pub fn reserve(&mut self, edges: usize) -> Result<(), AllocError>
        ensures phases { self.new.phases.items ≡ self.old.phases.items }
        ensures totals { self.new.totals ≡ self.old.totals }
        ensures hards { self.new.hards ≡ self.old.hards }
        ensures keeps { self.new.keeps ≡ self.old.keeps }
    {
        if self.keeps {
            self.phases.reserve(edges)?;
        }
        Ok(())
    }

    /// True only if there is room for one more.
    pub fn has_room(&self) -> bool
        ensures { result ≡ true → vec_len self.now.phases < vec_capacity self.now.phases }
    {
        self.phases.len() < self.phases.capacity()
    }

    /// Keeps how a quantum synchronised its bit, if it did.
    pub fn note(&mut self, quantum: u64, sync: Option<Sync>)
        requires room { vec_len self.old.phases < vec_capacity self.old.phases }
        requires fits { sync_count self.old < most_run_quanta }
        ensures syncs { (syncs : List (ℕ × Sync)) → AreSyncs self.old syncs
            → AreSyncs self.new (syncs ++ syncs_at quantum sync) }
        ensures few { sync_count self.new ≤ sync_count self.old + 1 }
        ensures keeps { self.new.keeps ≡ self.old.keeps }
    {
        match sync {
            None => {}
            Some(Sync::Hard) => self.hards += 1,
            Some(Sync::Error(error)) => self.note_error(quantum, error),
        }
    }

    /// Keeps a resynchronising edge.
    #[inline(always)]
    fn note_error(&mut self, quantum: u64, error: i16)
        requires room { vec_len self.old.phases < vec_capacity self.old.phases }
        requires fits { sync_count self.old < most_run_quanta }
        ensures phases { self.old.keeps ≡ true
            → self.new.phases.items ≡ self.old.phases.items ++ (quantum, error) ∷ [] }
        ensures totals { (phases : List (ℕ × ℤ)) → self.old.totals ≡ phase_totals phases
            → self.new.totals ≡ phase_totals (phases ++ (quantum, error) ∷ []) }
        ensures count { self.new.totals.count ≡ self.old.totals.count + 1 }
        ensures hards { self.new.hards ≡ self.old.hards }
        ensures keeps { self.new.keeps ≡ self.old.keeps }
    {
        self.totals.add(error);
        if self.keeps {
            self.phases.push_reserved((quantum, error));
        }
    }
}
