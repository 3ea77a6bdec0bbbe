//! When a record is true of a table of changes.

ghost use Rattle.std.specs.Prelude.{◌↔◌, IsTrue};
ghost use Rattle.wl_record_core.specs.Truth.{IsTrueOf};

use crate::Record;

impl Record {
    /// True if the record is true of `nodes` nodes and of these changes of the node that it names:
    /// strictly increasing ticks, the first one to dominant.
    ///
    /// A clash is never true, nor is a record that is not within the wide limits.
    pub fn is_true_of(&self, nodes: u8, changes: &[u64]) -> bool
        ensures { IsTrue result ↔ IsTrueOf nodes (λ i. changes.now) self.now }
    {
        self.is_wide()
            && match *self {
                Record::Edge { node, seq, tick } => {
                    node < nodes && changes.get(seq as usize) == Some(&tick)
                }
                Record::Clash { .. } => false,
                Record::Silence { node, count, until } => {
                    node < nodes && changes.iter().filter(|t| **t < until).count() == count as usize
                }
            }
    }
}
