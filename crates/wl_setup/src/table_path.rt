//! The tables of a plan's document, and a fault with the table where it is.
ghost use Rattle.std.specs.Prelude.{◌≡◌, option_map};
ghost use Rattle.toml.specs.View.{table_view};
ghost use Rattle.wl_setup.specs.TablePaths.{answer_at, controllers_said, row_at, table_at, table_in};

use crate::fault::SetupFault;
use crate::keys::Key;
use crate::values::{elements_at, value_at};
use std::alloc::AllocError;
use toml::Table;

/// A table of a plan's document. Nodes, rates and frames of a node, and disturbances count from 0, in the order of their tables.
#[derive(Clone, Copy, Debug, PartialEq, Eq)]
pub enum TablePath {
    /// The top table.
    Top,
    /// A controller's, in the order of their names.
    Controller(u64),
    /// A node's.
    Node(u64),
    /// A rate's: first the node, then the rate.
    Rate(u64, u64),
    /// A frame's: first the node, then the frame.
    Frame(u64, u64),
    /// A disturbance's.
    Disturbance(u64),
}

/// A fault of a document, and the table where it is.
#[derive(Debug, Drop)]
pub struct PlacedFault {
    /// The table.
    pub path: TablePath,
    /// The fault.
    pub fault: SetupFault,
}

impl From<AllocError> for PlacedFault {
    ghost use Rattle.std.specs.Prelude.{◌≡◌};
    ghost use Rattle.wl_setup.specs.declared.fault.SetupFault.TheVariants.{Memory};

    ghost from_gives = { λ _ placed. placed.fault ≡ Memory };

    fn from(_: AllocError) -> PlacedFault {
        PlacedFault {
            path: TablePath::Top,
            fault: SetupFault::Memory,
        }
    }
}

impl TablePath {
    /// Returns the answer of a test of this table, with the table as the place of the fault.
    pub(crate) fn placed(self, answer: Result<(), SetupFault>) -> Result<(), PlacedFault>
        ensures { result ≡ answer_at self answer }
    {
        match answer {
            Ok(()) => Ok(()),
            Err(fault) => Err(PlacedFault { path: self, fault }),
        }
    }
}

/// Returns the table with this number in the array at a key.
fn row_at(table: &Table, key: Key, n: u64) -> Option<&Table>
    ensures { option_map (λ t. table_view t.now) result ≡ row_at key n (table_view table.now) }
{
    match elements_at(table, key).get(n as usize) {
        Some(value) => value.as_table(),
        None => None,
    }
}

/// Returns the tables of controllers, if there are any.
pub(crate) fn controllers(top: &Table) -> Option<&Table>
    ensures { option_map (λ t. table_view t.now) result ≡ controllers_said (table_view top.now) }
{
    match value_at(top, Key::Controllers) {
        Some(value) => value.as_table(),
        None => None,
    }
}

/// Returns the table with this number among those at the keys of a table.
fn nth_table(table: &Table, number: u64) -> Option<&Table>
    ensures { option_map (λ t. table_view t.now) result ≡ table_in number (table_view table.now) }
{
    let mut left = number;
    for (_, value) in table.iter() {
        if left == 0 {
            return value.as_table();
        }
        left -= 1;
    }
    None
}

/// Returns the table at a path, if the document has it.
pub fn table_at(top: &Table, path: TablePath) -> Option<&Table>
    ensures { option_map (λ t. table_view t.now) result ≡ table_at path (table_view top.now) }
{
    match path {
        TablePath::Top => Some(top),
        TablePath::Controller(n) => nth_table(controllers(top)?, n),
        TablePath::Node(i) => row_at(top, Key::Node, i),
        TablePath::Rate(i, n) => row_at(row_at(top, Key::Node, i)?, Key::Rates, n),
        TablePath::Frame(i, n) => row_at(row_at(top, Key::Node, i)?, Key::Frame, n),
        TablePath::Disturbance(n) => row_at(top, Key::Disturbance, n),
    }
}
