// The rows of some nodes, of edges or of silences: room in them, and joining one's into another's.
ghost use Rattle.std.specs.Prelude.{◌≡◌, ◌<◌, ◌≤◌, [], ℕ, length, max, replicate, IfOk, OnOk};
ghost use Rattle.wl_record_core.specs.Limits.{most_edges};
ghost use Rattle.wl_replica.specs.Keys.{Key};
ghost use Rattle.wl_replica.specs.Dense.{row_of, slot_number, most_row_places, IsGrown, HasRoom};
ghost use Rattle.wl_lattice.specs.Numbers.{joined_numbers};

use crate::node_row::Row;
use std::alloc::{AllocError, Global};
use wl_record_core::MOST_EDGES;

/// Returns this many empty rows.
pub fn empty_rows(alloc: Global, nodes: u8) -> Result<Vec<Row>, AllocError>
    ensures { IfOk result (λ rows. rows.items ≡ replicate nodes []) }
{
    let mut rows = Vec::with_capacity(alloc, nodes as usize)?;
    for _ in 0..nodes {
        rows.push(Row::new(alloc))?;
    }
    Ok(rows)
}

/// Returns the numbers of a node.
pub fn numbers_of(rows: &Vec<Row>, node: u8) -> &[u64]
    requires { node < length rows.now.items }
    ensures value { result.now ≡ row_of rows.now.items node }
    ensures few { length result.now ≤ most_row_places }
{
    rows[node as usize].as_slice()
}

/// Makes room at a place of a node, if it has a row and a record can name the place. No number is seen to change.
pub fn make_room_at(rows: &mut Vec<Row>, node: u8, place: u32) -> Result<(), AllocError>
    ensures grown { IsGrown rows.old.items rows.new.items }
    ensures room { OnOk result (HasRoom rows.new.items node place) }
{
    let at = node as usize;
    if at < rows.len() && place <= MOST_EDGES {
        rows[at].lengthen(place as usize + 1)?;
    }
    Ok(())
}

/// Makes each row at least as long as the other's. No number is seen to change.
pub fn make_room_for(rows: &mut Vec<Row>, others: &Vec<Row>, nodes: u8) -> Result<(), AllocError>
    requires mine { length rows.old.items ≡ nodes }
    requires theirs { length others.now.items ≡ nodes }
    ensures grown { IsGrown rows.old.items rows.new.items }
    ensures room { OnOk result ((i : ℕ) → length (row_of others.now.items i) ≤ length (row_of rows.new.items i)) }
{
    for node in 0..nodes {
        rows[node as usize].lengthen(others[node as usize].len())?;
    }
    Ok(())
}

/// Joins in the rows of edges of the same number of nodes, for which there is room.
pub fn join_edge_rows(rows: &mut Vec<Row>, others: &Vec<Row>, nodes: u8)
    requires mine { length rows.old.items ≡ nodes }
    requires theirs { length others.now.items ≡ nodes }
    requires room { (i : ℕ) → length (row_of others.now.items i) ≤ length (row_of rows.old.items i) }
    ensures count { length rows.new.items ≡ length rows.old.items }
    ensures joined { (q : Key) → slot_number rows.new.items q
        ≡ joined_numbers (slot_number rows.old.items q) (slot_number others.now.items q) }
{
    for node in 0..nodes {
        rows[node as usize].join_edges(&others[node as usize]);
    }
}

/// Joins in the rows of silences of the same number of nodes, for which there is room.
pub fn join_silence_rows(rows: &mut Vec<Row>, others: &Vec<Row>, nodes: u8)
    requires mine { length rows.old.items ≡ nodes }
    requires theirs { length others.now.items ≡ nodes }
    requires room { (i : ℕ) → length (row_of others.now.items i) ≤ length (row_of rows.old.items i) }
    ensures count { length rows.new.items ≡ length rows.old.items }
    ensures joined { (q : Key) → slot_number rows.new.items q
        ≡ max (slot_number rows.old.items q) (slot_number others.now.items q) }
{
    for node in 0..nodes {
        rows[node as usize].join_silences(&others[node as usize]);
    }
}
