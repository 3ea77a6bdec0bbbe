//! The map of a sweep as one page of HTML: a cell for each row of two ranges, by whether its members are clean.
//!
//! The page has all that it needs: it takes nothing from a network. Its script reads its texts and draws them.
#![tactic(auto)]

mod axes;
mod cell;
mod laws;
mod map;
mod rows;
mod template;

pub use axes::push_axes;
pub use cell::Colour;
pub use laws::{a_clean_cell_is_clean, a_row_alone_finds_the_same};
pub use map::map_page;
