//! How long each message of a bus may wait, whatever the offsets are: a table of bounds, the test of its inequalities, and its lines.
//!
//! The test is what `wl_buses::bounded_waits` asks of such a table. How its numbers are found doesn't matter (Davis, Burns, Bril, Lukkien 2007, as a
//! test).
#![tactic(auto)]

mod asked;
mod bounds;
mod brief;
mod inequality;
mod level;
mod message;
mod parts;
mod plan;
mod premise;
mod row;
mod search;
mod senders;
mod shapes;
mod table;
mod text;
mod verdict;
mod words;

pub use asked::{Asked, any_data_is_within_the_bits};
pub use bounds::{Question, Waits, waits_of_bus};
pub use brief::brief_text;
pub use level::has_levels;
pub use message::{MessageWait, pass};
pub use parts::{Line, Met, Parts};
pub use plan::keeps_table;
pub use premise::{Lacking, first_lacking};
pub use search::{Found, bounds_of};
pub use shapes::respond_outline;
pub use table::{ONCE, table_of};
pub use text::{Response, respond_lines};
