//! The parts of a sweep: their text, and what they say together, in any order.
//!
//! A sweep is cut into parts that run apart. Each names its sweep and says what it found. Parts that are of one sweep, each once, say
//! together what one run says. The crate knows no plan.
#![tactic(auto)]

mod fault;
mod found;
mod join;
mod laws;
mod part;
mod read;
mod write;

pub use fault::PartsFault;
pub use found::{Findings, FirstMember, RowCounts};
pub use join::join_parts;
pub use laws::{findings_join_in_any_order, parts_say_the_whole};
pub use part::SweepPart;
pub use read::read_parts;
pub use write::part_text;
