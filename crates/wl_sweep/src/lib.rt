//! Sweeps: a plan run over phases, both limits of each tolerance and values of keys, so that a verdict is about a bus and not one power-up.
//!
//! A sweep is a family of plan texts, made of one text by a mixed radix. Each member is tested by the stages that a text goes through,
//! and simulated. What a sweep says is a function of the text, the ranges and the options: no clause knows how many threads there are.
#![tactic(auto)]

mod change;
mod digit_source;
mod family;
mod finding;
mod options;
mod part;
mod range;
mod runs;
mod sweep;
mod tally;
mod text;
mod vary;
mod worst;

pub use change::{SweptKey, text_same};
pub use family::bit_in;
pub use finding::{Finding, clean_is_a_working_bus, finding_of};
pub use options::Options;
pub use part::{Share, a_whole_says_the_sweep};
pub use range::{SweptRange, row_count, row_value};
pub use runs::SweepProgress;
pub use sweep::{MOST_ROWS, Sweep, Workers};
pub use tally::Tally;
pub use vary::{RangeFault, node_of, parted_at_equals, read_range, size_of};
pub use worst::worst_text;
