//! Reads what several crates that test read alike: rows with their answers, numbers, heads of machines.
#![tactic(auto)]

mod heads;
mod lines;
mod words;

pub use heads::{frame_of, head};
pub use lines::{Stop, Told, answer_lines, answered, is_row};
pub use words::{numbers, parts};
