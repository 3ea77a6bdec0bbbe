//! The report of an outcome as text: a line for each node, its frames, and a verdict.
#![tactic(auto)]

mod error_word;
mod frames;
mod laws;
mod nodes;
mod text;
mod verdict;

pub use frames::{push_content, push_id};
pub use laws::clean_is_clean;
pub use nodes::mode_word;
pub use text::{report, report_of_totals};
pub use verdict::{all_errors, all_unsent};
