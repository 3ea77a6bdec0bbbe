//! What to change of an input that is refused, in one line, with the place in the input.
//!
//! The place is a line and a column, from 1, in characters. It is found by a scan of the text. The words are those of the explanation
//! (`wl_explain`). Clauses say that the place is one of the text, and that nothing in a hint steers a terminal, but not that the place is
//! the fault's.
#![tactic(auto)]

mod hint;
mod noise;
mod place;
mod plan;
mod records;
mod remarks;
mod scan;
mod table;
mod toml_remarks;
mod units;

pub use hint::{Hint, TextPlace};
pub use plan::hint_of_plan;
pub use records::hint_of_records;
pub use table::{
    FREE_MEMORY, IS_FOLDER, IS_PLAN, IS_SETTINGS, NO_FILE, READ, READ_FILE, THREADS, WRITE,
    WRITE_FILE,
};
