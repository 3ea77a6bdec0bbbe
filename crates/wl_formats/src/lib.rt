//! What a command writes, as JSON or CSV.
//!
//! The lines of each command have shapes: fixed words with named fields between them. A line becomes a record of its fields.
#![tactic(auto)]

mod aligned;
mod csv;
mod fault;
mod formats;
mod json;
mod matching;
mod rank;
mod shape;
mod tables;

pub use fault::FormatFault;
pub use formats::formatted;
pub use tables::Subject;
