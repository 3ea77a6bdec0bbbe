//! The lines that commands write, as records of named fields: one printer makes text, JSON, CSV and tables for people of them.
#![tactic(auto)]

mod aligned;
mod csv;
mod formats;
mod json;
mod line;
mod number;
mod rank;
mod shape;

pub use csv::push_csv_text;
pub use formats::{Format, written_as};
pub use json::push_quoted;
pub use line::TextLine;
pub use number::{is_dash, is_number};
pub use rank::Worst;
pub use shape::{Class, Outline, Piece, Shape};
