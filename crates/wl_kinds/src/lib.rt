//! What kinds of CAN controllers can be set to: the ranges of their prescaler, segments and jump width, by their data sheets.
#![tactic(auto)]

mod kinds;

pub use kinds::{ControllerKind, KINDS, Part, Range, Taken, kind_named};
