//! Counts of instants in windows, and how long frames that follow one another may wait: laws on numbers alone.
#![tactic(auto)]

pub mod laws;
