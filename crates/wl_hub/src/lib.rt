//! Words that threads share, and passes to them.
//!
//! At every moment each word is the join of all that was given to it. A pass is the token of what
//! its holder gave and saw.
#![tactic(auto)]

mod board;
mod hub;
mod laws;
mod place;
mod truth;
mod view;

pub use hub::{Hub, Pass};
pub use laws::words_tell_records;
pub use truth::Truth;
