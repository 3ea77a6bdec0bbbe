//! A run of a plan as one page of HTML, made of the texts that the program writes of it.
//!
//! The page has all that it needs: it takes nothing from a network. Its script reads the texts and draws them.
#![tactic(auto)]

mod drawing;
mod escape;
mod moving;
mod reading;
mod tables;
mod template;
mod texts;

pub use texts::{Texts, page, push_part};
