//! The engines that write a plan with other settings, over any reader and writer.
#![tactic(auto)]

mod fault;
mod run;

pub use fault::AppliedFault;
pub use run::{applied_of_words, applied_run};
