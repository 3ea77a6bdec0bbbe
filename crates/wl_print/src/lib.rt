//! `wl_print`: prints plan texts, and writes any plan as one of version 4.
#![tactic(auto)]

mod fault;
mod format;
mod laws;
mod written;

pub use fault::PrintFault;
pub use format::format_run;
pub use laws::{printed_after_comment, printed_is_read, read_is_printable};
pub use written::{plan_text, push_plan};
