//! The words of the program's command line: its subcommands with their options, and what given words ask for.
//!
//! `words_of` returns the words that the system has. `read` returns the `Order` that words are: a `Task` with its values, the files to read
//! and to write, and another format of the output. What is wrong with words goes to standard error, and so does help.
#![tactic(auto)]

mod asked;
mod clash;
mod command;
mod laws;
mod options;
mod spikes;
mod subcommands;
mod tables;
mod task;
mod values;

pub use command::{Order, Refusal, read, words_of};
pub use laws::a_word_is_read_as_its_task;
pub use task::{Swept, Task};
pub use values::Values;
