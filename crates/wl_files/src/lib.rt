//! Files by name: what a program may do with them, the system's, and scripted ones for tests.
//!
//! A file is read where it is. A new one is written beside the named place, and moved there once it is whole: before that the named
//! place has what it had.
#![tactic(auto)]

mod folder;
mod script;
mod system;

pub use folder::{BeginFault, Folder, Spot};
pub use script::ScriptedFolder;
pub use system::{SystemFile, SystemFolder};
