//! Readers and writers, by what they answer to each call: those of the system, and scripted ones for tests.
#![tactic(auto)]

mod bounded;
mod device;
mod host;
mod laws;
mod limits;
mod script;

pub use bounded::{Ended, read_up_to};
pub use device::{Got, Put, Sink, Source, WriteFault, send, write_all};
pub use host::Host;
pub use laws::host_laws;
pub use limits::MOST_CALLS;
pub use script::{ScriptedReader, ScriptedWriter, Then};
