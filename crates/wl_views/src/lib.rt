//! Views of a run in the formats of other tools: the log of can-utils, and a Value Change Dump.
#![tactic(auto)]

mod calendar;
mod digits;
mod dump;
mod error_frames;
mod fault;
mod laws;
mod limits;
mod lines;
mod log;
mod parts;
mod pick;
mod place_line;
mod probe;
mod sampling;
mod sent_frames;
mod signals;
mod stamp;
mod tick;
mod told;
mod trace_text;
mod vcd_text;
mod window;
mod words;

pub use error_frames::candump_errors;
pub use fault::ViewFault;
pub use laws::sent_in_time;
pub use log::candump;
pub use parts::thousandths;
pub use pick::{EventKind, Pick, trace};
pub use sampling::Sampling;
pub use signals::NodeSignals;
pub use tick::{Tick, TimeUnit};
pub use trace_text::{first_error, first_error_tick};
pub use vcd_text::vcd;
pub use window::{Span, Window};
