//! The text of records of the changes of nodes, read and written piece by piece.
#![tactic(auto)]

mod fault;
mod laws;
mod limits;
mod parse;
mod quick;
mod read;
mod write;

pub use fault::TextFault;
pub use laws::{fault_stays_law, nothing_read_law, one_answer_law, spelling_law, text_law};
pub use limits::{MOST_BYTES, MOST_LINE};
pub use read::{Came, RecordReader, read_records, read_records_within};
pub use wl_device::{
    Ended, Got, Host, MOST_CALLS, Put, ScriptedReader, ScriptedWriter, Sink, Source, Then,
    WriteFault, host_laws, read_up_to, send, write_all,
};
pub use wl_record_core::{
    MOST_EDGES, MOST_NODES, Record, Slot, TICK_END, clash_is_never_true, one_tick_a_slot,
    table_laws, truth_is_its_test,
};
pub use write::{push_text_line, text_of, write_records};
