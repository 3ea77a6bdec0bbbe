//! The engines of Wireline's program: each reads one input, and writes one output.
//!
//! Of a record text `merge_run` writes the canonical text of the replica that its records make, and `horizon_run` what that replica knows
//! of each node, and up to which tick. The others read a plan text:
//!
//! - `check_run` writes what the bit segments allow and how long the cable takes;
//! - `records_run` writes the records of the plan's simulation;
//! - `plan_run` writes its report, and so does `workers_run`, by workers in threads;
//! - `candump_run` writes the log of the frames that were sent, `vcd_run` the waveform, `trace_run` what happened to each node;
//! - `explain_run` writes what is doubtful of a plan, and the figures of its nodes, or what is wrong with a refused one;
//! - `margin_run` writes whether the plan's bus works, with how much to spare;
//! - `respond_run` writes how long each message may wait;
//! - `page_run` writes one page of HTML that shows a run;
//! - `traffic_run` writes how busy the bus was and how long messages waited;
//! - `judge_run` writes whether the bus works, where it is weakest, and which change gives most.
#![tactic(auto)]

mod check;
mod explain;
mod fault;
mod gather;
mod holding;
mod horizon;
mod judge;
mod kept;
mod laws;
mod margin;
mod merge;
mod named;
mod output;
mod plan;
mod reader;
mod records;
mod respond;
mod run_page;
mod shown;
mod traffic;
mod view;
mod views;
mod workers;

pub use check::check_run;
pub use explain::explain_run;
pub use fault::RunFault;
pub use horizon::{horizon_run, horizon_run_within};
pub use judge::judge_run;
pub use kept::Kept;
pub use laws::merges_as_one;
pub use margin::margin_run;
pub use merge::{merge_run, merge_run_within};
pub use named::node_trace_run;
pub use plan::{plan_run, plan_run_as};
pub use reader::TextReader;
pub use records::{records_run, records_run_within};
pub use respond::respond_run;
pub use run_page::{page_run, page_run_within};
pub use traffic::traffic_run;
pub use views::{
    candump_errors_run, candump_run, candump_run_as, candump_run_within, picked_trace_run,
    trace_run, vcd_run, vcd_run_within,
};
pub use wl_judge::Judgement;
pub use wl_traffic::Reason;
pub use wl_worker::LinkKind;
pub use workers::{Crew, workers_run, workers_run_as, workers_run_by};
