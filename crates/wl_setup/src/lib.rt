//! Reads plan texts (TOML) and makes plans from them, or returns the first fault of a text; and writes what a check of a plan prints.
#![tactic(auto)]

mod bus;
mod check;
mod document;
mod fault;
mod keys;
mod laws;
mod leaving;
mod limits;
mod names;
mod plan;
mod plan_text;
mod read;
mod table_path;
mod tables;
mod text;
mod traffic;
mod values;
mod version;

pub use bus::{Bus, Deviation, bus_of_bytes, bus_of_document, read_bus};
pub use check::check_plan;
pub use fault::SetupFault;
pub use keys::{Key, Kind};
pub use laws::{buses_of_plans, faults_of_texts};
pub use limits::{LARGEST_NUMBER, LARGEST_PPM, LARGEST_SMALL, LARGEST_TOLERANCE};
pub use names::Names;
pub use plan::{read_checked, read_plan};
pub use plan_text::{
    ClockText, DisturbanceText, FrameText, NodeText, PlanText, QueueText, RateText, SegmentsText,
};
pub use read::{NoDocument, document_or_place, read_bytes, read_text};
pub use table_path::{PlacedFault, TablePath, table_at};
pub use tables::{KeyFault, TableKey, Wrong, fault_of_keys};
pub use text::Text;
pub use values::{elements_at, has_kind, name_at, number_within, value_at, value_named};
