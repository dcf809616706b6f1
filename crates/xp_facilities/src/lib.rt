//! The facility field of call set-up and clearing packets (X.25 clauses 6 and 7).
#![tactic(auto)]

mod charging_information;
mod codes;
mod direction_sizes;
mod fast_select;
mod fault;
mod indicated;
mod item;
pub mod laws;
pub mod limits;
mod parameters;
mod parser;
mod redirection;
mod requested;
mod segment_counts;
mod selection;
mod writer;

pub use charging_information::{ChargingInformation, charging_field};
pub use direction_sizes::DirectionSizes;
pub use fast_select::FastSelect;
pub use fault::FacilityFault;
pub use indicated::IndicatedFacilities;
pub use parser::parse;
pub use redirection::{Reason, RedirectionNotification};
pub use requested::RequestedFacilities;
pub use segment_counts::SegmentCounts;
pub use selection::Selection;
pub use writer::write;
