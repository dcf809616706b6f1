//! What changes as other subscriptions come into force, in words for an operator, and for what the exchange has to be stopped.
#![tactic(auto)]

mod line_text;
mod listing;
mod refusing;
mod same_station;
mod station_text;
mod told;

pub use listing::{ChangedSubs, changes};
pub use refusing::{frame_text, lay_text};
pub use told::{ToldChanges, tell_changes};
