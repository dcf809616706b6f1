//! Charging (X.25 clause 6.22): segments, the meter of a call, and the record of a call that ended.
#![tactic(auto)]

mod laws;
mod meter;
mod record;
mod segments;
mod text;

pub use laws::segments_are_the_fewest_that_hold_the_octets;
pub use meter::{Meter, OverLimit};
pub use record::Record;
pub use segments::segments_of;
