//! Hunting for an idle line of a hunt group (X.25 clause 6.24).
#![tactic(auto)]

mod choice;
mod laws;
mod lines;

pub use choice::{HuntOutcome, pick};
pub use laws::{every_group_is_picked, picks_where_one_is_idle};
pub use lines::{LineState, Lines};
