//! The time of day, from a source that does not go back.
#![tactic(auto)]

mod start;
mod wall_clock;

pub use start::{Start, uptime};
pub use wall_clock::WallClock;
