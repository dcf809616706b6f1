//! What is looked at, opened and told before lines are served; and why the program fails.
#![tactic(auto)]

mod failure;
mod opening_line;
mod readiness;
mod tracing;

pub use failure::Failure;
pub use opening_line::opening;
pub use readiness::{check_readiness, explained, refusal_warning};
pub use tracing::Tracing;
