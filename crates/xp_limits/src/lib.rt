//! How lines are served: when serving ends, and by how many threads.
#![tactic(auto)]

mod limits;
mod threads;

pub use limits::Limits;
pub use threads::ServingThreads;
