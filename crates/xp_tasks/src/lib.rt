//! What the program does, over the text of a subscription file, a reader and a writer, and what it reports if that fails.
#![tactic(auto)]

mod failure;
mod performing;
mod set_up;
mod spare;
mod task;

pub use failure::TaskFailure;
pub use performing::{perform, subscriptions};
pub use task::Task;
