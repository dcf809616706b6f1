//! The queue from the exchange to one of its lines. One thread puts items into it, and another takes them out.
#![tactic(auto)]

mod closing;
mod put;
mod rule;
mod take;

pub use closing::count_untaken;
pub use put::{PutEnd, outbox};
pub use take::TakeEnd;
