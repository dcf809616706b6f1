//! The exchange that many threads share: one lock, and one pass for each line.
#![tactic(auto)]

mod book;
mod entering;
mod exchange;
mod fault;
mod given;
mod giving_up;
mod keeper;
mod look;
mod missing;
mod outboxes;
mod pass;
mod prepared;
mod receipt;
mod stalling;
mod start;

pub use book::Book;
pub use exchange::{Exchange, ExchangeGuard};
pub use fault::{CloseFault, OfferFault, ReloadRefusal};
pub use keeper::Keeper;
pub use look::Look;
pub use pass::LinePass;
pub use prepared::{PreparedExchange, prepare};
pub use receipt::Receipt;
