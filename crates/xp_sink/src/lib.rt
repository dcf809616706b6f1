//! Where the charging records of an exchange go while it is served, and what is shown of it meanwhile.
#![tactic(auto)]

mod next_subs;
mod shown;
mod sink;

pub use next_subs::{NextSubs, NotInForce};
pub use shown::ShownExchange;
pub use sink::{Received, RecordSink};
