//! One step of the exchange: what an event is, what it does, and the plan of it. The plan is made before anything
//! changes; the exchange that takes the step carries it out.
#![tactic(auto)]

mod entry;
mod event;
mod in_force;
mod outcome;
mod output;
mod plan;
mod records;
mod table;
mod workspace;

pub use entry::Entry;
pub use event::{Event, MOST_STALLS, What};
pub use in_force::SubsInForce;
pub use outcome::Outcome;
pub use output::{Buffer, Outgoing, Output, Outputs, Put};
pub use plan::{EventLine, MeteredCall, Plan, Withdrawal, charged_on, close, plan_of};
pub use records::Records;
pub use workspace::Workspace;
