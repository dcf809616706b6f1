//! Deciding on a call request (X.25 clauses 4.1 and 6): a refusal, or the line that rings and the facilities that it
//! receives.
#![tactic(auto)]

mod acceptance;
mod decision;
mod fault;
mod incoming_call;
mod laws;
mod lines_for_caller;
mod request;
mod route;
mod verdict;
mod visit;
mod window;

pub use acceptance::Wanted;
pub use decision::decide;
pub use fault::CallFault;
pub use laws::{
    decision_is_by_the_other_lines, decision_is_determined_but_the_line, every_request_is_decided,
    refusals_are_known, refuses_without_idle_line_alone, taken_line_is_free,
    taken_stations_may_join, told_can_be_written, told_sizes_are_indicated,
};
pub use lines_for_caller::LinesForCaller;
pub use request::{Request, open};
pub use verdict::{IncomingCall, Verdict};
pub use visit::{AddressOutcome, call_at};
