//! The incoming call packet for a line, the examination of its answer, and the packet that the far end receives for a
//! clear request (X.25 clauses 4.1 and 6).
#![tactic(auto)]

mod answer;
mod block;
mod clear;
mod connection;
mod fault;
mod field;
mod incoming;
mod information;
mod laws;
mod setup;
mod terms;

pub use answer::{Answer, CallAccepted, examine};
pub use clear::forward_clear;
pub use connection::Connection;
pub use incoming::incoming_call;
pub use information::{clear_confirmation, clear_indication};
pub use laws::{
    connected_can_be_sent, connections_settle_terms, every_answer_has_one_outcome,
    every_clear_has_one_indication, forwarded_clear_can_be_sent, incoming_call_can_be_sent,
    incoming_call_is_one, information_is_told,
};
pub use setup::Setup;
pub use terms::Terms;
