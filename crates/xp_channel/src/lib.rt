//! The states of a logical channel and the table of actions (X.25 Annexes B and C).
#![tactic(auto)]

mod action;
mod channel;
mod kind;

pub use action::Action;
pub use channel::Channel;
pub use kind::EventKind;
