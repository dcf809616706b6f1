//! What a line is served with: links and the port that they come from, a clock and a bell; and what its thread does between turns.
//! Nothing here knows the exchange.
#![tactic(auto)]

mod link;

pub use link::{Arrived, Bell, Clock, Link, Patience, Poller, Port, Pulled, Pushed};
