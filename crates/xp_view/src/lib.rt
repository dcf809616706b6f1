//! What can be seen of an exchange at one moment: its lines, and the calls that they are in.
#![tactic(auto)]

mod view;

pub use view::{ExchangeView, LineWithCall};
