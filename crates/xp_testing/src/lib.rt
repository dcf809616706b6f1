//! What the tests of several crates share.
#![tactic(auto)]

mod packets;
mod refusing;
mod stations;
mod words;

pub use packets::octets_of;
pub use refusing::Refusing;
pub use stations::THREE_STATIONS;
pub use words::{number, setting};
