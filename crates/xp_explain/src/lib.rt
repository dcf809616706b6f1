//! How a call request is decided, rule by rule, as docs/PROTOCOL.md numbers them.
#![tactic(auto)]

mod caller;
mod explanation;
mod names;
mod octets;
mod place;
mod question;
mod rule;
mod stated_lines;
mod telling;
mod verdict;
mod way;

pub use explanation::{Asked, Explanation, explain};
pub use names::{NamesFault, lines_named};
pub use octets::{OctetsFault, octets_in};
pub use rule::Rule;
pub use stated_lines::StatedLines;
pub use telling::{no_address, no_line_named};
pub use way::{End, Hop, Way};
