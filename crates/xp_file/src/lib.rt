//! The subscription file of an exchange: its keys and their permitted values.
#![tactic(auto)]

mod digits;
mod entry;
mod fault;
mod field;
mod file;
mod key;
mod letters;
mod line;
mod listed_keys;
mod name;
mod router;
mod sources;
mod tables;

pub use entry::{Access, Facilities, GroupEntry, LineEntry, Redirection, StationEntry};
pub use fault::SubscriptionFault;
pub use file::SubscriptionFile;
pub use key::Key;
pub use listed_keys::{GROUP_KEYS, LINE_KEYS, REDIRECT_KEYS, STATION_KEYS, TOP_KEYS};
pub use name::Name;
pub use router::RouterAddress;
pub use sources::Sources;
