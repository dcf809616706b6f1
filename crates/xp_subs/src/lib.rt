//! The subscriptions of an exchange: its stations, their lines and their closed user groups.
#![tactic(auto)]

mod build;
mod default_callers;
mod indexes;
mod laid;
mod laws;
mod limits;
mod line;
mod moving;
mod places;
mod read;
mod station;
mod subs;
mod target;
mod used_values;

pub use laid::LayFault;
pub use laws::one_answer;
pub use limits::{MOST_GROUPS_OF_STATION, MOST_LINES, MOST_LINES_OF_STATION, MOST_STATIONS};
pub use line::Line;
pub use station::{Membership, Station};
pub use subs::Subs;
pub use target::{Counts, Target};
pub use xp_file::{
    Access, Facilities, Key, Name, Redirection, RouterAddress, Sources, SubscriptionFault,
};

/// The number of a line, which is the number of its place: from 0, in the order of the file with which the exchange started.
/// The places that are kept for further lines come behind them.
pub type LineNo = u16;

/// The number of a station: from 0, in the order of the file.
pub type StationNo = u16;

/// The number of a closed user group: from 0, in the order in which the file first names the groups.
pub type GroupNo = u32;
