//! The keys that each table of a subscription file may have.

use crate::key::Key;

/// The keys at the top of a file.
pub const TOP_KEYS: [Key; 8] = [
    Key::SegmentLimit,
    Key::Journal,
    Key::Host,
    Key::XotPort,
    Key::Name,
    Key::SpareLines,
    Key::SpareLines128,
    Key::Station,
];

/// The keys of a station.
pub const STATION_KEYS: [Key; 12] = [
    Key::Address,
    Key::Line,
    Key::OutgoingBarred,
    Key::IncomingBarred,
    Key::ReverseCharging,
    Key::FastSelect,
    Key::OutgoingAccess,
    Key::IncomingAccess,
    Key::Preferential,
    Key::DefaultCaller,
    Key::Group,
    Key::Redirect,
];

/// The keys of a line.
pub const LINE_KEYS: [Key; 6] = [
    Key::Name,
    Key::Port,
    Key::Router,
    Key::Address,
    Key::Modulus,
    Key::From,
];

/// The keys of a station's closed user group.
pub const GROUP_KEYS: [Key; 4] = [
    Key::Name,
    Key::Index,
    Key::OutgoingBarred,
    Key::IncomingBarred,
];

/// The keys of a station's redirection.
pub const REDIRECT_KEYS: [Key; 4] = [Key::To, Key::Systematic, Key::Busy, Key::OutOfOrder];
