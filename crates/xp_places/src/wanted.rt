//! What the keys of a subscription file want, and where they may stand.

use crate::place::Place;
use xp_file::{GROUP_KEYS, Key, LINE_KEYS, REDIRECT_KEYS, STATION_KEYS, TOP_KEYS};

/// The keys that the table at this place may have.
fn keys_at(place: Place<'_>) -> &'static [Key] {
    match place {
        Place::Top(_) => &TOP_KEYS,
        Place::Station(_, _) => &STATION_KEYS,
        Place::Line(_, _, _, _) => &LINE_KEYS,
        Place::Group(_, _, _, _) => &GROUP_KEYS,
        Place::Redirection(_, _, _) => &REDIRECT_KEYS,
    }
}

/// Whether the table at this place may have a key of this name.
pub(crate) fn may_have(place: Place<'_>, name: &str) -> bool {
    for key in keys_at(place) {
        if key.name() == name {
            return true;
        }
    }
    false
}

/// What the value of this key has to be at this place, in words.
pub(crate) fn wanted(place: Place<'_>, key: Key) -> &'static str {
    match key {
        Key::SegmentLimit => "a number from 1 to 99999999",
        Key::Journal => "a number from 4 to 10000000",
        Key::Host => "a text",
        Key::Port | Key::XotPort => "a number from 1 to 65535",
        Key::SpareLines | Key::SpareLines128 => "a number from 0 to 4096",
        Key::Station | Key::Line => "an array of at least one table",
        Key::Group => "an array of tables",
        Key::Redirect => "a table",
        Key::Address | Key::To => "a text of 1 to 15 digits",
        Key::Preferential | Key::Index => "a number from 0 to 9999",
        Key::Name => match place {
            Place::Top(_) | Place::Group(_, _, _, _) => "a text of 1 to 16 letters and digits",
            _ => "a text of 1 to 16 of a to z and 0 to 9",
        },
        Key::Router => "an address with or without a port, and no `port` beside it,",
        Key::Modulus => "8 or 128",
        Key::From => "a text with an address or a network, or an array of 1 to 8 such texts,",
        Key::OutgoingBarred
        | Key::IncomingBarred
        | Key::ReverseCharging
        | Key::FastSelect
        | Key::OutgoingAccess
        | Key::IncomingAccess
        | Key::DefaultCaller
        | Key::Systematic
        | Key::Busy
        | Key::OutOfOrder => "true or false",
        Key::Other => "another key",
    }
}
