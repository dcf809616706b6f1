//! The limits of an exchange.
ghost use Rattle.std.specs.Prelude.{◌≡◌, ◌≤◌, nat_lt};
ghost use Rattle.xp_subs.specs.Bounds.{most_lines};
ghost use Rattle.xp_subs.specs.Passes.{station_over, first_over, line_total, over_limit, spare_over, file_over};

use crate::StationNo;
use xp_file::{Key, StationEntry, SubscriptionFile};

/// The most stations of an exchange.
pub const MOST_STATIONS: usize = 4_096;
/// The most lines of an exchange, with the places that are kept for further ones.
pub const MOST_LINES: usize = 4_096;
/// In place of a station's number, for a place that has no line.
pub(crate) const NO_STATION: StationNo = 4_096;
/// The most lines of a station.
pub const MOST_LINES_OF_STATION: usize = 32;
/// The most groups of a station.
pub const MOST_GROUPS_OF_STATION: usize = 64;

/// The key of the first limit that the stations exceed.
fn over_limit(stations: &[StationEntry]) -> Option<Key>
    ensures { result ≡ over_limit stations.now }
{
    if stations.len() > MOST_STATIONS {
        Some(Key::Station)
    } else if has_too_many_lines(stations) {
        Some(Key::Line)
    } else {
        first_over(stations)
    }
}

/// The key of the first limit that the file exceeds.
pub(crate) fn file_over(file: &SubscriptionFile) -> Option<Key>
    ensures { result ≡ file_over file.now }
{
    match over_limit(&file.stations) {
        Some(key) => Some(key),
        None => spare_over(file),
    }
}

/// Whether the places that the file reserves are too many beside its lines.
fn spare_over(file: &SubscriptionFile) -> Option<Key>
    requires { line_total file.now.stations ≤ most_lines }
    ensures { result ≡ spare_over file.now }
{
    let lines = line_total(&file.stations);
    let places = lines + usize::from(file.spare_lines);
    if places > MOST_LINES {
        Some(Key::SpareLines)
    } else if places + usize::from(file.spare_lines_128) > MOST_LINES {
        Some(Key::SpareLines128)
    } else {
        None
    }
}

/// The number of lines of all stations.
fn line_total(stations: &[StationEntry]) -> usize
    requires { line_total stations.now ≤ most_lines }
    ensures { result ≡ line_total stations.now }
{
    let mut total = 0;
    for station in stations {
        total += station.lines.len();
    }
    total
}

fn has_too_many_lines(stations: &[StationEntry]) -> bool
    ensures { result ≡ nat_lt most_lines (line_total stations.now) }
{
    let mut total = 0;
    for station in stations {
        total += station.lines.len();
        if total > MOST_LINES {
            return true;
        }
    }
    false
}

fn first_over(stations: &[StationEntry]) -> Option<Key>
    ensures { result ≡ first_over stations.now }
{
    for station in stations {
        if let Some(key) = station_over(station) {
            return Some(key);
        }
    }
    None
}

fn station_over(station: &StationEntry) -> Option<Key>
    ensures { result ≡ station_over station.now }
{
    if station.lines.len() > MOST_LINES_OF_STATION {
        Some(Key::Line)
    } else if station.groups.len() > MOST_GROUPS_OF_STATION {
        Some(Key::Group)
    } else {
        None
    }
}
