//! What to look at again in a station.

ghost use Rattle.std.specs.Prelude.{◌≡◌, ◌<◌, IsTrue, ◌↔◌};
ghost use Rattle.xp_groups.specs.Groups.{preferred, selected};
ghost use Rattle.xp_subs.specs.Tables.{station_count};
ghost use Rattle.xp_summary.specs.Warnings.{IsAlone, NeedsSelection, Warns, barred_preferential, is_in};

use crate::reach::{Reach, reach_between};
use crate::redirections::{alternate_of_nobody, is_in_circle, redirects_never};
use xp_packets::Digits;
use xp_subs::{GroupNo, Membership, Station, StationNo, Subs};

/// What to look at again in a station.
#[derive(Clone, Copy)]
pub struct StationWarnings<'a> {
    /// Its calls may be redirected in a circle.
    pub in_circle: bool,
    /// The address to which its calls are redirected, where nobody has it.
    pub alternate_of_nobody: Option<&'a Digits>,
    /// It has a redirection that applies in no case.
    pub redirects_never: bool,
    /// Its preferential group, where outgoing calls are barred in it.
    pub barred_preferential: Option<Membership>,
    /// It reaches stations by a selection of a closed user group, and none without.
    pub needs_selection: bool,
}

/// What to look at again in the station with this number.
pub fn warnings(subs: &Subs, station: StationNo) -> StationWarnings<'_>
    requires { station < station_count subs.now }
    ensures { Warns subs.now station result }
{
    let held = subs.station(station);
    StationWarnings {
        in_circle: is_in_circle(subs, station),
        alternate_of_nobody: alternate_of_nobody(subs, held),
        redirects_never: redirects_never(held),
        barred_preferential: barred_preferential(held),
        needs_selection: needs_selection(subs, station),
    }
}

/// The station's preferential group, where outgoing calls are barred in it.
pub fn barred_preferential(station: &Station) -> Option<Membership>
    ensures { result ≡ barred_preferential station.now }
{
    match preferential(station) {
        Some(held) if held.outgoing_barred => Some(held),
        _ => None,
    }
}

/// The station's membership of its preferential group.
fn preferential(station: &Station) -> Option<Membership>
    ensures { result ≡ preferred station.now }
{
    membership(station, station.preferential?)
}

/// The station's membership of the group with this index.
fn membership(station: &Station, index: u16) -> Option<Membership>
    ensures { result ≡ selected station.now index }
{
    station
        .memberships
        .iter()
        .find(|held| held.index == index)
        .copied()
}

/// Whether the station reaches others by a selection of a closed user group, and none without.
pub fn needs_selection(subs: &Subs, caller: StationNo) -> bool
    requires { caller < station_count subs.now }
    ensures { IsTrue result ↔ NeedsSelection subs.now caller }
{
    let mut selects = false;
    for called in 0..subs.counts().stations {
        match reach_between(subs, caller, called as StationNo) {
            Reach::Plain => return false,
            Reach::Selecting => selects = true,
            Reach::Never => {}
        }
    }
    selects
}

/// Whether no other station of the file is in the group.
pub fn is_alone(subs: &Subs, station: StationNo, group: GroupNo) -> bool
    ensures { IsTrue result ↔ IsAlone subs.now station group }
{
    for other in 0..subs.counts().stations {
        if other != usize::from(station) && is_in(subs.station(other as StationNo), group) {
            return false;
        }
    }
    true
}

/// Whether the station is in the group.
fn is_in(station: &Station, group: GroupNo) -> bool
    ensures { result ≡ is_in station.now group }
{
    station.memberships.iter().any(|held| held.group == group)
}
