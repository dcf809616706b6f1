ghost use Rattle.std.specs.Prelude.{◌≡◌};
ghost use Rattle.xp_facilities.specs.declared.selection.Selection.TheVariants.{Nothing, Closed, WithOutsideAccess};
ghost use Rattle.xp_groups.specs.Groups.{HasGroups, selected, preferred};
ghost use Rattle.xp_groups.specs.Intends.{Intends};

use crate::intention::Intent;
use xp_causes::Refusal;
use xp_facilities::Selection;
use xp_subs::{Membership, Station};

/// The group and the outside access of a call that `station` makes with this selection.
///
/// # Errors
///
/// - `FACILITY_NOT_ALLOWED` if the station has no groups to select, or if it selects outgoing access and has none.
/// - `GROUP_NOT_KNOWN` if the station has no group with the selected index.
/// - `ACCESS_BARRED` if outgoing calls are barred in the selected group, or if the station selects no group and has
///   neither a preferential group to call in nor outgoing access.
pub fn intent(station: &Station, selection: Selection) -> Result<Intent, Refusal>
    ensures { Intends station.now selection result }
{
    if station.memberships.is_empty() {
        return match selection {
            Selection::Nothing => Ok(Intent::OUTSIDE),
            Selection::Closed(_) | Selection::WithOutsideAccess(_) => Err(
                Refusal::FACILITY_NOT_ALLOWED,
            ),
        };
    }
    match selection {
        Selection::Nothing => unselected(station),
        Selection::Closed(index) => closed(station, index),
        Selection::WithOutsideAccess(index) => with_outside_access(station, index),
    }
}

/// The intent of a call without a selection.
fn unselected(station: &Station) -> Result<Intent, Refusal>
    requires { HasGroups station.now }
    ensures { Intends station.now Nothing result }
{
    match preferential(station) {
        Some(held) if !held.outgoing_barred => Ok(within(held, station.facilities.outgoing_access)),
        _ if station.facilities.outgoing_access => Ok(Intent::OUTSIDE),
        _ => Err(Refusal::ACCESS_BARRED),
    }
}

/// The intent of a call within the group with this index.
fn closed(station: &Station, index: u16) -> Result<Intent, Refusal>
    requires { HasGroups station.now }
    ensures { Intends station.now (Closed index) result }
{
    match membership(station, index) {
        Some(held) if held.outgoing_barred => Err(Refusal::ACCESS_BARRED),
        Some(held) => Ok(within(held, false)),
        None => Err(Refusal::GROUP_NOT_KNOWN),
    }
}

/// The intent of a call within the group with this index, or outside it.
fn with_outside_access(station: &Station, index: u16) -> Result<Intent, Refusal>
    requires { HasGroups station.now }
    ensures { Intends station.now (WithOutsideAccess index) result }
{
    if !station.facilities.outgoing_access {
        return Err(Refusal::FACILITY_NOT_ALLOWED);
    }
    match membership(station, index) {
        Some(held) if held.outgoing_barred => Ok(Intent::OUTSIDE),
        Some(held) => Ok(within(held, true)),
        None => Err(Refusal::GROUP_NOT_KNOWN),
    }
}

/// The station's membership of the group with this index.
fn membership(station: &Station, index: u16) -> Option<Membership>
    ensures { result ≡ selected station.now index }
{
    station
        .memberships
        .iter()
        .find(|held| held.index == index)
        .copied()
}

/// The station's membership of its preferential group.
fn preferential(station: &Station) -> Option<Membership>
    ensures { result ≡ preferred station.now }
{
    membership(station, station.preferential?)
}

/// The intent of a call within this group, with or without outside access.
fn within(held: Membership, outside: bool) -> Intent
    ensures { result ≡ record { group = Some held.group; outside = outside } }
{
    Intent {
        group: Some(held.group),
        outside,
    }
}
