ghost use Rattle.std.specs.Prelude.{◌≡◌, false, IsTrue};
ghost use Rattle.xp_facilities.specs.declared.selection.Selection.TheVariants.{Closed, WithOutsideAccess};
ghost use Rattle.xp_groups.specs.Admits.{Admits, from_outside};
ghost use Rattle.xp_groups.specs.Groups.{HasGroups, HasNoGroups, membership_in};

use crate::intention::Intent;
use xp_causes::Refusal;
use xp_facilities::Selection;
use xp_subs::{GroupNo, Membership, Station};

/// The admission of a call to a station, according to the station's closed user groups (X.301).
#[derive(Clone, Copy)]
pub struct Admission {
    /// The group that the incoming call indicates, by the called station's own index.
    pub indicated: Selection,
}

/// Admits a call with this intent to `station`.
///
/// # Errors
///
/// `ACCESS_BARRED` if the call may come in neither through its group nor from outside the station's groups.
pub fn admit(intent: &Intent, station: &Station) -> Result<Admission, Refusal>
    ensures { Admits intent.now station.now result }
{
    let from_outside = comes_from_outside(intent, station);
    match membership_in(station, intent.group) {
        Some(held) if !held.incoming_barred => Ok(Admission {
            indicated: indicated_selection(held, from_outside),
        }),
        _ if from_outside => Ok(Admission {
            indicated: Selection::Nothing,
        }),
        _ => Err(Refusal::ACCESS_BARRED),
    }
}

/// Whether the call has outside access and the station takes calls from outside its groups. A station without groups
/// does.
fn comes_from_outside(intent: &Intent, station: &Station) -> bool
    ensures no_groups { HasNoGroups station.now → result ≡ intent.now.outside }
    ensures groups { HasGroups station.now → result ≡ from_outside intent.now station.now }
{
    intent.outside && (station.memberships.is_empty() || station.facilities.incoming_access)
}

/// The selection that indicates the call's group to the called station, with or without outside access.
fn indicated_selection(held: Membership, outside: bool) -> Selection
    ensures with_outside_access { IsTrue outside → result ≡ WithOutsideAccess held.index }
    ensures closed { outside ≡ false → result ≡ Closed held.index }
{
    if outside {
        Selection::WithOutsideAccess(held.index)
    } else {
        Selection::Closed(held.index)
    }
}

/// The station's membership of this group.
fn membership_in(station: &Station, group: Option<GroupNo>) -> Option<Membership>
    ensures { result ≡ membership_in station.now group }
{
    let group = group?;
    station
        .memberships
        .iter()
        .find(|held| held.group == group)
        .copied()
}
