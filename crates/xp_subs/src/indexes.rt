//! The indexes by which a station selects its groups.
ghost use Rattle.std.specs.Prelude.{◌≡◌, nat_eq};
ghost use Rattle.std.specs.List.{list_all, list_any};
ghost use Rattle.xp_file.specs.Name.{same};
ghost use Rattle.xp_subs.specs.Passes.{all_differ, same_index, same_group, has_own_indexes};

use xp_file::{GroupEntry, Name, StationEntry};

/// Whether every station has each index and each group only once, and a preferential index that is one of its
/// indexes.
pub(crate) fn all_have_own_indexes(stations: &[StationEntry]) -> bool
    ensures { result ≡ list_all has_own_indexes stations.now }
{
    stations.iter().all(has_own_indexes)
}

fn has_own_indexes(station: &StationEntry) -> bool
    ensures { result ≡ has_own_indexes station.now }
{
    indexes_differ(&station.groups)
        && names_differ(&station.groups)
        && station
            .preferential
            .is_none_or(|index| has_index(&station.groups, index))
}

fn has_index(groups: &[GroupEntry], index: u16) -> bool
    ensures { result ≡ list_any (λ group. nat_eq group.index index) groups.now }
{
    groups.iter().any(|group| group.index == index)
}

/// Whether no two indexes are equal. A station has few groups, so comparing all pairs is fast enough.
fn indexes_differ(groups: &[GroupEntry]) -> bool
    ensures { result ≡ all_differ same_index groups.now }
{
    for (place, group) in groups.iter().enumerate() {
        if has_index(&groups[place + 1..], group.index) {
            return false;
        }
    }
    true
}

fn has_name(groups: &[GroupEntry], name: &Name) -> bool
    ensures { result ≡ list_any (λ group. same group.name name.now) groups.now }
{
    groups.iter().any(|group| group.name == *name)
}

/// Whether no two names are equal.
fn names_differ(groups: &[GroupEntry]) -> bool
    ensures { result ≡ all_differ same_group groups.now }
{
    for (place, group) in groups.iter().enumerate() {
        if has_name(&groups[place + 1..], &group.name) {
            return false;
        }
    }
    true
}
