//! Whether a station stays as it was.

ghost use Rattle.std.specs.Prelude.{◌≡◌, ◌<◌, ◌↔◌, length, true};
ghost use Rattle.xp_changes.specs.Stations.{AcceptsSame, AreSameRedirections, HasSameBars, HasSameGroups, HasSameLines, HasSameValues, IsSameLine, IsSameMembership, IsSameRedirection, IsSameStation, line_in};
ghost use Rattle.xp_subs.specs.Tables.{IsThere, station_at, station_count};

use xp_subs::{Facilities, LineNo, Membership, Redirection, Sources, Station, StationNo, Subs};

/// Whether a station of the new subscriptions is the same as one of the old ones.
pub(crate) fn is_same_station(old: &Subs, before: StationNo, new: &Subs, after: StationNo) -> bool
    requires before { before < station_count old.now }
    requires after { after < station_count new.now }
    ensures { result ≡ true ↔ IsSameStation old.now new.now (station_at old.now before) (station_at new.now after) }
{
    let was = old.station(before);
    let is = new.station(after);
    has_same_values(was, is)
        && has_same_bars(&was.facilities, &is.facilities)
        && accepts_same(&was.facilities, &is.facilities)
        && has_same_groups(old, was, new, is)
        && has_same_lines(old, before, new, after)
}

/// Whether the address and the redirection are the same, and whether it is a default caller.
fn has_same_values(before: &Station, after: &Station) -> bool
    ensures { result ≡ true ↔ HasSameValues before.now after.now }
{
    after.address == before.address
        && after.default_caller == before.default_caller
        && are_same_redirections(&before.redirect, &after.redirect)
}

/// Whether the same calls are barred, within closed user groups and beyond them.
fn has_same_bars(before: &Facilities, after: &Facilities) -> bool
    ensures { result ≡ true ↔ HasSameBars before.now after.now }
{
    after.outgoing_barred == before.outgoing_barred
        && after.incoming_barred == before.incoming_barred
        && after.outgoing_access == before.outgoing_access
        && after.incoming_access == before.incoming_access
}

/// Whether the same calls are accepted.
fn accepts_same(before: &Facilities, after: &Facilities) -> bool
    ensures { result ≡ true ↔ AcceptsSame before.now after.now }
{
    after.reverse_charging == before.reverse_charging && after.fast_select == before.fast_select
}

/// Whether calls are redirected in the same way, or neither time.
pub(crate) fn are_same_redirections(
    before: &Option<Redirection>,
    after: &Option<Redirection>,
) -> bool
    ensures { result ≡ true ↔ AreSameRedirections before.now after.now }
{
    match before {
        None => match after {
            None => true,
            Some(_) => false,
        },
        Some(before) => match after {
            None => false,
            Some(after) => is_same_redirection(before, after),
        },
    }
}

/// Whether the address and the reasons of a redirection are the same.
fn is_same_redirection(before: &Redirection, after: &Redirection) -> bool
    ensures { result ≡ true ↔ IsSameRedirection before.now after.now }
{
    after.to == before.to
        && after.systematic == before.systematic
        && after.busy == before.busy
        && after.out_of_order == before.out_of_order
}

/// Whether the closed user groups are the same, in the same order.
pub(crate) fn has_same_groups(old: &Subs, before: &Station, new: &Subs, after: &Station) -> bool
    ensures { result ≡ true ↔ HasSameGroups old.now new.now before.now after.now }
{
    let held = before.memberships.as_slice();
    let now_held = after.memberships.as_slice();
    if after.preferential != before.preferential || now_held.len() != held.len() {
        return false;
    }
    for (place, membership) in held.iter().enumerate() {
        if !is_same_membership(old, *membership, new, now_held[place]) {
            return false;
        }
    }
    true
}

/// Whether the name of a group, its index and what is barred are the same.
fn is_same_membership(old: &Subs, before: Membership, new: &Subs, after: Membership) -> bool
    ensures { result ≡ true ↔ IsSameMembership old.now new.now before after }
{
    new.group_name(after.group) == old.group_name(before.group)
        && after.index == before.index
        && after.outgoing_barred == before.outgoing_barred
        && after.incoming_barred == before.incoming_barred
}

/// Whether the lines are the same, in the same order.
fn has_same_lines(old: &Subs, before: StationNo, new: &Subs, after: StationNo) -> bool
    requires before { before < station_count old.now }
    requires after { after < station_count new.now }
    ensures { result ≡ true ↔ HasSameLines old.now new.now (station_at old.now before) (station_at new.now after) }
{
    let count = old.station(before).lines.len();
    if new.station(after).lines.len() != count {
        return false;
    }
    for place in 0..count {
        let line = line_in(old, before, place);
        if !is_same_line(old, line, new, line_in(new, after, place)) {
            return false;
        }
    }
    true
}

/// The line in this place of a station.
pub(crate) fn line_in(subs: &Subs, station: StationNo, place: usize) -> LineNo
    requires station { station < station_count subs.now }
    requires place { place < length (station_at subs.now station).lines.items }
    ensures line { result ≡ line_in (station_at subs.now station) place }
    ensures there { IsThere subs.now result }
{
    // The contract of this call says that the lines of stations are lines of the exchange.
    let _ = subs.counts();
    subs.station(station).lines.as_slice()[place]
}

/// Whether the name of a line, its port or router, its own address and the addresses from which it may connect are the same.
fn is_same_line(old: &Subs, before: LineNo, new: &Subs, after: LineNo) -> bool
    requires before { IsThere old.now before }
    requires after { IsThere new.now after }
    ensures { result ≡ true ↔ IsSameLine old.now new.now before after }
{
    let was = old.line(before);
    let is = new.line(after);
    is.name == was.name
        && is.access == was.access
        && is.address == was.address
        && are_same_sources(&was.from, &is.from)
}

/// Whether connections may come from the same addresses.
pub(crate) fn are_same_sources(before: &Sources, after: &Sources) -> bool
    ensures { result ≡ true ↔ (after.now ≡ before.now) }
{
    *after == *before
}
