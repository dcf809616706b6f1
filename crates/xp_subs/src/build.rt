//! Builds the tables of a subscription file.
ghost use Rattle.std.specs.Prelude.{◌≡◌, ◌≤◌, ◌<◌, ◌+◌, ◌++◌, [], All, IfOk, OnOk, length, fold, replicate};
ghost use Rattle.xp_subs.specs.Bounds.{most_lines};
ghost use Rattle.xp_subs.specs.Built.{numbers, line_from, lines_of, lines_from, mention, mentions, group_names, group_number, membership_from, memberships_of, station_from, stations_from, spare_places};
ghost use Rattle.xp_subs.specs.steps.Built.{IsKnown, AreKnown};
ghost use Rattle.xp_subs.specs.steps.WithinLimits.{AreWithinLimits, IsStationWithinLimits, most_groups};
ghost use Rattle.xp_subs.specs.Tables.{spare_place};

use crate::limits::{MOST_GROUPS_OF_STATION, MOST_LINES_OF_STATION};
use crate::line::{Line, copy_of};
use crate::station::{Membership, Station};
use crate::{GroupNo, LineNo, StationNo};
use arrayvec::ArrayVec;
use indexmap::IndexSet;
use std::alloc::{AllocError, Global};
use xp_file::{GroupEntry, LineEntry, Name, Redirection, StationEntry, SubscriptionFile};
use xp_packets::Modulus;

/// The names of the groups, in the order in which the file first mentions them.
pub(crate) fn group_names(
    alloc: Global,
    entries: &[StationEntry],
) -> Result<IndexSet<Name>, AllocError>
    requires { AreWithinLimits entries.now }
    ensures names { IfOk result (λ known. known.keys ≡ mentions [] entries.now) }
    ensures few { IfOk result (λ known. length known.keys ≤ most_groups) }
{
    let mut known = IndexSet::new(alloc);
    for entry in entries {
        mention_all(&mut known, &entry.groups)?;
    }
    Ok(known)
}

fn mention_all(known: &mut IndexSet<Name>, groups: &[GroupEntry]) -> Result<(), AllocError>
    ensures names { OnOk result (known.new.keys ≡ fold mention known.old.keys (group_names groups.now)) }
    ensures few { OnOk result (length known.new.keys ≤ length known.old.keys + length groups.now) }
{
    for group in groups {
        mention(known, &group.name)?;
    }
    Ok(())
}

fn mention(known: &mut IndexSet<Name>, name: &Name) -> Result<(), AllocError>
    ensures name { OnOk result (known.new.keys ≡ mention known.old.keys name.now) }
    ensures few { OnOk result (length known.new.keys ≤ length known.old.keys + 1) }
{
    known.insert(name.copy())?;
    Ok(())
}

/// The stations. Their lines are numbered in the order of the file.
pub(crate) fn stations(
    alloc: Global,
    entries: &[StationEntry],
    known: &IndexSet<Name>,
) -> Result<Vec<Station>, AllocError>
    requires fit { AreWithinLimits entries.now }
    requires known { length known.now.keys ≤ most_groups }
    requires mentioned { All (AreKnown known.now.keys) entries.now }
    ensures { IfOk result (λ stations. stations.items ≡ stations_from known.now.keys 0 entries.now) }
{
    let mut stations = Vec::new(alloc);
    let mut first = 0;
    for entry in entries {
        stations.push(station(entry, first, known))?;
        first += entry.lines.len() as LineNo;
    }
    Ok(stations)
}

fn station(entry: &StationEntry, first: LineNo, known: &IndexSet<Name>) -> Station
    requires fit { IsStationWithinLimits entry.now }
    requires lines { first + length entry.now.lines ≤ most_lines }
    requires known { length known.now.keys ≤ most_groups }
    requires mentioned { AreKnown known.now.keys entry.now }
    ensures { result ≡ station_from known.now.keys first entry.now }
{
    Station {
        address: entry.address.copy(),
        lines: line_numbers(first, entry.lines.len()),
        facilities: entry.facilities,
        preferential: entry.preferential,
        default_caller: entry.default_caller,
        memberships: memberships(&entry.groups, known),
        redirect: copied(&entry.redirect),
    }
}

fn copied(redirect: &Option<Redirection>) -> Option<Redirection>
    ensures { result ≡ redirect.now }
{
    match redirect {
        Some(redirect) => Some(redirect.copy()),
        None => None,
    }
}

fn line_numbers(first: LineNo, count: usize) -> ArrayVec<LineNo, MOST_LINES_OF_STATION>
    requires few { count ≤ 32 }
    requires fits { first + count ≤ most_lines }
    ensures { result.items ≡ numbers first count }
{
    let mut numbers = ArrayVec::new();
    for place in 0..count {
        numbers.push(first + place as LineNo);
    }
    numbers
}

fn memberships(
    groups: &[GroupEntry],
    known: &IndexSet<Name>,
) -> ArrayVec<Membership, MOST_GROUPS_OF_STATION>
    requires few { length groups.now ≤ 64 }
    requires known { length known.now.keys ≤ most_groups }
    requires mentioned { All (IsKnown known.now.keys) groups.now }
    ensures { result.items ≡ memberships_of known.now.keys groups.now }
{
    let mut memberships = ArrayVec::new();
    for group in groups {
        memberships.push(membership(group, known));
    }
    memberships
}

fn membership(group: &GroupEntry, known: &IndexSet<Name>) -> Membership
    requires known { length known.now.keys ≤ most_groups }
    requires mentioned { IsKnown known.now.keys group.now }
    ensures { result ≡ membership_from known.now.keys group.now }
{
    Membership {
        group: group_number(known, &group.name),
        index: group.index,
        outgoing_barred: group.outgoing_barred,
        incoming_barred: group.incoming_barred,
    }
}

/// The number of a group: the place of its name in `known`, which contains it.
fn group_number(known: &IndexSet<Name>, name: &Name) -> GroupNo
    requires few { length known.now.keys ≤ most_groups }
    requires mentioned { group_number known.now.keys name.now < length known.now.keys }
    ensures { result ≡ group_number known.now.keys name.now }
{
    known.get_index_of(name).unwrap() as GroupNo
}

/// The lines of all stations, in the order of the file, and behind them the places that it reserves for further lines.
pub(crate) fn places(alloc: Global, file: &SubscriptionFile) -> Result<Vec<Line>, AllocError>
    requires { AreWithinLimits file.now.stations }
    ensures { IfOk result (λ lines. lines.items ≡ lines_from 0 file.now.stations ++ spare_places file.now) }
{
    let mut places = lines(alloc, &file.stations)?;
    push_spare_places(&mut places, Modulus::Eight, file.spare_lines)?;
    push_spare_places(&mut places, Modulus::Long, file.spare_lines_128)?;
    Ok(places)
}

fn push_spare_places(places: &mut Vec<Line>, modulus: Modulus, count: u16) -> Result<(), AllocError>
    ensures { OnOk result (places.new.items ≡ places.old.items ++ replicate count (spare_place modulus)) }
{
    for _place in 0..count {
        places.push(Line::spare_place(modulus))?;
    }
    Ok(())
}

fn lines(alloc: Global, entries: &[StationEntry]) -> Result<Vec<Line>, AllocError>
    requires { AreWithinLimits entries.now }
    ensures { IfOk result (λ lines. lines.items ≡ lines_from 0 entries.now) }
{
    let mut lines = Vec::new(alloc);
    let mut number = 0;
    for entry in entries {
        push_lines(&mut lines, number, &entry.lines)?;
        number += 1;
    }
    Ok(lines)
}

fn push_lines(
    lines: &mut Vec<Line>,
    station: StationNo,
    entries: &[LineEntry],
) -> Result<(), AllocError>
    ensures { OnOk result (lines.new.items ≡ lines.old.items ++ lines_of station entries.now) }
{
    for entry in entries {
        lines.push(line(station, entry))?;
    }
    Ok(())
}

fn line(station: StationNo, entry: &LineEntry) -> Line
    ensures { result ≡ line_from station entry.now }
{
    Line {
        name: entry.name.copy(),
        access: entry.access.copy(),
        address: copy_of(&entry.address),
        modulus: entry.modulus,
        station,
        from: entry.from.copy(),
    }
}
