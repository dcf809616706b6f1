//! Who may call whom, by closed user group, where there are too many stations for a matrix.

ghost use Rattle.std.specs.Prelude.{◌≡◌};
ghost use Rattle.xp_summary.specs.ByGroup.{calls_outside, is_called_from_outside, makes_calls, takes_calls};

use std::alloc::{AllocError, Global};
use std::fmt::Write;
use xp_subs::{GroupNo, Membership, Station, StationNo, Subs};

/// How many octets a line of numbers has at most, less the last number.
const WIDTH: usize = 66;

/// A membership of a station, and what the station may do in the group.
#[derive(Clone, Copy)]
struct Member {
    group: GroupNo,
    station: StationNo,
    calls: bool,
    is_called: bool,
}

/// Stations that call, and those that they reach, each in the order of numbers.
#[derive(Drop)]
struct Sides {
    callers: Vec<StationNo>,
    called: Vec<StationNo>,
}

impl Sides {
    fn new(alloc: Global) -> Sides {
        Sides {
            callers: Vec::new(alloc),
            called: Vec::new(alloc),
        }
    }

    /// Adds a station that calls, or is called, or both.
    fn add(&mut self, number: StationNo, calls: bool, is_called: bool) -> Result<(), AllocError> {
        if calls {
            self.callers.push(number)?;
        }
        if is_called {
            self.called.push(number)?;
        }
        Ok(())
    }
}

/// Whether the station makes calls within the group of this membership.
pub fn makes_calls(station: &Station, held: Membership) -> bool
    ensures { result ≡ makes_calls station.now held }
{
    !station.facilities.outgoing_barred && !held.outgoing_barred
}

/// Whether the station takes calls within the group of this membership.
pub fn takes_calls(station: &Station, held: Membership) -> bool
    ensures { result ≡ takes_calls station.now held }
{
    !station.facilities.incoming_barred && !held.incoming_barred
}

/// Whether the station calls those outside its groups.
pub fn calls_outside(station: &Station) -> bool
    ensures { result ≡ calls_outside station.now }
{
    !station.facilities.outgoing_barred
        && (station.memberships.is_empty() || station.facilities.outgoing_access)
}

/// Whether the station takes calls from outside its groups.
pub fn is_called_from_outside(station: &Station) -> bool
    ensures { result ≡ is_called_from_outside station.now }
{
    !station.facilities.incoming_barred
        && (station.memberships.is_empty() || station.facilities.incoming_access)
}

/// Each group, in the order in which the file first mentions them, with those that call in it and those that are called in it; then
/// the same of what is outside the groups.
pub(crate) fn push_groups(alloc: Global, text: &mut String, subs: &Subs) -> Result<(), AllocError> {
    let mut members = members_of(alloc, subs)?;
    members.sort_by_key(|member| member.group)?;
    for group in members.chunk_by(|one, other| one.group == other.group) {
        push_group(alloc, text, subs, group)?;
    }
    push_outside(alloc, text, subs)
}

/// The memberships of all stations, in their order.
fn members_of(alloc: Global, subs: &Subs) -> Result<Vec<Member>, AllocError> {
    let mut members = Vec::new(alloc);
    for number in 0..subs.counts().stations {
        push_members(
            &mut members,
            subs.station(number as StationNo),
            number as StationNo,
        )?;
    }
    Ok(members)
}

/// The memberships of a station.
fn push_members(
    members: &mut Vec<Member>,
    station: &Station,
    number: StationNo,
) -> Result<(), AllocError> {
    for held in station.memberships.as_slice() {
        members.push(Member {
            group: held.group,
            station: number,
            calls: makes_calls(station, *held),
            is_called: takes_calls(station, *held),
        })?;
    }
    Ok(())
}

/// A group, of which these are the members.
fn push_group(
    alloc: Global,
    text: &mut String,
    subs: &Subs,
    members: &[Member],
) -> Result<(), AllocError> {
    let Some(first) = members.first() else {
        return Ok(());
    };
    let name = subs.group_name(first.group).unwrap_or("");
    writeln!(text, "group {name}")?;
    let mut sides = Sides::new(alloc);
    for member in members {
        sides.add(member.station, member.calls, member.is_called)?;
    }
    push_sides(text, &sides)
}

/// Those that call outside their groups, and those that are called from there.
fn push_outside(alloc: Global, text: &mut String, subs: &Subs) -> Result<(), AllocError> {
    text.push_str("outside the groups\n")?;
    let mut sides = Sides::new(alloc);
    for number in 0..subs.counts().stations {
        let number = number as StationNo;
        let station = subs.station(number);
        sides.add(
            number,
            calls_outside(station),
            is_called_from_outside(station),
        )?;
    }
    push_sides(text, &sides)
}

/// Stations that call, and those that they reach.
fn push_sides(text: &mut String, sides: &Sides) -> Result<(), AllocError> {
    text.push_str("  callers:")?;
    push_numbers(text, &sides.callers)?;
    text.push_str("  called:")?;
    push_numbers(text, &sides.called)
}

/// The numbers of these stations, from 1 on, in lines of some 80 columns. Those that follow one another are told as `2-5`.
fn push_numbers(text: &mut String, stations: &[StationNo]) -> Result<(), AllocError> {
    if stations.is_empty() {
        return text.push_str(" none\n");
    }
    let mut start = text.len();
    for (place, station) in stations.iter().enumerate() {
        if text.len().saturating_sub(start) >= WIDTH && !follows(stations, place) {
            text.push_str("\n   ")?;
            start = text.len();
        }
        push_number(text, stations, place, *station)?;
    }
    text.push_str("\n")
}

/// The number of the station in this place, where it begins or ends some that follow one another.
fn push_number(
    text: &mut String,
    stations: &[StationNo],
    place: usize,
    station: StationNo,
) -> Result<(), AllocError> {
    let number = usize::from(station) + 1;
    let goes_on = follows(stations, place.saturating_add(1));
    match (follows(stations, place), goes_on) {
        (false, false) => write!(text, " {number}"),
        (false, true) => write!(text, " {number}-"),
        (true, false) => write!(text, "{number}"),
        (true, true) => Ok(()),
    }
}

/// Whether the station in this place has the number behind that of the station before it.
fn follows(stations: &[StationNo], place: usize) -> bool {
    let Some(before) = place.checked_sub(1) else {
        return false;
    };
    match (stations.get(before), stations.get(place)) {
        (Some(before), Some(station)) => usize::from(*before) + 1 == usize::from(*station),
        _ => false,
    }
}
