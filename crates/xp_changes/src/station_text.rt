//! What changes of stations, and what that does to calls, in words. No contract says what is told.

ghost use Rattle.std.specs.Prelude.{◌<◌};
ghost use Rattle.xp_subs.specs.Tables.{IsThere, station_count};

use crate::line_text::push_access;
use crate::listing::{ChangedSubs, station_before};
use crate::same_station::{are_same_redirections, are_same_sources, has_same_groups, line_in};
use std::alloc::AllocError;
use std::fmt::Write;
use xp_packets::Digits;
use xp_subs::{Access, Facilities, Line, LineNo, Station, StationNo, Subs};

/// What is told of a change that decides calls from the next one on.
const FROM_NEXT_CALL: &str = "from the next call request on";

/// What is told of a change that decides connections from the next one on.
const FROM_NEXT_CONNECTION: &str = "from the next connection on";

/// What changes of each station that changes, a line for each thing. A station is named by its first line.
pub(crate) fn push_stations(
    text: &mut String,
    old: &Subs,
    new: &Subs,
    changes: &ChangedSubs,
) -> Result<(), AllocError> {
    for station in changes.stations.as_slice() {
        if usize::from(*station) < new.counts().stations {
            push_station(text, old, new, *station)?;
        }
    }
    Ok(())
}

fn push_station(
    text: &mut String,
    old: &Subs,
    new: &Subs,
    station: StationNo,
) -> Result<(), AllocError>
    requires { station < station_count new.now }
{
    let name = name_of_station(new, station);
    let is = new.station(station);
    let Some(before) = station_before(old, new, station) else {
        return writeln!(text, "{name}: station {} is new", is.address);
    };
    let was = old.station(before);
    push_address(text, old, new, station, was)?;
    push_rights(text, name, &was.facilities, &is.facilities)?;
    push_default_caller(text, new, station, was)?;
    push_redirection(text, name, was, is)?;
    if !has_same_groups(old, was, new, is) {
        writeln!(
            text,
            "{name}: closed user groups changed ({FROM_NEXT_CALL})"
        )?;
    }
    push_hunt_group(text, old, before, new, station)?;
    push_lines_of(text, old, before, new, station)
}

/// The name of its first line.
fn name_of_station(subs: &Subs, station: StationNo) -> &str
    requires { station < station_count subs.now }
{
    if subs.station(station).lines.is_empty() {
        return "";
    }
    subs.name_of(line_in(subs, station, 0))
}

/// Whether one of its lines is behind a router.
fn has_router(subs: &Subs, station: StationNo) -> bool
    requires { station < station_count subs.now }
{
    for place in 0..subs.station(station).lines.len() {
        let line = line_in(subs, station, place);
        if let Access::Router(_) = subs.access_of(line) {
            return true;
        }
    }
    false
}

fn push_address(
    text: &mut String,
    old: &Subs,
    new: &Subs,
    station: StationNo,
    was: &Station,
) -> Result<(), AllocError>
    requires { station < station_count new.now }
{
    let is = new.station(station);
    if is.address == was.address {
        return Ok(());
    }
    let name = name_of_station(new, station);
    write!(
        text,
        "{name}: address {} becomes {}",
        was.address, is.address
    )?;
    match staying_lines(old, new, station) {
        0 => text.push('\n'),
        1 if is.lines.len() == 1 => writeln!(text, " (refused while line {name} is in a call)"),
        _ => text.push_str(" (refused while one of its lines is in a call)\n"),
    }
}

/// How many lines of a station were there before, at the same port or router. The others are in no call as their address changes.
fn staying_lines(old: &Subs, new: &Subs, station: StationNo) -> usize
    requires { station < station_count new.now }
{
    let mut count: usize = 0;
    for place in 0..new.station(station).lines.len() {
        if stays(old, new.line(line_in(new, station, place))) {
            count = count.saturating_add(1);
        }
    }
    count
}

/// Whether a line was there before, at the same port or router.
fn stays(old: &Subs, line: &Line) -> bool {
    match old.line_named(line.name.as_str()) {
        Some(before) => old.line(before).access == line.access,
        None => false,
    }
}

/// The rights that are given or taken.
fn push_rights(
    text: &mut String,
    name: &str,
    was: &Facilities,
    is: &Facilities,
) -> Result<(), AllocError> {
    let rights = [
        (was.outgoing_barred, is.outgoing_barred, "outgoing_barred"),
        (was.incoming_barred, is.incoming_barred, "incoming_barred"),
        (
            was.reverse_charging,
            is.reverse_charging,
            "reverse_charging",
        ),
        (was.fast_select, is.fast_select, "fast_select"),
        (was.outgoing_access, is.outgoing_access, "outgoing_access"),
        (was.incoming_access, is.incoming_access, "incoming_access"),
    ];
    for (before, after, key) in &rights {
        if before != after {
            writeln!(text, "{name}: {key} becomes {after} ({FROM_NEXT_CALL})")?;
        }
    }
    Ok(())
}

/// Whether it takes the calls of its routers that no station there knows as its own.
fn push_default_caller(
    text: &mut String,
    new: &Subs,
    station: StationNo,
    was: &Station,
) -> Result<(), AllocError>
    requires { station < station_count new.now }
{
    let is = new.station(station);
    if is.default_caller == was.default_caller {
        return Ok(());
    }
    let name = name_of_station(new, station);
    let effect = if has_router(new, station) {
        FROM_NEXT_CALL
    } else {
        "without effect"
    };
    writeln!(
        text,
        "{name}: default_caller becomes {} ({effect})",
        is.default_caller
    )
}

/// Where its calls are redirected.
fn push_redirection(
    text: &mut String,
    name: &str,
    was: &Station,
    is: &Station,
) -> Result<(), AllocError> {
    if are_same_redirections(&was.redirect, &is.redirect) {
        return Ok(());
    }
    match &is.redirect {
        Some(redirect) => writeln!(
            text,
            "{name}: redirection to {} changed ({FROM_NEXT_CALL})",
            redirect.to
        ),
        None => writeln!(text, "{name}: redirection ends ({FROM_NEXT_CALL})"),
    }
}

/// Its lines, where they are others than before.
fn push_hunt_group(
    text: &mut String,
    old: &Subs,
    before: StationNo,
    new: &Subs,
    station: StationNo,
) -> Result<(), AllocError>
    requires before { before < station_count old.now }
    requires station { station < station_count new.now }
{
    if has_same_names(old, before, new, station) {
        return Ok(());
    }
    let name = name_of_station(new, station);
    write!(text, "{name}: its lines become")?;
    for place in 0..new.station(station).lines.len() {
        let line = line_in(new, station, place);
        write!(text, " {}", new.name_of(line))?;
    }
    writeln!(text, " ({FROM_NEXT_CALL})")
}

/// Whether the lines have the same names, in the same order.
fn has_same_names(old: &Subs, before: StationNo, new: &Subs, station: StationNo) -> bool
    requires before { before < station_count old.now }
    requires station { station < station_count new.now }
{
    let count = old.station(before).lines.len();
    if new.station(station).lines.len() != count {
        return false;
    }
    for place in 0..count {
        let was = line_in(old, before, place);
        let is = line_in(new, station, place);
        if new.name_of(is) != old.name_of(was) {
            return false;
        }
    }
    true
}

/// What changes of those of its lines that were there before.
fn push_lines_of(
    text: &mut String,
    old: &Subs,
    before: StationNo,
    new: &Subs,
    station: StationNo,
) -> Result<(), AllocError>
    requires { station < station_count new.now }
{
    for place in 0..new.station(station).lines.len() {
        push_line(text, old, before, new, line_in(new, station, place))?;
    }
    Ok(())
}

/// What changes of a line alone: its address, the addresses from which it may connect, and its port or its router. An address that its
/// station has is told of that, if it is the line's old station.
fn push_line(
    text: &mut String,
    old: &Subs,
    before: StationNo,
    new: &Subs,
    line: LineNo,
) -> Result<(), AllocError>
    requires { IsThere new.now line }
{
    let is = new.line(line);
    let name = is.name.as_str();
    let Some(number) = old.line_named(name) else {
        return Ok(());
    };
    let was = old.line(number);
    let is_told = is.address.is_none() && was.address.is_none() && was.station == before;
    if !is_told && new.address_of(line) != old.address_of(number) {
        push_moved(text, was, is, old.address_of(number), new.address_of(line))?;
    }
    if !are_same_sources(&was.from, &is.from) {
        writeln!(text, "{name}: from changed ({FROM_NEXT_CONNECTION})")?;
    }
    push_access(text, was, is)
}

/// The address of a line, which is another one than before. A line that gets another port or router is in no call any more.
fn push_moved(
    text: &mut String,
    was: &Line,
    is: &Line,
    before: &Digits,
    after: &Digits,
) -> Result<(), AllocError> {
    let name = is.name.as_str();
    write!(text, "{name}: address {before} becomes {after}")?;
    if is.access == was.access {
        writeln!(text, " (refused while line {name} is in a call)")
    } else {
        text.push('\n')
    }
}
