//! What changes as other subscriptions take the place of the old ones.

ghost use Rattle.std.specs.Prelude.{◌≡◌, ◌<◌, ◌↔◌, IfOk, IfSome, option_map, true};
ghost use Rattle.xp_changes.specs.Lines.{AreOnlyIn, IsOnlyIn};
ghost use Rattle.xp_changes.specs.Stations.{AreChanged, IsUnchanged, line_before, station_before};
ghost use Rattle.xp_subs.specs.Tables.{IsThere, line_count, station_at, station_count};

use crate::same_station::{is_same_station, line_in};
use std::alloc::{AllocError, Global};
use std::fmt;
use xp_subs::{LineNo, StationNo, Subs};

/// What changes as other subscriptions take the place of the old ones.
#[derive(Drop)]
pub struct ChangedSubs {
    /// The stations of the new subscriptions that do not stay as they were, in ascending order.
    pub stations: Vec<StationNo>,
    /// The places of the lines that are new, in ascending order.
    pub new_lines: Vec<LineNo>,
    /// The places that the lines had which are gone, in ascending order.
    pub gone_lines: Vec<LineNo>,
}

impl fmt::Display for ChangedSubs {
    /// Such as `3 stations changed, 2 lines new, 1 line gone`.
    fn fmt<W: fmt::Write>(&self, f: &mut fmt::Formatter<W>) -> fmt::Result {
        let parts = [
            (self.stations.len(), "station changed", "stations changed"),
            (self.new_lines.len(), "line new", "lines new"),
            (self.gone_lines.len(), "line gone", "lines gone"),
        ];
        let mut is_first = true;
        for (count, one, several) in &parts {
            if *count > 0 {
                let comma = if is_first { "" } else { ", " };
                let words = if *count == 1 { *one } else { *several };
                write!(f, "{comma}{count} {words}")?;
                is_first = false;
            }
        }
        if is_first {
            return f.write_str("nothing changed");
        }
        Ok(())
    }
}

/// What changes as the new subscriptions, which are laid over the old ones, take their place. A station was there before if the old
/// ones have a line with the name of one of its lines. It is compared with the station of the first of these.
///
/// # Errors
///
/// An allocation failed.
pub fn changes(alloc: Global, old: &Subs, new: &Subs) -> Result<ChangedSubs, AllocError>
    ensures stations { IfOk result (λ changes. AreChanged old.now new.now (station_count new.now) changes.stations.items) }
    ensures new_lines { IfOk result (λ changes. AreOnlyIn new.now old.now changes.new_lines.items) }
    ensures gone_lines { IfOk result (λ changes. AreOnlyIn old.now new.now changes.gone_lines.items) }
{
    Ok(ChangedSubs {
        stations: changed_stations(alloc, old, new)?,
        new_lines: lines_only_in(alloc, new, old)?,
        gone_lines: lines_only_in(alloc, old, new)?,
    })
}

/// The stations of the new subscriptions that do not stay as they were.
fn changed_stations(alloc: Global, old: &Subs, new: &Subs) -> Result<Vec<StationNo>, AllocError>
    ensures { IfOk result (λ stations. AreChanged old.now new.now (station_count new.now) stations.items) }
{
    let mut stations = Vec::new(alloc);
    for number in 0..new.counts().stations {
        let station = number as StationNo;
        if !is_unchanged(old, new, station) {
            stations.push(station)?;
        }
    }
    Ok(stations)
}

/// The lines of these subscriptions of which the others have none with the name.
fn lines_only_in(alloc: Global, subs: &Subs, others: &Subs) -> Result<Vec<LineNo>, AllocError>
    ensures { IfOk result (λ lines. AreOnlyIn subs.now others.now lines.items) }
{
    let mut lines = Vec::new(alloc);
    for number in 0..subs.counts().lines {
        let line = number as LineNo;
        if is_only_in(subs, others, line) {
            lines.push(line)?;
        }
    }
    Ok(lines)
}

/// Whether this place has a line, and the others have none with its name.
fn is_only_in(subs: &Subs, others: &Subs, line: LineNo) -> bool
    requires { line < line_count subs.now }
    ensures { result ≡ true ↔ IsOnlyIn subs.now others.now line }
{
    !subs.is_spare(line) && others.line_named(subs.name_of(line)).is_none()
}

/// Whether a station was there before, and stays as it was.
fn is_unchanged(old: &Subs, new: &Subs, station: StationNo) -> bool
    requires { station < station_count new.now }
    ensures { result ≡ true ↔ IsUnchanged old.now new.now station }
{
    match station_before(old, new, station) {
        Some(before) => is_same_station(old, before, new, station),
        None => false,
    }
}

/// The old station of a station: that of the old line with the name of the first of its lines that has one.
pub(crate) fn station_before(old: &Subs, new: &Subs, station: StationNo) -> Option<StationNo>
    requires { station < station_count new.now }
    ensures station { result ≡ station_before old.now new.now station }
    ensures of_file { IfSome result (λ before. before < station_count old.now) }
{
    let line = line_before(old, new, station)?;
    Some(old.station_of(line))
}

/// The old line with the name of the first line of a station that has one.
fn line_before(old: &Subs, new: &Subs, station: StationNo) -> Option<LineNo>
    requires { station < station_count new.now }
    ensures line { result ≡ line_before old.now new.now (station_at new.now station).lines.items }
    ensures there { IfSome result (IsThere old.now) }
{
    for place in 0..new.station(station).lines.len() {
        let line = line_in(new, station, place);
        if let Some(before) = old.line_named(new.name_of(line)) {
            return Some(before);
        }
    }
    None
}
