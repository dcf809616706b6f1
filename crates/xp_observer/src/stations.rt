//! What is counted of the stations.

use std::alloc::{AllocError, Global};
use xp_charge::Record;
use xp_console::StationCalls;
use xp_packets::Digits;
use xp_subs::{LineNo, StationNo, Subs};

/// A station, and what was counted of its calls that have ended.
#[derive(Drop)]
struct StationNotes {
    address: Digits,
    from: u64,
    to: u64,
    refused: u64,
}

/// What was counted of each station, by its lines.
#[derive(Drop)]
pub(crate) struct Stations {
    notes: Vec<StationNotes>,
    /// The station of each line, in the order of the lines.
    of_lines: Vec<StationNo>,
}

impl StationNotes {
    /// What is shown of the station.
    fn calls(&self, alloc: Global) -> Result<StationCalls, AllocError> {
        Ok(StationCalls {
            address: self.address.to_string(alloc)?,
            from: self.from,
            to: self.to,
            refused: self.refused,
        })
    }

    /// Counts a call that the station has requested.
    fn count_from(&mut self, is_refused: bool) {
        self.from = self.from.saturating_add(1);
        if is_refused {
            self.refused = self.refused.saturating_add(1);
        }
    }

    /// Counts a call that was offered to the station.
    fn count_to(&mut self) {
        self.to = self.to.saturating_add(1);
    }
}

impl Stations {
    /// The stations of these subscriptions, of which nothing was counted yet.
    pub(crate) fn new(alloc: Global, subs: &Subs) -> Result<Stations, AllocError> {
        let notes = station_notes(alloc, subs)?;
        let of_lines = stations_of_lines(alloc, subs)?;
        Ok(Stations { notes, of_lines })
    }

    /// Counts a call that has ended.
    pub(crate) fn count(&mut self, record: &Record) {
        if let Some(station) = self.of_line(record.caller) {
            station.count_from(record.called.is_none());
        }
        if let Some(called) = record.called {
            if let Some(station) = self.of_line(called) {
                station.count_to();
            }
        }
    }

    /// Goes on with what was counted of stations of the same addresses.
    pub(crate) fn go_on(&mut self, before: &Stations) {
        for (place, station) in self.notes.iter_mut().enumerate() {
            if let Some(known) = before.of_address(place, &station.address) {
                station.from = known.from;
                station.to = known.to;
                station.refused = known.refused;
            }
        }
    }

    /// The station of this address, which is first looked for at this place.
    fn of_address(&self, place: usize, address: &Digits) -> Option<&StationNotes> {
        match self.notes.get(place) {
            Some(station) if station.address == *address => Some(station),
            _ => self
                .notes
                .iter()
                .find(|station| station.address == *address),
        }
    }

    /// What is shown of each station, in the order of the file.
    pub(crate) fn calls(&self, alloc: Global) -> Result<Vec<StationCalls>, AllocError> {
        let mut calls = Vec::with_capacity(alloc, self.notes.len())?;
        for station in &self.notes {
            calls.push(station.calls(alloc)?)?;
        }
        Ok(calls)
    }

    /// The station of a line.
    fn of_line(&mut self, line: LineNo) -> Option<&mut StationNotes> {
        let station = *self.of_lines.get(usize::from(line))?;
        self.notes.get_mut(usize::from(station))
    }
}

fn station_notes(alloc: Global, subs: &Subs) -> Result<Vec<StationNotes>, AllocError> {
    let count = subs.counts().stations;
    let mut notes = Vec::with_capacity(alloc, count)?;
    for place in 0..count {
        notes.push(StationNotes {
            address: subs.station(place as StationNo).address.copy(),
            from: 0,
            to: 0,
            refused: 0,
        })?;
    }
    Ok(notes)
}

fn stations_of_lines(alloc: Global, subs: &Subs) -> Result<Vec<StationNo>, AllocError> {
    let count = subs.counts().lines;
    let mut stations = Vec::with_capacity(alloc, count)?;
    for place in 0..count {
        stations.push(subs.station_of(place as LineNo))?;
    }
    Ok(stations)
}
