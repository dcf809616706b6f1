//! Values that a subscription file has twice.

use crate::alone::array;
use crate::place::Place;
use indexmap::IndexMap;
use std::alloc::{AllocError, Global};
use toml::Table;
use xp_file::Key;

/// The first place, in the order of the file, whose value of this key stands at a place before it, behind that one. `None` where there is
/// none.
pub(crate) fn twice_used<'a>(
    alloc: Global,
    file: &'a Table,
    key: Key,
) -> Result<Option<(Place<'a>, Place<'a>)>, AllocError> {
    let places = places_in(alloc, file)?;
    let mut used = IndexMap::new(alloc);
    first_twice(alloc, &places, key, &mut used)
}

/// The first of these places whose value stands at one before it, behind that one. Notes which is the first with each value.
fn first_twice<'a>(
    alloc: Global,
    places: &[Place<'a>],
    key: Key,
    used: &mut IndexMap<String, Place<'a>>,
) -> Result<Option<(Place<'a>, Place<'a>)>, AllocError> {
    for later in places {
        let Some(value) = later.value(key.name()) else {
            continue;
        };
        let text = value.to_string(alloc)?;
        if let Some(earlier) = used.get(&text) {
            return Ok(Some((*earlier, *later)));
        }
        used.insert(text, *later)?;
    }
    Ok(None)
}

/// All stations, each with its lines behind it.
fn places_in(alloc: Global, file: &Table) -> Result<Vec<Place<'_>>, AllocError> {
    let mut places = Vec::new(alloc);
    for (above, station) in array(file, "station").iter().enumerate() {
        if let Some(station) = station.as_table() {
            push_station(&mut places, above + 1, station)?;
        }
    }
    Ok(places)
}

/// Adds a station, and its lines behind it.
fn push_station<'a>(
    places: &mut Vec<Place<'a>>,
    number: usize,
    station: &'a Table,
) -> Result<(), AllocError> {
    places.push(Place::Station(number, station))?;
    for (above, line) in array(station, "line").iter().enumerate() {
        if let Some(line) = line.as_table() {
            places.push(Place::Line(number, station, above + 1, line))?;
        }
    }
    Ok(())
}
