//! Two stations that are default callers of one router.

use crate::alone::array;
use crate::place::Place;
use indexmap::IndexMap;
use std::alloc::{AllocError, Global};
use toml::{Table, Value};
use xp_file::{Key, SubscriptionFault};
use xp_subs::{Access, RouterAddress, Subs};

/// A station with `default_caller`, and its number from 1 on.
type Caller<'a> = (usize, &'a Table);

/// The first station, in the order of the file, that is a default caller of one router with a station before it, behind that one. `None`
/// where there is none.
pub(crate) fn rivals<'a>(
    alloc: Global,
    file: &'a Table,
) -> Result<Option<(Place<'a>, Place<'a>)>, AllocError> {
    let mut behind = IndexMap::new(alloc);
    first_rivals(alloc, array(file, "station"), &mut behind)
}

/// The first of these stations that is behind a router with one before it, behind that one. Notes which is the first behind each router.
fn first_rivals<'a>(
    alloc: Global,
    stations: &'a [Value],
    behind: &mut IndexMap<String, Caller<'a>>,
) -> Result<Option<(Place<'a>, Place<'a>)>, AllocError> {
    for (above, station) in stations.iter().enumerate() {
        let Some(station) = default_caller(station) else {
            continue;
        };
        let routers = routers_of(alloc, station)?;
        if let Some((number, rival)) = first_behind(behind, &routers) {
            let rival = Place::Station(number, rival);
            return Ok(Some((rival, Place::Station(above + 1, station))));
        }
        add_behind(alloc, behind, &routers, (above + 1, station))?;
    }
    Ok(None)
}

/// The station, if it has `default_caller = true`.
fn default_caller(station: &Value) -> Option<&Table> {
    let station = station.as_table()?;
    let is_default = station.get(Key::DefaultCaller.name())?.as_bool()?;
    is_default.then_some(station)
}

/// The first default caller that is behind one of these routers.
fn first_behind<'a>(
    behind: &IndexMap<String, Caller<'a>>,
    routers: &[RouterAddress],
) -> Option<Caller<'a>> {
    let mut first: Option<Caller<'a>> = None;
    for router in routers {
        match (first, behind.get(router.address())) {
            (Some((number, _)), Some((other, _))) if number <= *other => {}
            (_, Some(other)) => first = Some(*other),
            (_, None) => {}
        }
    }
    first
}

/// Notes that the default caller is behind these routers.
fn add_behind<'a>(
    alloc: Global,
    behind: &mut IndexMap<String, Caller<'a>>,
    routers: &[RouterAddress],
    caller: Caller<'a>,
) -> Result<(), AllocError> {
    for router in routers {
        behind.insert(router.address().to_string(alloc)?, caller)?;
    }
    Ok(())
}

/// The routers of the lines of a station.
fn routers_of(alloc: Global, station: &Table) -> Result<Vec<RouterAddress>, AllocError> {
    let mut routers = Vec::new(alloc);
    for line in array(station, "line") {
        if let Some(router) = router_of(alloc, line)? {
            routers.push(router)?;
        }
    }
    Ok(routers)
}

/// The router of a line, if it is behind one, as that of a line alone in a file: what else is wrong with the station is told later.
fn router_of(alloc: Global, line: &Value) -> Result<Option<RouterAddress>, AllocError> {
    let Some(line) = line.as_table() else {
        return Ok(None);
    };
    let Some(value) = line.get(Key::Router.name()) else {
        return Ok(None);
    };
    let text = format!(in alloc;
        r#"station = [{{ address = "1", line = [{{ name = "x", router = {value} }}] }}]"#
    )?;
    match Subs::read(alloc, &text) {
        Ok(subs) => Ok(first_router(&subs)),
        Err(SubscriptionFault::Memory) => Err(AllocError),
        Err(_) => Ok(None),
    }
}

/// The router of the first line, if that is behind one.
fn first_router(subs: &Subs) -> Option<RouterAddress> {
    if subs.counts().lines == 0 {
        return None;
    }
    match subs.access_of(0) {
        Access::Router(router) => Some(router.copy()),
        Access::Port(_) | Access::Spare => None,
    }
}
