//! Parts of a subscription file, each tried in a file of its own.

use crate::place::Place;
use std::alloc::{AllocError, Global};
use std::slice;
use toml::{Table, Value};
use xp_file::SubscriptionFault;
use xp_subs::Subs;

/// What stands in a file before and behind a part that is tried alone. No check refuses it.
#[derive(Clone, Copy)]
struct Around {
    before: &'static str,
    behind: &'static str,
}

const STATION: Around = Around {
    before: "station = [",
    behind: "]",
};

const LINE: Around = Around {
    before: r#"station = [{ address = "1", line = ["#,
    behind: "] }]",
};

const GROUP: Around = Around {
    before: r#"station = [{ address = "1", line = [{ name = "x", port = 1 }], group = ["#,
    behind: "] }]",
};

const REDIRECTION: Around = Around {
    before: r#"station = [{ address = "1", line = [{ name = "x", port = 1 }], redirect = "#,
    behind: " }]",
};

/// The first part of the file that is refused for this fault where it stands alone: a line, a group or the redirection of a station,
/// else a station. `None` where no station is.
pub(crate) fn refused_part<'a>(
    alloc: Global,
    file: &'a Table,
    fault: SubscriptionFault,
) -> Result<Option<Place<'a>>, AllocError> {
    let stations = array(file, "station");
    let Some((number, station)) = first_refused(alloc, stations, STATION, fault)? else {
        return Ok(None);
    };
    let lines = array(station, "line");
    if let Some((place, line)) = first_refused(alloc, lines, LINE, fault)? {
        return Ok(Some(Place::Line(number, station, place, line)));
    }
    let groups = array(station, "group");
    if let Some((place, group)) = first_refused(alloc, groups, GROUP, fault)? {
        return Ok(Some(Place::Group(number, station, place, group)));
    }
    let redirections = match station.get("redirect") {
        Some(value) => slice::from_ref(value),
        None => &[],
    };
    match first_refused(alloc, redirections, REDIRECTION, fault)? {
        Some((_, redirect)) => Ok(Some(Place::Redirection(number, station, redirect))),
        None => Ok(Some(Place::Station(number, station))),
    }
}

/// The values of an array of the table; none where it has no such array.
pub(crate) fn array<'a>(table: &'a Table, key: &str) -> &'a [Value] {
    match table.get(key) {
        Some(Value::Array(values)) => values.as_slice(),
        _ => &[],
    }
}

/// The first table of these values that is refused for this fault, and its number from 1 on.
fn first_refused<'a>(
    alloc: Global,
    values: &'a [Value],
    around: Around,
    fault: SubscriptionFault,
) -> Result<Option<(usize, &'a Table)>, AllocError> {
    for (above, value) in values.iter().enumerate() {
        let Some(table) = value.as_table() else {
            continue;
        };
        if is_refused(alloc, value, around, fault)? {
            return Ok(Some((above + 1, table)));
        }
    }
    Ok(None)
}

/// Whether a file with this value alone is refused for this fault.
fn is_refused(
    alloc: Global,
    value: &Value,
    around: Around,
    fault: SubscriptionFault,
) -> Result<bool, AllocError> {
    let text = format!(in alloc; "{}{value}{}", around.before, around.behind)?;
    match Subs::read(alloc, &text) {
        Ok(_) => Ok(false),
        Err(SubscriptionFault::Memory) => Err(AllocError),
        Err(found) => Ok(found == fault),
    }
}
