//! A place in a subscription file, by its number and its name.

use std::fmt;
use toml::{Table, Value};

/// A table of a subscription file. Numbers count from 1.
#[derive(Clone, Copy)]
pub(crate) enum Place<'a> {
    /// The top of the file.
    Top(&'a Table),
    Station(usize, &'a Table),
    /// A line of this station.
    Line(usize, &'a Table, usize, &'a Table),
    /// A group of this station.
    Group(usize, &'a Table, usize, &'a Table),
    /// The redirection of this station.
    Redirection(usize, &'a Table, &'a Table),
}

impl<'a> Place<'a> {
    /// The table itself.
    pub(crate) fn table(&self) -> &'a Table {
        match *self {
            Place::Top(table)
            | Place::Station(_, table)
            | Place::Line(_, _, _, table)
            | Place::Group(_, _, _, table)
            | Place::Redirection(_, _, table) => table,
        }
    }

    /// The station, and its number from 1 on. `None` at the top of the file.
    pub(crate) fn station(&self) -> Option<(usize, &'a Table)> {
        match *self {
            Place::Top(_) => None,
            Place::Station(number, station)
            | Place::Line(number, station, _, _)
            | Place::Group(number, station, _, _)
            | Place::Redirection(number, station, _) => Some((number, station)),
        }
    }

    /// The name of the table, where it has one.
    pub(crate) fn name(&self) -> Option<&'a str> {
        self.value("name")?.as_str()
    }

    /// The value of a key of the table, if it has that key.
    pub(crate) fn value(&self, key: &str) -> Option<&'a Value> {
        self.table().get(key)
    }
}

impl fmt::Display for Place<'_> {
    fn fmt<W: fmt::Write>(&self, f: &mut fmt::Formatter<W>) -> fmt::Result {
        let Some((number, station)) = self.station() else {
            return f.write_str("the top of the file");
        };
        write_named(f, "station", number, "address", station)?;
        match *self {
            Place::Top(_) | Place::Station(_, _) => Ok(()),
            Place::Line(_, _, number, line) => write_named(f, ", line", number, "name", line),
            Place::Group(_, _, number, group) => write_named(f, ", group", number, "name", group),
            Place::Redirection(_, _, _) => f.write_str(", redirect"),
        }
    }
}

/// Writes what a table is, with its number and, where it is a text, the value of the key that names it.
fn write_named<W: fmt::Write>(
    f: &mut fmt::Formatter<W>,
    what: &str,
    number: usize,
    key: &str,
    table: &Table,
) -> fmt::Result {
    write!(f, "{what} {number}")?;
    match table.get(key).and_then(|value| value.as_str()) {
        Some(name) => write!(f, " ({key} {name})"),
        None => Ok(()),
    }
}
