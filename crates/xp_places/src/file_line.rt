//! The line of the file's text in which a key has its value.

use crate::alone::array;
use crate::place::Place;
use std::alloc::{AllocError, Global};
use toml::{Table, Value};

/// With this a station begins, where the stations do not stand in one array.
const HEADING: &str = "[[station]]";

/// The number, from 1 on, of the line of the file's text in which this key of a part of a station has this value. `None` where the text
/// does not tell: no line is like that, or several are and not one alone of them names the part too; or the stations stand in one array.
pub(crate) fn line_of_key(
    alloc: Global,
    text: &str,
    file: &Table,
    place: Place<'_>,
    key: &str,
    value: &Value,
) -> Result<Option<usize>, AllocError> {
    let Some((number, _)) = place.station() else {
        return Ok(None);
    };
    if headings_in(text) != array(file, "station").len() {
        return Ok(None);
    }
    let value = format!(in alloc; "{value}")?;
    Ok(line_within(text, number, place.name(), key, &value))
}

/// The number of the one line within the station of this number that gives this value to the key. Where several do, that of the one
/// that has this name too.
fn line_within(
    text: &str,
    number: usize,
    name: Option<&str>,
    key: &str,
    value: &str,
) -> Option<usize> {
    let (mut with_value, mut with_name) = (LinesFound::default(), LinesFound::default());
    let mut station = 0_usize;
    for (above, line) in text.lines().enumerate() {
        station = station.saturating_add(usize::from(is_heading(line)));
        if station == number && has_value(line, key, value) {
            with_value.note(above);
            if name.is_some_and(|name| line.contains(name)) {
                with_name.note(above);
            }
        }
    }
    with_value.only_one().or(with_name.only_one())
}

/// Lines that were found: how many, and the last of them.
#[derive(Clone, Copy, Default)]
struct LinesFound {
    count: usize,
    /// How many lines stand above it.
    above: usize,
}

impl LinesFound {
    fn note(&mut self, above: usize) {
        self.count = self.count.saturating_add(1);
        self.above = above;
    }

    /// The number of the line, where one alone was found.
    fn only_one(self) -> Option<usize> {
        (self.count == 1).then_some(self.above.saturating_add(1))
    }
}

/// How many stations begin with a heading.
fn headings_in(text: &str) -> usize {
    let mut count = 0_usize;
    for line in text.lines() {
        count = count.saturating_add(usize::from(is_heading(line)));
    }
    count
}

/// Whether a station begins with this line.
fn is_heading(line: &str) -> bool {
    line.trim_start().starts_with(HEADING)
}

/// Whether the line gives this value to this key.
fn has_value(line: &str, key: &str, value: &str) -> bool {
    if line.trim_start().starts_with('#') {
        return false;
    }
    for (start, _) in line.match_indices(key) {
        if let Some((before, from_key)) = line.split_at_checked(start) {
            if !before.ends_with(is_of_a_word) && gives_value(from_key, key, value) {
                return true;
            }
        }
    }
    false
}

/// Whether a text that begins with a key gives it this value.
fn gives_value(text: &str, key: &str, value: &str) -> bool {
    let Some(rest) = text.strip_prefix(key) else {
        return false;
    };
    let Some(rest) = rest.trim_start().strip_prefix('=') else {
        return false;
    };
    match rest.trim_start().strip_prefix(value) {
        Some(rest) => !rest.starts_with(is_of_a_word),
        None => false,
    }
}

/// Whether a character can be one of a key or of a number.
fn is_of_a_word(character: char) -> bool {
    character.is_ascii_alphanumeric() || character == '_'
}
