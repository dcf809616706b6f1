//! Where a refused subscription file has its fault.

use crate::alone::{array, refused_part};
use crate::default_callers::rivals;
use crate::file_line::line_of_key;
use crate::indexes::push_faulty_index;
use crate::place::Place;
use crate::twice::twice_used;
use crate::wanted::{may_have, wanted};
use std::alloc::{AllocError, Global};
use std::fmt::Write;
use toml::{Table, Value};
use xp_file::{Key, SubscriptionFault};
use xp_subs::{MOST_GROUPS_OF_STATION, MOST_LINES, MOST_LINES_OF_STATION, MOST_STATIONS};

/// Where the text of a subscription file has this fault, and what is wanted there, as one line without its end:
/// `at station 2 (address 2080020), line 1 (name b1), in line 7 of the file: a number from 1 to 65535 is wanted, found "x"`. The line of
/// the file is told of a value where one line alone has it. Empty where no place is found.
///
/// The place is that of the first station, and of its first line, group or redirection, that is refused for this fault where it
/// stands alone in a file. Of what is used twice both places are told. No contract says what the text tells.
///
/// # Errors
///
/// An allocation failed.
pub fn place_of(alloc: Global, text: &str, fault: SubscriptionFault) -> Result<String, AllocError> {
    let mut told = String::new(alloc);
    match toml::table_from_str(alloc, text) {
        Ok(file) => push_place(alloc, &mut told, text, &file, fault)?,
        Err(error) if error.is_memory() => return Err(AllocError),
        Err(error) => push_syntax(&mut told, text, &error)?,
    }
    Ok(told)
}

/// Where a text is no TOML.
fn push_syntax(told: &mut String, text: &str, error: &toml::de::Error) -> Result<(), AllocError> {
    let Some(span) = error.span() else {
        return Ok(());
    };
    let before = text.as_bytes().iter().take(span.start);
    let line = before.filter(|octet| **octet == b'\n').count();
    write!(told, "at line {}: {}", line + 1, error.message())
}

fn push_place(
    alloc: Global,
    told: &mut String,
    text: &str,
    file: &Table,
    fault: SubscriptionFault,
) -> Result<(), AllocError> {
    match fault {
        SubscriptionFault::Toml | SubscriptionFault::Memory => Ok(()),
        SubscriptionFault::TwiceUsed(key) => push_twice(alloc, told, file, key),
        _ => push_part(alloc, told, text, file, fault),
    }
}

/// Both places of what is used twice.
fn push_twice(alloc: Global, told: &mut String, file: &Table, key: Key) -> Result<(), AllocError> {
    let places = match key {
        Key::DefaultCaller => rivals(alloc, file)?,
        _ => twice_used(alloc, file, key)?,
    };
    let Some((first, second)) = places else {
        return Ok(());
    };
    write!(told, "at {first} and {second}: ")?;
    match second.value(key.name()) {
        Some(value) if key != Key::DefaultCaller => write!(told, "{value}"),
        _ => told.push_str("both have lines behind one router"),
    }
}

/// The part of the file that is refused where it stands alone, or else the top of the file.
fn push_part(
    alloc: Global,
    told: &mut String,
    text: &str,
    file: &Table,
    fault: SubscriptionFault,
) -> Result<(), AllocError> {
    let part = refused_part(alloc, file, fault)?;
    let place = part.unwrap_or(Place::Top(file));
    match fault {
        SubscriptionFault::Field(key) => push_field(alloc, told, text, file, place, key),
        SubscriptionFault::Limit(Key::SpareLines | Key::SpareLines128) => push_places(told),
        SubscriptionFault::Limit(key) => push_limit(told, place, key),
        _ if part.is_some() => push_faulty_index(told, place),
        _ => Ok(()),
    }
}

fn push_field(
    alloc: Global,
    told: &mut String,
    text: &str,
    file: &Table,
    place: Place<'_>,
    key: Key,
) -> Result<(), AllocError> {
    write!(told, "at {place}")?;
    if key == Key::Other {
        return push_unknown(told, place);
    }
    let Some(value) = place.value(key.name()) else {
        return write!(told, ": `{key}` is missing");
    };
    if let Some(line) = line_of_key(alloc, text, file, place, key.name(), value)? {
        write!(told, ", in line {line} of the file")?;
    }
    push_wanted(told, place, key, value)
}

/// What is wanted of a key, and what was found. Digits without quotation marks are a number, which is what is mistaken most often.
fn push_wanted(
    told: &mut String,
    place: Place<'_>,
    key: Key,
    value: &Value,
) -> Result<(), AllocError> {
    let wanted = wanted(place, key);
    let quoted = match (key, value) {
        (Key::Address | Key::To, Value::Integer(_)) => ", in quotation marks,",
        _ => "",
    };
    write!(told, ": {wanted}{quoted} is wanted, found {value}")
}

/// The keys that the table at this place may not have.
fn push_unknown(told: &mut String, place: Place<'_>) -> Result<(), AllocError> {
    told.push_str(": there is no such key:")?;
    for (key, _) in place.table().iter() {
        if !may_have(place, key.as_str()) {
            write!(told, " `{key}`")?;
        }
    }
    Ok(())
}

/// There are more lines and spare lines than an exchange may have.
fn push_places(told: &mut String) -> Result<(), AllocError> {
    write!(
        told,
        "at the top of the file: at most {MOST_LINES} lines and spare lines together"
    )
}

fn push_limit(told: &mut String, place: Place<'_>, key: Key) -> Result<(), AllocError> {
    let most = match (key, place) {
        (Key::Station, _) => MOST_STATIONS,
        (Key::Line, Place::Top(_)) => MOST_LINES,
        (Key::Line, _) => MOST_LINES_OF_STATION,
        _ => MOST_GROUPS_OF_STATION,
    };
    write!(told, "at {place}: at most {most} of `{key}`")?;
    match (key, place) {
        (Key::Line, Place::Top(_)) => Ok(()),
        _ => write!(told, ", found {}", array(place.table(), key.name()).len()),
    }
}
