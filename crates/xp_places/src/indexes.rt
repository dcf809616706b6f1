//! What is wrong with the indexes of a station's groups.

use crate::alone::array;
use crate::place::Place;
use std::alloc::AllocError;
use std::fmt::Write;
use toml::Value;
use xp_file::Key;

/// The keys whose value no two groups of a station may share, and what that value is.
const OWN: [(Key, &str); 2] = [(Key::Index, "index"), (Key::Name, "group")];

/// Adds what is wrong with the indexes of the station at this place, which is refused for them.
pub(crate) fn push_faulty_index(told: &mut String, station: Place<'_>) -> Result<(), AllocError> {
    write!(told, "at {station}: ")?;
    let groups = array(station.table(), "group");
    for (key, what) in &OWN {
        if let Some(value) = value_twice(groups, *key) {
            return write!(told, "{what} {value} stands there twice");
        }
    }
    told.push_str("`preferential` is none of its indexes")
}

/// The first value of this key that two of these groups have. `None` where a group before them has no such key.
fn value_twice(groups: &[Value], key: Key) -> Option<&Value> {
    for (above, group) in groups.iter().enumerate() {
        let value = value_of(group, key)?;
        if has_value(&groups[..above], key, value) {
            return Some(value);
        }
    }
    None
}

/// Whether one of these groups has this value of the key.
fn has_value(groups: &[Value], key: Key, value: &Value) -> bool {
    for group in groups {
        if value_of(group, key) == Some(value) {
            return true;
        }
    }
    false
}

/// The value of this key of a group.
fn value_of(group: &Value, key: Key) -> Option<&Value> {
    group.as_table()?.get(key.name())
}
