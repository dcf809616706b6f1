//! Reads single keys of a table of the subscription file.
ghost use Rattle.std.specs.Prelude.{◌≡◌, ◌≤◌, Ok, Err, IfOk, IfErr, IfSome, option_map};
ghost use Rattle.std.specs.List.{list_any};
ghost use Rattle.toml.specs.Data.{get_member, as_str, as_table};
ghost use Rattle.toml.specs.View.{view, items_view, table_view};
ghost use Rattle.xp_file.specs.Keys.{key_text};
ghost use Rattle.xp_file.specs.Reading.{number_in, line_name_in, group_name_in, address_in, modulus_in, router_in, sources_among, sources_in, optional, flag, has_only};
ghost use Rattle.xp_file.specs.Name.{same};
ghost use Rattle.xp_file.specs.Sources.{are_few};

use crate::digits::read_digits;
use crate::fault::SubscriptionFault;
use crate::key::Key;
use crate::name::Name;
use crate::router::RouterAddress;
use crate::sources::Sources;
use std::slice;
use toml::{Table, Value};
use xp_packets::{Digits, Modulus};

/// The value of a key, if the table has that key.
pub(crate) fn value_at(table: &Table, key: Key) -> Option<&Value>
    ensures { option_map (λ value. view value.now) result ≡ get_member (key_text key) (table_view table.now) }
{
    table.get(key.name())
}

/// Reads a key that is true or false. If the table does not have it, it is false.
pub(crate) fn flag(table: &Table, key: Key) -> Result<bool, SubscriptionFault>
    ensures { result ≡ flag key (table_view table.now) }
{
    match value_at(table, key) {
        Some(value) => value.as_bool().ok_or(SubscriptionFault::Field(key)),
        None => Ok(false),
    }
}

/// The table under a key, if there is one.
pub(crate) fn optional_table(table: &Table, key: Key) -> Result<Option<&Table>, SubscriptionFault>
    ensures ok { IfOk result (λ found. optional as_table key (table_view table.now) ≡ Ok (option_map (λ inner. table_view inner.now) found)) }
    ensures refused { IfErr result (λ fault. optional as_table key (table_view table.now) ≡ Err fault) }
{
    let Some(value) = value_at(table, key) else {
        return Ok(None);
    };
    match value.as_table() {
        Some(table) => Ok(Some(table)),
        None => Err(SubscriptionFault::Field(key)),
    }
}

/// Whether the table has no keys other than `listed`.
pub(crate) fn has_only(table: &Table, listed: &[Key]) -> bool
    ensures { result ≡ has_only listed.now (table_view table.now) }
{
    for (key, _value) in table {
        if !is_among(key.as_str(), listed) {
            return false;
        }
    }
    true
}

fn is_among(text: &str, listed: &[Key]) -> bool
    ensures { result ≡ list_any (λ known. same (key_text known) text.now) listed.now }
{
    listed.iter().any(|known| is_key(*known, text))
}

fn is_key(known: Key, text: &str) -> bool
    ensures { result ≡ same (key_text known) text.now }
{
    known.name() == text
}

/// A number from `low` to `high`.
pub(crate) fn number(value: &Value, low: u32, high: u32) -> Option<u32>
    ensures number { result ≡ number_in low high (view value.now) }
    ensures most { IfSome result (λ number. number ≤ high) }
{
    let number = u32::try_from(value.as_integer()?).ok()?;
    (low..=high).contains(&number).then_some(number)
}

/// A number from `low` to `high`, at most 65,535.
pub(crate) fn short(value: &Value, low: u16, high: u16) -> Option<u16>
    ensures { result ≡ number_in low high (view value.now) }
{
    number(value, low.into(), high.into()).map(|number| number as u16)
}

/// A TCP port.
pub(crate) fn port(value: &Value) -> Option<u16>
    ensures { result ≡ number_in 1 65535 (view value.now) }
{
    short(value, 1, u16::MAX)
}

/// An address.
pub(crate) fn address(value: &Value) -> Option<Digits>
    ensures { result ≡ address_in (view value.now) }
{
    read_digits(value.as_str()?)
}

/// A modulus of packet numbers, 8 or 128.
pub(crate) fn modulus(value: &Value) -> Option<Modulus>
    ensures { result ≡ modulus_in (view value.now) }
{
    match number(value, 8, 128)? {
        8 => Some(Modulus::Eight),
        128 => Some(Modulus::Long),
        _ => None,
    }
}

/// The address of an XOT router.
pub(crate) fn router(value: &Value) -> Option<RouterAddress>
    ensures { result ≡ router_in (view value.now) }
{
    RouterAddress::spelled(value.as_str()?)
}

/// The addresses from which the connections of a line may come: an array of texts, or one text alone.
pub(crate) fn sources(value: &Value) -> Option<Sources>
    ensures { result ≡ sources_in (view value.now) }
{
    match value.as_array() {
        Some(values) => sources_among(values),
        None => sources_among(slice::from_ref(value)),
    }
}

fn sources_among(values: &[Value]) -> Option<Sources>
    ensures { result ≡ sources_among (items_view values.now) }
{
    if !are_few(values.len()) {
        return None;
    }
    let mut sources = Sources::new();
    for value in values {
        sources.push(value.as_str()?)?;
    }
    Some(sources)
}

fn are_few(count: usize) -> bool
    ensures { result ≡ are_few count }
{
    matches!(count, 1..=Sources::MOST)
}

/// A line's name.
pub(crate) fn line_name(value: &Value) -> Option<Name>
    ensures { result ≡ line_name_in (view value.now) }
{
    Name::of_line(value.as_str()?)
}

/// A group's name.
pub(crate) fn group_name(value: &Value) -> Option<Name>
    ensures { result ≡ group_name_in (view value.now) }
{
    Name::of_group(value.as_str()?)
}
