//! An object of JSON, built member by member.

ghost use Rattle.std.specs.Prelude.{◌≡◌, IfOk, string_bytes};
ghost use Rattle.serde_json.specs.Data.{Data, Members, no_members, number, object, put as with_member, string, unsigned};
ghost use Rattle.serde_json.specs.View.{members_view, view};
ghost use Rattle.xp_console.specs.Json.{optional_data};
ghost use Rattle.xp_console.specs.steps.Objects.{Holds, IsSeenAs};

use serde_json::{Map, Value};
use std::alloc::{AllocError, Global};

/// An object that gets its members one by one. Once an allocation has failed it stays without, and tells so at its end.
pub(crate) struct Object {
    alloc: Global,
    members: Result<Map<String, Value>, AllocError>,
}

impl Object {
    /// An object with no member.
    pub(crate) fn new(alloc: Global) -> Object
        ensures { Holds result no_members }
    {
        Object {
            alloc,
            members: Ok(Map::new(alloc)),
        }
    }

    /// The object with one more member.
    pub(crate) fn with(self, name: &str, value: Result<Value, AllocError>) -> Object
        ensures { (members : Members) (seen : Data) → Holds self members → IsSeenAs value seen → Holds result (with_member name.now seen members) }
    {
        let Object { alloc, members } = self;
        Object {
            alloc,
            members: put(alloc, members, name, value),
        }
    }

    /// The object with one more member, a count or a moment.
    pub(crate) fn with_count(self, name: &str, count: u64) -> Object
        ensures { (members : Members) → Holds self members → Holds result (with_member name.now (number (unsigned count)) members) }
    {
        self.with(name, Ok(Value::from(count)))
    }

    /// The object with one more member, a count or a moment if there is one.
    pub(crate) fn with_optional(self, name: &str, count: Option<u64>) -> Object
        ensures { (members : Members) → Holds self members → Holds result (with_member name.now (optional_data count) members) }
    {
        match count {
            Some(count) => self.with_count(name, count),
            None => self.with(name, Ok(Value::Null)),
        }
    }

    /// The object with one more member, a text.
    pub(crate) fn with_text(self, name: &str, text: &str) -> Object
        ensures { (members : Members) → Holds self members → Holds result (with_member name.now (string text.now) members) }
    {
        let value = Value::try_from_str(self.alloc, text);
        self.with(name, value)
    }

    /// The object as a value.
    ///
    /// # Errors
    ///
    /// `AllocError` if an allocation for one of the members has failed.
    pub(crate) fn value(self) -> Result<Value, AllocError>
        ensures { (members : Members) → Holds self members → IsSeenAs result (object members) }
    {
        let Object { alloc: _, members } = self;
        Ok(Value::Object(members?))
    }
}

fn put(
    alloc: Global,
    members: Result<Map<String, Value>, AllocError>,
    name: &str,
    value: Result<Value, AllocError>,
) -> Result<Map<String, Value>, AllocError>
    ensures { (before : Members) (seen : Data) → IfOk members (λ map. members_view map.entries ≡ before) → IsSeenAs value seen → IfOk result (λ map. members_view map.entries ≡ with_member name.now seen before) }
{
    let value = value?;
    let mut members = members?;
    serde_json::put(&mut members, alloc, name, value)?;
    Ok(members)
}
