//! JSON that is written piece by piece. Where there are thousands of items, other threads get a turn in between.

ghost use Rattle.std.specs.Prelude.{◌≡◌, ◌++◌, false, IfOk, map, nat_lt, OnOk, string_bytes};
ghost use Rattle.serde_json.specs.View.{items_of, view};
ghost use Rattle.serde_json.specs.Written.{comma_if, compact_text, has_float, items_text};

use crate::turns::let_others_run;
use serde_json::Value;
use std::alloc::{AllocError, Global};

/// What stands in an array, or is a member.
pub(crate) trait Item {
    ghost use Rattle.std.specs.Prelude.{◌≡◌, false, IfOk};
    ghost use Rattle.serde_json.specs.Data.{Data};
    ghost use Rattle.serde_json.specs.View.{view};
    ghost use Rattle.serde_json.specs.Written.{has_float};

    // What is written of it.
    ghost shown: { Self → Data };

    /// The item as a value, which has no float: so its text is known.
    ///
    /// # Errors
    ///
    /// `AllocError` if an allocation fails.
    fn value(&self, alloc: Global) -> Result<Value, AllocError>
        ensures shown { IfOk result (λ value. view value ≡ shown self.now) }
        ensures no_float { IfOk result (λ value. has_float (view value) ≡ false) };
}

/// Writes this text, which begins an array, the items with a comma between any two, and the array's end.
pub(crate) fn push_array<T: Item>(
    alloc: Global,
    text: &mut String,
    before: &str,
    items: &[T],
) -> Result<(), AllocError>
    ensures { OnOk result (string_bytes text.new ≡ string_bytes text.old ++ (before.now ++ items_text false (items_of (map T.shown items.now)))) }
{
    text.push_str(before)?;
    for (number, item) in items.iter().enumerate() {
        let_others_run(number);
        push_item(alloc, text, comma_before(number), item)?;
    }
    text.push_str("]")
}

/// What stands before the item of this number, from 0 on.
fn comma_before(number: usize) -> &'static str
    ensures { result.now ≡ comma_if (nat_lt 0 number) }
{
    if number > 0 { "," } else { "" }
}

/// Writes this text, and an item behind it.
pub(crate) fn push_item<T: Item>(
    alloc: Global,
    text: &mut String,
    before: &str,
    item: &T,
) -> Result<(), AllocError>
    ensures { OnOk result (string_bytes text.new ≡ string_bytes text.old ++ (before.now ++ compact_text (T.shown item.now))) }
{
    text.push_str(before)?;
    let value = item.value(alloc)?;
    push_value(alloc, text, &value)
}

/// Writes a value that has no float.
fn push_value(alloc: Global, text: &mut String, value: &Value) -> Result<(), AllocError>
    requires { has_float (view value.now) ≡ false }
    ensures { OnOk result (string_bytes text.new ≡ string_bytes text.old ++ compact_text (view value.now)) }
{
    let written = value.to_string(alloc)?;
    text.push_str(written.as_str())
}
