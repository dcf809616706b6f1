//! Moments as text.

ghost use Rattle.std.specs.Prelude.{◌≡◌, ◌*◌, ◌≤◌, [], ◌∷◌, ◌++◌, IfSome, OnOk, pos, true};
ghost use Rattle.csv.specs.Records.{fields_of, partial_of};
ghost use Rattle.xp_cdr.specs.Moments.{last_moment, moment_text};

use crate::fields::push_number;
use csv::ByteRecord;
use jiff::Timestamp;
use jiff::fmt::temporal::DateTimePrinter;
use std::alloc::AllocError;
use std::str::from_utf8;

/// The last moment that is written as a date and a time, 9999-12-30T22:00:00Z.
const LAST_MOMENT: u64 = 253_402_207_200;

/// Adds a moment, in seconds since 1970, as a field.
pub fn push_moment(row: &mut ByteRecord, seconds: u64) -> Result<(), AllocError>
    requires begun { partial_of row.old ≡ [] }
    ensures fields { OnOk result (fields_of row.new ≡ fields_of row.old ++ moment_text seconds ∷ []) }
    ensures whole { OnOk result (partial_of row.new ≡ []) }
{
    if seconds > LAST_MOMENT {
        return push_number(row, seconds);
    }
    let instant = instant(seconds);
    let text = DateTimePrinter::new().timestamp_text(instant.to_plain());
    row.push_field(text.as_bytes())
}

/// The moment that is written so as a date and a time, in seconds since 1970.
pub fn read_moment(text: &[u8]) -> Option<u64>
    ensures { IfSome result (λ seconds. text.now ≡ moment_text seconds) }
{
    let instant: Timestamp = from_utf8(text).ok()?.parse().ok()?;
    let seconds = u64::try_from(instant.as_second()).ok()?;
    if seconds <= LAST_MOMENT && is_written(seconds, text) {
        Some(seconds)
    } else {
        None
    }
}

/// Whether a moment is written so.
fn is_written(seconds: u64, text: &[u8]) -> bool
    requires { seconds ≤ last_moment }
    ensures { result ≡ true → text.now ≡ moment_text seconds }
{
    let written = DateTimePrinter::new().timestamp_text(instant(seconds).to_plain());
    written.as_bytes() == text
}

/// The instant that many seconds after 1970 began.
fn instant(seconds: u64) -> Timestamp
    requires { seconds ≤ last_moment }
    ensures { result.nanosecond ≡ pos (seconds * 1_000_000_000) }
{
    Timestamp::from_second(seconds as i64).unwrap()
}
