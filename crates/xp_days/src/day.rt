//! Days, and the names of their files.

ghost use Rattle.std.specs.Prelude.{◌≡◌, ◌≤◌, IfSome};
ghost use Rattle.xp_cdr.specs.Moments.{date_text};
ghost use Rattle.xp_days.specs.Days.{day_of, file_name, last_day};

use arrayvec::ArrayString;
use jiff_core::civil::Date;
use jiff_fmt::temporal::{DateTimePrinter, parse_date};

/// The seconds of a day.
const SECONDS: u64 = 86_400;

/// The last day that has a date of its own, 9999-12-30.
const LAST_DAY: u64 = 2_932_895;

/// What stands before the date of a file's name.
const BEFORE_DATE: &str = "calls-";

/// What stands behind it.
const BEHIND_DATE: &str = ".csv";

/// The day of a moment in seconds since 1970, by the number of days since the first of January 1970, in UTC. Moments after
/// 9999-12-30 count to that day.
pub fn day_of(moment: u64) -> u64
    ensures { result ≡ day_of moment }
{
    (moment / SECONDS).min(LAST_DAY)
}

/// The name of the file of a day, as `calls-2026-11-28.csv`.
pub fn file_name(day: u64) -> ArrayString<32>
    ensures { result.bytes ≡ file_name day }
{
    let date = date_text(day.min(LAST_DAY));
    let mut name = ArrayString::new();
    name.push_str(BEFORE_DATE);
    name.push_str(date.as_str());
    name.push_str(BEHIND_DATE);
    name
}

/// The day whose file has this name.
pub(crate) fn day_named(name: &str) -> Option<u64>
    ensures { IfSome result (λ day. name.now ≡ file_name day) }
{
    let date = name.strip_prefix(BEFORE_DATE)?.strip_suffix(BEHIND_DATE)?;
    let date = parse_date(date.as_bytes()).ok()?;
    let day = u64::try_from(date.to_unix_epoch_day()).ok()?;
    if file_name(day).as_str() == name {
        Some(day)
    } else {
        None
    }
}

/// The date of a day, as `2026-11-28`.
fn date_text(day: u64) -> ArrayString<13>
    requires { day ≤ last_day }
    ensures { result.bytes ≡ date_text day }
{
    let date = Date::from_unix_epoch_day(day as i64).unwrap();
    DateTimePrinter::new().date_text(date)
}
