//! For how long something has been so.

use std::fmt;

const MINUTE: u64 = 60;

const HOUR: u64 = 60 * MINUTE;

/// A day, in seconds.
pub(crate) const DAY: u64 = 24 * HOUR;

/// A number of seconds, shown as `1d 2:03:07` or `0:00:12`.
#[derive(Clone, Copy)]
pub(crate) struct Age(pub u64);

impl fmt::Display for Age {
    fn fmt<W: fmt::Write>(&self, f: &mut fmt::Formatter<W>) -> fmt::Result {
        let days = self.0 / DAY;
        let hours = self.0 % DAY / HOUR;
        let minutes = self.0 % HOUR / MINUTE;
        let seconds = self.0 % MINUTE;
        if days > 0 {
            write!(f, "{days}d ")?;
        }
        write!(f, "{hours}:{minutes:02}:{seconds:02}")
    }
}
