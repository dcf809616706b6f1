//! The time of day, from a source that does not go back.

ghost use Rattle.std.specs.Prelude.{◌≡◌, ◌+◌, ◌-◌, ◌/◌, min};
ghost use Rattle.std.specs.Duration.{as_nanos, max_nanos};

use std::time::Duration;

/// The system's time since it began, as of its last tick, which costs no look at a counter (`CLOCK_MONOTONIC_COARSE` of Linux).
const CLOCK_OF_TICKS: i32 = 6;

/// What two clocks of the system told at one time: the start of the clocks that tell the time of day.
#[derive(Clone, Copy)]
pub struct Start {
    /// The time of day, since 1970.
    pub time_of_day: Duration,
    /// The time since the system began.
    uptime: Duration,
}

impl Start {
    /// Reads both clocks. Where the time of day fails it is 0. Where the other fails, no time passes.
    pub fn read() -> Start {
        Start {
            time_of_day: read(libc::CLOCK_REALTIME).unwrap_or(Duration::ZERO),
            uptime: uptime().unwrap_or(Duration::MAX),
        }
    }

    /// The seconds since 1970, at the start.
    pub fn seconds(&self) -> u64
        ensures { result ≡ as_nanos self.now.time_of_day / 1_000_000_000 }
    {
        self.time_of_day.as_secs()
    }

    /// The seconds since 1970, now. Changes of the time of day after the start do not count. `None` where the clock fails.
    pub fn seconds_now(&self) -> Option<u64> {
        Some(self.seconds_at(uptime()?))
    }

    /// The seconds since 1970, where the system began so long ago: the time of day at the start, and what has passed since.
    fn seconds_at(&self, uptime: Duration) -> u64
        ensures { result ≡ min (as_nanos self.now.time_of_day + (as_nanos uptime - as_nanos self.now.uptime)) max_nanos / 1_000_000_000 }
    {
        self.time_of_day
            .saturating_add(uptime.saturating_sub(self.uptime))
            .as_secs()
    }
}

/// The time since the system began. `None` where the clock fails.
pub fn uptime() -> Option<Duration> {
    read(CLOCK_OF_TICKS)
}

/// What a clock of the system tells. `None` where it fails, or tells a time before its start.
fn read(clock: i32) -> Option<Duration> {
    let mut time = libc::types::timespec {
        tv_sec: 0,
        tv_nsec: 0,
    };
    if libc::clock_gettime(clock, &mut time) != 0 || time.tv_sec < 0 {
        return None;
    }
    let nanoseconds = Duration::from_nanos(time.tv_nsec.unsigned_abs());
    Some(Duration::from_secs(time.tv_sec.unsigned_abs()).saturating_add(nanoseconds))
}
