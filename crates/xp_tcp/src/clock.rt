//! The clock of a line.

ghost use Rattle.std.specs.Prelude.{◌≡◌, ◌≤◌, ◌/◌};
ghost use Rattle.std.specs.Duration.{as_nanos};

use std::marker::Model;
use xp_clock::Start;
use xp_links::Clock;

/// The clock of a line. It tells the seconds since 1970, and never goes back. Contracts see it as the second that it told last, at first
/// the start's.
#[derive(Drop)]
pub struct TcpClock {
    start: Start,
    told: u64,
}

impl Model for TcpClock {
    ghost use Rattle.std.specs.Prelude.{ℕ};

    ghost Value = { ℕ };

    ghost view = { λ clock. clock.told };
}

impl TcpClock {
    pub(crate) fn new(start: Start) -> TcpClock
        ensures { result ≡ as_nanos start.time_of_day / 1_000_000_000 }
    {
        TcpClock {
            start,
            told: start.seconds(),
        }
    }
}

impl Clock for TcpClock {
    ghost use Rattle.std.specs.Prelude.{◌≡◌, ◌≤◌, ◌/◌};
    ghost use Rattle.std.specs.Duration.{as_nanos};

    ghost tells = { λ before now after. (after ≡ now) × (before ≤ now) };

    /// The seconds since 1970: the time of day as the clocks were made, and the time that has passed since. It never goes
    /// back: where the system fails to tell, it is what it was.
    fn now(&mut self) -> u64
        ensures told { self.new ≡ result }
        ensures forward { self.old ≤ result }
    {
        if let Some(seconds) = self.start.seconds_now() {
            self.told = self.told.max(seconds);
        }
        self.told
    }
}
