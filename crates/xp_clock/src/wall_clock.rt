//! The time of day for those that serve no line.

ghost use Rattle.std.specs.Prelude.{◌≡◌, ◌≤◌};

use crate::start::Start;

/// Tells the seconds since 1970, and never goes back.
#[derive(Clone, Copy)]
pub struct WallClock {
    /// When the run began.
    pub start: Start,
    /// What it told last.
    told: u64,
}

impl WallClock {
    /// The clock of a run that begins now.
    pub fn start() -> WallClock {
        let start = Start::read();
        WallClock {
            start,
            told: start.seconds(),
        }
    }

    /// The second that it told last, at first the start's.
    pub fn seconds(&self) -> u64
        ensures { result ≡ self.now.told }
    {
        self.told
    }

    /// The seconds since 1970: the time of day at the start, and the time that has passed since. Where the system fails to tell,
    /// it is what it was.
    pub fn now(&mut self) -> u64
        ensures told { self.new.told ≡ result }
        ensures forward { self.old.told ≤ result }
    {
        if let Some(seconds) = self.start.seconds_now() {
            self.told = self.told.max(seconds);
        }
        self.told
    }
}
