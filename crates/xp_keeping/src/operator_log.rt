//! What an operator is told on standard error.

use jiff::Timestamp;
use libc::net::{POLLOUT, poll};
use libc::types::pollfd;
use log::{Level, Log, log};
use std::fmt::Display;

/// The descriptor of standard error.
const STANDARD_ERROR: i32 = 2;

/// Tells facts on standard error, each on a line with its moment. A line that standard error does not take at once is left out, so
/// that nothing waits for who reads it. How many were left out is told with the next line.
#[derive(Drop)]
pub struct OperatorLog<L: Log> {
    log: L,
    /// Whether only failures are told.
    is_quiet: bool,
    /// How many lines were left out since the last one that was written.
    left_out: u64,
}

impl<L: Log> OperatorLog<L> {
    /// The log that writes its lines by this logger. A quiet one tells no mere facts.
    pub fn new(log: L, is_quiet: bool) -> OperatorLog<L> {
        OperatorLog {
            log,
            is_quiet,
            left_out: 0,
        }
    }

    /// Tells a fact, at this moment, in seconds since 1970.
    pub fn info<D: Display + Drop>(&mut self, moment: u64, fact: D) {
        if !self.is_quiet {
            self.tell(Level::Info, moment, fact);
        }
    }

    /// Tells what an operator has to look at, at this moment, in seconds since 1970.
    pub fn warn<D: Display + Drop>(&mut self, moment: u64, fact: D) {
        self.tell(Level::Warn, moment, fact);
    }

    /// Tells what an operator has to act on, at this moment, in seconds since 1970.
    pub fn error<D: Display + Drop>(&mut self, moment: u64, fact: D) {
        self.tell(Level::Error, moment, fact);
    }

    fn tell<D: Display + Drop>(&mut self, level: Level, moment: u64, fact: D) {
        if !takes_a_line() {
            self.left_out = self.left_out.saturating_add(1);
            return;
        }
        let moment = timestamp(moment);
        if self.left_out > 0 {
            let left_out = format_args!("{} lines of this log were left out", self.left_out);
            self.write(Level::Warn, moment, &left_out);
            self.left_out = 0;
        }
        self.write(level, moment, &fact);
    }

    /// Writes a line that tells this.
    fn write<D: Display>(&self, level: Level, moment: Timestamp, fact: &D) {
        log!(self.log; target: "xp", level, "{moment} {fact}");
    }
}

/// The instant that many seconds after 1970 began, or the last one that there is.
fn timestamp(seconds: u64) -> Timestamp {
    match i64::try_from(seconds) {
        Ok(seconds) => Timestamp::from_second(seconds).unwrap_or(Timestamp::MAX),
        Err(_) => Timestamp::MAX,
    }
}

/// Whether standard error takes a line at once.
fn takes_a_line() -> bool {
    let mut ready = [pollfd {
        fd: STANDARD_ERROR,
        events: POLLOUT,
        revents: 0,
    }];
    poll(&mut ready, 0) > 0 && ready[0].revents & POLLOUT != 0
}
