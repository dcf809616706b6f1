//! What the threads of lines and the thread that hands on the charging records tell each other.

use std::sync::Wait;
use std::sync::atomic::{AtomicBool, AtomicU64, AtomicUsize, Ordering};
use std::thread::Parker;
use std::time::Duration;
use xp_limits::Limits;

/// For how long the recording thread waits at most, in milliseconds.
const PATIENCE: u64 = 50;

/// While more records than this wait for the recording thread, a line whose calls end waits too.
const MOST_WAITING: u64 = 128;

/// Tells the recording thread that charging records were made, and that threads of lines have ended. Tells these that their lines
/// are to stop.
#[derive(Drop)]
pub struct Signals {
    /// How many threads of lines have not ended yet.
    running: AtomicUsize,
    /// The number of records that the recording thread was last told of.
    told: AtomicU64,
    /// How many records it has handed on.
    handed_on: AtomicU64,
    /// When serving ends.
    limits: Limits,
    /// Whether the lines are to stop.
    stopping: AtomicBool,
    /// What the recording thread waits on.
    parker: Parker,
}

impl Signals {
    /// The signals of so many threads of lines, which serve until these limits.
    pub fn new(threads: usize, limits: Limits) -> Signals {
        Signals {
            running: AtomicUsize::new(threads),
            told: AtomicU64::new(0),
            handed_on: AtomicU64::new(0),
            limits,
            stopping: AtomicBool::new(false),
            parker: Parker::new(),
        }
    }

    /// Tells that the exchange has made so many records. It wakes the recording thread if there are more than it was told of,
    /// and does not wait. Returns whether there are more.
    pub fn records_made(&self, count: u64) -> bool {
        let is_more = count > self.told.load(Ordering::SeqCst);
        if is_more {
            self.told.store(count, Ordering::SeqCst);
            self.parker.unpark();
        }
        is_more
    }

    /// Tells that the recording thread has handed on so many records. Returns whether these are all that are wanted.
    pub(crate) fn records_handed_on(&self, count: u64) -> bool {
        self.handed_on.store(count, Ordering::SeqCst);
        count >= self.limits.records
    }

    /// How many rounds of turns a thread has at most.
    pub(crate) fn most_rounds(&self) -> u64 {
        self.limits.turns
    }

    /// Whether more than 128 records wait for the recording thread. A line whose calls end then waits too, so that the memory of
    /// records is bounded however fast calls end and however slow the sink is.
    pub(crate) fn is_recorder_behind(&self) -> bool {
        let told = self.told.load(Ordering::SeqCst);
        told.saturating_sub(self.handed_on.load(Ordering::SeqCst)) > MOST_WAITING
    }

    /// Tells that a thread has ended, with all its lines.
    pub fn thread_ended(&self) {
        self.running.fetch_sub(1, Ordering::SeqCst);
        self.parker.unpark();
    }

    /// Asks all lines to stop. It wakes no thread: each sees it before its next round of turns.
    pub fn ask_to_stop(&self) {
        self.stopping.store(true, Ordering::SeqCst);
    }

    /// Whether the lines are to stop.
    pub fn is_stopping(&self) -> bool {
        self.stopping.load(Ordering::SeqCst)
    }

    /// Whether all threads of lines have ended.
    pub(crate) fn all_ended(&self) -> bool {
        self.running.load(Ordering::SeqCst) == 0
    }

    /// Waits until a thread tells something, for a twentieth of a second at most.
    pub(crate) fn wait<R: Wait>(&self, rt: &R) {
        self.parker
            .park_timeout(rt, Duration::from_millis(PATIENCE));
    }
}
