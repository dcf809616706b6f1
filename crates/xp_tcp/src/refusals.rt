//! How often it is told that connections of a line were refused.

use std::sync::atomic::AtomicU64;
use std::sync::atomic::Ordering::SeqCst;
use std::time::Duration;
use xp_clock::uptime;

/// For how many seconds nothing more is told after a refusal.
const QUIET_SECONDS: u64 = 10;

/// The refusals of a line's connections: one is told, and those of the ten seconds behind it are counted.
#[derive(Drop)]
pub(crate) struct Refusals {
    /// When the next one is told, in seconds of the system's uptime.
    quiet_until: AtomicU64,
    left_out: AtomicU64,
}

impl Refusals {
    /// None yet.
    pub(crate) fn new() -> Refusals {
        Refusals {
            quiet_until: AtomicU64::new(0),
            left_out: AtomicU64::new(0),
        }
    }

    /// A connection is refused. Returns whether that is to be told.
    pub(crate) fn add(&self) -> bool {
        let is_told = self.ends_quiet();
        if !is_told {
            self.left_out.fetch_add(1, SeqCst);
        }
        is_told
    }

    /// How many were not told, once ten seconds have passed. `None` where it is none or too early.
    pub(crate) fn take_left_out(&self) -> Option<u64> {
        if self.left_out.load(SeqCst) > 0 && self.ends_quiet() {
            Some(self.left_out.swap(0, SeqCst))
        } else {
            None
        }
    }

    /// None any more: the next one is told.
    pub(crate) fn forget(&self) {
        self.left_out.store(0, SeqCst);
        self.quiet_until.store(0, SeqCst);
    }

    /// Whether something may be told. Where it may, nothing more may for ten seconds.
    fn ends_quiet(&self) -> bool {
        let now = uptime().unwrap_or(Duration::MAX).as_secs();
        let may_tell = now >= self.quiet_until.load(SeqCst);
        if may_tell {
            self.quiet_until
                .store(now.saturating_add(QUIET_SECONDS), SeqCst);
        }
        may_tell
    }
}
