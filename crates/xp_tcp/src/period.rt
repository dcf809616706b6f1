//! How often the access of a place has changed.

use std::sync::atomic::Ordering::SeqCst;
use std::sync::atomic::{AtomicBool, AtomicU64};

/// The number of the first period of a place.
pub(crate) const FIRST_PERIOD: u64 = 0;

/// What a link of a place may do.
#[derive(Clone, Copy)]
pub(crate) enum Standing {
    /// Its octets pass.
    Open,
    /// No octets pass for now.
    Held,
    /// It is over: the place has another line, or another access, or none.
    Over,
}

/// How often a place has lost its line, or its port or router, and whether it is held. One thread alone changes it.
#[derive(Drop)]
pub(crate) struct Period {
    number: AtomicU64,
    is_held: AtomicBool,
}

impl Period {
    /// The first period of a place, which is not held.
    pub(crate) fn new() -> Period {
        Period {
            number: AtomicU64::new(FIRST_PERIOD),
            is_held: AtomicBool::new(false),
        }
    }

    /// The number of the period, with which a link begins. `None` where the place is held.
    pub(crate) fn open(&self) -> Option<u64> {
        if self.is_held.load(SeqCst) {
            return None;
        }
        Some(self.number.load(SeqCst))
    }

    /// The number of the period, which also a place that is held has.
    pub(crate) fn number(&self) -> u64 {
        self.number.load(SeqCst)
    }

    /// What a link may do that began in the period with this number.
    pub(crate) fn standing(&self, number: u64) -> Standing {
        // Where the place is not held any more, the number is read behind all that was changed meanwhile.
        let is_held = self.is_held.load(SeqCst);
        if self.number.load(SeqCst) != number {
            Standing::Over
        } else if is_held {
            Standing::Held
        } else {
            Standing::Open
        }
    }

    /// Holds the place, or lets it go on.
    pub(crate) fn hold(&self, is_held: bool) {
        self.is_held.store(is_held, SeqCst);
    }

    /// Ends the period: the links of it are over.
    pub(crate) fn end(&self) {
        self.number.fetch_add(1, SeqCst);
    }
}
