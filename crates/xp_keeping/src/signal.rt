//! What the thread that keeps charging records and the thread that hands them to it tell each other.

use crate::call_keeper::CallKeeper;
use std::sync::Wait;
use std::sync::atomic::Ordering::SeqCst;
use std::sync::atomic::{AtomicBool, AtomicUsize};
use std::thread::Parker;
use std::time::Duration;

/// For how long the thread that keeps records waits at most, in milliseconds. So often a write that failed is tried again.
const PATIENCE: u64 = 100;

/// For how long the thread that hands them over waits at a time as serving ends, in milliseconds.
const PATIENCE_AT_END: u64 = 10;

/// What the two threads tell each other.
#[derive(Drop)]
pub(crate) struct KeepingSignal {
    /// How many records are kept, from the first on.
    kept: AtomicUsize,
    /// Whether no further record is handed over.
    is_over: AtomicBool,
    /// Whether the keeper can do nothing with further records.
    wants_stop: AtomicBool,
    /// Whether the thread that keeps records has ended.
    has_ended: AtomicBool,
    /// What the thread that keeps records waits on.
    keeping: Parker,
    /// What the thread that hands them over waits on as serving ends.
    ending: Parker,
}

impl KeepingSignal {
    /// The signal of a thread that has kept nothing.
    pub(crate) fn new() -> KeepingSignal {
        KeepingSignal {
            kept: AtomicUsize::new(0),
            is_over: AtomicBool::new(false),
            wants_stop: AtomicBool::new(false),
            has_ended: AtomicBool::new(false),
            keeping: Parker::new(),
            ending: Parker::new(),
        }
    }

    /// Tells that records were handed over.
    pub(crate) fn handed_over(&self) {
        self.keeping.unpark();
    }

    /// Tells that no further record is handed over.
    pub(crate) fn end(&self) {
        self.is_over.store(true, SeqCst);
        self.keeping.unpark();
    }

    /// Whether no further record is handed over.
    pub(crate) fn is_over(&self) -> bool {
        self.is_over.load(SeqCst)
    }

    /// Tells how many records this keeper has kept.
    pub(crate) fn tell_kept<K: CallKeeper>(&self, keeper: &K) {
        self.kept.store(keeper.count_kept(), SeqCst);
    }

    /// How many records are kept, as was told last.
    pub(crate) fn kept(&self) -> usize {
        self.kept.load(SeqCst)
    }

    /// Asks for a stop.
    pub(crate) fn ask_to_stop(&self) {
        self.wants_stop.store(true, SeqCst);
    }

    /// Whether the keeper asks for a stop.
    pub(crate) fn wants_stop(&self) -> bool {
        self.wants_stop.load(SeqCst)
    }

    /// Tells that the thread that keeps records has ended.
    pub(crate) fn tell_end(&self) {
        self.has_ended.store(true, SeqCst);
        self.ending.unpark();
    }

    /// Whether the thread that keeps records has ended.
    pub(crate) fn has_ended(&self) -> bool {
        self.has_ended.load(SeqCst)
    }

    /// Waits until records were handed over, or for a tenth of a second.
    pub(crate) fn wait_for_records<R: Wait>(&self, rt: &R) {
        self.keeping
            .park_timeout(rt, Duration::from_millis(PATIENCE));
    }

    /// Waits until the thread that keeps records has ended, or for a hundredth of a second.
    pub(crate) fn wait_for_end<R: Wait>(&self, rt: &R) {
        self.ending
            .park_timeout(rt, Duration::from_millis(PATIENCE_AT_END));
    }
}
