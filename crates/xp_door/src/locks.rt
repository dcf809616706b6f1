//! Locks that are held for moments.

use std::sync::{Mutex, MutexGuard};
use std::thread;

/// How often a lock is tried. A thread holds it for less than a microsecond, unless the system stops that thread, and between two
/// tries other threads run.
const MOST_TRIES: u32 = 1_000;

/// Takes a lock that threads hold for moments. `None` where other threads keep it for too long.
pub fn hold<T>(lock: &Mutex<T>) -> Option<MutexGuard<'_, T>> {
    for _try in 0..MOST_TRIES {
        if let Some(guard) = lock.try_lock() {
            return Some(guard);
        }
        thread::yield_now();
    }
    None
}
