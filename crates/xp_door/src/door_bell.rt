//! How the door is woken.

use crate::marks::Marks;
use mio::Waker;
use std::alloc::AllocError;
use std::sync::atomic::AtomicBool;
use std::sync::atomic::Ordering::SeqCst;
use xp_subs::LineNo;

/// Wakes the thread of the door: a line behind a router waits for a connection, or the door is to stop.
#[derive(Drop)]
pub struct DoorBell {
    waker: Waker,
    is_rung: AtomicBool,
    is_stopped: AtomicBool,
    /// The numbers of the lines that wait for a connection.
    wanted: Marks,
}

impl DoorBell {
    /// A bell for lines with these marks.
    pub fn new(waker: Waker, wanted: Marks) -> DoorBell {
        DoorBell {
            waker,
            is_rung: AtomicBool::new(false),
            is_stopped: AtomicBool::new(false),
            wanted,
        }
    }

    /// Asks the door to look once more at the lines that were not taken.
    pub fn ring(&self) {
        self.is_rung.store(true, SeqCst);
        // It fails only where the door is woken already.
        let _ = self.waker.wake();
    }

    /// Asks the door to look at this line.
    pub fn ring_for(&self, line: LineNo) {
        self.wanted.mark(usize::from(line));
        self.ring();
    }

    /// Whether it was rung. From now on it was not: the door looks at all that was asked before this.
    pub fn take_ring(&self) -> bool {
        self.is_rung.swap(false, SeqCst)
    }

    /// Takes the numbers of the lines that it was rung for, in order.
    ///
    /// # Errors
    ///
    /// `AllocError` if an allocation fails. The lines that were not taken are taken next time.
    pub fn take_wanted(&self, lines: &mut Vec<usize>) -> Result<(), AllocError> {
        self.wanted.take(lines)
    }

    /// Asks the door to end. It does so within half a second.
    pub fn stop(&self) {
        self.is_stopped.store(true, SeqCst);
        let _ = self.waker.wake();
    }

    /// Whether the door is to end.
    pub fn is_stopped(&self) -> bool {
        self.is_stopped.load(SeqCst)
    }
}
