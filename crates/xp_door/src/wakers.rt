//! How the thread that serves a line is woken by others.

use crate::marks::Marks;
use mio::Waker;
use std::sync::Arc;
use std::sync::atomic::AtomicBool;
use std::sync::atomic::Ordering::SeqCst;

/// Wakes a thread that serves lines. To wake one that is not asleep takes no call of the system.
#[derive(Drop)]
pub struct ThreadWaker {
    waker: Waker,
    /// The thread is asleep, or about to be, and no one has woken it.
    asleep: AtomicBool,
    /// The places, among its lines, of those that may have something to do.
    due: Marks,
}

impl ThreadWaker {
    /// The waker of a thread whose lines have these marks.
    pub fn new(waker: Waker, due: Marks) -> ThreadWaker {
        ThreadWaker {
            waker,
            asleep: AtomicBool::new(false),
            due,
        }
    }

    /// The places, among its lines, of those that may have something to do. The thread takes them as a round begins.
    pub fn due(&self) -> &Marks {
        &self.due
    }

    /// Wakes the thread where it sleeps, or is about to.
    pub fn wake_if_asleep(&self) {
        if self.asleep.load(SeqCst) && self.asleep.swap(false, SeqCst) {
            // It fails only where the thread is woken already.
            let _ = self.waker.wake();
        }
    }

    /// The thread is about to sleep. From now on until `end_sleep` it is woken. It has to look once more whether a line of it has
    /// work, and then to sleep or not.
    pub fn begin_sleep(&self) {
        self.asleep.store(true, SeqCst);
    }

    /// The thread is up.
    pub fn end_sleep(&self) {
        self.asleep.store(false, SeqCst);
    }
}

/// What other threads tell the thread of a line, and what that knows of the line's connection.
#[derive(Drop)]
pub struct LineWaker {
    thread: Arc<ThreadWaker>,
    /// The line's place among those of the thread.
    place: usize,
    /// The line has something to do that its thread may not have seen.
    has_work: AtomicBool,
    /// The last turn of the line had something to do, or it has had none yet.
    busy: AtomicBool,
    /// All octets that were there are read.
    emptied: AtomicBool,
    /// The peer sends no more octets: behind those that are there a read finds their end.
    closing: AtomicBool,
    /// Connections may have come to the line's own port.
    knocked: AtomicBool,
    /// It was told that the line has a connection, and not yet that it has none.
    is_told: AtomicBool,
}

impl LineWaker {
    /// The waker of the line in this place of this thread. Its first turn is due.
    pub fn new(thread: Arc<ThreadWaker>, place: usize) -> LineWaker {
        thread.due.mark(place);
        LineWaker {
            thread,
            place,
            has_work: AtomicBool::new(false),
            busy: AtomicBool::new(true),
            emptied: AtomicBool::new(false),
            closing: AtomicBool::new(false),
            knocked: AtomicBool::new(false),
            is_told: AtomicBool::new(false),
        }
    }

    /// Marks work for the line, and wakes its thread where it sleeps, or is about to. Any thread may call it.
    pub fn ring(&self) {
        self.mark_work();
        self.thread.wake_if_asleep();
    }

    /// Keeps the line's thread from a sleep that it has not begun. Another thread has to ring after it.
    ///
    /// Each of the two threads writes its own flag before it reads the other's, so that at least one of them sees what the other
    /// has written.
    pub fn mark_work(&self) {
        self.has_work.store(true, SeqCst);
        self.thread.due.mark(self.place);
    }

    /// Whether work was marked. From now on it is not: the turn that follows looks at all that was put out to the line before this.
    pub fn take_work(&self) -> bool {
        self.has_work.load(SeqCst) && self.has_work.swap(false, SeqCst)
    }

    /// Whether the line may have something to do.
    pub fn is_due(&self) -> bool {
        self.has_work.load(SeqCst) || self.busy.load(SeqCst)
    }

    /// Whether the last turn of the line had something to do. Only the line's own thread sets it.
    pub fn is_busy(&self) -> bool {
        self.busy.load(SeqCst)
    }

    /// Sets whether the last turn of the line had something to do.
    pub fn set_busy(&self, busy: bool) {
        if self.busy.load(SeqCst) != busy {
            self.busy.store(busy, SeqCst);
        }
    }

    /// Whether the last read left no octets, and nothing was heard of the connection since.
    pub fn is_emptied(&self) -> bool {
        self.emptied.load(SeqCst)
    }

    /// A read of the line's thread left no octets. Where their end has come, the next one is to find it.
    pub fn empty(&self) {
        if !self.closing.load(SeqCst) {
            self.emptied.store(true, SeqCst);
        }
    }

    /// The line has another connection.
    pub fn begin_connection(&self) {
        self.closing.store(false, SeqCst);
        self.refill();
    }

    /// The peer of the line's connection sends no more octets.
    pub fn note_end(&self) {
        self.closing.store(true, SeqCst);
    }

    /// Octets may have come, or their end.
    pub fn refill(&self) {
        if self.emptied.load(SeqCst) {
            self.emptied.store(false, SeqCst);
        }
    }

    /// Connections may have come to the line's own port.
    pub fn knock(&self) {
        self.knocked.store(true, SeqCst);
    }

    /// Whether connections may have come to the line's own port. From now on none have: the line's thread looks at those that came
    /// before this.
    pub fn take_knock(&self) -> bool {
        self.knocked.load(SeqCst) && self.knocked.swap(false, SeqCst)
    }

    /// It is told that the line has a connection.
    pub(crate) fn note_told(&self) {
        self.is_told.store(true, SeqCst);
    }

    /// Whether it was told that the line has a connection. From now on it is told that it has none.
    pub(crate) fn take_told(&self) -> bool {
        self.is_told.swap(false, SeqCst)
    }
}
