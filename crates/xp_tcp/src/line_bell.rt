//! The bell of a line.

use std::sync::Arc;
use xp_door::LineWaker;
use xp_links::Bell;
use xp_subs::LineNo;

/// The bell of a line, over the wakers of all lines. Where a line has none, it is never due.
pub struct LineBell {
    wakers: Arc<Vec<LineWaker>>,
    /// The line's own place among the wakers.
    line: usize,
}

impl Drop for LineBell {
    fn drop(self) {
        let LineBell { wakers: _, line: _ } = self;
    }
}

impl LineBell {
    pub(crate) fn new(wakers: Arc<Vec<LineWaker>>, line: usize) -> LineBell {
        LineBell { wakers, line }
    }

    /// Notes whether the line's turn has something to do.
    fn set_busy(&self, busy: bool) {
        if let Some(waker) = self.wakers.get(self.line) {
            waker.set_busy(busy);
        }
    }
}

impl Bell for LineBell {
    fn is_due(&self) -> bool {
        match self.wakers.get(self.line) {
            Some(waker) => {
                let marked = waker.take_work();
                marked || waker.is_busy()
            }
            None => false,
        }
    }

    fn begin_turn(&self) {
        self.set_busy(true);
    }

    fn idle(&self) {
        self.set_busy(false);
    }

    fn ring(&self, line: LineNo) {
        if let Some(waker) = self.wakers.get(line as usize) {
            waker.ring();
        }
    }
}
