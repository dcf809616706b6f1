//! What the threads of all lines share.

ghost use Rattle.std.specs.Prelude.{◌≡◌, IfOk};

use crate::down_reason::DownReason;
use crate::notices::{Notice, Notices};
use crate::tap::Tap;
use crate::wakers::LineWaker;
use std::alloc::AllocError;
use std::sync::Arc;
use xp_subs::LineNo;

/// A line's share in the wakers and the notices.
#[derive(Drop)]
pub struct LineShare {
    pub line: LineNo,
    wakers: Arc<Vec<LineWaker>>,
    notices: Arc<Notices>,
}

impl LineShare {
    /// The share of a line.
    pub fn new(
        line: LineNo,
        wakers: &Arc<Vec<LineWaker>>,
        notices: &Arc<Notices>,
    ) -> Result<LineShare, AllocError>
        ensures { IfOk result (λ share. share.line ≡ line) }
    {
        Ok(LineShare {
            line,
            wakers: Arc::try_clone(wakers)?,
            notices: Arc::try_clone(notices)?,
        })
    }

    /// The waker of the line's own thread.
    pub fn waker(&self) -> Option<&LineWaker> {
        self.wakers.get(self.line as usize)
    }

    /// The tap of the line's next connection. `None` where the line is not traced.
    pub fn tap(&self) -> Option<Tap> {
        self.notices.tap(self.line)
    }

    /// Counts octets that the line has received.
    pub fn count_received(&self, octets: usize) {
        self.notices.receive(self.line, octets);
    }

    /// Counts octets that the line has sent.
    pub fn count_sent(&self, octets: usize) {
        self.notices.send(self.line, octets);
    }

    /// Tells a notice.
    pub fn tell(&self, notice: Notice) {
        self.notices.tell(notice);
    }

    /// Tells by a notice that the line has a connection.
    pub fn tell_up(&self, notice: Notice) {
        if let Some(waker) = self.waker() {
            waker.note_told();
        }
        self.notices.tell(notice);
    }

    /// Tells by a notice that the line has no connection any more, unless that was told already.
    pub fn tell_down(&self, notice: Notice) {
        if self.forget_up() {
            self.notices.tell(notice);
        }
    }

    /// The line is gone, and another one may take its number. Where it has a connection that was told, this tells its end.
    pub fn line_goes(&self) {
        let line = self.line;
        self.tell_down(Notice::Down {
            line,
            reason: DownReason::Reload,
        });
        self.notices.line_goes(line);
    }

    /// The line has no connection any more, which is not told. Whether it was told that it has one.
    pub fn forget_up(&self) -> bool {
        self.waker().is_some_and(|waker| waker.take_told())
    }
}
