//! A place of a line.

use crate::line_listener::LineListener;
use crate::own_port::OwnPort;
use crate::period::{Period, Standing};
use crate::thread_links::ThreadLinks;
use crate::tokens::listener_of;
use mio::Interest;
use mio::net::TcpListener;
use std::io;
use std::net::SocketAddr;
use std::sync::{Arc, Wait};
use xp_door::RouterLine;
use xp_subs::LineNo;

/// A place of a line, as the line's thread and whoever changes the place share it. It has a port of its own, or a router, or neither
/// where it is spare.
#[derive(Drop)]
pub(crate) struct LinePlace {
    pub(crate) line: LineNo,
    /// The number of the line's thread.
    pub(crate) thread: usize,
    pub(crate) period: Period,
    pub(crate) own: LineListener,
    pub(crate) behind: Arc<RouterLine>,
    pub(crate) links: Arc<ThreadLinks>,
}

impl LinePlace {
    /// What a link may do that began in this period.
    pub(crate) fn standing(&self, period: u64) -> Standing {
        self.period.standing(period)
    }

    /// Holds the place: no octets pass on its connection, and it gets no other one.
    pub(crate) fn hold(&self) {
        self.period.hold(true);
        self.behind.hold(true);
    }

    /// Lets a place that was held go on.
    pub(crate) fn release(&self) {
        self.behind.hold(false);
        self.period.hold(false);
        self.wake();
    }

    /// Takes the line's port and router away, and closes its connection, which is told. The place stays held.
    pub(crate) fn clear<R: Wait>(&self, rt: &R) {
        self.period.end();
        self.own.renew(rt, OwnPort::none());
        self.behind.renew(rt, None);
        self.own.share.line_goes();
        self.wake();
    }

    /// Puts the line behind this router, which may give it connections from now on.
    pub(crate) fn set_router<R: Wait>(&self, rt: &R, router: SocketAddr) {
        self.behind.renew(rt, Some(router));
        self.behind.hold(false);
    }

    /// Lets the thread of this place wait for the socket of another one, which is to move here.
    ///
    /// # Errors
    ///
    /// What the system says. Then it does not wait.
    pub(crate) fn expect<R: Wait>(&self, rt: &R, other: &LinePlace) -> io::Result<()> {
        if self.thread == other.thread {
            return Ok(());
        }
        other
            .own
            .register_at(rt, &self.links.waits, listener_of(self.line))
    }

    /// The thread of this place does not wait any more for the socket of another one, which does not move here.
    pub(crate) fn expect_no_more(&self, other: &LinePlace) {
        if self.thread != other.thread {
            other.own.deregister_at(&self.links.waits);
        }
    }

    /// Moves the socket of another place here, which the thread of this place expects. It allocates nothing.
    pub(crate) fn take_from<R: Wait>(&self, rt: &R, other: &LinePlace) -> Option<TcpListener> {
        let mut listener = other.own.take_listener(rt)?;
        if self.thread != other.thread {
            // It fails only where the other thread did not wait for it.
            let _ = other.links.waits.deregister(&mut listener);
        } else if self.line != other.line {
            let name = listener_of(self.line);
            let waits = &self.links.waits;
            // The thread waits for the socket already.
            let _ = waits.reregister(&mut listener, name, Interest::READABLE);
        }
        Some(listener)
    }

    /// Has the line's thread look at the place.
    fn wake(&self) {
        self.own.look_again();
        if let Some(waker) = self.own.share.waker() {
            waker.refill();
            waker.ring();
        }
    }
}
