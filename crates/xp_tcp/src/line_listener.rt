//! The port of a line's own, as the line's thread and whoever changes the port share it.

ghost use Rattle.std.specs.IoError.{error_kind};
ghost use Rattle.std.specs.Prelude.{◌≡◌, ◌↔◌, ◌⊎◌};
ghost use Rattle.xp_tcp.specs.declared.line_listener.NoConnection.TheVariants as reasons;

use crate::admission::Admission;
use crate::own_port::{Met, NotTaken, OwnArrival, OwnPort};
use crate::refusals::Refusals;
use mio::net::TcpListener;
use mio::{Registry, Token};
use std::io;
use std::io::ErrorKind;
use std::sync::atomic::AtomicBool;
use std::sync::atomic::Ordering::SeqCst;
use std::sync::{Mutex, Wait};
use xp_door::{LineShare, Notice, hold, is_in_want};

/// How many connections are taken at most in one look, where those before failed or were refused.
pub(crate) const MOST_TAKEN: usize = 16;

/// Why no connection was taken.
#[derive(Clone, Copy)]
pub(crate) enum NoConnection {
    /// One connection alone has failed, or may not come from where it does. There may be another behind it.
    Passed,
    /// None has come, or none can be taken for now.
    Nothing,
    /// The socket is none that listens.
    Fault,
}

/// The port of a line's own, if it has one. The line's port and its link share it, on the line's thread, with whoever changes it.
#[derive(Drop)]
pub(crate) struct LineListener {
    own: Mutex<OwnPort>,
    pub(crate) share: LineShare,
    /// A connection that takes the place of the line's.
    next: Mutex<Option<OwnArrival>>,
    refusals: Refusals,
    /// No connection could be accepted, for want of descriptors or of memory, and none was since.
    is_failing: AtomicBool,
}

impl LineListener {
    pub(crate) fn new(own: OwnPort, share: LineShare) -> LineListener {
        LineListener {
            own: Mutex::new(own),
            share,
            next: Mutex::new(None),
            refusals: Refusals::new(),
            is_failing: AtomicBool::new(false),
        }
    }

    /// Takes a connection that has come. One from an address that is not admitted is closed, and told.
    pub(crate) fn accept(&self) -> Result<OwnArrival, NoConnection> {
        let taken = match hold(&self.own) {
            Some(own) => own.accept(),
            None => {
                self.look_again();
                return Err(NoConnection::Nothing);
            }
        };
        match taken {
            Ok(arrival) => {
                self.note(false);
                Ok(arrival)
            }
            Err(NotTaken::Stranger(peer)) => {
                self.note(false);
                let line = self.share.line;
                self.refuse(Notice::Refused { line, peer });
                Err(NoConnection::Passed)
            }
            Err(NotTaken::Failed(error)) => {
                if let Some(fails) = is_in_want(&error) {
                    self.note(fails);
                }
                Err(reason_of(&error))
            }
            Err(NotTaken::NoSocket) => Err(NoConnection::Nothing),
        }
    }

    /// Looks at the connections that have come while the line has one, if any may have. Returns whether one of them takes its place.
    pub(crate) fn is_replaced(&self) -> bool {
        self.tell_left_out();
        match self.share.waker() {
            Some(waker) if waker.take_knock() => self.meet_all(),
            _ => false,
        }
    }

    /// Takes the connections that have come while the line has one. Returns whether one of them takes its place.
    fn meet_all(&self) -> bool {
        for _taken in 0..MOST_TAKEN {
            match self.accept() {
                Ok(arrival) => self.meet(arrival),
                Err(NoConnection::Passed) => {}
                Err(NoConnection::Nothing | NoConnection::Fault) => return self.has_next(),
            }
        }
        // More may wait, of which the system tells only once.
        self.look_again();
        self.has_next()
    }

    /// A connection has come while the line has one. Where the line's addresses are named the newest connection counts, and else the
    /// one that the line has. One that came to a port that the line has no more is closed.
    fn meet(&self, own: OwnArrival) {
        let line = self.share.line;
        let peer = own.arrival.peer;
        match self.put_next(own) {
            Met::Next => self.share.tell(Notice::Replaced { line, peer }),
            Met::Refused => self.refuse(Notice::HasOne { line, peer }),
            Met::Gone => {}
        }
    }

    /// Lets a connection take the place of the line's, where the line's addresses are named. The port does not change meanwhile.
    fn put_next(&self, own: OwnArrival) -> Met {
        let Some(port) = hold(&self.own) else {
            return Met::Gone;
        };
        match port.meets(&own) {
            Met::Next => match hold(&self.next) {
                Some(mut next) => {
                    *next = Some(own);
                    Met::Next
                }
                None => Met::Gone,
            },
            met => met,
        }
    }

    fn has_next(&self) -> bool {
        match hold(&self.next) {
            Some(next) => next.is_some(),
            None => false,
        }
    }

    /// Takes the connection that took the place of the line's.
    pub(crate) fn take_next(&self) -> Option<OwnArrival> {
        hold(&self.next)?.take()
    }

    /// Has the line's thread look once more whether connections have come, before it sleeps.
    pub(crate) fn look_again(&self) {
        if let Some(waker) = self.share.waker() {
            waker.knock();
            waker.mark_work();
        }
    }

    /// Tells that a connection was closed as it came, unless one was told lately.
    fn refuse(&self, notice: Notice) {
        if self.refusals.add() {
            self.share.tell(notice);
        }
    }

    /// Tells how many connections were closed that were not told, once it is time.
    pub(crate) fn tell_left_out(&self) {
        if let Some(count) = self.refusals.take_left_out() {
            let line = self.share.line;
            self.share.tell(Notice::MoreRefused { line, count });
        }
    }

    /// Notes whether connections can be accepted, and tells where that has changed.
    fn note(&self, fails: bool) {
        if fails {
            // The system tells of connections that wait as they come, and not again.
            if let Some(waker) = self.share.waker() {
                waker.knock();
            }
        }
        if fails == self.is_failing.swap(fails, SeqCst) {
            return;
        }
        let line = self.share.line;
        self.share.tell(if fails {
            Notice::PortFailing { line }
        } else {
            Notice::PortWorks { line }
        });
    }
}

impl LineListener {
    /// The port at which its socket listens.
    pub(crate) fn port<R: Wait>(&self, rt: &R) -> Option<u16> {
        self.own.lock(rt).port()
    }

    /// Lets another thread wait for the socket too, by this name.
    pub(crate) fn register_at<R: Wait>(
        &self,
        rt: &R,
        waits: &Registry,
        name: Token,
    ) -> io::Result<()> {
        self.own.lock(rt).register_at(waits, name)
    }

    /// That thread does not wait for it any more.
    pub(crate) fn deregister_at(&self, waits: &Registry) {
        if let Some(mut own) = hold(&self.own) {
            own.deregister_at(waits);
        }
    }

    /// The socket, which is to listen for another line. From now on there is none here.
    pub(crate) fn take_listener<R: Wait>(&self, rt: &R) -> Option<TcpListener> {
        self.own.lock(rt).take_listener()
    }

    /// This is the line's port from now on. What there was of the one before is forgotten, and its connections that were not taken are
    /// closed.
    pub(crate) fn renew<R: Wait>(&self, rt: &R, own: OwnPort) {
        *self.own.lock(rt) = own;
        *self.next.lock(rt) = None;
        self.refusals.forget();
        self.is_failing.store(false, SeqCst);
    }

    /// From where connections may come that come from now on.
    pub(crate) fn set_admission<R: Wait>(&self, rt: &R, admission: Admission) {
        self.own.lock(rt).set_admission(admission);
    }

    /// The line's thread has ended: no socket listens any more.
    pub(crate) fn close(&self) {
        if let Some(mut own) = hold(&self.own) {
            own.take_listener();
        }
    }
}

/// Why no connection could be taken. The system tells of connections that wait as they come, and not again: after a want
/// that may pass, the thread sleeps for half a second at most, and looks again.
fn reason_of(error: &io::Error) -> NoConnection
    ensures { (result ≡ reasons.Passed) ↔ ((error_kind error.now ≡ ErrorKind.ConnectionAborted) ⊎ (error_kind error.now ≡ ErrorKind.Interrupted)) }
{
    match error.kind() {
        ErrorKind::ConnectionAborted | ErrorKind::Interrupted => NoConnection::Passed,
        _ if is_lasting(error) => NoConnection::Fault,
        _ => NoConnection::Nothing,
    }
}

/// Whether an error says that the socket is none that listens. Want of descriptors or of memory may pass.
fn is_lasting(error: &io::Error) -> bool {
    matches!(
        error.raw_os_error(),
        Some(libc::EBADF | libc::EINVAL | libc::ENOTSOCK)
    )
}
