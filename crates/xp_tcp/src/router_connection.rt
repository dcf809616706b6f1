//! A connection between a line and its router.

ghost use Rattle.std.specs.Prelude.{◌≡◌, ◌≢◌, ◌<◌, ◌≤◌, false, length};
ghost use Rattle.xp_clearing.specs.Clearings.{is_settled};
ghost use Rattle.xp_links.specs.Counts.{pulled_count, pushed_count};

use crate::connection_notes::ConnectionNotes;
use crate::link::{read_from, write_to};
use crate::options::Patience;
use mio::net::TcpStream;
use std::net::SocketAddr;
use xp_clearing::{CallWatch, Clearing, begins_with_call, front_length};
use xp_door::{DownReason, LineShare};
use xp_links::{Pulled, Pushed};

/// A connection between a line and its router, for one call.
#[derive(Drop)]
pub(crate) struct RouterConnection {
    stream: TcpStream,
    /// Who has made it, where the router has.
    from: Option<SocketAddr>,
    watch: CallWatch,
    notes: ConnectionNotes,
}

impl RouterConnection {
    /// A connection that the exchange has made.
    pub(crate) fn to_router(stream: TcpStream, share: &LineShare) -> RouterConnection {
        RouterConnection {
            stream,
            from: None,
            watch: CallWatch::new(),
            notes: ConnectionNotes::new(share, Patience::Router),
        }
    }

    /// A connection that the router has made, from this peer.
    pub(crate) fn from_router(
        stream: TcpStream,
        peer: SocketAddr,
        share: &LineShare,
    ) -> RouterConnection {
        RouterConnection {
            stream,
            from: Some(peer),
            watch: CallWatch::new(),
            notes: ConnectionNotes::new(share, Patience::Router),
        }
    }

    /// Whether its call is cleared on both sides.
    pub(crate) fn is_over(&self) -> bool {
        self.watch.clearing == Clearing::Done
    }

    /// The peer that has made it, where no octet has passed since.
    pub(crate) fn fresh_peer(&self) -> Option<SocketAddr> {
        if self.watch.has_sent || self.watch.has_received {
            return None;
        }
        self.from
    }

    /// Reads octets of the call. Those behind the packet that clears it are dropped.
    pub(crate) fn pull(&mut self, share: &LineShare, into: &mut [u8]) -> Pulled
        requires { 0 < length into.old }
        ensures bound { pulled_count result ≤ length into.new }
        ensures some { result ≢ Pulled.Octets 0 }
    {
        if self.watch.clearing == Clearing::Unclear {
            return Pulled::Ended;
        }
        if self.watch.clearing.takes_no_more() {
            return Pulled::Nothing;
        }
        let Some(waker) = share.waker() else {
            return Pulled::Fault;
        };
        let pulled = match read_from(&mut self.stream, waker, &mut self.notes, into) {
            Pulled::Octets(count) => Pulled::Octets(self.watch.receive(&into[..count])),
            other => other,
        };
        self.notes.note_pulled(share, into, pulled);
        pulled
    }

    /// Writes octets of the call, to the end of the packet by which it is cleared at most. A call that the exchange has put to the
    /// line is not written where the router's own came first: the exchange has ended it, or will as it reads the router's.
    pub(crate) fn push(&mut self, share: &LineShare, from: &[u8]) -> Pushed
        ensures bound { pushed_count result ≤ length from.now }
    {
        if self.watch.clearing.is_settled() {
            return Pushed::Fault;
        }
        if self.from.is_some() && !self.watch.has_sent && begins_with_call(from) {
            return Pushed::Took(front_length(from));
        }
        let most = self.watch.may_send(from);
        let pushed = write_to(&mut self.stream, &mut self.notes, &from[..most]);
        self.notes.note_pushed(share, &from[..most], pushed);
        match pushed {
            Pushed::Took(count) => {
                self.watch.send(&from[..count]);
                pushed
            }
            Pushed::Nothing => pushed,
            Pushed::Fault => self.without_router(&from[..most]),
        }
    }

    /// What came of writing octets to a router that is gone. Where they confirm its clear request nobody waits for them.
    fn without_router(&mut self, from: &[u8]) -> Pushed
        requires { is_settled self.old.watch.clearing ≡ false }
        ensures bound { pushed_count result ≤ length from.now }
    {
        if !self.watch.clearing.takes_no_more() {
            return Pushed::Fault;
        }
        self.watch.send(from);
        if self.is_over() {
            Pushed::Took(from.len())
        } else {
            Pushed::Fault
        }
    }

    /// Why it is over, as it is let go.
    pub(crate) fn reason(&self) -> DownReason {
        self.notes.reason()
    }

    /// The connection itself.
    pub(crate) fn into_stream(self) -> TcpStream {
        self.stream
    }
}
