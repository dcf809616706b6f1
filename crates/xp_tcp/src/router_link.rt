//! The link of a line behind a router.

ghost use Rattle.std.specs.Prelude.{◌≡◌, ◌≢◌, ◌≤◌, length};
ghost use Rattle.xp_links.specs.Counts.{pulled_count, pushed_count};

use crate::line_place::LinePlace;
use crate::link::wait_for;
use crate::options::Patience;
use crate::router_connection::RouterConnection;
use mio::net::TcpStream;
use std::mem;
use std::sync::Arc;
use std::time::Duration;
use xp_clearing::begins_with_call;
use xp_clock::uptime;
use xp_door::{Arrival, Attempt, ConnectFault, Notice};
use xp_links::{Link, Pulled, Pushed};

/// How long a connection to a router may take, in seconds.
const CONNECT_SECONDS: u64 = 5;

/// The connection of a line behind a router, if there is one.
#[derive(Drop)]
enum Circuit {
    /// None, and none is wanted.
    Free,
    /// The door was asked for one, at this time.
    Asked(Duration),
    /// One is being made since this time.
    Connecting(TcpStream, Duration),
    Connected(RouterConnection),
    /// None could be made.
    Failed,
}

/// The link of a line behind a router: it has a connection while there is a call, one for each (RFC 1613). Where the exchange puts
/// a call to the line it connects to the router, for 5 seconds at most. After a call is cleared on both sides it closes the
/// connection, and stays. It ends with a connection that ends before that. A router that is gone ends its connection within some
/// 30 seconds.
pub(crate) struct RouterLink {
    circuit: Circuit,
    pub(crate) place: Arc<LinePlace>,
    /// Whether it was pulled from or pushed into.
    was_used: bool,
}

impl Drop for RouterLink {
    fn drop(self) {
        let RouterLink {
            circuit,
            place,
            was_used,
        } = self;
        match circuit {
            Circuit::Connected(connection) => {
                let line = place.line;
                let reason = connection.reason();
                place.links.let_go(connection.into_stream());
                place.own.share.tell_down(Notice::Down { line, reason });
            }
            Circuit::Free | Circuit::Asked(_) | Circuit::Connecting(_, _) | Circuit::Failed => {}
        }
        place.behind.link_went(was_used);
        place.behind.release();
    }
}

impl RouterLink {
    /// The link of the line in this place, without a connection.
    pub(crate) fn new(place: Arc<LinePlace>) -> RouterLink {
        RouterLink {
            circuit: Circuit::Free,
            place,
            was_used: false,
        }
    }

    /// Takes the connection of the router that the door has given to the line, if it has.
    fn take_handed(&mut self) {
        let place = &self.place;
        let Some(Arrival { stream, peer }) = place.behind.take_handed() else {
            return;
        };
        let mut stream = stream;
        let share = &place.own.share;
        if wait_for(&mut stream, &place.links.waits, share, Patience::Router).is_err() {
            place.behind.release();
            return;
        }
        let line = place.line;
        share.tell_up(Notice::Up { line, peer });
        self.circuit = Circuit::Connected(RouterConnection::from_router(stream, peer, share));
    }

    /// Makes the next step to a connection for these octets, which are to be pushed.
    fn step(&mut self, from: &[u8]) {
        match mem::replace(&mut self.circuit, Circuit::Failed) {
            // Only a call begins a connection.
            Circuit::Free if begins_with_call(from) => self.ask(None),
            Circuit::Free | Circuit::Failed => {}
            Circuit::Asked(since) => self.begin(since),
            Circuit::Connecting(stream, since) => self.connect(stream, since),
            Circuit::Connected(connection) => self.keep(connection, from),
        }
    }

    /// Asks the door for a connection. One of the router goes back to it.
    fn ask(&mut self, back: Option<Arrival>) {
        self.circuit = if self.place.behind.want(back) {
            Circuit::Asked(uptime().unwrap_or(Duration::MAX))
        } else {
            Circuit::Free
        };
    }

    /// Takes the connection that the door has begun.
    fn begin(&mut self, since: Duration) {
        match self.place.behind.take_begun() {
            Attempt::Waits if is_late(since) => self.fail(ConnectFault::NoAnswer),
            Attempt::Waits => self.circuit = Circuit::Asked(since),
            Attempt::Failed(fault) => self.fail(fault),
            Attempt::Begun(stream) => {
                let mut stream = stream;
                let place = &self.place;
                let share = &place.own.share;
                match wait_for(&mut stream, &place.links.waits, share, Patience::Router) {
                    Ok(()) => self.connect(stream, since),
                    Err(error) => self.fail(ConnectFault::of(&error)),
                }
            }
        }
    }

    /// Looks whether a connection is made.
    fn connect(&mut self, stream: TcpStream, since: Duration) {
        match stream.take_error() {
            Ok(None) => {}
            Ok(Some(error)) | Err(error) => return self.fail(ConnectFault::of(&error)),
        }
        if let Ok(peer) = stream.peer_addr() {
            let share = &self.place.own.share;
            let line = share.line;
            share.tell_up(Notice::Connected { line, peer });
            self.circuit = Circuit::Connected(RouterConnection::to_router(stream, share));
        } else if is_late(since) {
            self.fail(ConnectFault::NoAnswer);
        } else {
            self.circuit = Circuit::Connecting(stream, since);
        }
    }

    /// No connection could be made.
    fn fail(&mut self, fault: ConnectFault) {
        let line = self.place.line;
        self.place
            .own
            .share
            .tell(Notice::NotConnected { line, fault });
        self.circuit = Circuit::Failed;
    }

    /// Keeps a connection for these octets. One that the router has made goes back to the door where nothing has passed on it
    /// yet, and the exchange has a call for the router: that gets a connection of its own.
    fn keep(&mut self, connection: RouterConnection, from: &[u8]) {
        let Some(peer) = connection.fresh_peer() else {
            self.circuit = Circuit::Connected(connection);
            return;
        };
        if !begins_with_call(from) {
            self.circuit = Circuit::Connected(connection);
            return;
        }
        let mut stream = connection.into_stream();
        let _ = self.place.links.waits.deregister(&mut stream);
        self.place.own.share.forget_up();
        self.ask(Some(Arrival { stream, peer }));
    }

    /// Closes the connection where its call is cleared on both sides.
    fn settle(&mut self) {
        if let Circuit::Connected(connection) = &self.circuit {
            if connection.is_over() {
                self.close();
            }
        }
    }

    /// Closes the connection, over which no call goes any more. The line is free.
    fn close(&mut self) {
        let circuit = mem::replace(&mut self.circuit, Circuit::Free);
        let place = &self.place;
        let line = place.line;
        place.own.share.tell_down(Notice::Closed { line });
        // A router that sees the end may connect again at once.
        place.behind.release();
        if let Circuit::Connected(connection) = circuit {
            place.links.let_go(connection.into_stream());
        }
    }
}

/// Whether the time for a connection is over.
fn is_late(since: Duration) -> bool {
    match uptime() {
        Some(now) => now.saturating_sub(since) >= Duration::from_secs(CONNECT_SECONDS),
        None => false,
    }
}

impl Link for RouterLink {
    fn pull(&mut self, into: &mut [u8]) -> Pulled
        ensures bound { pulled_count result ≤ length into.new }
        ensures some { result ≢ Pulled.Octets 0 }
    {
        self.was_used = true;
        if into.is_empty() {
            return Pulled::Nothing;
        }
        // The exchange has taken the confirmation that was pulled before.
        self.settle();
        if matches!(self.circuit, Circuit::Free) {
            self.take_handed();
        }
        let Circuit::Connected(connection) = &mut self.circuit else {
            return Pulled::Nothing;
        };
        match connection.pull(&self.place.own.share, into) {
            Pulled::Ended if connection.fresh_peer().is_some() => {
                self.close();
                Pulled::Nothing
            }
            pulled => pulled,
        }
    }

    fn push(&mut self, from: &[u8]) -> Pushed
        ensures bound { pushed_count result ≤ length from.now }
    {
        self.was_used = true;
        if from.is_empty() {
            return Pushed::Took(0);
        }
        self.settle();
        self.step(from);
        let pushed = match &mut self.circuit {
            Circuit::Connected(connection) => connection.push(&self.place.own.share, from),
            Circuit::Free | Circuit::Asked(_) | Circuit::Connecting(_, _) => Pushed::Nothing,
            Circuit::Failed => Pushed::Fault,
        };
        self.settle();
        pushed
    }
}
