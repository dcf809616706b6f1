//! What a place of a line is to have next.

ghost use Rattle.std.specs.Prelude.{◌≡◌};

use crate::admission::Admission;
use crate::line_place::LinePlace;
use crate::own_port::OwnPort;
use mio::net::TcpListener;
use std::marker::Model;
use std::net::SocketAddr;
use std::sync::{Arc, Wait};
use xp_door::Caller;

/// The socket of a line's next port.
#[derive(Drop)]
pub(crate) enum NextSocket {
    /// This one, for which the line's thread waits already.
    Bound(TcpListener),
    /// That of this place, whose port is the same.
    Of(Arc<LinePlace>),
}

/// Where the connections of a line are to come from.
pub(crate) enum NextSource {
    /// A port of the line's own, and from where its connections may come.
    Own(u16, Admission, NextSocket),
    /// The router of this address, whose calls are matched with this.
    Router(SocketAddr, Caller),
    /// Nowhere: the place is spare.
    Spare,
}

impl Drop for NextSource {
    fn drop(self) {
        match self {
            NextSource::Own(_, _, _) | NextSource::Router(_, _) | NextSource::Spare => {}
        }
    }
}

impl NextSource {
    /// Gives a place its own port, if it is to have one: another one, or where it keeps the port, the sources of it.
    fn put<R: Wait>(self, rt: &R, place: &LinePlace, is_kept: bool) {
        match self {
            NextSource::Own(port, admission, socket) => {
                if is_kept {
                    place.own.set_admission(rt, admission);
                } else {
                    put_port(rt, place, port, admission, socket);
                }
            }
            NextSource::Router(_, _) | NextSource::Spare => {}
        }
    }
}

/// What a place is to have next. Contracts see whether it keeps its line, and where its connections come from.
#[derive(Drop)]
pub(crate) struct NextLine {
    pub(crate) place: Arc<LinePlace>,
    /// Whether the place keeps its line, with its port or its router.
    pub(crate) is_kept: bool,
    pub(crate) source: NextSource,
}

impl Model for NextLine {
    ghost use Rattle.xp_tcp.specs.NextPlaces.{NextPlace};
    ghost use Rattle.xp_tcp.specs.steps.Sources.{next_origin};

    ghost Value = { NextPlace };

    ghost view = { λ line. record { is_kept = line.is_kept; origin = next_origin line.source } };
}

impl NextLine {
    /// Holds its place, unless that keeps its line.
    pub(crate) fn hold(&self) {
        if !self.is_kept {
            self.place.hold();
        }
    }

    /// It does not come: its place goes on where it was held, and its thread does not wait for a socket of another place any more.
    pub(crate) fn give_up(&self, is_held: bool) {
        if let NextSource::Own(_, _, NextSocket::Of(other)) = &self.source {
            self.place.expect_no_more(other);
        }
        if is_held && !self.is_kept {
            self.place.release();
        }
    }

    /// Takes the socket of another place, which is to be that of its own place.
    pub(crate) fn take_socket<R: Wait>(&mut self, rt: &R)
        ensures { self.new ≡ self.old }
    {
        if self.is_kept {
            return;
        }
        if let NextSource::Own(_, _, socket) = &mut self.source {
            if let NextSocket::Of(other) = socket {
                if let Some(listener) = self.place.take_from(rt, other) {
                    *socket = NextSocket::Bound(listener);
                }
            }
        }
    }

    /// Takes port, router and connection from its place, unless that keeps its line.
    pub(crate) fn clear<R: Wait>(&self, rt: &R) {
        if !self.is_kept {
            self.place.clear(rt);
        }
    }

    /// Puts its place behind its router, if it has another one.
    pub(crate) fn set_router<R: Wait>(&self, rt: &R) {
        match &self.source {
            NextSource::Router(router, _) if !self.is_kept => self.place.set_router(rt, *router),
            _ => {}
        }
    }

    /// Gives its place its own port, if it has another one, or the sources of the same one, and lets the place go on.
    pub(crate) fn put<R: Wait>(self, rt: &R) {
        let NextLine {
            place,
            is_kept,
            source,
        } = self;
        source.put(rt, &place, is_kept);
        if !is_kept {
            place.release();
        }
    }
}

/// Gives a place another port of its own, for connections from these sources.
fn put_port<R: Wait>(
    rt: &R,
    place: &LinePlace,
    port: u16,
    admission: Admission,
    socket: NextSocket,
) {
    match socket {
        NextSocket::Bound(listener) => {
            let period = place.period.number();
            place
                .own
                .renew(rt, OwnPort::new(listener, port, admission, period));
        }
        // The place has none from which it is taken: the thread of that line has ended.
        NextSocket::Of(_) => {}
    }
}
