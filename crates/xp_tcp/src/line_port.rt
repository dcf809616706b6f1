//! The ports and links of lines of both kinds.

ghost use Rattle.std.specs.Prelude.{◌≡◌, ◌≢◌, ◌≤◌, length};
ghost use Rattle.xp_links.specs.Counts.{pulled_count, pushed_count};
ghost use Rattle.xp_tcp.specs.Accesses.{first_origin};

use crate::line_place::LinePlace;
use crate::line_sockets::LineSockets;
use crate::link::TcpLink;
use crate::period::Standing;
use crate::port::next_of_port;
use crate::router_link::RouterLink;
use crate::router_port::next_of_router;
use std::marker::Model;
use std::sync::Arc;
use xp_links::{Arrived, Link, Port, Pulled, Pushed};
use xp_past::Past;

/// Where a line's links come from: its own port or its router, as its place has them at that moment. Contracts see with what the place
/// began: where its connections came from, and from which addresses they might.
pub struct LinePort {
    first: Past<LineSockets>,
    place: Arc<LinePlace>,
}

impl Drop for LinePort {
    fn drop(self) {
        let LinePort { first: _, place } = self;
        place.own.close();
        place.behind.close();
    }
}

impl Model for LinePort {
    ghost use Rattle.xp_tcp.specs.Accesses.{Origin, first_origin};

    ghost Value = { Origin };

    ghost view = { λ port. first_origin port.first.items };
}

impl LinePort {
    /// The port of a line in this place, which begins so.
    pub(crate) fn new(first: Past<LineSockets>, place: Arc<LinePlace>) -> LinePort
        ensures { result ≡ first_origin first.items }
    {
        LinePort { first, place }
    }
}

impl Port for LinePort {
    type Link = LineLink;

    fn next(&mut self) -> Arrived<LineLink>
        ensures { self.new ≡ self.old }
    {
        let Some(period) = self.place.period.open() else {
            return Arrived::Nothing;
        };
        if self.place.behind.is_behind() {
            next_of_router(&self.place, period)
        } else {
            next_of_port(&self.place)
        }
    }
}

/// A link of a line. It is over once the line is gone, or has another port or router. No octets pass on it while the line's place is
/// held.
pub struct LineLink {
    /// The period of its place in which it began.
    pub(crate) period: u64,
    pub(crate) link: KindOfLink,
}

/// A link of either kind.
#[derive(Drop)]
pub(crate) enum KindOfLink {
    /// A connection to the line's own TCP port.
    Own(TcpLink),
    /// The link of a line behind a router.
    Router(RouterLink),
}

impl Drop for LineLink {
    fn drop(self) {
        let LineLink { period: _, link: _ } = self;
    }
}

impl Link for LineLink {
    fn pull(&mut self, into: &mut [u8]) -> Pulled
        ensures bound { pulled_count result ≤ length into.new }
        ensures some { result ≢ Pulled.Octets 0 }
    {
        match self.link.standing(self.period) {
            Standing::Open => self.link.pull(into),
            Standing::Held => Pulled::Nothing,
            Standing::Over => Pulled::Ended,
        }
    }

    fn push(&mut self, from: &[u8]) -> Pushed
        ensures bound { pushed_count result ≤ length from.now }
    {
        match self.link.standing(self.period) {
            Standing::Open => self.link.push(from),
            Standing::Held => Pushed::Nothing,
            Standing::Over => Pushed::Fault,
        }
    }
}

impl KindOfLink {
    /// What it may do where it began in this period.
    fn standing(&self, period: u64) -> Standing {
        match self {
            KindOfLink::Own(link) => link.place.standing(period),
            KindOfLink::Router(link) => link.place.standing(period),
        }
    }
}

impl Link for KindOfLink {
    fn pull(&mut self, into: &mut [u8]) -> Pulled
        ensures bound { pulled_count result ≤ length into.new }
        ensures some { result ≢ Pulled.Octets 0 }
    {
        match self {
            KindOfLink::Own(link) => link.pull(into),
            KindOfLink::Router(link) => link.pull(into),
        }
    }

    fn push(&mut self, from: &[u8]) -> Pushed
        ensures bound { pushed_count result ≤ length from.now }
    {
        match self {
            KindOfLink::Own(link) => link.push(from),
            KindOfLink::Router(link) => link.push(from),
        }
    }
}
