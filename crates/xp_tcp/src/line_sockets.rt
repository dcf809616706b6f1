//! Where the connections of one line come from, as it is added.

ghost use Rattle.std.specs.Prelude.{◌≡◌, ◌<◌, IfOk};
ghost use Rattle.std.specs.Net.Socket.{socket_port};
ghost use Rattle.xp_tcp.specs.Accesses.{access_of};
ghost use Rattle.xp_tcp.specs.steps.Sources.{IsListening, IsParted, source_origin};

use crate::access::Access;
use crate::admission::Admission;
use crate::own_port::OwnPort;
use crate::period::FIRST_PERIOD;
use crate::thread_links::ThreadLinks;
use crate::tokens::listener_of;
use mio::net::TcpListener;
use mio::{Interest, Registry, Token};
use std::io;
use std::marker::Model;
use std::net::{Net, SocketAddr};
use std::sync::Arc;
use xp_door::Caller;
use xp_subs::LineNo;

/// Where the connections of one line are to come from.
pub(crate) enum LineSource {
    /// A socket that listens on a port of the line's own, and from where its connections may come.
    Own(u16, TcpListener, Admission),
    /// The router of this address, whose calls are matched with this.
    Router(SocketAddr, Caller),
    /// Nowhere: the place is spare.
    Spare,
}

impl Drop for LineSource {
    fn drop(self) {
        match self {
            LineSource::Own(_, _, _) | LineSource::Router(_, _) | LineSource::Spare => {}
        }
    }
}

impl LineSource {
    /// The port of a line's own, if it has one, and its router, if it is behind one.
    pub(crate) fn into_parts(self) -> (OwnPort, Option<(SocketAddr, Caller)>)
        ensures { IsParted self result.0 result.1 }
    {
        match self {
            LineSource::Own(port, listener, admission) => {
                (OwnPort::new(listener, port, admission, FIRST_PERIOD), None)
            }
            LineSource::Router(router, caller) => (OwnPort::none(), Some((router, caller))),
            LineSource::Spare => (OwnPort::none(), None),
        }
    }
}

/// A line, and where its connections come from, which is all that contracts see of it.
#[derive(Drop)]
pub(crate) struct LineSockets {
    pub(crate) line: LineNo,
    pub(crate) source: LineSource,
    pub(crate) links: Arc<ThreadLinks>,
    /// The number of the line's thread.
    pub(crate) thread: usize,
}

impl Model for LineSockets {
    ghost use Rattle.xp_tcp.specs.Accesses.{Origin};
    ghost use Rattle.xp_tcp.specs.steps.Sources.{source_origin};

    ghost Value = { Origin };

    ghost view = { λ line. source_origin line.source };
}

impl LineSockets {
    /// Where the line's connections come from.
    pub(crate) fn access(&self) -> Access
        ensures { result ≡ access_of self.now }
    {
        match &self.source {
            LineSource::Own(port, _, _) => Access::Port(*port),
            LineSource::Router(router, _) => Access::Router(*router),
            LineSource::Spare => Access::Spare,
        }
    }
}

/// Listens at an address for a line: the socket, for which the line's thread waits. At port 0 the system picks one.
pub(crate) fn open_port<R: Net>(
    rt: &R,
    waits: &Registry,
    address: SocketAddr,
    line: LineNo,
    admission: Admission,
) -> io::Result<LineSource>
    ensures { IfOk result (λ source. IsListening (socket_port address) admission (source_origin source)) }
{
    let (listener, port) = listen_at(rt, waits, address, listener_of(line))?;
    Ok(LineSource::Own(port, listener, admission))
}

/// Listens at an address: the socket, for which a thread waits, and its port. At port 0 the system picks one.
pub(crate) fn listen_at<R: Net>(
    rt: &R,
    waits: &Registry,
    address: SocketAddr,
    token: Token,
) -> io::Result<(TcpListener, u16)>
    ensures { IfOk result (λ listens. 0 < socket_port address → listens.1 ≡ socket_port address) }
{
    let mut listener = TcpListener::bind(rt, address)?;
    let port = match address.port() {
        0 => listener.local_addr()?.port(),
        port => port,
    };
    waits.register(&mut listener, token, Interest::READABLE)?;
    Ok((listener, port))
}
