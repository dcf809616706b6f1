//! The port of a line's own.

ghost use Rattle.std.specs.Net.Socket.{socket_ip};
ghost use Rattle.std.specs.Prelude.{◌≡◌, [], IfErr, IfOk};
ghost use Rattle.xp_tcp.specs.Admissions.{Admits};
ghost use Rattle.xp_tcp.specs.steps.Taking.{IsReason};

use crate::admission::Admission;
use mio::net::TcpListener;
use mio::{Interest, Registry, Token};
use std::io;
use std::io::ErrorKind;
use std::net::SocketAddr;
use xp_door::Arrival;

/// Why no connection was taken.
#[derive(Drop)]
pub(crate) enum NotTaken {
    /// One has come from this peer, and may not. It is closed.
    Stranger(SocketAddr),
    /// The system has told this error.
    Failed(io::Error),
    /// No socket listens.
    NoSocket,
}

/// A connection that has come to a line's own port.
#[derive(Drop)]
pub(crate) struct OwnArrival {
    pub(crate) arrival: Arrival,
    /// The period of the place in which it came.
    pub(crate) period: u64,
}

/// What becomes of a connection that comes while the line has one.
#[derive(Clone, Copy)]
pub(crate) enum Met {
    /// It takes the place of the line's.
    Next,
    /// It is closed: the line has one, whose place any other might take.
    Refused,
    /// It is closed: the port changes, or has changed.
    Gone,
}

/// The socket that listens at a line's own port, if it has one, and from where its connections may come.
#[derive(Drop)]
pub(crate) struct OwnPort {
    listener: Option<TcpListener>,
    port: u16,
    admission: Admission,
    /// The period of the place in which the line has this port.
    period: u64,
}

impl OwnPort {
    /// A socket that listens at this port, for connections from these sources, in this period of the place.
    pub(crate) fn new(
        listener: TcpListener,
        port: u16,
        admission: Admission,
        period: u64,
    ) -> OwnPort
        ensures port { result.port ≡ port }
        ensures admission { result.admission ≡ admission }
    {
        OwnPort {
            listener: Some(listener),
            port,
            admission,
            period,
        }
    }

    /// No port.
    pub(crate) fn none() -> OwnPort
        ensures { result.admission ≡ [] }
    {
        OwnPort {
            listener: None,
            port: 0,
            admission: Admission::any(),
            period: 0,
        }
    }

    /// Takes a connection that has come. One from an address that is not admitted is closed.
    pub(crate) fn accept(&self) -> Result<OwnArrival, NotTaken>
        ensures admitted { IfOk result (λ own. Admits self.now.admission (socket_ip own.arrival.peer)) }
        ensures reason { IfErr result (IsReason self.now.admission) }
    {
        let Some(listener) = &self.listener else {
            return Err(NotTaken::NoSocket);
        };
        match listener.accept() {
            Ok((stream, peer)) => {
                if !self.admission.admits(peer.ip()) {
                    return Err(NotTaken::Stranger(peer));
                }
                Ok(OwnArrival {
                    arrival: Arrival { stream, peer },
                    period: self.period,
                })
            }
            Err(error) => Err(NotTaken::Failed(error)),
        }
    }

    /// What becomes of a connection that has come while the line has one: it takes that one's place where the line's addresses are named.
    /// One that has not come in the period in which the line has this port is closed.
    pub(crate) fn meets(&self, own: &OwnArrival) -> Met {
        if self.listener.is_none() || self.period != own.period {
            Met::Gone
        } else if self.admission.is_any() {
            Met::Refused
        } else {
            Met::Next
        }
    }

    /// From where connections may come that come from now on.
    pub(crate) fn set_admission(&mut self, admission: Admission)
        ensures { self.new.admission ≡ admission }
    {
        self.admission = admission;
    }

    /// The port at which its socket listens.
    pub(crate) fn port(&self) -> Option<u16> {
        match &self.listener {
            Some(_) => Some(self.port),
            None => None,
        }
    }

    /// The socket. From now on there is none.
    pub(crate) fn take_listener(&mut self) -> Option<TcpListener>
        ensures { self.new.admission ≡ self.old.admission }
    {
        self.listener.take()
    }

    /// Lets another thread wait for the socket too, by this name.
    pub(crate) fn register_at(&mut self, waits: &Registry, name: Token) -> io::Result<()>
        ensures { self.new.admission ≡ self.old.admission }
    {
        let Some(listener) = &mut self.listener else {
            return Err(io::Error::from(ErrorKind::NotFound));
        };
        match waits.register(listener, name, Interest::READABLE) {
            Err(error) if error.kind() == ErrorKind::AlreadyExists => {
                waits.reregister(listener, name, Interest::READABLE)
            }
            registered => registered,
        }
    }

    /// That thread does not wait for it any more.
    pub(crate) fn deregister_at(&mut self, waits: &Registry)
        ensures { self.new.admission ≡ self.old.admission }
    {
        if let Some(listener) = &mut self.listener {
            // It fails only where the thread did not wait for it.
            let _ = waits.deregister(listener);
        }
    }
}
