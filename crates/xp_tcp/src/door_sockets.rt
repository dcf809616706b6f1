//! What the door is made of, before its lines are known.

use crate::line_sockets::listen_at;
use crate::sockets::ListenFault;
use crate::thread_waits::ThreadWaits;
use crate::tokens::listener_of;
use mio::net::TcpListener;
use mio::{Events, Poll, Registry};
use std::alloc::Global;
use std::io;
use std::net::{Net, SocketAddr};
use std::sync::Arc;
use xp_door::{DoorBell, DoorWaits, Doorway, Marks, Routes};
use xp_subs::MOST_LINES;

/// How many events a wait of the door takes.
const MOST_EVENTS: usize = 3;

/// What the door's thread waits on.
pub(crate) struct DoorSockets {
    pub(crate) poll: Poll,
    /// The same once more, for others.
    pub(crate) waits: Registry,
    pub(crate) events: Events,
    pub(crate) bell: Arc<DoorBell>,
    /// The socket that listens for all routers, if one does.
    pub(crate) listener: Option<TcpListener>,
}

impl Drop for DoorSockets {
    fn drop(self) {
        let DoorSockets {
            poll: _,
            waits: _,
            events: _,
            bell: _,
            listener: _,
        } = self;
    }
}

impl DoorSockets {
    /// A door that does not listen.
    pub(crate) fn new<R: Net>(rt: &R, alloc: Global) -> Result<DoorSockets, ListenFault> {
        let events = Events::with_capacity(alloc, MOST_EVENTS)?;
        let wanted = Marks::new(alloc, MOST_LINES)?;
        let ThreadWaits {
            poll,
            registry,
            waker,
        } = ThreadWaits::open(rt)?;
        let bell = Arc::new(alloc, DoorBell::new(waker, wanted))?;
        Ok(DoorSockets {
            poll,
            waits: registry,
            events,
            bell,
            listener: None,
        })
    }

    /// What the door's thread waits on, and the doorway to these lines.
    pub(crate) fn into_doorway(self, routes: Routes) -> (DoorWaits, Doorway) {
        let DoorSockets {
            poll,
            waits,
            events,
            bell,
            listener,
        } = self;
        let doorway = Doorway::new(bell, waits, listener, routes);
        (DoorWaits { poll, events }, doorway)
    }
}

/// A socket that listens at this address for all routers, and for which the door's thread waits.
pub(crate) fn listen_for_routers<R: Net>(
    rt: &R,
    waits: &Registry,
    at: SocketAddr,
) -> io::Result<TcpListener> {
    let (listener, _port) = listen_at(rt, waits, at, listener_of(0))?;
    Ok(listener)
}
