//! What the door shares with whoever changes its port and the lines behind routers.

use crate::door_bell::DoorBell;
use crate::locks::hold;
use crate::routes::Routes;
use mio::Registry;
use mio::net::{TcpListener, TcpStream};
use std::io;
use std::net::SocketAddr;
use std::sync::{Arc, Mutex, MutexGuard, Wait};

/// The port of the door, and the lines to which it gives connections. Both change while lines are served, under their locks, which
/// are held for moments.
#[derive(Drop)]
pub struct Doorway {
    pub bell: Arc<DoorBell>,
    /// For what the door's thread waits.
    pub waits: Registry,
    /// The socket that listens for all routers. There is none where no line is behind one.
    listener: Mutex<Option<TcpListener>>,
    routes: Mutex<Routes>,
}

impl Doorway {
    /// The doorway to these lines, with a socket that listens, if there is one.
    pub fn new(
        bell: Arc<DoorBell>,
        waits: Registry,
        listener: Option<TcpListener>,
        routes: Routes,
    ) -> Doorway {
        Doorway {
            bell,
            waits,
            listener: Mutex::new(listener),
            routes: Mutex::new(routes),
        }
    }

    /// Whether a socket listens.
    pub fn is_open<R: Wait>(&self, rt: &R) -> bool {
        self.listener.lock(rt).is_some()
    }

    /// From now on this socket listens, and has been registered with the door's thread; or none does.
    pub fn set_listener<R: Wait>(&self, rt: &R, listener: Option<TcpListener>) {
        *self.listener.lock(rt) = listener;
        self.bell.ring();
    }

    /// The lines behind routers. While they are looked at or changed the door gives no connection to a line.
    pub fn routes<R: Wait>(&self, rt: &R) -> MutexGuard<'_, Routes> {
        self.routes.lock(rt)
    }

    /// Takes a connection that has come. `None` where no socket listens.
    pub(crate) fn accept<R: Wait>(&self, rt: &R) -> Option<io::Result<(TcpStream, SocketAddr)>> {
        match &*self.listener.lock(rt) {
            Some(listener) => Some(listener.accept()),
            None => None,
        }
    }

    /// The door's thread has ended: no socket listens any more.
    pub(crate) fn close(&self) {
        if let Some(mut listener) = hold(&self.listener) {
            *listener = None;
        }
    }
}
