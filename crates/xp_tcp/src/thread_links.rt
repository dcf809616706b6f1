//! What the links of a thread share.

use crate::leaving::Leaving;
use mio::Registry;
use mio::net::TcpStream;
use std::alloc::Global;
use std::sync::Mutex;
use xp_door::hold;

/// For what a thread that serves lines waits, and the connections that the links of its lines have let go.
#[derive(Drop)]
pub(crate) struct ThreadLinks {
    pub(crate) waits: Registry,
    leaving: Mutex<Leaving>,
}

impl ThreadLinks {
    pub(crate) fn new(alloc: Global, waits: Registry) -> ThreadLinks {
        ThreadLinks {
            waits,
            leaving: Mutex::new(Leaving::new(alloc)),
        }
    }

    /// Lets a connection go, after what was written to it has gone out.
    pub(crate) fn let_go(&self, stream: TcpStream) {
        if let Some(mut leaving) = hold(&self.leaving) {
            leaving.add(stream);
        }
    }

    /// Looks at the connections that were let go. Returns whether one is left.
    pub(crate) fn look_at_leaving(&self) -> bool {
        match hold(&self.leaving) {
            Some(mut leaving) => leaving.look(),
            None => false,
        }
    }
}
