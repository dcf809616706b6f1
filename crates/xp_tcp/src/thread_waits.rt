//! What a thread waits on, and how it is woken.

use crate::tokens::WAKER;
use mio::{Poll, Registry, Waker};
use std::io;
use std::net::Net;

/// What a thread waits on, as it is opened.
#[derive(Drop)]
pub(crate) struct ThreadWaits {
    pub(crate) poll: Poll,
    /// The same once more, for others.
    pub(crate) registry: Registry,
    /// Wakes the thread.
    pub(crate) waker: Waker,
}

impl ThreadWaits {
    /// It waits for no socket yet.
    pub(crate) fn open<R: Net>(rt: &R) -> io::Result<ThreadWaits> {
        let poll = Poll::new(rt)?;
        let registry = poll.registry().try_clone()?;
        let waker = Waker::new(poll.registry(), WAKER)?;
        Ok(ThreadWaits {
            poll,
            registry,
            waker,
        })
    }
}
