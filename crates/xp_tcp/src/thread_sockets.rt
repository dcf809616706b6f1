//! What a thread waits on, as lines are added to it.

use crate::poller::{OwnLines, TcpPoller};
use crate::round::Round;
use crate::sockets::ListenFault;
use crate::thread_links::ThreadLinks;
use crate::thread_waits::ThreadWaits;
use crate::tokens::MOST_SOCKETS;
use mio::{Events, Poll};
use std::alloc::Global;
use std::net::Net;
use std::sync::Arc;
use xp_door::{LineWaker, Marks, ThreadWaker};

/// What a thread that serves lines waits on.
pub(crate) struct ThreadSockets {
    pub(crate) poll: Poll,
    /// Room for what the thread is woken by.
    pub(crate) events: Events,
    pub(crate) waker: Arc<ThreadWaker>,
    pub(crate) links: Arc<ThreadLinks>,
    pub(crate) round: Round,
    /// How many lines it serves.
    pub(crate) count: usize,
}

impl Drop for ThreadSockets {
    fn drop(self) {
        let ThreadSockets {
            poll: _,
            events: _,
            waker: _,
            links: _,
            round: _,
            count: _,
        } = self;
    }
}

impl ThreadSockets {
    /// What a thread waits on that is to serve so many lines. It serves none yet.
    pub(crate) fn open<R: Net>(
        rt: &R,
        alloc: Global,
        lines: usize,
    ) -> Result<ThreadSockets, ListenFault> {
        let events = Events::with_capacity(
            alloc,
            MOST_SOCKETS.min(lines.saturating_mul(2)).max(2),
        )?;
        let round = Round::new(alloc, lines)?;
        let due = Marks::new(alloc, lines)?;
        let ThreadWaits {
            poll,
            registry,
            waker,
        } = ThreadWaits::open(rt)?;
        let waker = Arc::new(alloc, ThreadWaker::new(waker, due))?;
        let links = Arc::new(alloc, ThreadLinks::new(alloc, registry))?;
        Ok(ThreadSockets {
            poll,
            events,
            waker,
            links,
            round,
            count: 0,
        })
    }

    /// What the thread does between the turns of its lines, of which this is the first.
    pub(crate) fn into_poller(self, wakers: Arc<Vec<LineWaker>>, first: usize) -> TcpPoller {
        let ThreadSockets {
            poll,
            events,
            waker,
            links,
            round,
            count,
        } = self;
        let own = OwnLines {
            wakers,
            first,
            count,
        };
        TcpPoller::new(poll, events, waker, links, own, round)
    }
}
