//! Why an event is refused, and why an exchange is not closed.

use crate::exchange::Exchange;
use crate::pass::LinePass;
use std::alloc::{Allocator, Global};
use thiserror::Error;
use xp_core::ReloadFault;
use xp_seats::{Name, Recorder};
use xp_step::Event;
use xp_subs::LineNo;

/// Why an event was refused. The fault gives the event back.
#[derive(Debug, Drop, Error)]
pub enum OfferFault<A: Allocator = Global> {
    /// The exchange was halted.
    #[error("the exchange is halted")]
    Halted(Event<A>),
    /// Fewer than four places of the history are left.
    #[error("the journal is full")]
    JournalFull(Event<A>),
    /// The event is an Up, and the outbox of its line has fewer than 24 free places.
    #[error("the line's outbox has too little room")]
    NoRoom(Event<A>),
    /// An allocation failed.
    #[error("out of memory")]
    Memory(Event<A>),
}

/// Why other subscriptions did not come into force.
#[derive(Clone, Copy, Debug, PartialEq, Eq, Error)]
pub enum ReloadRefusal {
    /// The exchange was halted.
    #[error("the exchange is halted")]
    Halted,
    /// They cannot come into force now.
    #[error("{0}")]
    Refused(ReloadFault),
    /// An allocation failed.
    #[error("out of memory")]
    Memory,
}

/// Why an exchange was not closed: the pass of a line is not here. The fault gives the exchange, the passes and the recorder back.
#[derive(Drop)]
pub struct CloseFault<N: Name, A: Allocator = Global> {
    /// The lowest line whose pass is not here.
    pub line: LineNo,
    /// The exchange, which is still open.
    pub exchange: Exchange<N, A>,
    /// The passes that were here.
    pub passes: Vec<LinePass<N, A>, A>,
    /// The recorder.
    pub recorder: Recorder<N, A>,
}
