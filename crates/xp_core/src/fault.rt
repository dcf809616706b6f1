use std::alloc::{Allocator, Global};
use thiserror::Error;
use xp_step::Event;

/// Why an event made no entry. The event comes back, and nothing has changed.
#[derive(Debug, Drop, Error)]
pub enum StepFault<A: Allocator = Global> {
    #[error("the journal is full")]
    JournalFull(Event<A>),
    #[error("out of memory")]
    Memory(Event<A>),
}
