use crate::event::Event;
use crate::outcome::Outcome;
use crate::output::Outputs;
use crate::records::Records;
use std::alloc::{Allocator, Global};
use xp_past::Past;
use xp_subs::Subs;

/// One entry of the history: an event, and what it did.
#[derive(Drop)]
pub struct Entry<A: Allocator = Global> {
    /// The entry's number, from 1.
    pub number: u64,
    /// The event.
    pub event: Event<A>,
    /// What the event settled.
    pub outcome: Outcome,
    /// What the event puts out, in order.
    pub outputs: Outputs<A>,
    /// The records of the calls that the event ended or refused.
    pub records: Records<A>,
    /// The subscriptions that are in force from this entry on, if it is a reload. Proofs alone read them.
    pub tables: Past<Subs>,
}
