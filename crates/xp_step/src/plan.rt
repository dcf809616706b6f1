//! What an event will do. A plan is made before anything changes.
//!
//! The hints on inlining are for speed alone. A function clears its frame as it begins, so the longer branches are kept
//! out of their caller. The steps that make a plan would move it whole, so they are made part of their caller.

mod answer;
mod clearing;
mod event;
mod event_line;
mod received_packets;
mod relaying;
mod request;
mod send;

ghost use Rattle.std.specs.Prelude.{◌≡◌, [], None, Some};

use crate::outcome::Outcome;
use crate::output::Buffer;
use crate::records::Records;
pub use event::plan_of;
pub use event_line::{EventLine, MeteredCall, Withdrawal, charged_on};
pub use send::close;
use std::alloc::{Allocator, Global};
use xp_machine::{Change, RelayUpdate};
use xp_subs::LineNo;

/// What an event settles, puts out, changes and records.
#[derive(Drop)]
pub struct Plan<A: Allocator = Global> {
    /// What it settles that the table of actions leaves open.
    pub outcome: Outcome,
    /// What it puts out.
    pub outputs: Buffer<A>,
    /// The line whose call a collision cancels before the change, if there is one.
    pub cancelled: Option<LineNo>,
    /// The change of the state, if there is one.
    pub change: Option<Change>,
    /// The records of the calls that it ends or refuses.
    pub records: Records<A>,
    /// The relay that a call has from now on, if it gets another.
    pub relay_update: Option<RelayUpdate<A>>,
}

impl<A: Allocator + Copy> Plan<A> {
    /// Returns the plan to do nothing. It allocates nothing.
    #[inline(always)]
    pub(crate) fn none(alloc: A) -> Plan<A>
        ensures outcome { result.outcome ≡ Outcome.Plain }
        ensures outputs { result.outputs.outputs ≡ [] }
        ensures cancelled { result.cancelled ≡ None }
        ensures change { result.change ≡ None }
        ensures records { result.records.items ≡ [] }
        ensures relay_update { result.relay_update ≡ None }
    {
        Plan::of(Buffer::none(alloc), Records::none(alloc))
    }
}

impl<A: Allocator> Plan<A> {
    /// Returns the plan of these outputs and records alone.
    #[inline(always)]
    pub(crate) fn of(outputs: Buffer<A>, records: Records<A>) -> Plan<A>
        ensures outcome { result.outcome ≡ Outcome.Plain }
        ensures outputs { result.outputs ≡ outputs }
        ensures cancelled { result.cancelled ≡ None }
        ensures change { result.change ≡ None }
        ensures records { result.records ≡ records }
        ensures relay_update { result.relay_update ≡ None }
    {
        Plan {
            outcome: Outcome::Plain,
            outputs,
            cancelled: None,
            change: None,
            records,
            relay_update: None,
        }
    }

    /// Returns the plan with this outcome.
    #[inline(always)]
    pub(crate) fn settling(self, outcome: Outcome) -> Plan<A>
        ensures { result ≡ record self { outcome = outcome } }
    {
        Plan { outcome, ..self }
    }

    /// Returns the plan with a line whose call is cancelled, if one is given.
    #[inline(always)]
    pub(crate) fn cancelling(self, cancelled: Option<LineNo>) -> Plan<A>
        ensures { result ≡ record self { cancelled = cancelled } }
    {
        Plan { cancelled, ..self }
    }

    /// Returns the plan with this change.
    #[inline(always)]
    pub(crate) fn changing(self, change: Change) -> Plan<A>
        ensures { result ≡ record self { change = Some change } }
    {
        Plan {
            change: Some(change),
            ..self
        }
    }

    /// Returns the plan with this relay of a call.
    #[inline(always)]
    pub(crate) fn carrying(self, relay_update: RelayUpdate<A>) -> Plan<A>
        ensures { result ≡ record self { relay_update = Some relay_update } }
    {
        Plan {
            relay_update: Some(relay_update),
            ..self
        }
    }
}
