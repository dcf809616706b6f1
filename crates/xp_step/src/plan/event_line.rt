//! The line of an event, with the call that it is in and what was counted of it.

ghost use Rattle.std.specs.Prelude.{◌≡◌, ℕ, List, Some, option_to_list};
ghost use Rattle.xp_answer.specs.ForwardedClear.{IsInRange};
ghost use Rattle.xp_step.specs.Effects.{leaves};
ghost use Rattle.xp_step.specs.declared.entry.Entry.{Entry as Entered};
ghost use Rattle.xp_step.specs.EventLine.{IsMeteredCall, IsEventLine, IsShort, event_line_context};
ghost use Rattle.xp_machine.specs.StoredState.{call_of_stored, no_call_state_of};
ghost use Rattle.xp_step.specs.Plan.{IsWithdrawal};
ghost use Rattle.xp_step.specs.Relays.{RelaysRepresentCalls, counted_by};
ghost use Rattle.xp_step.specs.StepContext.{step_context};
ghost use Rattle.xp_step.specs.EventOutputs.{clear_far, clear_own, confirm_own, far_information, own_information};
ghost use Rattle.xp_machine.specs.World.{call_numbered, call_on};
ghost use Rattle.xp_subs.specs.Sound.{IsSound};

use super::send::{send, send_far};
use crate::entry::Entry;
use crate::output::Output;
use std::alloc::Allocator;
use xp_answer::{clear_confirmation, clear_indication};
use xp_charge::{Meter, Record};
use xp_facilities::ChargingInformation;
use xp_machine::{Change, LiveCall, Machine, NoCallState, Relays};
use xp_past::Past;
use xp_subs::{LineNo, Subs};

/// A live call, with what was counted of it so far.
#[derive(Clone, Copy)]
pub struct MeteredCall<'a> {
    /// The call.
    pub call: &'a LiveCall,
    /// What was counted of it so far.
    pub meter: Meter,
}

/// The line of an event, its moment, and the call that the line is in, if it is in one.
#[derive(Drop)]
pub struct EventLine<'a, A: Allocator> {
    /// The subscriptions with which the exchange was opened.
    pub subs: &'a Subs,
    /// The subscriptions in force.
    pub in_force: &'a Subs,
    /// The state before the event.
    pub machine: &'a Machine<A>,
    /// The line of the event.
    pub line: LineNo,
    /// The moment of the event, in seconds.
    pub moment: u64,
    /// The call that the line is in, if it is in one.
    pub charged: Option<MeteredCall<'a>>,
}

/// The change by which a line leaves the call that it is in, if it is in one, and the record of that call.
#[derive(Drop)]
pub struct Withdrawal {
    /// The change.
    pub change: Change,
    /// The record of the call, if the line is in one.
    pub charged: Option<Record>,
}

/// Returns the call that a line is in, with what was counted of it, if the line is in one.
pub fn charged_on<'a, A: Allocator>(
    subs: &Subs,
    machine: &'a Machine<A>,
    relays: &Relays<A>,
    _before: &Past<Entry<A>>,
    line: LineNo,
) -> Option<MeteredCall<'a>>
    requires sound { IsSound subs.now }
    requires carried { RelaysRepresentCalls subs.now _before.now.items machine.now relays.now }
    ensures charged { (moment : ℕ) → IsMeteredCall (step_context subs.now _before.now.items machine.now line moment) result }
    ensures short { IsShort result }
{
    let call = machine.call_on(line)?;
    let meter = meter_of(subs, machine, relays, _before, call);
    Some(MeteredCall { call, meter })
}

/// Returns what was counted of a live call. Nothing is counted before it is connected.
fn meter_of<A: Allocator>(
    subs: &Subs,
    _machine: &Machine<A>,
    relays: &Relays<A>,
    _before: &Past<Entry<A>>,
    call: &LiveCall,
) -> Meter
    requires { RelaysRepresentCalls subs.now _before.now.items _machine.now relays.now }
    ensures { call_numbered _machine.now call.now.number ≡ Some (call_of_stored call.now)
        → result ≡ counted_by subs.now _before.now.items call.now.number (call_of_stored call.now) call.now.agreed }
{
    let limit = subs.segment_limit();
    if call.agreed.is_none() {
        return Meter::new(limit);
    }
    match relays.under(call.caller) {
        None => Meter::new(limit),
        Some(metered) => metered.meter,
    }
}

impl<A: Allocator> EventLine<'_, A> {
    /// Returns what the line is told of the duration and the segments of its call as the call ends.
    fn own_information(&self) -> Option<ChargingInformation>
        requires { IsShort self.now.charged }
        ensures told { (before : List (Entered A)) → IsEventLine self.now before → result ≡ own_information (event_line_context self.now before) (call_on self.now.machine.now self.now.line) }
        ensures range { IsInRange result }
    {
        match self.charged {
            None => None,
            Some(MeteredCall { call, meter }) => call.information(
                meter,
                self.moment,
                call.end_of(self.line),
            ),
        }
    }

    /// Returns what the far end of its call is told of them.
    pub(crate) fn far_information(&self) -> Option<ChargingInformation>
        requires { IsShort self.now.charged }
        ensures told { (before : List (Entered A)) → IsEventLine self.now before → result ≡ far_information (event_line_context self.now before) (call_on self.now.machine.now self.now.line) }
        ensures range { IsInRange result }
    {
        match self.charged {
            None => None,
            Some(MeteredCall { call, meter }) => call.information(
                meter,
                self.moment,
                call.end_beyond(self.line),
            ),
        }
    }

    /// Returns how the line leaves the call that it is in, if it is in one. That call ends with this cause and
    /// diagnostic.
    pub fn withdraw(&self, way: NoCallState, cause: u8, diagnostic: u8) -> Withdrawal
        ensures { (before : List (Entered A)) → IsEventLine self.now before → IsWithdrawal result (event_line_context self.now before) (leaves self.now.line (no_call_state_of way) cause diagnostic (call_on self.now.machine.now self.now.line)) }
    {
        let line = self.line;
        let charged = match self.charged {
            None => None,
            Some(MeteredCall { call, meter }) => Some(call.record(
                meter,
                self.moment,
                cause,
                diagnostic,
            )),
        };
        Withdrawal {
            change: Change::Leave { line, way },
            charged,
        }
    }
}

impl<A: Allocator + Copy> EventLine<'_, A> {
    /// Returns the output that clears the line.
    pub(crate) fn clear_own(&self, alloc: A, cause: u8, diagnostic: u8) -> Output<A>
        requires { IsShort self.now.charged }
        ensures { (before : List (Entered A)) → IsEventLine self.now before → result ≡ clear_own (event_line_context self.now before) (call_on self.now.machine.now self.now.line) cause diagnostic }
    {
        let indication = clear_indication(alloc, cause, diagnostic, self.own_information());
        send(self.machine, self.line, indication)
    }

    /// Returns the output that clears the far end of the line's call, if the line is in one.
    pub fn clear_far(&self, alloc: A, cause: u8, diagnostic: u8) -> Option<Output<A>>
        requires { IsShort self.now.charged }
        ensures { (before : List (Entered A)) → IsEventLine self.now before → option_to_list result ≡ clear_far (event_line_context self.now before) (call_on self.now.machine.now self.now.line) cause diagnostic }
    {
        let indication = clear_indication(alloc, cause, diagnostic, self.far_information());
        send_far(self.machine, self.line, indication)
    }

    /// Returns the output that confirms a clear request of the line.
    pub(crate) fn confirm_own(&self, alloc: A) -> Output<A>
        requires { IsShort self.now.charged }
        ensures { (before : List (Entered A)) → IsEventLine self.now before → result ≡ confirm_own (event_line_context self.now before) (call_on self.now.machine.now self.now.line) }
    {
        let confirmation = clear_confirmation(alloc, self.own_information());
        send(self.machine, self.line, confirmation)
    }
}
