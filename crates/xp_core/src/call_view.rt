//! What can be seen of a live call.

ghost use Rattle.std.specs.Prelude.{◌≡◌, option_map};
ghost use Rattle.xp_core.specs.View.{call_seen_on};
ghost use Rattle.xp_step.specs.declared.entry.Entry.{Entry as Entered};
ghost use Rattle.xp_step.specs.Relays.{RelaysRepresentCalls};
ghost use Rattle.xp_subs.specs.Sound.{IsSound};

use std::alloc::Allocator;
use xp_machine::{LiveCall, Machine, Relays};
use xp_packets::{Digits, End};
use xp_past::Past;
use xp_step::{Entry, MeteredCall, charged_on};
use xp_subs::{LineNo, Subs};

/// What can be seen of a live call: who is in it and who pays, since when, and what it carried so far.
#[derive(Drop)]
pub struct CallView {
    /// The call's number, from 1.
    pub number: u64,
    /// The line that asked for the call.
    pub caller: LineNo,
    /// The line that the call was put to.
    pub called: LineNo,
    /// The called address, as the caller gave it.
    pub dialled: Digits,
    /// The end that pays.
    pub payer: End,
    /// The moment of its call request, in seconds.
    pub requested: u64,
    /// The moment of its answer, in seconds. It is None until the call is accepted.
    pub connected: Option<u64>,
    /// The segments of the data that was accepted from the caller so far.
    pub from_caller: u32,
    /// The segments of the data that was accepted from the called line so far.
    pub from_called: u32,
}

/// Returns what can be seen of the call that a line is in, if it is in one.
pub fn see_call<A: Allocator>(
    subs: &Subs,
    machine: &Machine<A>,
    relays: &Relays<A>,
    before: &Past<Entry<A>>,
    line: LineNo,
) -> Option<CallView>
    requires sound { IsSound subs.now }
    requires carried { RelaysRepresentCalls subs.now before.now.items machine.now relays.now }
    ensures { result ≡ call_seen_on subs.now before.now.items machine.now line }
{
    let Some(MeteredCall { call, meter }) = charged_on(subs, machine, relays, before, line) else {
        return None;
    };
    let (from_called, from_caller) = meter.counts_for(End::Caller);
    Some(CallView {
        number: call.number,
        caller: call.caller,
        called: call.called,
        dialled: call.dialled.copy(),
        payer: call.setup.payer,
        requested: call.requested,
        connected: connected_at(call),
        from_caller,
        from_called,
    })
}

/// Returns the moment at which a call was connected, if it was.
fn connected_at(call: &LiveCall) -> Option<u64>
    ensures { result ≡ option_map (λ agreement. agreement.connected) call.now.agreed }
{
    call.agreed.map(|agreement| agreement.connected)
}
