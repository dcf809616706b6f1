//! The live calls as the machine keeps them, with their lines: a call begins, is accepted, and ends.

ghost use Rattle.std.specs.Prelude.{◌≡◌, Some, None};
ghost use Rattle.slab.specs.Slab.{ContainsKey, HasRoomFor, Updates, get};
ghost use Rattle.xp_machine.specs.steps.StoredState.{IsAccepted, IsEnded, lines_put};

use super::lines::{channel, set_line};
use crate::agreement::Agreement;
use crate::call::{CallKey, LiveCall};
use crate::channel::{ChannelState, LogicalChannel};
use slab::Slab;
use std::alloc::Allocator;
use xp_subs::LineNo;

/// Stores a call under a free key, and gives the key to its two lines.
pub fn put_call<A: Allocator>(
    lines: &mut Vec<LogicalChannel, A>,
    calls: &mut Slab<LiveCall, A>,
    identifier: u16,
    call: LiveCall,
)
    requires room { HasRoomFor calls.old 1 }
    ensures lines { lines.new.items ≡ lines_put lines.old.items identifier call calls.old.vacant_key }
    ensures calls { Updates calls.old calls.new calls.old.vacant_key (Some call) }
    ensures free { get calls.old calls.old.vacant_key ≡ None }
{
    let (caller, called) = (call.caller, call.called);
    let number = call.number;
    let key = calls.insert_reserved(call);
    let both = CallKey { number, key };
    let waits = channel(lines, caller).moved_as(identifier, ChannelState::Waiting(both));
    let rings = channel(lines, called).moved_as(
        LogicalChannel::INITIAL_IDENTIFIER,
        ChannelState::Ringing(both),
    );
    set_line(lines, caller, waits);
    set_line(lines, called, rings);
}

/// Accepts the call under this key: both its lines come to data transfer.
pub fn accept_call<A: Allocator>(
    lines: &mut Vec<LogicalChannel, A>,
    calls: &mut Slab<LiveCall, A>,
    key: usize,
    agreement: Agreement,
)
    requires { ContainsKey calls.old key }
    ensures { IsAccepted lines.old.items calls.old key agreement lines.new.items calls.new }
{
    let call = &mut calls[key];
    call.agreed = Some(agreement);
    let talking = ChannelState::Talking(CallKey {
        number: call.number,
        key,
    });
    let (caller, called) = (call.caller, call.called);
    let near = channel(lines, called).moved(talking);
    let far = channel(lines, caller).moved(talking);
    set_line(lines, called, near);
    set_line(lines, caller, far);
}

/// Ends the call under this key. The given line of it comes to `state`, and its other line is cleared.
pub fn end_call<A: Allocator>(
    lines: &mut Vec<LogicalChannel, A>,
    calls: &mut Slab<LiveCall, A>,
    key: usize,
    line: LineNo,
    state: ChannelState,
)
    requires { ContainsKey calls.old key }
    ensures { IsEnded lines.old.items calls.old key line state lines.new.items calls.new }
{
    let far = calls.remove(key).far_end(line);
    let cleared = channel(lines, far).moved(ChannelState::Cleared);
    let becomes = channel(lines, line).moved(state);
    set_line(lines, far, cleared);
    set_line(lines, line, becomes);
}
