//! The changes of the lines and of the live calls.

ghost use Rattle.std.specs.Prelude.{ℕ, ◌≡◌, ◌+◌, ◌<◌, ◌≤◌, ◌^◌, None, Some, slice_set};
ghost use Rattle.slab.specs.Slab.{HasRoomFor};
ghost use Rattle.xp_machine.specs.steps.StoredState.{AreKeyed, channel_at, places_for, risen, turned_down};
ghost use Rattle.xp_machine.specs.StoredState.{key_of, state_of, no_call_state_of, stored_world};
ghost use Rattle.xp_machine.specs.AppliedChange.{applied, applied_if_any, freed_if_any};
ghost use Rattle.xp_machine.specs.World.{call_numbered, line_at};

use super::calls::{accept_call, end_call, put_call};
use super::lines::{channel, set_line};
use crate::agreement::Agreement;
use crate::call::LiveCall;
use crate::change::{Change, NoCallState};
use crate::channel::{ChannelState, LogicalChannel};
use slab::Slab;
use std::alloc::Allocator;
use xp_subs::LineNo;

/// Returns how many places among the live calls a change needs.
pub fn places(change: &Option<Change>) -> usize
    ensures { result ≡ places_for change.now }
{
    match change {
        Some(Change::Begin { .. }) => 1,
        Some(
            Change::Rise { .. }
            | Change::Free { .. }
            | Change::Leave { .. }
            | Change::Refuse { .. }
            | Change::Connect { .. },
        )
        | None => 0,
    }
}

/// Cancels the call that was put to the line, and makes the line free, if a line is given.
pub fn free_if_any<A: Allocator>(
    lines: &mut Vec<LogicalChannel, A>,
    calls: &mut Slab<LiveCall, A>,
    cancelled: Option<LineNo>,
)
    requires { AreKeyed lines.old.items calls.old }
    ensures keyed { AreKeyed lines.new.items calls.new }
    ensures freed { (next : ℕ) → stored_world lines.new.items calls.new next ≡ freed_if_any cancelled (stored_world lines.old.items calls.old next) }
    ensures room { (count : ℕ) → HasRoomFor calls.old count → HasRoomFor calls.new count }
{
    match cancelled {
        None => {}
        Some(line) => leave(lines, calls, line, NoCallState::IsFree),
    }
}

/// Makes the change, if one is given.
#[inline(always)]
pub fn make_if_any<A: Allocator>(
    lines: &mut Vec<LogicalChannel, A>,
    calls: &mut Slab<LiveCall, A>,
    next: &mut u64,
    change: Option<Change>,
)
    requires keyed { AreKeyed lines.old.items calls.old }
    requires room { HasRoomFor calls.old (places_for change) }
    requires fresh { call_numbered (stored_world lines.old.items calls.old next.old) next.old ≡ None }
    requires next { next.old + 1 < 2 ^ 64 }
    requires connection { (line : ℕ) → (line_at (stored_world lines.old.items calls.old next.old) line).connection + 1 < 2 ^ 64 }
    ensures keyed { AreKeyed lines.new.items calls.new }
    ensures made { stored_world lines.new.items calls.new next.new ≡ applied_if_any change (stored_world lines.old.items calls.old next.old) }
{
    match change {
        None => {}
        Some(change) => make(lines, calls, next, change),
    }
}

/// Makes a change.
#[inline(always)]
fn make<A: Allocator>(
    lines: &mut Vec<LogicalChannel, A>,
    calls: &mut Slab<LiveCall, A>,
    next: &mut u64,
    change: Change,
)
    requires keyed { AreKeyed lines.old.items calls.old }
    requires room { HasRoomFor calls.old (places_for (Some change)) }
    requires fresh { call_numbered (stored_world lines.old.items calls.old next.old) next.old ≡ None }
    requires next { next.old + 1 < 2 ^ 64 }
    requires connection { (line : ℕ) → (line_at (stored_world lines.old.items calls.old next.old) line).connection + 1 < 2 ^ 64 }
    ensures keyed { AreKeyed lines.new.items calls.new }
    ensures made { stored_world lines.new.items calls.new next.new ≡ applied change (stored_world lines.old.items calls.old next.old) }
{
    match change {
        Change::Rise { line } => rise(lines, line),
        Change::Free { line } => free(lines, line),
        Change::Leave { line, way } => leave(lines, calls, line, way),
        Change::Begin {
            caller,
            identifier,
            called,
            dialled,
            setup,
            requested,
        } => {
            let call = LiveCall {
                number: *next,
                caller,
                called,
                dialled,
                setup,
                requested,
                agreed: None,
            };
            put_call(lines, calls, identifier, call);
            *next += 1;
        }
        Change::Refuse { line, identifier } => {
            refuse(lines, line, identifier);
            *next += 1;
        }
        Change::Connect { line, agreement } => connect(lines, calls, line, agreement),
    }
}

/// Brings a line into service.
fn rise<A: Allocator>(lines: &mut Vec<LogicalChannel, A>, line: LineNo)
    requires { (channel_at lines.old.items line).connection + 1 < 2 ^ 64 }
    ensures { lines.new.items ≡ slice_set lines.old.items line (risen (channel_at lines.old.items line)) }
{
    let becomes = LogicalChannel {
        state: ChannelState::Ready,
        identifier: LogicalChannel::INITIAL_IDENTIFIER,
        connection: channel(lines, line).connection + 1,
    };
    set_line(lines, line, becomes);
}

/// Makes a line that is in no call free for one.
fn free<A: Allocator>(lines: &mut Vec<LogicalChannel, A>, line: LineNo)
    ensures { lines.new.items ≡ slice_set lines.old.items line (record (channel_at lines.old.items line) { state = ChannelState.Ready }) }
{
    let becomes = channel(lines, line).moved(ChannelState::Ready);
    set_line(lines, line, becomes);
}

/// Brings a line to a state of no call. If the line is in a call, the call ends.
pub fn leave<A: Allocator>(
    lines: &mut Vec<LogicalChannel, A>,
    calls: &mut Slab<LiveCall, A>,
    line: LineNo,
    way: NoCallState,
)
    requires { AreKeyed lines.old.items calls.old }
    ensures keyed { AreKeyed lines.new.items calls.new }
    ensures left { (next : ℕ) → stored_world lines.new.items calls.new next ≡ applied (Change.Leave line way) (stored_world lines.old.items calls.old next) }
    ensures room { (count : ℕ) → HasRoomFor calls.old count → HasRoomFor calls.new count }
{
    let channel = channel(lines, line);
    match channel.state.key() {
        None => set_line(lines, line, channel.moved(way.state())),
        Some(call) => end_call(lines, calls, call.key, line, way.state()),
    }
}

/// Clears the line whose call request is refused.
fn refuse<A: Allocator>(lines: &mut Vec<LogicalChannel, A>, line: LineNo, identifier: u16)
    ensures { lines.new.items ≡ slice_set lines.old.items line (turned_down (channel_at lines.old.items line) identifier) }
{
    let becomes = channel(lines, line).moved_as(identifier, ChannelState::Cleared);
    set_line(lines, line, becomes);
}

/// Accepts the call that a line is in.
fn connect<A: Allocator>(
    lines: &mut Vec<LogicalChannel, A>,
    calls: &mut Slab<LiveCall, A>,
    line: LineNo,
    agreement: Agreement,
)
    requires { AreKeyed lines.old.items calls.old }
    ensures keyed { AreKeyed lines.new.items calls.new }
    ensures connected { (next : ℕ) → stored_world lines.new.items calls.new next ≡ applied (Change.Connect line agreement) (stored_world lines.old.items calls.old next) }
{
    match channel(lines, line).state.key() {
        None => {}
        Some(call) => accept_call(lines, calls, call.key, agreement),
    }
}

impl NoCallState {
    ghost use Rattle.xp_machine.specs.Changes.{state_after};

    /// Returns the state that the line comes to.
    fn state(self) -> ChannelState
        ensures state { state_of result ≡ state_after (no_call_state_of self) }
        ensures out { key_of result ≡ None }
    {
        match self {
            NoCallState::GoesOut => ChannelState::Off,
            NoCallState::IsFree => ChannelState::Ready,
            NoCallState::IsCleared => ChannelState::Cleared,
        }
    }
}
