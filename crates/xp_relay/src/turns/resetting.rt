//! Resets (X.25 clause 4.4.3).

ghost use Rattle.std.specs.Prelude.{◌≡◌, ◌≤◌, []};
ghost use Rattle.xp_relay.specs.Direction.{Direction};
ghost use Rattle.xp_relay.specs.StoredDirection.{Represents};
ghost use Rattle.xp_relay.specs.steps.StoredDirection.{RepresentsTurn};
ghost use Rattle.xp_relay.specs.Turns.{failing, resetting, settling};

use crate::direction_state::DirectionState;
use crate::moves::{Move, Moves};
use crate::turns::notices::{indicating, indication, interrupts, not_ready_notice};
use std::alloc::Allocator;
use xp_causes::indicated_cause;
use xp_causes::resetting_cause::{LOCAL_PROCEDURE_ERROR, REMOTE_PROCEDURE_ERROR};
use xp_packets::{End, Packet};

/// Resets the call for a procedure error of this end.
pub(crate) fn fail<A: Allocator>(
    here: End,
    diagnostic: u8,
    sent: &mut DirectionState<A>,
    received: &mut DirectionState<A>,
    room: Moves<A>,
) -> Moves<A>
    requires empty { room.moves ≡ [] }
    requires space { 17 ≤ room.room }
    ensures { (s r : Direction A) → Represents sent.old s → Represents received.old r → RepresentsTurn sent.new received.new result.moves (failing here diagnostic s r) }
{
    let told = indicating(here, REMOTE_PROCEDURE_ERROR, diagnostic, sent);
    sent.empty(true);
    received.empty(true);
    room.with(indication(here, LOCAL_PROCEDURE_ERROR, diagnostic))
        .with_some(told)
}

/// Resets the call on the request of this end, which owes no reset confirmation.
pub(crate) fn request<A: Allocator>(
    here: End,
    cause: u8,
    diagnostic: u8,
    sent: &mut DirectionState<A>,
    received: &mut DirectionState<A>,
    room: Moves<A>,
) -> Moves<A>
    requires empty { room.moves ≡ [] }
    requires space { 17 ≤ room.room }
    ensures { (s r : Direction A) → Represents sent.old s → Represents received.old r → RepresentsTurn sent.new received.new result.moves (resetting here cause diagnostic s r) }
{
    let told = indicating(here, indicated_cause(cause), diagnostic, sent);
    sent.empty(true);
    received.empty(false);
    room.with(Move {
        side: here,
        packet: Packet::ResetConfirm,
    })
    .with_some(told)
}

/// Carries out the reset confirmation that this end owed.
pub(crate) fn settle<A: Allocator>(
    here: End,
    sent: &mut DirectionState<A>,
    received: &mut DirectionState<A>,
    room: Moves<A>,
) -> Moves<A>
    requires empty { room.moves ≡ [] }
    requires space { 17 ≤ room.room }
    ensures { (s r : Direction A) → Represents sent.old s → Represents received.old r → RepresentsTurn sent.new received.new result.moves (settling here s r) }
{
    let waited = received.settle();
    let room = room
        .with_some(not_ready_notice(here, sent))
        .with_some(interrupts(here, waited));
    received.release(here, sent.received_number(), room)
}
