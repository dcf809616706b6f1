//! Interrupts (X.25 clause 4.3.7).

ghost use Rattle.std.specs.Prelude.{◌≡◌, ◌≤◌, [], IsFalse};
ghost use Rattle.xp_relay.specs.Direction.{Direction};
ghost use Rattle.xp_relay.specs.StoredDirection.{Represents};
ghost use Rattle.xp_relay.specs.steps.StoredDirection.{RepresentsTurn};
ghost use Rattle.xp_relay.specs.Turns.{interrupt, interrupt_confirm};

use crate::direction_state::DirectionState;
use crate::moves::{Move, Moves};
use crate::turns::notices::{far, interrupts};
use crate::turns::resetting::fail;
use std::alloc::Allocator;
use xp_causes::diagnostic::{UNAUTHORIZED_INTERRUPT, UNAUTHORIZED_INTERRUPT_CONFIRMATION};
use xp_packets::{End, Octets, Packet};

/// Takes an interrupt of an end that owes no reset confirmation.
pub(crate) fn interrupt<A: Allocator>(
    here: End,
    octets: Octets<A>,
    sent: &mut DirectionState<A>,
    received: &mut DirectionState<A>,
    room: Moves<A>,
) -> Moves<A>
    requires ready { IsFalse received.old.owes }
    requires empty { room.moves ≡ [] }
    requires space { 17 ≤ room.room }
    ensures { (s r : Direction A) → Represents sent.old s → Represents received.old r → RepresentsTurn sent.new received.new result.moves (interrupt here octets s r) }
{
    if sent.is_idle() {
        let goes = sent.offer(octets);
        room.with_some(interrupts(far(here), goes))
    } else {
        fail(here, UNAUTHORIZED_INTERRUPT, sent, received, room)
    }
}

/// Takes an interrupt confirmation of an end that owes no reset confirmation.
pub(crate) fn interrupt_confirm<A: Allocator>(
    here: End,
    sent: &mut DirectionState<A>,
    received: &mut DirectionState<A>,
    room: Moves<A>,
) -> Moves<A>
    requires ready { IsFalse received.old.owes }
    requires empty { room.moves ≡ [] }
    requires space { 17 ≤ room.room }
    ensures { (s r : Direction A) → Represents sent.old s → Represents received.old r → RepresentsTurn sent.new received.new result.moves (interrupt_confirm here s r) }
{
    if received.has_put_interrupt() {
        received.end_interrupt();
        room.with(Move {
            side: far(here),
            packet: Packet::InterruptConfirm,
        })
    } else {
        fail(
            here,
            UNAUTHORIZED_INTERRUPT_CONFIRMATION,
            sent,
            received,
            room,
        )
    }
}
