//! What a packet of one end, `here`, does to the two directions of its call: `sent` is the one that this end sends, and
//! `received` the one that it receives.

ghost use Rattle.std.specs.Prelude.{◌≡◌, ◌≤◌, [], IfOk, IsFalse, IsTrue, OnErr};
ghost use Rattle.xp_relay.specs.Direction.{Direction};
ghost use Rattle.xp_relay.specs.StoredDirection.{Represents};
ghost use Rattle.xp_relay.specs.steps.StoredDirection.{RepresentsTurn};
ghost use Rattle.xp_relay.specs.Turns.{turn_of};

use crate::data::{Data, SequenceNumbers};
use crate::direction_state::DirectionState;
use crate::moves::Moves;
use crate::turns::data_packets::carry;
use crate::turns::flow_control::flow;
use crate::turns::interrupting::{interrupt, interrupt_confirm};
use crate::turns::resetting::{fail, request, settle};
use std::alloc::{AllocError, Allocator};
use xp_causes::diagnostic::{INVALID_IN_D1, REJECT_NOT_SUBSCRIBED};
use xp_causes::indicated_diagnostic;
use xp_packets::{End, Packet};

pub(crate) mod data_packets;
mod flow_control;
mod interrupting;
mod notices;
mod resetting;

/// Takes any packet of this end.
pub(crate) fn turn<A: Allocator + Copy>(
    here: End,
    packet: &Packet<A>,
    sent: &mut DirectionState<A>,
    received: &mut DirectionState<A>,
    room: Moves<A>,
) -> Result<Moves<A>, AllocError>
    requires empty { room.moves ≡ [] }
    requires space { 17 ≤ room.room }
    ensures ok { IfOk result (λ made. (s r : Direction A) → Represents sent.old s → Represents received.old r → RepresentsTurn sent.new received.new made.moves (turn_of here packet.now s r)) }
    ensures sent { OnErr result (sent.new ≡ sent.old) }
    ensures received { OnErr result (received.new ≡ received.old) }
{
    if received.owes() {
        Ok(turn_after_reset(here, packet, sent, received, room))
    } else {
        turn_when_ready(here, packet, sent, received, room)
    }
}

/// Takes any packet of an end that owes a reset confirmation: only one that confirms the reset changes something (X.25
/// clauses 4.4.3.2 and 4.4.3.3).
fn turn_after_reset<A: Allocator>(
    here: End,
    packet: &Packet<A>,
    sent: &mut DirectionState<A>,
    received: &mut DirectionState<A>,
    room: Moves<A>,
) -> Moves<A>
    requires owes { IsTrue received.old.owes }
    requires empty { room.moves ≡ [] }
    requires space { 17 ≤ room.room }
    ensures { (s r : Direction A) → Represents sent.old s → Represents received.old r → RepresentsTurn sent.new received.new result.moves (turn_of here packet.now s r) }
{
    match packet {
        Packet::Reset { .. } | Packet::ResetConfirm => settle(here, sent, received, room),
        _ => room,
    }
}

/// Takes any packet of an end that owes no reset confirmation.
fn turn_when_ready<A: Allocator + Copy>(
    here: End,
    packet: &Packet<A>,
    sent: &mut DirectionState<A>,
    received: &mut DirectionState<A>,
    room: Moves<A>,
) -> Result<Moves<A>, AllocError>
    requires ready { IsFalse received.old.owes }
    requires empty { room.moves ≡ [] }
    requires space { 17 ≤ room.room }
    ensures ok { IfOk result (λ made. (s r : Direction A) → Represents sent.old s → Represents received.old r → RepresentsTurn sent.new received.new made.moves (turn_of here packet.now s r)) }
    ensures sent { OnErr result (sent.new ≡ sent.old) }
    ensures received { OnErr result (received.new ≡ received.old) }
{
    match packet {
        Packet::DataPacket {
            q,
            d,
            more,
            ps,
            pr,
            octets,
        } => {
            let carried = Data {
                q: *q,
                d: *d,
                more: *more,
                octets: octets.copy()?,
            };
            let numbers = SequenceNumbers { ps: *ps, pr: *pr };
            Ok(carry(here, carried, numbers, sent, received, room))
        }
        Packet::Ready { pr } => Ok(flow(here, true, *pr, sent, received, room)),
        Packet::NotReady { pr } => Ok(flow(here, false, *pr, sent, received, room)),
        Packet::Reject { .. } => Ok(fail(here, REJECT_NOT_SUBSCRIBED, sent, received, room)),
        Packet::Interrupt { octets } => {
            Ok(interrupt(here, octets.copy()?, sent, received, room))
        }
        Packet::InterruptConfirm => Ok(interrupt_confirm(here, sent, received, room)),
        Packet::Reset { cause, diagnostic } => {
            let diagnostic = indicated_diagnostic(*diagnostic);
            Ok(request(here, *cause, diagnostic, sent, received, room))
        }
        Packet::ResetConfirm => Ok(fail(here, INVALID_IN_D1, sent, received, room)),
        Packet::Call { .. }
        | Packet::Accepted { .. }
        | Packet::Clear { .. }
        | Packet::ClearConfirm { .. } => Ok(room),
    }
}
