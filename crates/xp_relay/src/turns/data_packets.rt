//! Data packets (X.25 clauses 4.3.2 and 4.4.1).

ghost use Rattle.std.specs.Prelude.{◌≡◌, ◌+◌, ◌<◌, ◌≤◌, ◌^◌, [], length};
ghost use Rattle.xp_relay.specs.Direction.{Direction};
ghost use Rattle.xp_relay.specs.Judgement.{judgement, most_octets};
ghost use Rattle.xp_relay.specs.StoredDirection.{Represents};
ghost use Rattle.xp_relay.specs.steps.StoredDirection.{RepresentsTurn};
ghost use Rattle.xp_relay.specs.Turns.{accepting, carries};

use crate::data::{Data, SequenceNumbers};
use crate::direction_state::DirectionState;
use crate::judged::Judged;
use crate::moves::Moves;
use crate::turns::notices::{far, flow_notice, is_untold};
use crate::turns::resetting::fail;
use std::alloc::Allocator;
use xp_causes::diagnostic::{INVALID_RECEIVE_NUMBER, INVALID_SEND_NUMBER, PACKET_TOO_LONG};
use xp_packets::End;

/// Decides on a data packet with these numbers and this many octets.
pub(crate) fn judge<A: Allocator>(
    numbers: SequenceNumbers,
    octets: usize,
    sent: &DirectionState<A>,
    received: &DirectionState<A>,
) -> Judged
    ensures judged { (s r : Direction A) → Represents sent.now s → Represents received.now r → result ≡ judgement numbers.ps numbers.pr octets s r }
    ensures room { result ≡ Judged.Accept → sent.now.out + length sent.now.held < sent.now.terms.window }
{
    if received.owes() {
        return Judged::Discard;
    }
    if !sent.awaits(numbers.ps) {
        return Judged::Reset(INVALID_SEND_NUMBER);
    }
    if received.newly_acknowledged(numbers.pr).is_none() {
        return Judged::Reset(INVALID_RECEIVE_NUMBER);
    }
    if octets > sent.most_octets() {
        return Judged::Reset(PACKET_TOO_LONG);
    }
    Judged::Accept
}

/// Carries out an accepted data packet, which acknowledges this many more packets.
fn accept<A: Allocator>(
    here: End,
    carried: Data<A>,
    more: u8,
    sent: &mut DirectionState<A>,
    received: &mut DirectionState<A>,
    room: Moves<A>,
) -> Moves<A>
    requires window { sent.old.out + length sent.old.held < sent.old.terms.window }
    requires within { more ≤ received.old.out }
    requires empty { room.moves ≡ [] }
    requires space { 17 ≤ room.room }
    ensures { (s r : Direction A) → Represents sent.old s → Represents received.old r → RepresentsTurn sent.new received.new result.moves (accepting here carried (r.acknowledged + more) s r) }
{
    let news = is_untold(more, sent);
    received.acknowledge(more);
    let told = flow_notice(here, news, sent, received);
    sent.accept(carried);
    sent.release(far(here), received.received_number(), room)
        .with_some(told)
}

/// Takes a data packet.
pub(crate) fn carry<A: Allocator>(
    here: End,
    carried: Data<A>,
    numbers: SequenceNumbers,
    sent: &mut DirectionState<A>,
    received: &mut DirectionState<A>,
    room: Moves<A>,
) -> Moves<A>
    requires empty { room.moves ≡ [] }
    requires space { 17 ≤ room.room }
    ensures { (s r : Direction A) → Represents sent.old s → Represents received.old r → RepresentsTurn sent.new received.new result.moves (carries here carried numbers.ps numbers.pr s r) }
{
    match judge(numbers, carried.octets.len(), sent, received) {
        Judged::Discard => room,
        Judged::Reset(diagnostic) => fail(here, diagnostic, sent, received, room),
        Judged::Accept => match received.newly_acknowledged(numbers.pr) {
            Some(more) => accept(here, carried, more, sent, received, room),
            None => room,
        },
    }
}
