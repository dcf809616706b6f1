//! Receive ready and receive not ready (X.25 clauses 4.4.1.4 and 4.4.1.5).

ghost use Rattle.std.specs.Prelude.{◌≡◌, ◌+◌, ◌≤◌, [], IsFalse};
ghost use Rattle.xp_relay.specs.Direction.{Direction};
ghost use Rattle.xp_relay.specs.StoredDirection.{Represents};
ghost use Rattle.xp_relay.specs.steps.StoredDirection.{RepresentsTurn};
ghost use Rattle.xp_relay.specs.Turns.{acknowledging, flow};

use crate::direction_state::DirectionState;
use crate::moves::Moves;
use crate::turns::notices::{flow_notice, is_news};
use crate::turns::resetting::fail;
use std::alloc::Allocator;
use xp_causes::diagnostic::INVALID_RECEIVE_NUMBER;
use xp_packets::End;

/// Carries out RR or RNR, which acknowledges this many more packets.
fn acknowledge<A: Allocator>(
    here: End,
    ready: bool,
    more: u8,
    sent: &mut DirectionState<A>,
    received: &mut DirectionState<A>,
    room: Moves<A>,
) -> Moves<A>
    requires within { more ≤ received.old.out }
    requires empty { room.moves ≡ [] }
    requires space { 17 ≤ room.room }
    ensures { (s r : Direction A) → Represents sent.old s → Represents received.old r → RepresentsTurn sent.new received.new result.moves (acknowledging here ready (r.acknowledged + more) s r) }
{
    let news = is_news(ready, more, received);
    received.acknowledge(more);
    received.set_ready(ready);
    let told = flow_notice(here, news, sent, received);
    received
        .release(here, sent.received_number(), room)
        .with_some(told)
}

/// Takes RR or RNR of an end that owes no reset confirmation.
pub(crate) fn flow<A: Allocator>(
    here: End,
    ready: bool,
    pr: u8,
    sent: &mut DirectionState<A>,
    received: &mut DirectionState<A>,
    room: Moves<A>,
) -> Moves<A>
    requires ready { IsFalse received.old.owes }
    requires empty { room.moves ≡ [] }
    requires space { 17 ≤ room.room }
    ensures { (s r : Direction A) → Represents sent.old s → Represents received.old r → RepresentsTurn sent.new received.new result.moves (flow here ready pr s r) }
{
    match received.newly_acknowledged(pr) {
        Some(more) => acknowledge(here, ready, more, sent, received, room),
        None => fail(here, INVALID_RECEIVE_NUMBER, sent, received, room),
    }
}
