//! The packets to an end that carry no data.

ghost use Rattle.std.specs.Prelude.{◌≡◌, ℕ, ◌+◌, ◌==◌, ◌&&◌, not, option_to_list};
ghost use Rattle.xp_relay.specs.Direction.{Direction, far, is_open};
ghost use Rattle.xp_relay.specs.StoredDirection.{Represents};
ghost use Rattle.xp_relay.specs.Turns.{flow_packet, indicating, indication, interrupts, is_news, flow_notice, not_ready_notice};

use crate::direction_state::DirectionState;
use crate::moves::Move;
use std::alloc::Allocator;
use xp_packets::{End, Octets, Packet};

/// Returns the other end.
pub(crate) fn far(end: End) -> End
    ensures { result ≡ far end }
{
    match end {
        End::Caller => End::Called,
        End::Called => End::Caller,
    }
}

/// Returns a reset indication.
pub(crate) fn indication<A: Allocator>(side: End, cause: u8, diagnostic: u8) -> Move<A>
    ensures { result ≡ indication side cause diagnostic }
{
    Move {
        side,
        packet: Packet::Reset {
            cause,
            diagnostic: Some(diagnostic),
        },
    }
}

/// Returns the reset indication to the far end, unless that end owes a reset confirmation already.
pub(crate) fn indicating<A: Allocator>(
    here: End,
    cause: u8,
    diagnostic: u8,
    sent: &DirectionState<A>,
) -> Option<Move<A>>
    ensures { (s : Direction A) → Represents sent.now s → option_to_list result ≡ indicating here cause diagnostic s }
{
    if sent.owes() {
        None
    } else {
        Some(indication(far(here), cause, diagnostic))
    }
}

/// Returns receive ready or receive not ready (X.25 clauses 4.4.1.4 and 4.4.1.5).
fn flow_packet<A: Allocator>(ready: bool, pr: u8) -> Packet<A>
    ensures { result ≡ flow_packet ready pr }
{
    if ready {
        Packet::Ready { pr }
    } else {
        Packet::NotReady { pr }
    }
}

/// Returns the packet that tells the far end P(R) of this end and whether it is ready, where one of them changed.
pub(crate) fn flow_notice<A: Allocator>(
    here: End,
    changed: bool,
    sent: &DirectionState<A>,
    received: &DirectionState<A>,
) -> Option<Move<A>>
    ensures { (s r : Direction A) → Represents sent.now s → Represents received.now r → option_to_list result ≡ flow_notice here changed s r }
{
    if changed && !sent.owes() {
        Some(Move {
            side: far(here),
            packet: flow_packet(received.is_ready(), received.received_number()),
        })
    } else {
        None
    }
}

/// Returns the packet that tells this end, after a reset, that its far end is not ready.
pub(crate) fn not_ready_notice<A: Allocator>(here: End, sent: &DirectionState<A>) -> Option<Move<A>>
    ensures { (s : Direction A) → Represents sent.now s → option_to_list result ≡ not_ready_notice here s }
{
    if sent.is_ready() {
        None
    } else {
        Some(Move {
            side: here,
            packet: Packet::NotReady {
                pr: sent.received_number(),
            },
        })
    }
}

/// Returns the interrupt packet, where there are octets to send.
pub(crate) fn interrupts<A: Allocator>(side: End, octets: Option<Octets<A>>) -> Option<Move<A>>
    ensures { option_to_list result ≡ interrupts side octets }
{
    match octets {
        Some(octets) => Some(Move {
            side,
            packet: Packet::Interrupt { octets },
        }),
        None => None,
    }
}

/// Returns whether it is news to the far end that this end acknowledges this many more packets, and is `ready`.
pub(crate) fn is_news<A: Allocator>(ready: bool, more: u8, received: &DirectionState<A>) -> bool
    ensures { (r : Direction A) → Represents received.now r → result ≡ is_news ready (r.acknowledged + more) r }
{
    more != 0 || ready != received.is_ready()
}

/// Returns whether the far end needs a notice that this end's data packet acknowledges this many more. Where the data
/// goes to the far end at once, its P(R) says so.
pub(crate) fn is_untold<A: Allocator>(more: u8, sent: &DirectionState<A>) -> bool
    ensures { (s : Direction A) (count : ℕ) → Represents sent.now s → result ≡ (not ((count + more) == count) && not (is_open s)) }
{
    more != 0 && !sent.is_open()
}
