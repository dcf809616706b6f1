//! Packets that end after their type or their number: confirmations and flow control (X.25 clauses 5.3.3, 5.4.1, 5.4.2,
//! 5.4.4 and 5.7.1).

ghost use Rattle.std.specs.Prelude.{◌≡◌};
ghost use Rattle.xp_packets.specs.Owning.{owns_octets};
ghost use Rattle.xp_packets.specs.steps.Numbers.{flow_number_at};
ghost use Rattle.xp_packets.specs.steps.Reading.{MatchesReading, MatchesReadingOrMemory, header_only_at};

use crate::fault::{Malformed, PacketFault};
use crate::modulus::Modulus;
use crate::packet::Packet;
use std::alloc::Allocator;

/// Returns the packet if no octet follows its type.
#[tactic(auto, unfolding(crate::specs::steps::Reading::header_only_at))]
pub(crate) fn header_only<A: Allocator>(
    packet: Packet<A>,
    rest: &[u8],
) -> Result<Packet<A>, PacketFault>
    ensures { MatchesReadingOrMemory owns_octets result (header_only_at packet rest.now) }
{
    match rest {
        [] => Ok(packet),
        [_, ..] => Err(Malformed::Long.into()),
    }
}

/// Reads P(R) of a flow control packet. `rest` are the octets after the type octet. No octet may follow P(R).
#[tactic(auto, unfolding(crate::specs::steps::Numbers::flow_number_at))]
pub(crate) fn flow_number(modulus: Modulus, octet: u8, rest: &[u8]) -> Result<u8, Malformed>
    ensures { MatchesReading (λ x. x) result (flow_number_at modulus octet rest.now) }
{
    match (modulus, rest) {
        (Modulus::Eight, []) => Ok(octet >> 5),
        (Modulus::Long, []) => Err(Malformed::Short),
        (Modulus::Long, [second]) => Ok(*second >> 1),
        _ => Err(Malformed::Long),
    }
}
