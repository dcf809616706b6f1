//! Call set-up packets (X.25 clauses 5.2.2 and 5.2.3).

ghost use Rattle.std.specs.Prelude.{◌≡◌};
ghost use Rattle.xp_packets.specs.Owning.{owns_octets};
ghost use Rattle.xp_packets.specs.steps.Reading.{MatchesReadingOrMemory, accepted_at, call_at};

use crate::block::{MOST_USER, block_of, optional_block_of};
use crate::fault::PacketFault;
use crate::packet::Packet;
use std::alloc::Allocator;

/// Reads the octets after the type of a call request.
#[tactic(auto, unfolding(crate::specs::steps::Reading::call_at))]
pub(crate) fn call_of<A: Allocator + Copy>(
    alloc: A,
    d: bool,
    rest: &[u8],
) -> Result<Packet<A>, PacketFault>
    ensures { MatchesReadingOrMemory owns_octets result (call_at d rest.now) }
{
    let block = block_of(alloc, rest, MOST_USER)?;
    Ok(Packet::Call { d, block })
}

/// Reads the octets after the type of a call accepted packet.
#[tactic(auto, unfolding(crate::specs::steps::Reading::accepted_at))]
pub(crate) fn accepted_of<A: Allocator + Copy>(
    alloc: A,
    d: bool,
    rest: &[u8],
) -> Result<Packet<A>, PacketFault>
    ensures { MatchesReadingOrMemory owns_octets result (accepted_at d rest.now) }
{
    let block = optional_block_of(alloc, rest, MOST_USER)?;
    Ok(Packet::Accepted { d, block })
}
