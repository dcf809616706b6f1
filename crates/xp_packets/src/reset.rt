//! Resets (X.25 clause 5.4.3).

ghost use Rattle.std.specs.Prelude.{◌≡◌};
ghost use Rattle.xp_packets.specs.Owning.{owns_octets};
ghost use Rattle.xp_packets.specs.steps.Reading.{MatchesReadingOrMemory, reset_at};

use crate::fault::{Malformed, PacketFault};
use crate::packet::Packet;
use std::alloc::Allocator;

/// Reads the octets after the type of a reset.
#[tactic(auto, unfolding(crate::specs::steps::Reading::reset_at))]
pub(crate) fn reset_of<A: Allocator>(rest: &[u8]) -> Result<Packet<A>, PacketFault>
    ensures { MatchesReadingOrMemory owns_octets result (reset_at rest.now) }
{
    match rest {
        [] => Err(Malformed::Short.into()),
        [cause] => Ok(Packet::Reset {
            cause: *cause,
            diagnostic: None,
        }),
        [cause, diagnostic] => Ok(Packet::Reset {
            cause: *cause,
            diagnostic: Some(*diagnostic),
        }),
        [_, _, _, ..] => Err(Malformed::Long.into()),
    }
}
