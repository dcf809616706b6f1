//! Interrupts (X.25 clause 5.3.2).

ghost use Rattle.std.specs.Prelude.{◌≡◌};
ghost use Rattle.xp_packets.specs.Owning.{owns_octets};
ghost use Rattle.xp_packets.specs.steps.Reading.{MatchesReadingOrMemory, interrupt_at};

use crate::fault::{Malformed, PacketFault};
use crate::octets::Octets;
use crate::packet::Packet;
use std::alloc::Allocator;

/// The most octets of interrupt user data (clause 5.3.2).
pub(crate) const MOST_INTERRUPT: usize = 32;

/// Reads the octets after the type of an interrupt.
#[tactic(auto, unfolding(crate::specs::steps::Reading::interrupt_at))]
pub(crate) fn interrupt_of<A: Allocator + Copy>(
    alloc: A,
    rest: &[u8],
) -> Result<Packet<A>, PacketFault>
    ensures { MatchesReadingOrMemory owns_octets result (interrupt_at rest.now) }
{
    match rest {
        [] => Err(Malformed::Short.into()),
        [_, ..] => {
            if rest.len() > MOST_INTERRUPT {
                return Err(Malformed::Long.into());
            }
            let octets = Octets::from_slice(alloc, rest)?;
            Ok(Packet::Interrupt { octets })
        }
    }
}
