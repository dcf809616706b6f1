//! Data packets (X.25 clause 5.3.1).

ghost use Rattle.std.specs.Prelude.{◌≡◌};
ghost use Rattle.xp_packets.specs.Owning.{owns_octets};
ghost use Rattle.xp_packets.specs.steps.Reading.{MatchesReadingOrMemory, data_at};

use crate::fault::{Malformed, PacketFault};
use crate::header::Header;
use crate::modulus::Modulus;
use crate::numbers::data_numbers;
use crate::octets::Octets;
use crate::packet::Packet;
use std::alloc::Allocator;

/// The most octets of user data in a data packet (clause 5.3.1).
pub(crate) const MOST_DATA: usize = 1024;

/// Reads the octets after the type octet of a data packet. The type octet is in `header`.
#[tactic(auto, unfolding(crate::specs::steps::Reading::data_at))]
pub(crate) fn data_of<A: Allocator + Copy>(
    alloc: A,
    modulus: Modulus,
    header: &Header,
    rest: &[u8],
) -> Result<Packet<A>, PacketFault>
    ensures { MatchesReadingOrMemory owns_octets result (data_at modulus header.now.q header.now.d header.now.octet rest.now) }
{
    let (numbers, carried) = data_numbers(modulus, header.octet, rest)?;
    if carried.len() > MOST_DATA {
        return Err(Malformed::Long.into());
    }
    let octets = Octets::from_slice(alloc, carried)?;
    Ok(Packet::DataPacket {
        q: header.q,
        d: header.d,
        more: numbers.more,
        ps: numbers.ps,
        pr: numbers.pr,
        octets,
    })
}
