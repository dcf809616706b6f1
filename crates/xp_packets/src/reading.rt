//! Decodes octets into packets.

ghost use Rattle.std.specs.Prelude.{◌≡◌, IfOk};
ghost use Rattle.xp_packets.specs.Decoding.{Decodes};
ghost use Rattle.xp_packets.specs.Encodability.{CanBeEncoded};
ghost use Rattle.xp_packets.specs.Owning.{owns_octets};
ghost use Rattle.xp_packets.specs.declared.modulus.Modulus.TheVariants.{Long};
ghost use Rattle.xp_packets.specs.steps.Reading.{MatchesReadingOrMemory, body_by, packet_at};

use crate::call::{accepted_of, call_of};
use crate::clear::{clear_confirm_of, clear_of};
use crate::data::data_of;
use crate::fault::PacketFault;
use crate::flow::{flow_number, header_only};
use crate::header::{Header, header_of};
use crate::interrupt::interrupt_of;
use crate::kind::Kind;
use crate::modulus::Modulus;
use crate::packet::Packet;
use crate::reset::reset_of;
use std::alloc::Allocator;

/// Decodes a packet of a line of this modulus, and its logical channel identifier, 0 to 4,095 (X.25 clause 5).
///
/// # Errors
///
/// `Malformed` gives the first fault in the order of the checks. `Memory` if an allocation fails; this happens only
/// where the octets are a packet with a block, data or interrupt data.
pub fn decode<A: Allocator + Copy>(
    alloc: A,
    modulus: Modulus,
    octets: &[u8],
) -> Result<(u16, Packet<A>), PacketFault>
    ensures decoded { Decodes modulus octets.now result }
    ensures fit { IfOk result (λ read. CanBeEncoded modulus read.0 read.1) }
    ensures either { IfOk result (λ read. CanBeEncoded Long read.0 read.1) }
{
    packet_of(alloc, modulus, octets)
}

#[tactic(auto, unfolding(crate::specs::steps::Reading::packet_at))]
fn packet_of<A: Allocator + Copy>(
    alloc: A,
    modulus: Modulus,
    octets: &[u8],
) -> Result<(u16, Packet<A>), PacketFault>
    ensures { MatchesReadingOrMemory (λ read. owns_octets read.1) result (packet_at modulus octets.now) }
{
    let (header, rest) = header_of(modulus, octets)?;
    let packet = body_of(alloc, modulus, &header, rest)?;
    Ok((header.identifier, packet))
}

#[tactic(auto, unfolding(crate::specs::steps::Reading::flow_at))]
fn body_of<A: Allocator + Copy>(
    alloc: A,
    modulus: Modulus,
    header: &Header,
    rest: &[u8],
) -> Result<Packet<A>, PacketFault>
    ensures { MatchesReadingOrMemory owns_octets result (body_by modulus header.now.kind header.now rest.now) }
{
    match header.kind {
        Kind::Call => call_of(alloc, header.d, rest),
        Kind::Accepted => accepted_of(alloc, header.d, rest),
        Kind::Clear => clear_of(alloc, rest),
        Kind::ClearConfirm => clear_confirm_of(alloc, rest),
        Kind::Interrupt => interrupt_of(alloc, rest),
        Kind::InterruptConfirm => header_only(Packet::InterruptConfirm, rest),
        Kind::Reset => reset_of(rest),
        Kind::ResetConfirm => header_only(Packet::ResetConfirm, rest),
        Kind::Data => data_of(alloc, modulus, header, rest),
        Kind::Ready => Ok(Packet::Ready {
            pr: flow_number(modulus, header.octet, rest)?,
        }),
        Kind::NotReady => Ok(Packet::NotReady {
            pr: flow_number(modulus, header.octet, rest)?,
        }),
        Kind::Reject => Ok(Packet::Reject {
            pr: flow_number(modulus, header.octet, rest)?,
        }),
    }
}
