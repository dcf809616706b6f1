//! Encodes packets into octets.

ghost use Rattle.std.specs.Prelude.{◌≡◌, [], ◌∷◌, ◌++◌, false, IfErr, IfOk, None, OnOk};
ghost use Rattle.xp_packets.specs.Addresses.{HasAddresses};
ghost use Rattle.xp_packets.specs.Encoding.{Refuses};
ghost use Rattle.xp_packets.specs.Encodability.{block_of, has_long_facilities, has_wrong_number, encoding_fault};
ghost use Rattle.xp_packets.specs.Kinds.{octet_of};
ghost use Rattle.xp_packets.specs.Spelling.{WrittenAs};
ghost use Rattle.xp_packets.specs.Writing.{has_d, has_q, written, written_body, written_type};

use crate::block::{push_block, push_octets, push_optional_block};
use crate::clear::push_cause;
use crate::encodability::first_encoding_fault;
use crate::fault::PacketFault;
use crate::header::push_heading;
use crate::kind::Kind;
use crate::modulus::Modulus;
use crate::numbers::{push_data_octets, push_flow_octets};
use crate::packet::Packet;
use std::alloc::{AllocError, Allocator};

/// Encodes a packet on a logical channel of a line of this modulus. Every block has both length octets (X.25 clause 5).
pub fn encode<A: Allocator>(
    alloc: A,
    modulus: Modulus,
    identifier: u16,
    packet: &Packet<A>,
) -> Result<Vec<u8, A>, PacketFault>
    ensures written { IfOk result (λ octets. (encoding_fault modulus identifier packet.now ≡ None) × WrittenAs modulus octets.items identifier packet.now) }
    ensures octets { IfOk result (λ octets. octets.items ≡ written modulus identifier packet.now) }
    ensures refused { IfErr result (λ fault. Refuses fault (encoding_fault modulus identifier packet.now)) }
{
    let mut octets = Vec::new(alloc);
    write_packet(modulus, identifier, packet, &mut octets)?;
    Ok(octets)
}

/// Appends the encoding of a packet on a logical channel of a line of this modulus to `out`. The octets are those that
/// `encode` returns.
///
/// # Errors
///
/// `Malformed` gives the first reason, in the order of the checks, why `decode` could never return this packet:
///
/// - `Short` if an interrupt has no data, or a clear has a block but no diagnostic;
/// - `Format` if the identifier is over 4,095, or P(S) or P(R) is over 7, or modulo 128 over 127;
/// - `Facilities` if there are more than 109 octets of facilities;
/// - `Long` if there is more data than a packet of its kind may carry.
///
/// `Memory` if an allocation fails, and only where none of these holds. Then `out` may hold some of the octets.
pub fn write_packet<A: Allocator>(
    modulus: Modulus,
    identifier: u16,
    packet: &Packet<A>,
    out: &mut Vec<u8, A>,
) -> Result<(), PacketFault>
    ensures written { OnOk result ((encoding_fault modulus identifier packet.now ≡ None) × WrittenAs modulus (written modulus identifier packet.now) identifier packet.now) }
    ensures octets { OnOk result (out.new.items ≡ out.old.items ++ written modulus identifier packet.now) }
    ensures refused { IfErr result (λ fault. Refuses fault (encoding_fault modulus identifier packet.now)) }
{
    if let Some(wrong) = first_encoding_fault(modulus, identifier, packet) {
        return Err(wrong.into());
    }
    push_packet(out, modulus, identifier, packet)?;
    Ok(())
}

fn push_packet<A: Allocator>(
    out: &mut Vec<u8, A>,
    modulus: Modulus,
    identifier: u16,
    packet: &Packet<A>,
) -> Result<(), AllocError>
    requires { encoding_fault modulus identifier packet.now ≡ None }
    ensures written { OnOk result (out.new.items ≡ out.old.items ++ written modulus identifier packet.now) }
    ensures addressed { OnOk result (HasAddresses packet.now) }
{
    push_heading(out, modulus, has_q(packet), has_d(packet), identifier)?;
    push_type(out, modulus, packet)?;
    push_body(out, packet)
}

fn has_q<A: Allocator>(packet: &Packet<A>) -> bool
    ensures { result ≡ has_q packet.now }
{
    match packet {
        Packet::DataPacket { q, .. } => *q,
        _ => false,
    }
}

fn has_d<A: Allocator>(packet: &Packet<A>) -> bool
    ensures { result ≡ has_d packet.now }
{
    match packet {
        Packet::Call { d, .. } | Packet::Accepted { d, .. } | Packet::DataPacket { d, .. } => *d,
        _ => false,
    }
}

/// Writes the type, with the numbers that it carries.
fn push_type<A: Allocator>(
    out: &mut Vec<u8, A>,
    modulus: Modulus,
    packet: &Packet<A>,
) -> Result<(), AllocError>
    requires { has_wrong_number modulus packet.now ≡ false }
    ensures { OnOk result (out.new.items ≡ out.old.items ++ written_type modulus packet.now) }
{
    match packet {
        Packet::Call { .. } => push_kind(out, Kind::Call),
        Packet::Accepted { .. } => push_kind(out, Kind::Accepted),
        Packet::Clear { .. } => push_kind(out, Kind::Clear),
        Packet::ClearConfirm { .. } => push_kind(out, Kind::ClearConfirm),
        Packet::DataPacket { more, ps, pr, .. } => push_data_octets(out, modulus, *ps, *pr, *more),
        Packet::Ready { pr } => push_flow_octets(out, modulus, *pr, Kind::Ready),
        Packet::NotReady { pr } => push_flow_octets(out, modulus, *pr, Kind::NotReady),
        Packet::Reject { pr } => push_flow_octets(out, modulus, *pr, Kind::Reject),
        Packet::Interrupt { .. } => push_kind(out, Kind::Interrupt),
        Packet::InterruptConfirm => push_kind(out, Kind::InterruptConfirm),
        Packet::Reset { .. } => push_kind(out, Kind::Reset),
        Packet::ResetConfirm => push_kind(out, Kind::ResetConfirm),
    }
}

/// Writes the type octet of a packet without numbers.
fn push_kind<A: Allocator>(out: &mut Vec<u8, A>, kind: Kind) -> Result<(), AllocError>
    ensures { OnOk result (out.new.items ≡ out.old.items ++ octet_of kind ∷ []) }
{
    push_octets(out, &[kind.octet()])
}

/// Writes the octets after the type and the numbers.
fn push_body<A: Allocator>(out: &mut Vec<u8, A>, packet: &Packet<A>) -> Result<(), AllocError>
    requires { has_long_facilities (block_of packet.now) ≡ false }
    ensures written { OnOk result (out.new.items ≡ out.old.items ++ written_body packet.now) }
    ensures addressed { OnOk result (HasAddresses packet.now) }
{
    match packet {
        Packet::Call { block, .. } => push_block(out, block),
        Packet::Accepted { block, .. } | Packet::ClearConfirm { block } => push_optional_block(
            out, block,
        ),
        Packet::Clear {
            cause,
            diagnostic,
            block,
        } => {
            push_cause(out, *cause, *diagnostic)?;
            push_optional_block(out, block)
        }
        Packet::DataPacket { octets, .. } | Packet::Interrupt { octets } => {
            push_octets(out, octets.as_slice())
        }
        Packet::Reset { cause, diagnostic } => push_cause(out, *cause, *diagnostic),
        _ => Ok(()),
    }
}
