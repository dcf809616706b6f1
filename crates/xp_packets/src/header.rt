//! The general format identifier, the logical channel identifier and the type octet of a packet (X.25 clause 5.1).

ghost use Rattle.std.specs.Prelude.{◌≡◌, ◌<◌, ◌/◌, ◌%◌, ◌==◌, nat_le, ◌++◌, OnOk};
ghost use Rattle.xp_packets.specs.Heading.{bit, heading, modulus_bits, wrong_flags, wrong_format};
ghost use Rattle.xp_packets.specs.steps.Reading.{MatchesReading, header_at};

use crate::block::push_octets;
use crate::fault::Malformed;
use crate::kind::Kind;
use crate::modulus::Modulus;
use std::alloc::{AllocError, Allocator};

/// The qualifier bit (Q): bit 8 of octet 1 (clause 5.1.1).
const Q_BIT: u8 = 0x80;

/// The delivery confirmation bit (D): bit 7 of octet 1.
const D_BIT: u8 = 0x40;

/// The logical channel group number: bits 4 to 1 of octet 1 (clause 5.1.2).
const GROUP_BITS: u8 = 0x0f;

/// The values of the general format identifier, the logical channel identifier and the packet type identifier.
#[derive(Drop)]
pub(crate) struct Header {
    pub(crate) identifier: u16,
    pub(crate) q: bool,
    pub(crate) d: bool,
    pub(crate) kind: Kind,
    /// The type octet, with the numbers that it may have.
    pub(crate) octet: u8,
}

/// Reads the header. Also returns the octets after it.
#[tactic(auto, unfolding(crate::specs::steps::Reading::header_at))]
pub(crate) fn header_of(modulus: Modulus, octets: &[u8]) -> Result<(Header, &[u8]), Malformed>
    ensures { MatchesReading (λ x. (x.0, x.1.now)) result (header_at modulus octets.now) }
{
    match octets {
        [first, number, octet, rest @ ..] => {
            if has_wrong_format(modulus, *first, *octet) {
                return Err(Malformed::Format);
            }
            match Kind::of(modulus, *octet) {
                Some(kind) => {
                    let header = Header {
                        identifier: u16::from_be_bytes([*first & GROUP_BITS, *number]),
                        q: has_q(*first),
                        d: has_d(*first),
                        kind,
                        octet: *octet,
                    };
                    Ok((header, rest))
                }
                None => Err(Malformed::Unknown),
            }
        }
        _ => Err(Malformed::Short),
    }
}

/// Whether the general format identifier has another modulus, or a Q or D bit that the packet cannot have
/// (clause 5.1.1).
fn has_wrong_format(modulus: Modulus, first: u8, octet: u8) -> bool
    ensures { result ≡ wrong_format modulus first octet }
{
    (first >> 4) & 3 != modulus_bits(modulus) || has_wrong_flags(has_q(first), has_d(first), octet)
}

/// The value of bits 6 and 5 of octet 1.
fn modulus_bits(modulus: Modulus) -> u8
    ensures { result ≡ modulus_bits modulus }
{
    match modulus {
        Modulus::Eight => 1,
        Modulus::Long => 2,
    }
}

fn has_q(first: u8) -> bool
    ensures { result ≡ nat_le 128 first }
{
    first & Q_BIT != 0
}

fn has_d(first: u8) -> bool
    ensures { result ≡ (first / 64 % 2 == 1) }
{
    first & D_BIT != 0
}

/// Whether Q is set outside a data packet, or D outside a data, call or call accepted packet.
fn has_wrong_flags(q: bool, d: bool, octet: u8) -> bool
    ensures { result ≡ wrong_flags q d octet }
{
    octet & 1 == 1
        && (q || (!(octet == Kind::Call.octet() || octet == Kind::Accepted.octet()) && d))
}

/// Writes the octets before the type octet.
pub(crate) fn push_heading<A: Allocator>(
    out: &mut Vec<u8, A>,
    modulus: Modulus,
    q: bool,
    d: bool,
    identifier: u16,
) -> Result<(), AllocError>
    requires { identifier < 4096 }
    ensures { OnOk result (out.new.items ≡ out.old.items ++ heading modulus q d identifier) }
{
    let [group, number] = identifier.to_be_bytes();
    let first = flagged(Q_BIT, q) | flagged(D_BIT, d) | (modulus_bits(modulus) << 4) | group;
    push_octets(out, &[first, number])
}

/// The mask if the bit is set, otherwise zero.
pub(crate) fn flagged(mask: u8, set: bool) -> u8
    ensures { result ≡ bit mask set }
{
    if set { mask } else { 0 }
}
