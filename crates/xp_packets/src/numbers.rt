//! P(S), P(R) and the M bit of a packet (X.25 clauses 5.3.1, 5.4.1, 5.4.2 and 5.7.1). Modulo 8 they are in the type
//! octet. Modulo 128 P(S) is in the type octet, and P(R) and the M bit are in the octet after it.

ghost use Rattle.std.specs.Prelude.{◌≡◌, ◌<◌, ◌++◌, false, OnOk};
ghost use Rattle.xp_packets.specs.Kinds.{octet_of};
ghost use Rattle.xp_packets.specs.Numbers.{data_octets, flow_octets, is_over, numbers};
ghost use Rattle.xp_packets.specs.steps.Numbers.{data_numbers_at};
ghost use Rattle.xp_packets.specs.steps.Reading.{MatchesReading};

use crate::block::push_octets;
use crate::fault::Malformed;
use crate::header::flagged;
use crate::kind::Kind;
use crate::modulus::Modulus;
use std::alloc::{AllocError, Allocator};

/// The M bit modulo 8: bit 5 of the type octet.
const MORE_BIT: u8 = 0x10;

/// The M bit modulo 128: bit 1 of the octet with P(R).
const LONG_MORE_BIT: u8 = 0x01;

/// What a data packet has beside its user data, and the Q and D bits.
#[derive(Drop)]
pub(crate) struct Numbers {
    pub(crate) ps: u8,
    pub(crate) pr: u8,
    pub(crate) more: bool,
}

/// Whether the number cannot be a P(S) or P(R).
pub(crate) fn is_over(modulus: Modulus, number: u8) -> bool
    ensures { result ≡ is_over modulus number }
{
    modulus.numbers() <= number
}

/// Writes the type, P(S), P(R) and the M bit of a data packet.
pub(crate) fn push_data_octets<A: Allocator>(
    out: &mut Vec<u8, A>,
    modulus: Modulus,
    ps: u8,
    pr: u8,
    more: bool,
) -> Result<(), AllocError>
    requires sent { ps < numbers modulus }
    requires received { pr < numbers modulus }
    ensures { OnOk result (out.new.items ≡ out.old.items ++ data_octets modulus ps pr more) }
{
    match modulus {
        Modulus::Eight => push_octets(out, &[(pr << 5) | flagged(MORE_BIT, more) | (ps << 1)]),
        Modulus::Long => push_octets(out, &[ps << 1, (pr << 1) | flagged(LONG_MORE_BIT, more)]),
    }
}

/// Writes the type and P(R) of a flow control packet.
pub(crate) fn push_flow_octets<A: Allocator>(
    out: &mut Vec<u8, A>,
    modulus: Modulus,
    pr: u8,
    kind: Kind,
) -> Result<(), AllocError>
    requires received { pr < numbers modulus }
    requires flow { octet_of kind < 32 }
    ensures { OnOk result (out.new.items ≡ out.old.items ++ flow_octets modulus pr kind false) }
{
    match modulus {
        Modulus::Eight => push_octets(out, &[(pr << 5) | kind.octet()]),
        Modulus::Long => push_octets(out, &[kind.octet(), pr << 1]),
    }
}

/// Reads the numbers and the M bit of a data packet. `rest` are the octets after the type octet. Also returns the
/// octets after the numbers.
#[tactic(auto, unfolding(crate::specs::steps::Numbers::data_numbers_at))]
pub(crate) fn data_numbers(
    modulus: Modulus,
    octet: u8,
    rest: &[u8],
) -> Result<(Numbers, &[u8]), Malformed>
    ensures { MatchesReading (λ x. (x.0, x.1.now)) result (data_numbers_at modulus octet rest.now) }
{
    match (modulus, rest) {
        (Modulus::Eight, _) => {
            let numbers = Numbers {
                ps: (octet >> 1) & 7,
                pr: octet >> 5,
                more: octet & MORE_BIT != 0,
            };
            Ok((numbers, rest))
        }
        (Modulus::Long, []) => Err(Malformed::Short),
        (Modulus::Long, [second, rest @ ..]) => {
            let numbers = Numbers {
                ps: octet >> 1,
                pr: *second >> 1,
                more: *second & LONG_MORE_BIT != 0,
            };
            Ok((numbers, rest))
        }
    }
}
