ghost use Rattle.std.specs.Prelude.{◌≡◌};
ghost use Rattle.xp_packets.specs.Diagnostics.{diagnostic_of};
ghost use Rattle.xp_packets.specs.declared.fault.PacketFault.TheVariants.{Memory, Malformed as Said};

use std::alloc::AllocError;
use thiserror::Error;
use xp_causes::diagnostic::{
    INVALID_CALLED_ADDRESS, INVALID_FACILITY_LENGTH, INVALID_FORMAT_IDENTIFIER, PACKET_TOO_LONG,
    PACKET_TOO_SHORT, UNIDENTIFIABLE_PACKET,
};

/// Why octets are not a packet, or why a packet cannot be encoded. The variants are in the order of the checks,
/// except that a missing cause, block, interrupt data or P(R) is checked after the type.
#[derive(Clone, Copy, Debug, PartialEq, Eq, Error)]
pub enum Malformed {
    /// There are fewer than three octets, or the cause, the block, the interrupt data or the P(R) that the packet must
    /// have is missing; diagnostic 38.
    #[error("packet too short")]
    Short,
    /// The modulus is another than the line's, or the Q or D bit is set in a packet that cannot have it; diagnostic 40.
    /// To `encode`: the identifier is over 4,095, or P(S) or P(R) is over 7, or modulo 128 over 127.
    #[error("invalid general format identifier")]
    Format,
    /// No packet has this type; diagnostic 33.
    #[error("unidentifiable packet")]
    Unknown,
    /// The digits go past the end of the packet, a digit is above 9, or the half-octet that fills their last octet is
    /// not zero; diagnostic 67, also for the calling address.
    #[error("invalid address")]
    Address,
    /// The facility length is over 109 or goes past the end of the packet; diagnostic 69.
    #[error("invalid facility length")]
    Facilities,
    /// There are more octets than a packet of its kind may have; diagnostic 39.
    #[error("packet too long")]
    Long,
}

impl Malformed {
    /// The diagnostic code of X.25 Annex E.
    pub fn diagnostic(self) -> u8
        ensures { result ≡ diagnostic_of self }
    {
        match self {
            Malformed::Short => PACKET_TOO_SHORT,
            Malformed::Format => INVALID_FORMAT_IDENTIFIER,
            Malformed::Unknown => UNIDENTIFIABLE_PACKET,
            Malformed::Address => INVALID_CALLED_ADDRESS,
            Malformed::Facilities => INVALID_FACILITY_LENGTH,
            Malformed::Long => PACKET_TOO_LONG,
        }
    }
}

/// Why a packet was not read or written.
#[derive(Clone, Copy, Debug, PartialEq, Eq, Error)]
pub enum PacketFault {
    /// The octets are not a packet, or the packet cannot be encoded; the reason gives the diagnostic.
    #[error("{0}")]
    Malformed(Malformed),
    /// An allocation failed. No diagnostic reports this.
    #[error("out of memory")]
    Memory,
}

impl From<Malformed> for PacketFault {
    ghost from_gives = { λ wrong fault. fault ≡ Said wrong };

    fn from(wrong: Malformed) -> PacketFault {
        PacketFault::Malformed(wrong)
    }
}

impl From<AllocError> for PacketFault {
    ghost from_gives = { λ _ fault. fault ≡ Memory };

    fn from(_refused: AllocError) -> PacketFault {
        PacketFault::Memory
    }
}
