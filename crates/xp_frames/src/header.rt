//! The header of a frame: version and length, 16 bits each, in network order (RFC 1613).

ghost use Rattle.std.specs.Prelude.{◌≡◌, ◌≤◌, ◌↔◌, IsTrue};
ghost use Rattle.xp_frames.specs.Frame.{IsPacketLength};
ghost use Rattle.xp_frames.specs.steps.DeframerSteps.{IsFront};

use crate::fault::FrameFault;

/// The octets of a header.
pub(crate) const HEADER_LENGTH: usize = 4;

/// The only version (RFC 1613).
pub(crate) const VERSION: u16 = 0;

/// The fewest octets of a packet: its own header alone (X.25 clause 5.1).
const LEAST_PACKET: u16 = 3;

/// The most octets of a packet.
const LARGEST_PACKET: u16 = 1028;

/// What is at the front of some octets of a stream.
pub(crate) enum Front {
    /// A whole frame, with this many octets of packet.
    Frame(usize),
    /// Less than a whole frame, and no bad header.
    Partial,
    /// A header that no frame can have.
    BadHeader(FrameFault),
}

/// Whether a packet may have this many octets: 3 to 1,028.
pub(crate) fn is_packet_length(length: u16) -> bool
    ensures { IsTrue result ↔ IsPacketLength length }
{
    LEAST_PACKET <= length && length <= LARGEST_PACKET
}

/// Examines the front of a stream. It checks the header once its four octets have arrived, the version first.
pub(crate) fn front_of(octets: &[u8]) -> Front
    ensures { IsFront octets.now result }
{
    let [first, second, third, fourth, ..] = octets else {
        return Front::Partial;
    };
    let version = u16::from_be_bytes([*first, *second]);
    if version != VERSION {
        return Front::BadHeader(FrameFault::Version(version));
    }
    let length = u16::from_be_bytes([*third, *fourth]);
    if !is_packet_length(length) {
        return Front::BadHeader(FrameFault::Length(length));
    }
    let packet = usize::from(length);
    if octets.len() < HEADER_LENGTH + packet {
        Front::Partial
    } else {
        Front::Frame(packet)
    }
}
