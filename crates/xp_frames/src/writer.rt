//! Writing frames.

ghost use Rattle.xp_frames.specs.Frame.{IsHeader, Writes};

use crate::fault::FrameFault;
use crate::header::{HEADER_LENGTH, VERSION, is_packet_length};
use std::alloc::Allocator;

/// The header of the frame of `packet` (RFC 1613).
///
/// # Errors
///
/// `Length` if the packet has fewer than 3 or more than 1,028 octets. The value is its length, at most 65,535.
pub fn frame_header(packet: &[u8]) -> Result<[u8; HEADER_LENGTH], FrameFault>
    ensures { IsHeader packet.now result }
{
    let length = u16::try_from(packet.len()).unwrap_or(u16::MAX);
    if !is_packet_length(length) {
        return Err(FrameFault::Length(length));
    }
    let [zero, version] = VERSION.to_be_bytes();
    let [high, low] = length.to_be_bytes();
    Ok([zero, version, high, low])
}

/// Appends the frame of `packet` to `out` (RFC 1613).
///
/// # Errors
///
/// `Length` as for [`frame_header`]. `Memory` if `out` cannot grow. In both cases `out` is unchanged.
pub fn write_frame<A: Allocator>(packet: &[u8], out: &mut Vec<u8, A>) -> Result<(), FrameFault>
    ensures { Writes packet.now out.old.items result out.new.items }
{
    let head = frame_header(packet)?;
    out.reserve(HEADER_LENGTH + packet.len())?;
    out.extend_from_slice(&head).unwrap();
    out.extend_from_slice(packet).unwrap();
    Ok(())
}
