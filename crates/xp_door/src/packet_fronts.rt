//! The first octets of packets, as the frames of a stream pass (RFC 1613). The rest of a frame passes in one step.

ghost use Rattle.std.specs.Prelude.{◌≢◌, ◌<◌, ◌≤◌, ◌≡◌, ◌+◌, ◌*◌, ◌==◌, [], None, length, slice_index};
ghost use Rattle.xp_door.specs.steps.Headers.{header_fault};

use crate::down_reason::DownReason;
use arrayvec::ArrayVec;

/// How many octets the header of a frame has.
const HEADER_LENGTH: usize = 4;

/// How many octets of a frame are kept at most: its header, and of a call request all to the end of the called address.
const MOST_KEPT: usize = 16;

/// The shortest and the longest packet of a frame, in octets.
const SHORTEST_PACKET: u16 = 3;

const LONGEST_PACKET: u16 = 1_028;

/// Where a stream of frames is.
#[derive(Drop)]
pub(crate) struct PacketFronts {
    /// The first octets of the frame.
    front: ArrayVec<u8, MOST_KEPT>,
    /// Whether the header of the frame is not whole yet.
    is_in_header: bool,
    /// How many octets of the header are still to pass, or behind it of the packet.
    left: usize,
    /// Why what has passed last is no header of a frame. What follows it belongs to none.
    fault: Option<DownReason>,
}

impl PacketFronts {
    /// The start of a stream.
    pub(crate) fn new() -> PacketFronts
        ensures { result.fault ≡ None }
    {
        PacketFronts {
            front: ArrayVec::new(),
            is_in_header: true,
            left: 0,
            fault: None,
        }
    }

    /// Why the stream holds no frames any more, if it does not.
    pub(crate) fn fault(&self) -> Option<DownReason>
        ensures { result ≡ self.now.fault }
    {
        self.fault
    }

    /// Octets pass, to the end of a header or of a packet at most. How many did.
    pub(crate) fn pass(&mut self, octets: &[u8]) -> usize
        requires { octets.now ≢ [] }
        ensures some { 0 < result }
        ensures bound { result ≤ length octets.now }
    {
        if self.fault.is_some() {
            return octets.len();
        }
        if self.left == 0 {
            self.front.clear();
            self.is_in_header = true;
            self.left = HEADER_LENGTH;
        }
        let count = octets.len().min(self.left);
        self.keep(&octets[..count]);
        self.left -= count;
        if self.left == 0 && self.is_in_header {
            self.read_header();
        }
        count
    }

    /// Keeps the octets for which there is room.
    fn keep(&mut self, octets: &[u8])
        ensures left { self.new.left ≡ self.old.left }
    {
        let count = octets.len().min(self.front.remaining_capacity());
        // This cannot fail: there is room.
        let _ = self.front.try_extend_from_slice(&octets[..count]);
    }

    /// The header is whole.
    fn read_header(&mut self)
        ensures { self.new.fault ≡ header_fault self.old.front.items }
    {
        let front = self.front.as_slice();
        let version = number_at(front, 0);
        let length = number_at(front, 2);
        self.is_in_header = false;
        self.left = usize::from(length);
        self.fault = if version != 0 {
            Some(DownReason::Version(version))
        } else if length < SHORTEST_PACKET || length > LONGEST_PACKET {
            Some(DownReason::Length(length))
        } else {
            None
        };
    }

    /// The first octets of the packet that has passed, 12 at most. `None` where no packet is whole.
    pub(crate) fn packet(&self) -> Option<&[u8]> {
        if self.is_in_header || self.left > 0 || self.fault.is_some() {
            return None;
        }
        self.front.as_slice().get(HEADER_LENGTH..)
    }
}

/// The two octets at a place as a number, in network order. What is not there counts as 0.
fn number_at(octets: &[u8], place: usize) -> u16
    requires { place ≤ 2 }
    ensures { result ≡ 256 * slice_index octets.now place + slice_index octets.now (place + 1) }
{
    u16::from(octet_at(octets, place)) * 256 + u16::from(octet_at(octets, place + 1))
}

/// The octet at a place, 0 where there is none.
pub(crate) fn octet_at(octets: &[u8], place: usize) -> u8
    ensures { result ≡ slice_index octets.now place }
{
    if place < octets.len() {
        octets[place]
    } else {
        0
    }
}
