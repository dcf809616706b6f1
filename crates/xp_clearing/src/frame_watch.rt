//! The frames of a stream as they pass (RFC 1613). No octet is kept.

ghost use Rattle.std.specs.Prelude.{◌≡◌, ◌<◌, ◌≤◌, ◌++◌, ◌∷◌, [], ◌+◌, ◌/◌, ◌↔◌, ℕ, IfSome, IsTrue, List, None, length, min};
ghost use Rattle.xp_clearing.specs.Frames.{BeginsWithCall, IsUnfinished, IsWhole, is_clear, is_confirmation, is_plain, packet_length, passed_by};

use std::marker::Model;
use xp_past::Past;

/// How many octets the header of a frame has.
const HEADER_LENGTH: usize = 4;

/// The place of a packet's type in its frame.
const TYPE_PLACE: usize = 6;

/// The type octet of a call request and an incoming call (X.25 table 5-2).
const CALL: u8 = 0x0b;

/// The type octet of a clear request and a clear indication.
const CLEAR: u8 = 0x13;

/// The type octet of a clear confirmation.
const CLEAR_CONFIRMATION: u8 = 0x17;

/// What is to be known of a frame that has passed.
#[derive(Clone, Copy, PartialEq)]
pub struct PassedFrame {
    /// The length that the header tells.
    pub packet_length: usize,
    /// The first octet of the packet: the general format identifier, and the group of the channel.
    pub first: u8,
    /// The third octet of the packet: its type.
    pub packet_type: u8,
}

impl PassedFrame {
    /// The general format identifier.
    pub fn format(&self) -> u8
        ensures { result ≡ self.now.first / 16 }
    {
        self.first >> 4
    }

    /// Whether it carries a clear request, or a clear indication.
    pub fn is_clear(&self) -> bool
        ensures { result ≡ is_clear self.now }
    {
        self.packet_type == CLEAR
    }

    /// Whether it carries a clear confirmation.
    pub fn is_confirmation(&self) -> bool
        ensures { result ≡ is_confirmation self.now }
    {
        self.packet_type == CLEAR_CONFIRMATION
    }

    /// Whether a clear request or a clear confirmation has no block, so that only its format can be wrong.
    pub fn is_plain(&self) -> bool
        ensures { result ≡ is_plain self.now }
    {
        (self.is_clear() && (self.packet_length == 4 || self.packet_length == 5))
            || (self.is_confirmation() && self.packet_length == 3)
    }
}

/// Where a stream of frames is. Contracts see the octets of the frame that is not whole yet.
#[derive(Drop)]
pub struct FrameWatch {
    /// How many octets of the frame have passed.
    seen: usize,
    /// What is known of it so far, 0 where nothing is.
    frame: PassedFrame,
    octets: Past<u8>,
}

impl Model for FrameWatch {
    ghost use Rattle.std.specs.Prelude.{◌≡◌, ◌≤◌, ℕ, List, length};
    ghost use Rattle.xp_clearing.specs.Frames.{BeginsWithCall, IsUnfinished, passed_by};

    ghost Value = { List ℕ };

    ghost view = { λ watch. watch.octets.items };

    ghost invariant = { λ watch. (watch.seen ≡ length watch.octets.items) × (watch.frame ≡ passed_by watch.octets.items) × IsUnfinished watch.octets.items × (watch.frame.packet_length ≤ 65535) × (watch.seen ≤ 3 → watch.frame.packet_length ≤ 65280) };
}

impl FrameWatch {
    /// The start of a stream.
    pub fn new() -> FrameWatch
        ensures { result ≡ [] }
    {
        FrameWatch {
            seen: 0,
            frame: PassedFrame {
                packet_length: 0,
                first: 0,
                packet_type: 0,
            },
            octets: Past::new(),
        }
    }

    /// Another watch of the same place.
    pub fn again(&self) -> FrameWatch
        ensures { result ≡ self.now }
    {
        FrameWatch {
            seen: self.seen,
            frame: self.frame,
            octets: self.octets.again(),
        }
    }

    /// Whether the stream is between two frames, or at its start.
    pub fn is_between_frames(&self) -> bool
        ensures { IsTrue result ↔ (self.now ≡ []) }
    {
        self.seen == 0
    }

    /// An octet passes. The frame that is whole by it, if one is.
    pub fn pass(&mut self, octet: u8) -> Option<PassedFrame>
        ensures rest { IsUnfinished self.new }
        ensures part { result ≡ None → self.new ≡ self.old ++ octet ∷ [] }
        ensures whole { IfSome result (λ frame. (self.new ≡ []) × IsWhole (self.old ++ octet ∷ []) × (frame ≡ passed_by (self.old ++ octet ∷ []))) }
    {
        let frame = with_octet(self.frame, self.seen, octet);
        let seen = self.seen + 1;
        if seen >= HEADER_LENGTH + frame.packet_length {
            *self = FrameWatch::new();
            return Some(frame);
        }
        let octets = self.octets.and(&octet);
        *self = FrameWatch {
            seen,
            frame,
            octets,
        };
        None
    }
}

/// What is known of a frame after its next octet, which stands at this place.
fn with_octet(frame: PassedFrame, place: usize, octet: u8) -> PassedFrame
    requires fits { frame.packet_length ≤ 65535 }
    requires header { place ≤ 3 → frame.packet_length ≤ 65280 }
    ensures told { (octets : List ℕ) → length octets ≡ place → frame ≡ passed_by octets → result ≡ passed_by (octets ++ octet ∷ []) }
    ensures fits { result.packet_length ≤ 65535 }
    ensures header { place < 3 → result.packet_length ≤ 65280 }
{
    let mut frame = frame;
    match place {
        2 => frame.packet_length = usize::from(octet) * 256,
        3 => frame.packet_length += usize::from(octet),
        4 => frame.first = octet,
        6 => frame.packet_type = octet,
        _ => {}
    }
    frame
}

/// Whether octets begin with the frame of a call request or an incoming call.
pub fn begins_with_call(octets: &[u8]) -> bool
    ensures { IsTrue result ↔ BeginsWithCall octets.now }
{
    octets.len() > TYPE_PLACE && octets[TYPE_PLACE] == CALL
}

/// How many of the octets are of the frame that they begin with.
pub fn front_length(octets: &[u8]) -> usize
    ensures { result ≡ min (length octets.now) (4 + packet_length octets.now) }
{
    if octets.len() < HEADER_LENGTH {
        return octets.len();
    }
    let packet_length = usize::from(octets[2]) * 256 + usize::from(octets[3]);
    octets.len().min(HEADER_LENGTH + packet_length)
}
