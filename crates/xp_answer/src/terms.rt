ghost use Rattle.std.specs.Prelude.{◌≡◌};
ghost use Rattle.xp_answer.specs.Terms.{is_between, is_offered, are_offered, indicated_by, settled};

use std::alloc::Allocator;
use xp_facilities::{DirectionSizes, IndicatedFacilities, RequestedFacilities};

/// The default packet sizes, for a call that requests none, as powers of two: 128 octets.
const USUAL_PACKET_SIZES: DirectionSizes = DirectionSizes {
    from_called: 7,
    from_calling: 7,
};

/// The default window sizes, for a call that requests none: 2 packets.
const USUAL_WINDOW_SIZES: DirectionSizes = DirectionSizes {
    from_called: 2,
    from_calling: 2,
};

/// The packet and window sizes of a call, for each direction (X.25 clause 6.12).
#[derive(Clone, Copy, Default, PartialEq, Eq)]
pub struct Terms {
    /// Packet sizes, as powers of two: 4 to 12.
    pub packet: DirectionSizes,
    /// Window sizes: 1 to 7, or to 15 if both lines number modulo 128.
    pub window: DirectionSizes,
}

impl Terms {
    /// The sizes that an incoming call indicates.
    pub fn indicated_by<A: Allocator>(told: &IndicatedFacilities<A>) -> Terms
        ensures { result ≡ indicated_by told.now }
    {
        Terms {
            packet: told.packet.unwrap_or(USUAL_PACKET_SIZES),
            window: told.window.unwrap_or(USUAL_WINDOW_SIZES),
        }
    }

    /// Whether an answer may request its sizes, if `self` was indicated.
    pub(crate) fn are_offered<A: Allocator>(&self, asked: &RequestedFacilities<A>) -> bool
        ensures { result ≡ are_offered self.now asked.now }
    {
        is_offered(self.packet, USUAL_PACKET_SIZES, asked.packet)
            && is_offered(self.window, USUAL_WINDOW_SIZES, asked.window)
    }

    /// The sizes of the call, if `self` was indicated.
    pub(crate) fn settled<A: Allocator>(&self, asked: &RequestedFacilities<A>) -> Terms
        ensures { result ≡ settled self.now asked.now }
    {
        Terms {
            packet: asked.packet.unwrap_or(self.packet),
            window: asked.window.unwrap_or(self.window),
        }
    }
}

/// Whether the requested sizes, if there are any, are between the indicated and the default ones, in each direction.
fn is_offered(
    indicated: DirectionSizes,
    usual: DirectionSizes,
    asked: Option<DirectionSizes>,
) -> bool
    ensures { result ≡ is_offered indicated usual asked }
{
    asked.is_none_or(|asked| {
        is_between(indicated.from_called, usual.from_called, asked.from_called)
            && is_between(
                indicated.from_calling,
                usual.from_calling,
                asked.from_calling,
            )
    })
}

/// Whether `size` is between `one` and `other`, whichever is greater, or equal to one of them.
fn is_between(one: u8, other: u8, size: u8) -> bool
    ensures { result ≡ is_between one other size }
{
    (one <= size && size <= other) || (other <= size && size <= one)
}
