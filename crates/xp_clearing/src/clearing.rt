//! How a connection's call is cleared, by the packets that pass in both directions.

ghost use Rattle.std.specs.Prelude.{◌≡◌, ◌↔◌, IsTrue};
ghost use Rattle.xp_clearing.specs.Clearings.{after_received, after_sent, is_settled, takes_no_more};

use crate::frame_watch::PassedFrame;

/// How far the clearing of a connection's call is. The exchange is the DCE: it sends clear indications and confirms the router's
/// clear requests, and the router confirms its indications (X.25 clause 4.1.7).
#[derive(Clone, Copy, PartialEq)]
pub enum Clearing {
    /// No side has cleared.
    NotBegun,
    /// The exchange has sent a clear indication with this format identifier.
    Indicated(u8),
    /// The router has sent a clear request without a block, with this format identifier.
    Requested(u8),
    /// The router has sent another clear request, of which the exchange may be unable to make anything.
    RequestedOddly,
    /// The call is cleared on both sides.
    Done,
    /// Both sides have sent a clear, and whether the exchange takes the router's for one is not known.
    Unclear,
}

impl Clearing {
    /// How far it is after a packet to the router.
    pub fn after_sent(self, frame: PassedFrame) -> Clearing
        ensures { result ≡ after_sent self frame }
    {
        match self {
            Clearing::NotBegun | Clearing::Indicated(_) if frame.is_clear() => {
                Clearing::Indicated(frame.format())
            }
            Clearing::Requested(_) | Clearing::RequestedOddly if frame.is_confirmation() => {
                Clearing::Done
            }
            // The two have crossed.
            Clearing::Requested(format) if frame.is_clear() && format == frame.format() => {
                Clearing::Done
            }
            Clearing::Requested(_) | Clearing::RequestedOddly if frame.is_clear() => {
                Clearing::Unclear
            }
            _ => self,
        }
    }

    /// How far it is after a packet from the router.
    pub fn after_received(self, frame: PassedFrame) -> Clearing
        ensures { result ≡ after_received self frame }
    {
        let is_plain = frame.is_plain();
        match self {
            Clearing::NotBegun if frame.is_clear() && is_plain => {
                Clearing::Requested(frame.format())
            }
            Clearing::NotBegun if frame.is_clear() => Clearing::RequestedOddly,
            Clearing::Indicated(format) if is_plain && format == frame.format() => Clearing::Done,
            Clearing::Indicated(_) if frame.is_clear() || frame.is_confirmation() => {
                Clearing::Unclear
            }
            _ => self,
        }
    }

    /// Whether nothing more is to be read: what would come belongs to no call.
    pub fn takes_no_more(self) -> bool
        ensures { result ≡ takes_no_more self }
    {
        !matches!(self, Clearing::NotBegun | Clearing::Indicated(_))
    }

    /// Whether nothing more is to be written.
    pub fn is_settled(self) -> bool
        ensures { result ≡ is_settled self }
    {
        matches!(self, Clearing::Done | Clearing::Unclear)
    }
}
