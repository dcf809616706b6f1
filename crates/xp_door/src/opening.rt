//! What the octets of a router's connection open with.

ghost use Rattle.std.specs.Prelude.{IfOk};
ghost use Rattle.xp_frames.specs.Deframer.{IsNew};
ghost use Rattle.xp_door.specs.Openings.{IsOpening};
ghost use Rattle.xp_door.specs.steps.Openings.{OpensWith};

use std::alloc::{AllocError, Global};
use xp_frames::{Deframer, FrameFault};

/// What the octets of a connection open with (RFC 1613).
#[derive(Drop)]
pub enum Opening {
    /// Less than a whole frame.
    Partial,
    /// A frame with this packet.
    Packet(Vec<u8>),
    /// A header that no frame can have.
    BadHeader,
}

/// What these octets open with, which have come so far.
///
/// # Errors
///
/// `AllocError` where memory is wanting.
pub fn opening_of(alloc: Global, octets: &[u8]) -> Result<Opening, AllocError>
    ensures { IfOk result (IsOpening octets.now) }
{
    let mut frames = Deframer::new(alloc);
    opening_by(&mut frames, octets)
}

/// What these octets open with, by a deframer that has taken none before them.
fn opening_by(frames: &mut Deframer, octets: &[u8]) -> Result<Opening, AllocError>
    requires { IsNew frames.old }
    ensures { IfOk result (IsOpening octets.now) }
{
    match frames.feed(octets) {
        Ok(()) => Ok(first_in(frames, Opening::Partial)),
        Err(FrameFault::Version(_)) => Ok(first_in(frames, Opening::BadHeader)),
        Err(FrameFault::Length(_)) => Ok(first_in(frames, Opening::BadHeader)),
        Err(FrameFault::Failed) => Err(AllocError),
        Err(FrameFault::Memory) => Err(AllocError),
    }
}

/// The first packet that a deframer has, or else this.
fn first_in(frames: &mut Deframer, otherwise: Opening) -> Opening
    ensures { OpensWith frames.old.waiting otherwise result }
{
    match frames.next() {
        Some(packet) => Opening::Packet(packet),
        None => otherwise,
    }
}
