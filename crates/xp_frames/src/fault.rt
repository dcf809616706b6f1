ghost use Rattle.std.specs.Prelude.{◌≡◌};
ghost use Rattle.xp_frames.specs.declared.fault.FrameFault.TheVariants.{Memory};

use std::alloc::AllocError;
use thiserror::Error;

/// Why octets are not frames, or why a call changed nothing.
#[derive(Clone, Copy, Debug, PartialEq, Eq, Error)]
pub enum FrameFault {
    /// The header of a frame has a version other than 0 (RFC 1613). The value is that version.
    #[error("frame version {0} in place of 0")]
    Version(u16),
    /// The length of a packet is outside 3 to 1,028 octets. The value is that length; 65,535 also means any greater
    /// length.
    #[error("packet length {0} outside 3 to 1028 octets")]
    Length(u16),
    /// An earlier piece of the stream had a bad header.
    #[error("the stream has failed")]
    Failed,
    /// An allocation failed.
    #[error("out of memory")]
    Memory,
}

impl From<AllocError> for FrameFault {
    ghost from_gives = { λ _ fault. fault ≡ Memory };

    fn from(_refused: AllocError) -> FrameFault {
        FrameFault::Memory
    }
}
