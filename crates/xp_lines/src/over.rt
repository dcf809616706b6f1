//! Why a turn of a line is over before its end.

ghost use Rattle.std.specs.Prelude.{◌≡◌, Some, false};
ghost use Rattle.xp_lines.specs.Reads.{keeps};
ghost use Rattle.xp_lines.specs.steps.Reads.{over_fed};

use std::alloc::Allocator;
use xp_frames::FrameFault;
use xp_lock::OfferFault;

/// Why a turn of a line is over before its end.
#[derive(Clone, Copy)]
pub enum Over {
    /// The link has ended, is broken or sent a bad frame header, or the exchange gave the line up and its connection is to be closed.
    Link,
    /// An allocation failed, or the outbox of a line that comes up has too little room.
    Memory,
    /// The exchange is halted.
    Halted,
    /// The exchange's journal is full.
    Journal,
}

impl From<FrameFault> for Over {
    ghost from_gives = { λ fault over. over ≡ over_fed fault };

    fn from(fault: FrameFault) -> Over {
        match fault {
            FrameFault::Version(_) | FrameFault::Length(_) | FrameFault::Failed => Over::Link,
            FrameFault::Memory => Over::Memory,
        }
    }
}

impl<A: Allocator> From<OfferFault<A>> for Over {
    ghost from_gives = { λ _ over. keeps (Some over) ≡ false };

    fn from(refused: OfferFault<A>) -> Over {
        match refused {
            OfferFault::Halted(_) => Over::Halted,
            OfferFault::JournalFull(_) => Over::Journal,
            OfferFault::NoRoom(_) | OfferFault::Memory(_) => Over::Memory,
        }
    }
}
