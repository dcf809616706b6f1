ghost use Rattle.std.specs.Prelude.{◌≡◌};
ghost use Rattle.xp_exchange.specs.declared.fault.ReplayFault.TheVariants.{Memory};

use std::alloc::AllocError;
use thiserror::Error;
use xp_core::ReloadFault;

/// Why a script was not replayed to its end.
#[derive(Clone, Copy, Debug, Error)]
pub enum ReplayFault {
    /// The line of this number is not a line of a script. The first line has the number 1.
    #[error("script line {0}")]
    Script(u64),
    /// The line of the first number brings the subscriptions of the second, and the exchange has no places for their lines.
    #[error("script line {0}")]
    Lay(u64, usize),
    /// The line of the first number brings the subscriptions of the second, and these cannot come into force for this reason.
    #[error("script line {0}")]
    Reload(u64, usize, ReloadFault),
    /// The history had fewer than four places left.
    #[error("journal full")]
    Journal,
    /// No memory was left.
    #[error("memory")]
    Memory,
    /// The reader failed, or too many reads did not end the script.
    #[error("input")]
    Read,
    /// The writer failed.
    #[error("output")]
    Write,
}

impl From<AllocError> for ReplayFault {
    ghost from_gives = { λ _ fault. fault ≡ Memory };

    fn from(_refused: AllocError) -> ReplayFault {
        ReplayFault::Memory
    }
}
