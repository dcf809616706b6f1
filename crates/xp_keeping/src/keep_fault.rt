//! Why charging records were not kept.

ghost use Rattle.std.specs.Prelude.{◌≡◌};
ghost use Rattle.xp_keeping.specs.declared.keep_fault.KeepFault.TheVariants.{Memory as OutOfMemory};

use std::alloc::AllocError;

/// Why not all charging records were kept.
#[derive(Clone, Copy)]
pub enum KeepFault {
    /// An allocation failed.
    Memory,
    /// Standard output failed.
    Output,
    /// The file of call detail records failed, or the thread that keeps them was given up. Some of the records are in doubt.
    Details,
}

impl From<AllocError> for KeepFault {
    ghost from_gives = { λ _ fault. fault ≡ OutOfMemory };

    fn from(_refused: AllocError) -> KeepFault {
        KeepFault::Memory
    }
}
