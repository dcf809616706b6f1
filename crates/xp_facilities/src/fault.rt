ghost use Rattle.std.specs.Prelude.{◌≡◌};
ghost use Rattle.xp_facilities.specs.declared.fault.FacilityFault.TheVariants.{Memory};

use std::alloc::AllocError;
use thiserror::Error;

/// Why a facility field was not read or written. The variants are in the order of the checks.
#[derive(Clone, Copy, Debug, PartialEq, Eq, Error)]
pub enum FacilityFault {
    /// The octets are not a list of items; diagnostic 69.
    #[error("invalid facility length")]
    Length,
    /// An item before the first marker has a code that is not accepted; diagnostic 65.
    #[error("facility code not allowed")]
    Code,
    /// A parameter is not allowed, or a value is out of its range; diagnostic 66.
    #[error("facility parameter not allowed")]
    Param,
    /// An allocation failed. No diagnostic reports this.
    #[error("out of memory")]
    Memory,
}

impl From<AllocError> for FacilityFault {
    ghost from_gives = { λ _ fault. fault ≡ Memory };

    fn from(_refused: AllocError) -> FacilityFault {
        FacilityFault::Memory
    }
}
