ghost use Rattle.std.specs.Prelude.{◌≡◌};
ghost use Rattle.xp_decide.specs.steps.Asks.{fault_of};
ghost use Rattle.xp_decide.specs.declared.fault.CallFault.TheVariants.{Refused, Memory as OutOfMemory};

use std::alloc::AllocError;
use xp_causes::Refusal;
use xp_facilities::FacilityFault;

/// Why no line rings for a call request.
#[derive(Clone, Copy)]
pub enum CallFault {
    /// The call is refused, and the caller receives a clear indication.
    Refused(Refusal),
    /// An allocation failed.
    Memory,
}

impl From<Refusal> for CallFault {
    ghost from_gives = { λ refusal fault. fault ≡ Refused refusal };

    fn from(refusal: Refusal) -> CallFault {
        CallFault::Refused(refusal)
    }
}

impl From<AllocError> for CallFault {
    ghost from_gives = { λ _ fault. fault ≡ OutOfMemory };

    fn from(_refused: AllocError) -> CallFault {
        CallFault::Memory
    }
}

impl From<FacilityFault> for CallFault {
    ghost from_gives = { λ facilities fault. fault ≡ fault_of facilities };

    fn from(facilities: FacilityFault) -> CallFault {
        match facilities {
            FacilityFault::Length => CallFault::Refused(Refusal::FACILITY_LENGTH),
            FacilityFault::Code => CallFault::Refused(Refusal::FACILITY_NOT_ALLOWED),
            FacilityFault::Param => CallFault::Refused(Refusal::FACILITY_PARAMETER),
            FacilityFault::Memory => CallFault::Memory,
        }
    }
}
