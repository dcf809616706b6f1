ghost use Rattle.std.specs.Prelude.{◌≡◌};
ghost use Rattle.xp_answer.specs.steps.Examined.{fault_of};

use xp_causes::diagnostic;
use xp_facilities::FacilityFault;

/// Why an answer does not connect the call.
#[derive(Clone, Copy, PartialEq, Eq)]
pub enum AnswerFault {
    /// The answer is a procedure error with this diagnostic (X.25 Annex E).
    Refused(u8),
    /// An allocation failed.
    Memory,
}

impl From<FacilityFault> for AnswerFault {
    ghost from_gives = { λ facilities fault. fault ≡ fault_of facilities };

    fn from(facilities: FacilityFault) -> AnswerFault {
        match facilities {
            FacilityFault::Length => AnswerFault::Refused(diagnostic::INVALID_FACILITY_LENGTH),
            FacilityFault::Code => AnswerFault::Refused(diagnostic::FACILITY_CODE_NOT_ALLOWED),
            FacilityFault::Param => AnswerFault::Refused(
                diagnostic::FACILITY_PARAMETER_NOT_ALLOWED,
            ),
            FacilityFault::Memory => AnswerFault::Memory,
        }
    }
}
