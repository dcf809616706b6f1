use crate::{clearing_cause, diagnostic};

/// Why a call request is refused: the cause and the diagnostic of the clear indication (X.25 clause 5.2.4, Annex E).
#[derive(Clone, Copy, PartialEq, Eq)]
pub struct Refusal {
    pub cause: u8,
    pub diagnostic: u8,
}

impl Refusal {
    /// The facility field is not a list of facilities.
    pub const FACILITY_LENGTH: Refusal = Refusal {
        cause: clearing_cause::LOCAL_PROCEDURE_ERROR,
        diagnostic: diagnostic::INVALID_FACILITY_LENGTH,
    };

    /// The exchange does not offer a facility, or the station may not request it.
    pub const FACILITY_NOT_ALLOWED: Refusal = Refusal {
        cause: clearing_cause::INVALID_FACILITY_REQUEST,
        diagnostic: diagnostic::FACILITY_CODE_NOT_ALLOWED,
    };

    /// A facility's parameter is not allowed.
    pub const FACILITY_PARAMETER: Refusal = Refusal {
        cause: clearing_cause::INVALID_FACILITY_REQUEST,
        diagnostic: diagnostic::FACILITY_PARAMETER_NOT_ALLOWED,
    };

    /// More than 16 octets of user data without fast select.
    pub const USER_DATA_TOO_LONG: Refusal = Refusal {
        cause: clearing_cause::LOCAL_PROCEDURE_ERROR,
        diagnostic: diagnostic::PACKET_TOO_LONG,
    };

    /// Closed user groups, or a bar on the caller's outgoing calls, do not permit the call.
    pub const ACCESS_BARRED: Refusal = Refusal {
        cause: clearing_cause::ACCESS_BARRED,
        diagnostic: diagnostic::NO_ADDITIONAL_INFORMATION,
    };

    /// The station has no closed user group with the selected index.
    pub const GROUP_NOT_KNOWN: Refusal = Refusal {
        cause: clearing_cause::ACCESS_BARRED,
        diagnostic: diagnostic::FACILITY_PARAMETER_NOT_ALLOWED,
    };

    /// No station and no line has the address.
    pub const ADDRESS_NOT_KNOWN: Refusal = Refusal {
        cause: clearing_cause::NOT_OBTAINABLE,
        diagnostic: diagnostic::INVALID_CALLED_ADDRESS,
    };

    /// No line behind the caller's router is of the calling address.
    pub const CALLER_NOT_KNOWN: Refusal = Refusal {
        cause: clearing_cause::ACCESS_BARRED,
        diagnostic: diagnostic::INVALID_CALLING_ADDRESS,
    };

    /// The called station has incoming calls barred.
    pub const INCOMING_CALLS_BARRED: Refusal = Refusal {
        cause: clearing_cause::ACCESS_BARRED,
        diagnostic: diagnostic::INCOMING_CALL_BARRED,
    };

    /// The called station does not accept reverse charging.
    pub const REVERSE_CHARGING_NOT_ACCEPTED: Refusal = Refusal {
        cause: clearing_cause::REVERSE_CHARGING_NOT_SUBSCRIBED,
        diagnostic: diagnostic::NO_ADDITIONAL_INFORMATION,
    };

    /// The called station does not accept fast select.
    pub const FAST_SELECT_NOT_ACCEPTED: Refusal = Refusal {
        cause: clearing_cause::FAST_SELECT_NOT_SUBSCRIBED,
        diagnostic: diagnostic::NO_ADDITIONAL_INFORMATION,
    };

    /// Each line of the called address is out of service.
    pub const OUT_OF_ORDER: Refusal = Refusal {
        cause: clearing_cause::OUT_OF_ORDER,
        diagnostic: diagnostic::NO_ADDITIONAL_INFORMATION,
    };

    /// No line of the called address is idle.
    pub const NUMBER_BUSY: Refusal = Refusal {
        cause: clearing_cause::NUMBER_BUSY,
        diagnostic: diagnostic::NO_LOGICAL_CHANNEL_AVAILABLE,
    };

    /// The call would be redirected a fifth time.
    pub const TOO_MANY_REDIRECTIONS: Refusal = Refusal {
        cause: clearing_cause::NOT_OBTAINABLE,
        diagnostic: diagnostic::TOO_MANY_REDIRECTIONS,
    };
}
