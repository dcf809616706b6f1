//! States, causes and payers in words.

ghost use Rattle.std.specs.Prelude.{◌≡◌};
ghost use Rattle.xp_console.specs.Words.{cause_text as text_of_cause, payer_text as text_of_payer, state_text as text_of_state};

use crate::status::{LineState, Payer};
use xp_causes::{DTE_ORIGINATED, FIRST_DTE_CAUSE, clearing_cause};

/// The state of a line's channel, as X.25 Annex B names it.
pub(crate) fn state_text(state: LineState) -> &'static str
    ensures { result.now ≡ text_of_state state }
{
    match state {
        LineState::OutOfService => "out of service",
        LineState::Ready => "ready",
        LineState::DteWaiting => "DTE waiting",
        LineState::DceWaiting => "DCE waiting",
        LineState::DataTransfer => "data transfer",
        LineState::DceClearIndication => "DCE clear indication",
    }
}

/// The end that pays.
pub(crate) fn payer_text(payer: Payer) -> &'static str
    ensures { result.now ≡ text_of_payer payer }
{
    match payer {
        Payer::Caller => "caller",
        Payer::Called => "called",
    }
}

/// The clearing cause, as X.25 clause 5.2.4 names it.
pub(crate) fn cause_text(cause: u8) -> &'static str
    ensures { result.now ≡ text_of_cause cause }
{
    match cause {
        clearing_cause::NUMBER_BUSY => "number busy",
        clearing_cause::INVALID_FACILITY_REQUEST => "invalid facility request",
        clearing_cause::NETWORK_CONGESTION => "network congestion",
        clearing_cause::OUT_OF_ORDER => "out of order",
        clearing_cause::ACCESS_BARRED => "access barred",
        clearing_cause::NOT_OBTAINABLE => "not obtainable",
        clearing_cause::REMOTE_PROCEDURE_ERROR => "remote procedure error",
        clearing_cause::LOCAL_PROCEDURE_ERROR => "local procedure error",
        clearing_cause::REVERSE_CHARGING_NOT_SUBSCRIBED => {
            "reverse charging acceptance not subscribed"
        }
        clearing_cause::FAST_SELECT_NOT_SUBSCRIBED => "fast select acceptance not subscribed",
        DTE_ORIGINATED | FIRST_DTE_CAUSE..=0xff => "DTE originated",
        _ => "unknown",
    }
}
