//! What the far end of a call receives when a DTE clears or resets the call (X.25 clauses 5.2.4 and 5.4.3).
ghost use Rattle.std.specs.Prelude.{◌≡◌};
ghost use Rattle.xp_causes.specs.Indicated.{indicated_cause as cause_indicated, indicated_diagnostic as diagnostic_indicated};

use crate::diagnostic::NO_ADDITIONAL_INFORMATION;

/// The cause of a clear or a reset that a DTE requested without a cause of its own.
pub const DTE_ORIGINATED: u8 = 0x00;

/// The first of the causes 0x80 to 0xff, which a DTE chooses itself.
pub const FIRST_DTE_CAUSE: u8 = 0x80;

/// The cause that the exchange sends to the far end when a DTE requests a clear or a reset with `cause`: `cause`
/// itself if it is 0x80 or above, otherwise [`DTE_ORIGINATED`].
pub fn indicated_cause(cause: u8) -> u8
    ensures { result ≡ cause_indicated cause }
{
    if cause >= FIRST_DTE_CAUSE {
        cause
    } else {
        DTE_ORIGINATED
    }
}

/// The diagnostic that the exchange sends to the far end: the one of the request, or `NO_ADDITIONAL_INFORMATION` if
/// it has none.
pub fn indicated_diagnostic(diagnostic: Option<u8>) -> u8
    ensures { result ≡ diagnostic_indicated diagnostic }
{
    diagnostic.unwrap_or(NO_ADDITIONAL_INFORMATION)
}
