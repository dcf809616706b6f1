ghost use Rattle.std.specs.Prelude.{◌≡◌};
ghost use Rattle.xp_facilities.specs.Octets.{reason_octet};

use xp_packets::Digits;

/// Why a call went to another line than the dialled one (X.25 clauses 6.25 and 6.26).
#[derive(Clone, Copy, PartialEq, Eq)]
pub enum Reason {
    /// The dialled station was busy.
    Busy,
    /// Distribution in a hunt group.
    Distribution,
    /// The dialled station was out of order.
    OutOfOrder,
    /// Systematic redirection.
    Systematic,
}

impl Reason {
    /// The octet for the reason in a packet (X.25 clauses 7.2.2.11 and 7.2.2.12).
    pub fn octet(self) -> u8
        ensures { result ≡ reason_octet self }
    {
        match self {
            Reason::Busy => 0x01,
            Reason::Distribution => 0x07,
            Reason::OutOfOrder => 0x09,
            Reason::Systematic => 0x0f,
        }
    }
}

/// The call redirection notification (X.25 clause 6.25.3).
#[derive(Drop)]
pub struct RedirectionNotification {
    pub reason: Reason,
    /// The address that was dialled.
    pub dialled: Digits,
}
