ghost use Rattle.std.specs.Prelude.{◌≡◌, ◌≤◌, min, Some};
ghost use Rattle.xp_charge.specs.Duration.{duration};
ghost use Rattle.xp_facilities.specs.Limits.{largest_duration};
ghost use Rattle.xp_machine.specs.RelayTerms.{terms_of};

use xp_answer::Terms;
use xp_facilities::limits::LARGEST_DURATION;
use xp_packets::Modulus;
use xp_relay::Agreed;

/// What the answer to an incoming call settles.
#[derive(Clone, Copy)]
pub struct Agreement {
    /// The packet and window sizes of the call.
    pub terms: Terms,
    /// Whether the called line asks for charging information.
    pub charging: bool,
    /// The moment of the answer, at which the call was connected, in seconds.
    pub connected: u64,
}

impl Agreement {
    /// Returns the duration that is told of a call that ends at this moment, in seconds: the time since it was connected,
    /// at most the longest that a field indicates (X.25 clause 6.22), and 0 if the clock went back.
    pub(crate) fn told_duration(self, ended: u64) -> u32
        ensures duration { result ≡ min largest_duration (duration (Some self.connected) ended) }
        ensures most { result ≤ 8_639_999 }
    {
        let seconds = ended.saturating_sub(self.connected);
        seconds.min(u64::from(LARGEST_DURATION)) as u32
    }

    /// Returns what was agreed for the data of each end, where the caller's line and the called line have these moduli.
    pub fn relay_terms(self, caller: Modulus, called: Modulus) -> xp_relay::Terms
        ensures { result ≡ terms_of self caller called }
    {
        let Terms { packet, window } = self.terms;
        xp_relay::Terms {
            from_caller: Agreed {
                size: packet.from_calling,
                window: window.from_calling,
            },
            from_called: Agreed {
                size: packet.from_called,
                window: window.from_called,
            },
            caller,
            called,
        }
    }
}
