ghost use Rattle.std.specs.Prelude.{◌≡◌, ◌∷◌, ◌++◌};
ghost use Rattle.xp_facilities.specs.Indicated.{duration_octets, eight_digits};

use crate::codes;
use crate::parameters::{duration_octets, eight_digits};
use crate::segment_counts::SegmentCounts;

/// What the line that pays for a call is told as the call ends (X.25 clause 6.22).
#[derive(Clone, Copy, Default)]
pub struct ChargingInformation {
    /// How long the call was connected, in seconds; at most 8,639,999, which is 99 days, 23 hours, 59 minutes and 59
    /// seconds.
    pub duration: u32,
    /// The segments of the call.
    pub segments: SegmentCounts,
}

/// The field that indicates the duration and the segments of a call and nothing else (X.25 clause 7.2). This allocates
/// nothing.
#[tactic(auto, unfolding(crate::specs::Indicated::duration_octets, crate::specs::Indicated::eight_digits))]
pub fn charging_field(charging: ChargingInformation) -> [u8; 16]
    ensures { result ≡ (0xc1 ∷ 4 ∷ duration_octets charging.duration)
        ++ 0xc2 ∷ 8 ∷ eight_digits charging.segments.sent ++ eight_digits charging.segments.received }
{
    let [days, hours, minutes, seconds] = duration_octets(charging.duration);
    let [a, b, c, d] = eight_digits(charging.segments.sent);
    let [e, f, g, h] = eight_digits(charging.segments.received);
    [
        codes::CALL_DURATION,
        4,
        days,
        hours,
        minutes,
        seconds,
        codes::SEGMENT_COUNT,
        8,
        a,
        b,
        c,
        d,
        e,
        f,
        g,
        h,
    ]
}
