//! The parameters of the items that indicate facilities (X.25 clause 7.2).
ghost use Rattle.std.specs.Prelude.{◌≡◌, ◌<◌};
ghost use Rattle.xp_facilities.specs.Indicated.{decimal_octet, duration_octets, eight_digits, options, closed_index, open_index, two_digit_index, four_digit_index, throughput, modified, pair, duration, counts};

use crate::direction_sizes::DirectionSizes;
use crate::fast_select::FastSelect;
use crate::redirection::Reason;
use crate::segment_counts::SegmentCounts;
use crate::selection::Selection;

/// The parameter for fast select in bits 8 and 7 and reverse charging in bit 1. `None` if the call has neither.
#[tactic(auto, unfolding(crate::specs::Indicated::options, crate::specs::Indicated::fast_bits))]
pub(crate) fn options(fast: FastSelect, reverse: bool) -> Option<[u8; 1]>
    ensures { result ≡ options fast reverse }
{
    let bits = match fast {
        FastSelect::No if !reverse => return None,
        FastSelect::No => 0x00,
        FastSelect::Unrestricted => 0x80,
        FastSelect::Restricted => 0xc0,
    };
    Some([bits + u8::from(reverse)])
}

#[tactic(auto, unfolding(crate::specs::Indicated::closed_index))]
pub(crate) fn closed_index(selection: Selection) -> Option<u16>
    ensures { result ≡ closed_index selection }
{
    match selection {
        Selection::Closed(index) => Some(index),
        Selection::Nothing | Selection::WithOutsideAccess(_) => None,
    }
}

#[tactic(auto, unfolding(crate::specs::Indicated::open_index))]
pub(crate) fn open_index(selection: Selection) -> Option<u16>
    ensures { result ≡ open_index selection }
{
    match selection {
        Selection::WithOutsideAccess(index) => Some(index),
        Selection::Nothing | Selection::Closed(_) => None,
    }
}

/// An index of at most two digits. `None` for a longer one.
#[tactic(auto, unfolding(crate::specs::Indicated::two_digit_index, crate::specs::Indicated::two_digits))]
pub(crate) fn two_digit_index(index: Option<u16>) -> Option<[u8; 1]>
    ensures { result ≡ two_digit_index index }
{
    match index {
        Some(index) if index < 100 => Some([decimal_octet(u32::from(index % 100))]),
        _ => None,
    }
}

/// An index of more than two digits. `None` for a shorter one.
#[tactic(auto, unfolding(crate::specs::Indicated::four_digit_index, crate::specs::Indicated::four_digits))]
pub(crate) fn four_digit_index(index: Option<u16>) -> Option<[u8; 2]>
    ensures { result ≡ four_digit_index index }
{
    match index {
        Some(index) if index >= 100 => Some([
            decimal_octet(u32::from(index / 100 % 100)),
            decimal_octet(u32::from(index % 100)),
        ]),
        _ => None,
    }
}

#[tactic(auto, unfolding(crate::specs::Indicated::throughput))]
pub(crate) fn throughput(class: Option<u8>) -> Option<[u8; 1]>
    ensures { result ≡ throughput class }
{
    match class {
        Some(class) => Some([class]),
        None => None,
    }
}

#[tactic(auto, unfolding(crate::specs::Indicated::modified))]
pub(crate) fn modified(reason: Option<Reason>) -> Option<[u8; 1]>
    ensures { result ≡ modified reason }
{
    match reason {
        Some(reason) => Some([reason.octet()]),
        None => None,
    }
}

#[tactic(auto, unfolding(crate::specs::Indicated::pair))]
pub(crate) fn pair(sizes: Option<DirectionSizes>) -> Option<[u8; 2]>
    ensures { result ≡ pair sizes }
{
    match sizes {
        Some(sizes) => Some([sizes.from_called, sizes.from_calling]),
        None => None,
    }
}

/// The days, hours, minutes and seconds of a duration.
#[tactic(auto, unfolding(crate::specs::Indicated::duration))]
pub(crate) fn duration(seconds: Option<u32>) -> Option<[u8; 4]>
    ensures { result ≡ duration seconds }
{
    match seconds {
        Some(seconds) => Some(duration_octets(seconds)),
        None => None,
    }
}

/// Eight decimal digits for the segments sent to the DTE, then eight for those received from it.
#[tactic(auto, unfolding(crate::specs::Indicated::counts))]
pub(crate) fn counts(segments: Option<SegmentCounts>) -> Option<[u8; 8]>
    ensures { result ≡ counts segments }
{
    match segments {
        Some(SegmentCounts { sent, received }) => {
            let [a, b, c, d] = eight_digits(sent);
            let [e, f, g, h] = eight_digits(received);
            Some([a, b, c, d, e, f, g, h])
        }
        None => None,
    }
}

/// Days, hours, minutes and seconds, of two decimal digits each; of the days the last two digits.
#[tactic(auto, unfolding(crate::specs::Indicated::duration_octets))]
pub(crate) fn duration_octets(seconds: u32) -> [u8; 4]
    ensures { result ≡ duration_octets seconds }
{
    [
        decimal_octet(seconds / 86_400 % 100),
        decimal_octet(seconds / 3_600 % 24),
        decimal_octet(seconds / 60 % 60),
        decimal_octet(seconds % 60),
    ]
}

/// Eight decimal digits, in half-octets.
#[tactic(auto, unfolding(crate::specs::Indicated::eight_digits))]
pub(crate) fn eight_digits(number: u32) -> [u8; 4]
    ensures { result ≡ eight_digits number }
{
    [
        decimal_octet(number / 1_000_000 % 100),
        decimal_octet(number / 10_000 % 100),
        decimal_octet(number / 100 % 100),
        decimal_octet(number % 100),
    ]
}

/// Two decimal digits, in the half-octets of an octet.
#[tactic(auto, unfolding(crate::specs::Indicated::decimal_octet))]
fn decimal_octet(number: u32) -> u8
    requires { number < 100 }
    ensures { result ≡ decimal_octet number }
{
    (16 * (number / 10) + number % 10) as u8
}
