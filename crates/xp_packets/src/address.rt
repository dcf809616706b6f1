//! Addresses as half-octets, one digit in each (X.25 clause 5.2.1).

ghost use Rattle.std.specs.Prelude.{◌≡◌, ◌+◌, ◌*◌, ◌<◌, ◌≤◌, ◌++◌, length, slice_index, OnOk};
ghost use Rattle.xp_packets.specs.Addresses.{AreAddresses};
ghost use Rattle.xp_packets.specs.Digits.{AreDigits, half_octets};
ghost use Rattle.xp_packets.specs.steps.Reading.{MatchesReading, addresses_at, digits_at};
ghost use Rattle.xp_packets.specs.Writing.{packed};

use crate::digits::Digits;
use crate::fault::Malformed;
use std::alloc::{AllocError, Allocator};

/// Reads the called and the calling address, which have `called` and `calling` digits. Also returns the octets after
/// them.
#[tactic(auto, unfolding(crate::specs::steps::Reading::addresses_at))]
pub(crate) fn addresses_of(
    called: usize,
    calling: usize,
    octets: &[u8],
) -> Result<(Digits, Digits, &[u8]), Malformed>
    requires called_most { called ≤ 15 }
    requires calling_most { calling ≤ 15 }
    ensures { MatchesReading (λ x. (x.0, x.1, x.2.now)) result (addresses_at called calling octets.now) }
{
    let count = called + calling;
    let size = (count + 1) / 2;
    if octets.len() < size {
        return Err(Malformed::Address);
    }
    let (run, rest) = octets.split_at(size);
    let to = digits_of(run, 0, called)?;
    let by = digits_of(run, called, calling)?;
    if count % 2 == 1 && half_octet(run, count) != 0 {
        return Err(Malformed::Address);
    }
    Ok((to, by, rest))
}

/// Reads `count` half-octets, from half-octet `from` on, as digits.
fn digits_of(octets: &[u8], from: usize, count: usize) -> Result<Digits, Malformed>
    requires within { from + count ≤ 2 * length octets.now }
    requires most { count ≤ 15 }
    ensures { MatchesReading (λ x. x) result (digits_at octets.now from count) }
{
    let mut digits = Digits::new();
    for place in 0..count {
        let digit = half_octet(octets, from + place);
        if digit >= 10 {
            return Err(Malformed::Address);
        }
        digits.push(digit);
    }
    Ok(digits)
}

/// The half-octet at `place`. The high half of each octet comes first.
fn half_octet(octets: &[u8], place: usize) -> u8
    requires { place < 2 * length octets.now }
    ensures { result ≡ slice_index (half_octets octets.now) place }
{
    let octet = octets[place / 2];
    if place % 2 == 0 {
        octet >> 4
    } else {
        octet & 0x0f
    }
}

/// Writes both addresses, and a zero half-octet where their count of digits is odd.
pub(crate) fn push_addresses<A: Allocator>(
    out: &mut Vec<u8, A>,
    called: &Digits,
    calling: &Digits,
) -> Result<(), AllocError>
    ensures written { OnOk result (out.new.items ≡ out.old.items ++ packed (called.now ++ calling.now)) }
    ensures addressed { AreAddresses called.now calling.now }
{
    let called = called.as_slice();
    let calling = calling.as_slice();
    let count = called.len() + calling.len();
    for place in 0..(count + 1) / 2 {
        let high = digit_at(called, calling, 2 * place);
        let low = digit_at(called, calling, 2 * place + 1);
        out.push((high << 4) | low)?;
    }
    Ok(())
}

/// The digit at `place` in the called address followed by the calling address; zero after the last digit.
fn digit_at(called: &[u8], calling: &[u8], place: usize) -> u8
    requires called_digits { AreDigits called.now }
    requires calling_digits { AreDigits calling.now }
    ensures digit { result ≡ slice_index (called.now ++ calling.now) place }
    ensures below { result < 10 }
{
    if place < called.len() {
        called[place]
    } else if place - called.len() < calling.len() {
        calling[place - called.len()]
    } else {
        0
    }
}
