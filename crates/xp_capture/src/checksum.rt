//! The checksum of IPv4 and TCP (RFC 1071).

ghost use Rattle.std.specs.Prelude.{◌≡◌, ◌<◌, ◌≤◌, ◌*◌, length};
ghost use Rattle.xp_capture.specs.Checksum.{checksum, sum_of_octets};

/// The sum of the words that at most 65,535 octets are. A zero octet follows the last of an odd count.
pub(crate) fn sum_of_octets(octets: &[u8]) -> u32
    requires { length octets.now ≤ 65_535 }
    ensures sum { result ≡ sum_of_octets octets.now }
    ensures most { result ≤ 4_278_124_800 }
{
    let mut sum = 0;
    let mut rest = octets;
    while let [high, low, behind @ ..] = rest {
        sum += 256 * u32::from(*high) + u32::from(*low);
        rest = behind;
    }
    match rest {
        [high] => sum + 256 * u32::from(*high),
        _ => sum,
    }
}

/// The checksum of words with this sum.
pub(crate) fn checksum(sum: u32) -> u16
    requires { 0 < sum }
    ensures { result ≡ checksum sum }
{
    (65_535 - ((sum - 1) % 65_535 + 1)) as u16
}
