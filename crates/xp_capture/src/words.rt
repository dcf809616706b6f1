//! Words of 16 bits, in network order.

ghost use Rattle.std.specs.Prelude.{◌≡◌, ◌+◌, ◌*◌, ◌/◌, ◌%◌, ◌≤◌, ◌++◌, length, sum};
ghost use Rattle.xp_capture.specs.Segment.{octets_of_words};

use arrayvec::ArrayVec;

/// A number of 32 bits as two words.
pub(crate) fn high_word(number: u32) -> u16
    ensures { result ≡ number / 65_536 }
{
    (number / 65_536) as u16
}

/// Its low word.
pub(crate) fn low_word(number: u32) -> u16
    ensures { result ≡ number % 65_536 }
{
    (number % 65_536) as u16
}

/// The sum of at most 20 words.
pub(crate) fn sum_of_words(words: &[u16]) -> u32
    requires { length words.now ≤ 20 }
    ensures sum { result ≡ sum words.now }
    ensures most { result ≤ 1_310_700 }
{
    let mut sum = 0;
    for word in words {
        sum += u32::from(*word);
    }
    sum
}

/// The most octets in front of the data of a segment: its record, and both headers.
pub(crate) const HEAD_LENGTH: usize = 56;

/// The octets in front of the data of a segment.
pub(crate) type Head = ArrayVec<u8, HEAD_LENGTH>;

/// Appends the octets of words.
pub(crate) fn push_words(head: &mut Head, words: &[u16])
    requires { length head.old.items + 2 * length words.now ≤ 56 }
    ensures { head.new.items ≡ head.old.items ++ octets_of_words words.now }
{
    for word in words {
        let [high, low] = word.to_be_bytes();
        head.push(high);
        head.push(low);
    }
}
