ghost use Rattle.std.specs.Prelude.{◌≡◌, map, if◌then◌else◌};
ghost use Rattle.xp_file.specs.Address.{is_address, digit_of};

use crate::letters::Letters;
use xp_packets::Digits;

/// Reads an address from text: 1 to 15 digits. Returns `None` for any other text.
pub(crate) fn read_digits(text: &str) -> Option<Digits>
    ensures { result ≡ (if is_address text.now then Some (map digit_of text.now) else None) }
{
    if !Letters::Digits.spell(text, 1, Digits::MOST) {
        return None;
    }
    let mut digits = Digits::new();
    for octet in text.as_bytes() {
        digits.push(*octet - b'0');
    }
    Some(digits)
}
