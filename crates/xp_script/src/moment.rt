//! Moments as decimal digits.

ghost use Rattle.std.specs.Char.{is_ascii_digit};
ghost use Rattle.std.specs.List.{list_all};
ghost use Rattle.std.specs.Prelude.{◌≡◌};
ghost use Rattle.xp_script.specs.Command.{moment_of};

use std::str;

/// The most digits that a moment may have.
const MOST_DIGITS: usize = 20;

/// The moment that decimal digits stand for, in seconds: 1 to 20 digits, of a number that has 64 bits.
pub fn moment_of(digits: &[u8]) -> Option<u64>
    ensures { result ≡ moment_of digits.now }
{
    if digits.len() > MOST_DIGITS || !are_decimal(digits) {
        return None;
    }
    match str::from_utf8(digits) {
        Ok(text) => text.parse().ok(),
        Err(_) => None,
    }
}

/// Whether a text is decimal digits alone.
fn are_decimal(text: &[u8]) -> bool
    ensures { result ≡ list_all is_ascii_digit text.now }
{
    text.iter().all(|octet| octet.is_ascii_digit())
}
