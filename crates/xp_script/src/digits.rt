//! Octets as pairs of hexadecimal digits. No loop is left early, so that a compiler can take many digits at once.

ghost use Rattle.std.specs.Prelude.{◌≡◌, ◌*◌, ◌<◌, length, IsTrue, slice_index, Some, Ok};
ghost use Rattle.std.specs.List.{AllPass, list_all};
ghost use Rattle.hex.specs.Hex.{decode_of, encode_lower, hex_digit_value, is_hex_digit, lower_digits};

/// Whether a text is digits alone, of either case.
pub fn are_digits(text: &[u8]) -> bool
    ensures { result ≡ list_all is_hex_digit text.now }
{
    let mut all = true;
    for octet in text {
        all = all & octet.is_ascii_hexdigit();
    }
    all
}

/// Reads digits, two for each octet.
pub fn read_digits(digits: &[u8], octets: &mut [u8])
    requires pairs { length digits.now ≡ 2 * length octets.old }
    requires digits { AllPass is_hex_digit digits.now }
    ensures { decode_of digits.now ≡ Ok octets.new }
{
    'octets: for place in 0..octets.len() {
        let high = value_of(digits[2 * place]);
        let low = value_of(digits[2 * place + 1]);
        octets[place] = high * 16 + low;
    }
}

/// The value of a digit: the low half of its code, and 9 more for a letter.
fn value_of(digit: u8) -> u8
    requires { IsTrue (is_hex_digit digit) }
    ensures value { hex_digit_value digit ≡ Some result }
    ensures below { result < 16 }
{
    digit % 16 + digit / 64 * 9
}

/// Writes octets, two digits in lower case for each.
pub fn write_digits(octets: &[u8], digits: &mut [u8])
    requires { length digits.old ≡ 2 * length octets.now }
    ensures { digits.new ≡ encode_lower octets.now }
{
    'octets: for place in 0..octets.len() {
        let octet = octets[place];
        digits[2 * place] = digit_of(octet / 16);
        digits[2 * place + 1] = digit_of(octet % 16);
    }
}

/// The digit of a value.
fn digit_of(value: u8) -> u8
    requires { value < 16 }
    ensures { result ≡ slice_index lower_digits value }
{
    let letters = if value < 10 { 0 } else { b'a' - 10 - b'0' };
    b'0' + letters + value
}
