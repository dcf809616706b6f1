//! The parts of a line of text. Each function appends to a text, and keeps what the text already contains, even if an
//! allocation fails.

ghost use Rattle.std.specs.Prelude.{◌≡◌, [], ◌∷◌, ◌++◌, decimal, OnOk};
ghost use Rattle.hex.specs.Hex.{encode_lower};
ghost use Rattle.xp_packets.specs.Digits.{text_of};
ghost use Rattle.xp_charge.specs.Text.{digits_text, field};
ghost use Rattle.xp_charge.specs.steps.Text.{Keeps};

use itoa::Buffer;
use std::alloc::{AllocError, Allocator};
use xp_packets::Digits;

/// The text for a called line or digits that do not exist.
pub const NONE: &str = "-";

/// Appends a space and the octets of a field.
///
/// # Errors
///
/// An allocation failed. Then `text` still begins with what it contained before.
pub fn push_field<A: Allocator>(text: &mut Vec<u8, A>, octets: &[u8]) -> Result<(), AllocError>
    ensures ok { OnOk result (text.new.items ≡ text.old.items ++ field octets.now) }
    ensures kept { Keeps text.old.items text.new.items }
{
    text.push(b' ')?;
    text.extend_from_slice(octets)
}

/// Appends a space and a number in decimal.
///
/// # Errors
///
/// An allocation failed. Then `text` still begins with what it contained before.
pub fn push_number<A: Allocator>(text: &mut Vec<u8, A>, number: u64) -> Result<(), AllocError>
    ensures ok { OnOk result (text.new.items ≡ text.old.items ++ field (decimal number)) }
    ensures kept { Keeps text.old.items text.new.items }
{
    let mut buffer = Buffer::new();
    push_field(text, buffer.format(number).as_bytes())
}

/// Appends a space and an octet in hexadecimal.
///
/// # Errors
///
/// An allocation failed. Then `text` still begins with what it contained before.
pub fn push_octet<A: Allocator>(text: &mut Vec<u8, A>, octet: u8) -> Result<(), AllocError>
    ensures ok { OnOk result (text.new.items ≡ text.old.items ++ field (encode_lower (octet ∷ []))) }
    ensures kept { Keeps text.old.items text.new.items }
{
    let mut digits = [0; 2];
    hex::encode_to_slice(&[octet], &mut digits).unwrap();
    push_field(text, &digits)
}

/// Appends a space and the digits of an address.
///
/// # Errors
///
/// An allocation failed. Then `text` still begins with what it contained before.
pub fn push_digits<A: Allocator>(text: &mut Vec<u8, A>, digits: &Digits) -> Result<(), AllocError>
    ensures ok { OnOk result (text.new.items ≡ text.old.items ++ field (digits_text digits.now)) }
    ensures kept { Keeps text.old.items text.new.items }
{
    if digits.is_empty() {
        return push_field(text, NONE.as_bytes());
    }
    text.push(b' ')?;
    push_characters(text, digits)
}

/// Appends the characters of the digits.
fn push_characters<A: Allocator>(text: &mut Vec<u8, A>, digits: &Digits) -> Result<(), AllocError>
    ensures ok { OnOk result (text.new.items ≡ text.old.items ++ text_of digits.now) }
    ensures kept { Keeps text.old.items text.new.items }
{
    let digits = digits.as_slice();
    for digit in digits {
        text.push(b'0' + *digit)?;
    }
    Ok(())
}
