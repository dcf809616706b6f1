//! Charging records as lines of text. Each function appends to a text. Where memory is wanting, a front of what it appends is there.

ghost use Rattle.std.specs.Prelude.{◌≡◌, [], ◌∷◌, ◌++◌, decimal, OnOk};
ghost use Rattle.hex.specs.Hex.{encode_lower};
ghost use Rattle.xp_charge.specs.Text.{charge_text, digits_text, field};
ghost use Rattle.xp_cdr.specs.RecordLine.{called_name, line_of_call, record_line};

use crate::ended::{EndedCall, NamedLine};
use crate::fields::{characters_of, name_of_payer};
use itoa::Buffer;
use std::alloc::AllocError;
use xp_charge::Record;
use xp_packets::Digits;

/// The text for a called line or digits that do not exist.
const NONE: &str = "-";

/// Appends the charging record of an ended call to `text`, as one line.
///
/// # Errors
///
/// If an allocation fails, a front of the line may be there.
pub fn write_record(call: &EndedCall, text: &mut Vec<u8>) -> Result<(), AllocError>
    ensures { OnOk result (text.new.items ≡ text.old.items ++ record_line call.now) }
{
    text.extend_from_slice(b"record")?;
    push_call(text, call)?;
    push_charge(text, &call.charging)?;
    text.push(b'\n')?;
    Ok(())
}

/// Appends which call it was: its number, the names of its lines and the dialled digits.
fn push_call(text: &mut Vec<u8>, call: &EndedCall) -> Result<(), AllocError>
    ensures { OnOk result (text.new.items ≡ text.old.items ++ line_of_call call.now) }
{
    push_number(text, call.charging.number)?;
    push_field(text, call.caller.name.as_str().as_bytes())?;
    push_field(text, name_of_called(&call.called).as_bytes())?;
    push_digits(text, &call.charging.dialled)
}

/// Appends who pays, for how much, how the call ended, and for how many seconds it was connected.
fn push_charge(text: &mut Vec<u8>, ended: &Record) -> Result<(), AllocError>
    ensures { OnOk result (text.new.items ≡ text.old.items ++ charge_text ended.now) }
{
    push_field(text, name_of_payer(ended.payer).as_bytes())?;
    push_number(text, u64::from(ended.from_caller))?;
    push_number(text, u64::from(ended.from_called))?;
    push_octet(text, ended.cause)?;
    push_number(text, u64::from(ended.diagnostic))?;
    push_number(text, ended.seconds())
}

/// The name of the called line, if there is one.
fn name_of_called(called: &Option<NamedLine>) -> &str
    ensures { result.now ≡ called_name called.now }
{
    match called {
        Some(line) => line.name.as_str(),
        None => NONE,
    }
}

/// Appends a space and the octets of a field.
fn push_field(text: &mut Vec<u8>, octets: &[u8]) -> Result<(), AllocError>
    ensures { OnOk result (text.new.items ≡ text.old.items ++ field octets.now) }
{
    text.push(b' ')?;
    text.extend_from_slice(octets)
}

/// Appends a space and a number in decimal.
fn push_number(text: &mut Vec<u8>, number: u64) -> Result<(), AllocError>
    ensures { OnOk result (text.new.items ≡ text.old.items ++ field (decimal number)) }
{
    let mut buffer = Buffer::new();
    push_field(text, buffer.format(number).as_bytes())
}

/// Appends a space and an octet in hexadecimal.
fn push_octet(text: &mut Vec<u8>, octet: u8) -> Result<(), AllocError>
    ensures { OnOk result (text.new.items ≡ text.old.items ++ field (encode_lower (octet ∷ []))) }
{
    let mut digits = [0; 2];
    hex::encode_to_slice(&[octet], &mut digits).unwrap();
    push_field(text, &digits)
}

/// Appends a space and the digits of an address.
fn push_digits(text: &mut Vec<u8>, digits: &Digits) -> Result<(), AllocError>
    ensures { OnOk result (text.new.items ≡ text.old.items ++ field (digits_text digits.now)) }
{
    if digits.is_empty() {
        return push_field(text, NONE.as_bytes());
    }
    push_field(text, characters_of(digits).as_slice())
}
