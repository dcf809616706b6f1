//! The fields of a call detail record. Each function adds fields to a row that has no field begun.

ghost use Rattle.std.specs.Prelude.{◌≡◌, [], ◌∷◌, ◌++◌, decimal, OnOk};
ghost use Rattle.csv.specs.Records.{fields_of, partial_of};
ghost use Rattle.hex.specs.Hex.{encode_lower};
ghost use Rattle.xp_packets.specs.Digits.{text_of};
ghost use Rattle.xp_charge.specs.Text.{payer_text};
ghost use Rattle.xp_cdr.specs.Details.{call_fields, called_fields, charge_fields, connected_text, end_fields, ended_by_text, line_fields, moment_fields, origin_fields};

use crate::ended::{EndedBy, EndedCall, NamedLine};
use crate::moment::push_moment;
use crate::run::ExchangeRun;
use arrayvec::ArrayVec;
use csv::ByteRecord;
use itoa::Buffer;
use std::alloc::AllocError;
use xp_charge::Record;
use xp_packets::{Digits, End};

/// Adds which call it was: its number in which run of the exchange, its lines and the dialled digits.
pub fn push_call(row: &mut ByteRecord, started: u64, call: &EndedCall) -> Result<(), AllocError>
    requires begun { partial_of row.old ≡ [] }
    ensures fields { OnOk result (fields_of row.new ≡ fields_of row.old ++ call_fields started call.now) }
    ensures whole { OnOk result (partial_of row.new ≡ []) }
{
    push_moment(row, started)?;
    push_number(row, call.charging.number)?;
    push_line(row, &call.caller)?;
    push_called(row, &call.called)?;
    push_digits(row, &call.charging.dialled)
}

/// Adds who pays, and for how many segments.
pub fn push_charge(row: &mut ByteRecord, ended: &Record) -> Result<(), AllocError>
    requires begun { partial_of row.old ≡ [] }
    ensures fields { OnOk result (fields_of row.new ≡ fields_of row.old ++ charge_fields ended.now) }
    ensures whole { OnOk result (partial_of row.new ≡ []) }
{
    row.push_field(name_of_payer(ended.payer).as_bytes())?;
    push_number(row, u64::from(ended.from_caller))?;
    push_number(row, u64::from(ended.from_called))
}

/// Adds the moments of the call, and for how many seconds it was connected.
pub fn push_moments(row: &mut ByteRecord, ended: &Record) -> Result<(), AllocError>
    requires begun { partial_of row.old ≡ [] }
    ensures fields { OnOk result (fields_of row.new ≡ fields_of row.old ++ moment_fields ended.now) }
    ensures whole { OnOk result (partial_of row.new ≡ []) }
{
    push_moment(row, ended.requested)?;
    push_connected(row, ended.connected)?;
    push_moment(row, ended.ended)?;
    push_number(row, ended.seconds())
}

/// Adds how the call ended.
pub fn push_end(row: &mut ByteRecord, ended: &Record) -> Result<(), AllocError>
    requires begun { partial_of row.old ≡ [] }
    ensures fields { OnOk result (fields_of row.new ≡ fields_of row.old ++ end_fields ended.now) }
    ensures whole { OnOk result (partial_of row.new ≡ []) }
{
    push_octet(row, ended.cause)?;
    push_number(row, u64::from(ended.diagnostic))
}

/// Adds of which exchange the call was, and by what it ended.
pub fn push_origin(
    row: &mut ByteRecord,
    run: &ExchangeRun,
    ended_by: EndedBy,
) -> Result<(), AllocError>
    requires begun { partial_of row.old ≡ [] }
    ensures fields { OnOk result (fields_of row.new ≡ fields_of row.old ++ origin_fields run.now ended_by) }
    ensures whole { OnOk result (partial_of row.new ≡ []) }
{
    row.push_field(run.exchange.as_bytes())?;
    row.push_field(name_of_end(ended_by).as_bytes())
}

/// Adds a number in decimal.
pub fn push_number(row: &mut ByteRecord, number: u64) -> Result<(), AllocError>
    requires begun { partial_of row.old ≡ [] }
    ensures fields { OnOk result (fields_of row.new ≡ fields_of row.old ++ decimal number ∷ []) }
    ensures whole { OnOk result (partial_of row.new ≡ []) }
{
    let mut digits = Buffer::new();
    row.push_field(digits.format(number).as_bytes())
}

/// Adds an octet in hexadecimal.
fn push_octet(row: &mut ByteRecord, octet: u8) -> Result<(), AllocError>
    requires begun { partial_of row.old ≡ [] }
    ensures fields { OnOk result (fields_of row.new ≡ fields_of row.old ++ encode_lower (octet ∷ []) ∷ []) }
    ensures whole { OnOk result (partial_of row.new ≡ []) }
{
    let mut digits = [0; 2];
    hex::encode_to_slice(&[octet], &mut digits).unwrap();
    row.push_field(&digits)
}

/// Adds the name and the address of a line.
fn push_line(row: &mut ByteRecord, line: &NamedLine) -> Result<(), AllocError>
    requires begun { partial_of row.old ≡ [] }
    ensures fields { OnOk result (fields_of row.new ≡ fields_of row.old ++ line_fields line.now) }
    ensures whole { OnOk result (partial_of row.new ≡ []) }
{
    row.push_field(line.name.as_str().as_bytes())?;
    push_digits(row, &line.address)
}

/// Adds the name and the address of the called line, or two empty fields.
fn push_called(row: &mut ByteRecord, called: &Option<NamedLine>) -> Result<(), AllocError>
    requires begun { partial_of row.old ≡ [] }
    ensures fields { OnOk result (fields_of row.new ≡ fields_of row.old ++ called_fields called.now) }
    ensures whole { OnOk result (partial_of row.new ≡ []) }
{
    match called {
        Some(line) => push_line(row, line),
        None => {
            row.push_field(b"")?;
            row.push_field(b"")
        }
    }
}

/// Adds the moment at which the call was connected, or an empty field.
fn push_connected(row: &mut ByteRecord, connected: Option<u64>) -> Result<(), AllocError>
    requires begun { partial_of row.old ≡ [] }
    ensures fields { OnOk result (fields_of row.new ≡ fields_of row.old ++ connected_text connected ∷ []) }
    ensures whole { OnOk result (partial_of row.new ≡ []) }
{
    match connected {
        Some(moment) => push_moment(row, moment),
        None => row.push_field(b""),
    }
}

/// Adds the digits of an address.
fn push_digits(row: &mut ByteRecord, digits: &Digits) -> Result<(), AllocError>
    requires begun { partial_of row.old ≡ [] }
    ensures fields { OnOk result (fields_of row.new ≡ fields_of row.old ++ text_of digits.now ∷ []) }
    ensures whole { OnOk result (partial_of row.new ≡ []) }
{
    row.push_field(characters_of(digits).as_slice())
}

/// The characters of the digits.
pub fn characters_of(digits: &Digits) -> ArrayVec<u8, 15>
    ensures { result.items ≡ text_of digits.now }
{
    let digits = digits.as_slice();
    let mut characters = ArrayVec::new();
    for digit in digits {
        characters.push(b'0' + *digit);
    }
    characters
}

/// The end that pays, as a word.
pub fn name_of_payer(payer: End) -> &'static str
    ensures { result.now ≡ payer_text payer }
{
    match payer {
        End::Caller => "caller",
        End::Called => "called",
    }
}

fn name_of_end(ended_by: EndedBy) -> &'static str
    ensures { result.now ≡ ended_by_text ended_by }
{
    match ended_by {
        EndedBy::Call => "call",
        EndedBy::Stop => "stop",
        EndedBy::Partial => "partial",
    }
}
