//! Call detail records as lines of CSV.

ghost use Rattle.std.specs.Prelude.{◌≡◌, ◌++◌, [], IfOk, OnErr, OnOk};
ghost use Rattle.csv.specs.Records.{fields_of, partial_of};
ghost use Rattle.csv.specs.Writing.{default_writer, row_text};
ghost use Rattle.xp_cdr.specs.Details.{detail_fields, detail_text, header_text};

use crate::ended::EndedCall;
use crate::fields::{push_call, push_charge, push_end, push_moments, push_origin};
use crate::run::ExchangeRun;
use csv::{ByteRecord, Writer};
use std::alloc::{AllocError, Allocator, Global};

/// The first line of a file of call detail records: the names of the fields.
pub const HEADER: &str =
    "started,number,caller_line,caller_address,called_line,called_address,dialled,payer,segments_from_caller,segments_from_called,requested,connected,ended,seconds,cause,diagnostic,exchange,ended_by\n";

/// The first line of a file of call detail records that tell neither their exchange nor by what a call ended.
pub(crate) const OLD_HEADER: &str =
    "started,number,caller_line,caller_address,called_line,called_address,dialled,payer,segments_from_caller,segments_from_called,requested,connected,ended,seconds,cause,diagnostic\n";

/// Appends the names of the fields to `text`, as one line.
///
/// # Errors
///
/// If an allocation fails, `text` is unchanged.
pub fn write_header<A: Allocator>(text: &mut Vec<u8, A>) -> Result<(), AllocError>
    ensures ok { OnOk result (text.new.items ≡ text.old.items ++ header_text) }
    ensures err { OnErr result (text.new.items ≡ text.old.items) }
{
    text.extend_from_slice(HEADER.as_bytes())
}

/// Appends the call detail record of an ended call to `text`, as one line of CSV, of this run of
/// an exchange.
///
/// # Errors
///
/// If an allocation fails, `text` is unchanged.
#[tactic(auto, unfolding(crate::specs::Details::detail_text))]
pub fn write_detail<A: Allocator>(
    alloc: Global,
    run: &ExchangeRun,
    call: &EndedCall,
    text: &mut Vec<u8, A>,
) -> Result<(), AllocError>
    ensures ok { OnOk result (text.new.items ≡ text.old.items ++ detail_text run.now call.now) }
    ensures err { OnErr result (text.new.items ≡ text.old.items) }
{
    let mut row = ByteRecord::new(alloc);
    push_fields(&mut row, run, call)?;
    let line = line_of(alloc, &row)?;
    text.extend_from_slice(line.as_slice())
}

/// Adds the fields of a call detail record to a row that has none.
fn push_fields(row: &mut ByteRecord, run: &ExchangeRun, call: &EndedCall) -> Result<(), AllocError>
    requires none { fields_of row.old ≡ [] }
    requires begun { partial_of row.old ≡ [] }
    ensures { OnOk result (fields_of row.new ≡ detail_fields run.now call.now) }
{
    push_call(row, run.started, call)?;
    push_charge(row, &call.charging)?;
    push_moments(row, &call.charging)?;
    push_end(row, &call.charging)?;
    push_origin(row, run, call.ended_by)
}

/// The fields as a line of CSV. A writer into memory fails for memory alone.
fn line_of(alloc: Global, row: &ByteRecord) -> Result<Vec<u8>, AllocError>
    ensures { IfOk result (λ line. line.items ≡ row_text default_writer (fields_of row.now)) }
{
    let mut writer = Writer::from_writer(Vec::new(alloc));
    match writer.write_byte_record(row) {
        Ok(()) => {}
        Err(_) => return Err(AllocError),
    }
    match writer.into_inner() {
        Ok(line) => Ok(line),
        Err(_) => Err(AllocError),
    }
}
