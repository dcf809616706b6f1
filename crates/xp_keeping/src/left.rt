//! Writing the charging records that the thread has not told as kept.

ghost use Rattle.std.specs.Prelude.{◌≡◌, flat_map};
ghost use Rattle.xp_cdr.specs.Details.{detail_text};
ghost use Rattle.xp_keeping.specs.Printing.{Prints};
ghost use Rattle.xp_keeping.specs.steps.Printing.{PrintsOn};

use crate::keep_fault::KeepFault;
use crate::writing::write_lines;
use std::alloc::Global;
use std::collections::VecDeque;
use std::io::Write;
use xp_cdr::{EndedCall, ExchangeRun, write_detail};

/// Writes the call detail records of these calls, in order, of this run.
///
/// # Errors
///
/// `Memory` or `Output`. Then a front of them is written.
pub(crate) fn write_left<W: Write>(
    alloc: Global,
    run: &ExchangeRun,
    left: &VecDeque<EndedCall>,
    output: &mut W,
) -> Result<(), KeepFault>
    ensures { Prints (W.contents output.old) (W.contents output.new) (flat_map (detail_text run.now) left.now.items) result }
{
    let (first, second) = left.as_slices();
    let so_far = write_slice(alloc, run, first, output);
    write_on(so_far, alloc, run, second, output)
}

/// Writes the call detail records of these calls, unless there was a fault before.
fn write_on<W: Write>(
    before: Result<(), KeepFault>,
    alloc: Global,
    run: &ExchangeRun,
    left: &[EndedCall],
    output: &mut W,
) -> Result<(), KeepFault>
    ensures { PrintsOn before (W.contents output.old) (W.contents output.new) (flat_map (detail_text run.now) left.now) result }
{
    match before {
        Ok(()) => write_slice(alloc, run, left, output),
        Err(fault) => Err(fault),
    }
}

/// Writes the call detail records of these calls.
fn write_slice<W: Write>(
    alloc: Global,
    run: &ExchangeRun,
    left: &[EndedCall],
    output: &mut W,
) -> Result<(), KeepFault>
    ensures { Prints (W.contents output.old) (W.contents output.new) (flat_map (detail_text run.now) left.now) result }
{
    for call in left {
        write_one(alloc, run, call, output)?;
    }
    Ok(())
}

/// Writes the call detail record of this call.
fn write_one<W: Write>(
    alloc: Global,
    run: &ExchangeRun,
    call: &EndedCall,
    output: &mut W,
) -> Result<(), KeepFault>
    ensures { Prints (W.contents output.old) (W.contents output.new) (detail_text run.now call.now) result }
{
    let mut text = Vec::new(alloc);
    write_detail(alloc, run, call, &mut text)?;
    write_lines(&text, output)
}
