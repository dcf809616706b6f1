//! Writing the records in doubt, as a run ends whose records go to a file.

ghost use Rattle.std.specs.Prelude.{IfSome};
ghost use Rattle.xp_keeping.specs.Doubt.{IsOfRun, WritesDoubted};

use crate::details::DetailKeeper;
use crate::keep_fault::KeepFault;
use crate::left::write_left;
use crate::queued::QueuedKeeper;
use crate::writing::{flush, write_lines};
use log::Log;
use std::alloc::Global;
use std::io::Write;
use std::sync::Wait;
use std::thread::Threads;
use xp_cdr::{ExchangeRun, RecordFile};

/// Writes the call detail records of the records in doubt on the output, of this run, and flushes the output. The thread of the keeper writes nothing there, also where it was given up and goes on.
///
/// # Errors
///
/// `Memory` or `Output`. Then a front of them is written.
pub fn write_doubted<F: RecordFile, L: Log + Drop, R: Threads + Wait + Copy, W: Write>(
    alloc: Global,
    run: &ExchangeRun,
    keeper: &QueuedKeeper<DetailKeeper<F, L>, R>,
    output: &mut W,
) -> Result<(), KeepFault>
    requires { IfSome keeper.now.last (IsOfRun run.now) }
    ensures { WritesDoubted run.now keeper.now (W.contents output.old) (W.contents output.new) result }
{
    match write_unflushed(alloc, run, keeper, output) {
        Ok(()) => flush(output),
        Err(fault) => Err(fault),
    }
}

/// Writes the call detail records of the records in doubt.
fn write_unflushed<F: RecordFile, L: Log + Drop, R: Threads + Wait + Copy, W: Write>(
    alloc: Global,
    run: &ExchangeRun,
    keeper: &QueuedKeeper<DetailKeeper<F, L>, R>,
    output: &mut W,
) -> Result<(), KeepFault>
    requires { IfSome keeper.now.last (IsOfRun run.now) }
    ensures { WritesDoubted run.now keeper.now (W.contents output.old) (W.contents output.new) result }
{
    match keeper.last() {
        Some(last) => write_lines(last.unfinished_lines(), output),
        None => write_left(alloc, run, keeper.left(), output),
    }
}
