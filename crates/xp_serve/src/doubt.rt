//! The end of a run whose charging records go to a file: what it leaves on standard output.

ghost use Rattle.std.specs.Prelude.{◌≡◌};
ghost use Rattle.xp_serve.specs.LeftAlone.{LeavesAlone, ServesIntoFile, says_all_kept};
ghost use Rattle.xp_serve.specs.steps.LeftAlone.{failure_beside, told_beside};

use crate::serving::ServeEnd;
use log::Log;
use std::alloc::Global;
use std::io::Write;
use std::sync::Wait;
use std::thread::Threads;
use xp_cdr::{ExchangeRun, RecordFile};
use xp_keeping::{DetailKeeper, KeepFault, QueuedKeeper, write_doubted};
use xp_listening::ServeFailure;

/// Writes the call detail records of the records in doubt on the output, if any are, and nothing else, and tells what serving came
/// to. The records are told as those of this run.
///
/// # Errors
///
/// What serving came to. Where the records in doubt could not be written, `Output`, or `Memory`, which is also told where it was
/// wanting before.
pub fn settle<F: RecordFile, L: Log + Drop, R: Threads + Wait + Copy + Drop, W: Write>(
    alloc: Global,
    run: &ExchangeRun,
    end: ServeEnd<QueuedKeeper<DetailKeeper<F, L>, R>>,
    output: &mut W,
) -> Result<(), ServeFailure>
    requires { ServesIntoFile end.keeper.opening run.now end.keeper end.outcome }
    ensures { LeavesAlone end.keeper.opening run.now end.keeper (W.contents output.old) (W.contents output.new) result }
{
    let ServeEnd { keeper, outcome } = end;
    if says_all_kept(&outcome) {
        return outcome;
    }
    let written = write_doubted(alloc, run, &keeper, output);
    told_beside(outcome, written)
}

/// Whether it follows from what serving came to that all records are kept.
fn says_all_kept(outcome: &Result<(), ServeFailure>) -> bool
    ensures { result ≡ says_all_kept outcome.now }
{
    !matches!(
        outcome,
        Err(ServeFailure::Memory | ServeFailure::Output | ServeFailure::Details)
    )
}

/// What is told once this came of serving, and this of writing the records in doubt.
fn told_beside(
    outcome: Result<(), ServeFailure>,
    written: Result<(), KeepFault>,
) -> Result<(), ServeFailure>
    ensures { result ≡ told_beside outcome written }
{
    match written {
        Ok(()) => outcome,
        Err(fault) => Err(failure_beside(&outcome, fault)),
    }
}

/// What is told where the records in doubt could not be written.
fn failure_beside(outcome: &Result<(), ServeFailure>, fault: KeepFault) -> ServeFailure
    ensures { result ≡ failure_beside outcome.now fault }
{
    match outcome {
        Err(ServeFailure::Memory) => ServeFailure::Memory,
        _ => match fault {
            KeepFault::Memory => ServeFailure::Memory,
            KeepFault::Output | KeepFault::Details => ServeFailure::Output,
        },
    }
}
