//! Starting the keepers of a program, each on a thread of its own.

ghost use Rattle.std.specs.Prelude.{◌≡◌, [], IfOk};
ghost use Rattle.xp_keeping.specs.Queued.{first_queued};

use crate::details::DetailKeeper;
use crate::keep_fault::KeepFault;
use crate::printing::RecordPrinter;
use crate::queued::QueuedKeeper;
use log::Log;
use std::alloc::{AllocError, Global};
use std::io::Write;
use std::sync::Wait;
use std::thread::Threads;
use xp_cdr::RecordFile;
use xp_subs::Subs;

/// Starts the thread of a keeper of call detail records, which was given no record yet. Calls are told by these subscriptions.
///
/// # Errors
///
/// `AllocError` if an allocation fails, or the thread cannot be started.
pub fn start_details<
    F: RecordFile + Send + 'static,
    L: Log + Drop + Send + 'static,
    R: Threads + Wait + Copy + Send + 'static,
>(
    rt: R,
    alloc: Global,
    subs: Subs,
    keeper: DetailKeeper<F, L>,
) -> Result<QueuedKeeper<DetailKeeper<F, L>, R>, AllocError>
    requires { keeper.given ≡ [] }
    ensures { IfOk result (λ queued. queued ≡ first_queued subs keeper KeepFault.Details) }
{
    QueuedKeeper::start(rt, alloc, subs, keeper, KeepFault::Details)
}

/// Starts the thread of a printer that was given no record yet. Calls are told by these subscriptions.
///
/// # Errors
///
/// `AllocError` if an allocation fails, or the thread cannot be started.
pub fn start_printer<W: Write + Drop + Send + 'static, R: Threads + Wait + Copy + Send + 'static>(
    rt: R,
    alloc: Global,
    subs: Subs,
    keeper: RecordPrinter<W>,
) -> Result<QueuedKeeper<RecordPrinter<W>, R>, AllocError>
    requires { keeper.given ≡ [] }
    ensures { IfOk result (λ queued. queued ≡ first_queued subs keeper KeepFault.Output) }
{
    QueuedKeeper::start(rt, alloc, subs, keeper, KeepFault::Output)
}
