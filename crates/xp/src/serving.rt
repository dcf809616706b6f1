//! Serving the lines over TCP.

ghost use Rattle.std.specs.Prelude.{◌≡◌, [], IfOk, IfSome, None};
ghost use Rattle.xp_serve.specs.Serving.{Serves};

use crate::attending::attend;
use crate::beside::Beside;
use crate::into_file::{serve_into_directory, serve_into_file};
use crate::ordered_run::OrderedRun;
use crate::runtime::ServingRuntime;
use log::Log;
use std::alloc::AllocGlobal;
use std::fs::{File, Files};
use std::io::BufWriter;
use std::net::{Net, TcpListener, TcpStream};
use std::sync::Wait;
use std::thread::Threads;
use xp_arguments::{DetailsOrder, ServeOrder};
use xp_clock::WallClock;
use xp_keeping::{
    CallKeeper, OperatorLog, QueuedKeeper, RecordKeeper, RecordPrinter, StandardOutput,
    start_printer,
};
use xp_readiness::{Failure, Tracing};
use xp_renewal::SubscriptionFile;
use xp_serve::ServeEnd;
use xp_subs::Subs;
use xp_tasks::TaskFailure;

/// The subscriptions of the lines that are served, once for each who needs them.
pub(crate) struct CopiedSubs {
    /// Those of the exchange.
    pub(crate) own: Subs,
    /// Those that the records are told by.
    pub(crate) names: Subs,
    /// Those that the live calls are told by.
    pub(crate) live: Subs,
    /// Their file, which is read again where other subscriptions are asked for.
    pub(crate) file: ServedFile,
}

impl Drop for CopiedSubs {
    fn drop(self) {
        let CopiedSubs {
            own: _,
            names: _,
            live: _,
            file: _,
        } = self;
    }
}

impl CopiedSubs {
    /// Those of the exchange, those of the records, those of the live calls, and their file.
    pub(crate) fn into_parts(self) -> (Subs, Subs, Subs, ServedFile)
        ensures own { result.0 ≡ self.own }
        ensures names { result.1 ≡ self.names }
        ensures live { result.2 ≡ self.live }
    {
        let CopiedSubs {
            own,
            names,
            live,
            file,
        } = self;
        (own, names, live, file)
    }
}

/// The subscription file of the lines that are served.
pub(crate) type ServedFile = SubscriptionFile<HostRuntime>;

/// What prints charging records on a thread of its own.
type PrintingKeeper<R> = QueuedKeeper<RecordPrinter<BufWriter<StandardOutput<HostRuntime>>>, R>;

/// Serves the lines as they were ordered. Their charging records are kept in the file of call detail records, or in those of a
/// directory, if there is one, and are otherwise printed: by `host`, since what a thread of its own works with has no type parameter.
pub(crate) fn serve_lines<
    R: ServingRuntime + Net<Listener = TcpListener, Stream = TcpStream> + Files<File = File>,
>(rt: &R, host: HostRuntime, order: &ServeOrder<'_>, subs: CopiedSubs) -> Result<(), Failure>
    requires names { subs.names ≡ subs.own }
    requires live { subs.live ≡ subs.own }
{
    let ordered = OrderedRun {
        rt,
        order,
        clock: WallClock::start(),
    };
    match order.details {
        Some(DetailsOrder::File(path)) => serve_into_file(&ordered, host, path, subs),
        Some(DetailsOrder::Directory(path)) => serve_into_directory(&ordered, host, path, subs),
        None => serve_and_print(&ordered, host, subs),
    }
}

/// Serves the lines, and prints their charging records.
fn serve_and_print<
    R: ServingRuntime + Net<Listener = TcpListener, Stream = TcpStream> + Files<File = File>,
>(ordered: &OrderedRun<'_, '_, R>, host: HostRuntime, subs: CopiedSubs) -> Result<(), Failure>
    requires { subs.names ≡ subs.own }
{
    let (own, names, _, file) = subs.into_parts();
    let tracing = Tracing::begin(ordered.rt, ordered.order, ordered.clock, &own)?;
    let beside = Beside::new(tracing, file);
    let keeper = begin_printing(ordered.rt, host, names)?;
    let end = attend(ordered, own, beside, keeper)?;
    tell_unprinted(ordered.rt, ordered.clock, &end.keeper);
    outcome_of(end)
}

/// Starts the thread that prints charging records, which are told by these names.
fn begin_printing<R: AllocGlobal + Copy + Drop + Send + Threads + Wait + 'static>(
    rt: &R,
    host: HostRuntime,
    names: Subs,
) -> Result<PrintingKeeper<R>, Failure>
    ensures { IfOk result (λ keeper. (keeper.subs ≡ names) × (keeper.opening ≡ names) × (keeper.given ≡ [])) }
{
    let output = StandardOutput::new(host);
    let output = BufWriter::new(rt.alloc(), output).map_err(|_| TaskFailure::Memory)?;
    let keeper = RecordPrinter::new(rt.alloc(), output);
    Ok(start_printer(*rt, rt.alloc(), names, keeper)?)
}

/// What serving came to.
fn outcome_of<K: RecordKeeper>(end: ServeEnd<K>) -> Result<(), Failure> {
    end.outcome?;
    Ok(())
}

/// Tells that standard output took nothing, and how many charging records were lost with it, where it was so.
fn tell_unprinted<R: Copy + Log + Threads + Wait, K: CallKeeper>(
    rt: &R,
    clock: WallClock,
    keeper: &QueuedKeeper<K, R>,
) {
    let lost = keeper.left().len();
    if lost == 0 || !keeper.is_given_up() {
        return;
    }
    let mut clock = clock;
    OperatorLog::new(rt, false).error(
        clock.now(),
        format_args!("standard output takes nothing: {lost} charging records were lost"),
    );
}
