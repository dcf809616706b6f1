//! What is looked at while lines are served, and the console beside them.

ghost use Rattle.std.specs.Prelude.{◌≡◌, [], IfOk, IfSome, None};
ghost use Rattle.xp_serve.specs.Serving.{Serves};

use crate::beside::Beside;
use crate::ordered_run::OrderedRun;
use crate::runtime::ServingRuntime;
use crate::served_console::ServedConsole;
use crate::status_feed::StatusFeed;
use log::Log;
use std::alloc::{AllocError, AllocGlobal, Global};
use std::marker::Brand;
use std::net::{Net, TcpListener, TcpStream};
use std::sync::atomic::AtomicBool;
use std::sync::atomic::Ordering::SeqCst;
use std::sync::{Arc, Wait};
use std::thread;
use std::thread::{JoinHandle, Scope, Threads};
use std::time::Clock;
use xp_clock::WallClock;
use xp_keeping::{OperatorLog, RecordKeeper};
use xp_live::LiveKeeper;
use xp_observer::{BoardName, StatusBoard};
use xp_readiness::{Failure, Tracing, opening};
use xp_renewal::Renewal;
use xp_serve::{
    Attending, ConsoleFeed, LiveWatch, NoConsole, OperatorWatch, ServeEnd, ServingTerms, StopInput,
    TracedWatch, Watch, serve_attended,
};
use xp_subs::Subs;
use xp_tasks::TaskFailure;
use xp_tcp::{LinePlaces, Notices};
use xp_tracing::TraceThread;

/// What watches over the lines, begins their trace, and keeps their live calls.
type ServedWatch<R, F> = LiveWatch<TracedWatch<OperatorWatch<R, F, ServedRenewal<R>>, R>, R>;

/// Where other subscriptions come from.
type ServedRenewal<R> = Renewal<HostRuntime, R>;

/// Serves the lines with this keeper of their charging records, tells what the operator has to know, and looks whether to stop.
/// Where a console is ordered it is served beside the lines.
pub(crate) fn attend<
    R: ServingRuntime + Net<Listener = TcpListener, Stream = TcpStream>,
    K: RecordKeeper,
>(
    ordered: &OrderedRun<'_, '_, R>,
    subs: Subs,
    beside: Beside<R>,
    keeper: K,
) -> Result<ServeEnd<K>, Failure>
    requires live { IfSome beside.live (λ live. live.opening ≡ subs) }
    requires names { K.named_by keeper ≡ subs }
    requires new { K.received keeper ≡ [] }
    ensures { IfOk result (λ end. Serves K.kept K.keeps subs keeper end.keeper end.outcome) }
{
    let prepared = prepare(ordered, &subs, &beside.tracing)?;
    let (console, terms, watching) = prepared.watching(ordered, beside);
    attend_named::<Brand, R, K>(ordered.rt, console, terms, watching, subs, keeper)
}

/// What is made before the lines are served.
struct Prepared {
    notices: Arc<Notices>,
    terms: ServingTerms,
    /// What the lines are connected by, for subscriptions that come into force later.
    places: Arc<LinePlaces>,
    /// The console, which listens, if there is to be one.
    console: Option<ServedConsole>,
    /// What is told before all else.
    opening: String,
}

impl Drop for Prepared {
    fn drop(self) {
        let Prepared {
            notices: _,
            terms: _,
            places: _,
            console: _,
            opening: _,
        } = self;
    }
}

/// Makes what has to be there before the lines are served. The console listens then.
fn prepare<R: ServingRuntime + Net<Listener = TcpListener, Stream = TcpStream>>(
    ordered: &OrderedRun<'_, '_, R>,
    subs: &Subs,
    tracing: &Tracing<R>,
) -> Result<Prepared, Failure> {
    let OrderedRun { rt, order, clock } = *ordered;
    let alloc = rt.alloc();
    let notices = tracing.notices(alloc, clock.start)?;
    let notices = Arc::new(alloc, notices).map_err(|_| TaskFailure::Memory)?;
    let places = LinePlaces::new(Arc::try_clone(&notices)?);
    let places = Arc::new(alloc, places).map_err(|_| TaskFailure::Memory)?;
    let terms = ServingTerms {
        limits: order.limits,
        places: Arc::try_clone(&places)?,
    };
    let console = match order.console {
        Some(address) => Some(ServedConsole::listen(rt, address)?),
        None => None,
    };
    Ok(Prepared {
        opening: opening(alloc, order, subs)?,
        notices,
        terms,
        places,
        console,
    })
}

impl Prepared {
    /// The console, the terms, and what the lines are watched with.
    fn watching<R: Copy + Drop + Log + Wait>(
        self,
        ordered: &OrderedRun<'_, '_, R>,
        beside: Beside<R>,
    ) -> (Option<ServedConsole>, ServingTerms, Watching<R>)
        ensures { result.2.live ≡ beside.live }
    {
        let Prepared {
            notices,
            terms,
            places,
            console,
            opening,
        } = self;
        let OrderedRun { rt, order, clock } = *ordered;
        let (tracing, live, partial_records, file) = beside.into_parts();
        let watching = Watching {
            opening,
            stop: order.until_eof.then_some(StopInput::default()),
            log: OperatorLog::new(*rt, order.quiet),
            clock,
            notices,
            trace: tracing.thread,
            live,
            partial_records,
            renewal: Renewal::new(file, *rt, places),
        };
        (console, terms, watching)
    }
}

/// What the lines are watched with.
struct Watching<R: Log + Wait> {
    /// What is told before all else.
    opening: String,
    /// The input whose end asks serving to stop, if there is one.
    stop: Option<StopInput>,
    log: OperatorLog<R>,
    clock: WallClock,
    notices: Arc<Notices>,
    trace: Option<TraceThread<R>>,
    live: Option<LiveKeeper<R>>,
    partial_records: u64,
    renewal: ServedRenewal<R>,
}

impl<R: Drop + Log + Wait> Drop for Watching<R> {
    fn drop(self) {
        let Watching {
            opening: _,
            stop: _,
            log: _,
            clock: _,
            notices: _,
            trace: _,
            live: _,
            partial_records: _,
            renewal: _,
        } = self;
    }
}

impl<R: ServingRuntime + Net<Listener = TcpListener, Stream = TcpStream>> Watching<R> {
    /// What feeds the console over this board.
    fn feed<B: BoardName>(
        &self,
        alloc: Global,
        subs: &Subs,
        board: &Arc<StatusBoard<B>>,
    ) -> Result<StatusFeed<B>, AllocError>
        requires { B.tables ≡ subs.now }
    {
        let theirs = Arc::try_clone(board)?;
        let counted = Arc::try_clone(&self.notices)?;
        StatusFeed::new(
            alloc,
            subs,
            self.clock,
            theirs,
            counted,
            self.partial_records,
        )
    }

    /// What watches over the lines, begins their trace, and keeps their live calls.
    fn watch<F: ConsoleFeed>(self, alloc: Global, console: F) -> Result<ServedWatch<R, F>, Failure>
        requires { IfSome self.live (λ live. live.opening ≡ F.tables) }
    {
        let Watching {
            opening,
            stop,
            log,
            clock,
            notices,
            trace,
            live,
            partial_records: _,
            renewal,
        } = self;
        let watch = OperatorWatch::new(alloc, renewal, notices, console, clock, log)?;
        let watch = watch.with_stop(stop).with_opening(opening);
        let watch = TracedWatch::new(watch, trace);
        Ok(LiveWatch::new(watch, live))
    }
}

/// Serves the lines as `attend` does, with this console if there is one. `B` names the board between the console and the lines. This
/// is proved for every name with these subscriptions: so what stands on the board is of an exchange of them, and the board asks for a
/// stop only where the console granted one.
fn attend_named<
    B: BoardName + Send + Sync,
    R: ServingRuntime + Net<Listener = TcpListener, Stream = TcpStream>,
    K: RecordKeeper,
>(
    rt: &R,
    console: Option<ServedConsole>,
    terms: ServingTerms,
    watching: Watching<R>,
    subs: Subs,
    keeper: K,
) -> Result<ServeEnd<K>, Failure>
    requires shown { B.tables ≡ subs }
    requires live { IfSome watching.live (λ live. live.opening ≡ B.tables) }
    requires names { K.named_by keeper ≡ subs }
    requires new { K.received keeper ≡ [] }
    ensures { IfOk result (λ end. Serves K.kept K.keeps subs keeper end.keeper end.outcome) }
{
    match console {
        Some(console) => {
            attend_with_console::<B, R, K>(rt, console, terms, watching, subs, keeper)
        }
        None => {
            let watch = watching.watch(rt.alloc(), NoConsole::<B>::default())?;
            let attending = Attending::new(keeper, watch);
            Ok(serve_attended(rt, rt.alloc(), subs, terms, attending))
        }
    }
}

/// Serves the lines, with a console beside them.
fn attend_with_console<
    B: BoardName + Send + Sync,
    R: ServingRuntime + Net<Listener = TcpListener, Stream = TcpStream>,
    K: RecordKeeper,
>(
    rt: &R,
    console: ServedConsole,
    terms: ServingTerms,
    watching: Watching<R>,
    subs: Subs,
    keeper: K,
) -> Result<ServeEnd<K>, Failure>
    requires shown { B.tables ≡ subs }
    requires live { IfSome watching.live (λ live. live.opening ≡ B.tables) }
    requires names { K.named_by keeper ≡ subs }
    requires new { K.received keeper ≡ [] }
    ensures { IfOk result (λ end. Serves K.kept K.keeps subs keeper end.keeper end.outcome) }
{
    let alloc = rt.alloc();
    let board = Arc::new(alloc, StatusBoard::<B>::new()).map_err(|_| TaskFailure::Memory)?;
    let feed = watching.feed(alloc, &subs, &board)?;
    let watch = watching.watch(alloc, feed)?;
    let attending = Attending::new(keeper, watch);
    serve_beside(rt, console, &board, subs, terms, attending)
}

/// Serves the lines, and the console on a thread of its own beside them.
fn serve_beside<
    B: BoardName + Send + Sync,
    R: AllocGlobal
        + Clock
        + Log
        + Net<Listener = TcpListener, Stream = TcpStream>
        + Sync
        + Threads
        + Wait,
    K: RecordKeeper,
    W: Watch,
>(
    rt: &R,
    console: ServedConsole,
    board: &StatusBoard<B>,
    subs: Subs,
    terms: ServingTerms,
    attending: Attending<K, W>,
) -> Result<ServeEnd<K>, Failure>
    requires names { K.named_by attending.keeper ≡ subs }
    requires shown { W.tables ≡ subs }
    requires new { K.received attending.keeper ≡ [] }
    ensures { IfOk result (λ end. Serves K.kept K.keeps subs attending.keeper end.keeper end.outcome) }
{
    let is_over = Arc::new(rt.alloc(), AtomicBool::new(false)).map_err(|_| TaskFailure::Memory)?;
    let ends = Arc::try_clone(&is_over)?;
    thread::scope(
        thread::scope_env(),
        rt,
        |scope| -> Result<ServeEnd<K>, Failure>
            requires names { K.named_by attending.keeper ≡ subs }
            requires shown { W.tables ≡ subs }
            requires new { K.received attending.keeper ≡ [] }
            ensures { IfOk result (λ end. Serves K.kept K.keeps subs attending.keeper end.keeper end.outcome) }
        {
            let Some(running) = begin_console(rt, scope, console, board, ends) else {
                return Err(Failure::from(TaskFailure::Memory));
            };
            let end = serve_attended(rt, rt.alloc(), subs, terms, attending);
            is_over.store(true, SeqCst);
            running.join(rt);
            Ok(end)
        },
    )
}

/// Starts the thread of the console, which ends when the flag is set. `None` where it cannot be started.
fn begin_console<'s, E, B: BoardName + Send + Sync + 's, R: Clock + Sync + Wait + 's>(
    rt: &'s R,
    scope: &Scope<'s, E>,
    console: ServedConsole,
    board: &'s StatusBoard<B>,
    is_over: Arc<AtomicBool>,
) -> Option<JoinHandle<()>> {
    scope.spawn(move || console.run(rt, board, &is_over)).ok()
}
