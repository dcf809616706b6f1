//! The exchange that is served: its lines' ports, threads and records.

ghost use Rattle.std.specs.Prelude.{◌≡◌, ◌<◌, ◌≤◌, ◌++◌, ◌↔◌, [], Err, IfErr, IfOk, IfSome, length, map, vec_capacity, vec_len};
ghost use Rattle.xp_listening.specs.Accesses.{AreServedAt};
ghost use Rattle.xp_listening.specs.Failures.{IsWanting};
ghost use Rattle.xp_listening.specs.Hosts.{IsNoHost};
ghost use Rattle.xp_serve.specs.Served.{IsServed};
ghost use Rattle.xp_serve.specs.Serving.{Serves, Tells};
ghost use Rattle.xp_listening.specs.declared.failure.ServeFailure.TheVariants.{Host as NoHost};
ghost use Rattle.xp_serve.specs.steps.Serving.{AreReady, WereServed, WereStopped};
ghost use Rattle.xp_subs.specs.Bounds.{most_lines};
ghost use Rattle.xp_subs.specs.Tables.{line_count};

use crate::beside_door::{LinesAndDoor, serve_with_door};
use crate::ends::{end_reasons_of, first_early_end, passes_of};
use crate::served::{NotServed, Recorded, Served};
use crate::telling::tell;
use std::alloc::{AllocError, Global};
use std::marker::Brand;
use std::net::{IpAddr, Net, TcpListener, TcpStream};
use std::num::NonZeroUsize;
use std::sync::{Arc, Wait};
use std::thread;
use std::thread::Threads;
use xp_keeping::RecordKeeper;
use xp_limits::{Limits, ServingThreads};
use xp_lines::{EndReason, LineInputs, LinesServed, LinesToServe, RecordPath, ServeFault};
use xp_listening::{ServeFailure, host_address, listen_all};
use xp_lock::{Exchange, LinePass, PreparedExchange, prepare};
use xp_seats::{Name, Recorder};
use xp_sink::RecordSink;
use xp_subs::Subs;
use xp_tcp::{Ends, LineBell, LineEnds, LinePlaces, LinePort, Sockets, TcpClock, TcpPoller};

/// How many lines are few enough for one thread.
const LINES_OF_A_THREAD: usize = 8;

/// In which places lines are served, and until when.
#[derive(Drop)]
pub struct ServingTerms {
    pub limits: Limits,
    pub places: Arc<LinePlaces>,
}

/// What serving came to.
#[derive(Drop)]
pub struct ServeEnd<K: RecordKeeper> {
    /// The keeper of the charging records.
    pub keeper: K,
    /// Whether the lines were served to the end.
    pub outcome: Result<(), ServeFailure>,
}

/// Listens on the port of each line, and for the routers of lines, and serves all lines by [`serve_on`] until they have ended. The keeper has each charging
/// record as its call ends, in the order in which the calls end. What an operator has to see of the lines is told by the notices of the places.
///
/// # Errors
///
/// Before any line is served: `Host` where the host of the subscription file is neither `localhost` nor an IP address, before
/// any port is listened on, and else `From` with the lowest line that has a source which is no IP address, or `Router` with the
/// lowest whose router has none; `Port` with the lowest line whose port can't be had, `XotPort` where that for routers can't,
/// `Memory`. After the records are kept: what the lowest line told that ended before its time, as `Port`, `Journal` or `Thread`. Where not all records could be kept,
/// what the keeper told: `Memory`, `Output` or `Details`.
pub fn serve<
    R: Net<Listener = TcpListener, Stream = TcpStream> + Threads + Wait + Sync,
    K: RecordKeeper,
>(rt: &R, alloc: Global, subs: Subs, terms: ServingTerms, keeper: K) -> ServeEnd<K>
    requires names { K.named_by keeper ≡ subs }
    requires tables { K.tables keeper ≡ subs }
    requires new { K.received keeper ≡ [] }
    ensures host { (result.outcome ≡ Err NoHost) ↔ IsNoHost subs.host }
    ensures serves { Serves K.kept K.keeps subs keeper result.keeper result.outcome }
{
    let ServingTerms { limits, places } = terms;
    let sockets = match listen(rt, alloc, &subs, limits.threads, places) {
        Ok(sockets) => sockets,
        Err(failure) => {
            return ServeEnd {
                keeper,
                outcome: Err(failure),
            };
        }
    };
    match serve_on(rt, alloc, subs, sockets, limits, keeper) {
        Ok(recorded) => end(recorded),
        Err(fault) => ServeEnd {
            keeper: fault.sink,
            outcome: Err(ServeFailure::Memory),
        },
    }
}

/// Listens at the host of the subscription file, for as many threads as are asked for.
fn listen<R: Net<Listener = TcpListener, Stream = TcpStream> + Threads + Wait + Sync>(
    rt: &R,
    alloc: Global,
    subs: &Subs,
    threads: ServingThreads,
    places: Arc<LinePlaces>,
) -> Result<Sockets, ServeFailure>
    ensures host { IsNoHost subs.now.host → result ≡ Err NoHost }
    ensures accesses { IfOk result (AreServedAt subs.now) }
    ensures wanting { IfErr result (IsWanting subs.now) }
{
    let Some(host) = host_address(subs.host()) else {
        return Err(ServeFailure::Host);
    };
    let threads = threads_for(rt, subs.counts().lines, threads);
    listen_all(rt, alloc, subs, host, threads, places)
}

/// How many threads serve so many lines, where these are asked for: no more than there are lines.
fn threads_for<R: Threads>(rt: &R, lines: usize, threads: ServingThreads) -> NonZeroUsize {
    let wanted = match threads {
        ServingThreads::Chosen => return chosen_threads(rt, lines),
        ServingThreads::Lines => lines,
        ServingThreads::Count(count) => lines.min(usize::from(count)),
    };
    NonZeroUsize::new(wanted).unwrap_or(NonZeroUsize::MIN)
}

/// How many threads the exchange chooses for so many lines: one for every eight of them, but no more than there are processors.
/// A packet from one line to another of the same thread wakes no other thread.
fn chosen_threads<R: Threads>(rt: &R, lines: usize) -> NonZeroUsize {
    let processors = thread::available_parallelism(rt).unwrap_or(NonZeroUsize::MIN);
    let wanted = NonZeroUsize::new(lines.div_ceil(LINES_OF_A_THREAD));
    wanted.unwrap_or(NonZeroUsize::MIN).min(processors)
}

/// Keeps the records that are left, and tells how the lines ended.
fn end<K: RecordKeeper>(recorded: Recorded<K>) -> ServeEnd<K>
    requires early_end { IfSome recorded.served.early_end (λ early_end. early_end.line < line_count recorded.served.book.subs) }
    requires lines { K.lines recorded.sink ≡ line_count recorded.served.book.subs }
    requires received { K.received recorded.sink ≡ recorded.served.book.given }
    ensures { Tells K.kept K.keeps recorded.served recorded.sink result.keeper result.outcome }
{
    let Recorded { served, sink } = recorded;
    let mut keeper = sink;
    let outcome = tell(&served, &mut keeper);
    ServeEnd { keeper, outcome }
}

/// Serves each line on its socket, which listens already, until all lines have ended. Each of the threads of the sockets serves some of the lines. The sockets are
/// in the order of lines. The sink is given the charging records as their calls end. Where it can do nothing with further
/// records, serving ends. Those that could not be handed over for want of memory are in the book.
///
/// # Errors
///
/// `NotServed` if an allocation fails. Then no line was served, and the sink comes back.
pub fn serve_on<
    R: Net<Listener = TcpListener, Stream = TcpStream> + Threads + Wait + Sync,
    S: RecordSink,
>(
    rt: &R,
    alloc: Global,
    subs: Subs,
    sockets: Sockets,
    limits: Limits,
    sink: S,
) -> Result<Recorded<S>, NotServed<S>>
    requires sockets { length sockets ≡ line_count subs }
    requires lines { S.lines sink ≡ line_count subs }
    requires tables { S.tables sink ≡ subs }
    requires received { S.received sink ≡ [] }
    ensures served { IfOk result (λ recorded. IsServed subs recorded.served) }
    ensures received { IfOk result (λ recorded. S.received recorded.sink ≡ S.received sink ++ recorded.served.book.given) }
    ensures keeps { IfOk result (λ recorded. S.keeps sink recorded.sink) }
    ensures err { IfErr result (λ fault. fault.sink ≡ sink) }
{
    // There are no more lines than an exchange may have.
    let _counts = subs.counts();
    match prepare(alloc, subs) {
        Ok(prepared) => serve_named::<Brand, R, S>(rt, alloc, prepared, sockets, limits, sink),
        Err(_) => Err(NotServed { sink }),
    }
}

/// Serves the lines of the exchange that N names.
fn serve_named<
    N: Name + Send + Sync,
    R: Net<Listener = TcpListener, Stream = TcpStream> + Threads + Wait + Sync,
    S: RecordSink,
>(
    rt: &R,
    alloc: Global,
    prepared: PreparedExchange,
    sockets: Sockets,
    limits: Limits,
    sink: S,
) -> Result<Recorded<S>, NotServed<S>>
    requires subs { N.subs ≡ prepared.subs }
    requires seats { N.seats ≡ prepared.seats }
    requires queues { N.queues ≡ prepared.queues }
    requires sockets { length sockets ≡ line_count prepared.subs }
    requires few { line_count prepared.subs ≤ most_lines }
    requires lines { S.lines sink ≡ line_count prepared.subs }
    requires tables { S.tables sink ≡ prepared.subs }
    requires received { S.received sink ≡ [] }
    ensures served { IfOk result (λ recorded. IsServed prepared.subs recorded.served) }
    ensures received { IfOk result (λ recorded. S.received recorded.sink ≡ S.received sink ++ recorded.served.book.given) }
    ensures keeps { IfOk result (λ recorded. S.keeps sink recorded.sink) }
    ensures err { IfErr result (λ fault. fault.sink ≡ sink) }
{
    let Ok(ready) = make_ready::<N>(alloc, prepared, sockets) else {
        return Err(NotServed { sink });
    };
    let Ready {
        exchange,
        threads,
        recorder,
        room,
        room_of_reasons,
    } = ready;
    let path = RecordPath { recorder, sink };
    match serve_with_door(rt, alloc, &exchange, threads, path, limits) {
        Ok(lines) => Ok(close(rt, exchange, lines, room, room_of_reasons)),
        Err(fault) => {
            let ServeFault { lines: _, path } = fault;
            let RecordPath { recorder: _, sink } = path;
            Err(NotServed { sink })
        }
    }
}

/// Closes the exchange as all lines have ended. The passes and the reasons of the ends go where there is room for them.
fn close<N: Name, S: RecordSink, R: Wait>(
    rt: &R,
    exchange: Exchange<N>,
    lines: LinesServed<N, S>,
    room: Vec<LinePass<N>>,
    room_of_reasons: Vec<EndReason>,
) -> Recorded<S>
    requires served { WereServed N.subs (map (λ end. end.pass) lines.ends.items) }
    requires stopped { WereStopped N.subs lines.ends.items }
    requires few { line_count N.subs ≤ most_lines }
    requires room { (room.items ≡ []) × (line_count N.subs ≤ vec_capacity room) }
    requires room_of_reasons { (room_of_reasons.items ≡ []) × (line_count N.subs ≤ vec_capacity room_of_reasons) }
    ensures served { IsServed N.subs result.served }
    ensures given { result.served.book.given ≡ lines.path.recorder.received }
    ensures sink { result.sink ≡ lines.path.sink }
{
    let LinesServed { ends, path } = lines;
    let RecordPath { recorder, sink } = path;
    let end_reasons = end_reasons_of(&ends, room_of_reasons);
    let early_end = first_early_end(&end_reasons);
    let Ok(book) = exchange.close(rt, passes_of(ends, room), recorder) else {
        unreachable!()
    };
    Recorded {
        served: Served {
            book,
            end_reasons,
            early_end,
        },
        sink,
    }
}

/// An exchange that is ready to be served.
#[derive(Drop)]
struct Ready<N: Name> {
    exchange: Exchange<N>,
    threads: TcpThreads<N>,
    recorder: Recorder<N>,
    /// Room for the passes of the lines, and for why they ended.
    room: Vec<LinePass<N>>,
    room_of_reasons: Vec<EndReason>,
}

/// Starts the exchange that N names, and makes what its threads are given.
fn make_ready<N: Name>(
    alloc: Global,
    prepared: PreparedExchange,
    sockets: Sockets,
) -> Result<Ready<N>, AllocError>
    requires subs { N.subs ≡ prepared.subs }
    requires seats { N.seats ≡ prepared.seats }
    requires queues { N.queues ≡ prepared.queues }
    requires sockets { length sockets ≡ line_count prepared.subs }
    ensures { IfOk result (AreReady N.subs) }
{
    let (exchange, passes, recorder) = Exchange::<N>::start(alloc, prepared)?;
    let room = Vec::with_capacity(alloc, passes.len())?;
    let room_of_reasons = Vec::with_capacity(alloc, passes.len())?;
    let threads = thread_inputs(alloc, passes, sockets)?;
    Ok(Ready {
        exchange,
        threads,
        recorder,
        room,
        room_of_reasons,
    })
}

/// What a line is served with over TCP.
pub type TcpLine<N> = LineInputs<N, LinePort, TcpClock, LineBell>;

/// What the threads of all lines are given over TCP.
pub type TcpThreads<N> = LinesAndDoor<N, LinePort, TcpClock, LineBell, TcpPoller>;

/// What the threads of the lines are given, in the order of lines: each line its own pass and port.
///
/// # Errors
///
/// `AllocError` if an allocation fails.
pub fn thread_inputs<N: Name>(
    alloc: Global,
    passes: Vec<LinePass<N>>,
    sockets: Sockets,
) -> Result<TcpThreads<N>, AllocError>
    requires { length sockets ≡ vec_len passes }
    ensures passes { IfOk result (λ threads. map (λ line. line.pass) threads.lines.lines.items ≡ passes.items) }
    ensures ports { IfOk result (λ threads. map (λ line. line.port) threads.lines.lines.items ≡ sockets) }
{
    let mut served = Vec::with_capacity(alloc, passes.len())?;
    let Ends {
        lines,
        threads,
        door,
    } = sockets.into_ends(alloc)?;
    let mut ends = lines.into_iter();
    for pass in passes {
        let Some(LineEnds { port, clock, bell }) = ends.next() else {
            unreachable!()
        };
        served.push(LineInputs {
            pass,
            port,
            clock,
            bell,
        })?;
    }
    Ok(LinesAndDoor {
        lines: LinesToServe {
            lines: served,
            pollers: threads,
        },
        door,
    })
}
