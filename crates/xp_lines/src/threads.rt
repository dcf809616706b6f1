//! All lines of an exchange, some on each thread, and their charging records on the thread that serves them.

ghost use Rattle.std.specs.Prelude.{◌≡◌, IfErr, IfOk, [], ◌++◌, length, map, vec_len, vec_capacity, ◌+◌, ◌≤◌};
ghost use Rattle.std.specs.Vec.Iter.{into_iter_items, into_iter_len};
ghost use Rattle.xp_links.specs.Pairs.{AreEach};
ghost use Rattle.xp_lines.specs.Recorded.{HandsOn};
ghost use Rattle.xp_lines.specs.Sessions.{AreMoved, IsLineDown, IsLineServed};
ghost use Rattle.xp_lines.specs.steps.Serving.{EndsSo};
ghost use Rattle.xp_lines.specs.steps.Threads.{Adds, begun_lines, lines_of};
ghost use Rattle.xp_subs.specs.Tables.{line_count};

use crate::ends::{add_ends, add_unstarted};
use crate::groups::{ThreadGroup, fill, groups_of, served_of};
use crate::line::{EndReason, LineEnd};
use crate::recording::{RecordPath, keep_recording};
use crate::rounds::serve_lines;
use crate::served_line::{LineInputs, ServedLine};
use crate::shared::Shared;
use crate::signals::Signals;
use std::alloc::{AllocError, Global};
use std::snapshot::Snapshot;
use std::sync::Wait;
use std::thread;
use std::thread::{Promise, PromisedHandle, Scope, Threads};
use std::vec::IntoIter;
use xp_limits::Limits;
use xp_links::{Bell, Clock, Poller, Port};
use xp_lock::Exchange;
use xp_seats::Name;
use xp_sink::RecordSink;

/// All lines of an exchange, and what the threads that serve them wait on.
#[derive(Drop)]
pub struct LinesToServe<N: Name, P: Port, C: Clock, B: Bell, T: Poller> {
    /// In order.
    pub lines: Vec<LineInputs<N, P, C, B>>,
    /// What each thread waits on, which serves as many of the next lines as its poller says.
    pub pollers: Vec<T>,
}

/// What is left as all lines have ended.
#[derive(Drop)]
pub struct LinesServed<N: Name, S: RecordSink> {
    /// How the lines ended, in the order in which they were given.
    pub ends: Vec<LineEnd<N>>,
    /// The recorder, and the sink with the charging records that it was given.
    pub path: RecordPath<N, S>,
}

/// An allocation failed, and no line was served. The lines, the recorder and the sink come back.
#[derive(Drop)]
pub struct ServeFault<N: Name, P: Port, C: Clock, B: Bell, S: RecordSink> {
    pub lines: Vec<LineInputs<N, P, C, B>>,
    pub path: RecordPath<N, S>,
}

/// The promise that a thread returns the lines that it was given.
#[derive(Drop)]
struct OfLines<N: Name, P: Port, C: Clock, B: Bell> {
    /// The lines that the thread is given.
    first: Snapshot<Vec<ServedLine<N, P, C, B>>>,
}

impl<N: Name, P: Port, C: Clock, B: Bell> Promise<Vec<ServedLine<N, P, C, B>>>
    for OfLines<N, P, C, B> {
    ghost use Rattle.std.specs.Prelude.{◌≡◌};

    ghost kept_by = { λ promise lines. lines.items ≡ promise.first.value.items };
}

/// The lines of a thread that runs, or those of a thread that could not be started.
type Begun<N, P, C, B> = Result<
    PromisedHandle<Vec<ServedLine<N, P, C, B>>, OfLines<N, P, C, B>>,
    Vec<ServedLine<N, P, C, B>>,
>;

/// Serves all lines until all have ended, or until these limits: the most turns of each line, and the number of charging records at
/// which the exchange is halted. There is a thread for each poller, which serves as many of the next lines as the poller says; how many
/// threads the limits ask for is not looked at. If a thread cannot be started, or there is none for a line, the exchange is halted. The
/// ends are in the order of the lines.
///
/// The recorder takes the charging records of calls as they end, and the sink is given them: before, it was given those that the
/// recorder took before. It is given the rest once all lines have ended; those that no memory could be had for stay with the
/// exchange. Where the sink wants to see the exchange, it is shown it as it was when the recorder took the records that the sink was
/// given last. Where the sink answers that serving stops, the lines are asked to stop.
///
/// # Errors
///
/// `ServeFault` if an allocation fails. Then no line was served, and the lines, the recorder and the sink come back.
pub fn serve_all<
    N: Name + Send + Sync,
    P: Port + Send,
    C: Clock + Send,
    B: Bell + Send,
    T: Poller + Send,
    S: RecordSink,
    R: Threads + Wait + Sync,
>(
    rt: &R,
    alloc: Global,
    exchange: &Exchange<N>,
    lines: LinesToServe<N, P, C, B, T>,
    path: RecordPath<N, S>,
    limits: Limits,
) -> Result<LinesServed<N, S>, ServeFault<N, P, C, B, S>>
    requires lines { S.lines path.sink ≡ line_count N.subs }
    requires tables { S.tables path.sink ≡ N.subs }
    requires received { S.received path.sink ≡ path.recorder.received }
    ensures ok { IfOk result (λ served. map (λ end. end.pass.line) served.ends.items ≡ map (λ line. line.pass.line) lines.lines.items) }
    ensures served { IfOk result (λ served. AreEach (IsLineServed N.subs (AreMoved P.Link.pushed P.Link.pulled)) (map (λ line. line.pass) lines.lines.items) (map (λ end. end.pass) served.ends.items)) }
    ensures stopped { IfOk result (λ served. AreEach (λ first end. end.why ≡ EndReason.Stopped → IsLineDown N.subs (AreMoved P.Link.pushed P.Link.pulled) first end.pass) (map (λ line. line.pass) lines.lines.items) served.ends.items) }
    ensures recorded { IfOk result (λ served. HandsOn S.received S.keeps path.recorder path.sink served.path.recorder served.path.sink) }
    ensures err { IfErr result (λ fault. fault.lines ≡ lines.lines) }
    ensures kept { IfErr result (λ fault. (fault.path.recorder ≡ path.recorder) × (fault.path.sink ≡ path.sink)) }
{
    let signals = Signals::new(lines.pollers.len(), limits);
    let shared = Shared::new(rt, alloc, exchange, &signals);
    let shared = &shared;
    thread::scope(
        thread::scope_env(),
        rt,
        |scope| -> Result<LinesServed<N, S>, ServeFault<N, P, C, B, S>>
            requires lines { S.lines path.sink ≡ line_count N.subs }
            requires tables { S.tables path.sink ≡ N.subs }
            requires received { S.received path.sink ≡ path.recorder.received }
            ensures ok { IfOk result (λ served. map (λ end. end.pass.line) served.ends.items ≡ map (λ line. line.pass.line) lines.lines.items) }
            ensures served { IfOk result (λ served. AreEach (IsLineServed N.subs (AreMoved P.Link.pushed P.Link.pulled)) (map (λ line. line.pass) lines.lines.items) (map (λ end. end.pass) served.ends.items)) }
            ensures stopped { IfOk result (λ served. AreEach (λ first end. end.why ≡ EndReason.Stopped → IsLineDown N.subs (AreMoved P.Link.pushed P.Link.pulled) first end.pass) (map (λ line. line.pass) lines.lines.items) served.ends.items) }
            ensures recorded { IfOk result (λ served. HandsOn S.received S.keeps path.recorder path.sink served.path.recorder served.path.sink) }
            ensures err { IfErr result (λ fault. fault.lines ≡ lines.lines) }
            ensures kept { IfErr result (λ fault. (fault.path.recorder ≡ path.recorder) × (fault.path.sink ≡ path.sink)) }
        { serve_in(scope, shared, lines, path) },
    )
}

/// Serves all lines by threads of this scope.
fn serve_in<
    's,
    E,
    N: Name + Send + Sync + 's,
    P: Port + Send + 's,
    C: Clock + Send + 's,
    B: Bell + Send + 's,
    T: Poller + Send + 's,
    S: RecordSink,
    R: Threads + Wait + Sync + 's,
>(
    scope: &Scope<'s, E>,
    shared: &'s Shared<'s, N, R>,
    lines: LinesToServe<N, P, C, B, T>,
    path: RecordPath<N, S>,
) -> Result<LinesServed<N, S>, ServeFault<N, P, C, B, S>>
    requires lines { S.lines path.sink ≡ line_count N.subs }
    requires tables { S.tables path.sink ≡ N.subs }
    requires received { S.received path.sink ≡ path.recorder.received }
    ensures ok { IfOk result (λ served. map (λ end. end.pass.line) served.ends.items ≡ map (λ line. line.pass.line) lines.lines.items) }
    ensures served { IfOk result (λ served. AreEach (IsLineServed N.subs (AreMoved P.Link.pushed P.Link.pulled)) (map (λ line. line.pass) lines.lines.items) (map (λ end. end.pass) served.ends.items)) }
    ensures stopped { IfOk result (λ served. AreEach (λ first end. end.why ≡ EndReason.Stopped → IsLineDown N.subs (AreMoved P.Link.pushed P.Link.pulled) first end.pass) (map (λ line. line.pass) lines.lines.items) served.ends.items) }
    ensures recorded { IfOk result (λ served. HandsOn S.received S.keeps path.recorder path.sink served.path.recorder served.path.sink) }
    ensures err { IfErr result (λ fault. fault.lines ≡ lines.lines) }
    ensures kept { IfErr result (λ fault. (fault.path.recorder ≡ path.recorder) × (fault.path.sink ≡ path.sink)) }
{
    let LinesToServe { lines, pollers } = lines;
    let Ok(rooms) = rooms_for(shared.alloc, lines.len(), pollers) else {
        return Err(ServeFault { lines, path });
    };
    let Rooms {
        served,
        threads,
        ends,
    } = rooms;
    let mut left = served_of(lines, served).into_iter();
    let begun = begin_all(scope, shared, &mut left, threads);
    if left.len() > 0 {
        shared.exchange.halt(shared.rt);
    }
    let path = keep_recording(shared, path);
    Ok(LinesServed {
        ends: end_all(shared.rt, begun, left, ends),
        path,
    })
}

/// Room for what serving makes of its lines.
#[derive(Drop)]
struct Rooms<N: Name, P: Port, C: Clock, B: Bell, T: Poller> {
    served: Vec<ServedLine<N, P, C, B>>,
    threads: ThreadsToBegin<N, P, C, B, T>,
    ends: Vec<LineEnd<N>>,
}

/// The threads that are to begin, and room for those that have begun.
#[derive(Drop)]
struct ThreadsToBegin<N: Name, P: Port, C: Clock, B: Bell, T: Poller> {
    groups: Vec<ThreadGroup<N, P, C, B, T>>,
    begun: Vec<Begun<N, P, C, B>>,
}

/// Room for so many lines, and for the threads of these pollers.
fn rooms_for<N: Name, P: Port, C: Clock, B: Bell, T: Poller>(
    alloc: Global,
    lines: usize,
    pollers: Vec<T>,
) -> Result<Rooms<N, P, C, B, T>, AllocError>
    ensures served { IfOk result (λ rooms. (rooms.served.items ≡ []) × (lines ≤ vec_capacity rooms.served)) }
    ensures begun { IfOk result (λ rooms. (rooms.threads.begun.items ≡ []) × (vec_len rooms.threads.groups ≤ vec_capacity rooms.threads.begun)) }
    ensures ends { IfOk result (λ rooms. (rooms.ends.items ≡ []) × (lines ≤ vec_capacity rooms.ends)) }
{
    let groups = groups_of(alloc, pollers)?;
    let begun = Vec::with_capacity(alloc, groups.len())?;
    Ok(Rooms {
        served: Vec::with_capacity(alloc, lines)?,
        threads: ThreadsToBegin { groups, begun },
        ends: Vec::with_capacity(alloc, lines)?,
    })
}

/// Starts each thread with the next lines.
fn begin_all<
    's,
    E,
    N: Name + Send + Sync + 's,
    P: Port + Send + 's,
    C: Clock + Send + 's,
    B: Bell + Send + 's,
    T: Poller + Send + 's,
    R: Threads + Wait + Sync + 's,
>(
    scope: &Scope<'s, E>,
    shared: &'s Shared<'s, N, R>,
    left: &mut IntoIter<ServedLine<N, P, C, B>, Global>,
    threads: ThreadsToBegin<N, P, C, B, T>,
) -> Vec<Begun<N, P, C, B>>
    requires room { vec_len threads.begun + vec_len threads.groups ≤ vec_capacity threads.begun }
    requires none { threads.begun.items ≡ [] }
    requires many { length (into_iter_items left.old) ≡ into_iter_len left.old }
    ensures lines { into_iter_items left.old ≡ begun_lines result.items ++ into_iter_items left.new }
    ensures many { length (into_iter_items left.new) ≡ into_iter_len left.new }
{
    let ThreadsToBegin { groups, begun } = threads;
    let mut begun = begun;
    for group in groups {
        let ThreadGroup { poller, room } = group;
        let lines = fill(room, poller.lines(), left);
        begun.push_reserved(begin_one(scope, shared, lines, poller));
    }
    begun
}

/// Starts a thread with its lines. If it cannot be started, the exchange is halted, so that the lines end at once.
fn begin_one<
    's,
    E,
    N: Name + Send + Sync + 's,
    P: Port + Send + 's,
    C: Clock + Send + 's,
    B: Bell + Send + 's,
    T: Poller + Send + 's,
    R: Threads + Wait + Sync + 's,
>(
    scope: &Scope<'s, E>,
    shared: &'s Shared<'s, N, R>,
    lines: Vec<ServedLine<N, P, C, B>>,
    poller: T,
) -> Begun<N, P, C, B>
    ensures { lines_of result ≡ lines.items }
{
    let promise = OfLines::<N, P, C, B> {
        first: Snapshot::of(&lines),
    };
    let run = move || -> Vec<ServedLine<N, P, C, B>>
        ensures { result.items ≡ lines.items }
    { serve_lines(shared, lines, poller) };
    match scope.spawn_with(promise, run) {
        Ok(handle) => Ok(handle),
        Err(refused) => {
            shared.exchange.halt(shared.rt);
            Err((refused.value)())
        }
    }
}

/// Waits for the end of each thread. A line that had no thread has ended as well.
fn end_all<N: Name, P: Port, C: Clock, B: Bell, R: Threads>(
    rt: &R,
    begun: Vec<Begun<N, P, C, B>>,
    left: IntoIter<ServedLine<N, P, C, B>, Global>,
    ends: Vec<LineEnd<N>>,
) -> Vec<LineEnd<N>>
    requires room { length (begun_lines begun.items ++ into_iter_items left) ≤ vec_capacity ends }
    requires none { ends.items ≡ [] }
    requires many { length (into_iter_items left) ≡ into_iter_len left }
    ensures { AreEach (EndsSo N.subs (AreMoved P.Link.pushed P.Link.pulled)) (begun_lines begun.items ++ into_iter_items left) result.items }
{
    let mut ends = ends;
    for lines in begun {
        ends = end_one(rt, lines, ends);
    }
    add_unstarted(left, ends)
}

/// Waits for the end of a thread, and adds how its lines ended.
fn end_one<N: Name, P: Port, C: Clock, B: Bell, R: Threads>(
    rt: &R,
    begun: Begun<N, P, C, B>,
    ends: Vec<LineEnd<N>>,
) -> Vec<LineEnd<N>>
    requires room { vec_len ends + length (lines_of begun) ≤ vec_capacity ends }
    ensures adds { Adds (EndsSo N.subs (AreMoved P.Link.pushed P.Link.pulled)) ends.items (lines_of begun) result.items }
    ensures capacity { vec_capacity result ≡ vec_capacity ends }
    ensures len { vec_len result ≡ vec_len ends + length (lines_of begun) }
{
    match begun {
        Ok(handle) => add_ends(handle.join(rt), ends),
        Err(lines) => add_unstarted(lines.into_iter(), ends),
    }
}
