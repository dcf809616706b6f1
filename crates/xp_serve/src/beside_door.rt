//! The threads of all lines, and that of the door for routers beside them.

ghost use Rattle.std.specs.Prelude.{◌≡◌, IfErr, IfOk, map};
ghost use Rattle.xp_links.specs.Pairs.{AreEach};
ghost use Rattle.xp_lines.specs.Recorded.{HandsOn};
ghost use Rattle.xp_lines.specs.Sessions.{AreMoved, IsLineDown, IsLineServed};
ghost use Rattle.xp_subs.specs.Tables.{line_count};

use std::alloc::Global;
use std::net::{Net, TcpListener, TcpStream};
use std::sync::Wait;
use std::thread;
use std::thread::{JoinHandle, Scope, Threads};
use xp_limits::Limits;
use xp_lines::{EndReason, LinesServed, LinesToServe, RecordPath, ServeFault, serve_all};
use xp_links::{Bell, Clock, Link, Poller, Port};
use xp_lock::Exchange;
use xp_seats::Name;
use xp_sink::RecordSink;
use xp_tcp::Door;

/// What the threads of all lines are given, and the door of the lines behind routers, if there are any.
#[derive(Drop)]
pub struct LinesAndDoor<N: Name, P: Port, C: Clock, B: Bell, T: Poller> {
    pub lines: LinesToServe<N, P, C, B, T>,
    pub door: Option<Door>,
}

/// Serves all lines by [`serve_all`]. Where there is a door, it takes the connections of routers meanwhile, on a thread of its own.
///
/// # Errors
///
/// `ServeFault` if an allocation fails, or the thread of the door could not be started. Then no line was served.
pub(crate) fn serve_with_door<
    N: Name + Send + Sync,
    P: Port + Send,
    C: Clock + Send,
    B: Bell + Send,
    T: Poller + Send,
    R: Net<Listener = TcpListener, Stream = TcpStream> + Threads + Wait + Sync,
    S: RecordSink,
>(
    rt: &R,
    alloc: Global,
    exchange: &Exchange<N>,
    threads: LinesAndDoor<N, P, C, B, T>,
    path: RecordPath<N, S>,
    limits: Limits,
) -> Result<LinesServed<N, S>, ServeFault<N, P, C, B, S>>
    requires lines { S.lines path.sink ≡ line_count N.subs }
    requires tables { S.tables path.sink ≡ N.subs }
    requires received { S.received path.sink ≡ path.recorder.received }
    ensures served { IfOk result (λ served. AreEach (IsLineServed N.subs (AreMoved P.Link.pushed P.Link.pulled)) (map (λ line. line.pass) threads.lines.lines.items) (map (λ end. end.pass) served.ends.items)) }
    ensures stopped { IfOk result (λ served. AreEach (λ first end. end.why ≡ EndReason.Stopped → IsLineDown N.subs (AreMoved P.Link.pushed P.Link.pulled) first end.pass) (map (λ line. line.pass) threads.lines.lines.items) served.ends.items) }
    ensures recorded { IfOk result (λ served. HandsOn S.received S.keeps path.recorder path.sink served.path.recorder served.path.sink) }
    ensures kept { IfErr result (λ fault. fault.path.sink ≡ path.sink) }
{
    let LinesAndDoor { lines, door } = threads;
    let Some(door) = door else {
        return serve_all(rt, alloc, exchange, lines, path, limits);
    };
    let Ok(bell) = door.bell() else {
        return Err(ServeFault {
            lines: lines.lines,
            path,
        });
    };
    thread::scope(
        thread::scope_env(),
        rt,
        |scope| -> Result<LinesServed<N, S>, ServeFault<N, P, C, B, S>>
            requires lines { S.lines path.sink ≡ line_count N.subs }
            requires tables { S.tables path.sink ≡ N.subs }
            requires received { S.received path.sink ≡ path.recorder.received }
            ensures served { IfOk result (λ served. AreEach (IsLineServed N.subs (AreMoved P.Link.pushed P.Link.pulled)) (map (λ line. line.pass) lines.lines.items) (map (λ end. end.pass) served.ends.items)) }
            ensures stopped { IfOk result (λ served. AreEach (λ first end. end.why ≡ EndReason.Stopped → IsLineDown N.subs (AreMoved P.Link.pushed P.Link.pulled) first end.pass) (map (λ line. line.pass) lines.lines.items) served.ends.items) }
            ensures recorded { IfOk result (λ served. HandsOn S.received S.keeps path.recorder path.sink served.path.recorder served.path.sink) }
            ensures kept { IfErr result (λ fault. fault.path.sink ≡ path.sink) }
        {
            let Some(running) = begin_door(rt, scope, door) else {
                return Err(ServeFault {
                    lines: lines.lines,
                    path,
                });
            };
            let served = serve_all(rt, alloc, exchange, lines, path, limits);
            bell.stop();
            running.join(rt);
            served
        },
    )
}

/// Starts the thread of the door. `None` where it cannot be started.
fn begin_door<'s, E, R: Net<Listener = TcpListener, Stream = TcpStream> + Wait + Sync + 's>(
    rt: &'s R,
    scope: &Scope<'s, E>,
    door: Door,
) -> Option<JoinHandle<()>> {
    scope.spawn(move || door.run(rt)).ok()
}
