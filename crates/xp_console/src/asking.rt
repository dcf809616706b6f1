//! Asking a console, as `xp status`, `xp stop` and `xp reload` do.

ghost use Rattle.std.specs.Prelude.{◌≡◌};
ghost use Rattle.std.specs.Io.{ReadsAtMost};
ghost use Rattle.xp_console.specs.declared.asking.AskFault.TheVariants.{Memory as OutOfMemory};

use crate::reload::ReloadAnswer;
use crate::reply::{Reply, reply_in};
use std::alloc::{AllocError, Global};
use std::io;
use std::io::{ErrorKind, Read, Write};
use std::net::{Net, SocketAddr, TcpStream};
use std::time::{Clock, Duration};
use thiserror::Error;

/// How long a console has for its reply, in seconds.
const PATIENCE: u64 = 5;

/// How long it has for its reply to a reload, in seconds. The console itself waits 10 seconds at most.
const RELOAD_PATIENCE: u64 = 15;

/// How many octets a reply has at most.
const LONGEST: usize = 1_048_576;

/// How many octets are read at once.
const PIECE: usize = 4_096;

/// Why a console has not done what it was asked.
#[derive(Clone, Copy, Debug, Drop, Error)]
pub enum AskFault {
    /// Nothing listens at the address, or the connection broke.
    #[error("no console answers there")]
    Unreachable,
    /// No whole reply came within 5 seconds, or to a reload within 15.
    #[error("the console is too slow")]
    Slow,
    /// The reply is no response of HTTP, or is longer than 1 MiB.
    #[error("the reply is none of a console")]
    Unreadable,
    /// The console refuses, with this status of HTTP.
    #[error("the console refuses: {0}")]
    Refused(u16),
    #[error("out of memory")]
    Memory,
}

impl From<AllocError> for AskFault {
    ghost from_gives = { λ _ fault. fault ≡ OutOfMemory };

    fn from(_refused: AllocError) -> AskFault {
        AskFault::Memory
    }
}

/// The status of the exchange that has its console at an address, as text for a terminal.
///
/// # Errors
///
/// As [`AskFault`] says.
pub fn ask_status<R: Net<Stream = TcpStream> + Clock>(
    rt: &R,
    alloc: Global,
    address: SocketAddr,
) -> Result<String, AskFault> {
    let Reply { status, body } = ask(rt, alloc, address, "GET /status.txt", "", PATIENCE)?;
    let text = text_in(body)?;
    match status {
        200 => Ok(text),
        _ => Err(AskFault::Refused(status)),
    }
}

/// Asks the exchange that has its console at an address to stop. It does not wait until it has.
///
/// # Errors
///
/// As [`AskFault`] says. After `Slow` and `Unreachable` the exchange may be stopping.
pub fn ask_stop<R: Net<Stream = TcpStream> + Clock>(
    rt: &R,
    alloc: Global,
    address: SocketAddr,
) -> Result<(), AskFault> {
    let fields = "content-length: 0\r\nx-gonukire: stop\r\n";
    let reply = ask(rt, alloc, address, "POST /stop", fields, PATIENCE)?;
    match reply.status {
        202 => Ok(()),
        status => Err(AskFault::Refused(status)),
    }
}

/// Asks the exchange that has its console at an address to read its subscription file again, and waits for what becomes of that. The
/// texts are without the line feed at their end. `Busy` is also where the console lacked memory for its reply.
///
/// # Errors
///
/// As [`AskFault`] says. After `Slow`, `Unreachable` and `Unreadable` what the file has may be in force.
pub fn ask_reload<R: Net<Stream = TcpStream> + Clock>(
    rt: &R,
    alloc: Global,
    address: SocketAddr,
) -> Result<ReloadAnswer, AskFault> {
    let fields = "content-length: 0\r\nx-gonukire: reload\r\n";
    let reply = ask(rt, alloc, address, "POST /reload", fields, RELOAD_PATIENCE)?;
    let Reply { status, body } = reply;
    match status {
        200 => told(body, true),
        409 => told(body, false),
        503 => Ok(ReloadAnswer::Busy),
        _ => Err(AskFault::Refused(status)),
    }
}

/// What a reload is answered with this body, where it was done or refused.
fn told(mut body: Vec<u8>, is_done: bool) -> Result<ReloadAnswer, AskFault> {
    if body.last() == Some(&b'\n') {
        body.pop();
    }
    let text = text_in(body)?;
    Ok(if is_done {
        ReloadAnswer::Done(text)
    } else {
        ReloadAnswer::Refused(text)
    })
}

fn text_in(body: Vec<u8>) -> Result<String, AskFault> {
    match String::from_utf8(body) {
        Ok(text) => Ok(text),
        Err(_) => Err(AskFault::Unreadable),
    }
}

/// The reply to a request with this method and path, and these fields beside those that each has. It has to come within so many
/// seconds.
fn ask<R: Net<Stream = TcpStream> + Clock>(
    rt: &R,
    alloc: Global,
    address: SocketAddr,
    target: &str,
    fields: &str,
    patience: u64,
) -> Result<Reply, AskFault> {
    let ends = uptime(rt)?.saturating_add(Duration::from_secs(patience));
    let request = format!(in alloc;
        "{target} HTTP/1.1\r\nhost: {address}\r\nconnection: close\r\n{fields}\r\n"
    )?;
    let text = exchange(rt, alloc, address, request.as_bytes(), ends)?;
    reply_in(alloc, &text)
}

/// All that the console sends behind a request, before this moment.
fn exchange<R: Net<Stream = TcpStream> + Clock>(
    rt: &R,
    alloc: Global,
    address: SocketAddr,
    request: &[u8],
    ends: Duration,
) -> Result<Vec<u8>, AskFault> {
    let most = Duration::from_secs(PATIENCE);
    let Ok(mut stream) = TcpStream::connect_timeout(rt, &address, most) else {
        return Err(AskFault::Unreachable);
    };
    let mut text = Vec::new(alloc);
    talk(rt, &mut stream, request, ends, &mut text)?;
    Ok(text)
}

/// Sends a request, and reads all that comes until the console closes the connection, which it has to before this moment.
fn talk<R: Clock>(
    rt: &R,
    stream: &mut TcpStream,
    request: &[u8],
    ends: Duration,
    text: &mut Vec<u8>,
) -> Result<(), AskFault> {
    if stream.write_all(request).is_err() {
        return Err(AskFault::Unreachable);
    }
    for _piece in 0..u64::MAX {
        if text.len() >= LONGEST {
            break;
        }
        let left = ends.saturating_sub(uptime(rt)?);
        if left.is_zero() {
            return Err(AskFault::Slow);
        }
        let mut piece = [0; PIECE];
        match read_within(stream, left, &mut piece) {
            Ok(0) => return Ok(()),
            Ok(count) => text.extend_from_slice(&piece[..count])?,
            Err(error) => return Err(fault_of(&error)),
        }
    }
    Err(AskFault::Unreadable)
}

/// Reads once, and waits no longer than that.
fn read_within(stream: &mut TcpStream, most: Duration, into: &mut [u8]) -> io::Result<usize>
    ensures { ReadsAtMost result into.new }
{
    stream.set_read_timeout(Some(most))?;
    stream.read(into)
}

fn fault_of(error: &io::Error) -> AskFault {
    match error.kind() {
        ErrorKind::WouldBlock | ErrorKind::TimedOut | ErrorKind::Interrupted => AskFault::Slow,
        _ => AskFault::Unreachable,
    }
}

/// The time since the system began.
fn uptime<R: Clock>(rt: &R) -> Result<Duration, AskFault> {
    match rt.monotonic() {
        Ok(uptime) => Ok(uptime),
        Err(_) => Err(AskFault::Unreachable),
    }
}
