//! Connections that were let go, whose peers may still have something to read.

use crate::link::is_early;
use mio::net::TcpStream;
use std::alloc::Global;
use std::collections::VecDeque;
use std::io::Read;
use std::net::Shutdown;
use std::time::Duration;
use xp_clock::uptime;

/// How many connections are kept at most.
const MOST_LEAVING: usize = 256;

/// For how long each of them is kept at most, in seconds.
const LONGEST_STAY: u64 = 2;

/// How many reads drop what came, in one look at a connection.
const MOST_READS: usize = 64;

/// How many octets one of them takes.
const PIECE: usize = 4096;

/// A connection that was let go.
#[derive(Drop)]
struct LeavingConnection {
    stream: TcpStream,
    /// When it is closed at the latest.
    until: Duration,
}

/// The connections that were let go. A connection that is closed while octets of it are to be read is reset, and what was written to it
/// may be lost. So what comes is read and dropped, until the peer has closed the connection or two seconds have passed.
#[derive(Drop)]
pub(crate) struct Leaving {
    connections: VecDeque<LeavingConnection>,
}

impl Leaving {
    /// None yet.
    pub(crate) fn new(alloc: Global) -> Leaving {
        Leaving {
            connections: VecDeque::new(alloc),
        }
    }

    /// Lets a connection go: nothing more is written to it, and its peer is told so behind all that was written. Where 256 are kept
    /// already, or memory is wanting, it is closed.
    pub(crate) fn add(&mut self, stream: TcpStream) {
        // It fails where the connection has ended.
        let _ = stream.shutdown(Shutdown::Write);
        let mut connection = LeavingConnection {
            stream,
            until: now().saturating_add(Duration::from_secs(LONGEST_STAY)),
        };
        if !connection.has_ended() && self.connections.len() < MOST_LEAVING {
            let _ = self.connections.push_back(connection);
        }
    }

    /// Drops what has come on each of them, and closes those that are over. Returns whether one is left.
    pub(crate) fn look(&mut self) -> bool {
        let count = self.connections.len();
        if count == 0 {
            return false;
        }
        let now = now();
        for _connection in 0..count {
            if let Some(mut connection) = self.connections.pop_front() {
                if now < connection.until && !connection.has_ended() {
                    let _ = self.connections.push_back(connection);
                }
            }
        }
        !self.connections.is_empty()
    }
}

impl LeavingConnection {
    /// Drops what has come. Returns whether the peer has closed the connection.
    fn has_ended(&mut self) -> bool {
        let mut dropped = [0; PIECE];
        for _read in 0..MOST_READS {
            match self.stream.read(&mut dropped) {
                Ok(0) => return true,
                Ok(_) => {}
                Err(error) => return !is_early(&error),
            }
        }
        false
    }
}

/// The time by which connections are kept.
fn now() -> Duration {
    uptime().unwrap_or(Duration::MAX)
}
