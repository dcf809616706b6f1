//! Calls of routers that are refused.

use mio::net::TcpStream;
use mio::{Interest, Registry, Token};
use std::alloc::Global;
use std::collections::VecDeque;
use std::io::{ErrorKind, Read, Write};
use std::time::Duration;
use xp_clearing::CallWatch;

/// How many refused calls are kept at most, until their routers have confirmed the clear.
const MOST_REFUSED: usize = 256;

/// For how long a clear confirmation is waited for, in seconds.
const LONGEST_WAIT: u64 = 2;

/// How many reads are made of a connection in one look.
const MOST_READS: usize = 64;

/// How many octets one of them takes.
const PIECE: usize = 4096;

/// The name of these connections among what the door waits for.
const REFUSED: Token = Token(2);

/// A connection whose call is refused.
#[derive(Drop)]
struct RefusedCall {
    stream: TcpStream,
    /// How far its call is cleared.
    watch: CallWatch,
    /// When it is closed at the latest.
    until: Duration,
}

/// The connections whose calls are refused, until the routers have confirmed that, or two seconds have passed.
#[derive(Drop)]
pub(crate) struct RefusedCalls {
    waiting: VecDeque<RefusedCall>,
}

impl RefusedCalls {
    /// None yet.
    pub(crate) fn new(alloc: Global) -> RefusedCalls {
        RefusedCalls {
            waiting: VecDeque::new(alloc),
        }
    }

    /// Refuses the call of a connection by this frame. Where the connection does not take it, or 256 wait already, it is closed.
    pub(crate) fn add(&mut self, waits: &Registry, stream: TcpStream, frame: &[u8], now: Duration) {
        let mut stream = stream;
        if self.waiting.len() >= MOST_REFUSED
            || !matches!(stream.write(frame), Ok(count) if count == frame.len())
            || waits
                .register(&mut stream, REFUSED, Interest::READABLE)
                .is_err()
        {
            return;
        }
        let mut watch = CallWatch::new();
        watch.send(frame);
        let _ = self.waiting.push_back(RefusedCall {
            stream,
            watch,
            until: now.saturating_add(Duration::from_secs(LONGEST_WAIT)),
        });
    }

    /// Looks at each of them, and closes those that are over.
    pub(crate) fn look(&mut self, now: Duration) {
        for _call in 0..self.waiting.len() {
            if let Some(mut call) = self.waiting.pop_front() {
                if now < call.until && !call.has_ended() {
                    let _ = self.waiting.push_back(call);
                }
            }
        }
    }

    /// Whether there are none.
    pub(crate) fn is_empty(&self) -> bool {
        self.waiting.is_empty()
    }
}

impl RefusedCall {
    /// Reads what has come. Returns whether the router has confirmed the clear, or has ended the connection.
    fn has_ended(&mut self) -> bool {
        let mut octets = [0; PIECE];
        for _read in 0..MOST_READS {
            if self.watch.clearing.takes_no_more() {
                return true;
            }
            match self.stream.read(&mut octets) {
                Ok(0) => return true,
                Ok(count) => {
                    self.watch.receive(&octets[..count]);
                }
                Err(error) => {
                    return !matches!(error.kind(), ErrorKind::WouldBlock | ErrorKind::Interrupted);
                }
            }
        }
        false
    }
}
