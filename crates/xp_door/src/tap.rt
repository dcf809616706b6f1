//! Where a connection of a traced line is listened to.

ghost use Rattle.std.specs.Prelude.{◌≤◌, length};

use crate::trace::Trace;
use std::alloc::{AllocError, Global};
use std::sync::Arc;
use xp_subs::LineNo;
use xp_trace::{MOST_OCTETS, Part, Piece, TracedStream};
use xp_words::Direction;

/// Puts what a connection of a line receives and sends into the trace, and never waits.
#[derive(Drop)]
pub struct Tap {
    alloc: Global,
    trace: Arc<Trace>,
    line: LineNo,
    connection: u32,
    received: TracedStream,
    sent: TracedStream,
}

impl Tap {
    /// The tap of a line's next connection. `None` where the line is not traced.
    pub(crate) fn of(alloc: Global, trace: &Arc<Trace>, line: LineNo) -> Option<Tap> {
        let connection = trace.next_connection(line)?;
        Some(Tap {
            alloc,
            trace: Arc::try_clone(trace).ok()?,
            line,
            connection,
            received: TracedStream::new(connection),
            sent: TracedStream::new(connection),
        })
    }

    /// The line has received these octets.
    pub fn receive(&mut self, octets: &[u8]) {
        self.pass(Direction::FromDte, octets);
    }

    /// The line has sent these octets.
    pub fn send(&mut self, octets: &[u8]) {
        self.pass(Direction::FromDce, octets);
    }

    /// Octets pass, in pieces.
    fn pass(&mut self, direction: Direction, octets: &[u8]) {
        if self.trace.is_stopped() {
            return;
        }
        let mut rest = octets;
        while !rest.is_empty() {
            let (front, behind) = rest.split_at(rest.len().min(MOST_OCTETS));
            self.pass_front(direction, front);
            rest = behind;
        }
    }

    /// At most 4,096 octets pass.
    fn pass_front(&mut self, direction: Direction, octets: &[u8])
        requires { length octets.now ≤ 4_096 }
    {
        let (part, acknowledged) = match direction {
            Direction::FromDte => (self.received.pass(octets), self.sent.sequence()),
            Direction::FromDce => (self.sent.pass(octets), self.received.sequence()),
        };
        let is_put = self.put(direction, part, acknowledged);
        let count = if is_put { part.octets.len() } else { 0 };
        if count < octets.len() {
            self.trace.leave_out(octets.len() - count);
        }
        match direction {
            Direction::FromDte => self.received.note(!is_put),
            Direction::FromDce => self.sent.note(!is_put),
        }
    }

    /// Puts a part of octets into the trace. Whether it could.
    fn put(&self, direction: Direction, part: Part<'_>, acknowledged: u32) -> bool
        requires { length part.octets.now ≤ 4_096 }
    {
        match self.piece(direction, part, acknowledged) {
            Ok(piece) => !part.octets.is_empty() && self.trace.put(piece),
            Err(_) => false,
        }
    }

    fn piece(
        &self,
        direction: Direction,
        part: Part<'_>,
        acknowledged: u32,
    ) -> Result<Piece, AllocError>
        requires { length part.octets.now ≤ 4_096 }
    {
        Ok(Piece {
            line: self.line,
            connection: self.connection,
            direction,
            sequence: part.sequence,
            acknowledged,
            octets: Vec::from_slice(self.alloc, part.octets)?,
        })
    }
}
