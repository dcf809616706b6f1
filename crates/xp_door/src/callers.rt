//! Connections of routers that wait for their first frame.

ghost use Rattle.std.specs.Prelude.{List, ℕ};
ghost use Rattle.std.specs.Net.Socket.{socket_ip};
ghost use Rattle.xp_door.specs.steps.Choices.{IsStanding};

use crate::notices::Notice;
use crate::opening::{Opening, opening_of};
use crate::router_call::RouterCall;
use crate::router_line::Arrival;
use mio::{Interest, Registry, Token};
use std::alloc::{AllocError, Global};
use std::collections::VecDeque;
use std::io::ErrorKind;
use std::time::Duration;

/// How many connections wait at most.
const MOST_CALLERS: usize = 256;

/// For how long a connection waits at most, in seconds.
const LONGEST_WAIT: u64 = 10;

/// As many octets as the largest frame has (RFC 1613): its header, and a packet.
const LARGEST_FRAME: usize = 4 + 1_028;

/// The name of these connections among what the door waits for.
const CALLER: Token = Token(1);

/// A connection that waits for its first frame.
#[derive(Drop)]
struct Caller {
    arrival: Arrival,
    /// When it came.
    since: Duration,
}

/// What has become of a connection that waits.
#[derive(Drop)]
enum Standing {
    /// Its first frame is not whole yet.
    Waits,
    /// Its first frame is whole, and has this call request, or else none.
    Calls(Option<RouterCall>),
    /// It is to be closed, which is told so.
    Over(Notice),
}

/// What was found of one connection.
#[derive(Drop)]
pub(crate) enum Heard {
    /// It still waits.
    Nothing,
    /// Its first frame has come, with this call request, or else none. None of its octets is read yet.
    Call(Arrival, Option<RouterCall>),
    /// It was closed, which is to be told so.
    Closed(Notice),
}

/// The connections of routers that wait for their first frame, in the order in which they came, at most 256. None of their octets
/// is read: they are looked at, and stay for the line that the connection is given to.
#[derive(Drop)]
pub(crate) struct Callers {
    alloc: Global,
    waiting: VecDeque<Caller>,
}

impl Callers {
    /// None yet.
    pub(crate) fn new(alloc: Global) -> Callers {
        Callers {
            alloc,
            waiting: VecDeque::new(alloc),
        }
    }

    /// How many wait.
    pub(crate) fn count(&self) -> usize {
        self.waiting.len()
    }

    /// Lets a connection wait, which came at this time. The door hears of it from now on.
    ///
    /// # Errors
    ///
    /// What is to be told where the connection is closed: 256 wait already, or memory is wanting.
    pub(crate) fn admit(
        &mut self,
        waits: &Registry,
        arrival: Arrival,
        now: Duration,
    ) -> Result<(), Notice> {
        let peer = arrival.peer;
        let mut caller = Caller {
            arrival,
            since: now,
        };
        if self.waiting.len() >= MOST_CALLERS
            || waits
                .register(&mut caller.arrival.stream, CALLER, Interest::READABLE)
                .is_err()
        {
            return Err(Notice::NoRoom { peer });
        }
        self.waiting
            .push_back(caller)
            .map_err(|_| Notice::NoRoom { peer })
    }

    /// Looks at the connection that waits in front, at this time. Where it goes on waiting it stands behind all others then.
    pub(crate) fn hear(&mut self, waits: &Registry, now: Duration) -> Heard {
        let Some(caller) = self.waiting.pop_front() else {
            return Heard::Nothing;
        };
        let peer = caller.arrival.peer;
        match caller.standing(self.alloc, now) {
            Standing::Waits => match self.waiting.push_back(caller) {
                Ok(()) => Heard::Nothing,
                Err(_) => Heard::Closed(Notice::NoRoom { peer }),
            },
            Standing::Calls(call) => {
                let mut arrival = caller.arrival;
                // It fails only where the door did not wait for the connection.
                let _ = waits.deregister(&mut arrival.stream);
                Heard::Call(arrival, call)
            }
            Standing::Over(notice) => Heard::Closed(notice),
        }
    }
}

impl Caller {
    /// What has become of it by this time.
    fn standing(&self, alloc: Global, now: Duration) -> Standing {
        let peer = self.arrival.peer;
        let mut octets = [0; LARGEST_FRAME];
        match self.arrival.stream.peek(&mut octets) {
            Ok(0) => Standing::Over(Notice::EndedEarly { peer }),
            Ok(count) => self.standing_by(alloc, &octets[..count], now),
            Err(error) if error.kind() == ErrorKind::WouldBlock => self.standing_in_time(now),
            Err(error) if error.kind() == ErrorKind::Interrupted => self.standing_in_time(now),
            Err(_) => Standing::Over(Notice::EndedEarly { peer }),
        }
    }

    /// What has become of it, where these octets have come.
    fn standing_by(&self, alloc: Global, octets: &[u8], now: Duration) -> Standing
        ensures { IsStanding (socket_ip self.now.arrival.peer) octets.now result }
    {
        let peer = self.arrival.peer;
        match opening_of(alloc, octets) {
            Ok(Opening::Packet(packet)) => match RouterCall::of(alloc, peer.ip(), &packet) {
                Ok(call) => Standing::Calls(call),
                Err(_) => self.standing_in_time(now),
            },
            Ok(Opening::BadHeader) => Standing::Over(Notice::NoFraming { peer }),
            Ok(Opening::Partial) | Err(_) => self.standing_in_time(now),
        }
    }

    /// What has become of it, where its first frame is not whole.
    fn standing_in_time(&self, now: Duration) -> Standing
        ensures { (octets : List ℕ) → IsStanding (socket_ip self.now.arrival.peer) octets result }
    {
        let peer = self.arrival.peer;
        if now.saturating_sub(self.since) < Duration::from_secs(LONGEST_WAIT) {
            Standing::Waits
        } else {
            Standing::Over(Notice::NoFrame { peer })
        }
    }
}
