//! The TCP port that routers connect to.

use crate::callers::{Callers, Heard};
use crate::connect_fault::ConnectFault;
use crate::door_bell::DoorBell;
use crate::doorway::Doorway;
use crate::lines_behind::Given;
use crate::notices::{Notice, Notices};
use crate::refused_calls::RefusedCalls;
use crate::router_call::RouterCall;
use crate::router_line::{Arrival, RouterLine, Wish};
use crate::wakers::LineWaker;
use crate::want::is_in_want;
use mio::net::TcpStream;
use mio::{Events, Poll};
use std::alloc::{AllocError, Global};
use std::io::ErrorKind;
use std::net::Net;
use std::sync::{Arc, Wait};
use std::time::Duration;
use xp_causes::Refusal;
use xp_clock::uptime;
use xp_subs::{LineNo, MOST_LINES};

/// How many connections are taken at most before the lines are looked at again.
const MOST_TAKEN: usize = 16;

/// How long the thread sleeps at most, in milliseconds.
const LONGEST_SLEEP: u64 = 500;

/// What the thread of the door waits on.
#[derive(Drop)]
pub struct DoorWaits {
    pub poll: Poll,
    /// Room for what the thread was woken by, which is not looked at.
    pub events: Events,
}

/// The door of the lines behind routers: it listens at one TCP port for all routers, where a line is behind one. A connection waits
/// with it until its first frame is whole, and is then given to a line behind the router that it comes from. It begins the connections
/// to routers that lines wait for. It waits for no line and no router.
pub struct Door {
    alloc: Global,
    doorway: Arc<Doorway>,
    waits: DoorWaits,
    /// All lines, in order.
    lines: Vec<Arc<RouterLine>>,
    /// Room for the numbers of the lines for which the bell was rung.
    wanted: Vec<usize>,
    callers: Callers,
    refused: RefusedCalls,
    wakers: Arc<Vec<LineWaker>>,
    notices: Arc<Notices>,
    /// No connection could be accepted, for want of descriptors or of memory, and none was since.
    is_failing: bool,
}

impl Drop for Door {
    fn drop(self) {
        let Door {
            alloc: _,
            doorway,
            waits: _,
            lines: _,
            wanted: _,
            callers: _,
            refused: _,
            wakers: _,
            notices: _,
            is_failing: _,
        } = self;
        doorway.close();
    }
}

impl Door {
    /// The door of all lines, in order, whose thread waits on this.
    pub fn new(
        alloc: Global,
        doorway: Arc<Doorway>,
        waits: DoorWaits,
        lines: Vec<Arc<RouterLine>>,
        wakers: Arc<Vec<LineWaker>>,
        notices: Arc<Notices>,
    ) -> Result<Door, AllocError> {
        let wanted = Vec::with_capacity(alloc, MOST_LINES)?;
        Ok(Door {
            alloc,
            doorway,
            waits,
            lines,
            wanted,
            callers: Callers::new(alloc),
            refused: RefusedCalls::new(alloc),
            wakers,
            notices,
            is_failing: false,
        })
    }

    /// What stops the door.
    pub fn bell(&self) -> Result<Arc<DoorBell>, AllocError> {
        Arc::try_clone(&self.doorway.bell)
    }

    /// Takes connections, and begins those that lines wait for, until the bell tells it to stop.
    pub fn run<R: Net + Wait>(self, rt: &R) {
        let mut door = self;
        for _turn in rt.forever() {
            if door.doorway.bell.is_stopped() {
                return;
            }
            door.begin_wanted(rt);
            let may_be_more = door.accept_some(rt);
            door.hear_callers(rt);
            if !may_be_more {
                door.sleep();
            }
        }
    }

    /// Sleeps until a connection comes or the bell rings.
    fn sleep(&mut self) {
        let most = Duration::from_millis(LONGEST_SLEEP);
        // Where the wait fails, the turn that follows finds nothing, and the thread waits again.
        let _ = self.waits.poll.poll(&mut self.waits.events, Some(most));
    }

    /// Begins the connections that lines wait for, if the bell was rung.
    fn begin_wanted<R: Net + Wait>(&mut self, rt: &R) {
        if !self.doorway.bell.take_ring() {
            return;
        }
        if self.doorway.bell.take_wanted(&mut self.wanted).is_err() {
            // The bell stays rung for the lines that were not taken.
            self.doorway.bell.ring();
        }
        for index in 0..self.wanted.len() {
            if let Some(back) = self.begin_next(rt, index) {
                self.receive(rt, back);
            }
        }
    }

    /// Begins the connection that the line waits for which stands in this place among those for which the bell was rung, if it does. The
    /// connection comes back that the line was given before.
    fn begin_next<R: Net>(&self, rt: &R, index: usize) -> Option<Arrival> {
        let number = *self.wanted.get(index)?;
        let line = self.lines.get(number)?;
        let back = match line.wish() {
            Wish::Connection(router) => {
                let begun = TcpStream::connect(rt, router);
                let back = line.begin(router, begun.map_err(|error| ConnectFault::of(&error)));
                self.wake(line.line);
                back
            }
            Wish::Nothing => return None,
            Wish::Unknown => None,
        };
        if line.wish() != Wish::Nothing {
            self.doorway.bell.ring_for(line.line);
        }
        back
    }

    /// Takes some connections. Whether there may be more of them.
    fn accept_some<R: Wait>(&mut self, rt: &R) -> bool {
        for _taken in 0..MOST_TAKEN {
            match self.doorway.accept(rt) {
                Some(Ok((stream, peer))) => {
                    self.note(false);
                    self.receive(rt, Arrival { stream, peer });
                }
                Some(Err(error)) => {
                    if let Some(fails) = is_in_want(&error) {
                        self.note(fails);
                    }
                    match error.kind() {
                        // One connection alone has failed.
                        ErrorKind::ConnectionAborted | ErrorKind::Interrupted => {}
                        _ => return false,
                    }
                }
                None => return false,
            }
        }
        true
    }

    /// Lets a connection that came wait for its first frame. Where it comes from no router, or too many wait, it is closed.
    fn receive<R: Wait>(&mut self, rt: &R, arrival: Arrival) {
        let peer = arrival.peer;
        if !self.doorway.routes(rt).has(peer.ip()) {
            self.notices.tell(Notice::NoRouter { peer });
            return;
        }
        let now = uptime().unwrap_or(Duration::MAX);
        if let Err(notice) = self.callers.admit(self.waits.poll.registry(), arrival, now) {
            self.notices.tell(notice);
        }
    }

    /// Looks at each connection that waits for its first frame, and at those whose calls are refused.
    fn hear_callers<R: Wait>(&mut self, rt: &R) {
        let count = self.callers.count();
        if count == 0 && self.refused.is_empty() {
            return;
        }
        let now = uptime().unwrap_or(Duration::MAX);
        for _caller in 0..count {
            match self.callers.hear(self.waits.poll.registry(), now) {
                Heard::Nothing => {}
                Heard::Call(arrival, call) => self.give(rt, arrival, call),
                Heard::Closed(notice) => self.notices.tell(notice),
            }
        }
        self.refused.look(now);
    }

    /// Gives a connection to the line that takes its call, or where it opens with no call request, to a line behind its router. Where
    /// there is none it is refused. Lines do not change their routers meanwhile.
    fn give<R: Wait>(&mut self, rt: &R, arrival: Arrival, call: Option<RouterCall>) {
        let given = self.doorway.routes(rt).give(arrival, &call);
        match given {
            Given::To(line) => self.wake(line),
            Given::Refused(arrival, refusal) => self.refuse(arrival, call, refusal),
        }
    }

    /// Refuses a connection, which is told: its call by a clear indication, and one without a call by its end.
    fn refuse(&mut self, arrival: Arrival, call: Option<RouterCall>, refusal: Refusal) {
        let Arrival { stream, peer } = arrival;
        self.notices.tell(if refusal == Refusal::CALLER_NOT_KNOWN {
            Notice::NoCaller { peer }
        } else {
            Notice::NoFreeLine { peer }
        });
        let Some(call) = call else {
            return;
        };
        if let Some(frame) = call.refusal(self.alloc, refusal) {
            let now = uptime().unwrap_or(Duration::MAX);
            self.refused
                .add(self.waits.poll.registry(), stream, &frame, now);
        }
    }

    /// Wakes the thread of a line.
    fn wake(&self, line: LineNo) {
        if let Some(waker) = self.wakers.get(line as usize) {
            waker.ring();
        }
    }

    /// Notes whether connections can be accepted, and tells where that has changed.
    fn note(&mut self, fails: bool) {
        if fails == self.is_failing {
            return;
        }
        self.is_failing = fails;
        self.notices.tell(if fails {
            Notice::DoorFailing
        } else {
            Notice::DoorWorks
        });
    }
}
