//! What the door and the thread of a line behind a router tell each other.

ghost use Rattle.std.specs.Net.Socket.{socket_ip};
ghost use Rattle.std.specs.Prelude.{◌≡◌, OnOk, Some};
ghost use Rattle.std.specs.declared.net.socket_addr.SocketAddr.{SocketAddr as Address};
ghost use Rattle.xp_door.specs.Hosts.{IsSameHost};

use crate::connect_fault::ConnectFault;
use crate::door_bell::DoorBell;
use crate::hosts::is_same_host;
use crate::locks::hold;
use mio::net::TcpStream;
use std::mem;
use std::net::SocketAddr;
use std::sync::atomic::AtomicBool;
use std::sync::atomic::Ordering::SeqCst;
use std::sync::{Arc, Mutex, Wait};
use xp_subs::LineNo;

/// A connection that a router has made.
#[derive(Drop)]
pub struct Arrival {
    pub stream: TcpStream,
    pub peer: SocketAddr,
}

/// What a line behind a router has now, or waits for.
enum Stage {
    /// It has no connection.
    Free,
    /// The door has given it a connection of the router, which its thread has not taken yet.
    Handed(Arrival),
    /// Its thread waits for a connection to the router. A connection of the router that it had before goes back to the door.
    Wanted(Option<Arrival>),
    /// The door has begun a connection to the router, which its thread has not taken yet.
    Begun(TcpStream),
    /// The door could not begin a connection.
    Failed(ConnectFault),
    /// Its thread has a connection.
    Busy,
    /// Its thread has ended.
    Closed,
}

impl Drop for Stage {
    fn drop(self) {
        match self {
            Stage::Free | Stage::Failed(_) | Stage::Busy | Stage::Closed => {}
            Stage::Handed(_) | Stage::Wanted(_) | Stage::Begun(_) => {}
        }
    }
}

impl Stage {
    /// After the line's thread has asked for a connection that the door has given: the connection comes with it.
    fn taken(self) -> (Stage, Option<Arrival>) {
        match self {
            Stage::Handed(arrival) => (Stage::Busy, Some(arrival)),
            Stage::Closed => (Stage::Closed, None),
            _ => (Stage::Free, None),
        }
    }

    /// After the line's thread has asked for a connection to the router, where this one goes back to the door, or another that the
    /// thread has not taken.
    fn wanted(self, back: Option<Arrival>) -> Stage {
        match self {
            Stage::Handed(arrival) => Stage::Wanted(Some(arrival)),
            _ => Stage::Wanted(back),
        }
    }

    /// After the door has begun a connection to the router, or could not, where the line's thread waits for one: what goes back to
    /// the door comes with it.
    fn begun(self, begun: Result<TcpStream, ConnectFault>) -> (Stage, Option<Arrival>) {
        match self {
            Stage::Wanted(back) => match begun {
                Ok(stream) => (Stage::Begun(stream), back),
                Err(reason) => (Stage::Failed(reason), back),
            },
            other => (other, None),
        }
    }

    /// After the line's thread has asked what has become of the connection that it waits for, which comes with it.
    fn attempted(self) -> (Stage, Attempt) {
        match self {
            Stage::Begun(stream) => (Stage::Busy, Attempt::Begun(stream)),
            Stage::Failed(reason) => (Stage::Busy, Attempt::Failed(reason)),
            other => (other, Attempt::Waits),
        }
    }

    /// After the line's connection has gone, or is waited for no more: a connection of the router stays that the line's thread has
    /// not taken.
    fn released(self) -> Stage {
        match self {
            Stage::Handed(arrival) | Stage::Wanted(Some(arrival)) => Stage::Handed(arrival),
            Stage::Closed => Stage::Closed,
            _ => Stage::Free,
        }
    }
}

/// What has become of a connection that a line's thread waits for.
#[derive(Drop)]
pub enum Attempt {
    /// The door has yet to begin it.
    Waits,
    /// It is begun.
    Begun(TcpStream),
    /// It could not be begun.
    Failed(ConnectFault),
}

/// What the door has to do for a line.
#[derive(Clone, Copy, PartialEq)]
pub(crate) enum Wish {
    /// To begin a connection to this router.
    Connection(SocketAddr),
    /// Nothing.
    Nothing,
    /// That can't be told now.
    Unknown,
}

/// The router that a line is behind, if it is behind one, and what the line has of it.
#[derive(Drop)]
struct RouterSide {
    /// Where the router takes connections. It makes its own from this address, and any port.
    router: Option<SocketAddr>,
    stage: Stage,
}

impl RouterSide {
    /// Takes a connection of the line's router. It comes back where it is from another address, or the line is not free.
    fn hand(&mut self, arrival: Arrival) -> Result<(), Arrival>
        ensures { OnOk result ((router : Address) × (self.old.router ≡ Some router) × IsSameHost (socket_ip router) (socket_ip arrival.peer)) }
    {
        let Some(router) = self.router else {
            return Err(arrival);
        };
        if !is_same_host(router.ip(), arrival.peer.ip()) || !matches!(self.stage, Stage::Free) {
            return Err(arrival);
        }
        self.stage = Stage::Handed(arrival);
        Ok(())
    }

    /// Lets go what the line has of its router, unless its thread has ended, and puts it behind this one.
    fn renew(&mut self, router: Option<SocketAddr>)
        ensures { self.new.router ≡ router }
    {
        self.router = router;
        if !matches!(self.stage, Stage::Closed) {
            self.stage = Stage::Free;
        }
    }
}

/// A line as the door, the line's thread and whoever gives it a router share it. Each of them holds its lock for moments.
#[derive(Drop)]
pub struct RouterLine {
    pub line: LineNo,
    side: Mutex<RouterSide>,
    /// The door gives it no connection for now.
    is_held: AtomicBool,
    /// Whether the line's last link went before it was used.
    was_unused: AtomicBool,
    bell: Option<Arc<DoorBell>>,
}

impl RouterLine {
    /// A line behind this router, if it is behind one, without a connection. Its thread rings this bell.
    pub fn new(line: LineNo, router: Option<SocketAddr>, bell: Option<Arc<DoorBell>>) -> RouterLine
        ensures { result.line ≡ line }
    {
        RouterLine {
            line,
            side: Mutex::new(RouterSide {
                router,
                stage: Stage::Free,
            }),
            is_held: AtomicBool::new(false),
            was_unused: AtomicBool::new(false),
            bell,
        }
    }

    /// Whether it is behind a router. False where that can't be told now.
    pub fn is_behind(&self) -> bool {
        match hold(&self.side) {
            Some(side) => side.router.is_some(),
            None => false,
        }
    }

    /// Holds the line, so that the door gives it no connection, or lets that go on.
    pub fn hold(&self, is_held: bool) {
        self.is_held.store(is_held, SeqCst);
    }

    /// Puts the line behind this router, if there is one, and closes what it had of the one before.
    pub fn renew<R: Wait>(&self, rt: &R, router: Option<SocketAddr>) {
        self.side.lock(rt).renew(router);
        self.was_unused.store(false, SeqCst);
    }

    /// Whether the line has no connection, waits for none, and is not held.
    pub fn is_free(&self) -> bool {
        if self.is_held.load(SeqCst) {
            return false;
        }
        match hold(&self.side) {
            Some(side) => matches!(side.stage, Stage::Free),
            None => false,
        }
    }

    /// Gives the line a connection of its router. It comes back where it is from another address, or the line is not free.
    pub fn hand(&self, arrival: Arrival) -> Result<(), Arrival> {
        match hold(&self.side) {
            Some(mut side) if !self.is_held.load(SeqCst) => side.hand(arrival),
            _ => Err(arrival),
        }
    }

    /// Takes the connection that the door has given to the line, which has none. From now on it has that one.
    pub fn take_handed(&self) -> Option<Arrival> {
        let mut side = hold(&self.side)?;
        let (stage, handed) = mem::replace(&mut side.stage, Stage::Free).taken();
        side.stage = stage;
        handed
    }

    /// Asks the door for a connection to the router. A connection of the router that the line was given, this one or another that
    /// its thread has not taken, goes back to the door. False where the line has to ask again.
    pub fn want(&self, back: Option<Arrival>) -> bool {
        let Some(mut side) = hold(&self.side) else {
            return false;
        };
        let stage = mem::replace(&mut side.stage, Stage::Free).wanted(back);
        side.stage = stage;
        drop(side);
        if let Some(bell) = &self.bell {
            bell.ring_for(self.line);
        }
        true
    }

    /// Takes the connection that the line's thread waits for.
    pub fn take_begun(&self) -> Attempt {
        let Some(mut side) = hold(&self.side) else {
            return Attempt::Waits;
        };
        let (stage, attempt) = mem::replace(&mut side.stage, Stage::Free).attempted();
        side.stage = stage;
        attempt
    }

    /// What the door has to do: the line's thread may wait for a connection that is not begun.
    pub(crate) fn wish(&self) -> Wish {
        let Some(side) = hold(&self.side) else {
            return Wish::Unknown;
        };
        match (&side.stage, side.router) {
            (Stage::Wanted(_), Some(router)) => Wish::Connection(router),
            _ => Wish::Nothing,
        }
    }

    /// Gives the line's thread the connection to this router that it waits for, or why none could be begun. Where it waits no more, or is
    /// behind another router, the connection is closed. A connection of the router comes back that the line can't take.
    pub(crate) fn begin(
        &self,
        router: SocketAddr,
        begun: Result<TcpStream, ConnectFault>,
    ) -> Option<Arrival> {
        let mut side = hold(&self.side)?;
        if side.router != Some(router) {
            return None;
        }
        let (stage, back) = mem::replace(&mut side.stage, Stage::Free).begun(begun);
        side.stage = stage;
        back
    }

    /// The line has no connection any more, and waits for none. One of the router that it had to give back is given to it again.
    pub fn release(&self) {
        let Some(mut side) = hold(&self.side) else {
            return;
        };
        let stage = mem::replace(&mut side.stage, Stage::Free).released();
        side.stage = stage;
    }

    /// The line's thread has ended: connections are closed as they come.
    pub fn close(&self) {
        if let Some(mut side) = hold(&self.side) {
            side.stage = Stage::Closed;
        }
    }

    /// Tells whether the line's link, which goes, was used.
    pub fn link_went(&self, was_used: bool) {
        self.was_unused.store(!was_used, SeqCst);
    }

    /// Whether the line's last link went before it was used. That is told once.
    pub fn take_unused(&self) -> bool {
        self.was_unused.swap(false, SeqCst)
    }
}
