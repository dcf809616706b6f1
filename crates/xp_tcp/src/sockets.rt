//! The sockets of an exchange's lines.

ghost use Rattle.std.specs.Prelude.{◌≡◌, ◌<◌, ◌∷◌, ◌++◌, [], IfOk, IfSome, OnErr, OnOk, map, option_map, slice_get};
ghost use Rattle.std.specs.Net.Socket.{socket_port};
ghost use Rattle.xp_tcp.specs.Accesses.{Behind, Listens, Spare, access_of, port_of};
ghost use Rattle.xp_tcp.specs.steps.Sources.{source_origin};
ghost use Rattle.xp_tcp.specs.declared.sockets.ListenFault.TheVariants.{Memory as OutOfMemory, Port as NoPort};

use crate::access::Access;
use crate::admission::Admission;
use crate::door_sockets::{DoorSockets, listen_for_routers};
use crate::ends::{Ends, Shared};
use crate::line_places::LinePlaces;
use crate::line_sockets::{LineSockets, LineSource, listen_at, open_port};
use crate::thread_sockets::ThreadSockets;
use std::alloc::{AllocError, AllocFailed, Global};
use std::io;
use std::marker::Model;
use std::net::{IpAddr, Net, SocketAddr};
use std::num::NonZeroUsize;
use std::sync::Arc;
use thiserror::Error;
use xp_door::{Caller, LineWaker};
use xp_subs::LineNo;

/// Why a port is not listened on, or a line has no sockets.
#[derive(Clone, Copy, Debug, Error)]
pub enum ListenFault {
    /// The port can't be had.
    #[error("the port can't be listened on")]
    Port,
    #[error("out of memory")]
    Memory,
}

impl From<AllocError> for ListenFault {
    ghost from_gives = { λ _ fault. fault ≡ OutOfMemory };

    fn from(_refused: AllocError) -> ListenFault {
        ListenFault::Memory
    }
}

impl<T: Drop> From<AllocFailed<T>> for ListenFault {
    ghost from_gives = { λ _ fault. fault ≡ OutOfMemory };

    fn from(_refused: AllocFailed<T>) -> ListenFault {
        ListenFault::Memory
    }
}

impl From<io::Error> for ListenFault {
    ghost from_gives = { λ _ fault. fault ≡ NoPort };

    fn from(_error: io::Error) -> ListenFault {
        ListenFault::Port
    }
}

/// The sockets of the lines, in line order, and the door of those that are behind routers. Contracts see where the connections of
/// each line come from.
pub struct Sockets {
    lines: Vec<LineSockets>,
    wakers: Vec<LineWaker>,
    /// What the threads of the lines wait on. Each serves so many lines at most, the last one those that were added last.
    threads: Vec<ThreadSockets>,
    lines_of_thread: usize,
    door: Option<DoorSockets>,
    places: Arc<LinePlaces>,
}

impl Drop for Sockets {
    fn drop(self) {
        let Sockets {
            lines: _,
            wakers: _,
            threads: _,
            lines_of_thread: _,
            door: _,
            places: _,
        } = self;
    }
}

impl Model for Sockets {
    ghost use Rattle.std.specs.Prelude.{List};
    ghost use Rattle.xp_tcp.specs.Accesses.{Origin};

    ghost Value = { List Origin };

    ghost view = { λ sockets. sockets.lines.items };
}

impl Sockets {
    /// No sockets yet, with room for so many lines, which so many threads are to serve in these places. What becomes of their
    /// connections is told to the notices of the places.
    pub fn new(
        alloc: Global,
        count: usize,
        threads: NonZeroUsize,
        places: Arc<LinePlaces>,
    ) -> Result<Sockets, AllocError>
        ensures { IfOk result (λ sockets. sockets ≡ []) }
    {
        Ok(Sockets {
            lines: Vec::with_capacity(alloc, count)?,
            wakers: Vec::with_capacity(alloc, count)?,
            threads: Vec::new(alloc),
            lines_of_thread: count.div_ceil(threads.get()).max(1),
            door: None,
            places,
        })
    }

    /// Listens on a port for the next line, at an address of the machine. At port 0 the system picks one. A connection from an
    /// address that is not admitted is closed as it comes.
    ///
    /// # Errors
    ///
    /// `Port` where the port can't be had, or where there are 65,536 lines already, `Memory`. No line is added then.
    pub fn listen<R: Net>(
        &mut self,
        rt: &R,
        host: IpAddr,
        port: u16,
        admission: Admission,
    ) -> Result<(), ListenFault>
        ensures ok { OnOk result (Listens self.old port admission self.new) }
        ensures err { OnErr result (self.new ≡ self.old) }
    {
        let number = self.reserve(rt)?;
        let Some(thread) = self.threads.last() else {
            return Err(ListenFault::Memory);
        };
        let address = SocketAddr::new(host, port);
        let source = open_port(rt, &thread.links.waits, address, number, admission)?;
        self.push(number, source)
    }

    /// Adds the next line, which is behind the router of this address and port, whose calls are matched with this.
    ///
    /// # Errors
    ///
    /// `Port` where the system has no descriptors left, or where there are 65,536 lines already, `Memory`. No line is added then.
    pub fn add_router<R: Net>(
        &mut self,
        rt: &R,
        router: SocketAddr,
        caller: Caller,
    ) -> Result<(), ListenFault>
        ensures ok { OnOk result (self.new ≡ self.old ++ Behind router caller ∷ []) }
        ensures err { OnErr result (self.new ≡ self.old) }
    {
        let number = self.reserve(rt)?;
        self.push(number, LineSource::Router(router, caller))
    }

    /// Adds a place for a line that may come later.
    ///
    /// # Errors
    ///
    /// `Port` where the system has no descriptors left, or where there are 65,536 lines already, `Memory`. No place is added then.
    pub fn add_spare<R: Net>(&mut self, rt: &R) -> Result<(), ListenFault>
        ensures ok { OnOk result (self.new ≡ self.old ++ Spare ∷ []) }
        ensures err { OnErr result (self.new ≡ self.old) }
    {
        let number = self.reserve(rt)?;
        self.push(number, LineSource::Spare)
    }

    /// Makes the door for all routers, and where an address is given, listens there. At port 0 the system picks one. Lines behind routers
    /// need it, whether they are added before or after it, or come later: what listens here also makes the connections to routers.
    ///
    /// # Errors
    ///
    /// `Port` where the port can't be had, `Memory`. Nothing has changed then.
    pub fn open_door<R: Net>(
        &mut self,
        rt: &R,
        alloc: Global,
        at: Option<SocketAddr>,
    ) -> Result<(), ListenFault>
        ensures { self.new ≡ self.old }
    {
        let mut door = DoorSockets::new(rt, alloc)?;
        if let Some(at) = at {
            door.listener = Some(listen_for_routers(rt, &door.waits, at)?);
        }
        self.door = Some(door);
        Ok(())
    }

    /// Where the connections of a line come from. `None` where there is no such line.
    pub fn access(&self, line: LineNo) -> Option<Access>
        ensures { result ≡ option_map access_of (slice_get self.now line) }
    {
        match self.lines.get(line as usize) {
            Some(line) => Some(line.access()),
            None => None,
        }
    }

    /// The port on which a line's socket listens. `None` where there is no such line, or it is behind a router.
    pub fn port(&self, line: LineNo) -> Option<u16>
        ensures { result ≡ port_of (slice_get self.now line) }
    {
        match self.access(line) {
            Some(Access::Port(port)) => Some(port),
            Some(Access::Router(_) | Access::Spare) | None => None,
        }
    }

    /// What the threads of the lines are given, in line order: each has the access of its line. All clocks count from when the run
    /// began.
    pub fn into_ends(self, alloc: Global) -> Result<Ends, AllocError>
        ensures { IfOk result (λ ends. map (λ end. end.port) ends.lines.items ≡ self) }
    {
        let Sockets {
            lines,
            wakers,
            threads,
            lines_of_thread: _,
            door,
            places,
        } = self;
        let wakers = Arc::new(alloc, wakers)?;
        let shared = Shared { wakers, places };
        shared.into_ends(alloc, lines, threads, door)
    }

    /// The number of the next line, and a thread that has room for it.
    fn reserve<R: Net>(&mut self, rt: &R) -> Result<LineNo, ListenFault>
        ensures { self.new ≡ self.old }
    {
        let Ok(number) = LineNo::try_from(self.lines.len()) else {
            return Err(ListenFault::Port);
        };
        let most = self.lines_of_thread;
        let has_room = match self.threads.last() {
            Some(thread) => thread.count < most,
            None => false,
        };
        if !has_room {
            let alloc = *self.lines.allocator();
            self.threads.reserve(1)?;
            let thread = ThreadSockets::open(rt, alloc, most)?;
            self.threads.push_reserved(thread);
        }
        Ok(number)
    }

    /// Adds a line to the last thread.
    fn push(&mut self, line: LineNo, source: LineSource) -> Result<(), ListenFault>
        ensures ok { OnOk result (self.new ≡ self.old ++ source_origin source ∷ []) }
        ensures err { OnErr result (self.new ≡ self.old) }
    {
        self.lines.reserve(1)?;
        self.wakers.reserve(1)?;
        let number = self.threads.len();
        let Some(thread) = self.threads.last_mut() else {
            return Err(ListenFault::Memory);
        };
        let waker = LineWaker::new(Arc::try_clone(&thread.waker)?, thread.count);
        let links = Arc::try_clone(&thread.links)?;
        thread.count = thread.count.saturating_add(1);
        self.wakers.push_reserved(waker);
        self.lines.push_reserved(LineSockets {
            line,
            source,
            links,
            thread: number,
        });
        Ok(())
    }
}
