//! What the threads of an exchange's lines are given of its sockets.

ghost use Rattle.std.specs.Prelude.{◌≡◌, IfOk, map};

use crate::clock::TcpClock;
use crate::door_sockets::DoorSockets;
use crate::line_bell::LineBell;
use crate::line_place::LinePlace;
use crate::line_places::{LinePlaces, ServedPlaces};
use crate::line_port::LinePort;
use crate::line_sockets::LineSockets;
use crate::poller::TcpPoller;
use crate::rooms::{Rooms, router_lines};
use crate::thread_sockets::ThreadSockets;
use std::alloc::{AllocError, Global};
use std::sync::Arc;
use xp_door::{Door, Doorway, LineWaker, RoutedLine, Routes};

/// What the thread of a line is given.
#[derive(Drop)]
pub struct LineEnds {
    pub port: LinePort,
    pub clock: TcpClock,
    pub bell: LineBell,
}

/// What the lines are given, in line order, what their threads are, each for the next lines, and the door, if it was opened.
#[derive(Drop)]
pub struct Ends {
    pub lines: Vec<LineEnds>,
    pub threads: Vec<TcpPoller>,
    pub door: Option<Door>,
}

/// What the ends of all lines share.
pub(crate) struct Shared {
    pub(crate) wakers: Arc<Vec<LineWaker>>,
    pub(crate) places: Arc<LinePlaces>,
}

impl Drop for Shared {
    fn drop(self) {
        let Shared {
            wakers: _,
            places: _,
        } = self;
    }
}

impl Shared {
    /// What these lines are given, in order, what their threads are, and their door.
    pub(crate) fn into_ends(
        self,
        alloc: Global,
        lines: Vec<LineSockets>,
        threads: Vec<ThreadSockets>,
        door: Option<DoorSockets>,
    ) -> Result<Ends, AllocError>
        ensures { IfOk result (λ ends. map (λ end. end.port) ends.lines.items ≡ lines.items) }
    {
        let mut rooms = Rooms::new(alloc, lines.len())?;
        let threads = pollers_of(alloc, threads, &self.wakers)?;
        let lines = ends_of(alloc, lines, &self, &door, &mut rooms)?;
        let Rooms { places, routed } = rooms;
        let door = match door {
            Some(door) => Some(self.open(alloc, door, places, routed)?),
            None => {
                self.serve(places, None);
                None
            }
        };
        Ok(Ends {
            lines,
            threads,
            door,
        })
    }

    /// What the thread of a line is given, where there is this door. Its place is put behind those so far.
    fn end_of(
        &self,
        alloc: Global,
        line: LineSockets,
        door: &Option<DoorSockets>,
        rooms: &mut Rooms,
    ) -> Result<LineEnds, AllocError>
        ensures { IfOk result (λ end. end.port ≡ line) }
    {
        let wakers = Arc::try_clone(&self.wakers)?;
        let bell = LineBell::new(wakers, usize::from(line.line));
        let clock = TcpClock::new(self.places.notices.start);
        let port = rooms.add(alloc, self, door, line)?;
        Ok(LineEnds { port, clock, bell })
    }

    /// The door of the lines in these places, of which these are behind routers.
    fn open(
        &self,
        alloc: Global,
        door: DoorSockets,
        places: Vec<Arc<LinePlace>>,
        routed: Vec<RoutedLine>,
    ) -> Result<Door, AllocError> {
        let wakers = Arc::try_clone(&self.wakers)?;
        let notices = Arc::try_clone(&self.places.notices)?;
        let lines = router_lines(alloc, &places)?;
        let routes = Routes::new(alloc, routed)?;
        let (waits, doorway) = door.into_doorway(routes);
        let doorway = Arc::new(alloc, doorway)?;
        let theirs = Arc::try_clone(&doorway)?;
        let door = Door::new(alloc, doorway, waits, lines, wakers, notices)?;
        self.serve(places, Some(theirs));
        Ok(door)
    }

    /// These places are served, with this door.
    fn serve(&self, lines: Vec<Arc<LinePlace>>, door: Option<Arc<Doorway>>) {
        self.places.serve(ServedPlaces { lines, door });
    }
}

/// What the threads of the lines are given, in line order, where there is this door. Their places are put behind those so far.
fn ends_of(
    alloc: Global,
    lines: Vec<LineSockets>,
    shared: &Shared,
    door: &Option<DoorSockets>,
    rooms: &mut Rooms,
) -> Result<Vec<LineEnds>, AllocError>
    ensures { IfOk result (λ ends. map (λ end. end.port) ends.items ≡ lines.items) }
{
    let mut ends = Vec::with_capacity(alloc, lines.len())?;
    for line in lines {
        ends.push(shared.end_of(alloc, line, door, rooms)?)?;
    }
    Ok(ends)
}

/// What the threads are, each for the next lines.
fn pollers_of(
    alloc: Global,
    threads: Vec<ThreadSockets>,
    wakers: &Arc<Vec<LineWaker>>,
) -> Result<Vec<TcpPoller>, AllocError> {
    let mut pollers = Vec::with_capacity(alloc, threads.len())?;
    let mut first: usize = 0;
    for thread in threads {
        let count = thread.count;
        pollers.push(thread.into_poller(Arc::try_clone(wakers)?, first))?;
        first = first.saturating_add(count);
    }
    Ok(pollers)
}
