//! The places of lines, as they are made.

ghost use Rattle.std.specs.Prelude.{◌≡◌, IfOk};

use crate::door_sockets::DoorSockets;
use crate::ends::Shared;
use crate::line_listener::LineListener;
use crate::line_place::LinePlace;
use crate::line_port::LinePort;
use crate::line_sockets::LineSockets;
use crate::period::Period;
use std::alloc::{AllocError, Global};
use std::net::SocketAddr;
use std::sync::Arc;
use xp_door::{Caller, DoorBell, LineShare, RoutedLine, RouterLine};
use xp_past::Past;

/// The places so far, in line order, and which of them are behind routers.
#[derive(Drop)]
pub(crate) struct Rooms {
    pub(crate) places: Vec<Arc<LinePlace>>,
    pub(crate) routed: Vec<RoutedLine>,
}

impl Rooms {
    /// None yet, with room for so many.
    pub(crate) fn new(alloc: Global, count: usize) -> Result<Rooms, AllocError> {
        Ok(Rooms {
            places: Vec::with_capacity(alloc, count)?,
            routed: Vec::new(alloc),
        })
    }

    /// Adds the place of the next line, where there is this door, and returns its port.
    pub(crate) fn add(
        &mut self,
        alloc: Global,
        shared: &Shared,
        door: &Option<DoorSockets>,
        line: LineSockets,
    ) -> Result<LinePort, AllocError>
        ensures { IfOk result (λ port. port ≡ line) }
    {
        let share = LineShare::new(line.line, &shared.wakers, &shared.places.notices)?;
        let bell = bell_of(door)?;
        let first = Past::new().and(&line);
        let LineSockets {
            line,
            source,
            links,
            thread,
        } = line;
        let (own, router) = source.into_parts();
        let behind = RouterLine::new(line, address_of(&router), bell);
        let place = LinePlace {
            line,
            thread,
            period: Period::new(),
            own: LineListener::new(own, share),
            behind: Arc::new(alloc, behind)?,
            links,
        };
        let place = Arc::new(alloc, place)?;
        self.push(Arc::try_clone(&place)?, router)?;
        Ok(LinePort::new(first, place))
    }

    /// Adds a place, which is behind this router, if it is behind one.
    fn push(
        &mut self,
        place: Arc<LinePlace>,
        router: Option<(SocketAddr, Caller)>,
    ) -> Result<(), AllocError> {
        if let Some((router, caller)) = router {
            let line = Arc::try_clone(&place.behind)?;
            self.routed.push(RoutedLine {
                line,
                router,
                caller,
            })?;
        }
        self.places.push(place)?;
        Ok(())
    }
}

/// What each of these places shares with the door, in line order.
pub(crate) fn router_lines(
    alloc: Global,
    places: &[Arc<LinePlace>],
) -> Result<Vec<Arc<RouterLine>>, AllocError> {
    let mut lines = Vec::with_capacity(alloc, places.len())?;
    for place in places {
        lines.push(Arc::try_clone(&place.behind)?)?;
    }
    Ok(lines)
}

/// The bell of a door, if it was opened.
fn bell_of(door: &Option<DoorSockets>) -> Result<Option<Arc<DoorBell>>, AllocError> {
    match door {
        Some(door) => Ok(Some(Arc::try_clone(&door.bell)?)),
        None => Ok(None),
    }
}

/// Where a router takes connections.
fn address_of(router: &Option<(SocketAddr, Caller)>) -> Option<SocketAddr> {
    match router {
        Some((router, _)) => Some(*router),
        None => None,
    }
}
