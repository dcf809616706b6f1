//! Ports and routers that places get while their lines are served.

ghost use Rattle.std.specs.Net.Socket.{socket_port};
ghost use Rattle.std.specs.Prelude.{◌≡◌, ◌<◌, ◌++◌, ◌∷◌, [], IfOk, OnErr, OnOk};
ghost use Rattle.xp_tcp.specs.Accesses.{AtPort, Behind, Spare};

use crate::admission::Admission;
use crate::door_sockets::listen_for_routers;
use crate::line_place::LinePlace;
use crate::line_places::{LinePlaces, ServedPlaces};
use crate::line_sockets::listen_at;
use crate::next_line::{NextLine, NextSocket, NextSource};
use crate::sockets::ListenFault;
use crate::tokens::listener_of;
use mio::net::TcpListener;
use std::alloc::{AllocError, Global};
use std::marker::Model;
use std::net::{Net, SocketAddr};
use std::sync::{Arc, Wait};
use xp_door::{Caller, Doorway, RoutedLine, Routes};

/// What becomes of the port of the door.
#[derive(Drop)]
enum NextDoor {
    /// It stays as it is.
    Same,
    /// This socket listens there, for which the door's thread waits already.
    Opens(TcpListener),
    /// No socket listens there any more.
    Closes,
}

/// The ports, sources and routers that places are to have next, in line order. New ports listen already, so that nothing can fail as the
/// places get them. Where it is dropped, they are closed, and the places stay as they were. There is one at a time. Contracts see what
/// each place is to have.
pub struct NextPorts {
    places: Arc<LinePlaces>,
    /// The ports that places have now, in ascending order, and the numbers of these places.
    ports: Vec<(u16, usize)>,
    lines: Vec<NextLine>,
    routes: Option<Routes>,
    door: NextDoor,
    /// Whether the places are held that do not keep their lines.
    is_held: bool,
    /// Whether these have lost their ports and routers.
    is_cleared: bool,
}

impl Drop for NextPorts {
    fn drop(self) {
        let NextPorts {
            places: _,
            ports: _,
            lines,
            routes: _,
            door: _,
            is_held,
            is_cleared: _,
        } = self;
        for line in &lines {
            line.give_up(is_held);
        }
    }
}

impl Model for NextPorts {
    ghost use Rattle.std.specs.Prelude.{List};
    ghost use Rattle.xp_tcp.specs.NextPlaces.{NextPlace};

    ghost Value = { List NextPlace };

    ghost view = { λ ports. ports.lines.items };
}

impl NextPorts {
    /// The next ports of these places, of which none is told yet.
    ///
    /// # Errors
    ///
    /// `AllocError` if an allocation fails.
    pub fn new<R: Wait>(
        rt: &R,
        alloc: Global,
        places: Arc<LinePlaces>,
    ) -> Result<NextPorts, AllocError>
        ensures { IfOk result (λ ports. ports ≡ []) }
    {
        let ports = ports_of(rt, alloc, &places)?;
        Ok(NextPorts {
            places,
            ports,
            lines: Vec::new(alloc),
            routes: None,
            door: NextDoor::Same,
            is_held: false,
            is_cleared: false,
        })
    }

    /// The next place is to have the port of this address, for connections from these sources. A port that no place has is listened on from
    /// now on. One that a place has is that socket's.
    ///
    /// # Errors
    ///
    /// `Port` where the port can't be had, `Memory`, also where there is no such place. Nothing has changed then.
    pub fn listen<R: Net + Wait>(
        &mut self,
        rt: &R,
        at: SocketAddr,
        admission: Admission,
        is_kept: bool,
    ) -> Result<(), ListenFault>
        requires { 0 < socket_port at }
        ensures ok { OnOk result (self.new ≡ self.old ++ record { is_kept = is_kept; origin = AtPort (socket_port at) admission } ∷ []) }
        ensures err { OnErr result (self.new ≡ self.old) }
    {
        let place = self.next_place()?;
        self.lines.reserve(1)?;
        let socket = self.socket_for(rt, &place, at)?;
        self.lines.push_reserved(NextLine {
            place,
            is_kept,
            source: NextSource::Own(at.port(), admission, socket),
        });
        Ok(())
    }

    /// The next place is to be behind this router, whose calls are matched with this.
    ///
    /// # Errors
    ///
    /// `AllocError` if an allocation fails, or there is no such place. Nothing has changed then.
    pub fn add_router(
        &mut self,
        router: SocketAddr,
        caller: Caller,
        is_kept: bool,
    ) -> Result<(), AllocError>
        ensures ok { OnOk result (self.new ≡ self.old ++ record { is_kept = is_kept; origin = Behind router caller } ∷ []) }
        ensures err { OnErr result (self.new ≡ self.old) }
    {
        let place = self.next_place()?;
        self.push(NextLine {
            place,
            is_kept,
            source: NextSource::Router(router, caller),
        })
    }

    /// The next place is to be spare.
    ///
    /// # Errors
    ///
    /// `AllocError` if an allocation fails, or there is no such place. Nothing has changed then.
    pub fn add_spare(&mut self, is_kept: bool) -> Result<(), AllocError>
        ensures ok { OnOk result (self.new ≡ self.old ++ record { is_kept = is_kept; origin = Spare } ∷ []) }
        ensures err { OnErr result (self.new ≡ self.old) }
    {
        let place = self.next_place()?;
        self.push(NextLine {
            place,
            is_kept,
            source: NextSource::Spare,
        })
    }

    /// The place that is told next.
    fn next_place(&self) -> Result<Arc<LinePlace>, AllocError> {
        let served = self.places.served().ok_or(AllocError)?;
        let place = served.lines.get(self.lines.len()).ok_or(AllocError)?;
        Arc::try_clone(place)
    }

    fn push(&mut self, line: NextLine) -> Result<(), AllocError>
        ensures ok { OnOk result (self.new ≡ self.old ++ line ∷ []) }
        ensures err { OnErr result (self.new ≡ self.old) }
    {
        self.lines.reserve(1)?;
        self.lines.push_reserved(line);
        Ok(())
    }

    /// All places are told. The door is to listen at this address, where one is given, and else nowhere. From now on the places that do not
    /// keep their lines are held: no octets pass on their connections, and they get no other ones.
    ///
    /// # Errors
    ///
    /// `Port` where the door's port can't be had, `Memory`. Nothing is held then.
    pub fn make_ready<R: Net + Wait>(
        &mut self,
        rt: &R,
        alloc: Global,
        door: Option<SocketAddr>,
    ) -> Result<(), ListenFault>
        ensures { self.new ≡ self.old }
    {
        let Some(served) = self.places.served() else {
            return Err(ListenFault::Memory);
        };
        let routes = Routes::new(alloc, routed_of(alloc, &self.lines)?)?;
        let door = next_door(rt, served, door)?;
        for line in &self.lines {
            line.hold();
        }
        self.routes = Some(routes);
        self.door = door;
        self.is_held = true;
        Ok(())
    }

    /// Takes ports and routers from the places that do not keep their lines, and tells of each of these that has a connection that this is
    /// down. From now on nothing more is told of them, until they get what is next. It is for when the next subscriptions are in force,
    /// and notices are still told by the old names.
    pub fn close_old<R: Wait>(&mut self, rt: &R) {
        if self.is_cleared {
            return;
        }
        self.is_cleared = true;
        for line in self.lines.iter_mut() {
            line.take_socket(rt);
        }
        for line in &self.lines {
            line.clear(rt);
        }
    }

    /// Gives each place what is next. It does what `close_old` does, where that was not done. It allocates nothing. A line that keeps its
    /// port keeps its connection, also where its sources change: these count for connections that come from now on.
    pub fn put<R: Wait>(self, rt: &R) {
        let mut ports = self;
        ports.close_old(rt);
        ports.put_open(rt);
    }

    /// Gives each place what is next, where those have lost their ports and routers that do not keep their lines.
    fn put_open<R: Wait>(self, rt: &R) {
        let NextPorts {
            places,
            ports: _,
            lines,
            routes,
            door,
            is_held: _,
            is_cleared: _,
        } = self;
        let doorway = places.door();
        put_routes(rt, doorway, &lines, routes);
        put_door(rt, doorway, door);
        for line in lines {
            line.put(rt);
        }
    }

    /// The socket that listens at this address for this place.
    fn socket_for<R: Net + Wait>(
        &self,
        rt: &R,
        place: &LinePlace,
        at: SocketAddr,
    ) -> Result<NextSocket, ListenFault> {
        match self.holder_of(at.port()) {
            Some(holder) => {
                let holder = Arc::try_clone(holder)?;
                place.expect(rt, &holder)?;
                Ok(NextSocket::Of(holder))
            }
            None => {
                let name = listener_of(place.line);
                let (listener, _port) = listen_at(rt, &place.links.waits, at, name)?;
                Ok(NextSocket::Bound(listener))
            }
        }
    }

    /// The place that has this port now.
    fn holder_of(&self, port: u16) -> Option<&Arc<LinePlace>> {
        let index = self
            .ports
            .binary_search_by_key(&port, |entry| entry.0)
            .ok()?;
        let (_, number) = *self.ports.get(index)?;
        self.places.served()?.lines.get(number)
    }
}

/// The ports that places have, in ascending order, and the numbers of these places.
fn ports_of<R: Wait>(
    rt: &R,
    alloc: Global,
    places: &LinePlaces,
) -> Result<Vec<(u16, usize)>, AllocError> {
    let mut ports = Vec::new(alloc);
    if let Some(served) = places.served() {
        for (number, place) in served.lines.iter().enumerate() {
            if let Some(port) = place.own.port(rt) {
                ports.push((port, number))?;
            }
        }
    }
    ports.sort()?;
    Ok(ports)
}

/// The lines that are to be behind routers, in line order.
fn routed_of(alloc: Global, lines: &[NextLine]) -> Result<Vec<RoutedLine>, AllocError> {
    let mut routed = Vec::new(alloc);
    for line in lines {
        if let NextSource::Router(router, caller) = &line.source {
            routed.push(RoutedLine {
                line: Arc::try_clone(&line.place.behind)?,
                router: *router,
                caller: caller.copy(),
            })?;
        }
    }
    Ok(routed)
}

/// What becomes of the door's port, where the door is to listen at this address, if one is given.
fn next_door<R: Net + Wait>(
    rt: &R,
    served: &ServedPlaces,
    at: Option<SocketAddr>,
) -> Result<NextDoor, ListenFault> {
    match (&served.door, at) {
        (None, None) => Ok(NextDoor::Same),
        (None, Some(_)) => Err(ListenFault::Port),
        (Some(_), None) => Ok(NextDoor::Closes),
        (Some(door), Some(_)) if door.is_open(rt) => Ok(NextDoor::Same),
        (Some(door), Some(at)) => { Ok(NextDoor::Opens(listen_for_routers(rt, &door.waits, at)?)) }
    }
}

/// Puts lines behind their routers, and has the door give them connections by that, in one moment for the door.
fn put_routes<R: Wait>(
    rt: &R,
    door: Option<&Arc<Doorway>>,
    lines: &[NextLine],
    routes: Option<Routes>,
) {
    let (Some(door), Some(next)) = (door, routes) else {
        return;
    };
    let mut routes = door.routes(rt);
    for line in lines {
        line.set_router(rt);
    }
    *routes = next;
}

/// Opens or closes the door's port.
fn put_door<R: Wait>(rt: &R, door: Option<&Arc<Doorway>>, next: NextDoor) {
    let Some(door) = door else {
        return;
    };
    match next {
        NextDoor::Same => {}
        NextDoor::Opens(listener) => door.set_listener(rt, Some(listener)),
        NextDoor::Closes => door.set_listener(rt, None),
    }
}
