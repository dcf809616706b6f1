//! What places of lines are to have once other subscriptions are in force, made ready before.

ghost use Rattle.std.specs.Net.Socket.{socket_port};
ghost use Rattle.std.specs.Prelude.{◌≡◌, ◌<◌, ◌++◌, ◌∷◌, [], IfErr, IfOk, List, OnOk};
ghost use Rattle.xp_file.specs.declared.entry.Access.TheVariants as subscribed;
ghost use Rattle.xp_listening.specs.Accesses.{AreSources, IsServedBy};
ghost use Rattle.xp_listening.specs.Failures.{IsWanting};
ghost use Rattle.xp_listening.specs.NextPlaces.{AreNextPlaces, IsNextPlace};
ghost use Rattle.xp_subs.specs.Sound.{IsSound};
ghost use Rattle.xp_subs.specs.Tables.{line_at, line_count};
ghost use Rattle.xp_tcp.specs.Accesses.{AtPort, Origin};
ghost use Rattle.xp_tcp.specs.NextPlaces.{NextPlace};
ghost use Rattle.xp_tcp.specs.declared.source.Source.{Source};

use crate::failure::ServeFailure;
use crate::listening::{address_of_door, admission_of, failure_of_door, router_of};
use crate::preparation::check_serving;
use std::alloc::Global;
use std::net::{IpAddr, Net, SocketAddr};
use std::sync::{Arc, Wait};
use xp_reload::keeps_line;
use xp_subs::{Access, LineNo, RouterAddress, Subs};
use xp_tcp::{Caller, LinePlaces, ListenFault, NextPorts};

/// Makes ready what the places of lines get once the next subscriptions are in force, which have as many lines as those in force now: the
/// ports that no place has are listened on, and the door's port, where no line was behind a router before. A port that a line gives up
/// and another one takes stays the same socket. The door's port does not become that of a line, nor the other way round.
///
/// From its return until [`NextPorts::put`], or until the result is dropped, the places that do not keep their lines are held: no octets
/// pass on their connections, and they get no other ones. So nothing that comes from the peer of an old line counts for a new one.
///
/// # Errors
///
/// What serving the next subscriptions would tell. Then nothing has changed.
pub fn prepare<R: Net + Wait>(
    rt: &R,
    alloc: Global,
    places: &Arc<LinePlaces>,
    in_force: &Subs,
    next: &Subs,
) -> Result<NextPorts, ServeFailure>
    requires { line_count next.now ≡ line_count in_force.now }
    ensures places { IfOk result (AreNextPlaces in_force.now next.now) }
    ensures wanting { IfErr result (IsWanting next.now) }
{
    let host = check_serving(next)?;
    let mut ports = NextPorts::new(rt, alloc, Arc::try_clone(places)?)?;
    for line in 0..next.counts().lines {
        add_place(rt, in_force, next, host, line as LineNo, &mut ports)?;
    }
    make_ready(rt, alloc, next, host, &mut ports)?;
    Ok(ports)
}

/// Opens the door's port, if a line is to be behind a router, and holds the places that do not keep their lines.
fn make_ready<R: Net + Wait>(
    rt: &R,
    alloc: Global,
    next: &Subs,
    host: IpAddr,
    ports: &mut NextPorts,
) -> Result<(), ServeFailure>
    ensures same { ports.new ≡ ports.old }
    ensures wanting { IfErr result (IsWanting next.now) }
{
    match ports.make_ready(rt, alloc, address_of_door(next, host)) {
        Ok(()) => Ok(()),
        Err(fault) => Err(failure_of_door(next, fault)),
    }
}

/// Adds what the next place is to have, that of this line.
fn add_place<R: Net + Wait>(
    rt: &R,
    in_force: &Subs,
    next: &Subs,
    host: IpAddr,
    line: LineNo,
    ports: &mut NextPorts,
) -> Result<(), ServeFailure>
    requires line { line < line_count next.now }
    requires before { line < line_count in_force.now }
    requires sound { IsSound next.now }
    ensures one { OnOk result ((place : NextPlace) × (ports.new ≡ ports.old ++ place ∷ []) × IsNextPlace in_force.now next.now line place) }
    ensures wanting { IfErr result (IsWanting next.now) }
{
    let is_kept = keeps_line(in_force, next, line);
    match next.access_of(line) {
        Access::Port(port) => {
            let at = SocketAddr::new(host, *port);
            add_port(rt, next, line, at, is_kept, ports)
        }
        Access::Router(router) => add_behind(next, line, router, is_kept, ports),
        Access::Spare => {
            ports.add_spare(is_kept)?;
            Ok(())
        }
    }
}

/// The next place is to have a port of its own, at this address.
fn add_port<R: Net + Wait>(
    rt: &R,
    next: &Subs,
    line: LineNo,
    at: SocketAddr,
    is_kept: bool,
    ports: &mut NextPorts,
) -> Result<(), ServeFailure>
    requires line { line < line_count next.now }
    requires port { 0 < socket_port at }
    ensures one { OnOk result ((from : List Source) × (ports.new ≡ ports.old ++ record { is_kept = is_kept; origin = AtPort (socket_port at) from } ∷ []) × AreSources (line_at next.now line).from from) }
    ensures wanting { IfErr result (IsWanting next.now) }
{
    let admission = admission_of(next, line)?;
    match ports.listen(rt, at, admission, is_kept) {
        Ok(()) => Ok(()),
        Err(ListenFault::Port) => Err(ServeFailure::port(next, line)),
        Err(ListenFault::Memory) => Err(ServeFailure::Memory),
    }
}

/// The next place is to be behind its line's router.
fn add_behind(
    next: &Subs,
    line: LineNo,
    router: &RouterAddress,
    is_kept: bool,
    ports: &mut NextPorts,
) -> Result<(), ServeFailure>
    requires line { line < line_count next.now }
    requires router { (line_at next.now line).access ≡ subscribed.Router router.now }
    ensures one { OnOk result ((origin : Origin) × (ports.new ≡ ports.old ++ record { is_kept = is_kept; origin = origin } ∷ []) × IsServedBy next.now (line_at next.now line) (subscribed.Router router.now) origin) }
    ensures wanting { IfErr result (IsWanting next.now) }
{
    let at = router_of(next, line, router)?;
    ports.add_router(at, Caller::of(next, line), is_kept)?;
    Ok(())
}
