//! Listening on the ports of lines, and for their routers.

ghost use Rattle.std.specs.Net.Grammar.{IsIpText};
ghost use Rattle.std.specs.Net.Socket.{socket_ip, socket_port};
ghost use Rattle.std.specs.Prelude.{◌≡◌, ◌<◌, ◌++◌, ◌∷◌, [], All, IfErr, IfNone, IfOk, IfSome, List, OnOk, true};
ghost use Rattle.xp_listening.specs.Failures.{IsWanting};
ghost use Rattle.xp_listening.specs.Accesses.{AreSources, AreServedAt, IsServedAt, IsServedBy};
ghost use Rattle.xp_listening.specs.Prepared.{HasAddresses};
ghost use Rattle.xp_subs.specs.Sound.{IsSound};
ghost use Rattle.xp_file.specs.declared.entry.Access.TheVariants as subscribed;
ghost use Rattle.xp_subs.specs.Tables.{line_at, line_count};
ghost use Rattle.xp_tcp.specs.Accesses.{AtPort, Origin};
ghost use Rattle.xp_tcp.specs.declared.source.Source.{Source};

use crate::failure::ServeFailure;
use std::alloc::Global;
use std::net::{IpAddr, Net, SocketAddr};
use std::num::NonZeroUsize;
use std::sync::Arc;
use xp_subs::{Access, LineNo, RouterAddress, Subs};
use xp_tcp::{Admission, AdmissionFault, Caller, LinePlaces, ListenFault, Sockets};

/// Listens on the port of each line, in order, at an address of the machine, and for the routers of the lines that are behind one.
/// So many threads are to serve the lines in their places, whose notices are told what an operator has to see. The door is made in any
/// case: a line behind a router may come later.
///
/// # Errors
///
/// Before any port is listened on: `From` with the first line that has a source which is neither an IP address nor a network, or `Router` with the first
/// whose router has none. `Port` with the first line whose port can't be had, `XotPort` where the port for routers can't,
/// `Memory`.
pub fn listen_all<R: Net>(
    rt: &R,
    alloc: Global,
    subs: &Subs,
    host: IpAddr,
    threads: NonZeroUsize,
    places: Arc<LinePlaces>,
) -> Result<Sockets, ServeFailure>
    ensures accesses { IfOk result (AreServedAt subs.now) }
    ensures wanting { IfErr result (IsWanting subs.now) }
{
    let lines = subs.counts().lines;
    check_addresses(subs)?;
    let mut sockets = Sockets::new(alloc, lines, threads, places)?;
    for line in 0..lines {
        listen(rt, subs, host, line as LineNo, &mut sockets)?;
    }
    open_door(rt, alloc, subs, host, &mut sockets)?;
    Ok(sockets)
}

/// Makes the door, and listens for the routers of lines, if a line is behind one.
fn open_door<R: Net>(
    rt: &R,
    alloc: Global,
    subs: &Subs,
    host: IpAddr,
    sockets: &mut Sockets,
) -> Result<(), ServeFailure>
    ensures same { sockets.new ≡ sockets.old }
    ensures wanting { IfErr result (IsWanting subs.now) }
{
    match sockets.open_door(rt, alloc, address_of_door(subs, host)) {
        Ok(()) => Ok(()),
        Err(fault) => Err(failure_of_door(subs, fault)),
    }
}

/// Where the routers of lines connect to, if a line is behind one.
pub(crate) fn address_of_door(subs: &Subs, host: IpAddr) -> Option<SocketAddr> {
    if subs.has_routers() {
        Some(SocketAddr::new(host, subs.xot_port()))
    } else {
        None
    }
}

/// What is told where the door can't be made. Where no line is behind a router, no port was asked for: descriptors are wanting, or memory.
pub(crate) fn failure_of_door(subs: &Subs, fault: ListenFault) -> ServeFailure
    ensures { IsWanting subs.now result }
{
    match fault {
        ListenFault::Port if subs.has_routers() => ServeFailure::XotPort,
        ListenFault::Port | ListenFault::Memory => ServeFailure::Memory,
    }
}

/// Whether each source of each line is an IP address or a network, and its router, if it has one, an IP address.
pub(crate) fn check_addresses(subs: &Subs) -> Result<(), ServeFailure>
    ensures addresses { OnOk result (All HasAddresses subs.now.lines) }
    ensures wanting { IfErr result (IsWanting subs.now) }
{
    for line in 0..subs.counts().lines {
        check_line(subs, line as LineNo)?;
    }
    Ok(())
}

/// Whether each source of a line is an IP address or a network, and its router, if it has one, an IP address.
fn check_line(subs: &Subs, line: LineNo) -> Result<(), ServeFailure>
    requires { line < line_count subs.now }
    ensures addresses { OnOk result (HasAddresses (line_at subs.now line)) }
    ensures wanting { IfErr result (IsWanting subs.now) }
{
    admission_of(subs, line)?;
    if let Access::Router(router) = subs.access_of(line) {
        router_of(subs, line, router)?;
    }
    Ok(())
}

/// Where a router takes connections.
///
/// # Errors
///
/// `Router` where its text is no IP address.
pub(crate) fn router_of(
    subs: &Subs,
    line: LineNo,
    router: &RouterAddress,
) -> Result<SocketAddr, ServeFailure>
    requires line { line < line_count subs.now }
    requires router { (line_at subs.now line).access ≡ subscribed.Router router.now }
    ensures at { IfOk result (λ at. IsIpText router.now.address (socket_ip at) × (socket_port at ≡ router.now.port)) }
    ensures wanting { IfErr result (IsWanting subs.now) }
{
    match router.address().parse::<IpAddr>() {
        Ok(address) => Ok(SocketAddr::new(address, router.port())),
        Err(_) => Err(ServeFailure::Router(subs.line(line).name.copy())),
    }
}

/// From where the connections of a line may come.
///
/// # Errors
///
/// `From` where one of its sources is neither an IP address nor a network.
pub(crate) fn admission_of(subs: &Subs, line: LineNo) -> Result<Admission, ServeFailure>
    requires { line < line_count subs.now }
    ensures admitted { IfOk result (AreSources (line_at subs.now line).from) }
    ensures wanting { IfErr result (IsWanting subs.now) }
{
    let sources = subs.sources_of(line);
    let mut admission = Admission::any();
    for place in 0..sources.len() {
        let Some(text) = sources.get(place) else {
            unreachable!()
        };
        match admission.add(text) {
            Ok(()) => {}
            Err(AdmissionFault::NoSource) => {
                return Err(ServeFailure::From(subs.line(line).name.copy()));
            }
            // A line has 8 sources at most.
            Err(AdmissionFault::Full) => unreachable!(),
        }
    }
    Ok(admission)
}

/// Listens on the port of a line, the next one, or adds it as one behind its router, or as a spare place.
fn listen<R: Net>(
    rt: &R,
    subs: &Subs,
    host: IpAddr,
    line: LineNo,
    sockets: &mut Sockets,
) -> Result<(), ServeFailure>
    requires line { line < line_count subs.now }
    requires sound { IsSound subs.now }
    ensures one { OnOk result ((origin : Origin) × (sockets.new ≡ sockets.old ++ origin ∷ []) × IsServedAt subs.now (line_at subs.now line) origin) }
    ensures wanting { IfErr result (IsWanting subs.now) }
{
    match subs.access_of(line) {
        Access::Port(port) => listen_on(rt, subs, host, line, *port, sockets),
        Access::Router(router) => add_behind(rt, subs, line, router, sockets),
        // No port is asked for: descriptors are wanting, or memory.
        Access::Spare => match sockets.add_spare(rt) {
            Ok(()) => Ok(()),
            Err(_) => Err(ServeFailure::Memory),
        },
    }
}

/// Listens on the port of a line, the next one.
fn listen_on<R: Net>(
    rt: &R,
    subs: &Subs,
    host: IpAddr,
    line: LineNo,
    port: u16,
    sockets: &mut Sockets,
) -> Result<(), ServeFailure>
    requires line { line < line_count subs.now }
    requires port { 0 < port }
    ensures one { OnOk result ((from : List Source) × (sockets.new ≡ sockets.old ++ AtPort port from ∷ []) × AreSources (line_at subs.now line).from from) }
    ensures wanting { IfErr result (IsWanting subs.now) }
{
    let admission = admission_of(subs, line)?;
    match sockets.listen(rt, host, port, admission) {
        Ok(()) => Ok(()),
        Err(ListenFault::Port) => Err(ServeFailure::port(subs, line)),
        Err(ListenFault::Memory) => Err(ServeFailure::Memory),
    }
}

/// Adds a line behind its router, the next one.
fn add_behind<R: Net>(
    rt: &R,
    subs: &Subs,
    line: LineNo,
    router: &RouterAddress,
    sockets: &mut Sockets,
) -> Result<(), ServeFailure>
    requires line { line < line_count subs.now }
    requires router { (line_at subs.now line).access ≡ subscribed.Router router.now }
    ensures one { OnOk result ((origin : Origin) × (sockets.new ≡ sockets.old ++ origin ∷ []) × IsServedBy subs.now (line_at subs.now line) (subscribed.Router router.now) origin) }
    ensures wanting { IfErr result (IsWanting subs.now) }
{
    let at = router_of(subs, line, router)?;
    match sockets.add_router(rt, at, Caller::of(subs, line)) {
        Ok(()) => Ok(()),
        Err(ListenFault::Port) => Err(ServeFailure::port(subs, line)),
        Err(ListenFault::Memory) => Err(ServeFailure::Memory),
    }
}
