//! What serving needs of a subscription file, looked at without serving.

ghost use Rattle.std.specs.Prelude.{◌≡◌, ◌<◌, All, IfErr, IfOk, IfSome, OnOk};
ghost use Rattle.xp_listening.specs.Failures.{IsWanting};
ghost use Rattle.xp_listening.specs.Hosts.{IsHost};
ghost use Rattle.xp_listening.specs.Prepared.{HasAddresses};
ghost use Rattle.xp_subs.specs.Tables.{line_count};

use crate::failure::ServeFailure;
use crate::host::host_address;
use crate::listening::check_addresses;
use std::io;
use std::net::{IpAddr, Net, SocketAddr, TcpListener};
use thiserror::Error;
use xp_subs::{Access, LineNo, Subs};

/// A port on which serving would listen, and why it can't be listened on.
#[derive(Debug, Drop, Error)]
#[error("{at}: {error}")]
pub struct PortFault {
    /// What serving tells of it.
    pub failure: ServeFailure,
    pub at: SocketAddr,
    pub error: io::Error,
}

/// Looks at all that serving looks at before it listens. Returns the address of the machine at which it would listen.
///
/// # Errors
///
/// What serving tells: `Host`, and else `From` or `Router` with the lowest line that has a source that is none, or a router without an address.
/// `XotPort` where a line's own port is that for routers.
pub fn check_serving(subs: &Subs) -> Result<IpAddr, ServeFailure>
    ensures host { IfOk result (IsHost subs.now.host) }
    ensures addresses { OnOk result (All HasAddresses subs.now.lines) }
    ensures wanting { IfErr result (IsWanting subs.now) }
{
    let Some(host) = host_address(subs.host()) else {
        return Err(ServeFailure::Host);
    };
    check_addresses(subs)?;
    if subs.has_routers() && line_at_port(subs, subs.xot_port()).is_some() {
        return Err(ServeFailure::XotPort);
    }
    Ok(host)
}

/// The line with this port of its own. `None` where there is none.
pub fn line_at_port(subs: &Subs, port: u16) -> Option<LineNo>
    ensures { IfSome result (λ line. line < line_count subs.now) }
{
    for line in 0..subs.counts().lines {
        if own_port(subs, line as LineNo) == Some(port) {
            return Some(line as LineNo);
        }
    }
    None
}

/// The port of a line that has one of its own.
fn own_port(subs: &Subs, line: LineNo) -> Option<u16>
    requires { line < line_count subs.now }
{
    match subs.access_of(line) {
        Access::Port(port) => Some(*port),
        Access::Router(_) | Access::Spare => None,
    }
}

/// Listens for a moment on each port on which serving would listen at this address of the machine, one after the other.
///
/// # Errors
///
/// The first of them that can't be listened on.
pub fn try_ports<R: Net>(rt: &R, subs: &Subs, host: IpAddr) -> Result<(), PortFault>
    ensures { IfErr result (λ fault. IsWanting subs.now fault.failure) }
{
    for line in 0..subs.counts().lines {
        let line = line as LineNo;
        if let Some(port) = own_port(subs, line) {
            try_port(
                rt,
                SocketAddr::new(host, port),
                ServeFailure::port(subs, line),
            )?;
        }
    }
    if subs.has_routers() {
        let at = SocketAddr::new(host, subs.xot_port());
        try_port(rt, at, ServeFailure::XotPort)?;
    }
    Ok(())
}

/// Listens for a moment at an address, of which serving tells this where it can't.
fn try_port<R: Net>(rt: &R, at: SocketAddr, failure: ServeFailure) -> Result<(), PortFault>
    ensures { IfErr result (λ fault. fault.failure ≡ failure) }
{
    match TcpListener::bind(rt, at) {
        Ok(_listener) => Ok(()),
        Err(error) => Err(PortFault { failure, at, error }),
    }
}
