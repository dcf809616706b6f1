//! Ports of lines that anybody may connect to.

ghost use Rattle.std.specs.Prelude.{◌≡◌, ◌<◌, IsTrue, ◌↔◌};
ghost use Rattle.xp_subs.specs.Tables.{line_count};
ghost use Rattle.xp_summary.specs.OpenPorts.{HasLoopbackAddress, IsLoopbackHost, IsOpen, has_open_port};

use std::net::IpAddr;
use xp_subs::{Access, Line, LineNo, Subs};

/// The one name of a host that is known.
const LOCALHOST: &str = "localhost";

/// Whether the line has a port to which a connection may come from any address, also from another machine.
pub fn is_open(subs: &Subs, line: LineNo) -> bool
    requires { line < line_count subs.now }
    ensures { IsTrue result ↔ IsOpen subs.now line }
{
    has_open_port(subs.line(line)) && !is_loopback_host(subs.host())
}

/// Whether the line has a port, and its connections may come from any address.
fn has_open_port(line: &Line) -> bool
    ensures { result ≡ has_open_port line.now }
{
    matches!(line.access, Access::Port(_)) && line.from.is_empty()
}

/// Whether the host is this machine alone.
pub fn is_loopback_host(host: &str) -> bool
    ensures { IsTrue result ↔ IsLoopbackHost host.now }
{
    host == LOCALHOST || has_loopback_address(host)
}

/// Whether this is the text of an address of this machine alone.
fn has_loopback_address(host: &str) -> bool
    ensures { IsTrue result ↔ HasLoopbackAddress host.now }
{
    match host.parse::<IpAddr>() {
        Ok(address) => address.is_loopback(),
        Err(_) => false,
    }
}
