//! The address on whose ports the exchange listens.

ghost use Rattle.std.specs.Prelude.{IfNone, IfSome};
ghost use Rattle.xp_listening.specs.Hosts.{IsHost, IsNoHost};

use std::net::{IpAddr, Ipv4Addr};

/// The one name of a host that is known. It stands for 127.0.0.1.
const LOCALHOST: &str = "localhost";

/// The address that a host is: 127.0.0.1 for `localhost`, and else the IPv4 or IPv6 address that the text writes. No other
/// name is looked up. `None` where the host is no address.
pub fn host_address(host: &str) -> Option<IpAddr>
    ensures some { IfSome result (IsHost host.now) }
    ensures none { IfNone result (IsNoHost host.now) }
{
    if host == LOCALHOST {
        return Some(IpAddr::V4(Ipv4Addr::LOCALHOST));
    }
    match host.parse::<IpAddr>() {
        Ok(address) => Some(address),
        Err(_) => None,
    }
}
