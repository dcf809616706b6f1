//! The addresses of hosts.

ghost use Rattle.std.specs.Prelude.{◌↔◌, IsTrue};
ghost use Rattle.xp_door.specs.Hosts.{IsSameHost};

use std::net::IpAddr;

/// Whether two addresses are those of one host: an IPv4-mapped IPv6 address, such as `::ffff:10.0.0.9`, counts as the IPv4 address
/// in it.
pub fn is_same_host(address: IpAddr, other: IpAddr) -> bool
    ensures { IsTrue result ↔ IsSameHost address other }
{
    address.to_canonical() == other.to_canonical()
}
