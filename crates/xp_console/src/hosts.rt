//! The names of the console itself.

ghost use Rattle.std.specs.Prelude.{◌≡◌, ◌==◌, ◌↔◌, IsTrue};
ghost use Rattle.std.specs.List.{before_first, position};
ghost use Rattle.xp_console.specs.Hosts.{HasOwnAddress, IsOwnAddress, NamesConsole, name_in as host_named};

use std::net::IpAddr;

/// Whether the value of a `Host` field names this machine, or the console's own address, with or without a port.
pub(crate) fn names_console(own: IpAddr, host: &[u8]) -> bool
    ensures { IsTrue result ↔ NamesConsole own host.now }
{
    let name = name_in(host);
    name.eq_ignore_ascii_case(b"localhost") || has_own_address(own, name)
}

/// The name or the address of the host, without its port and without brackets.
fn name_in(host: &[u8]) -> &[u8]
    ensures { result.now ≡ host_named host.now }
{
    match host {
        [b'[', rest @ ..] => before(rest, b']'),
        _ => before(host, b':'),
    }
}

/// What stands before the first such octet, or all where there is none.
fn before(text: &[u8], octet: u8) -> &[u8]
    ensures { result.now ≡ before_first (λ x. x == octet) text.now }
{
    match place_of(text, octet) {
        Some(end) => &text[..end],
        None => text,
    }
}

/// The place of the first such octet.
fn place_of(text: &[u8], octet: u8) -> Option<usize>
    ensures { result ≡ position (λ x. x == octet) text.now }
{
    text.iter().position(|x| *x == octet)
}

/// Whether this is the text of an address of this machine alone, or of the console's own.
fn has_own_address(own: IpAddr, text: &[u8]) -> bool
    ensures { IsTrue result ↔ HasOwnAddress own text.now }
{
    match IpAddr::parse_ascii(text) {
        Ok(address) => is_own_address(own, address),
        Err(_) => false,
    }
}

/// Whether this is an address of this machine alone, or the console's own.
fn is_own_address(own: IpAddr, address: IpAddr) -> bool
    ensures { IsTrue result ↔ IsOwnAddress own address }
{
    address.is_loopback() || address == own
}
