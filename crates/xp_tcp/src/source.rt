//! Hosts and networks from which a line's connections may come.

ghost use Rattle.std.specs.Char.{is_ascii_digit};
ghost use Rattle.std.specs.List.{after_first, before_first, list_all};
ghost use Rattle.std.specs.Prelude.{◌≡◌, ◌↔◌, ◌-◌, ◌/◌, ◌^◌, ℕ, IfNone, IfSome, IsTrue};
ghost use Rattle.std.specs.declared.net.ip_addr.IpAddr.{IpAddr as AnyAddress};
ghost use Rattle.xp_tcp.specs.Networks.{BeginAlike, Includes, IsNetworkText, IsNoSourceText, IsSourceText, are_digits, is_slash, number_up_to, width};

use std::net::IpAddr;
use xp_door::is_same_host;

/// From where connections may come.
#[derive(Clone, Copy)]
pub enum Source {
    /// The host of this address.
    Host(IpAddr),
    /// The addresses whose first bits are those of this one, and how many bits these are: 0 to 32 of an IPv4 address, 0 to 128 of
    /// an IPv6 address. The bits behind them mean nothing.
    Network(IpAddr, u8),
}

impl Source {
    /// The source that a text writes: an address, such as `10.0.0.9` or `2001:db8::9`, or a network, such as `10.0.0.0/8` or
    /// `2001:db8::/32`. Names of hosts are not looked up. `None` where it writes none.
    pub fn of(text: &str) -> Option<Source>
        ensures some { IfSome result (IsSourceText text.now) }
        ensures none { IfNone result (IsNoSourceText text.now) }
    {
        match text.parse::<IpAddr>() {
            Ok(address) => Some(Source::Host(address)),
            Err(_) => {
                let (address, count) = network_of(text)?;
                Some(Source::Network(address, count))
            }
        }
    }

    /// Whether a peer's connections come from it. An IPv4-mapped IPv6 address of a peer, such as `::ffff:10.0.0.9`, counts as the
    /// IPv4 address in it.
    pub fn includes(self, peer: IpAddr) -> bool
        ensures { IsTrue result ↔ Includes self peer }
    {
        match self {
            Source::Host(address) => is_same_host(address, peer),
            Source::Network(address, count) => begin_alike(count, address, peer.to_canonical()),
        }
    }
}

/// The network that a text writes: its address, and how many bits of it count.
fn network_of(text: &str) -> Option<(IpAddr, u8)>
    ensures some { IfSome result (λ network. IsNetworkText text.now network.0 network.1) }
    ensures none { IfNone result ((address : AnyAddress) (count : ℕ) → IsNetworkText text.now address count → ⊥) }
{
    let (front, digits) = cut_at_slash(text);
    let Ok(address) = front.parse::<IpAddr>() else {
        return None;
    };
    let Some(count) = number_up_to(width(address), digits) else {
        return None;
    };
    Some((address, count))
}

/// The texts before and behind the first slash. Where there is none, all of the text and nothing.
fn cut_at_slash(text: &str) -> (&str, &str)
    ensures front { result.0.now ≡ before_first is_slash text.now }
    ensures rest { result.1.now ≡ after_first is_slash text.now }
{
    match text.split_once('/') {
        Some((front, rest)) => (front, rest),
        None => (text, ""),
    }
}

/// How many bits an address has.
fn width(address: IpAddr) -> u8
    ensures { result ≡ width address }
{
    match address {
        IpAddr::V4(_) => 32,
        IpAddr::V6(_) => 128,
    }
}

/// The number of at most so much that a text of digits writes.
fn number_up_to(most: u8, text: &str) -> Option<u8>
    ensures { result ≡ number_up_to most text.now }
{
    if !are_digits(text) {
        return None;
    }
    match text.parse::<u8>() {
        Ok(number) => (number <= most).then_some(number),
        Err(_) => None,
    }
}

/// Whether a text is one digit or more.
fn are_digits(text: &str) -> bool
    ensures { result ≡ are_digits text.now }
{
    !text.is_empty() && are_all_digits(text.as_bytes())
}

fn are_all_digits(octets: &[u8]) -> bool
    ensures { result ≡ list_all is_ascii_digit octets.now }
{
    octets.iter().all(|octet| octet.is_ascii_digit())
}

/// Whether so many of the first bits of two addresses of one kind are equal.
fn begin_alike(count: u8, address: IpAddr, other: IpAddr) -> bool
    ensures { IsTrue result ↔ BeginAlike count address other }
{
    match (address, other) {
        (IpAddr::V4(address), IpAddr::V4(other)) => {
            front_of_v4(address.to_bits(), count) == front_of_v4(other.to_bits(), count)
        }
        (IpAddr::V6(address), IpAddr::V6(other)) => {
            front_of_v6(address.to_bits(), count) == front_of_v6(other.to_bits(), count)
        }
        (IpAddr::V4(_), IpAddr::V6(_)) | (IpAddr::V6(_), IpAddr::V4(_)) => false,
    }
}

/// So many of the first bits of an IPv4 address.
fn front_of_v4(bits: u32, count: u8) -> u64
    ensures { result ≡ bits / 2 ^ (32 - count) }
{
    u64::from(bits) >> 32_u8.saturating_sub(count)
}

/// So many of the first bits of an IPv6 address.
fn front_of_v6(bits: u128, count: u8) -> u128
    ensures { result ≡ bits / 2 ^ (128 - count) }
{
    match 128_u8.saturating_sub(count) {
        128 => 0,
        behind => bits >> behind,
    }
}
