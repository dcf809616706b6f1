//! The XOT router of a line, and how the subscription file spells it.
ghost use Rattle.std.specs.Prelude.{◌≡◌, option_map, if◌then◌else◌};
ghost use Rattle.xp_file.specs.Routers.{RouterData, has_port_digits, port_spelled, behind, parted, port_behind, router_at, in_brackets, without_brackets, router_spelled, colon, opening_bracket, closing_bracket};
ghost use Rattle.xp_file.specs.Sources.{is_ip_address};

use crate::letters::Letters;
use crate::sources::{MOST_CHARACTERS, is_ip_address};
use arrayvec::ArrayString;
use std::marker::Model;

/// The TCP port that is registered for XOT (RFC 1613). It stands for one that the file does not write.
pub(crate) const REGISTERED_PORT: u16 = 1998;

/// The most digits of a port.
const MOST_PORT_DIGITS: usize = 5;

/// The XOT router through which a line's calls come and go (RFC 1613).
#[derive(Drop, PartialEq)]
pub struct RouterAddress {
    address: AddressText,
    port: u16,
}

impl Model for RouterAddress {
    ghost use Rattle.xp_file.specs.Routers.{RouterData};

    ghost Value = { RouterData };

    ghost view = { λ router. record { address = router.address; port = router.port } };

    ghost inverse = { λ router. record { address = router.address; port = router.port } };
}

impl RouterAddress {
    /// The router that a text spells: `ADDRESS`, `ADDRESS:PORT`, `[ADDRESS]` or `[ADDRESS]:PORT`. An address is 2 to 45
    /// hexadecimal digits, colons and full stops. Without brackets, a text with two colons or more is an address. A port is
    /// 1 to 65,535, and 1998 where none is written. Returns `None` for any other text.
    pub(crate) fn spelled(text: &str) -> Option<RouterAddress>
        ensures { result ≡ router_spelled text.now }
    {
        match behind_bracket(text) {
            Some(rest) => in_brackets(rest),
            None => without_brackets(text),
        }
    }

    fn new(address: &str, port: u16) -> Option<RouterAddress>
        ensures { result ≡ router_at address.now port }
    {
        let address = AddressText::new(address)?;
        Some(RouterAddress { address, port })
    }

    /// The router's address as text: 2 to 45 characters of the form of an IPv4 or IPv6 address.
    pub fn address(&self) -> &str
        ensures { result.now ≡ self.now.address }
    {
        self.address.text.as_str()
    }

    /// The router's TCP port, 1 to 65,535.
    pub fn port(&self) -> u16
        ensures { result ≡ self.now.port }
    {
        self.port
    }

    /// An equal copy.
    pub fn copy(&self) -> RouterAddress
        ensures { result ≡ self.now }
    {
        RouterAddress {
            address: self.address.copy(),
            port: self.port,
        }
    }
}

/// The text of an address that has the form of one.
#[derive(Drop)]
struct AddressText {
    text: ArrayString<MOST_CHARACTERS>,
}

impl Model for AddressText {
    ghost use Rattle.std.specs.Prelude.{List, ℕ};

    ghost Value = { List ℕ };

    ghost view = { λ address. address.text.bytes };
}

impl AddressText {
    fn new(text: &str) -> Option<AddressText>
        ensures { result ≡ (if is_ip_address text.now then Some text.now else None) }
    {
        if !is_ip_address(text) {
            return None;
        }
        let text = ArrayString::from(text).ok()?;
        Some(AddressText { text })
    }

    fn copy(&self) -> AddressText
        ensures { result ≡ self.now }
    {
        AddressText { text: self.text }
    }
}

impl PartialEq for AddressText {
    ghost use Rattle.std.specs.Prelude.{nat_eq};
    ghost use Rattle.std.specs.Cmp.{partial_equiv_from_equiv};
    ghost use Rattle.std.specs.Cmp.Lexicographic.{pointwise, nat_list_eq_equiv};

    ghost eq = { λ a b. pointwise nat_eq a b };

    ghost laws = { partial_equiv_from_equiv nat_list_eq_equiv };

    fn eq(&self, other: &AddressText) -> bool {
        self.text == other.text
    }
}

/// What stands behind an opening bracket: `ADDRESS]` or `ADDRESS]:PORT`.
fn in_brackets(text: &str) -> Option<RouterAddress>
    ensures { result ≡ in_brackets text.now }
{
    let (address, rest) = parted_at_bracket(text)?;
    let port = port_behind(rest)?;
    RouterAddress::new(address, port)
}

/// A text without brackets: `ADDRESS`, or `ADDRESS:PORT` where there is one colon.
fn without_brackets(text: &str) -> Option<RouterAddress>
    ensures { result ≡ without_brackets text.now }
{
    let Some((address, digits)) = parted_at_colon(text) else {
        return RouterAddress::new(text, REGISTERED_PORT);
    };
    if parted_at_colon(digits).is_some() {
        return RouterAddress::new(text, REGISTERED_PORT);
    }
    let port = port_spelled(digits)?;
    RouterAddress::new(address, port)
}

/// What stands behind a closing bracket: nothing, or `:PORT`.
fn port_behind(text: &str) -> Option<u16>
    ensures { result ≡ port_behind text.now }
{
    if text.is_empty() {
        return Some(REGISTERED_PORT);
    }
    port_spelled(behind_colon(text)?)
}

/// A port: 1 to 5 digits, of a number from 1 to 65,535.
fn port_spelled(text: &str) -> Option<u16>
    ensures { result ≡ port_spelled text.now }
{
    if !has_port_digits(text) {
        return None;
    }
    match text.parse::<u16>() {
        Ok(port) => (port >= 1).then_some(port),
        Err(_) => None,
    }
}

fn has_port_digits(text: &str) -> bool
    ensures { result ≡ has_port_digits text.now }
{
    Letters::Digits.spell(text, 1, MOST_PORT_DIGITS)
}

/// The texts before and behind the first colon.
fn parted_at_colon(text: &str) -> Option<(&str, &str)>
    ensures { option_map (λ parts. (parts.0.now, parts.1.now)) result ≡ parted colon text.now }
{
    text.split_once(':')
}

/// The texts before and behind the first closing bracket.
fn parted_at_bracket(text: &str) -> Option<(&str, &str)>
    ensures { option_map (λ parts. (parts.0.now, parts.1.now)) result ≡ parted closing_bracket text.now }
{
    text.split_once(']')
}

/// The text behind an opening bracket, if it begins with one.
fn behind_bracket(text: &str) -> Option<&str>
    ensures { option_map (λ rest. rest.now) result ≡ behind opening_bracket text.now }
{
    text.strip_prefix('[')
}

/// The text behind a colon, if it begins with one.
fn behind_colon(text: &str) -> Option<&str>
    ensures { option_map (λ rest. rest.now) result ≡ behind colon text.now }
{
    text.strip_prefix(':')
}
