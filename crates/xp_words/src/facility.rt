//! Facilities in words (X.25 clause 7.2).

ghost use Rattle.std.specs.Prelude.{◌≡◌, ◌<◌, ◌≤◌, ◌^◌, None, Some, MatchOption, IfSome, length};
ghost use Rattle.xp_words.specs.Facilities.{half_octets_text, cut, fast_select_text, first_facility, named_text, parameters_text, reason_text, request_text, reverse_charging_text, redirection_text, size_text, value_text};

use crate::names::{facility_name, reason_name};
use crate::octets::{HexOctet, HexOctets, hex_digit};
use std::fmt::{self, Display};

/// The code of a marker. The facilities behind it belong to a network, or are between DTEs.
pub(crate) const MARKER: u8 = 0x00;

/// The first code whose parameters follow a length octet. The classes of codes below it have one, two and three octets of
/// parameters (X.25 clause 7.1).
const FIRST_COUNTED: u8 = 0xc0;

/// A facility: its code and its parameters.
#[derive(Clone, Copy)]
pub(crate) struct Facility<'a> {
    code: u8,
    parameters: &'a [u8],
}

impl<'a> Facility<'a> {
    /// The facility at the front of the octets, and the octets behind it. `None` at a marker, at the end, and where the facility
    /// is cut off.
    pub(crate) fn first(octets: &'a [u8]) -> Option<(Facility<'a>, &'a [u8])>
        ensures facility { MatchOption result (first_facility octets.now ≡ None)
            (λ front. first_facility octets.now ≡ Some (record { code = front.0.code; parameters = front.0.parameters.now }, front.1.now)) }
        ensures shorter { IfSome result (λ front. length front.1.now < length octets.now) }
    {
        let (code, behind) = octets.split_first()?;
        let (count, counted) = behind.split_first()?;
        match *code {
            MARKER => None,
            code if code < FIRST_COUNTED => Facility::cut(code, usize::from(code) / 64 + 1, behind),
            code => Facility::cut(code, usize::from(*count), counted),
        }
    }

    /// The facility whose `count` octets of parameters are at the front of the octets, and the octets behind it.
    fn cut(code: u8, count: usize, octets: &'a [u8]) -> Option<(Facility<'a>, &'a [u8])>
        ensures facility { MatchOption result (cut code count octets.now ≡ None)
            (λ front. cut code count octets.now ≡ Some (record { code = front.0.code; parameters = front.0.parameters.now }, front.1.now)) }
        ensures shorter { IfSome result (λ front. length front.1.now ≤ length octets.now) }
    {
        if octets.len() < count {
            return None;
        }
        let (parameters, behind) = octets.split_at(count);
        Some((Facility { code, parameters }, behind))
    }
}

impl Display for Facility<'_> {
    ghost use Rattle.std.specs.Prelude.{Some};

    ghost output = { λ facility. Some (parameters_text facility.code facility.parameters.now) };

    fn fmt<W: fmt::Write>(&self, f: &mut fmt::Formatter<W>) -> fmt::Result {
        let code = self.code;
        let named = Named {
            code,
            parameters: self.parameters,
        };
        match self.parameters {
            [octet] => match code {
                0x01 => write!(f, "{}{}", reverse_charging(*octet), fast_select(*octet)),
                0x04 => write!(f, "charging information {}", request(*octet)),
                0x08 => write!(f, "called line address modified ({})", ReasonWords(*octet)),
                _ => named.fmt(f),
            },
            [called, calling] => match code {
                0x42 => write!(
                    f,
                    "packet size {}/{}",
                    PacketSize(*called),
                    PacketSize(*calling)
                ),
                0x43 => write!(f, "window {called}/{calling}"),
                _ => named.fmt(f),
            },
            [reason, count, digits @ ..] if code == 0xc3 => Redirection {
                reason: *reason,
                count: *count,
                digits,
            }
            .fmt(f),
            _ => named.fmt(f),
        }
    }
}

fn reverse_charging(octet: u8) -> &'static str
    ensures { result.now ≡ reverse_charging_text octet }
{
    if octet % 2 == 1 {
        "reverse charging, "
    } else {
        ""
    }
}

fn fast_select(octet: u8) -> &'static str
    ensures { result.now ≡ fast_select_text octet }
{
    match octet / 64 {
        2 => "fast select",
        3 => "restricted fast select",
        _ => "no fast select",
    }
}

fn request(octet: u8) -> &'static str
    ensures { result.now ≡ request_text octet }
{
    if octet % 2 == 1 {
        "requested"
    } else {
        "not requested"
    }
}

/// Why a call goes to another address.
#[derive(Clone, Copy)]
struct ReasonWords(u8);

impl Display for ReasonWords {
    ghost output = { λ reason. Some (reason_text reason.0) };

    fn fmt<W: fmt::Write>(&self, f: &mut fmt::Formatter<W>) -> fmt::Result {
        match reason_name(self.0) {
            Some(name) => f.write_str(name),
            None => HexOctet(self.0).fmt(f),
        }
    }
}

/// A packet size, as a power of two.
#[derive(Clone, Copy)]
struct PacketSize(u8);

impl Display for PacketSize {
    ghost output = { λ size. Some (size_text size.0) };

    fn fmt<W: fmt::Write>(&self, f: &mut fmt::Formatter<W>) -> fmt::Result {
        match self.0 {
            4..=12 => {
                let octets = 2u16.pow(u32::from(self.0));
                write!(f, "{octets}")
            }
            power => HexOctet(power).fmt(f),
        }
    }
}

/// A call redirection notification.
#[derive(Clone, Copy)]
struct Redirection<'a> {
    reason: u8,
    count: u8,
    digits: &'a [u8],
}

impl Display for Redirection<'_> {
    ghost use Rattle.std.specs.Prelude.{Some};

    ghost output = { λ facility. Some (redirection_text facility.reason facility.count facility.digits.now) };

    fn fmt<W: fmt::Write>(&self, f: &mut fmt::Formatter<W>) -> fmt::Result {
        let address = Address {
            count: self.count,
            octets: self.digits,
        };
        write!(
            f,
            "call redirection ({}) from {address}",
            ReasonWords(self.reason)
        )
    }
}

/// An address in half-octets.
#[derive(Clone, Copy)]
struct Address<'a> {
    count: u8,
    octets: &'a [u8],
}

impl Display for Address<'_> {
    ghost output = { λ address. Some (half_octets_text address.count address.octets.now) };

    fn fmt<W: fmt::Write>(&self, f: &mut fmt::Formatter<W>) -> fmt::Result {
        let whole = usize::from(self.count / 2);
        if self.count % 2 == 1 && whole < self.octets.len() {
            let last = hex_digit(self.octets[whole] / 16);
            write!(f, "{}{last}", HexOctets(&self.octets[..whole]))
        } else {
            HexOctets(self.octets).fmt(f)
        }
    }
}

/// A facility by its name, or else by its code, with its parameters in hexadecimal.
#[derive(Clone, Copy)]
struct Named<'a> {
    code: u8,
    parameters: &'a [u8],
}

impl Display for Named<'_> {
    ghost use Rattle.std.specs.Prelude.{Some};

    ghost output = { λ facility. Some (named_text facility.code facility.parameters.now) };

    fn fmt<W: fmt::Write>(&self, f: &mut fmt::Formatter<W>) -> fmt::Result {
        let value = ValueWords(self.parameters);
        match facility_name(self.code) {
            Some(name) => write!(f, "{name}{value}"),
            None => write!(f, "facility {}{value}", HexOctet(self.code)),
        }
    }
}

/// Octets behind their name, in hexadecimal.
#[derive(Clone, Copy)]
pub(crate) struct ValueWords<'a>(pub(crate) &'a [u8]);

impl Display for ValueWords<'_> {
    ghost output = { λ value. Some (value_text value.0.now) };

    fn fmt<W: fmt::Write>(&self, f: &mut fmt::Formatter<W>) -> fmt::Result {
        match self.0 {
            [] => Ok(()),
            [_, ..] => write!(f, " {}", HexOctets(self.0)),
        }
    }
}
