//! The address that a call request dials.

ghost use Rattle.std.specs.Prelude.{◌≡◌};
ghost use Rattle.xp_door.specs.Calls.{dialled_by};
ghost use Rattle.xp_door.specs.steps.Notices.{glyph, halves_of};

use crate::packet_fronts::octet_at;
use std::fmt;

/// How many digits an address has at most.
const MOST_DIGITS: u8 = 15;

/// The called address of a call request: at most 15 half-octets. In a packet that the exchange takes for a call request each is a
/// digit, 0 to 9.
#[derive(Clone, Copy)]
pub struct Dialled {
    /// As many half-octets as an address may have.
    halves: [u8; 15],
    /// How many of them the address has, 0 to 15.
    count: u8,
}

impl Dialled {
    /// The called address of a call request, by its first 12 octets (X.25 clause 5.2.1): the digits of the called address stand before
    /// those of the calling one.
    pub(crate) fn of(packet: &[u8]) -> Dialled
        ensures { result ≡ dialled_by packet.now }
    {
        let [a, b, c, d, e, f, g, h] = [
            octet_at(packet, 4),
            octet_at(packet, 5),
            octet_at(packet, 6),
            octet_at(packet, 7),
            octet_at(packet, 8),
            octet_at(packet, 9),
            octet_at(packet, 10),
            octet_at(packet, 11),
        ];
        Dialled {
            halves: [
                a / 16,
                a % 16,
                b / 16,
                b % 16,
                c / 16,
                c % 16,
                d / 16,
                d % 16,
                e / 16,
                e % 16,
                f / 16,
                f % 16,
                g / 16,
                g % 16,
                h / 16,
            ],
            count: octet_at(packet, 3) % 16,
        }
    }

    /// Its half-octets.
    fn halves(&self) -> &[u8]
        ensures { result.now ≡ halves_of self.now }
    {
        &self.halves[..usize::from(self.count.min(MOST_DIGITS))]
    }
}

/// Its digits, a question mark for a half-octet that is none; or `no address`.
impl fmt::Display for Dialled {
    ghost use Rattle.std.specs.Prelude.{Some};
    ghost use Rattle.xp_door.specs.steps.Notices.{dialled_text};

    ghost output = { λ dialled. Some (dialled_text dialled) };

    fn fmt<W: fmt::Write>(&self, f: &mut fmt::Formatter<W>) -> fmt::Result {
        match self.halves() {
            [] => f.write_str("no address"),
            halves => write!(f, "{}", Halves(halves)),
        }
    }
}

/// Half-octets as digits.
#[derive(Clone, Copy)]
struct Halves<'a>(&'a [u8]);

impl fmt::Display for Halves<'_> {
    ghost use Rattle.std.specs.Prelude.{Some, map};
    ghost use Rattle.xp_door.specs.steps.Notices.{glyph};

    ghost output = { λ halves. Some (map glyph halves.0.now) };

    fn fmt<W: fmt::Write>(&self, f: &mut fmt::Formatter<W>) -> fmt::Result {
        for half in self.0 {
            write!(f, "{}", glyph(*half))?;
        }
        Ok(())
    }
}

/// The digit that a half-octet is, or a question mark.
fn glyph(half: u8) -> char
    ensures { result ≡ glyph half }
{
    match half {
        0..=9 => char::from(b'0' + half),
        _ => '?',
    }
}
