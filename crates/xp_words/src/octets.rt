//! Octets in hexadecimal and as text.

ghost use Rattle.std.specs.Prelude.{◌≡◌, ◌<◌, false};
ghost use Rattle.std.specs.Fmt.{digit_glyph};
ghost use Rattle.xp_words.specs.Octets.{both_texts, hex_pair, hex_text, octets_text, shown};

use std::fmt::{self, Display};

/// User data in words: how many octets, each in hexadecimal, and as text, such as `5 octets 68656c6c6f "hello"`. In the text a
/// full stop stands for an octet that is no printable character of ASCII.
#[derive(Clone, Copy)]
pub struct OctetWords<'a> {
    pub octets: &'a [u8],
}

impl Display for OctetWords<'_> {
    ghost use Rattle.std.specs.Prelude.{Some};

    ghost output = { λ words. Some (octets_text words.octets.now) };

    fn fmt<W: fmt::Write>(&self, f: &mut fmt::Formatter<W>) -> fmt::Result {
        let texts = BothTexts(self.octets);
        match self.octets.len() {
            0 => f.write_str("no octets"),
            1 => write!(f, "1 octet {texts}"),
            count => write!(f, "{count} octets {texts}"),
        }
    }
}

/// Octets in hexadecimal, and behind them as text.
#[derive(Clone, Copy)]
pub(crate) struct BothTexts<'a>(pub(crate) &'a [u8]);

impl Display for BothTexts<'_> {
    ghost use Rattle.std.specs.Prelude.{Some};

    ghost output = { λ words. Some (both_texts words.0.now) };

    fn fmt<W: fmt::Write>(&self, f: &mut fmt::Formatter<W>) -> fmt::Result {
        write!(f, "{} \"{}\"", HexOctets(self.0), OctetText(self.0))
    }
}

/// An octet as two hexadecimal digits.
#[derive(Clone, Copy)]
pub(crate) struct HexOctet(pub(crate) u8);

impl Display for HexOctet {
    ghost use Rattle.std.specs.Prelude.{Some};

    ghost output = { λ octet. Some (hex_pair octet.0) };

    fn fmt<W: fmt::Write>(&self, f: &mut fmt::Formatter<W>) -> fmt::Result {
        write!(f, "{}{}", hex_digit(self.0 / 16), hex_digit(self.0 % 16))
    }
}

/// The hexadecimal digit of a half-octet, 0 to 15.
pub(crate) fn hex_digit(half: u8) -> char
    requires { half < 16 }
    ensures { result ≡ digit_glyph false half }
{
    if half < 10 {
        char::from(b'0' + half)
    } else {
        char::from(b'a' + (half - 10))
    }
}

/// Octets in hexadecimal.
#[derive(Clone, Copy)]
pub(crate) struct HexOctets<'a>(pub(crate) &'a [u8]);

impl Display for HexOctets<'_> {
    ghost use Rattle.std.specs.Prelude.{Some};

    ghost output = { λ octets. Some (hex_text octets.0.now) };

    fn fmt<W: fmt::Write>(&self, f: &mut fmt::Formatter<W>) -> fmt::Result {
        for octet in self.0 {
            HexOctet(*octet).fmt(f)?;
        }
        Ok(())
    }
}

/// Octets as text.
#[derive(Clone, Copy)]
struct OctetText<'a>(&'a [u8]);

impl Display for OctetText<'_> {
    ghost use Rattle.std.specs.Prelude.{Some, map};

    ghost output = { λ octets. Some (map shown octets.0.now) };

    fn fmt<W: fmt::Write>(&self, f: &mut fmt::Formatter<W>) -> fmt::Result {
        for octet in self.0 {
            f.write_char(shown(*octet))?;
        }
        Ok(())
    }
}

/// A printable character of ASCII, or a full stop in the place of any other octet.
fn shown(octet: u8) -> char
    ensures { result ≡ shown octet }
{
    match octet {
        b' '..=b'~' => char::from(octet),
        _ => '.',
    }
}
