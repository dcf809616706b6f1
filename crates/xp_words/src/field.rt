//! A facility field in words.

ghost use Rattle.std.specs.Prelude.{Some};
ghost use Rattle.xp_words.specs.Facilities.{field_text, rest_text};

use crate::facility::{Facility, MARKER, ValueWords};
use crate::octets::{HexOctet, HexOctets};
use std::fmt::{self, Display};

/// A facility field in words, with a comma and a space before each facility, such as `, reverse charging, window 3/3`.
/// What stands behind the first marker, or is cut off, is told in hexadecimal.
#[derive(Clone, Copy)]
pub(crate) struct FieldWords<'a>(pub(crate) &'a [u8]);

impl Display for FieldWords<'_> {
    ghost output = { λ field. Some (field_text field.0.now) };

    fn fmt<W: fmt::Write>(&self, f: &mut fmt::Formatter<W>) -> fmt::Result {
        let mut rest = self.0;
        while let Some((facility, behind)) = Facility::first(rest) {
            write!(f, ", {facility}")?;
            rest = behind;
        }
        Rest(rest).fmt(f)
    }
}

/// What stands behind the facilities before the first marker.
#[derive(Clone, Copy)]
struct Rest<'a>(&'a [u8]);

impl Display for Rest<'_> {
    ghost output = { λ rest. Some (rest_text rest.0.now) };

    fn fmt<W: fmt::Write>(&self, f: &mut fmt::Formatter<W>) -> fmt::Result {
        match self.0 {
            [] => Ok(()),
            [MARKER, parameter, octets @ ..] => {
                write!(f, ", marker {}{}", HexOctet(*parameter), ValueWords(octets))
            }
            _ => write!(f, ", cut off {}", HexOctets(self.0)),
        }
    }
}
