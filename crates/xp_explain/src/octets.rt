//! Octets in hexadecimal digits, as an operator writes them.

ghost use Rattle.std.specs.Prelude.{◌≡◌, IfErr, IfOk, length};
ghost use Rattle.xp_explain.specs.Octets.{AreOctetsOf, IsFaultOf};
ghost use Rattle.xp_explain.specs.steps.Octets.{fault_by};
ghost use Rattle.xp_explain.specs.declared.octets.OctetsFault.TheVariants.{Memory as OutOfMemory};

use hex::FromHexError;
use std::alloc::{AllocError, Global};
use std::fmt;
use xp_packets::Octets;

/// Why a text is not so many octets, in words for a person.
#[derive(Clone, Copy, Drop)]
pub enum OctetsFault {
    /// So many characters, an odd number.
    Odd(usize),
    /// This character, which is no hexadecimal digit.
    NoDigit(char),
    /// More octets than these.
    Over { most: usize, found: usize },
    Memory,
}

impl From<AllocError> for OctetsFault {
    ghost from_gives = { λ _ fault. fault ≡ OutOfMemory };

    fn from(_refused: AllocError) -> OctetsFault {
        OctetsFault::Memory
    }
}

impl fmt::Display for OctetsFault {
    fn fmt<W: fmt::Write>(&self, f: &mut fmt::Formatter<W>) -> fmt::Result {
        match *self {
            OctetsFault::Odd(found) => write!(
                f,
                "an even number of hexadecimal digits is wanted, found {found}"
            ),
            OctetsFault::NoDigit(found) => write!(
                f,
                "hexadecimal digits are wanted, found \"{}\"",
                found.escape_default()
            ),
            OctetsFault::Over { most, found } => {
                write!(f, "at most {most} octets are wanted, found {found}")
            }
            OctetsFault::Memory => f.write_str("out of memory"),
        }
    }
}

/// The octets that hexadecimal digits of either case stand for, at most so many.
///
/// # Errors
///
/// As [`OctetsFault`] says.
pub fn octets_in(alloc: Global, text: &str, most: usize) -> Result<Octets, OctetsFault>
    ensures octets { IfOk result (AreOctetsOf text.now most) }
    ensures fault { IfErr result (IsFaultOf text.now most) }
{
    match hex::decode(alloc, text) {
        Ok(octets) if octets.len() <= most => Ok(Octets::from_vec(octets)?),
        Ok(octets) => Err(OctetsFault::Over {
            most,
            found: octets.len(),
        }),
        Err(error) => Err(fault_of(text, error)),
    }
}

/// The fault of a text that is not decoded for this reason.
fn fault_of(text: &str, error: FromHexError) -> OctetsFault
    ensures { result ≡ fault_by (length text.now) error }
{
    match error {
        FromHexError::OddLength => OctetsFault::Odd(text.len()),
        FromHexError::InvalidHexCharacter { c, index: _ } => OctetsFault::NoDigit(c),
        FromHexError::OutOfMemory | FromHexError::InvalidStringLength => OctetsFault::Memory,
    }
}
