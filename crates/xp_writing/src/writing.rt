//! Writes text to a writer.

ghost use Rattle.xp_writing.specs.Writing.{Puts};

use std::io::{ErrorKind, Write};
use thiserror::Error;

/// A writer has failed. It has taken a front of the text.
#[derive(Clone, Copy, Debug, PartialEq, Eq, Error)]
#[error("the writer failed")]
pub struct NotWritten;

/// Writes the whole text. This does not call `write_all`, whose contract does not say what is written when the writer fails.
///
/// # Errors
///
/// `NotWritten` where the writer fails. Then a front of the text is written.
#[inline(always)]
pub fn write_out<W: Write>(writer: &mut W, text: &[u8]) -> Result<(), NotWritten>
    ensures { Puts (W.contents writer.old) (W.contents writer.new) text.now result }
{
    let mut rest = text;
    for _ in 0..u64::MAX {
        if rest.is_empty() {
            return Ok(());
        }
        match writer.write(rest) {
            Ok(0) => return Err(NotWritten),
            Ok(count) => rest = &rest[count..],
            Err(error) => {
                if error.kind() != ErrorKind::Interrupted {
                    return Err(NotWritten);
                }
            }
        }
    }
    Err(NotWritten)
}
