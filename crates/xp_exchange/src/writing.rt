//! Writes text to a writer.

ghost use Rattle.xp_exchange.specs.Acting.{Puts};

use crate::fault::ReplayFault;
use std::io::Write;

/// Writes the whole text. If the writer fails, a prefix of the text is written.
pub fn write_out<W: Write>(writer: &mut W, text: &[u8]) -> Result<(), ReplayFault>
    ensures { Puts (W.contents writer.old) (W.contents writer.new) text.now result }
{
    match xp_writing::write_out(writer, text) {
        Ok(()) => Ok(()),
        Err(_) => Err(ReplayFault::Write),
    }
}
