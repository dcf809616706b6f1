//! Writing lines on an output.

ghost use Rattle.std.specs.Prelude.{[]};
ghost use Rattle.xp_keeping.specs.Printing.{Prints};

use crate::keep_fault::KeepFault;
use std::io::Write;
use xp_writing::write_out;

/// Writes lines.
pub(crate) fn write_lines<W: Write>(lines: &[u8], output: &mut W) -> Result<(), KeepFault>
    ensures { Prints (W.contents output.old) (W.contents output.new) lines.now result }
{
    match write_out(output, lines) {
        Ok(()) => Ok(()),
        Err(_) => Err(KeepFault::Output),
    }
}

/// Flushes the output.
pub(crate) fn flush<W: Write>(output: &mut W) -> Result<(), KeepFault>
    ensures { Prints (W.contents output.old) (W.contents output.new) [] result }
{
    match output.flush() {
        Ok(()) => Ok(()),
        Err(_) => Err(KeepFault::Output),
    }
}
