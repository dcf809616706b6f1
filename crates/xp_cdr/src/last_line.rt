//! The last line of a file of call detail records.

ghost use Rattle.std.specs.Prelude.{IfSome};
ghost use Rattle.xp_cdr.specs.Moments.{moment_text};
ghost use Rattle.xp_cdr.specs.steps.LastLine.{LastBegins};

use crate::moment::read_moment;
use memchr::{memchr, memrchr};
use std::fs::File;
use std::io;
use std::os::unix::fs::FileExt;

/// More octets than a line of a call detail record has.
const MOST: usize = 4_096;

/// The first field of the last line, as a moment in seconds since 1970. The lines end at `end`. There is none if that field is no
/// moment, or the line is too long for a call detail record.
///
/// # Errors
///
/// What the file tells.
pub fn last_started(file: &File, end: u64) -> io::Result<Option<u64>> {
    let mut buffer = [0; MOST];
    let size = end.min(MOST as u64) as usize;
    let piece = &mut buffer[..size];
    file.read_exact_at(piece, end - size as u64)?;
    Ok(started_in(piece))
}

/// The first field of the last of these lines, as a moment. A line whose begin is not there has none.
fn started_in(lines: &[u8]) -> Option<u64>
    ensures { IfSome result (λ seconds. LastBegins lines.now (moment_text seconds)) }
{
    let (_, text) = lines.split_last()?;
    let start = memrchr(b'\n', text)? + 1;
    let line = &text[start..];
    let size = memchr(b',', line)?;
    read_moment(&line[..size])
}
