//! The last line of a file, which a loss of power may have torn.

ghost use Rattle.std.specs.Prelude.{◌≤◌, IfOk};

use memchr::memrchr;
use std::fs::File;
use std::io;
use std::os::unix::fs::FileExt;

/// How many octets are read at once.
const PIECE: usize = 4_096;

/// Where the last whole line of a file of this length ends: behind its last line feed, or at 0 if it has none.
pub fn end_of_lines(file: &File, length: u64) -> io::Result<u64>
    ensures { IfOk result (λ end. end ≤ length) }
{
    let mut buffer = [0; PIECE];
    let mut end = length;
    while end > 0 {
        let size = end.min(PIECE as u64) as usize;
        let start = end - size as u64;
        let piece = &mut buffer[..size];
        file.read_exact_at(piece, start)?;
        if let Some(place) = memrchr(b'\n', piece) {
            return Ok(start + place as u64 + 1);
        }
        end = start;
    }
    Ok(0)
}
