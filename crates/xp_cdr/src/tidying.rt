//! Tidying a file of call detail records as it is opened.

ghost use Rattle.std.specs.Prelude.{◌≤◌, IfOk};

use crate::detail::{HEADER, OLD_HEADER};
use crate::last_line::last_started;
use crate::opening::{OpenFault, Opened};
use crate::torn::end_of_lines;
use std::fs::File;
use std::io;
use std::io::Write;
use std::os::unix::fs::FileExt;

/// How a file lies there as it is opened.
#[derive(Clone, Copy)]
struct Found {
    /// How long it is.
    length: u64,
    columns: Columns,
    /// Where its last whole line ends.
    end: u64,
    /// When the exchange began whose record is that line.
    last_started: Option<u64>,
}

/// Cuts off a torn last line, and writes the names of the fields if there is no line. Returns how the file was found, and how long
/// it is now.
pub(crate) fn tidy(file: &File) -> Result<(Opened, u64), OpenFault> {
    let found = find(file).map_err(OpenFault::Read)?;
    match found.columns {
        Columns::These => {}
        Columns::Old => return Err(OpenFault::OldColumns(found.last_started)),
        Columns::Other => return Err(OpenFault::OtherContent),
    }
    write_lines(file, found.length, found.end).map_err(OpenFault::Write)?;
    let opened = Opened {
        is_new: found.end == 0,
        torn: found.length - found.end,
        last_started: found.last_started,
        moved_aside: false,
    };
    Ok((opened, found.end.max(HEADER.len() as u64)))
}

/// Reads how a file lies there.
fn find(file: &File) -> io::Result<Found>
    ensures { IfOk result (λ found. found.end ≤ found.length) }
{
    let length = file.metadata()?.len();
    let columns = columns_of(file, length)?;
    let end = end_of_lines(file, length)?;
    let last_started = last_started(file, end)?;
    Ok(Found {
        length,
        columns,
        end,
        last_started,
    })
}

/// Cuts a file of this length back to the end of its lines, and writes the names of the fields if it has no line.
fn write_lines(mut file: &File, length: u64, end: u64) -> io::Result<()> {
    if end < length {
        file.set_len(end)?;
    }
    if end == 0 {
        file.write_all(HEADER.as_bytes())?;
    }
    file.sync_all()
}

/// Which columns a file has.
#[derive(Clone, Copy)]
enum Columns {
    These,
    /// Those of call detail records before they told their exchange and by what a call ended.
    Old,
    Other,
}

/// Which columns a file of this length has, by its first line, or by as many octets of it as it has.
fn columns_of(file: &File, length: u64) -> io::Result<Columns> {
    let names = HEADER.as_bytes();
    let mut buffer = [0; HEADER.len()];
    let size = length.min(names.len() as u64) as usize;
    let front = &mut buffer[..size];
    file.read_exact_at(front, 0)?;
    if names.starts_with(front) {
        Ok(Columns::These)
    } else if front.starts_with(OLD_HEADER.as_bytes()) {
        Ok(Columns::Old)
    } else {
        Ok(Columns::Other)
    }
}
