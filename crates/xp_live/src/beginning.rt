//! The begin of a run: calls of the run before that have no record get one.

ghost use Rattle.std.specs.Prelude.{◌≡◌};

use crate::left_calls::LeftCalls;
use crate::live_fault::LiveFault;
use crate::live_file::LiveFile;
use std::alloc::Global;
use std::fs::{File, Files};
use std::io;
use std::io::BufReader;
use xp_cdr::{DetailFile, RecordFile};

/// How many octets of the file of call detail records are read at once.
const PIECE: usize = 65_536;

/// What the run before left behind.
#[derive(Clone, Copy, Default)]
pub struct LeftBehind {
    /// How many of its calls got a partial record.
    pub calls: usize,
    /// When it began, in seconds since 1970, where it left live calls.
    pub started: Option<u64>,
}

/// Opens the live file at this path, and writes the lines of it whose calls have no record at the end of the file of call detail
/// records, which has just been opened, and syncs them. Records are looked for in the earlier file of this path too, if there is one.
///
/// # Errors
///
/// Why not. The live file is as it was.
pub fn begin_live<R: Files<File = File> + Copy + Drop>(
    alloc: Global,
    rt: R,
    path: &str,
    earlier: Option<&str>,
    records: &mut DetailFile<R>,
) -> Result<(LiveFile<R>, LeftBehind), LiveFault>
    ensures taken { ⟦<DetailFile<R> as RecordFile>⟧.taken records.new ≡ ⟦<DetailFile<R> as RecordFile>⟧.taken records.old }
    ensures synced { ⟦<DetailFile<R> as RecordFile>⟧.synced records.new ≡ ⟦<DetailFile<R> as RecordFile>⟧.synced records.old }
    ensures failures { ⟦<DetailFile<R> as RecordFile>⟧.failures records.new ≡ ⟦<DetailFile<R> as RecordFile>⟧.failures records.old }
{
    let (file, text) = LiveFile::open(alloc, rt, path)?;
    let left = complete_left(alloc, &rt, text.as_slice(), earlier, records)?;
    Ok((file, left))
}

/// Writes the lines of this text of a live file whose calls have no record at the end of the file of call detail records. Records are
/// looked for in the earlier file of this path too, if there is one.
fn complete_left<R: Files<File = File> + Drop>(
    alloc: Global,
    rt: &R,
    text: &[u8],
    earlier: Option<&str>,
    records: &mut DetailFile<R>,
) -> Result<LeftBehind, LiveFault>
    ensures taken { ⟦<DetailFile<R> as RecordFile>⟧.taken records.new ≡ ⟦<DetailFile<R> as RecordFile>⟧.taken records.old }
    ensures synced { ⟦<DetailFile<R> as RecordFile>⟧.synced records.new ≡ ⟦<DetailFile<R> as RecordFile>⟧.synced records.old }
    ensures failures { ⟦<DetailFile<R> as RecordFile>⟧.failures records.new ≡ ⟦<DetailFile<R> as RecordFile>⟧.failures records.old }
{
    let mut left = left_in(alloc, text)?;
    let started = left.started();
    if left.count() > 0 {
        see_earlier(rt, alloc, &mut left, earlier).map_err(LiveFault::Records)?;
        see_file(alloc, &mut left, records.reader()).map_err(LiveFault::Records)?;
    }
    let calls = complete(alloc, &left, records)?;
    Ok(LeftBehind { calls, started })
}

/// The calls of a live file of this text. One that is empty has none.
fn left_in(alloc: Global, text: &[u8]) -> Result<LeftCalls, LiveFault> {
    if text.is_empty() {
        return Ok(LeftCalls::none(alloc));
    }
    match LeftCalls::read(alloc, text) {
        Ok(Some(left)) => Ok(left),
        Ok(None) => Err(LiveFault::OtherContent),
        Err(refused) => Err(LiveFault::Read(io::Error::from(refused))),
    }
}

/// Writes these lines at the end of the file of call detail records. Returns how many they are.
fn complete<R: Files<File = File> + Drop>(
    alloc: Global,
    left: &LeftCalls,
    records: &mut DetailFile<R>,
) -> Result<usize, LiveFault>
    ensures taken { ⟦<DetailFile<R> as RecordFile>⟧.taken records.new ≡ ⟦<DetailFile<R> as RecordFile>⟧.taken records.old }
    ensures synced { ⟦<DetailFile<R> as RecordFile>⟧.synced records.new ≡ ⟦<DetailFile<R> as RecordFile>⟧.synced records.old }
    ensures failures { ⟦<DetailFile<R> as RecordFile>⟧.failures records.new ≡ ⟦<DetailFile<R> as RecordFile>⟧.failures records.old }
{
    let calls = left.count();
    if calls > 0 {
        let lines = left
            .text(alloc)
            .map_err(|refused| LiveFault::Write(io::Error::from(refused)))?;
        records
            .complete(lines.as_slice())
            .map_err(LiveFault::Write)?;
    }
    Ok(calls)
}

/// Lets those lines go whose calls have a record in the file of call detail records of this path, if there is one.
fn see_earlier<R: Files<File = File>>(
    rt: &R,
    alloc: Global,
    left: &mut LeftCalls,
    path: Option<&str>,
) -> io::Result<()> {
    match path {
        Some(path) => see_file(alloc, left, File::open(rt, path)),
        None => Ok(()),
    }
}

/// Lets those lines go whose calls have a record in this file of call detail records.
fn see_file(alloc: Global, left: &mut LeftCalls, file: io::Result<File>) -> io::Result<()> {
    let mut reader = BufReader::with_capacity(alloc, PIECE, file?)?;
    left.see_all(alloc, &mut reader)
}
