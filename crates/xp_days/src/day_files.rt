//! Files of call detail records, one for each day.

ghost use Rattle.std.specs.Prelude.{◌≡◌, [], IfOk};

use crate::day::{day_of, file_name};
use crate::newest::{DayFile, newest_day};
use std::alloc::AllocGlobal;
use std::fs::{File, Files};
use std::io;
use xp_cdr::{DetailFile, OpenFault, Opened, Place, RecordFile};
use xp_past::Past;

/// The files of call detail records of a directory, one for each day in UTC, as `calls-2026-11-28.csv`. That of the last day is open,
/// and no other exchange can open it. Once that of a later day is begun, it is closed for ever.
#[derive(Drop)]
pub struct DayFiles<R: Files<File = File> + Drop> {
    directory: String,
    /// The day of the open file.
    day: u64,
    file: DetailFile<R>,
    /// What the files of earlier days have taken.
    before: Past<u8>,
}

impl<R: Files<File = File> + Drop> RecordFile for DayFiles<R> {
    ghost use Rattle.xp_days.specs.Days.{day_of};

    ghost taken = { λ files. ⟦<DetailFile<R> as RecordFile>⟧.taken files.file };

    ghost synced = { λ files. ⟦<DetailFile<R> as RecordFile>⟧.synced files.file };

    ghost failures = { λ files. ⟦<DetailFile<R> as RecordFile>⟧.failures files.file };

    ghost part_of = { day_of };

    ghost current = { λ files. record { part = files.day; before = files.before.items } };

    fn part_at(&self, moment: u64) -> u64 {
        day_of(moment)
    }

    fn open_part(&self) -> u64 {
        self.day
    }

    fn name(&self) -> &str {
        self.file.name()
    }

    fn append(&mut self, octets: &[u8]) -> io::Result<usize> {
        self.file.append(octets)
    }

    fn sync(&mut self) -> io::Result<()> {
        self.file.sync()
    }

    fn cut_back(&mut self) -> io::Result<()> {
        self.file.cut_back()
    }

    fn follow(&mut self) -> Result<Place, OpenFault> {
        self.file.follow()
    }

    fn begin(&mut self, part: u64) -> Result<(), OpenFault> {
        let name = file_name(part);
        self.file.go_on_at(self.directory.as_str(), name.as_str())?;
        self.day = part;
        self.before = self.file.taken();
        Ok(())
    }
}

impl<R: Files<File = File> + Drop> DayFiles<R> {
    /// The files of the days of this directory, of which that of this day is open.
    pub fn new(directory: String, day: u64, file: DetailFile<R>) -> DayFiles<R>
        ensures taken { ⟦<DayFiles<R> as RecordFile>⟧.taken result ≡ ⟦<DetailFile<R> as RecordFile>⟧.taken file }
        ensures synced { ⟦<DayFiles<R> as RecordFile>⟧.synced result ≡ ⟦<DetailFile<R> as RecordFile>⟧.synced file }
        ensures current { ⟦<DayFiles<R> as RecordFile>⟧.current result ≡ record { part = day; before = [] } }
        ensures failures { ⟦<DayFiles<R> as RecordFile>⟧.failures result ≡ ⟦<DetailFile<R> as RecordFile>⟧.failures file }
    {
        DayFiles {
            directory,
            day,
            file,
            before: Past::new(),
        }
    }
}

/// Opens this file of a day, which is the newest of this directory (`newest_file`), as `DetailFile::open` does.
///
/// # Errors
///
/// Why it was not opened. `InUse` too where another exchange has just begun the file of a later day, up to `today`.
pub fn open_newest<R: AllocGlobal + Copy + Drop + Files<File = File>>(
    rt: R,
    directory: &str,
    newest: &DayFile,
    today: u64,
) -> Result<(DetailFile<R>, Opened), OpenFault>
    ensures taken { IfOk result (λ opened. ⟦<DetailFile<R> as RecordFile>⟧.taken opened.0 ≡ []) }
    ensures synced { IfOk result (λ opened. ⟦<DetailFile<R> as RecordFile>⟧.synced opened.0 ≡ []) }
    ensures failures { IfOk result (λ opened. ⟦<DetailFile<R> as RecordFile>⟧.failures opened.0 ≡ 0) }
{
    let (file, opened) = DetailFile::open(rt.alloc(), rt, newest.path.as_str())?;
    expect_none_later(&rt, directory, newest.day, today)?;
    Ok((file, opened))
}

/// Fails with `InUse` where another exchange has begun the file of a later day than this one, up to `today`.
fn expect_none_later<R: AllocGlobal + Clone + Drop + Files<File = File>>(
    rt: &R,
    directory: &str,
    day: u64,
    today: u64,
) -> Result<(), OpenFault> {
    match newest_day(rt, directory, today)? {
        Some(newest) if newest > day => Err(OpenFault::InUse),
        _ => Ok(()),
    }
}
